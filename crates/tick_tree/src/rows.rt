// Trees of small statements, by computation. Their functions do nothing.

ghost use Rattle.std.specs.Prelude.{◌≡◌, ℕ, [], ◌∷◌, Option, Some, None};
ghost use Rattle.kernel_terms.specs.Statements.{Nothing, Emit, Assign, If, Present, Loop, Send};
ghost use Rattle.kernel_terms.specs.Statements as stmt;
ghost use Rattle.tick_tree.specs.definitions.Shapes.{starting_shape, resuming_shape};
ghost use Rattle.tick_tree.specs.definitions.Trees.{Tree, Seq, Alt, tree_of, tree_of_some, starting_tree, resuming_tree};
ghost use Rattle.tick_tree.specs.definitions.Precedence.{IsCausal, IsCausalIf, HasCausalTrees};
ghost use Rattle.tick_tree.specs.definitions.Weight.{weight_of, nowhere, starting_weight, resuming_weight};
ghost use Rattle.tick_tree.specs.Rows.{causes_itself, emits_value_of, sees_own_emission, weakly_sees_own_emission};
ghost use Rattle.tick_tree.specs.Rows.{two_pauses, places, two_pauses_resumed, new_copies, new_copies_resumed};
ghost use Rattle.tick_tree.specs.Rows.{joints, joints_started, joints_resumed, sees_beside, see_each_other};
ghost use Rattle.tick_tree.specs.Rows.{suspends_itself, aborts_itself};
ghost use Rattle.tick_tree.specs.Rows.{reads_before_emission, reads_or_emits, choices_see_each_other};
ghost use Rattle.tick_tree.specs.Rows.{reading_all, testing_all, reading_leaf, testing_leaf, bare_leaf};
ghost use Rattle.tick_tree.specs.Rows.{endless, endless_resumed};
ghost use Rattle.tick_tree.specs.Rows.{beside_term, beside_term_started, beside_term_resumed};
ghost use Rattle.tick_tree.specs.Rows.{send_five, pause_if_present, emit_if_less, emit_if_alone};

/// An emission after a test of the same signal isn't causal.
pub fn self_causing_signal()
    ensures { (at : ℕ → ℕ) → IsCausal (tree_of 0 (starting_shape at 0 causes_itself)) → ⊥ }
{}

/// An emission that reads the signal that it emits precedes itself, and one that reads another signal doesn't.
pub fn emission_precedes_itself()
    ensures own { (at : ℕ → ℕ) → IsCausal (tree_of 2 (starting_shape at 0 (emits_value_of 0))) → ⊥ }
    ensures another { (at : ℕ → ℕ) → IsCausal (tree_of 2 (starting_shape at 0 (emits_value_of 1))) }
{}

/// A strong immediate abort whose body emits the signal that it looks at isn't causal.
pub fn immediate_abort_sees_own_emission()
    ensures { (at : ℕ → ℕ) → IsCausal (tree_of 2 (starting_shape at 0 sees_own_emission)) → ⊥ }
{}

/// A weak one is, since its test stands beside its body.
pub fn immediate_weak_abort_sees_own_emission()
    ensures { (at : ℕ → ℕ) → IsCausal (tree_of 2 (starting_shape at 0 weakly_sees_own_emission)) }
{}

/// In a later tick either pause ends, and what follows it starts.
pub fn resumed_sequence()
    ensures { tree_of_some 2 (resuming_shape places 0 two_pauses) ≡ Some two_pauses_resumed }
{}

/// Each turn of a loop has a new copy of a local signal: here there are three in one tick.
pub fn new_copy_of_local_each_turn()
    ensures { tree_of_some 2 (resuming_shape (λ n. n) 0 new_copies) ≡ Some new_copies_resumed }
{}

/// Both trees of a trap with branches that stand beside each other, suspended, aborted and chosen.
pub fn joints_of_trees()
    ensures starting { tree_of 2 (starting_shape (λ n. n) 0 joints) ≡ joints_started }
    ensures resuming { tree_of_some 2 (resuming_shape (λ n. n) 0 joints) ≡ Some joints_resumed }
{}

/// A test of a signal that another branch emits is causal.
pub fn emission_beside_its_test()
    ensures { (at : ℕ → ℕ) → IsCausal (tree_of 2 (starting_shape at 0 sees_beside)) }
{}

/// Two branches that emit each what the other tests aren't.
pub fn branches_that_see_each_other()
    ensures { (at : ℕ → ℕ) → IsCausal (tree_of 2 (starting_shape at 0 see_each_other)) → ⊥ }
{}

/// A later tick of a suspend or of a strong abort whose body emits the signal that it looks at isn't causal.
pub fn resumed_tests_see_own_emission()
    ensures suspension { (at : ℕ → ℕ) →
        IsCausalIf (tree_of_some 1 (resuming_shape at 0 suspends_itself)) → ⊥ }
    ensures abortion { (at : ℕ → ℕ) →
        IsCausalIf (tree_of_some 1 (resuming_shape at 0 aborts_itself)) → ⊥ }
{}

/// The trees of a term have the places of its statements. Both are causal.
pub fn term_with_places()
    ensures starting { starting_tree beside_term 2 ≡ beside_term_started }
    ensures resuming { resuming_tree beside_term 2 ≡ Some beside_term_resumed }
    ensures causal { HasCausalTrees beside_term 2 }
{}

/// No later tick of an emission does anything.
pub fn emissions_do_not_resume()
    ensures { (at : ℕ → ℕ) (n s : ℕ) → tree_of_some 1 (resuming_shape at n (Emit s None)) ≡ None }
{}

/// The value of a send weighs in the starting tree alone.
pub fn weight_of_a_send()
    ensures starting { starting_weight send_five ≡ 2 }
    ensures resuming { resuming_weight send_five ≡ 1 }
    ensures whole { weight_of send_five ≡ 3 }
{}

/// A test weighs its nodes and 1, and the empty branch 1.
pub fn weights_of_tests()
    ensures pause { weight_of pause_if_present ≡ 5 }
    ensures less { weight_of emit_if_less ≡ 6 }
    ensures alone { weight_of emit_if_alone ≡ 7 }
{}

/// An emission doesn't precede what reads its signal in another tick or in another branch of a choice.
pub fn alternatives_have_no_order()
    ensures sequence { (at : ℕ → ℕ) →
        IsCausalIf (tree_of_some 1 (resuming_shape at 0 reads_before_emission)) }
    ensures choice { (at : ℕ → ℕ) → IsCausal (tree_of 1 (starting_shape at 0 reads_or_emits)) }
{}

/// It does precede it there where another branch reads the signal, whatever branch is taken.
pub fn emission_precedes_reads_in_other_branches()
    ensures { (at : ℕ → ℕ) → IsCausal (tree_of 3 (starting_shape at 0 choices_see_each_other)) → ⊥ }
{}

/// What leaves with an expression or a test read, and how many nodes they have.
pub fn leaves_read_their_expressions()
    ensures emission { tree_of 6 (starting_shape nowhere 0 (Emit 3 (Some reading_all))) ≡
        reading_leaf (3 ∷ []) }
    ensures assignment { tree_of 6 (starting_shape nowhere 0 (Assign 0 reading_all)) ≡
        reading_leaf [] }
    ensures send { tree_of 6 (starting_shape nowhere 0 (Send 0 reading_all)) ≡ reading_leaf [] }
    ensures condition { tree_of 6 (starting_shape nowhere 0 (If reading_all Nothing Nothing))
        ≡ Seq (reading_leaf []) (Alt (bare_leaf 1 0) (bare_leaf 2 0)) }
    ensures test { tree_of 6 (starting_shape nowhere 0 (Present testing_all Nothing Nothing))
        ≡ Seq testing_leaf (Alt (bare_leaf 1 0) (bare_leaf 2 0)) }
{}

/// Nothing starts behind what can't end in a later tick.
pub fn nothing_starts_behind_endless_part()
    ensures sequence { tree_of_some 1 (resuming_shape nowhere 0 (stmt.Seq endless (Emit 0 None))) ≡
        Some endless_resumed }
    ensures looped { tree_of_some 1 (resuming_shape nowhere 0 (Loop endless)) ≡
        Some endless_resumed }
{}
