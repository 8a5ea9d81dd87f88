//! Ticks of statements on variables.

ghost use Rattle.std.specs.Prelude.{◌≡◌, ℕ, ℤ, true, false, ◌||◌, [], ◌∷◌, ◌++◌, map};
ghost use Rattle.std.specs.List.{list_all, list_any};
ghost use Rattle.kernel_terms.specs.declared.tables.Tables.{Tables};
ghost use Rattle.kernel_terms.specs.Divisors.{divisors_are_allowed};
ghost use Rattle.kernel_terms.specs.DivisorRows.{by_zero, by_two};
ghost use Rattle.kernel_terms.specs.Expressions.{IsPresent};
ghost use Rattle.kernel_terms.specs.Statements.{Abort, Assign, Exit, If, Loop, Nothing, Par, Pause, Present};
ghost use Rattle.kernel_terms.specs.Statements.{Receive, Seq, Suspend, Trap};
ghost use Rattle.kernel_rules.specs.definitions.Signals.{Env};
ghost use Rattle.kernel_rules.specs.definitions.TickRule.{Tick, Ticks, writes};
ghost use Rattle.kernel_rules.specs.ShownTicks.{Shows, pauses, ends, pauses_in, ends_in};
ghost use Rattle.kernel_rules.specs.ShownTicks.{emitted, statuses, absent, absent_with, present};
ghost use Rattle.kernel_rules.specs.Worked.Words.{no_tables, variable, signal_value, emit, emit_value, assign};
ghost use Rattle.kernel_rules.specs.Rows.{int};
ghost use Rattle.kernel_rules.specs.Worked.Variables.{assigned_twice, summed_up, two_pauses};
ghost use Rattle.kernel_rules.specs.Worked.Variables.{branched, truth, asked, counted, then_shown};
ghost use Rattle.kernel_rules.specs.Worked.Variables.{made_false, made_true, asked_for_absence};
ghost use Rattle.kernel_rules.specs.Worked.Variables.{assigns_beside, both_assign, second_assigns};
ghost use Rattle.kernel_rules.specs.Worked.Variables.{beside_then_shown, assigns_and_pauses};
ghost use Rattle.kernel_rules.specs.Worked.Variables.{pauses_twice, may_assign};
ghost use Rattle.kernel_rules.specs.Worked.Variables.{forms_around, forms_alone};
ghost use Rattle.kernel_rules.specs.Worked.Variables.{mentioning, tested, waits, numbers};
ghost use Rattle.kernel_rules.specs.Worked.Variables.{expressions_around, forms_with, forms_testing};
ghost use Rattle.kernel_rules.specs.Worked.Variables.{tests_of_three, forms_on_channel};
ghost use Rattle.kernel_rules.specs.Worked.Variables.{forms_on_signal, nameless_forms};
ghost use Rattle.kernel_rules.specs.Worked.Readings.{channel_value};
ghost use Rattle.kernel_rules.specs.definitions.Mentions.{reads_variable, reads_signal, reads_channel, tests_signal};
ghost use Rattle.kernel_rules.specs.definitions.Mentions.{mentions_variable, mentions_signal, mentions_channel};

/// The second part of a sequence reads what the first has assigned, and the first reads nothing of
/// the second. An assignment changes one variable, and it lasts.
pub fn sequence_hands_on_variables()
    ensures twice { Shows no_tables assigned_twice (ends (emitted 0 1 ∷ []) ∷ []) }
    ensures sum { Shows no_tables summed_up
        (pauses [] ∷ ends (emitted 0 3 ∷ emitted 1 2 ∷ []) ∷ ends [] ∷ []) }
{}

/// The second part of a sequence begins when the first has ended, and not before.
pub fn sequence_waits_for_its_first_part()
    ensures { Shows no_tables two_pauses
        (pauses (emitted 0 0 ∷ []) ∷ pauses (emitted 1 0 ∷ []) ∷ ends [] ∷ ends [] ∷ []) }
{}

/// An `if` takes its first branch where its condition is true, and else the second, and stays in it, also
/// where the branch changes what the condition reads.
pub fn if_takes_one_branch()
    ensures first { Shows no_tables (branched true)
        (pauses (emitted 0 0 ∷ []) ∷ ends (emitted 0 0 ∷ []) ∷ []) }
    ensures second { Shows no_tables (branched false) (ends (emitted 1 0 ∷ []) ∷ ends [] ∷ []) }
    ensures first_ends { Shows no_tables (If (truth true) (emit 0) (emit 1)) (ends (emitted 0 0 ∷
        []) ∷ ends [] ∷ []) }
    ensures second_pauses { Shows no_tables (If (truth false) (emit 0) two_pauses)
        (pauses (emitted 0 0 ∷ []) ∷ pauses (emitted 1 0 ∷ []) ∷ ends [] ∷ []) }
    ensures first_stays { Shows no_tables made_false
        (pauses [] ∷ ends (emitted 0 0 ∷ []) ∷ ends [] ∷ []) }
    ensures second_stays { Shows no_tables made_true
        (pauses [] ∷ ends (emitted 1 0 ∷ []) ∷ ends [] ∷ []) }
{}

/// A `present` takes its first branch where its test holds, and else the second, also where the absent
/// signal has a value, and doesn't look again later.
pub fn present_takes_one_branch()
    ensures first { Shows no_tables asked
        (pauses_in (statuses (absent ∷ absent ∷ present ∷ [])) (emitted 0 0 ∷ [])
        ∷ ends (emitted 0 0 ∷ []) ∷ []) }
    ensures second { Shows no_tables asked
        (ends_in (statuses (present ∷ present ∷ absent_with 1 ∷ [])) (emitted 1 0 ∷ []) ∷
        ends [] ∷ []) }
    ensures second_stays { Shows no_tables asked_for_absence
        (pauses (emitted 0 0 ∷ [])
        ∷ ends_in (statuses (absent ∷ absent ∷ present ∷ [])) (emitted 0 0 ∷ []) ∷ ends [] ∷ []) }
{}

/// A trap, a suspend and an abort hand on what their body has assigned, at once and later, and a choice
/// what its branch has.
pub fn body_hands_on_variables()
    ensures trap { Shows no_tables (then_shown (Trap (Seq (assign 0 1) (Exit 0))))
        (ends (emitted 1 1 ∷ []) ∷ []) }
    ensures trap_later { Shows no_tables (then_shown (Trap (Seq Pause (assign 0 1))))
        (pauses [] ∷ ends (emitted 1 1 ∷ []) ∷ []) }
    ensures suspension { Shows no_tables (then_shown (Suspend false (IsPresent 0) (assign 0 1)))
        (ends (emitted 1 1 ∷ []) ∷ []) }
    ensures suspension_later { Shows no_tables
        (then_shown (Suspend false (IsPresent 0) (Seq Pause (assign 0 1))))
        (pauses [] ∷ ends (emitted 1 1 ∷ []) ∷ []) }
    ensures strong { Shows no_tables (then_shown (Abort false false (IsPresent 0) (assign 0 1)))
        (ends (emitted 1 1 ∷ []) ∷ []) }
    ensures strong_later { Shows no_tables
        (then_shown (Abort false false (IsPresent 0) (Seq Pause (assign 0 1))))
        (pauses [] ∷ ends (emitted 1 1 ∷ []) ∷ []) }
    ensures weak_later { Shows no_tables
        (then_shown (Abort true false (IsPresent 0) (Seq Pause (assign 0 1))))
        (pauses [] ∷ ends (emitted 1 1 ∷ []) ∷ []) }
    ensures first_choice { Shows no_tables (then_shown (If (truth true) (assign 0 1) (assign 0 2)))
        (ends (emitted 1 1 ∷ []) ∷ []) }
    ensures second_choice { Shows no_tables (then_shown (If (truth false) (assign 0 1) (assign 0 2)))
        (ends (emitted 1 2 ∷ []) ∷ []) }
    ensures present { Shows no_tables (then_shown (Present (IsPresent 0) (assign 0 1) (assign 0 2)))
        (ends_in (statuses (present ∷ [])) (emitted 1 1 ∷ []) ∷ []) }
    ensures absent { Shows no_tables (then_shown (Present (IsPresent 0) (assign 0 1) (assign 0 2)))
        (ends (emitted 1 2 ∷ []) ∷ []) }
{}

/// The variables that a body or a branch has assigned where it pauses are those of its next tick.
pub fn pausing_body_hands_on_variables()
    ensures sequence { Shows no_tables (then_shown (assigns_and_pauses 1))
        (pauses [] ∷ ends (emitted 1 1 ∷ []) ∷ []) }
    ensures trap { Shows no_tables (then_shown (Trap (assigns_and_pauses 1)))
        (pauses [] ∷ ends (emitted 1 1 ∷ []) ∷ []) }
    ensures suspension { Shows no_tables (then_shown (Suspend false (IsPresent 0) (assigns_and_pauses 1)))
        (pauses [] ∷ ends (emitted 1 1 ∷ []) ∷ []) }
    ensures strong { Shows no_tables (then_shown (Abort false false (IsPresent 0) (assigns_and_pauses 1)))
        (pauses [] ∷ ends (emitted 1 1 ∷ []) ∷ []) }
    ensures weak { Shows no_tables (then_shown (Abort true false (IsPresent 0) (assigns_and_pauses 1)))
        (pauses [] ∷ ends (emitted 1 1 ∷ []) ∷ []) }
    ensures first_choice { Shows no_tables (then_shown (If (truth true) (assigns_and_pauses 1) (assign 0 2)))
        (pauses [] ∷ ends (emitted 1 1 ∷ []) ∷ []) }
    ensures second_choice { Shows no_tables (then_shown (If (truth false) (assign 0 2) (assigns_and_pauses 1)))
        (pauses [] ∷ ends (emitted 1 1 ∷ []) ∷ []) }
    ensures present { Shows no_tables (then_shown (Present (IsPresent 0) (assigns_and_pauses 1) (assign 0 2)))
        (pauses_in (statuses (present ∷ [])) [] ∷ ends (emitted 1 1 ∷ []) ∷ []) }
    ensures absent { Shows no_tables (then_shown (Present (IsPresent 0) (assign 0 2) (assigns_and_pauses 1)))
        (pauses [] ∷ ends (emitted 1 1 ∷ []) ∷ []) }
{}

/// A loop begins its body anew in the tick in which the body ends, from the variables that it left.
pub fn loop_begins_anew()
    ensures { Shows no_tables counted
        (pauses (emitted 0 1 ∷ []) ∷ pauses (emitted 1 1 ∷ emitted 0 2 ∷ [])
        ∷ pauses (emitted 1 2 ∷ emitted 0 3 ∷ []) ∷ []) }
{}

/// A loop whose body ends in its starting tick has no tick.
pub fn endless_turn_has_no_tick()
    ensures { (tables : Tables) (last : ℕ → ℤ) (env : Env) (x : ℕ → ℤ) (o : Tick)
        → Ticks tables last (Loop Nothing) env x o → ⊥ }
{}

/// After a parallel the variables that its first branch may assign come from it, whether it has
/// assigned them or not, and all others from the second, also where a branch exits.
pub fn parallel_joins_variables()
    ensures first { Shows no_tables (beside_then_shown (assigns_and_pauses 1) pauses_twice)
        (pauses [] ∷ pauses [] ∷ ends (emitted 1 1 ∷ []) ∷ []) }
    ensures second { Shows no_tables (beside_then_shown pauses_twice (assigns_and_pauses 1))
        (pauses [] ∷ pauses [] ∷ ends (emitted 1 1 ∷ []) ∷ []) }
    ensures both { Shows no_tables (beside_then_shown (assign 0 1) (assign 0 2))
        (ends (emitted 1 1 ∷ []) ∷ []) }
    ensures second_ended { Shows no_tables (beside_then_shown Pause (assign 0 1))
        (pauses [] ∷ ends (emitted 1 1 ∷ []) ∷ []) }
    ensures second_of_ended { Shows no_tables (beside_then_shown Nothing (assign 0 1))
        (ends (emitted 1 1 ∷ []) ∷ []) }
    ensures unassigned { Shows no_tables (beside_then_shown may_assign (assign 0 2))
        (ends (emitted 1 0 ∷ []) ∷ []) }
    ensures at_exit { Shows no_tables (assigns_beside (Exit 0) Pause)
        (ends (emitted 0 1 ∷ emitted 1 2 ∷ []) ∷ ends [] ∷ []) }
    ensures at_second_exit { Shows no_tables (assigns_beside Pause (Exit 0))
        (ends (emitted 0 1 ∷ emitted 1 2 ∷ []) ∷ ends [] ∷ []) }
    ensures at_both_exits { Shows no_tables (assigns_beside (Exit 0) (Exit 0))
        (ends (emitted 0 1 ∷ emitted 1 2 ∷ []) ∷ ends [] ∷ []) }
    ensures both_at_exit { Shows no_tables (both_assign (Exit 0) Pause) (ends (emitted 1 1 ∷
        []) ∷ []) }
    ensures both_at_second_exit { Shows no_tables (both_assign Pause (Exit 0)) (ends (emitted 1 1 ∷
        []) ∷ []) }
    ensures both_pause { Shows no_tables (both_assign Pause Pause) (pauses [] ∷
        ends (emitted 1 1 ∷ []) ∷ []) }
    ensures both_exit { Shows no_tables (both_assign (Exit 0) (Exit 0)) (ends (emitted 1 1 ∷
        []) ∷ []) }
    ensures unassigned_pause { Shows no_tables (second_assigns Pause Pause)
        (pauses [] ∷ ends (emitted 1 0 ∷ []) ∷ []) }
    ensures unassigned_exit { Shows no_tables (second_assigns (Exit 0) (Exit 0))
        (ends (emitted 1 0 ∷ []) ∷ []) }
    ensures unassigned_at_exit { Shows no_tables (second_assigns (Exit 0) Pause)
        (ends (emitted 1 0 ∷ []) ∷ []) }
    ensures unassigned_at_second_exit { Shows no_tables (second_assigns Pause (Exit 0))
        (ends (emitted 1 0 ∷ []) ∷ []) }
{}

/// The same where one branch has ended and the other pauses or exits, each with a variable of its own.
pub fn ended_branch_keeps_its_variables()
    ensures before_pause { Shows no_tables (assigns_beside Nothing Pause)
        (pauses [] ∷ ends (emitted 0 1 ∷ emitted 1 2 ∷ []) ∷ []) }
    ensures beside_pause { Shows no_tables (assigns_beside Pause Nothing)
        (pauses [] ∷ ends (emitted 0 1 ∷ emitted 1 2 ∷ []) ∷ []) }
    ensures before_exit { Shows no_tables (assigns_beside Nothing (Exit 0))
        (ends (emitted 0 1 ∷ emitted 1 2 ∷ []) ∷ ends [] ∷ []) }
    ensures beside_exit { Shows no_tables (assigns_beside (Exit 0) Nothing)
        (ends (emitted 0 1 ∷ emitted 1 2 ∷ []) ∷ ends [] ∷ []) }
    ensures before_later { Shows no_tables (assigns_beside Nothing (Seq Pause (assign 1 3)))
        (pauses [] ∷ ends (emitted 0 1 ∷ emitted 1 3 ∷ []) ∷ []) }
    ensures beside_later { Shows no_tables (assigns_beside (Seq Pause (assign 0 3)) Nothing)
        (pauses [] ∷ ends (emitted 0 3 ∷ emitted 1 2 ∷ []) ∷ []) }
{}

/// The same where both may assign one variable. What has ended assigns nothing in a later tick.
pub fn ended_branch_shares_a_variable()
    ensures before_pause { Shows no_tables (both_assign Nothing Pause)
        (pauses [] ∷ ends (emitted 1 1 ∷ []) ∷ []) }
    ensures beside_pause { Shows no_tables (both_assign Pause Nothing)
        (pauses [] ∷ ends (emitted 1 1 ∷ []) ∷ []) }
    ensures before_exit { Shows no_tables (both_assign Nothing (Exit 0))
        (ends (emitted 1 1 ∷ []) ∷ []) }
    ensures beside_exit { Shows no_tables (both_assign (Exit 0) Nothing)
        (ends (emitted 1 1 ∷ []) ∷ []) }
    ensures unassigned_before_pause { Shows no_tables (second_assigns Nothing Pause)
        (pauses [] ∷ ends (emitted 1 0 ∷ []) ∷ []) }
    ensures unassigned_beside_pause { Shows no_tables (second_assigns Pause Nothing)
        (pauses [] ∷ ends (emitted 1 0 ∷ []) ∷ []) }
    ensures unassigned_before_exit { Shows no_tables (second_assigns Nothing (Exit 0))
        (ends (emitted 1 0 ∷ []) ∷ []) }
    ensures unassigned_beside_exit { Shows no_tables (second_assigns (Exit 0) Nothing)
        (ends (emitted 1 0 ∷ []) ∷ []) }
    ensures before_later { Shows no_tables (both_assign Nothing (Seq Pause (assign 0 3)))
        (pauses [] ∷ ends (emitted 1 3 ∷ []) ∷ []) }
    ensures beside_later { Shows no_tables (both_assign (Seq Pause (assign 0 3)) Nothing)
        (pauses [] ∷ ends (emitted 1 3 ∷ []) ∷ []) }
{}

/// A statement may assign the variables that an assignment in it names, and no others.
pub fn statement_assigns_what_it_names()
    ensures named { writes (assign 1 5) 1 ≡ true }
    ensures other { writes (assign 1 5) 0 ≡ false }
    ensures around { list_all (λ p. writes p 1) (forms_around (assign 1 5)) ≡ true }
    ensures around_other { list_any (λ p. writes p 0) (forms_around (assign 1 5)) ≡ false }
    ensures alone { list_any (λ p. writes p 0) forms_alone ≡ false }
{}

/// A divisor that isn't allowed is found in each form that has an expression, and in each part of a statement.
pub fn statement_has_divisors_of_its_parts()
    ensures own { list_any divisors_are_allowed (forms_with by_zero) ≡ false }
    ensures own_allowed { list_all divisors_are_allowed (forms_with by_two) ≡ true }
    ensures around { list_any divisors_are_allowed (forms_around (Assign 0 by_zero)) ≡ false }
    ensures around_allowed { list_all divisors_are_allowed (forms_around (Assign 0 by_two)) ≡ true }
{}

/// A statement mentions the variables, signals and channels that it or one of its parts names, and no
/// others.
pub fn statement_mentions_what_it_names()
    ensures variables { map (λ x. mentions_variable mentioning x) numbers
        ≡ true ∷ true ∷ true ∷ true ∷ true ∷ false ∷ [] }
    ensures signals { map (λ s. mentions_signal mentioning s) numbers
        ≡ true ∷ true ∷ true ∷ true ∷ false ∷ true ∷ [] }
    ensures channels { map (λ c. mentions_channel mentioning c) numbers
        ≡ true ∷ true ∷ true ∷ false ∷ true ∷ true ∷ [] }
    ensures tests { map (λ s. mentions_signal tested s) numbers
        ≡ false ∷ true ∷ true ∷ true ∷ true ∷ false ∷ [] }
    ensures waiting { map (λ c. mentions_channel waits c) numbers
        ≡ true ∷ true ∷ true ∷ true ∷ false ∷ false ∷ [] }
    ensures around { list_all (λ p. mentions_variable p 3) (forms_around (assign 3 5)) ≡ true }
    ensures around_other { list_any (λ p. mentions_variable p 2) (forms_around (assign 3 5)) ≡
        false }
{}

/// An expression reads what one of its operands reads, and a test tests what one of its parts tests.
pub fn operands_are_read()
    ensures variable { list_all (λ e. reads_variable e 3) (expressions_around (variable 3)) ≡ true }
    ensures signal { list_all (λ e. reads_signal e 3) (expressions_around (signal_value 3)) ≡ true }
    ensures channel { list_all (λ e. reads_channel e 3) (expressions_around (channel_value 3)) ≡
        true }
    ensures no_variable { list_any (λ e. reads_variable e 3 || reads_variable e 4)
        (expressions_around (signal_value 3) ++ expressions_around (channel_value 3)) ≡ false }
    ensures no_signal { list_any (λ e. reads_signal e 3 || reads_signal e 4)
        (expressions_around (variable 3) ++ expressions_around (channel_value 3)) ≡ false }
    ensures no_channel { list_any (λ e. reads_channel e 3 || reads_channel e 4)
        (expressions_around (variable 3) ++ expressions_around (signal_value 3)) ≡ false }
    ensures other_variable { list_any (λ e. reads_variable e 4) (expressions_around (variable 3)) ≡
        false }
    ensures other_signal { list_any (λ e. reads_signal e 4) (expressions_around (signal_value 3)) ≡
        false }
    ensures other_channel { list_any (λ e. reads_channel e 4) (expressions_around (channel_value 3))
        ≡ false }
    ensures tests { list_all (λ t. tests_signal t 3) tests_of_three ≡ true }
    ensures other_tests { list_any (λ t. tests_signal t 2) tests_of_three ≡ false }
{}

/// Each form by itself mentions what it names, and nothing else.
pub fn each_form_mentions_what_it_names()
    ensures variable { list_all (λ p. mentions_variable p 3) (Assign 3 (int 4) ∷
        forms_with (variable 3)) ≡ true }
    ensures signal { list_all (λ p. mentions_signal p 3)
        (forms_on_signal ++ forms_with (signal_value 3) ++ forms_testing (IsPresent 3)) ≡ true }
    ensures channel { list_all (λ p. mentions_channel p 3) (forms_on_channel ++
        forms_with (channel_value 3)) ≡ true }
    ensures no_variable { list_any (λ p. mentions_variable p 3 || mentions_variable p 4)
        (nameless_forms ++ forms_on_signal ++ forms_on_channel ++ forms_testing (IsPresent 3)
        ++ forms_with (signal_value 3) ++ forms_with (channel_value 3)) ≡ false }
    ensures no_signal { list_any (λ p. mentions_signal p 3 || mentions_signal p 4)
        (Assign 3 (int 4) ∷ nameless_forms ++ forms_on_channel ++ forms_with (variable 3)
        ++ forms_with (channel_value 3)) ≡ false }
    ensures no_channel { list_any (λ p. mentions_channel p 3 || mentions_channel p 4)
        (Assign 3 (int 4) ∷ nameless_forms ++ forms_on_signal ++ forms_testing (IsPresent 3)
        ++ forms_with (variable 3) ++ forms_with (signal_value 3)) ≡ false }
    ensures no_channel_besides { list_any (λ p. mentions_channel p 4) forms_on_channel ≡ false }
    ensures no_signal_besides { list_any (λ p. mentions_signal p 4) (forms_on_signal ++
        forms_testing (IsPresent 3)) ≡ false }
    ensures around_signal { list_all (λ p. mentions_signal p 3) (forms_around (emit 3)) ≡ true }
    ensures around_channel { list_all (λ p. mentions_channel p 3) (forms_around (Receive 3)) ≡ true }
    ensures around_no_channel { list_any (λ p. mentions_channel p 2) (forms_around (Receive 3)) ≡
        false }
{}

/// Neither branch of a parallel reads what the other assigns in the tick, and the first one's
/// emissions come first.
pub fn branches_read_old_variables()
    ensures second { Shows no_tables (Par (assign 0 1) (emit_value 0 (variable 0)))
        (ends (emitted 0 0 ∷ []) ∷ []) }
    ensures first { Shows no_tables (Par (emit_value 0 (variable 0)) (assign 0 1))
        (ends (emitted 0 0 ∷ []) ∷ []) }
    ensures order { Shows no_tables (Par two_pauses (emit_value 1 (variable 0)))
        (pauses (emitted 0 0 ∷ emitted 1 0 ∷ []) ∷ pauses (emitted 1 0 ∷ []) ∷ ends [] ∷ []) }
    ensures later_order { Shows no_tables (Par (Seq Pause (emit 0)) (Seq Pause (emit 1)))
        (pauses [] ∷ ends (emitted 0 0 ∷ emitted 1 0 ∷ []) ∷ []) }
{}
