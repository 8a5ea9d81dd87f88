//! Ticks of statements with local signals.

ghost use Rattle.std.specs.Prelude.{ℕ, ℤ, [], ◌∷◌};
ghost use Rattle.kernel_rules.specs.ShownTicks.{Shows, pauses, ends, exits, emitted};
ghost use Rattle.kernel_rules.specs.Worked.Locals.{local_tables, pauses_with_input};
ghost use Rattle.kernel_rules.specs.Worked.Locals.{emitted_beside, asked_beside, emitted_later};
ghost use Rattle.kernel_rules.specs.Worked.Locals.{emitted_inside, another_asked, added, greatest};
ghost use Rattle.kernel_rules.specs.Worked.Locals.{kept, emitted_again, exits_around};
ghost use Rattle.kernel_rules.specs.Worked.Locals.{suspended_inside, suspended_around};
ghost use Rattle.kernel_rules.specs.Worked.Locals.{assigned_inside, assigned_twice_inside};
ghost use Rattle.kernel_rules.specs.Worked.Locals.{relies_on_itself, contradicts_itself};
ghost use Rattle.kernel_rules.specs.definitions.Signals.{Env};
ghost use Rattle.kernel_rules.specs.definitions.TickRule.{Tick, Ticks, ends_with};

/// A local signal is present in the whole tick in which it is emitted, wherever in its body that is, and
/// in no other tick.
pub fn local_is_present_where_emitted()
    ensures emitted_first { Shows local_tables emitted_beside (ends (emitted 0 0 ∷ []) ∷
        ends [] ∷ []) }
    ensures asked_first { Shows local_tables asked_beside (ends (emitted 0 0 ∷ []) ∷ ends [] ∷ []) }
    ensures later { Shows local_tables emitted_later (pauses (emitted 1 0 ∷ []) ∷ ends [] ∷ []) }
{}

/// A local signal hides its own emissions and no others, and those of another signal don't make it
/// present.
pub fn locals_are_apart()
    ensures outer { Shows local_tables emitted_inside (ends (emitted 0 0 ∷ []) ∷ []) }
    ensures inner { Shows local_tables another_asked (ends (emitted 1 0 ∷ []) ∷ []) }
{}

/// The value of a local signal combines all emissions of the tick, by the signal's own operator, and all
/// of the body reads it.
pub fn local_combines_emissions()
    ensures sum { Shows local_tables added (ends (emitted 1 3 ∷ []) ∷ []) }
    ensures greatest { Shows local_tables greatest (ends (emitted 1 3 ∷ []) ∷ []) }
{}

/// A local signal that is absent keeps its last value, and one that is emitted once has the value of
/// that emission alone.
pub fn local_keeps_its_last_value()
    ensures kept { Shows local_tables kept (pauses (emitted 1 5 ∷ []) ∷
        ends (emitted 1 5 ∷ []) ∷ []) }
    ensures again { Shows local_tables emitted_again
        (pauses [] ∷ pauses (emitted 1 3 ∷ []) ∷ ends (emitted 1 3 ∷ []) ∷ []) }
{}

/// A local signal keeps its last value while its body is suspended, and while itself is.
pub fn suspended_local_keeps_its_value()
    ensures inside { Shows local_tables suspended_inside
        (pauses [] ∷ pauses_with_input [] ∷ ends (emitted 1 3 ∷ []) ∷ ends [] ∷ []) }
    ensures around { Shows local_tables suspended_around
        (pauses [] ∷ pauses_with_input [] ∷ ends (emitted 1 3 ∷ []) ∷ ends [] ∷ []) }
{}

/// An exit leaves a local signal as it is, and nothing of it is left.
pub fn exit_leaves_local()
    ensures { Shows local_tables (exits_around 1) (exits 1 [] ∷ ends [] ∷ []) }
{}

/// What comes after a local signal's block reads the variables that the block has assigned, in its
/// starting tick and after a pause.
pub fn local_hands_on_variables()
    ensures at_once { Shows local_tables assigned_inside (ends (emitted 1 1 ∷ []) ∷ []) }
    ensures later { Shows local_tables assigned_twice_inside
        (pauses [] ∷ ends (emitted 1 2 ∷ []) ∷ ends [] ∷ []) }
{}

/// A local signal has each status that its body gives it: what emits it only where it is present makes two
/// ticks, and what emits it only where it is absent makes none.
pub fn local_coherence_decides()
    ensures absent { (last : ℕ → ℤ) (env : Env) (x : ℕ → ℤ)
        → Ticks local_tables last relies_on_itself env x (ends_with [] x) }
    ensures present { (last : ℕ → ℤ) (env : Env) (x : ℕ → ℤ)
        → Ticks local_tables last relies_on_itself env x (ends_with (emitted 0 0 ∷ []) x) }
    ensures none { (last : ℕ → ℤ) (env : Env) (x : ℕ → ℤ) (o : Tick)
        → Ticks local_tables last contradicts_itself env x o → ⊥ }
{}
