//! Ticks of aborts and suspends.

ghost use Rattle.std.specs.Prelude.{pos, true, false, [], ◌∷◌};
ghost use Rattle.kernel_terms.specs.Expressions.{IsPresent};
ghost use Rattle.kernel_terms.specs.Statements.{Abort, SendWaits, Sent, Seq};
ghost use Rattle.kernel_rules.specs.ShownTicks.{Shows, pauses, ends, emitted};
ghost use Rattle.kernel_rules.specs.Worked.Words.{no_tables, assign, emit_value, variable};
ghost use Rattle.kernel_rules.specs.Worked.Aborts.{pauses_with, ends_with_it};
ghost use Rattle.kernel_rules.specs.Worked.Aborts.{aborted, aborted_assignment, aborted_send};
ghost use Rattle.kernel_rules.specs.Worked.Aborts.{suspended, suspended_assignment};
ghost use Rattle.kernel_rules.specs.Worked.Aborts.{suspended_turn, aborted_turn, begun_later, begun_again};

/// An abort that isn't immediate doesn't look at its test in its starting tick, and does in each later
/// one: a strong one ends without its body, a weak one after a last tick of it.
pub fn abort_is_armed_after_its_start()
    ensures strong { Shows no_tables (aborted false false)
        (pauses_with (emitted 1 0 ∷ []) ∷ ends_with_it (emitted 2 0 ∷ []) ∷ ends [] ∷ []) }
    ensures strong_later { Shows no_tables (aborted false false)
        (pauses_with (emitted 1 0 ∷ []) ∷ pauses (emitted 1 0 ∷ [])
        ∷ ends_with_it (emitted 2 0 ∷ []) ∷ ends [] ∷ []) }
    ensures weak { Shows no_tables (aborted true false)
        (pauses_with (emitted 1 0 ∷ []) ∷ ends_with_it (emitted 1 0 ∷ emitted 2 0 ∷ []) ∷
        ends [] ∷ []) }
    ensures weak_later { Shows no_tables (aborted true false)
        (pauses_with (emitted 1 0 ∷ []) ∷ pauses (emitted 1 0 ∷ [])
        ∷ ends_with_it (emitted 1 0 ∷ emitted 2 0 ∷ []) ∷ ends [] ∷ []) }
{}

/// An immediate abort looks at its test in its starting tick too.
pub fn immediate_abort_is_armed_at_once()
    ensures strong { Shows no_tables (aborted false true) (ends_with_it (emitted 2 0 ∷ []) ∷
        ends [] ∷ []) }
    ensures weak { Shows no_tables (aborted true true)
        (ends_with_it (emitted 1 0 ∷ emitted 2 0 ∷ []) ∷ ends [] ∷ []) }
    ensures strong_later { Shows no_tables (aborted false true)
        (pauses (emitted 1 0 ∷ []) ∷ ends_with_it (emitted 2 0 ∷ []) ∷ ends [] ∷ []) }
    ensures weak_later { Shows no_tables (aborted true true)
        (pauses (emitted 1 0 ∷ []) ∷ ends_with_it (emitted 1 0 ∷ emitted 2 0 ∷ []) ∷ ends [] ∷ []) }
{}

/// An abort whose test never holds ends with its body.
pub fn abort_ends_with_its_body()
    ensures strong { Shows no_tables (aborted false false)
        (pauses (emitted 1 0 ∷ []) ∷ pauses (emitted 1 0 ∷ []) ∷
        ends (emitted 1 0 ∷ emitted 2 0 ∷ []) ∷ []) }
    ensures weak { Shows no_tables (aborted true false)
        (pauses (emitted 1 0 ∷ []) ∷ pauses (emitted 1 0 ∷ []) ∷
        ends (emitted 1 0 ∷ emitted 2 0 ∷ []) ∷ []) }
{}

/// The body of a strong abort assigns nothing when the test holds, and that of a weak one does.
pub fn aborted_body_assigns()
    ensures strong { Shows no_tables (aborted_assignment false) (ends_with_it (emitted 1 1 ∷
        []) ∷ []) }
    ensures weak { Shows no_tables (aborted_assignment true) (ends_with_it (emitted 1 2 ∷
        []) ∷ []) }
    ensures weak_ending { Shows no_tables (Seq (Abort true true (IsPresent 0) (assign 0 1)) (emit_value 1 (variable 0)))
        (ends_with_it (emitted 1 1 ∷ []) ∷ []) }
{}

/// A suspend doesn't look at its test in its starting tick, and does in each later one: where it holds
/// the body stays as it is.
pub fn suspend_is_armed_after_its_start()
    ensures stays { Shows no_tables suspended
        (pauses_with (emitted 1 0 ∷ []) ∷ pauses_with [] ∷ pauses (emitted 1 0 ∷ []) ∷
        pauses_with []
        ∷ pauses_with [] ∷ ends (emitted 1 0 ∷ emitted 2 0 ∷ []) ∷ ends [] ∷ []) }
    ensures assigns { Shows no_tables suspended_assignment
        (pauses_with [] ∷ pauses_with [] ∷ ends (emitted 1 1 ∷ []) ∷ []) }
{}

/// An abort ends a send that waits, and nothing is left of it. One whose send has completed has nothing
/// to wait for.
pub fn abort_ends_waiting_send()
    ensures strong { Shows no_tables (aborted_send false (SendWaits 0 (pos 5))) (ends_with_it [] ∷
        ends [] ∷ []) }
    ensures weak { Shows no_tables (aborted_send true (SendWaits 0 (pos 5))) (ends_with_it [] ∷
        ends [] ∷ []) }
    ensures waits { Shows no_tables (aborted_send false (SendWaits 0 (pos 5))) (pauses [] ∷
        ends_with_it [] ∷ []) }
    ensures strong_sent { Shows no_tables (aborted_send false (Sent 0)) (ends_with_it [] ∷
        ends [] ∷ []) }
    ensures weak_sent { Shows no_tables (aborted_send true (Sent 0)) (ends_with_it (emitted 1 0 ∷
        []) ∷ ends [] ∷ []) }
    ensures sent { Shows no_tables (aborted_send false (Sent 0)) (ends (emitted 1 0 ∷ []) ∷
        ends [] ∷ []) }
{}

/// A suspend, and an abort that isn't immediate, don't look at their tests where they are begun in a later
/// tick, or again in a loop.
pub fn new_start_is_not_armed()
    ensures suspend_later { Shows no_tables (begun_later suspended_turn)
        (pauses [] ∷ pauses_with (emitted 1 0 ∷ []) ∷ pauses_with [] ∷ ends [] ∷ []) }
    ensures suspend_again { Shows no_tables (begun_again suspended_turn)
        (pauses (emitted 1 0 ∷ []) ∷ pauses [] ∷ pauses_with (emitted 1 0 ∷ []) ∷ pauses_with []
        ∷ pauses [] ∷ pauses_with (emitted 1 0 ∷ []) ∷ []) }
    ensures strong_later { Shows no_tables (begun_later (aborted_turn false false))
        (pauses [] ∷ pauses_with (emitted 1 0 ∷ []) ∷ ends_with_it [] ∷ []) }
    ensures strong_again { Shows no_tables (begun_again (aborted_turn false false))
        (pauses (emitted 1 0 ∷ []) ∷ pauses_with [] ∷ pauses_with (emitted 1 0 ∷ []) ∷
        pauses_with []
        ∷ pauses_with (emitted 1 0 ∷ []) ∷ []) }
    ensures weak_later { Shows no_tables (begun_later (aborted_turn true false))
        (pauses [] ∷ pauses_with (emitted 1 0 ∷ []) ∷ ends_with_it [] ∷ []) }
    ensures weak_again { Shows no_tables (begun_again (aborted_turn true false))
        (pauses (emitted 1 0 ∷ []) ∷ pauses_with [] ∷ pauses_with (emitted 1 0 ∷ []) ∷
        pauses_with []
        ∷ pauses_with (emitted 1 0 ∷ []) ∷ []) }
{}

/// An immediate abort looks at its test at each start.
pub fn new_start_of_immediate_abort_is_armed()
    ensures strong_later { Shows no_tables (begun_later (aborted_turn false true))
        (pauses [] ∷ ends_with_it [] ∷ ends [] ∷ []) }
    ensures strong_again { Shows no_tables (begun_again (aborted_turn false true))
        (pauses (emitted 1 0 ∷ []) ∷ pauses [] ∷ pauses_with [] ∷ pauses (emitted 1 0 ∷ []) ∷ []) }
    ensures weak_later { Shows no_tables (begun_later (aborted_turn true true))
        (pauses [] ∷ ends_with_it (emitted 1 0 ∷ []) ∷ ends [] ∷ []) }
    ensures weak_again { Shows no_tables (begun_again (aborted_turn true true))
        (pauses (emitted 1 0 ∷ []) ∷ pauses [] ∷ pauses_with (emitted 1 0 ∷ [])
        ∷ pauses (emitted 1 0 ∷ []) ∷ []) }
{}
