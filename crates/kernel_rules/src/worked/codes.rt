//! Ticks that end, pause and exit.

ghost use Rattle.std.specs.Prelude.{[], ◌∷◌};
ghost use Rattle.kernel_terms.specs.Statements.{Pause, Seq, Loop, Par, Trap, Exit};
ghost use Rattle.kernel_rules.specs.ShownTicks.{Shows, pauses, ends, ends_in, exits, exits_in};
ghost use Rattle.kernel_rules.specs.ShownTicks.{emitted, statuses, absent, present};
ghost use Rattle.kernel_rules.specs.Worked.Words.{no_tables, emit};
ghost use Rattle.kernel_rules.specs.Worked.Codes.{later, nested_exit, two_exits};
ghost use Rattle.kernel_rules.specs.Worked.Codes.{exit_beside_pause, pause_beside_exit, later_exit};
ghost use Rattle.kernel_rules.specs.Worked.Codes.{exit_from_loop, in_weak_abort, in_strong_abort};
ghost use Rattle.kernel_rules.specs.Worked.Codes.{in_suspend};
ghost use Rattle.kernel_rules.specs.Worked.Ways.{exit_later};

/// A parallel pauses while one of its branches does, and ends when the last one ends. A branch that has
/// ended does nothing more.
pub fn parallel_ends_with_its_last_branch()
    ensures both { Shows no_tables (Par (emit 0) (emit 1))
        (ends (emitted 0 0 ∷ emitted 1 0 ∷ []) ∷ ends [] ∷ []) }
    ensures first { Shows no_tables (Par later (emit 1))
        (pauses (emitted 1 0 ∷ []) ∷ ends (emitted 0 0 ∷ []) ∷ []) }
    ensures second { Shows no_tables (Par (emit 1) later)
        (pauses (emitted 1 0 ∷ []) ∷ ends (emitted 0 0 ∷ []) ∷ []) }
    ensures then { Shows no_tables (Seq (Par later Pause) (emit 1))
        (pauses [] ∷ ends (emitted 0 0 ∷ emitted 1 0 ∷ []) ∷ ends [] ∷ []) }
{}

/// Where one branch exits and the other pauses, the parallel exits, and nothing is left of the branch
/// that paused.
pub fn exit_ends_pausing_branch()
    ensures second { Shows no_tables exit_beside_pause (ends (emitted 1 0 ∷ []) ∷ ends [] ∷ []) }
    ensures first { Shows no_tables pause_beside_exit (ends (emitted 1 0 ∷ []) ∷ ends [] ∷ []) }
{}

/// Of two exits the one to the outer trap counts.
pub fn outer_exit_counts()
    ensures first { Shows no_tables (two_exits 1 0) (ends (emitted 1 0 ∷ []) ∷ ends [] ∷ []) }
    ensures second { Shows no_tables (two_exits 0 1) (ends (emitted 1 0 ∷ []) ∷ ends [] ∷ []) }
    ensures inner { Shows no_tables (two_exits 0 0)
        (ends (emitted 0 0 ∷ emitted 1 0 ∷ []) ∷ ends [] ∷ []) }
{}

/// A trap ends where its body exits to it and where its body ends, and is there while its body pauses.
pub fn trap_ends_at_its_exit()
    ensures ended { Shows no_tables (Trap (emit 0)) (ends (emitted 0 0 ∷ []) ∷ []) }
    ensures exited { Shows no_tables (Trap (Seq (Exit 0) (emit 0))) (ends [] ∷ ends [] ∷ []) }
    ensures paused { Shows no_tables (Trap later) (pauses [] ∷ ends (emitted 0 0 ∷ []) ∷ []) }
    ensures later { Shows no_tables later_exit (pauses [] ∷ ends (emitted 1 0 ∷ []) ∷ []) }
{}

/// An exit through a trap counts one depth less outside of it.
pub fn outer_exit_is_lowered()
    ensures inner { Shows no_tables (nested_exit 0) (ends (emitted 0 0 ∷ emitted 1 0 ∷ []) ∷ []) }
    ensures outer { Shows no_tables (nested_exit 1) (ends (emitted 1 0 ∷ []) ∷ ends [] ∷ []) }
    ensures further { Shows no_tables (nested_exit 5) (exits 3 [] ∷ ends [] ∷ []) }
    ensures last { Shows no_tables (Trap (Exit 63)) (exits 62 [] ∷ []) }
{}

/// An exit passes through a sequence, of which the second part doesn't begin, a loop, a suspend and an
/// abort as it is, and leaves nothing.
pub fn exit_passes_through()
    ensures sequence { Shows no_tables (Seq (Exit 2) (emit 0)) (exits 2 [] ∷ ends [] ∷ []) }
    ensures of_second { Shows no_tables (Seq (emit 0) (Exit 2)) (exits 2 (emitted 0 0 ∷ []) ∷
        ends [] ∷ []) }
    ensures loop_ { Shows no_tables (exit_from_loop 1) (exits 1 (emitted 0 0 ∷ []) ∷ ends [] ∷ []) }
    ensures suspend { Shows no_tables (in_suspend (Exit 1)) (exits 1 [] ∷ ends [] ∷ []) }
    ensures weak { Shows no_tables (in_weak_abort (Exit 1)) (exits 1 [] ∷ ends [] ∷ []) }
    ensures aborted { Shows no_tables (in_weak_abort (Exit 0))
        (exits_in (statuses (absent ∷ absent ∷ present ∷ [])) 0 [] ∷ ends [] ∷ []) }
    ensures strong { Shows no_tables (in_strong_abort (Exit 1)) (exits 1 [] ∷ ends [] ∷ []) }
{}

/// An exit in a later tick passes in the same way, and through a trap it counts one depth less.
pub fn later_exit_passes_through()
    ensures sequence { Shows no_tables (Seq (exit_later 2) (emit 0)) (pauses [] ∷ exits 2 [] ∷
        ends [] ∷ []) }
    ensures loop_ { Shows no_tables (Loop (exit_later 1)) (pauses [] ∷ exits 1 [] ∷ ends [] ∷ []) }
    ensures parallel { Shows no_tables (Par (exit_later 1) (Seq Pause Pause)) (pauses [] ∷
        exits 1 [] ∷ ends [] ∷ []) }
    ensures trap { Shows no_tables (Trap (exit_later 1)) (pauses [] ∷ exits 0 [] ∷ ends [] ∷ []) }
    ensures suspend { Shows no_tables (in_suspend (exit_later 1)) (pauses [] ∷ exits 1 [] ∷
        ends [] ∷ []) }
    ensures weak { Shows no_tables (in_weak_abort (exit_later 1)) (pauses [] ∷ exits 1 [] ∷
        ends [] ∷ []) }
    ensures strong { Shows no_tables (in_strong_abort (exit_later 1)) (pauses [] ∷ exits 1 [] ∷
        ends [] ∷ []) }
    ensures weak_aborted { Shows no_tables (in_weak_abort (exit_later 1))
        (pauses [] ∷ exits_in (statuses (absent ∷ absent ∷ present ∷ [])) 1 [] ∷ ends [] ∷ []) }
    ensures strong_aborted { Shows no_tables (in_strong_abort (exit_later 1))
        (pauses [] ∷ ends_in (statuses (absent ∷ absent ∷ present ∷ [])) [] ∷ ends [] ∷ []) }
{}

/// A code above those of the deepest exits stays as it is under a trap, in a weak abort and beside each
/// other code.
pub fn code_above_exits_stays()
    ensures trap { Shows no_tables (Trap (Exit 998)) (exits 998 [] ∷ ends [] ∷ []) }
    ensures first_above { Shows no_tables (Trap (Exit 64)) (exits 64 [] ∷ ends [] ∷ []) }
    ensures weak { Shows no_tables (in_weak_abort (Exit 998))
        (exits_in (statuses (absent ∷ absent ∷ present ∷ [])) 998 [] ∷ ends [] ∷ []) }
    ensures beside { Shows no_tables (Par (Exit 998) (Exit 63)) (exits 998 [] ∷ ends [] ∷ []) }
    ensures beside_pause { Shows no_tables (Par Pause (Exit 998)) (exits 998 [] ∷ ends [] ∷ []) }
{}
