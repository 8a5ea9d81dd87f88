//! Exits through each form, with what was emitted and assigned before.

ghost use Rattle.std.specs.Prelude.{◌≡◌, ℕ, pos, true, false, [], ◌∷◌};
ghost use Rattle.kernel_terms.specs.Statements.{Exit, Loop, Nothing, Par, Seq, Trap};
ghost use Rattle.kernel_rules.specs.ShownTicks.{Shows, pauses, ends, pauses_in, ends_in, exits, exits_in};
ghost use Rattle.kernel_rules.specs.ShownTicks.{emitted, statuses, absent, present};
ghost use Rattle.kernel_rules.specs.ShownTicks.{OnlyTick, all_zero, none_present};
ghost use Rattle.kernel_rules.specs.definitions.TickRule.{Tick, Ticks, exit_code};
ghost use Rattle.kernel_rules.specs.Worked.Words.{no_tables, emit};
ghost use Rattle.kernel_rules.specs.Worked.Codes.{in_weak_abort, in_strong_abort, in_suspend};
ghost use Rattle.kernel_rules.specs.Worked.Locals.{local_tables};
ghost use Rattle.kernel_rules.specs.Worked.Ways.{exit_later};
ghost use Rattle.kernel_rules.specs.Worked.Exits.{leaves, leaves_later, emits_and_pauses, caught};
ghost use Rattle.kernel_rules.specs.Worked.Exits.{in_local, chosen, asked};
ghost use Rattle.kernel_rules.specs.Worked.Exits.{ForEachExit, left_by, assigns_and_pauses, tested_present};

/// What was emitted before an exit stays emitted, and what was assigned stays assigned, through each form
/// up to the trap and after it.
pub fn exit_keeps_emissions_and_variables()
    ensures trap { Shows no_tables (caught (leaves 0)) (ends (emitted 0 0 ∷ emitted 1 1 ∷ []) ∷
        ends [] ∷ []) }
    ensures outer_trap { Shows no_tables (caught (Trap (leaves 1)))
        (ends (emitted 0 0 ∷ emitted 1 1 ∷ []) ∷ ends [] ∷ []) }
    ensures sequence { Shows no_tables (caught (Seq (leaves 0) (emit 2)))
        (ends (emitted 0 0 ∷ emitted 1 1 ∷ []) ∷ ends [] ∷ []) }
    ensures of_second { Shows no_tables (caught (Seq (emit 2) (leaves 0)))
        (ends (emitted 2 0 ∷ emitted 0 0 ∷ emitted 1 1 ∷ []) ∷ ends [] ∷ []) }
    ensures loop_ { Shows no_tables (caught (Loop (leaves 0)))
        (ends (emitted 0 0 ∷ emitted 1 1 ∷ []) ∷ ends [] ∷ []) }
    ensures suspend { Shows no_tables (caught (in_suspend (leaves 0)))
        (ends (emitted 0 0 ∷ emitted 1 1 ∷ []) ∷ ends [] ∷ []) }
    ensures strong { Shows no_tables (caught (in_strong_abort (leaves 0)))
        (ends (emitted 0 0 ∷ emitted 1 1 ∷ []) ∷ ends [] ∷ []) }
    ensures weak { Shows no_tables (caught (in_weak_abort (leaves 0)))
        (ends (emitted 0 0 ∷ emitted 1 1 ∷ []) ∷ ends [] ∷ []) }
    ensures weak_aborted { Shows no_tables (caught (in_weak_abort (leaves 0)))
        (ends_in (statuses (absent ∷ absent ∷ present ∷ [])) (emitted 0 0 ∷ emitted 1 1 ∷ []) ∷
        ends [] ∷ []) }
    ensures first_branch { Shows no_tables (caught (Par (leaves 0) emits_and_pauses))
        (ends (emitted 0 0 ∷ emitted 2 0 ∷ emitted 1 1 ∷ []) ∷ ends [] ∷ []) }
    ensures second_branch { Shows no_tables (caught (Par emits_and_pauses (leaves 0)))
        (ends (emitted 2 0 ∷ emitted 0 0 ∷ emitted 1 1 ∷ []) ∷ ends [] ∷ []) }
    ensures local { Shows local_tables (caught (in_local (leaves 0)))
        (ends (emitted 0 0 ∷ emitted 1 1 ∷ []) ∷ ends [] ∷ []) }
{}

/// The same of an exit in a later tick.
pub fn later_exit_keeps_emissions_and_variables()
    ensures trap { Shows no_tables (caught (leaves_later 0))
        (pauses [] ∷ ends (emitted 0 0 ∷ emitted 1 1 ∷ []) ∷ ends [] ∷ []) }
    ensures outer_trap { Shows no_tables (caught (Trap (leaves_later 1)))
        (pauses [] ∷ ends (emitted 0 0 ∷ emitted 1 1 ∷ []) ∷ ends [] ∷ []) }
    ensures sequence { Shows no_tables (caught (Seq (leaves_later 0) (emit 2)))
        (pauses [] ∷ ends (emitted 0 0 ∷ emitted 1 1 ∷ []) ∷ ends [] ∷ []) }
    ensures loop_ { Shows no_tables (caught (Loop (leaves_later 0)))
        (pauses [] ∷ ends (emitted 0 0 ∷ emitted 1 1 ∷ []) ∷ ends [] ∷ []) }
    ensures suspend { Shows no_tables (caught (in_suspend (leaves_later 0)))
        (pauses [] ∷ ends (emitted 0 0 ∷ emitted 1 1 ∷ []) ∷ ends [] ∷ []) }
    ensures strong { Shows no_tables (caught (in_strong_abort (leaves_later 0)))
        (pauses [] ∷ ends (emitted 0 0 ∷ emitted 1 1 ∷ []) ∷ ends [] ∷ []) }
    ensures weak { Shows no_tables (caught (in_weak_abort (leaves_later 0)))
        (pauses [] ∷ ends (emitted 0 0 ∷ emitted 1 1 ∷ []) ∷ ends [] ∷ []) }
    ensures weak_aborted { Shows no_tables (caught (in_weak_abort (leaves_later 0)))
        (pauses [] ∷
        ends_in (statuses (absent ∷ absent ∷ present ∷ [])) (emitted 0 0 ∷ emitted 1 1 ∷ []) ∷
        ends [] ∷ []) }
    ensures first_branch { Shows no_tables (caught (Par (leaves_later 0) (Seq emits_and_pauses emits_and_pauses)))
        (pauses (emitted 2 0 ∷ []) ∷ ends (emitted 0 0 ∷ emitted 2 0 ∷ emitted 1 1 ∷ []) ∷
        ends [] ∷ []) }
    ensures second_branch { Shows no_tables (caught (Par (Seq emits_and_pauses emits_and_pauses) (leaves_later 0)))
        (pauses (emitted 2 0 ∷ []) ∷ ends (emitted 2 0 ∷ emitted 0 0 ∷ emitted 1 1 ∷ []) ∷
        ends [] ∷ []) }
    ensures local { Shows local_tables (caught (in_local (leaves_later 0)))
        (pauses [] ∷ ends (emitted 0 0 ∷ emitted 1 1 ∷ []) ∷ ends [] ∷ []) }
{}

/// A choice exits where its branch does, at once and later, with what the branch has emitted and assigned.
pub fn choice_exits_with_its_branch()
    ensures first { Shows no_tables (chosen true (leaves 2) (emit 2)) (exits 2 (emitted 0 0 ∷ []) ∷
        ends [] ∷ []) }
    ensures second { Shows no_tables (chosen false (emit 2) (leaves 2)) (exits 2 (emitted 0 0 ∷
        []) ∷ ends [] ∷ []) }
    ensures first_later { Shows no_tables (chosen true (leaves_later 2) (emit 2))
        (pauses [] ∷ exits 2 (emitted 0 0 ∷ []) ∷ ends [] ∷ []) }
    ensures second_later { Shows no_tables (chosen false (emit 2) (leaves_later 2))
        (pauses [] ∷ exits 2 (emitted 0 0 ∷ []) ∷ ends [] ∷ []) }
    ensures present { Shows no_tables (asked (leaves 2) (emit 2))
        (exits_in (statuses (absent ∷ absent ∷ present ∷ [])) 2 (emitted 0 0 ∷ []) ∷ ends [] ∷ []) }
    ensures absent { Shows no_tables (asked (emit 2) (leaves 2)) (exits 2 (emitted 0 0 ∷ []) ∷
        ends [] ∷ []) }
    ensures present_later { Shows no_tables (asked (leaves_later 2) (emit 2))
        (pauses_in (statuses (absent ∷ absent ∷ present ∷ [])) [] ∷ exits 2 (emitted 0 0 ∷ []) ∷
        ends [] ∷ []) }
    ensures absent_later { Shows no_tables (asked (emit 2) (leaves_later 2))
        (pauses [] ∷ exits 2 (emitted 0 0 ∷ []) ∷ ends [] ∷ []) }
    ensures assigned { Shows no_tables (caught (chosen true (leaves 0) (emit 2)))
        (ends (emitted 0 0 ∷ emitted 1 1 ∷ []) ∷ ends [] ∷ []) }
    ensures assigned_second { Shows no_tables (caught (chosen false (emit 2) (leaves 0)))
        (ends (emitted 0 0 ∷ emitted 1 1 ∷ []) ∷ ends [] ∷ []) }
    ensures assigned_present { Shows no_tables (caught (asked (leaves 0) (emit 2)))
        (ends_in (statuses (absent ∷ absent ∷ present ∷ [])) (emitted 0 0 ∷ emitted 1 1 ∷ []) ∷
        ends [] ∷ []) }
    ensures assigned_absent { Shows no_tables (caught (asked (emit 2) (leaves 0)))
        (ends (emitted 0 0 ∷ emitted 1 1 ∷ []) ∷ ends [] ∷ []) }
{}

/// A code above those of all exits passes through each form in a later tick too, and leaves nothing.
pub fn later_code_above_exits_passes_through()
    ensures sequence { Shows no_tables (Seq (exit_later 998) (emit 0)) (pauses [] ∷ exits 998 [] ∷
        ends [] ∷ []) }
    ensures loop_ { Shows no_tables (Loop (exit_later 998)) (pauses [] ∷ exits 998 [] ∷
        ends [] ∷ []) }
    ensures trap { Shows no_tables (Trap (exit_later 998)) (pauses [] ∷ exits 998 [] ∷
        ends [] ∷ []) }
    ensures beside { Shows no_tables (Par emits_and_pauses (exit_later 998))
        (pauses (emitted 2 0 ∷ []) ∷ exits 998 [] ∷ ends [] ∷ []) }
    ensures suspend { Shows no_tables (in_suspend (exit_later 998)) (pauses [] ∷ exits 998 [] ∷
        ends [] ∷ []) }
    ensures strong { Shows no_tables (in_strong_abort (exit_later 998)) (pauses [] ∷ exits 998 [] ∷
        ends [] ∷ []) }
    ensures weak { Shows no_tables (in_weak_abort (exit_later 998)) (pauses [] ∷ exits 998 [] ∷
        ends [] ∷ []) }
    ensures local { Shows local_tables (in_local (exit_later 998)) (pauses [] ∷ exits 998 [] ∷
        ends [] ∷ []) }
{}

/// A tick that exits to the nearest trap or further out, or has a code above those of all exits, passes through
/// each form as it is, with its emissions and its variables, and leaves nothing.
pub fn every_exit_passes_as_it_is()
    ensures sequence { ForEachExit (λ d. OnlyTick no_tables all_zero (Seq (leaves d) (emit 2))
        none_present all_zero (left_by d)) }
    ensures of_second { ForEachExit (λ d. OnlyTick no_tables all_zero (Seq Nothing (leaves d))
        none_present all_zero (left_by d)) }
    ensures loop_ { ForEachExit (λ d. OnlyTick no_tables all_zero (Loop (leaves d)) none_present
        all_zero (left_by d)) }
    ensures suspend { ForEachExit (λ d. OnlyTick no_tables all_zero (in_suspend (leaves d))
        none_present all_zero (left_by d)) }
    ensures strong { ForEachExit (λ d. OnlyTick no_tables all_zero (in_strong_abort (leaves d))
        none_present all_zero (left_by d)) }
    ensures weak { ForEachExit (λ d. OnlyTick no_tables all_zero (in_weak_abort (leaves d))
        none_present all_zero (left_by d)) }
    ensures weak_aborted { ForEachExit (λ d. OnlyTick no_tables all_zero (in_weak_abort (leaves d))
        tested_present all_zero (left_by d)) }
    ensures first_choice { ForEachExit (λ d. OnlyTick no_tables all_zero
        (chosen true (leaves d) (emit 2)) none_present all_zero (left_by d)) }
    ensures second_choice { ForEachExit (λ d. OnlyTick no_tables all_zero
        (chosen false (emit 2) (leaves d)) none_present all_zero (left_by d)) }
    ensures present { ForEachExit (λ d. OnlyTick no_tables all_zero (asked (leaves d) (emit 2))
        tested_present all_zero (left_by d)) }
    ensures absent { ForEachExit (λ d. OnlyTick no_tables all_zero (asked (emit 2) (leaves d))
        none_present all_zero (left_by d)) }
    ensures local { ForEachExit (λ d. OnlyTick local_tables all_zero (in_local (leaves d))
        none_present all_zero (left_by d)) }
    ensures trap { OnlyTick no_tables all_zero (Trap (leaves 998)) none_present all_zero
        (left_by 998) }
{}

/// A parallel of which one branch makes such a tick has its code, and the emissions and variables of both.
pub fn every_exit_ends_parallel()
    ensures first { ForEachExit (λ d. (o : Tick) →
        Ticks no_tables all_zero (Par (leaves d) assigns_and_pauses) none_present all_zero o
        → (o.code ≡ exit_code d) × (o.emits ≡ emitted 0 0 ∷ emitted 2 0 ∷ []) ×
        (o.variables 0 ≡ pos 1) × (o.variables 1 ≡ pos 2)) }
    ensures second { ForEachExit (λ d. (o : Tick) →
        Ticks no_tables all_zero (Par assigns_and_pauses (leaves d)) none_present all_zero o
        → (o.code ≡ exit_code d) × (o.emits ≡ emitted 2 0 ∷ emitted 0 0 ∷ []) ×
        (o.variables 0 ≡ pos 1) × (o.variables 1 ≡ pos 2)) }
{}
