//! Ticks of small statements, worked out.

ghost use Rattle.std.specs.Prelude.{◌≡◌, ℕ, ℤ, true, false, List, [], ◌∷◌};
ghost use Rattle.kernel_terms.specs.declared.tables.Tables.{Tables};
ghost use Rattle.kernel_terms.specs.Expressions.{Test};
ghost use Rattle.kernel_terms.specs.Marks.{Going, Ended};
ghost use Rattle.kernel_terms.specs.Statements.{Stmt, Nothing, Abort, Suspend};
ghost use Rattle.kernel_rules.specs.definitions.Expressions.{holds};
ghost use Rattle.kernel_rules.specs.Rows.{Logs, first_signal_at};
ghost use Rattle.kernel_rules.specs.definitions.LegalTick.{no_inputs};
ghost use Rattle.kernel_rules.specs.Rows.{on, off, with, emitted_alone};
ghost use Rattle.kernel_rules.specs.Rows.{sibling_tables, sibling};
ghost use Rattle.kernel_rules.specs.Rows.{abort_tables, aborted, endless_aborted, armed_abort};
ghost use Rattle.kernel_rules.specs.Rows.{new_copy_tables, new_copy, old_copy};
ghost use Rattle.kernel_rules.specs.Rows.{new_value_tables, new_value, old_value};
ghost use Rattle.kernel_rules.specs.Rows.{channel_tables, suspended, waiting, served};
ghost use Rattle.kernel_rules.specs.Rows.{copies_tables, copies, old_copies};
ghost use Rattle.kernel_rules.specs.ShownTicks.{OnlyLogs};
ghost use Rattle.kernel_rules.specs.definitions.Signals.{Env, is_emitted};
ghost use Rattle.kernel_rules.specs.definitions.TickRule.{Tick, Ticks, paused_code, quiet, ends_with};

/// Where one part of a parallel exits from the trap round it, the other part runs in that tick all
/// the same.
pub fn sibling_runs_in_exiting_tick()
    ensures { OnlyLogs sibling_tables no_inputs sibling
        ((on ∷ off ∷ []) ∷ (on ∷ on ∷ []) ∷ []) Nothing Ended }
{}

/// The body of a weak abort ticks once more when the test holds, and then the abort ends, also where
/// the body pauses.
pub fn weak_abort_runs_its_body()
    ensures ending { OnlyLogs abort_tables (first_signal_at 2) (aborted true)
        ((off ∷ on ∷ off ∷ []) ∷ (on ∷ on ∷ on ∷ []) ∷ []) Nothing Ended }
    ensures pausing { OnlyLogs abort_tables (first_signal_at 2) endless_aborted
        ((off ∷ on ∷ off ∷ []) ∷ (on ∷ on ∷ on ∷ []) ∷ []) Nothing Ended }
{}

/// The body of a strong abort doesn't tick when the test holds, and emits nothing in that tick.
pub fn strong_abort_stops_its_body()
    ensures begins { OnlyLogs abort_tables (first_signal_at 2) (aborted false)
        ((off ∷ on ∷ off ∷ []) ∷ []) armed_abort Going }
    ensures logs { OnlyLogs abort_tables (first_signal_at 2) (aborted false)
        ((off ∷ on ∷ off ∷ []) ∷ (on ∷ off ∷ on ∷ []) ∷ []) Nothing Ended }
    ensures silent { (last : ℕ → ℤ) (env : Env) (x : ℕ → ℤ) (o : Tick) → (env 0).present ≡ true
        → Ticks abort_tables last armed_abort env x o → is_emitted o.emits 1 ≡ false }
    ensures alone { (tables : Tables) (last : ℕ → ℤ) (t : Test) (p : Stmt) (env : Env) (x : ℕ → ℤ)
        (o : Tick) → holds env t ≡ true → Ticks tables last (Abort false true t p) env x o
        → o ≡ ends_with [] x }
{}

/// Each turn of a loop has a local signal of its own: what the last turn emitted of its own one
/// isn't seen in the next, and each tick emits B alone.
pub fn new_copy_of_local_each_turn()
    ensures first { Logs new_copy_tables no_inputs new_copy ((off ∷ on ∷ []) ∷ []) old_copy Going }
    ensures second { Logs new_copy_tables no_inputs new_copy
        ((off ∷ on ∷ []) ∷ (off ∷ on ∷ []) ∷ []) old_copy Going }
    ensures new { (last : ℕ → ℤ) (env : Env) (x : ℕ → ℤ) (o : Tick)
        → Ticks new_copy_tables last new_copy env x o → o.emits ≡ emitted_alone 1 0 }
    ensures old { (last : ℕ → ℤ) (env : Env) (x : ℕ → ℤ) (o : Tick)
        → Ticks new_copy_tables last old_copy env x o → o.emits ≡ emitted_alone 1 0 }
{}

/// A local signal that is begun anew has the value 0 again, in every tick.
pub fn new_copy_has_first_value()
    ensures first { Logs new_value_tables no_inputs new_value ((with 0 ∷ []) ∷ []) old_value Going }
    ensures second { Logs new_value_tables no_inputs new_value
        ((with 0 ∷ []) ∷ (with 0 ∷ []) ∷ []) old_value Going }
    ensures new { (last : ℕ → ℤ) (env : Env) (x : ℕ → ℤ) (o : Tick)
        → Ticks new_value_tables last new_value env x o → o.emits ≡ emitted_alone 0 0 }
    ensures old { (last : ℕ → ℤ) (env : Env) (x : ℕ → ℤ) (o : Tick)
        → Ticks new_value_tables last old_value env x o → o.emits ≡ emitted_alone 0 0 }
{}

/// A receive under a suspend waits until it has received, whether the suspend's test holds or not, and
/// then ends in the next tick in which the test doesn't hold.
pub fn suspended_receive_waits()
    ensures begins { (last : ℕ → ℤ) (env : Env) (x : ℕ → ℤ)
        → Ticks channel_tables last suspended env x (quiet paused_code waiting x) }
    ensures waits { (last : ℕ → ℤ) (env : Env) (x : ℕ → ℤ)
        → Ticks channel_tables last waiting env x (quiet paused_code waiting x) }
    ensures held { (last : ℕ → ℤ) (env : Env) (x : ℕ → ℤ) → (env 0).present ≡ true
        → Ticks channel_tables last served env x (quiet paused_code served x) }
    ensures ends { (last : ℕ → ℤ) (env : Env) (x : ℕ → ℤ) → (env 0).present ≡ false
        → Ticks channel_tables last served env x
        (ends_with (record { signal = 1; value = last 0 } ∷ []) x) }
{}

/// An armed suspend whose test holds pauses as it is: it emits nothing and changes no variable.
pub fn suspended_statement_stays()
    ensures { (tables : Tables) (last : ℕ → ℤ) (t : Test) (p : Stmt) (env : Env) (x : ℕ → ℤ)
        (o : Tick) → holds env t ≡ true → Ticks tables last (Suspend true t p) env x o
        → o ≡ quiet paused_code (Suspend true t p) x }
{}

/// Three copies of one local signal tick in one tick, each with a value of its own.
pub fn three_copies_in_one_tick()
    ensures first { OnlyLogs copies_tables (first_signal_at 2) copies
        ((off ∷ with 1 ∷ []) ∷ []) old_copies Going }
    ensures second { OnlyLogs copies_tables (first_signal_at 2) copies
        ((off ∷ with 1 ∷ []) ∷ (on ∷ with 7 ∷ []) ∷ []) old_copies Going }
    ensures third { OnlyLogs copies_tables (first_signal_at 2) copies
        ((off ∷ with 1 ∷ []) ∷ (on ∷ with 7 ∷ []) ∷ (off ∷ with 6 ∷ []) ∷ []) old_copies Going }
{}
