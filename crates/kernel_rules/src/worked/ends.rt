//! Ticks of sends and receives.

ghost use Rattle.std.specs.Prelude.{ℕ, ℤ, pos, [], ◌∷◌};
ghost use Rattle.kernel_terms.specs.declared.tables.Tables.{Tables};
ghost use Rattle.kernel_terms.specs.Statements.{Seq, Send, SendWaits, Sent};
ghost use Rattle.kernel_terms.specs.Statements.{Receive, ReceiveWaits, Received};
ghost use Rattle.kernel_rules.specs.definitions.Signals.{Env, put_at};
ghost use Rattle.kernel_rules.specs.definitions.TickRule.{quiet, ends_with, paused_code};
ghost use Rattle.kernel_rules.specs.ShownTicks.{OnlyTick, Shows, pauses, ends, emitted};
ghost use Rattle.kernel_rules.specs.ShownTicks.{all_zero, none_present};
ghost use Rattle.kernel_rules.specs.Rows.{int};
ghost use Rattle.kernel_rules.specs.Worked.Words.{no_tables, variable, plus, assign, emit};
ghost use Rattle.kernel_rules.specs.Worked.Readings.{one_variable, two_signals, one_channel};
ghost use Rattle.kernel_rules.specs.Worked.Readings.{sum_of_all};

/// A send computes its value in its starting tick, from what it reads there, and waits with it.
pub fn send_computes_at_once()
    ensures reads { OnlyTick no_tables one_channel (Send 4 sum_of_all) two_signals one_variable
        (quiet paused_code (SendWaits 4 (pos 987)) one_variable) }
    ensures after_assignment { OnlyTick no_tables all_zero
        (Seq (assign 0 5) (Send 4 (plus (variable 0) (int 1)))) none_present all_zero
        (quiet paused_code (SendWaits 4 (pos 6)) (put_at all_zero 0 (pos 5))) }
{}

/// A receive waits from its starting tick on. A send and a receive that wait stay as they are.
pub fn send_and_receive_wait()
    ensures receives { (tables : Tables) (last : ℕ → ℤ) (c : ℕ) (env : Env) (x : ℕ → ℤ)
        → OnlyTick tables last (Receive c) env x (quiet paused_code (ReceiveWaits c) x) }
    ensures receive { (tables : Tables) (last : ℕ → ℤ) (c : ℕ) (env : Env) (x : ℕ → ℤ)
        → OnlyTick tables last (ReceiveWaits c) env x (quiet paused_code (ReceiveWaits c) x) }
    ensures send { (tables : Tables) (last : ℕ → ℤ) (c : ℕ) (v : ℤ) (env : Env) (x : ℕ → ℤ)
        → OnlyTick tables last (SendWaits c v) env x (quiet paused_code (SendWaits c v) x) }
{}

/// A send and a receive that have completed end, and what follows them begins in that tick.
pub fn completed_ends_go_on()
    ensures sent { (tables : Tables) (last : ℕ → ℤ) (c : ℕ) (env : Env) (x : ℕ → ℤ)
        → OnlyTick tables last (Sent c) env x (ends_with [] x) }
    ensures received { (tables : Tables) (last : ℕ → ℤ) (c : ℕ) (env : Env) (x : ℕ → ℤ)
        → OnlyTick tables last (Received c) env x (ends_with [] x) }
    ensures after_sent { Shows no_tables (Seq (Sent 0) (emit 0)) (ends (emitted 0 0 ∷ []) ∷ []) }
    ensures after_received { Shows no_tables (Seq (Received 0) (emit 0)) (ends (emitted 0 0 ∷
        []) ∷ []) }
    ensures after_waiting { Shows no_tables (Seq (SendWaits 0 (pos 5)) (emit 0))
        (pauses [] ∷ pauses [] ∷ []) }
{}
