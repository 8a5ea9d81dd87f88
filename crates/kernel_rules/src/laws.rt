//! Laws of the rules.

ghost use Rattle.std.specs.Prelude.{◌≡◌, ◌≢◌, ℕ, suc, ◌<◌, ◌≤◌, ℤ, true, false};
ghost use Rattle.std.specs.Prelude.{List, [], ◌∷◌, ◌++◌, Option};
ghost use Rattle.std.specs.List.{All};
ghost use Rattle.java_values.specs.declared.kind.Kind.{Kind};
ghost use Rattle.java_values.specs.Kinds.{IsInRange};
ghost use Rattle.kernel_terms.specs.declared.tables.SignalInfo.{SignalInfo};
ghost use Rattle.kernel_terms.specs.declared.tables.Combine.{Combine};
ghost use Rattle.kernel_terms.specs.declared.tables.Tables.{Tables};
ghost use Rattle.kernel_terms.specs.Limits.{most_traps};
ghost use Rattle.kernel_terms.specs.TableEntries.{value_kind, signal_at, is_input, is_interface_of};
ghost use Rattle.kernel_terms.specs.Statements.{Stmt, Nothing, Local};
ghost use Rattle.kernel_terms.specs.WellFormed.{declared_by};
ghost use Rattle.kernel_terms.specs.MayEnd.{ends0, ends1, exits0, exits1, resumes};
ghost use Rattle.kernel_rules.specs.definitions.LegalTick.{DomainState, Inputs, IsLegalTick};
ghost use Rattle.kernel_rules.specs.definitions.Mentions.{mentions_variable, mentions_signal, mentions_channel};
ghost use Rattle.kernel_rules.specs.definitions.Registers.{live, residual, FitRegisters};
ghost use Rattle.kernel_rules.specs.definitions.Signals.{Env, combined, folded, is_emitted};
ghost use Rattle.kernel_rules.specs.definitions.TickRule.{Tick, Ticks, writes};
ghost use Rattle.kernel_rules.specs.definitions.TickRule.{ended_code, paused_code, exit_code, has_paused};
ghost use Rattle.kernel_rules.specs.definitions.TickRule.{code_of_both, code_of_trap, code_of_weak_abort};

/// Two values are combined in either order to one value, three in either grouping, and the value is
/// one of their kind.
pub fn combination_has_no_order()
    ensures symmetric { (c : Combine) (k : Kind) (m n : ℤ) → combined c k m n ≡ combined c k n m }
    ensures grouping { (c : Combine) (k : Kind) (l m n : ℤ)
        → IsInRange k l → IsInRange k m → IsInRange k n
        → combined c k (combined c k l m) n ≡ combined c k l (combined c k m n) }
    ensures range { (c : Combine) (k : Kind) (m n : ℤ) → IsInRange k m → IsInRange k n
        → IsInRange k (combined c k m n) }
{}

/// The value of a signal is one of its kind, and doesn't change where two emissions that follow one
/// another are swapped.
pub fn emissions_have_no_order()
    ensures range { (info : SignalInfo) (last : ℤ) (vs : List ℤ) → IsInRange (value_kind info) last
        → All (λ n. IsInRange (value_kind info) n) vs
        → IsInRange (value_kind info) (folded info last vs) }
    ensures swapped { (info : SignalInfo) (last : ℤ) (vs : List ℤ) (v w : ℤ) (ws : List ℤ)
        → All (λ n. IsInRange (value_kind info) n) vs
        → IsInRange (value_kind info) v → IsInRange (value_kind info) w
        → folded info last (vs ++ v ∷ w ∷ ws) ≡ folded info last (vs ++ w ∷ v ∷ ws) }
{}

/// What a statement emits of a signal that is local to it doesn't leave it.
pub fn local_emissions_stay_inside()
    ensures { (tables : Tables) (last : ℕ → ℤ) (s : ℕ) (v : ℤ) (p : Stmt) (env : Env) (x : ℕ → ℤ)
        (o : Tick) → Ticks tables last (Local s v p) env x o → is_emitted o.emits s ≡ false }
{}

/// A statement ends in its starting tick, and exits in it to a trap, only where its shape says that
/// it may.
pub fn starting_ticks_are_foreseen()
    ensures ends { (tables : Tables) (last : ℕ → ℤ) (p : Stmt) (env : Env) (x : ℕ → ℤ) (o : Tick)
        → Ticks tables last p env x o → o.code ≡ ended_code → ends0 p ≡ true }
    ensures exits { (tables : Tables) (last : ℕ → ℤ) (p : Stmt) (env : Env) (x : ℕ → ℤ) (o : Tick)
        (d : ℕ) → Ticks tables last p env x o → d < most_traps → o.code ≡ exit_code d
        → exits0 p d ≡ true }
{}

/// A statement of which some pause, send or receive is on has a later tick, and what its registers
/// stand for ends or exits in a tick only where the statement's shape says that it may in a later
/// tick.
pub fn later_ticks_are_foreseen()
    ensures resumes { (tables : Tables) (p : Stmt) (n : ℕ) (r : ℕ → ℤ)
        → live tables p n r ≡ true → resumes p ≡ true }
    ensures ends { (tables : Tables) (last : ℕ → ℤ) (p : Stmt) (n : ℕ) (r : ℕ → ℤ) (env : Env)
        (x : ℕ → ℤ) (o : Tick) → FitRegisters tables p n r
        → Ticks tables last (residual tables p n r) env x o → o.code ≡ ended_code → ends1 p ≡ true }
    ensures exits { (tables : Tables) (last : ℕ → ℤ) (p : Stmt) (n : ℕ) (r : ℕ → ℤ) (env : Env)
        (x : ℕ → ℤ) (o : Tick) (d : ℕ) → FitRegisters tables p n r
        → Ticks tables last (residual tables p n r) env x o → d < most_traps
        → o.code ≡ exit_code d → exits1 p d ≡ true }
{}

/// The statement that registers stand for assigns no variable that the source doesn't assign, and
/// mentions no variable, signal or channel that the source doesn't mention.
pub fn residuals_mention_no_more()
    ensures writes { (tables : Tables) (p : Stmt) (n : ℕ) (r : ℕ → ℤ) (x : ℕ)
        → writes (residual tables p n r) x ≡ true → writes p x ≡ true }
    ensures variables { (tables : Tables) (p : Stmt) (n : ℕ) (r : ℕ → ℤ) (x : ℕ)
        → mentions_variable (residual tables p n r) x ≡ true → mentions_variable p x ≡ true }
    ensures signals { (tables : Tables) (p : Stmt) (n : ℕ) (r : ℕ → ℤ) (s : ℕ)
        → mentions_signal (residual tables p n r) s ≡ true → mentions_signal p s ≡ true }
    ensures channels { (tables : Tables) (p : Stmt) (n : ℕ) (r : ℕ → ℤ) (c : ℕ)
        → mentions_channel (residual tables p n r) c ≡ true → mentions_channel p c ≡ true }
{}

/// A legal tick of a domain reads what is handed in at it for the domain's inputs, and nothing else
/// that is handed in.
pub fn legal_ticks_read_their_inputs()
    ensures { (tables : Tables) (I J : Inputs) (d : ℕ) (old : DomainState)
        (statuses : List (Option ℤ)) (new : DomainState)
        → ((s : ℕ) → is_interface_of d (signal_at tables s) ≡ true
        → is_input (signal_at tables s).sort ≡ true
        → I s (suc old.ticks) ≡ J s (suc old.ticks))
        → IsLegalTick tables I d old statuses new → IsLegalTick tables J d old statuses new }
{}

/// A statement that doesn't pause leaves nothing, and no tick changes a variable that the statement
/// doesn't assign.
pub fn ticks_leave_little()
    ensures nothing { (tables : Tables) (last : ℕ → ℤ) (p : Stmt) (env : Env) (x : ℕ → ℤ) (o : Tick)
        → Ticks tables last p env x o → has_paused o.code ≡ false → o.rest ≡ Nothing }
    ensures variables { (tables : Tables) (last : ℕ → ℤ) (p : Stmt) (env : Env) (x : ℕ → ℤ)
        (o : Tick) (n : ℕ) → Ticks tables last p env x o → writes p n ≡ false
        → o.variables n ≡ x n }
{}

/// Of two parts beside each other the greater code counts, and one that has ended counts least.
pub fn greater_code_counts()
    ensures first { (m n : ℕ) → n ≤ m → code_of_both m n ≡ m }
    ensures second { (m n : ℕ) → m ≤ n → code_of_both m n ≡ n }
{}

/// An exit to a trap ends it, an exit further out counts from there, and each other code stays, those
/// above all exits too.
pub fn traps_lower_exits()
    ensures own { code_of_trap (exit_code 0) ≡ ended_code }
    ensures outer { (d : ℕ) → suc d < most_traps → code_of_trap (exit_code (suc d)) ≡ exit_code d }
    ensures ended { code_of_trap ended_code ≡ ended_code }
    ensures paused { code_of_trap paused_code ≡ paused_code }
    ensures above { (n : ℕ) → exit_code most_traps ≤ n → code_of_trap n ≡ n }
{}

/// A weak abort ends a body that would pause, and leaves each other code.
pub fn weak_aborts_end_pauses()
    ensures paused { code_of_weak_abort paused_code ≡ ended_code }
    ensures other { (n : ℕ) → n ≢ paused_code → code_of_weak_abort n ≡ n }
{}

/// In one environment, from the same variables, a statement that declares no local signal makes one
/// tick at most.
pub fn environment_decides_tick()
    ensures { (tables : Tables) (last : ℕ → ℤ) (p : Stmt) (env : Env) (x : ℕ → ℤ) (o other : Tick)
        → declared_by p ≡ [] → Ticks tables last p env x o → Ticks tables last p env x other
        → o ≡ other }
{}
