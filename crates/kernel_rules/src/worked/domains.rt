//! Legal ticks of small domains.

ghost use Rattle.std.specs.Prelude.{◌≡◌, ℕ, suc, ℤ, List, [], ◌∷◌, Option, false};
ghost use Rattle.kernel_terms.specs.declared.tables.Tables.{Tables};
ghost use Rattle.kernel_terms.specs.TableEntries.{signal_at, is_interface_of};
ghost use Rattle.kernel_terms.specs.Marks.{Going, Ended};
ghost use Rattle.kernel_terms.specs.Statements.{Nothing, Exit};
ghost use Rattle.kernel_rules.specs.definitions.LegalTick.{DomainState, Inputs, IsLegalTick};
ghost use Rattle.kernel_rules.specs.Rows.{Logs, at_start, on, off, with};
ghost use Rattle.kernel_rules.specs.definitions.LegalTick.{no_inputs};
ghost use Rattle.kernel_rules.specs.ShownTicks.{OnlyLogs};
ghost use Rattle.kernel_rules.specs.Worked.Words.{emit};
ghost use Rattle.kernel_rules.specs.Worked.Domains.{one_sum, reads_absent, alternates, turns_again};
ghost use Rattle.kernel_rules.specs.Worked.Domains.{input_tables, seven_at_two, shows_state};
ghost use Rattle.kernel_rules.specs.Worked.Domains.{shows_input, shows_input_again, emits_again};
ghost use Rattle.kernel_rules.specs.Worked.Domains.{shared_tables, one_then_other, answers};
ghost use Rattle.kernel_rules.specs.Worked.Domains.{relies_on_itself, contradicts_itself};

/// An output that is absent keeps its last value, and a statement that reads it reads that one: 0 before
/// the first emission.
pub fn absent_output_keeps_its_value()
    ensures first { OnlyLogs one_sum no_inputs reads_absent
        ((off ∷ []) ∷ (off ∷ []) ∷ (with 4 ∷ []) ∷ []) Nothing Ended }
    ensures last { OnlyLogs one_sum no_inputs alternates
        ((off ∷ []) ∷ (with 2 ∷ []) ∷ (off ∷ []) ∷ (with 4 ∷ []) ∷ []) turns_again Going }
{}

/// An input has the value that is handed in at the tick, and where none is, it is absent and keeps the
/// one that was handed in before.
pub fn absent_input_keeps_its_value()
    ensures { OnlyLogs input_tables seven_at_two shows_input
        ((off ∷ with 0 ∷ []) ∷ (with 7 ∷ with 7 ∷ []) ∷ (off ∷ with 7 ∷ []) ∷
        []) shows_input_again Going }
{}

/// An output's value combines the emissions of the tick, without the last value.
pub fn last_value_is_not_combined()
    ensures { OnlyLogs one_sum no_inputs emits_again
        ((with 5 ∷ []) ∷ (with 4 ∷ []) ∷ (off ∷ []) ∷ (with 2 ∷ []) ∷ []) Nothing Ended }
{}

/// The log shows the interface signals of the domain, and none of another: of the domain 0, and of the
/// domain 1.
pub fn log_shows_own_signals()
    ensures own { OnlyLogs shared_tables no_inputs one_then_other
        ((on ∷ off ∷ []) ∷ (off ∷ on ∷ []) ∷ []) Nothing Ended }
    ensures other { (new : DomainState)
        × IsLegalTick shared_tables no_inputs 1 (at_start (emit 1)) (on ∷ []) new }
    ensures other_alone { (row : List (Option ℤ)) (new : DomainState)
        → IsLegalTick shared_tables no_inputs 1 (at_start (emit 1)) row new → row ≡ on ∷ [] }
{}

/// An output is present in the whole tick in which it is emitted.
pub fn output_is_present_where_emitted()
    ensures { OnlyLogs shared_tables no_inputs answers ((on ∷ on ∷ []) ∷ []) Nothing Ended }
{}

/// A tick is legal wherever its environment is coherent: what emits a signal only where it is present
/// has two, and what emits it only where it is absent has none.
pub fn coherence_decides()
    ensures absent { Logs one_sum no_inputs relies_on_itself ((off ∷ []) ∷ []) Nothing Ended }
    ensures present { Logs one_sum no_inputs relies_on_itself ((on ∷ []) ∷ []) Nothing Ended }
    ensures none { (row : List (Option ℤ)) (new : DomainState)
        → IsLegalTick one_sum no_inputs 0 (at_start contradicts_itself) row new → ⊥ }
{}

/// A domain that has ended makes no tick, and no legal tick exits or has a code above those of all exits.
pub fn some_domains_make_no_tick()
    ensures ended { (tables : Tables) (inputs : Inputs) (d : ℕ) (old : DomainState)
        (row : List (Option ℤ)) (new : DomainState) → old.mark ≡ Ended
        → IsLegalTick tables inputs d old row new → ⊥ }
    ensures exits { (tables : Tables) (inputs : Inputs) (d e : ℕ) (row : List (Option ℤ))
        (new : DomainState)
        → IsLegalTick tables inputs d (at_start (Exit e)) row new → ⊥ }
{}

/// A legal tick adds one to the domain's ticks, and keeps the last value of each channel and the value
/// of each signal that isn't an interface signal of the domain.
pub fn legal_tick_counts()
    ensures ticks { (tables : Tables) (inputs : Inputs) (d : ℕ) (old : DomainState)
        (row : List (Option ℤ)) (new : DomainState) → IsLegalTick tables inputs d old row new
        → new.ticks ≡ suc old.ticks }
    ensures last { (tables : Tables) (inputs : Inputs) (d : ℕ) (old : DomainState)
        (row : List (Option ℤ)) (new : DomainState) → IsLegalTick tables inputs d old row new
        → new.last ≡ old.last }
    ensures values { (tables : Tables) (inputs : Inputs) (d : ℕ) (old : DomainState)
        (row : List (Option ℤ)) (new : DomainState) (s : ℕ) →
        IsLegalTick tables inputs d old row new
        → is_interface_of d (signal_at tables s) ≡ false → new.values s ≡ old.values s }
{}

/// A legal tick reads the variables of the domain, its signals' last values and its channels'.
pub fn legal_tick_reads_state()
    ensures tick { (new : DomainState)
        × IsLegalTick input_tables no_inputs 0 shows_state (off ∷ with 987 ∷ []) new }
    ensures alone { (row : List (Option ℤ)) (new : DomainState)
        → IsLegalTick input_tables no_inputs 0 shows_state row new → row ≡ off ∷ with 987 ∷ [] }
{}
