//! Starting copies of small statements, by computation.

ghost use Rattle.std.specs.Prelude.{◌≡◌, pos, true, false, [], ◌∷◌};
ghost use Rattle.kernel_terms.specs.declared.tables.Tables.{Tables};
ghost use Rattle.kernel_terms.specs.Statements.{Pause, Par};
ghost use Rattle.surf_graph.specs.definitions.DomainCopies.{domain_of_copy};
ghost use Rattle.surf_graph.specs.definitions.Formulas.{Const, And, Status};
ghost use Rattle.surf_graph.specs.definitions.Operations.{operations};
ghost use Rattle.surf_graph.specs.definitions.StartingCopies.{start};
ghost use Rattle.surf_graph.specs.SmallCopies.{given, is, sets, emits, emission};
ghost use Rattle.surf_graph.specs.SmallCopies.{emission_then_pause, pause_then_emission};
ghost use Rattle.surf_graph.specs.SmallCopies.{emission_then_pause_equations, pause_then_emission_equations};
ghost use Rattle.surf_graph.specs.SmallCopies.{pause_beside_emission_equations};
ghost use Rattle.surf_graph.specs.SmallCopies.{pause_operations, emission_then_pause_operations};
ghost use Rattle.surf_graph.specs.SmallCopies.{trapped_exit, trapped_exit_operations, aborted_pause};
ghost use Rattle.surf_graph.specs.SmallCopies.{weak_abort_operations, strong_abort_operations};
ghost use Rattle.surf_graph.specs.SmallDomains.{small_tables, small_statement, small_copy, small_domain_equations};
ghost use Rattle.surf_graph.specs.SmallCopies.{pause_equations, scattered_pause_operations};
ghost use Rattle.surf_graph.specs.SmallCopies.{incomplete_pause_operations};
ghost use Rattle.surf_graph.specs.SmallCopies.{quotient, quotient_operations, sum, sum_operations};
ghost use Rattle.surf_graph.specs.definitions.SpelledOut.{value_wires};
ghost use Rattle.surf_graph.specs.definitions.Spells.{Spells};

/// A pause that starts has the code 1, and its register is set where it is kept.
pub fn starting_pause()
    ensures equations { (tables : Tables)
        → (start tables Pause given).equations ≡ is 8 (Status 1 1) ∷ is 9 (And 1 3) ∷ [] }
    ensures status { (tables : Tables) → (start tables Pause given).status ≡ 8 }
    ensures sets { (tables : Tables) → (start tables Pause given).sets 0 ≡ sets 9 9 ∷ [] }
    ensures next { (tables : Tables) → (start tables Pause given).next ≡ 10 }
{}

/// An emission has the code 0, and its condition is that it starts.
pub fn starting_emission()
    ensures equations { (tables : Tables)
        → (start tables (emission 5) given).equations ≡
        is 8 (Status 1 0) ∷ is 9 (Const (pos 0)) ∷ [] }
    ensures emits { (tables : Tables) → (start tables (emission 5) given).emits ≡ emits 5 1 9 ∷ [] }
    ensures sets { (tables : Tables) → (start tables (emission 5) given).sets 0 ≡ [] }
{}

/// The second part of a sequence starts where the first has ended, and has no equations where the first
/// can't end.
pub fn starting_sequence()
    ensures starts { (tables : Tables)
        → (start tables emission_then_pause given).equations ≡ emission_then_pause_equations }
    ensures starts_sets { (tables : Tables)
        → (start tables emission_then_pause given).sets 0 ≡ sets 14 14 ∷ [] }
    ensures waits { (tables : Tables)
        → (start tables pause_then_emission given).equations ≡ pause_then_emission_equations }
    ensures waits_emits { (tables : Tables) → (start tables pause_then_emission given).emits ≡ [] }
{}

/// Both branches of a parallel start, and keep their registers where the whole pauses.
pub fn starting_parallel()
    ensures { (tables : Tables)
        → (start tables (Par Pause (emission 5)) given).equations ≡
        pause_beside_emission_equations }
{}

/// The operations of starting copies: statuses are constants, comparisons and choices.
pub fn starting_operations()
    ensures pause { (tables : Tables) → operations (start tables Pause given) ≡ pause_operations }
    ensures sequence { (tables : Tables)
        → operations (start tables emission_then_pause given) ≡ emission_then_pause_operations }
    ensures trap { (tables : Tables)
        → operations (start tables trapped_exit given) ≡ trapped_exit_operations }
    ensures weak_abort { (tables : Tables)
        → operations (start tables (aborted_pause true) given) ≡ weak_abort_operations }
    ensures strong_abort { (tables : Tables)
        → operations (start tables (aborted_pause false) given) ≡ strong_abort_operations }
{}

/// A domain's equations have the statuses of its signals and its next registers: that of a pause, a variable, the
/// value of a signal, and the last value of a channel.
pub fn starting_domain()
    ensures equations { (domain_of_copy small_tables 0 small_statement small_copy).equations ≡
        small_domain_equations }
    ensures next { (domain_of_copy small_tables 0 small_statement small_copy).next ≡
        24 ∷ 2 ∷ 7 ∷ 3 ∷ [] }
    ensures paused { (domain_of_copy small_tables 0 small_statement small_copy).paused ≡ 17 }
{}

/// Equations are spelled among operations in another order and with other further wires, and not where one of
/// their operations is missing or reads another wire.
pub fn scattered_operations()
    ensures pause { Spells pause_equations scattered_pause_operations }
    ensures one_missing { Spells pause_equations incomplete_pause_operations → ⊥ }
    ensures other_go { Spells (is 8 (Status 2 1) ∷ []) scattered_pause_operations → ⊥ }
{}

/// A divisor behind a minus is one constant, and another operand behind it is two operations.
pub fn constant_divisors()
    ensures divisor { (value_wires given.wires 8 quotient).equations ≡ quotient_operations }
    ensures operand { (value_wires given.wires 8 sum).equations ≡ sum_operations }
{}
