//! Kinds of operations, of copies and of a domain's equations.

ghost use Rattle.std.specs.Prelude.{◌≡◌, ℕ, ◌<◌, ◌≤◌, pos, true, List, []};
ghost use Rattle.std.specs.List.Sorted.{IsPermutation};
ghost use Rattle.java_values.specs.declared.kind.Kind.{Kind};
ghost use Rattle.java_values.specs.declared.kind.Kind.TheVariants.{Boolean};
ghost use Rattle.kernel_terms.specs.declared.tables.Tables.{Tables};
ghost use Rattle.kernel_terms.specs.Divisors.{has_divisors, divisors_are_allowed};
ghost use Rattle.kernel_terms.specs.Expressions.{Expression, Test, kind_of};
ghost use Rattle.kernel_terms.specs.Statements.{Stmt};
ghost use Rattle.kernel_terms.specs.WellFormed.{Scope, has_entries};
ghost use Rattle.kernel_terms.specs.WellFormed.{fits_expression, fits_statement, fits_test};
ghost use Rattle.kernel_rules.specs.definitions.Registers.{statement_registers};
ghost use Rattle.tick_code.specs.WellKinded.{Class, Constant, Fits};
ghost use Rattle.wire_code.specs.declared.equation.Equation.{Equation};
ghost use Rattle.surf_graph.specs.definitions.Formulas.{Wires, WiresBelow, Formula, Reads, Within};
ghost use Rattle.surf_graph.specs.definitions.Formulas.{Equation as CopyEquation};
ghost use Rattle.surf_graph.specs.definitions.Copies.{Context};
ghost use Rattle.surf_graph.specs.definitions.KindedCopies.{EachCombines, HasRegisters};
ghost use Rattle.surf_graph.specs.definitions.KindedCopies.{ContextFits, IsKindedCopy};
ghost use Rattle.surf_graph.specs.definitions.DomainCopies.{domain_context, domain_of_copy};
ghost use Rattle.surf_graph.specs.definitions.KindedDomains.{wires_end, IsKindedDomain, IsWellKindedDomain};
ghost use Rattle.surf_graph.specs.definitions.Shows.{Outside};
ghost use Rattle.surf_graph.specs.definitions.StartingCopies.{start};
ghost use Rattle.surf_graph.specs.definitions.KindedFormulas.{HasKind, HaveKinds, AreKinded, IsKindedFormula};
ghost use Rattle.surf_graph.specs.definitions.KindedWires.{OperandsFit, Among, IsKinded, value_class, test_class};
ghost use Rattle.surf_graph.specs.definitions.SpelledOut.{value_wires, test_wires, spelled, spelled_out};

/// The operations of an expression, with wires from n on, are well-kinded where they are among all operations, the
/// wires that it reads are below n and of their kinds, it fits its scope, and each divisor in it is
/// allowed (`value`). So are those of a test that fits, whatever all operations are (`test`). Where the
/// wires that it reads are of their kinds and it fits, the wire of an expression is an operand of its kind
/// (`fitting_value`), and that of a test one of kind `boolean` (`fitting_test`).
pub fn operations_are_well_kinded()
    ensures value { (tables : Tables) (scope : Scope) (frame : List Kind) (all : List Equation)
        (v : Wires) (e : Expression) (n : ℕ) (c : ℕ → Class) → WiresBelow n v
        → OperandsFit tables scope c v → fits_expression tables scope e ≡ true
        → has_divisors e ≡ true → Among (value_wires v n e).equations all
        → IsKinded frame all n c (value_class c v e) (value_wires v n e) }
    ensures test { (tables : Tables) (scope : Scope) (frame : List Kind) (all : List Equation)
        (v : Wires) (t : Test) (n : ℕ) (c : ℕ → Class) → WiresBelow n v
        → OperandsFit tables scope c v → fits_test tables scope t ≡ true
        → IsKinded frame all n c (test_class c v t) (test_wires v n t) }
    ensures fitting_value { (tables : Tables) (scope : Scope) (c : ℕ → Class) (v : Wires)
        (e : Expression) → OperandsFit tables scope c v → fits_expression tables scope e ≡ true
        → Fits (kind_of e) (value_class c v e) }
    ensures fitting_test { (tables : Tables) (scope : Scope) (c : ℕ → Class) (v : Wires) (t : Test)
        → OperandsFit tables scope c v → fits_test tables scope t ≡ true
        → Fits Boolean (test_class c v t) }
{}

/// The operations of a copy's formula, with further wires from n on, are well-kinded where they are among all
/// operations, n isn't 0, wire 0 is the constant 0, and the formula has its kind and reads wires below n alone.
pub fn operations_of_formulas_are_well_kinded()
    ensures { (tables : Tables) (frame : List Kind) (all : List Equation) (n : ℕ) (c : ℕ → Class)
        (f : Formula) (x : Class) → 0 < n → c 0 ≡ Constant (pos 0) → Reads n f
        → HasKind tables frame c f x → Among (spelled n f).equations all
        → IsKindedFormula frame all n c x (spelled n f) }
{}

/// Equations spelled out, with further wires from n on, are well-kinded where they are among all operations, n
/// isn't 0, wire 0 is the constant 0, and the equations have their kinds, and read and give wires below n alone.
pub fn spelled_equations_are_well_kinded()
    ensures { (tables : Tables) (frame : List Kind) (all : List Equation) (n : ℕ) (c : ℕ → Class)
        (es : List CopyEquation) → 0 < n → c 0 ≡ Constant (pos 0) → Within n es
        → HaveKinds tables frame c es → Among (spelled_out n es) all
        → AreKinded frame all n c (spelled_out n es) }
{}

/// In tables whose entries fit some number of domains, each signal's combination fits its kind.
pub fn fitting_entries_combine()
    ensures { (tables : Tables) (domains : ℕ) → has_entries tables domains ≡ true
        → EachCombines tables }
{}

/// A starting copy has kinds where its statement fits, each divisor in it is allowed, each
/// signal's combination fits its kind, the wires that the copy is given are its context's, below its own, and of
/// their kinds, and the frame has the statement's registers.
pub fn starting_copies_are_well_kinded()
    ensures { (tables : Tables) (frame : List Kind) (scope : Scope) (p : Stmt) (c : ℕ → Class)
        (x : Context) → EachCombines tables → fits_statement tables scope p ≡ true
        → divisors_are_allowed p ≡ true → Outside x → ContextFits tables scope c x
        → HasRegisters frame x.register (statement_registers tables p)
        → IsKindedCopy tables frame scope.domain p x.register x.next c (start tables p x) }
{}

/// A domain's equations by the starting copy of its statement have kinds, over a frame of its registers and
/// inputs, where the statement fits, each divisor in it is allowed, and each signal's combination
/// fits its kind (`equations`). Where they are spelled out, in whatever order, with further wires behind the
/// domain's own, the operations are well-kinded by the rules of `tick_code` (`operations`).
pub fn starting_domains_are_well_kinded()
    ensures equations { (tables : Tables) (d : ℕ) (p : Stmt) → EachCombines tables
        → fits_statement tables (record { domain = d; traps = 0; locals = [] }) p ≡ true
        → divisors_are_allowed p ≡ true
        → IsKindedDomain tables d p
        (domain_of_copy tables d p (start tables p (domain_context tables d))) }
    ensures operations { (tables : Tables) (d : ℕ) (p : Stmt) (n : ℕ) (es : List CopyEquation)
        → EachCombines tables
        → fits_statement tables (record { domain = d; traps = 0; locals = [] }) p ≡ true
        → divisors_are_allowed p ≡ true
        → wires_end tables d p (start tables p (domain_context tables d)) ≤ n
        → IsPermutation
        (domain_of_copy tables d p (start tables p (domain_context tables d))).equations es
        → IsWellKindedDomain tables d p (spelled_out n es)
        (domain_of_copy tables d p (start tables p (domain_context tables d))) }
{}
