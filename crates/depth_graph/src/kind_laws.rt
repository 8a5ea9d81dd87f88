//! Kinds of the wires of resuming copies.

ghost use Rattle.std.specs.Prelude.{◌≡◌, ℕ, ◌+◌, ◌<◌, ◌≤◌, true, List, [], length};
ghost use Rattle.std.specs.List.Sorted.{IsPermutation};
ghost use Rattle.java_values.specs.declared.kind.Kind.{Kind};
ghost use Rattle.kernel_terms.specs.Divisors.{divisors_are_allowed};
ghost use Rattle.kernel_terms.specs.declared.tables.Tables.{Tables};
ghost use Rattle.kernel_terms.specs.Statements.{Stmt};
ghost use Rattle.kernel_terms.specs.WellFormed.{Scope, fits_statement, is_receiver_of};
ghost use Rattle.kernel_rules.specs.definitions.Registers.{registers, statement_registers};
ghost use Rattle.tick_code.specs.WellKinded.{Class};
ghost use Rattle.surf_graph.specs.definitions.Copies.{Context};
ghost use Rattle.surf_graph.specs.definitions.KindedCopies.{EachCombines, HasRegisters};
ghost use Rattle.surf_graph.specs.definitions.KindedCopies.{ContextFits, IsKindedCopy};
ghost use Rattle.surf_graph.specs.definitions.DomainCopies.{domain_context, domain_of_copy};
ghost use Rattle.surf_graph.specs.definitions.KindedDomains.{wires_end, IsKindedDomain, IsWellKindedDomain};
ghost use Rattle.surf_graph.specs.definitions.Formulas.{Equation};
ghost use Rattle.surf_graph.specs.definitions.SpelledOut.{spelled_out};
ghost use Rattle.surf_graph.specs.definitions.Shows.{Outside};
ghost use Rattle.depth_graph.specs.definitions.ResumingCopies.{resume};

/// A resuming copy has kinds where its statement fits, each divisor in it is allowed, each
/// signal's combination fits its kind, the wires that the copy is given are its context's, below its own, and of
/// their kinds, and the frame has the statement's registers and, where the domain receives, one place more.
pub fn resuming_copies_are_well_kinded()
    ensures { (tables : Tables) (frame : List Kind) (scope : Scope) (p : Stmt) (c : ℕ → Class)
        (x : Context) → EachCombines tables → fits_statement tables scope p ≡ true
        → divisors_are_allowed p ≡ true → Outside x → ContextFits tables scope c x
        → HasRegisters frame x.register (statement_registers tables p)
        → ((ch : ℕ) → is_receiver_of tables scope.domain ch ≡ true
        → x.register + registers tables p < length frame)
        → IsKindedCopy tables frame scope.domain p x.register x.next c (resume tables p x) }
{}

/// A domain's equations by the resuming copy of its statement have kinds, over a frame of its registers and
/// inputs, where the statement fits, each divisor in it is allowed, and each signal's combination
/// fits its kind (`equations`). Where they are spelled out, in whatever order, with further wires behind the
/// domain's own, the operations are well-kinded by the rules of `tick_code` (`operations`).
pub fn resuming_domains_are_well_kinded()
    ensures equations { (tables : Tables) (d : ℕ) (p : Stmt) → EachCombines tables
        → fits_statement tables (record { domain = d; traps = 0; locals = [] }) p ≡ true
        → divisors_are_allowed p ≡ true
        → IsKindedDomain tables d p
        (domain_of_copy tables d p (resume tables p (domain_context tables d))) }
    ensures operations { (tables : Tables) (d : ℕ) (p : Stmt) (n : ℕ) (es : List Equation)
        → EachCombines tables
        → fits_statement tables (record { domain = d; traps = 0; locals = [] }) p ≡ true
        → divisors_are_allowed p ≡ true
        → wires_end tables d p (resume tables p (domain_context tables d)) ≤ n
        → IsPermutation
        (domain_of_copy tables d p (resume tables p (domain_context tables d))).equations es
        → IsWellKindedDomain tables d p (spelled_out n es)
        (domain_of_copy tables d p (resume tables p (domain_context tables d))) }
{}
