//! Laws of a domain's resuming tick.

ghost use Rattle.std.specs.Prelude.{◌≡◌, ℕ, suc, ℤ, true, List, []};
ghost use Rattle.kernel_terms.specs.declared.tables.Tables.{Tables};
ghost use Rattle.kernel_terms.specs.MayEnd.{LoopsWait};
ghost use Rattle.kernel_terms.specs.Statements.{Stmt};
ghost use Rattle.kernel_terms.specs.WellFormed.{fits_statement};
ghost use Rattle.kernel_rules.specs.definitions.LegalTick.{Inputs};
ghost use Rattle.tick_code.specs.Counters.{AreNumbered};
ghost use Rattle.tick_code.specs.declared.layout.Layout.{Layout};
ghost use Rattle.kernel_rules.specs.definitions.Registers.{residual, FitRegisters};
ghost use Rattle.surf_graph.specs.definitions.DomainCopies.{domain_context, domain_of_copy};
ghost use Rattle.surf_graph.specs.definitions.DomainTells.{DomainTells, HandsIn, HasLayout, LayoutTells};
ghost use Rattle.surf_graph.specs.definitions.Formulas.{Satisfies};
ghost use Rattle.surf_graph.specs.definitions.Sources.{IsSource};
ghost use Rattle.surf_graph.specs.definitions.Spells.{Spells};
ghost use Rattle.depth_graph.specs.definitions.ResumingCopies.{resume};
ghost use Rattle.wire_code.specs.Formulas.{Satisfies as Meets};
ghost use Rattle.wire_code.specs.declared.equation.Equation.{Equation as Operation};

/// For any values of wires that satisfy a domain's equations by the resuming copy of its statement (`equations`),
/// or operations among which these are spelled (`operations`): they tell a tick of what the registers stand for.
/// The statement is one of a source, its loops wait, and it fits the tables as a domain's, in no trap and no
/// local signal's block. Its registers fit it. The frame has what is handed in, which for a pure input is 0.
pub fn resuming_domains_tell_ticks()
    ensures equations { (tables : Tables) (inputs : Inputs) (d ticks : ℕ) (p : Stmt) (f w : ℕ → ℤ)
        → IsSource tables p → LoopsWait p
        → fits_statement tables (record { domain = d; traps = 0; locals = [] }) p ≡ true
        → FitRegisters tables p 0 f → HandsIn tables d p (λ s. inputs s (suc ticks)) f
        → Satisfies f w
        (domain_of_copy tables d p (resume tables p (domain_context tables d))).equations
        → DomainTells tables inputs d ticks p (residual tables p 0 f) f w
        (domain_of_copy tables d p (resume tables p (domain_context tables d))) }
    ensures operations { (tables : Tables) (inputs : Inputs) (d ticks : ℕ) (p : Stmt) (f w : ℕ → ℤ)
        (ops : List Operation) → IsSource tables p → LoopsWait p
        → fits_statement tables (record { domain = d; traps = 0; locals = [] }) p ≡ true
        → FitRegisters tables p 0 f → HandsIn tables d p (λ s. inputs s (suc ticks)) f
        → Meets f w ops
        → Spells (domain_of_copy tables d p (resume tables p (domain_context tables d))).equations
        ops
        → DomainTells tables inputs d ticks p (residual tables p 0 f) f w
        (domain_of_copy tables d p (resume tables p (domain_context tables d))) }
{}

/// The wires that a layout names tell a tick of what a domain's registers stand for, in each solution of a code whose
/// operations spell the domain's equations.
pub fn resuming_codes_tell_ticks()
    ensures { (tables : Tables) (inputs : Inputs) (d ticks : ℕ) (p : Stmt) (f w : ℕ → ℤ) (r : ℕ → ℕ)
        (ops code : List Operation) (l : Layout) → IsSource tables p → LoopsWait p
        → fits_statement tables (record { domain = d; traps = 0; locals = [] }) p ≡ true
        → FitRegisters tables p 0 f → HandsIn tables d p (λ s. inputs s (suc ticks)) f
        → Spells (domain_of_copy tables d p (resume tables p (domain_context tables d))).equations
        ops
        → AreNumbered r ops code
        → HasLayout tables d r
        (domain_of_copy tables d p (resume tables p (domain_context tables d))) l
        → Meets f w code → LayoutTells tables inputs d ticks p (residual tables p 0 f) f w l }
{}
