//! Laws of a domain's starting tick.

ghost use Rattle.std.specs.Prelude.{◌≡◌, ℕ, suc, ℤ, true, List, []};
ghost use Rattle.kernel_terms.specs.declared.tables.Tables.{Tables};
ghost use Rattle.kernel_terms.specs.MayEnd.{LoopsWait};
ghost use Rattle.kernel_terms.specs.Statements.{Stmt};
ghost use Rattle.kernel_terms.specs.WellFormed.{fits_statement};
ghost use Rattle.kernel_rules.specs.definitions.LegalTick.{Inputs};
ghost use Rattle.tick_code.specs.Counters.{AreNumbered};
ghost use Rattle.tick_code.specs.declared.layout.Layout.{Layout};
ghost use Rattle.surf_graph.specs.definitions.DomainCopies.{domain_context, domain_of_copy};
ghost use Rattle.surf_graph.specs.definitions.EndWires.{TellWaits, TellSends, channels_of, sending_ends};
ghost use Rattle.surf_graph.specs.definitions.EndWires.{ends_of_copy};
ghost use Rattle.tick_code.specs.declared.end_place.EndPlace.{EndPlace};
ghost use Rattle.surf_graph.specs.definitions.DomainTells.{DomainTells, HandsIn, HasLayout, LayoutTells};
ghost use Rattle.surf_graph.specs.definitions.Formulas.{Satisfies};
ghost use Rattle.surf_graph.specs.definitions.Sources.{IsSource};
ghost use Rattle.surf_graph.specs.definitions.Spells.{Spells};
ghost use Rattle.surf_graph.specs.definitions.StartingCopies.{start};
ghost use Rattle.wire_code.specs.Formulas.{Satisfies as Meets};
ghost use Rattle.wire_code.specs.declared.equation.Equation.{Equation as Operation};

/// For any values of wires that satisfy a domain's equations by the starting copy of its statement (`equations`),
/// or operations among which these are spelled (`operations`): they tell a tick of the statement from its start.
/// The statement is one of a source, its loops wait, and it fits the tables as a domain's, in no trap and no
/// local signal's block. The frame has what is handed in, which for a pure input is 0.
pub fn starting_domains_tell_ticks()
    ensures equations { (tables : Tables) (inputs : Inputs) (d ticks : ℕ) (p : Stmt) (f w : ℕ → ℤ)
        → IsSource tables p → LoopsWait p
        → fits_statement tables (record { domain = d; traps = 0; locals = [] }) p ≡ true
        → HandsIn tables d p (λ s. inputs s (suc ticks)) f
        → Satisfies f w
        (domain_of_copy tables d p (start tables p (domain_context tables d))).equations
        → DomainTells tables inputs d ticks p p f w
        (domain_of_copy tables d p (start tables p (domain_context tables d))) }
    ensures operations { (tables : Tables) (inputs : Inputs) (d ticks : ℕ) (p : Stmt) (f w : ℕ → ℤ)
        (ops : List Operation) → IsSource tables p → LoopsWait p
        → fits_statement tables (record { domain = d; traps = 0; locals = [] }) p ≡ true
        → HandsIn tables d p (λ s. inputs s (suc ticks)) f → Meets f w ops
        → Spells (domain_of_copy tables d p (start tables p (domain_context tables d))).equations
        ops
        → DomainTells tables inputs d ticks p p f w
        (domain_of_copy tables d p (start tables p (domain_context tables d))) }
{}

/// The wires that a layout names tell a domain's first tick, in each solution of a code whose operations spell the
/// domain's equations.
pub fn starting_codes_tell_ticks()
    ensures { (tables : Tables) (inputs : Inputs) (d ticks : ℕ) (p : Stmt) (f w : ℕ → ℤ) (r : ℕ → ℕ)
        (ops code : List Operation) (l : Layout) → IsSource tables p → LoopsWait p
        → fits_statement tables (record { domain = d; traps = 0; locals = [] }) p ≡ true
        → HandsIn tables d p (λ s. inputs s (suc ticks)) f
        → Spells (domain_of_copy tables d p (start tables p (domain_context tables d))).equations
        ops
        → AreNumbered r ops code
        → HasLayout tables d r
        (domain_of_copy tables d p (start tables p (domain_context tables d))) l
        → Meets f w code → LayoutTells tables inputs d ticks p p f w l }
{}

/// In each solution of the equations of a domain's ends their wires tell which ends wait, by the values of the next
/// registers, and what each sending end that waits sends.
pub fn end_wires_tell_offers()
    ensures waits { (tables : Tables) (d : ℕ) (places : List EndPlace) (next : ℕ → ℕ) (n : ℕ)
        (f w : ℕ → ℤ) → Satisfies f w (ends_of_copy tables d places next n).equations
        → TellWaits w (λ j. w (next j)) places (channels_of tables d) 0
        (ends_of_copy tables d places next n).waits }
    ensures sends { (tables : Tables) (d : ℕ) (places : List EndPlace) (next : ℕ → ℕ) (n : ℕ)
        (f w : ℕ → ℤ) → Satisfies f w (ends_of_copy tables d places next n).equations
        → TellSends w (λ j. w (next j)) places (sending_ends tables d (channels_of tables d) 0)
        (ends_of_copy tables d places next n).sends }
{}
