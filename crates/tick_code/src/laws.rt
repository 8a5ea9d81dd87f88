//! What well-kinded equations say of their solutions.

ghost use Rattle.std.specs.Prelude.{ℕ, ◌<◌, ℤ, List, [], length};
ghost use Rattle.java_values.specs.declared.kind.Kind.{Kind};
ghost use Rattle.wire_code.specs.declared.equation.Equation.{Equation};
ghost use Rattle.wire_code.specs.Formulas.{IsOrdered, Satisfies, number_at};
ghost use Rattle.wire_code.specs.Numbering.{IsNumbering, ReadsGiven};
ghost use Rattle.tick_code.specs.WellKinded.{WellKinded, KeepsClasses, LieIn, InClass};

/// Where the frame's numbers lie in their kinds, each wire of any solution lies in its class.
pub fn solutions_lie_in_their_classes()
    ensures { (kinds : List Kind) (frame : List ℤ) (es : List Equation) (w : ℕ → ℤ)
        → LieIn kinds frame → IsOrdered 0 es → (well : WellKinded kinds es)
        → Satisfies (number_at frame) w es
        → (k : ℕ) → k < length es → InClass (well.classes k) (w k) }
{}

/// Well-kinded equations that read given wires alone stay well-kinded where each wire is renamed
/// to the place of its equation, and each wire keeps its class.
pub fn numbered_equations_are_well_kinded()
    ensures { (kinds : List Kind) (r : ℕ → ℕ) (es : List Equation)
        → IsNumbering r 0 es → ReadsGiven [] es
        → (well : WellKinded kinds es) → KeepsClasses kinds r es well.classes }
{}
