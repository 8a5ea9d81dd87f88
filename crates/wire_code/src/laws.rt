//! What ordered equations say together.

ghost use Rattle.std.specs.Prelude.{◌≡◌, ℕ, ◌<◌, ℤ, List, length};
ghost use Rattle.wire_code.specs.Formulas.{IsOrdered, Satisfies};
ghost use Rattle.wire_code.specs.declared.equation.Equation.{Equation};

/// Over one frame, ordered equations have one solution at most.
pub fn ordered_equations_have_one_solution()
    ensures { (f w v : ℕ → ℤ) (es : List Equation)
        → IsOrdered 0 es → Satisfies f w es → Satisfies f v es
        → (k : ℕ) → k < length es → w k ≡ v k }
{}
