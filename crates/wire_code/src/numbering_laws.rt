//! What equations say whose wires are numbered anew.

ghost use Rattle.std.specs.Prelude.{◌≡◌, ℕ, ℤ, List, []};
ghost use Rattle.wire_code.specs.Formulas.{IsOrdered, Satisfies};
ghost use Rattle.wire_code.specs.Numbering.{renamed_equations, IsNumbering, ReadsGiven};
ghost use Rattle.wire_code.specs.Numbering.{GivesOnce, HasNumbering, Carries};
ghost use Rattle.wire_code.specs.declared.equation.Equation.{Equation};

/// The renamed equations are ordered where each wire's new number is the place of its equation, from 0
/// on, and each equation reads wires alone that earlier ones give.
pub fn numbered_equations_are_ordered()
    ensures { (r : ℕ → ℕ) (es : List Equation) → IsNumbering r 0 es → ReadsGiven [] es
        → IsOrdered 0 (renamed_equations r es) }
{}

/// Values of new wires that satisfy the renamed equations satisfy the equations, where each old
/// wire has the value of its new one, whatever the renaming.
pub fn renamed_equations_say_no_more()
    ensures { (r : ℕ → ℕ) (f v : ℕ → ℤ) (es : List Equation)
        → Satisfies f v (renamed_equations r es) → Satisfies f (λ k. v (r k)) es }
{}

/// Values that satisfy the equations give values of the new wires that satisfy the renamed ones, and
/// each given wire keeps its value. It asks what the order of the renamed equations asks: new numbers are
/// places, from 0 on, and each equation reads wires alone that earlier ones give.
pub fn numbered_equations_say_no_less()
    ensures { (r : ℕ → ℕ) (f w : ℕ → ℤ) (es : List Equation)
        → IsNumbering r 0 es → ReadsGiven [] es
        → Satisfies f w es → Carries r es f w }
{}

/// Where wires have the places of their equations as new numbers, from some number on, no two
/// equations give one wire (`once`). Where none do, there is such a numbering from 0 on (`numbering`).
pub fn wires_given_once_have_a_numbering()
    ensures once { (r : ℕ → ℕ) (n : ℕ) (es : List Equation) → IsNumbering r n es → GivesOnce es }
    ensures numbering { (es : List Equation) → GivesOnce es → HasNumbering es }
{}
