//! Laws of equations that are spelled out into single operations.

ghost use Rattle.std.specs.Prelude.{◌≡◌, ◌<◌, ◌++◌, ◌∷◌, ℕ, ℤ, pos, List, []};
ghost use Rattle.std.specs.List.Sorted.{IsPermutation};
ghost use Rattle.kernel_terms.specs.Expressions.{Expression, Test};
ghost use Rattle.kernel_rules.specs.definitions.Expressions.{GivesValue, holds};
ghost use Rattle.surf_graph.specs.definitions.Formulas.{Wires, Equation, Satisfies, Within};
ghost use Rattle.surf_graph.specs.definitions.Formulas.{is_on, told_env, readings};
ghost use Rattle.surf_graph.specs.definitions.Operations.{Solved};
ghost use Rattle.surf_graph.specs.definitions.SpelledOut.{value_wires, test_wires, spelled};
ghost use Rattle.surf_graph.specs.definitions.SpelledOut.{spelled_out};
ghost use Rattle.surf_graph.specs.definitions.Spells.{IsSpelled, Spells};
ghost use Rattle.wire_code.specs.declared.equation.Equation.{Equation as WireEquation};
ghost use Rattle.surf_graph.specs.Building.{Writes};
ghost use Rattle.surf_graph.specs.declared.builder.Builder.{Builder};
ghost use Rattle.wire_code.specs.Formulas.{Satisfies as Meets};

/// For any values of wires that satisfy the equations of an expression, its wire has the value of the
/// expression. The wire of a test is on where the test holds.
pub fn expressions_on_wires_have_their_values()
    ensures value { (f w : ℕ → ℤ) (v : Wires) (n : ℕ) (e : Expression)
        → Meets f w (value_wires v n e).equations
        → GivesValue (readings w v) e (w (value_wires v n e).wire) }
    ensures test { (f w : ℕ → ℤ) (v : Wires) (n : ℕ) (t : Test)
        → Meets f w (test_wires v n t).equations
        → is_on w (test_wires v n t).wire ≡ holds (told_env w v) t }
{}

/// With 0 for wire 0, values that satisfy equations spelled out satisfy the equations; and values that
/// satisfy equations whose wires are all below n have further ones from n on that satisfy them spelled out.
pub fn spelled_equations_say_the_same()
    ensures no_more { (f w : ℕ → ℤ) (n : ℕ) (es : List Equation) → w 0 ≡ pos 0
        → Meets f w (spelled_out n es) → Satisfies f w es }
    ensures no_less { (f w : ℕ → ℤ) (n : ℕ) (es : List Equation) → w 0 ≡ pos 0 → 0 < n
        → Within n es → Satisfies f w es → Solved f w n (spelled_out n es) }
{}

/// With 0 for wire 0, values that satisfy operations satisfy the equations that are spelled among
/// them.
pub fn spelled_equations_hold()
    ensures { (f w : ℕ → ℤ) (ops : List WireEquation) (macros : List Equation) → w 0 ≡ pos 0
        → Meets f w ops → Spells macros ops → Satisfies f w macros }
{}

/// Equations are spelled among operations where each is; those that are spelled out are.
pub fn equations_are_spelled_one_by_one()
    ensures none { (ops : List WireEquation) → Spells [] ops }
    ensures one_more { (ops : List WireEquation) (e : Equation) (es : List Equation)
        → IsSpelled ops e → Spells es ops → Spells (e ∷ es) ops }
    ensures both { (ops : List WireEquation) (es ds : List Equation)
        → Spells es ops → Spells ds ops → Spells (es ++ ds) ops }
    ensures spelled_out { (n : ℕ) (es : List Equation) → Spells es (spelled_out n es) }
{}

/// Equations that are spelled among operations stay so where more operations are, and in whatever
/// order.
pub fn equations_stay_spelled()
    ensures in_front { (es : List Equation) (ops more : List WireEquation)
        → Spells es ops → Spells es (ops ++ more) }
    ensures behind { (es : List Equation) (ops more : List WireEquation)
        → Spells es ops → Spells es (more ++ ops) }
    ensures any_order { (es : List Equation) (ops others : List WireEquation)
        → IsPermutation ops others → Spells es ops → Spells es others }
{}

/// An equation whose formula is written to a builder is spelled among its operations, beside those
/// that were.
pub fn written_equations_are_spelled()
    ensures { (old new : Builder) (n : ℕ) (e : Equation) (es : List Equation)
        → Writes old new (spelled n e.formula) e.wire → Spells es old.equations.items
        → Spells (e ∷ es) new.equations.items }
{}
