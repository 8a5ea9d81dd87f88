//! Whether each equation gives the next wire, and reads earlier wires alone.

ghost use Rattle.std.specs.Prelude.{◌<◌, IsTrue, ◌↔◌};
ghost use Rattle.wire_code.specs.Formulas.{IsOrdered, ReadsBelow};

use wire_code::{Equation, Formula};

fn is_below(wire: u32, limit: usize) -> bool
    ensures { IsTrue result ↔ wire < limit }
{
    (wire as usize) < limit
}

fn reads_below(formula: Formula, limit: usize) -> bool
    ensures { IsTrue result ↔ ReadsBelow limit formula }
{
    match formula {
        Formula::Const(_) | Formula::Get(_) => true,
        Formula::And(a, b) | Formula::Or(a, b) | Formula::Apply2(_, _, _, a, b) => {
            is_below(a, limit) && is_below(b, limit)
        }
        Formula::Not(a) | Formula::Apply1(_, _, a) | Formula::Cast(_, _, a) => is_below(a, limit),
        Formula::Choose(c, a, b) => {
            is_below(c, limit) && is_below(a, limit) && is_below(b, limit)
        }
    }
}

pub fn are_ordered(equations: &[Equation]) -> bool
    ensures { IsTrue result ↔ IsOrdered 0 equations.now }
{
    for (next, equation) in equations.iter().enumerate() {
        if equation.wire as usize != next || !reads_below(equation.formula, next) {
            return false;
        }
    }
    true
}
