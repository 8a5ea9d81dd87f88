//! The solution of ordered equations in one pass.

ghost use Rattle.std.specs.Prelude.{◌≡◌, cond, length};
ghost use Rattle.java_values.specs.Arithmetic.{is_true, of_bool};
ghost use Rattle.wire_code.specs.Formulas.{formula_value, number_at, Satisfies, IsOrdered, ReadsBelow};
ghost use Rattle.tick_code.specs.WellKinded.{Suits};
ghost use Rattle.tick_code.specs.Operands.{HasOperands};

use crate::operation::{casted, on_one, on_two};
use wire_code::{Equation, Formula};

fn truth(n: i64) -> bool
    ensures { result ≡ is_true n }
{
    n != 0
}

fn number(b: bool) -> i64
    ensures { result ≡ of_bool b }
{
    if b { 1 } else { 0 }
}

fn chosen(condition: i64, yes: i64, other: i64) -> i64
    ensures { result ≡ cond (is_true condition) yes other }
{
    if truth(condition) { yes } else { other }
}

fn value(formula: Formula, input: &[i64], wires: &[i64]) -> i64
    requires reads { ReadsBelow (length wires.now) formula }
    requires operands { HasOperands (length input.now) (number_at wires.now) formula }
    ensures { result ≡ formula_value (number_at input.now) (number_at wires.now) formula }
{
    match formula {
        Formula::Const(n) => n,
        Formula::Get(k) => input[k as usize],
        Formula::And(a, b) => number(truth(wires[a as usize]) && truth(wires[b as usize])),
        Formula::Or(a, b) => number(truth(wires[a as usize]) || truth(wires[b as usize])),
        Formula::Not(a) => number(!truth(wires[a as usize])),
        Formula::Apply1(op, kind, a) => on_one(op, kind, wires[a as usize]),
        Formula::Apply2(op, left, right, a, b) => {
            on_two(op, left, right, wires[a as usize], wires[b as usize])
        }
        Formula::Cast(from, to, a) => casted(from, to, wires[a as usize]),
        Formula::Choose(c, a, b) => {
            chosen(wires[c as usize], wires[a as usize], wires[b as usize])
        }
    }
}

pub fn solve(equations: &[Equation], input: &[i64], wires: &mut [i64])
    requires order { IsOrdered 0 equations.now }
    requires suits { Suits equations.now input.now }
    requires room { length wires.old ≡ length equations.now }
    ensures { Satisfies (number_at input.now) (number_at wires.new) equations.now }
{
    for equation in equations {
        let n = value(equation.formula, input, wires);
        wires[equation.wire as usize] = n;
    }
}
