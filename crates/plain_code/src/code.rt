ghost use Rattle.std.specs.Prelude.{◌≡◌, ◌<◌, ◌≤◌, length, IfSome, IsSome, IsTrue, ◌↔◌};
ghost use Rattle.plain_code.specs.Formulas.{IsOrdered, Satisfies, FitsFrame, ReadsBelow, ReadsFrame, is_true, of_bool, formula_value};

use crate::equation::Equation;
use crate::formula::Formula;
use std::marker::Model;

/// Equations of which the i-th gives wire i and reads earlier wires alone.
#[derive(Drop)]
pub struct Code {
    equations: Vec<Equation>,
}

impl Model for Code {
    ghost use Rattle.std.specs.Prelude.{List};
    ghost use Rattle.plain_code.specs.declared.equation.Equation.{Equation};

    ghost Value = { List Equation };

    ghost use Rattle.plain_code.specs.Formulas.{IsOrdered};

    ghost view = { λ c. c.equations.items };

    ghost invariant = { λ c. IsOrdered 0 c.equations.items };
}

fn reads_below(formula: Formula, limit: usize) -> bool
    ensures { IsTrue result ↔ ReadsBelow limit formula }
{
    match formula {
        Formula::Const(_) | Formula::Get(_) => true,
        Formula::And(a, b) | Formula::Or(a, b) => (a as usize) < limit && (b as usize) < limit,
        Formula::Not(a) => (a as usize) < limit,
    }
}

fn are_ordered(equations: &[Equation]) -> bool
    ensures { IsTrue result ↔ IsOrdered 0 equations.now }
{
    for (next, equation) in equations.iter().enumerate() {
        if equation.wire as usize != next || !reads_below(equation.formula, next) {
            return false;
        }
    }
    true
}

impl Code {
    /// None exactly where some equation reads a wire that no earlier one gives, or the i-th equation
    /// doesn't give wire i. Takes no memory.
    pub fn new(equations: Vec<Equation>) -> Option<Code>
        ensures some { IsSome result ↔ IsOrdered 0 equations.items }
        ensures value { IfSome result (λ c. c ≡ equations.items) }
    {
        if are_ordered(&equations) {
            Some(Code { equations })
        } else {
            None
        }
    }

    /// How many wires the code gives.
    pub fn len(&self) -> usize
        ensures { result ≡ length self.now }
    {
        self.equations.len()
    }

    pub fn is_empty(&self) -> bool
        ensures { IsTrue result ↔ (length self.now ≡ 0) }
    {
        self.equations.is_empty()
    }

    /// Gives every wire a value that satisfies its equation, in one pass. `Get(k)` is item k of the
    /// input. Takes no memory.
    pub fn run(&self, input: &[i64], wires: &mut [i64])
        requires frame { FitsFrame (length input.now) self.now }
        requires room { length wires.old ≡ length self.now }
        ensures { Satisfies self.now input.now wires.new }
    {
        solve(&self.equations, input, wires)
    }
}

fn truth(n: i64) -> bool
    ensures { result ≡ is_true n }
{
    n != 0
}

fn number(b: bool) -> i64
    ensures { result ≡ of_bool b }
{
    if b { 1 } else { 0 }
}

fn value(formula: Formula, input: &[i64], wires: &[i64], limit: u32) -> i64
    requires reads { ReadsBelow limit formula }
    requires room { limit ≤ length wires.now }
    requires frame { ReadsFrame (length input.now) formula }
    ensures { result ≡ formula_value formula input.now wires.now }
{
    match formula {
        Formula::Const(n) => n,
        Formula::Get(k) => input[k as usize],
        Formula::And(a, b) => number(truth(wires[a as usize]) && truth(wires[b as usize])),
        Formula::Or(a, b) => number(truth(wires[a as usize]) || truth(wires[b as usize])),
        Formula::Not(a) => number(!truth(wires[a as usize])),
    }
}

fn solve(equations: &[Equation], input: &[i64], wires: &mut [i64])
    requires order { IsOrdered 0 equations.now }
    requires frame { FitsFrame (length input.now) equations.now }
    requires room { length wires.old ≡ length equations.now }
    ensures { Satisfies equations.now input.now wires.new }
{
    for equation in equations {
        let n = value(equation.formula, input, wires, equation.wire);
        wires[equation.wire as usize] = n;
    }
}
