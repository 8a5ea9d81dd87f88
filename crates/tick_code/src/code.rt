ghost use Rattle.std.specs.Prelude.{◌≡◌, length, IfSome, IsSome, IsTrue, ◌↔◌};
ghost use Rattle.wire_code.specs.Formulas.{IsOrdered, Satisfies, number_at};
ghost use Rattle.tick_code.specs.WellKinded.{Suits};

use crate::order::are_ordered;
use crate::solve::solve;
use std::marker::Model;
use wire_code::Equation;

/// Equations of which the i-th gives wire i and reads earlier wires alone.
#[derive(Drop)]
pub struct Code {
    equations: Vec<Equation>,
}

impl Model for Code {
    ghost use Rattle.std.specs.Prelude.{List};
    ghost use Rattle.wire_code.specs.declared.equation.Equation.{Equation};

    ghost Value = { List Equation };

    ghost use Rattle.wire_code.specs.Formulas.{IsOrdered};

    ghost view = { λ c. c.equations.items };

    ghost invariant = { λ c. IsOrdered 0 c.equations.items };
}

impl Code {
    /// None exactly where some equation reads a wire that no earlier one gives, or the i-th equation
    /// doesn't give wire i. Takes no memory.
    pub fn new(equations: Vec<Equation>) -> Option<Code>
        ensures some { IsSome result ↔ IsOrdered 0 equations.items }
        ensures value { IfSome result (λ c. c ≡ equations.items) }
    {
        if are_ordered(&equations) {
            Some(Code::of_ordered(equations))
        } else {
            None
        }
    }

    /// The code of ordered equations.
    pub(crate) fn of_ordered(equations: Vec<Equation>) -> Code
        requires { IsOrdered 0 equations.items }
        ensures { result ≡ equations.items }
    {
        Code { equations }
    }

    /// How many wires the code gives.
    pub fn len(&self) -> usize
        ensures { result ≡ length self.now }
    {
        self.equations.len()
    }

    pub fn is_empty(&self) -> bool
        ensures { IsTrue result ↔ (length self.now ≡ 0) }
    {
        self.equations.is_empty()
    }

    /// Gives every wire a value that satisfies its equation, in one pass. `Get(k)` is item k of the input, whose
    /// numbers lie in kinds for which the code is well-kinded. Takes no memory.
    pub fn run(&self, input: &[i64], wires: &mut [i64])
        requires suits { Suits self.now input.now }
        requires room { length wires.old ≡ length self.now }
        ensures { Satisfies (number_at input.now) (number_at wires.new) self.now }
    {
        solve(&self.equations, input, wires)
    }
}
