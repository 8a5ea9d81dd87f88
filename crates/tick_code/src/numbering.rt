//! Codes of equations whose wires are scattered.

ghost use Rattle.std.specs.Prelude.{◌≡◌, ◌↔◌, ℕ, ◌<◌, ◌^◌, All, Option, None, IfOk, IfNone, IfSome, IsSome, MatchBool, Err};
ghost use Rattle.wire_code.specs.Formulas.{EachRead};
ghost use Rattle.wire_code.specs.Numbering.{Numbered, renamed};
ghost use Rattle.tick_code.specs.Counters.{IsCounted, AreNumbered};
ghost use Rattle.tick_code.specs.Numbers.{number_of, renaming_of, HasPlace, HavePlaces, IsNext, Renames};

use crate::code::Code;
use crate::numbers::Numbers;
use crate::wire_counts::WireCounts;
use java_values::NoMemory;
use std::alloc::Global;
use thiserror::Error;
use wire_code::{Equation, Formula};

/// Why equations aren't numbered.
#[derive(Clone, Copy, Debug, PartialEq, Eq, Error)]
pub enum NumberingError {
    /// An allocation was refused.
    #[error("no memory")]
    NoMemory,
    /// Some equation reads a wire that no earlier one gives, or two equations give one wire.
    #[error("a wire is read before it is given, or given twice")]
    Unordered,
}

impl From<NoMemory> for NumberingError {
    ghost use Rattle.tick_code.specs.declared.numbering.NumberingError.TheVariants as error;

    ghost from_gives = { λ _ e. e ≡ error.NoMemory };

    fn from(_error: NoMemory) -> NumberingError {
        NumberingError::NoMemory
    }
}

fn renamed(formula: Formula, numbers: &Numbers) -> Option<Formula>
    ensures some { IsSome result ↔ EachRead (λ k. IsSome (number_of numbers.now k)) formula }
    ensures value { IfSome result (λ g. g ≡ renamed (renaming_of (number_of numbers.now)) formula) }
{
    Some(match formula {
        Formula::Const(_) | Formula::Get(_) => formula,
        Formula::And(a, b) => Formula::And(numbers.get(a)?, numbers.get(b)?),
        Formula::Or(a, b) => Formula::Or(numbers.get(a)?, numbers.get(b)?),
        Formula::Not(a) => Formula::Not(numbers.get(a)?),
        Formula::Apply1(op, kind, a) => Formula::Apply1(op, kind, numbers.get(a)?),
        Formula::Apply2(op, left, right, a, b) => {
            Formula::Apply2(op, left, right, numbers.get(a)?, numbers.get(b)?)
        }
        Formula::Cast(from, to, a) => Formula::Cast(from, to, numbers.get(a)?),
        Formula::Choose(c, a, b) => {
            Formula::Choose(numbers.get(c)?, numbers.get(a)?, numbers.get(b)?)
        }
    })
}

// The equation with new numbers, of which its wire's is the next one. None if it reads a wire that
// has no number, or its wire has one already.
fn number_next(equation: Equation, next: usize, numbers: &mut Numbers) -> Option<Equation>
    requires place { HasPlace numbers.old equation.wire }
    requires few { equation.wire < 2 ^ 32 → number_of numbers.old equation.wire ≡ None
        → next < 2 ^ 32 }
    ensures none { IfNone result (IsNext (number_of numbers.old) equation → ⊥) }
    ensures some { IfSome result (λ e.
        Renames (number_of numbers.old) (number_of numbers.new) next equation e) }
    ensures places { HavePlaces numbers.old numbers.new }
{
    let formula = renamed(equation.formula, numbers)?;
    if numbers.get(equation.wire).is_some() {
        return None;
    }
    let wire = next as u32;
    numbers.set(equation.wire, wire);
    Some(Equation { wire, formula })
}

// Whether the equations have new numbers now. Else they read a wire that no earlier one gives, or
// give one twice.
fn number_all(equations: &mut Vec<Equation>, numbers: &mut Numbers) -> bool
    requires empty { (k : ℕ) → number_of numbers.old k ≡ None }
    requires places { All (λ e. HasPlace numbers.old e.wire) equations.old.items }
    ensures { MatchBool result (AreNumbered (renaming_of (number_of numbers.new))
        equations.old.items equations.new.items) (Numbered equations.old.items → ⊥) }
{
    for next in 0..equations.len() {
        let equation = equations[next];
        match number_next(equation, next, numbers) {
            Some(renamed) => equations[next] = renamed,
            None => return false,
        }
    }
    true
}

/// A code, and the new numbers of the wires of its equations.
#[derive(Drop)]
pub struct NumberedCode {
    pub code: Code,
    pub numbers: Numbers,
}

/// The code of equations whose wires two counters gave: each wire is renamed to the place of its
/// equation. Takes memory for two tables alone, with a place for each wire that the counters gave.
pub fn number_wires(
    alloc: Global,
    mut equations: Vec<Equation>,
    counts: WireCounts,
) -> Result<NumberedCode, NumberingError>
    requires { All (λ e. IsCounted counts.low counts.high e.wire) equations.items }
    ensures code { IfOk result (λ n.
        AreNumbered (renaming_of (number_of n.numbers)) equations.items n.code) }
    ensures unordered { result ≡ Err NumberingError.Unordered → Numbered equations.items → ⊥ }
{
    let mut numbers = Numbers::new(alloc, counts)?;
    if number_all(&mut equations, &mut numbers) {
        let code = Code::of_ordered(equations);
        Ok(NumberedCode { code, numbers })
    } else {
        Err(NumberingError::Unordered)
    }
}
