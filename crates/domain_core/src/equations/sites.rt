// The sends and receives of a statement, with their registers.

ghost use Rattle.std.specs.Prelude.{◌≡◌, ◌+◌, ◌^◌, ◌<◌, length, map, IfOk};
ghost use Rattle.kernel_terms.specs.Expressions.{expression};
ghost use Rattle.domain_core.specs.equations.BuiltForms.{plain, number_of};
ghost use Rattle.domain_core.specs.equations.BuiltRegisters.{registers};
ghost use Rattle.domain_core.specs.equations.CircuitLists.{registers_of};
ghost use Rattle.domain_core.specs.definitions.step.EndRegisters.{end_number};
ghost use Rattle.domain_core.specs.equations.Places.{Finds, FindsAll};

use crate::equations::built_forms::{count, sequence_parts_are_built};
use crate::step::ends_of::EndOf;
use java_values::NoMemory;
use kernel_terms::{Expr, ExprForm, Form, Term};
use plain_code::EndPlace;

/// The sends and receives of a statement, and the value registers of its sends with their literals.
#[derive(Drop)]
pub struct Found {
    pub places: Vec<EndPlace>,
    pub literals: Vec<(u32, i64)>,
}

fn literal(value: &Expr) -> i64
    ensures { result ≡ number_of (expression value.now) }
{
    match value.form {
        ExprForm::Literal(n) => n,
        _ => 0,
    }
}

// The number of a channel's end, and how many ends there are where it has none.
fn end_number(ends: &[EndOf], channel: u32) -> u32
    requires { length ends.now < 2 ^ 32 }
    ensures { result ≡ end_number ends.now channel }
{
    let mut number = 0;
    for end in ends {
        if end.channel == channel {
            return number;
        }
        number += 1;
    }
    number
}

// The place of a send or a receive, whose first register has this number.
fn place(ends: &[EndOf], channel: u32, register: u32) -> EndPlace
    requires ends { length ends.now < 2 ^ 32 }
    requires room { register + 1 < 2 ^ 32 }
    ensures { result ≡
        record { which = end_number ends.now channel; on = register; met = register + 1 } }
{
    EndPlace {
        which: end_number(ends, channel),
        on: register,
        met: register + 1,
    }
}

/// Adds those of a statement whose first register has this number, in a domain with these ends.
#[cycle(find)]
#[tactic(auto, using(crate::proofs::lemmas::equations::PlaceLists::places_of_sequences))]
pub fn find(found: &mut Found, ends: &[EndOf], term: &Term, register: u32) -> Result<(), NoMemory>
    requires ends { length ends.now < 2 ^ 32 }
    requires room { register + registers (plain term.now) < 2 ^ 32 }
    ensures { IfOk result (λ _. Finds found.old found.new ends.now (plain term.now) register) }
{
    match &term.form {
        Form::Send { channel, value } => {
            found.places.push(place(ends, *channel, register))?;
            found.literals.push((register + 2, literal(value)))?;
            Ok(())
        }
        Form::Receive { channel } => {
            found.places.push(place(ends, *channel, register))?;
            Ok(())
        }
        Form::Seq(list) => {
            let list = list.as_slice();
            sequence_parts_are_built(term, list);
            find_all(found, ends, list, register)
        }
        Form::Loop(body) => find(found, ends, body.get(), register),
        _ => Ok(()),
    }
}

#[cycle(find)]
#[tactic(auto, using(crate::proofs::lemmas::equations::PlaceLists::finding_steps))]
fn find_all(found: &mut Found, ends: &[EndOf], list: &[Term], register: u32) -> Result<(), NoMemory>
    requires ends { length ends.now < 2 ^ 32 }
    requires room { register + registers_of (map plain list.now) < 2 ^ 32 }
    ensures { IfOk result
        (λ _. FindsAll found.old found.new ends.now (map plain list.now) register) }
{
    let mut next = register;
    for term in list {
        find(found, ends, term, next)?;
        next += count(term) as u32;
    }
    Ok(())
}
