//! The operations of statuses and of combinations.

ghost use Rattle.std.specs.Prelude.{◌≡◌, IfOk, OnOk};
ghost use Rattle.surf_graph.specs.definitions.SpelledOut.{status_wires, trap_wires};
ghost use Rattle.surf_graph.specs.definitions.SpelledOut.{weak_abort_wires, combined_wires};
ghost use Rattle.surf_graph.specs.definitions.SpelledOut.{as_int, operator_wires, extreme_wires};
ghost use Rattle.surf_graph.specs.Building.{Computes, Writes};

use crate::builder::Builder;
use java_values::{Kind, NoMemory, Op1, Op2, fits2};
use kernel_terms::Combine;
use wire_code::Formula;

// Statuses, each 1 more than its code: of an end, of a pause, of the exit to the nearest trap, and
// one above that of the exit to the furthest.
const ENDED: i64 = 1;

const PAUSED: i64 = 2;

const FIRST_EXIT: i64 = 3;

const PAST_EXITS: i64 = 67;

// The constant of this wire as an `int`.
fn to_int(wire: u32) -> Formula
    ensures { result ≡ as_int wire }
{
    Formula::Apply1(Op1::Plus, Kind::Int, wire)
}

// An operator on two statuses.
fn compared(op: Op2, a: u32, b: u32) -> Formula
    ensures { result ≡ Formula.Apply2 op Kind.Int Kind.Int a b }
{
    Formula::Apply2(op, Kind::Int, Kind::Int, a, b)
}

/// Gives a wire the status of this code where `go` is on, and else 0.
pub fn give_status(builder: &mut Builder, wire: u32, go: u32, code: u32) -> Result<(), NoMemory>
    ensures { OnOk result
        (Writes builder.old builder.new (status_wires builder.old.further go code) wire) }
{
    let n = builder.take_further(2)?;
    builder.push(n, Formula::Const(i64::from(code) + 1))?;
    builder.push(n + 1, to_int(n))?;
    builder.push(wire, Formula::Choose(go, n + 1, 0))
}

/// Gives a wire the status of a trap, by the wire of its body's status.
pub fn give_trap(builder: &mut Builder, wire: u32, a: u32) -> Result<(), NoMemory>
    ensures { OnOk result
        (Writes builder.old builder.new (trap_wires builder.old.further a) wire) }
{
    let n = builder.take_further(9)?;
    builder.push(n, Formula::Const(FIRST_EXIT))?;
    builder.push(n + 1, compared(Op2::Equal, a, n))?;
    builder.push(n + 2, compared(Op2::Less, n, a))?;
    builder.push(n + 3, Formula::Const(PAST_EXITS))?;
    builder.push(n + 4, compared(Op2::Less, a, n + 3))?;
    builder.push(n + 5, Formula::And(n + 2, n + 4))?;
    builder.push(n + 6, Formula::Const(ENDED))?;
    builder.push(n + 7, compared(Op2::Sub, a, n + 6))?;
    builder.push(n + 8, Formula::Choose(n + 5, n + 7, a))?;
    builder.push(wire, Formula::Choose(n + 1, n + 6, n + 8))
}

/// Gives a wire the status of a weak abort, by the wires of its test and of its body's status.
pub fn give_weak_abort(builder: &mut Builder, wire: u32, test: u32, a: u32) -> Result<(), NoMemory>
    ensures { OnOk result
        (Writes builder.old builder.new (weak_abort_wires builder.old.further test a) wire) }
{
    let n = builder.take_further(5)?;
    builder.push(n, Formula::Const(PAUSED))?;
    builder.push(n + 1, compared(Op2::Equal, a, n))?;
    builder.push(n + 2, Formula::And(test, n + 1))?;
    builder.push(n + 3, Formula::Const(ENDED))?;
    builder.push(n + 4, to_int(n + 3))?;
    builder.push(wire, Formula::Choose(n + 2, n + 4, a))
}

// The result of an operator on two wires of a kind, cast back to the kind.
fn add_operator(builder: &mut Builder, op: Op2, kind: Kind, a: u32, b: u32) -> Result<u32, NoMemory>
    ensures { IfOk result (λ at. Computes builder.old builder.new
        (operator_wires op kind builder.old.further a b) at) }
{
    let n = builder.take_further(2)?;
    builder.push(n, Formula::Apply2(op, kind, kind, a, b))?;
    let given = fits2(op, kind, kind).unwrap_or(kind);
    builder.push(n + 1, Formula::Cast(given, kind, n))?;
    Ok(n + 1)
}

// One wire where the first isn't the greater one, and else the other.
fn add_extreme(
    builder: &mut Builder,
    kind: Kind,
    a: u32,
    b: u32,
    chosen: u32,
    otherwise: u32,
) -> Result<u32, NoMemory>
    ensures { IfOk result (λ at. Computes builder.old builder.new
        (extreme_wires kind builder.old.further a b chosen otherwise) at) }
{
    let n = builder.take_further(2)?;
    builder.push(n, Formula::Apply2(Op2::LessEq, kind, kind, a, b))?;
    builder.push(n + 1, Formula::Choose(n, chosen, otherwise))?;
    Ok(n + 1)
}

/// Adds the operations of two values combined, both of this kind, and answers the wire of the
/// combination.
pub fn add_combined(
    builder: &mut Builder,
    combine: Combine,
    kind: Kind,
    a: u32,
    b: u32,
) -> Result<u32, NoMemory>
    ensures { IfOk result (λ at. Computes builder.old builder.new
        (combined_wires combine kind builder.old.further a b) at) }
{
    match combine {
        Combine::Add => add_operator(builder, Op2::Add, kind, a, b),
        Combine::Max => add_extreme(builder, kind, a, b, b, a),
        Combine::Min => add_extreme(builder, kind, a, b, a, b),
        Combine::And => add_operator(builder, Op2::And, kind, a, b),
        Combine::Or => add_operator(builder, Op2::Or, kind, a, b),
        Combine::Xor => add_operator(builder, Op2::Xor, kind, a, b),
    }
}
