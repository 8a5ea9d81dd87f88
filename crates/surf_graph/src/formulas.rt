//! The operations of formulas of a copy, each for a wire that is given.

ghost use Rattle.std.specs.Prelude.{OnOk, pos};
ghost use Rattle.kernel_terms.specs.Expressions as terms;
ghost use Rattle.kernel_terms.specs.Statements as statements;
ghost use Rattle.surf_graph.specs.definitions.Copies.{emitted_value};
ghost use Rattle.surf_graph.specs.definitions.Formulas as formula;
ghost use Rattle.surf_graph.specs.definitions.SpelledOut.{spelled};
ghost use Rattle.surf_graph.specs.Building.{Writes, wires_in};

use crate::builder::Builder;
use crate::expression::value;
use crate::statuses::give_status;
use crate::wire_tables::WireTables;
use java_values::{Kind, NoMemory, Op2};
use kernel_terms::Expr;
use wire_code::Formula;

/// Gives a wire the status of this code where `go` is on, and else 0.
pub fn give_code(builder: &mut Builder, wire: u32, go: u32, code: u32) -> Result<(), NoMemory>
    ensures { OnOk result (Writes builder.old builder.new
        (spelled builder.old.further (formula.Status go code)) wire) }
{
    give_status(builder, wire, go, code)
}

/// Gives a wire a constant.
pub fn give_constant(builder: &mut Builder, wire: u32, value: i64) -> Result<(), NoMemory>
    ensures { OnOk result (Writes builder.old builder.new
        (spelled builder.old.further (formula.Const value)) wire) }
{
    builder.push(wire, Formula::Const(value))
}

/// Gives a wire whether both of these are on.
pub fn give_and(builder: &mut Builder, wire: u32, a: u32, b: u32) -> Result<(), NoMemory>
    ensures { OnOk result (Writes builder.old builder.new
        (spelled builder.old.further (formula.And a b)) wire) }
{
    builder.push(wire, Formula::And(a, b))
}

/// Gives a wire the value of one wire where the condition is on, and else that of the other.
pub fn give_choice(
    builder: &mut Builder,
    wire: u32,
    condition: u32,
    a: u32,
    b: u32,
) -> Result<(), NoMemory>
    ensures { OnOk result (Writes builder.old builder.new
        (spelled builder.old.further (formula.Choose condition a b)) wire) }
{
    builder.push(wire, Formula::Choose(condition, a, b))
}

/// Gives a wire the value of an expression.
pub fn give_value(
    builder: &mut Builder,
    wire: u32,
    tables: &WireTables,
    e: &Expr,
) -> Result<(), NoMemory>
    ensures { OnOk result (Writes builder.old builder.new
        (spelled builder.old.further (formula.Value (terms.expression e.now) (wires_in tables.now)))
        wire) }
{
    let at = value(builder, tables, e)?;
    builder.push(wire, Formula::Choose(0, at, at))
}

/// Gives a wire the value of an emission, 0 of one without an expression.
pub fn give_emitted(
    builder: &mut Builder,
    wire: u32,
    tables: &WireTables,
    value: &Option<Expr>,
) -> Result<(), NoMemory>
    ensures { OnOk result (Writes builder.old builder.new
        (spelled builder.old.further (emitted_value (statements.optional_expression value.now)
        (wires_in tables.now))) wire) }
{
    match value {
        Some(e) => give_value(builder, wire, tables, e),
        None => give_constant(builder, wire, 0),
    }
}

/// Gives a wire whether a status is that of this code.
pub fn give_is_status(builder: &mut Builder, wire: u32, a: u32, code: u32) -> Result<(), NoMemory>
    ensures { OnOk result (Writes builder.old builder.new
        (spelled builder.old.further (formula.IsStatus a code)) wire) }
{
    let n = builder.add(Formula::Const(i64::from(code) + 1))?;
    builder.push(
        wire,
        Formula::Apply2(Op2::Equal, Kind::Int, Kind::Int, a, n),
    )
}

/// Gives a wire the greater of two statuses.
pub fn give_greater(builder: &mut Builder, wire: u32, a: u32, b: u32) -> Result<(), NoMemory>
    ensures { OnOk result (Writes builder.old builder.new
        (spelled builder.old.further (formula.Greater a b)) wire) }
{
    let n = builder.add(Formula::Apply2(Op2::Less, Kind::Int, Kind::Int, b, a))?;
    builder.push(wire, Formula::Choose(n, a, b))
}
