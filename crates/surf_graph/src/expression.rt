//! The operations of expressions and of tests.

ghost use Rattle.std.specs.Prelude.{◌≡◌, cond, None, IfOk};
ghost use Rattle.java_values.specs.Arithmetic.{applied1};
ghost use Rattle.java_values.specs.Kinds.{result_kind1};
ghost use Rattle.kernel_terms.specs.Expressions as terms;
ghost use Rattle.surf_graph.specs.definitions.SpelledOut.{value_wires, test_wires};
ghost use Rattle.surf_graph.specs.definitions.SpelledOut.{is_of, where_given, constant_of, divisor_of};
ghost use Rattle.surf_graph.specs.Building.{Computes, wires_in};

use crate::builder::Builder;
use crate::wire_tables::{WireTables, wire_at};
use java_values::{Kind, NoMemory, Op1, Op2, Value, apply1, fits1};
use kernel_terms::{Expr, ExprForm, SigTest};
use wire_code::Formula;

// The value of an operator on a number of this kind, where it takes it.
fn applied(op: Op1, kind: Kind, n: i64) -> Option<i64>
    ensures { result ≡ cond (is_of kind n)
        (where_given (result_kind1 op kind) (applied1 op kind n)) None }
{
    let value = Value::new(kind, n)?;
    if fits1(op, kind).is_none() {
        return None;
    }
    Some(apply1(op, value).number())
}

// The value of a literal, or of an operator on one.
fn constant(e: &Expr) -> Option<i64>
    ensures { result ≡ constant_of (terms.expression e.now) }
{
    match &e.form {
        ExprForm::Literal(n) => Some(*n),
        ExprForm::Unary(op, operand) => {
            let operand = operand.get();
            match &operand.form {
                ExprForm::Literal(n) => applied(*op, operand.kind, *n),
                _ => None,
            }
        }
        _ => None,
    }
}

// The constant that an operator divides by.
fn divisor(op: Op2, right: &Expr) -> Option<i64>
    ensures { result ≡ divisor_of op (terms.expression right.now) }
{
    match op {
        Op2::Div | Op2::Rem => constant(right),
        _ => None,
    }
}

/// Adds the operations of an expression, and answers the wire that has its value. A divisor that is a
/// constant is one operation.
#[cycle(value)]
pub fn value(builder: &mut Builder, tables: &WireTables, e: &Expr) -> Result<u32, NoMemory>
    ensures { IfOk result (λ at. Computes builder.old builder.new
        (value_wires (wires_in tables.now) builder.old.further (terms.expression e.now)) at) }
{
    match &e.form {
        ExprForm::Literal(n) => builder.add(Formula::Const(*n)),
        ExprForm::Variable(x) => Ok(wire_at(&tables.variables, *x)),
        ExprForm::Signal(s) => Ok(wire_at(&tables.value, *s)),
        ExprForm::Channel(c) => Ok(wire_at(&tables.last, *c)),
        ExprForm::Unary(op, operand) => {
            let operand = operand.get();
            let a = value(builder, tables, operand)?;
            builder.add(Formula::Apply1(*op, operand.kind, a))
        }
        ExprForm::Binary(op, left, right) => {
            let left = left.get();
            let right = right.get();
            let a = value(builder, tables, left)?;
            let b = match divisor(*op, right) {
                Some(n) => builder.add(Formula::Const(n))?,
                None => value(builder, tables, right)?,
            };
            builder.add(Formula::Apply2(*op, left.kind, right.kind, a, b))
        }
        ExprForm::Cast(operand) => {
            let operand = operand.get();
            let a = value(builder, tables, operand)?;
            builder.add(Formula::Cast(operand.kind, e.kind, a))
        }
    }
}

/// Adds the operations of a test, and answers the wire that is on where it holds.
#[cycle(test)]
pub fn test(builder: &mut Builder, tables: &WireTables, t: &SigTest) -> Result<u32, NoMemory>
    ensures { IfOk result (λ at. Computes builder.old builder.new
        (test_wires (wires_in tables.now) builder.old.further (terms.test t.now)) at) }
{
    match t {
        SigTest::Signal(s) => Ok(wire_at(&tables.present, *s)),
        SigTest::Not(u) => {
            let a = test(builder, tables, u.get())?;
            builder.add(Formula::Not(a))
        }
        SigTest::Both(u, v) => {
            let a = test(builder, tables, u.get())?;
            let b = test(builder, tables, v.get())?;
            builder.add(Formula::And(a, b))
        }
        SigTest::Either(u, v) => {
            let a = test(builder, tables, u.get())?;
            let b = test(builder, tables, v.get())?;
            builder.add(Formula::Or(a, b))
        }
    }
}
