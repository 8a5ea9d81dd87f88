ghost use Rattle.std.specs.Prelude.{◌≡◌, MatchResult};
ghost use Rattle.java_types.specs.definitions.Checks.{fine, IsFirst};
ghost use Rattle.java_types.specs.definitions.Operands.{value_of_name, entry_expression, plain_literal, least_literal, binary_operand, checked_expression};

use crate::failure::{TypeError, TypeFailure};
use crate::operand::{Operand, Spelling};
use crate::operators::{binary, cast, in_parentheses, unary};
use crate::tables::entry_expression;
use java_values::{Op2, Value};
use kernel_terms::{Expr, ExprForm, Tables};
use sj_ast::Raw;
use sj_names::TableEntry;
use std::alloc::Global;

#[tactic(auto, using(crate::proofs::LiteralLemmas::literals))]
fn plain_literal(at: u32, value: Value) -> Operand
    ensures { result ≡ plain_literal at value }
{
    Operand {
        expr: Expr {
            kind: value.kind(),
            form: ExprForm::Literal(value.number()),
        },
        first: at,
        spelling: Spelling::Literal(value),
    }
}

/// The least `int` or `long`, with its minus.
#[tactic(auto, using(crate::proofs::LiteralLemmas::literals))]
fn least_literal(at: u32, value: Value) -> Operand
    ensures { result ≡ least_literal at value }
{
    Operand {
        expr: Expr {
            kind: value.kind(),
            form: ExprForm::Literal(value.number()),
        },
        first: at,
        spelling: Spelling::Least(value),
    }
}

/// The value of an entry, whose name stands at a place.
fn value_of_name(
    tables: &Tables,
    first: u32,
    name_at: u32,
    entry: TableEntry,
) -> Result<Operand, TypeError>
    ensures { MatchResult result (λ o. value_of_name first name_at
        (entry_expression tables.now entry) ≡
        fine o) (IsFirst (value_of_name first name_at (entry_expression tables.now entry))) }
{
    match entry_expression(tables, entry) {
        Some(expr) => Ok(Operand {
            expr,
            first,
            spelling: Spelling::Other,
        }),
        None => Err(TypeError::Failed(TypeFailure::Mismatch(name_at))),
    }
}

/// Two operands of one operator.
#[derive(Debug, Drop)]
pub struct Operands {
    pub left: Operand,
    pub right: Operand,
}

/// The operator on two operands, at its place.
#[tactic(auto, using(crate::proofs::CheckLemmas::checks))]
fn binary_operand(alloc: Global, at: u32, op: Op2, operands: Operands) -> Result<Operand, TypeError>
    ensures { MatchResult result (λ o. binary_operand at op operands ≡
        fine o) (IsFirst (binary_operand at op operands)) }
{
    let first = operands.left.first;
    let expr = binary(alloc, at, op, operands.left.expr, operands.right)?;
    Ok(Operand {
        expr,
        first,
        spelling: Spelling::Other,
    })
}

/// The expression with its kind, or the first thing that is wrong with it.
#[tactic(auto, using(crate::proofs::CheckLemmas::pairs))]
pub fn expression(
    alloc: Global,
    tables: &Tables,
    raw: &Raw<TableEntry>,
) -> Result<Operand, TypeError>
    ensures { MatchResult result (λ o. checked_expression tables.now raw.now ≡
        fine o) (IsFirst (checked_expression tables.now raw.now)) }
{
    match raw {
        Raw::Literal { at, value } => Ok(plain_literal(*at, *value)),
        Raw::Least { at, value } => Ok(least_literal(*at, *value)),
        Raw::Variable { at, name } => value_of_name(tables, *at, *at, *name),
        Raw::Status { at, name_at, name } => value_of_name(tables, *at, *name_at, *name),
        Raw::Unary { at, op, operand } => {
            let operand = expression(alloc, tables, operand.get())?;
            unary(alloc, *at, *op, operand)
        }
        Raw::Cast { at, kind, operand } => {
            let operand = expression(alloc, tables, operand.get())?;
            cast(alloc, *at, *kind, operand)
        }
        Raw::Group { at, inner } => {
            let inner = expression(alloc, tables, inner.get())?;
            Ok(in_parentheses(*at, inner))
        }
        Raw::Binary {
            at,
            op,
            left,
            right,
        } => {
            let left = expression(alloc, tables, left.get())?;
            let right = expression(alloc, tables, right.get())?;
            binary_operand(alloc, *at, *op, Operands { left, right })
        }
    }
}
