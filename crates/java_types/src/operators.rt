ghost use Rattle.std.specs.Prelude.{◌≡◌, ◌||◌, not, MatchResult};
ghost use Rattle.java_types.specs.definitions.Checks.{fine, IsFirst};
ghost use Rattle.java_types.specs.definitions.Spellings.{grouped, unary_spelling, spells_divisor};
ghost use Rattle.java_types.specs.definitions.Operands.{divides, binary, unary, cast, in_parentheses};

use crate::failure::{TypeError, TypeFailure};
use crate::operand::{Operand, Spelling, boxed};
use java_values::{Kind, Op1, Op2, Value, can_cast, fits1, fits2};
use kernel_terms::{Expr, ExprForm};
use std::alloc::Global;

/// The spelling in parentheses.
fn grouped(spelling: Spelling) -> Spelling
    ensures { result ≡ grouped spelling }
{
    match spelling {
        Spelling::Literal(value) => Spelling::Grouped(value),
        other => other,
    }
}

/// The spelling behind the operator.
fn unary_spelling(op: Op1, spelling: Spelling) -> Spelling
    ensures { result ≡ unary_spelling op spelling }
{
    match op {
        Op1::Minus => match spelling {
            Spelling::Literal(value) => Spelling::Minus(value),
            Spelling::Grouped(value) => Spelling::MinusGrouped(value),
            _ => Spelling::Other,
        },
        Op1::Plus | Op1::BitNot | Op1::Not => Spelling::Other,
    }
}

/// Whether what is spelled so may be a divisor.
fn spells_divisor(spelling: Spelling) -> bool
    ensures { result ≡ spells_divisor spelling }
{
    match spelling {
        Spelling::Literal(value) => value.kind() != Kind::Boolean && value.number() != 0,
        Spelling::Grouped(value) => value.kind() != Kind::Boolean && value.number() != 0,
        Spelling::Minus(value) => {
            matches!(value.kind(), Kind::Int | Kind::Long) && value.number() != 0
        }
        Spelling::MinusGrouped(_) => false,
        Spelling::Least(value) => value.kind() != Kind::Boolean && value.number() != 0,
        Spelling::Other => false,
    }
}

fn divides(op: Op2) -> bool
    ensures { result ≡ divides op }
{
    matches!(op, Op2::Div | Op2::Rem)
}

/// Whether what is spelled so may stand on the right of the operator.
fn may_divide(op: Op2, spelling: Spelling) -> bool
    ensures { result ≡ (not (divides op) || spells_divisor spelling) }
{
    !divides(op) || spells_divisor(spelling)
}

/// The operator on one operand, at its place.
pub fn unary(alloc: Global, at: u32, op: Op1, operand: Operand) -> Result<Operand, TypeError>
    ensures { MatchResult result (λ o. unary at op operand ≡
        fine o) (IsFirst (unary at op operand)) }
{
    let Some(kind) = fits1(op, operand.expr.kind) else {
        return Err(TypeError::Failed(TypeFailure::Mismatch(at)));
    };
    let spelling = unary_spelling(op, operand.spelling);
    Ok(Operand {
        expr: Expr {
            kind,
            form: ExprForm::Unary(op, boxed(alloc, operand.expr)?),
        },
        first: at,
        spelling,
    })
}

/// The cast of an operand, at its place.
pub fn cast(alloc: Global, at: u32, kind: Kind, operand: Operand) -> Result<Operand, TypeError>
    ensures { MatchResult result (λ o. cast at kind operand ≡
        fine o) (IsFirst (cast at kind operand)) }
{
    if !can_cast(operand.expr.kind, kind) {
        return Err(TypeError::Failed(TypeFailure::Mismatch(at)));
    }
    Ok(Operand {
        expr: Expr {
            kind,
            form: ExprForm::Cast(boxed(alloc, operand.expr)?),
        },
        first: at,
        spelling: Spelling::Other,
    })
}

/// The operand in parentheses.
pub fn in_parentheses(at: u32, operand: Operand) -> Operand
    ensures { result ≡ in_parentheses at operand }
{
    Operand {
        expr: operand.expr,
        first: at,
        spelling: grouped(operand.spelling),
    }
}

/// The operator on two operands, at its place.
pub fn binary(
    alloc: Global,
    at: u32,
    op: Op2,
    left: Expr,
    right: Operand,
) -> Result<Expr, TypeError>
    ensures { MatchResult result (λ e. binary at op left right ≡
        fine e) (IsFirst (binary at op left right)) }
{
    let Some(kind) = fits2(op, left.kind, right.expr.kind) else {
        return Err(TypeError::Failed(TypeFailure::Mismatch(at)));
    };
    if !may_divide(op, right.spelling) {
        return Err(TypeError::Failed(TypeFailure::Divisor(right.first)));
    }
    let left = boxed(alloc, left)?;
    Ok(Expr {
        kind,
        form: ExprForm::Binary(op, left, boxed(alloc, right.expr)?),
    })
}
