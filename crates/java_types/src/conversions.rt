ghost use Rattle.std.specs.Prelude.{◌≡◌, ◌||◌, MatchResult, IfOk, neg_ℤ};
ghost use Rattle.java_values.specs.Kinds.{is_widened};
ghost use Rattle.kernel_terms.specs.WellFormed.{same_kind};
ghost use Rattle.java_types.specs.definitions.Checks.{fine, IsFirst};
ghost use Rattle.java_types.specs.definitions.Spellings.{holds, may_narrow, is_given_to};
ghost use Rattle.java_types.specs.definitions.Conversions.{converted, given, condition, updated};

use crate::failure::{TypeError, TypeFailure};
use crate::operand::{Operand, Spelling, boxed};
use crate::operators::binary;
use java_values::{Kind, NoMemory, Op2, Value, can_cast, widens};
use kernel_terms::{Expr, ExprForm};
use std::alloc::Global;

fn same_kind(a: Kind, b: Kind) -> bool
    ensures { result ≡ same_kind a b }
{
    a == b
}

/// Whether it is an integer kind whose range holds the number.
fn holds(kind: Kind, number: i64) -> bool
    ensures { result ≡ holds kind number }
{
    kind != Kind::Boolean && Value::new(kind, number).is_some()
}

fn is_small(value: Value) -> bool
    ensures { result ≡ may_narrow value.kind }
{
    matches!(value.kind(), Kind::Int | Kind::Char)
}

/// Whether the range of an integer kind holds the number with its sign turned.
fn holds_negated(kind: Kind, number: i64) -> bool
    ensures { result ≡ holds kind (neg_ℤ number) }
{
    match number.checked_neg() {
        Some(negated) => holds(kind, negated),
        None => false,
    }
}

/// Whether a literal is given to the kind.
fn is_given_to(kind: Kind, spelling: Spelling) -> bool
    ensures { result ≡ is_given_to kind spelling }
{
    match spelling {
        Spelling::Literal(value) => is_small(value) && holds(kind, value.number()),
        Spelling::Grouped(value) => is_small(value) && holds(kind, value.number()),
        Spelling::Minus(value) => is_small(value) && holds_negated(kind, value.number()),
        Spelling::MinusGrouped(value) => is_small(value) && holds_negated(kind, value.number()),
        Spelling::Least(_) | Spelling::Other => false,
    }
}

/// The value as one of the kind: a cast where its own is another.
fn converted(alloc: Global, kind: Kind, expr: Expr) -> Result<Expr, NoMemory>
    ensures { IfOk result (λ e. e ≡ converted kind expr) }
{
    if same_kind(expr.kind, kind) {
        return Ok(expr);
    }
    Ok(Expr {
        kind,
        form: ExprForm::Cast(boxed(alloc, expr)?),
    })
}

/// Whether a value of the first kind, spelled so, is given to the second.
fn can_give(from: Kind, spelling: Spelling, to: Kind) -> bool
    ensures { result ≡ (is_widened from to || is_given_to to spelling) }
{
    widens(from, to) || is_given_to(to, spelling)
}

/// The value, given to something of the kind.
pub fn given(alloc: Global, kind: Kind, operand: Operand) -> Result<Expr, TypeError>
    ensures { MatchResult result (λ e. given kind operand ≡ fine e) (IsFirst (given kind operand)) }
{
    if !can_give(operand.expr.kind, operand.spelling, kind) {
        return Err(TypeError::Failed(TypeFailure::Mismatch(operand.first)));
    }
    Ok(converted(alloc, kind, operand.expr)?)
}

/// The value, as a condition.
pub fn condition(operand: Operand) -> Result<Expr, TypeError>
    ensures { MatchResult result (λ e. condition operand ≡ fine e) (IsFirst (condition operand)) }
{
    if same_kind(operand.expr.kind, Kind::Boolean) {
        return Ok(operand.expr);
    }
    Err(TypeError::Failed(TypeFailure::Mismatch(operand.first)))
}

/// The new value of a variable of this kind and number: the operator on its value and the operand, cast to its kind.
#[tactic(auto, using(crate::proofs::CheckLemmas::checks))]
pub fn updated(
    alloc: Global,
    kind: Kind,
    variable: u32,
    sign_at: u32,
    op: Op2,
    operand: Operand,
) -> Result<Expr, TypeError>
    ensures { MatchResult result (λ e. updated kind variable sign_at op operand ≡
        fine e) (IsFirst (updated kind variable sign_at op operand)) }
{
    let old = Expr {
        kind,
        form: ExprForm::Variable(variable),
    };
    let value = binary(alloc, sign_at, op, old, operand)?;
    if !can_cast(value.kind, kind) {
        return Err(TypeError::Failed(TypeFailure::Mismatch(sign_at)));
    }
    Ok(Expr {
        kind,
        form: ExprForm::Cast(boxed(alloc, value)?),
    })
}
