ghost use Rattle.std.specs.Prelude.{◌≡◌, ◌&&◌};
ghost use Rattle.java_values.specs.Kinds.{is_integer, are_boolean, is_castable, promoted, promoted2, takes_booleans, is_widened, if_integers, result_kind1, result_kind2};

use crate::kind::Kind;
use crate::op::{Op1, Op2};
use crate::size::{kind_of, size_for, size_for_both};

pub fn is_integer_kind(kind: Kind) -> bool
    ensures { result ≡ is_integer kind }
{
    match kind {
        Kind::Boolean => false,
        Kind::Byte | Kind::Short | Kind::Char | Kind::Int | Kind::Long => true,
    }
}

pub fn both_boolean(a: Kind, b: Kind) -> bool
    ensures { result ≡ are_boolean a b }
{
    !is_integer_kind(a) && !is_integer_kind(b)
}

fn of_integers(a: Kind, b: Kind, kind: Kind) -> Option<Kind>
    ensures { result ≡ if_integers a b kind }
{
    if is_integer_kind(a) && is_integer_kind(b) {
        Some(kind)
    } else {
        None
    }
}

/// The kind of the result of an operator on one operand; None exactly where the operator doesn't take
/// the kind. `!` takes `boolean`; the others take integers, and give `long` for `long`, else `int`.
pub fn fits1(op: Op1, a: Kind) -> Option<Kind>
    ensures { result ≡ result_kind1 op a }
{
    match op {
        Op1::Not => {
            if both_boolean(a, a) {
                Some(Kind::Boolean)
            } else {
                None
            }
        }
        Op1::Plus | Op1::Minus | Op1::BitNot => of_integers(a, a, kind_of(size_for(a))),
    }
}

fn fits_booleans(op: Op2) -> bool
    ensures { result ≡ takes_booleans op }
{
    match op {
        Op2::Equal | Op2::NotEqual | Op2::And | Op2::Xor | Op2::Or | Op2::Both | Op2::Either => {
            true
        }
        _ => false,
    }
}

/// The kind of the result of an operator on two operands; None exactly where the operator doesn't take
/// the kinds. A shift gives `long` where its left operand is `long`, else `int`. Other arithmetic on
/// integers gives `long` where either operand is `long`, else `int`. Comparisons give `boolean`.
/// `==`, `!=`, `&`, `^` and `|` take two `boolean` too, and `&&` and `||` take nothing else.
pub fn fits2(op: Op2, a: Kind, b: Kind) -> Option<Kind>
    ensures { result ≡ result_kind2 op a b }
{
    if both_boolean(a, b) {
        if fits_booleans(op) {
            return Some(Kind::Boolean);
        }
        return None;
    }
    match op {
        Op2::Shl | Op2::Shr | Op2::Ushr => of_integers(a, b, kind_of(size_for(a))),
        Op2::Less | Op2::LessEq | Op2::Greater | Op2::GreaterEq | Op2::Equal | Op2::NotEqual => {
            of_integers(a, b, Kind::Boolean)
        }
        Op2::Both | Op2::Either => None,
        Op2::Mul | Op2::Div | Op2::Rem | Op2::Add | Op2::Sub | Op2::And | Op2::Xor | Op2::Or => {
            of_integers(a, b, kind_of(size_for_both(a, b)))
        }
    }
}

/// Whether each value of the first kind is given to the second with no change of its number: `byte` to
/// `short`, `int` and `long`; `short` and `char` to `int` and `long`; `int` to `long`; each kind to
/// itself.
pub fn widens(from: Kind, to: Kind) -> bool
    ensures { result ≡ is_widened from to }
{
    match from {
        Kind::Byte => matches!(to, Kind::Byte | Kind::Short | Kind::Int | Kind::Long),
        Kind::Short => matches!(to, Kind::Short | Kind::Int | Kind::Long),
        Kind::Char => matches!(to, Kind::Char | Kind::Int | Kind::Long),
        Kind::Int => matches!(to, Kind::Int | Kind::Long),
        Kind::Boolean => matches!(to, Kind::Boolean),
        Kind::Long => matches!(to, Kind::Long),
    }
}

/// Whether a value of the first kind may be cast to the second: both are `boolean`, or neither is.
pub fn can_cast(from: Kind, to: Kind) -> bool
    ensures { result ≡ is_castable from to }
{
    is_integer_kind(from) == is_integer_kind(to)
}
