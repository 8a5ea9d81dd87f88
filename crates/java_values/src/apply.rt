ghost use Rattle.std.specs.Prelude.{◌≡◌, ◌&&◌, IsSome, IsTrue, Some, true, false};
ghost use Rattle.std.specs.Int.{int_wrap, w8, w16, w32};
ghost use Rattle.java_values.specs.Kinds.{IsInRange, are_boolean, is_castable, promoted, promoted2, result_kind1, result_kind2, takes_booleans};
ghost use Rattle.java_values.specs.Arithmetic.{size_kind, of_bool, wrapped, cast_to, computed, applied1, applied2, HasDivisor};

use crate::fits::both_boolean;
use crate::kind::Kind;
use crate::op::{Op1, Op2};
use crate::size::{Size, kind_of, size_for, size_for_both};
use crate::value::{Value, boolean, is_true_value, value_of};
use crate::whole::{
    bits_and, bits_not, bits_or, bits_xor, difference, negation, product, quotient_of,
    remainder_of, shifted_left, shifted_right, shifted_right_unsigned, sum,
};

/// An operand in the size in which it is computed.
#[derive(Clone, Copy)]
struct Single {
    size: Size,
    number: i64,
}

/// Two operands in the size in which they are computed.
#[derive(Clone, Copy)]
struct Pair {
    size: Size,
    left: i64,
    right: i64,
}

fn operand(a: Value) -> Single
    ensures size { size_kind result.size ≡ promoted a.kind }
    ensures number { result.number ≡ a.number }
    ensures range { IsInRange (size_kind result.size) result.number }
{
    let number = a.number();
    Single {
        size: size_for(a.kind()),
        number,
    }
}

fn operands(a: Value, b: Value) -> Pair
    ensures size { size_kind result.size ≡ promoted2 a.kind b.kind }
    ensures left { result.left ≡ a.number }
    ensures right { result.right ≡ b.number }
    ensures left_range { IsInRange (size_kind result.size) result.left }
    ensures right_range { IsInRange (size_kind result.size) result.right }
{
    let left = a.number();
    let right = b.number();
    Pair {
        size: size_for_both(a.kind(), b.kind()),
        left,
        right,
    }
}

/// The value of an operator on one operand. The operator takes the operand's kind, as `fits1` tells.
/// `+`, `-` and `~` compute in `long` for `long` and else in `int`, and `-` wraps; `!` turns `true`
/// into `false` and `false` into `true`.
pub fn apply1(op: Op1, a: Value) -> Value
    requires { IsSome (result_kind1 op a.kind) }
    ensures kind { result_kind1 op a.kind ≡ Some result.kind }
    ensures number { result.number ≡ applied1 op a.kind a.number }
{
    let x = operand(a);
    match op {
        Op1::Plus => value_of(kind_of(x.size), x.number),
        Op1::Minus => value_of(kind_of(x.size), negation(x.size, x.number)),
        Op1::BitNot => value_of(kind_of(x.size), bits_not(x.size, x.number)),
        Op1::Not => boolean(!is_true_value(a)),
    }
}

/// An operator on two `boolean`.
fn on_booleans(op: Op2, a: bool, b: bool) -> bool
    requires { takes_booleans op ≡ true }
    ensures { of_bool result ≡ computed op Kind.Int (of_bool a) (of_bool b) }
{
    match op {
        Op2::Equal => a == b,
        Op2::NotEqual | Op2::Xor => a != b,
        Op2::And | Op2::Both => a && b,
        Op2::Or | Op2::Either => a || b,
        _ => unreachable!(),
    }
}

/// An operator on two integers.
fn on_integers(op: Op2, a: Value, b: Value) -> Value
    requires fits { IsSome (result_kind2 op a.kind b.kind) }
    requires integers { are_boolean a.kind b.kind ≡ false }
    requires divisor { HasDivisor op b.number }
    ensures kind { result_kind2 op a.kind b.kind ≡ Some result.kind }
    ensures number { result.number ≡ applied2 op a.kind a.number b.kind b.number }
{
    let x = operand(a);
    let both = operands(a, b);
    let (size, m, n) = (both.size, both.left, both.right);
    let kind = kind_of(size);
    let left_kind = kind_of(x.size);
    match op {
        Op2::Mul => value_of(kind, product(size, m, n)),
        Op2::Div => value_of(kind, quotient_of(size, m, n)),
        Op2::Rem => value_of(kind, remainder_of(size, m, n)),
        Op2::Add => value_of(kind, sum(size, m, n)),
        Op2::Sub => value_of(kind, difference(size, m, n)),
        Op2::Shl => value_of(left_kind, shifted_left(x.size, m, n)),
        Op2::Shr => value_of(left_kind, shifted_right(x.size, m, n)),
        Op2::Ushr => value_of(left_kind, shifted_right_unsigned(x.size, m, n)),
        Op2::Less => boolean(m < n),
        Op2::LessEq => boolean(m <= n),
        Op2::Greater => boolean(m > n),
        Op2::GreaterEq => boolean(m >= n),
        Op2::Equal => boolean(m == n),
        Op2::NotEqual => boolean(m != n),
        Op2::And => value_of(kind, bits_and(size, m, n)),
        Op2::Xor => value_of(kind, bits_xor(size, m, n)),
        Op2::Or => value_of(kind, bits_or(size, m, n)),
        Op2::Both | Op2::Either => unreachable!(),
    }
}

/// The value of an operator on two operands. The operator takes the operands' kinds, as `fits2` tells,
/// and the divisor of `/` and `%` isn't 0. Integers are computed in `long` if either is `long`, else in
/// `int`, and results wrap in two's complement. `/` rounds toward zero and `%` has the dividend's sign.
/// A shift is computed in the kind of its left operand, and its distance is the low 5 bits of the right
/// operand for `int` and the low 6 for `long`; `>>>` shifts zeros in.
pub fn apply2(op: Op2, a: Value, b: Value) -> Value
    requires fits { IsSome (result_kind2 op a.kind b.kind) }
    requires divisor { HasDivisor op b.number }
    ensures kind { result_kind2 op a.kind b.kind ≡ Some result.kind }
    ensures number { result.number ≡ applied2 op a.kind a.number b.kind b.number }
{
    if both_boolean(a.kind(), b.kind()) {
        boolean(on_booleans(op, is_true_value(a), is_true_value(b)))
    } else {
        on_integers(op, a, b)
    }
}

fn low_byte(n: i64) -> i8
    ensures { result ≡ int_wrap w8 n }
{
    (n.rem_euclid(0x100) as u8).cast_signed()
}

fn low_short(n: i64) -> i16
    ensures { result ≡ int_wrap w16 n }
{
    (n.rem_euclid(0x1_0000) as u16).cast_signed()
}

fn low_int(n: i64) -> i32
    ensures { result ≡ int_wrap w32 n }
{
    (n.rem_euclid(0x1_0000_0000) as u32).cast_signed()
}

/// The number of the kind with the same low bits.
fn wrapped_number(kind: Kind, n: i64) -> i64
    ensures number { result ≡ wrapped kind n }
    ensures range { IsInRange kind result }
{
    match kind {
        Kind::Boolean => n.rem_euclid(2),
        Kind::Byte => i64::from(low_byte(n)),
        Kind::Short => i64::from(low_short(n)),
        Kind::Char => n.rem_euclid(0x1_0000),
        Kind::Int => i64::from(low_int(n)),
        Kind::Long => n,
    }
}

/// The value cast to a kind: the number of that kind with the same low bits. Both kinds are `boolean`,
/// or neither is.
pub fn cast(kind: Kind, v: Value) -> Value
    requires { IsTrue (is_castable v.kind kind) }
    ensures kind { result.kind ≡ kind }
    ensures number { result.number ≡ cast_to kind v.number }
{
    value_of(kind, wrapped_number(kind, v.number()))
}
