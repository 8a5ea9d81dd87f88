// Numbers.

ghost use Rattle.std.specs.Prelude.{◌≡◌, ◌≤◌, ◌+◌, ◌*◌, ◌^◌, ◌<◌, MatchOption, length, pos, cond, Some, None};
ghost use Rattle.java_values.specs.Kinds.{IsInRange};
ghost use Rattle.java_values.specs.declared.kind.Kind.TheVariants as kind;
ghost use Rattle.sj_lexer.specs.definitions.Numbers.{digit_value, are_digits, number_from, is_spelled, edge_of, literal, decimal_class, hexadecimal_class, after_zero, unmarked_class, number_class};

use crate::token::Class;
use java_values::{Kind, Value};

/// The value of a hexadecimal digit, and 16 for any other byte.
fn digit_value(byte: u8) -> u64
    ensures value { result ≡ digit_value byte }
    ensures small { result ≤ 16 }
{
    if b'0' <= byte && byte <= b'9' {
        return (byte - b'0') as u64;
    }
    if b'a' <= byte && byte <= b'f' {
        return (byte - b'a') as u64 + 10;
    }
    if b'A' <= byte && byte <= b'F' {
        return (byte - b'A') as u64 + 10;
    }
    16
}

fn are_digits(base: u64, bytes: &[u8]) -> bool
    ensures { result ≡ are_digits base bytes.now }
{
    bytes.iter().all(|byte| digit_value(*byte) < base)
}

// The number with one more digit, where it is below 2^64.
fn with_digit(base: u64, number: u64, digit: u64) -> Option<u64>
    ensures { MatchOption result (2 ^ 64 ≤ number * base + digit) (λ n. n ≡ number * base + digit) }
{
    number.checked_mul(base)?.checked_add(digit)
}

// The number of the digits, where it is below 2^64.
#[tactic(auto, using(crate::proofs::Values::growing))]
fn number_of(base: u64, digits: &[u8]) -> Option<u64>
    requires base { 1 ≤ base }
    ensures { MatchOption result (2 ^ 64 ≤ number_from base 0 digits.now) (λ n. n ≡
        number_from base 0 digits.now) }
{
    let mut number = 0;
    let mut rest = digits;
    while let [first, after @ ..] = rest {
        let Some(next) = with_digit(base, number, digit_value(*first)) else {
            return None;
        };
        number = next;
        rest = after;
    }
    Some(number)
}

// One above the greatest number of the kind.
fn edge_of(is_long: bool) -> u64
    ensures { result ≡ edge_of is_long }
{
    if is_long { 1 << 63 } else { 1 << 31 }
}

fn kind_of(is_long: bool) -> Kind
    ensures { result ≡ cond is_long kind.Long kind.Int }
{
    if is_long { Kind::Long } else { Kind::Int }
}

fn literal(is_long: bool, number: i64) -> Option<Class>
    requires { IsInRange (cond is_long kind.Long kind.Int) number }
    ensures { result ≡ Some (literal is_long number) }
{
    let value = Value::new(kind_of(is_long), number)?;
    Some(Class::Literal(value))
}

// A decimal number in its range, or one above it.
fn decimal_class(is_long: bool, number: u64) -> Option<Class>
    ensures { result ≡ decimal_class is_long number }
{
    let edge = edge_of(is_long);
    if number < edge {
        return literal(is_long, number as i64);
    }
    if number > edge {
        return None;
    }
    Some(if is_long {
        Class::LongEdge
    } else {
        Class::IntEdge
    })
}

// A hexadecimal number in two's complement.
fn hexadecimal_class(is_long: bool, number: u64) -> Option<Class>
    ensures { result ≡ hexadecimal_class is_long number }
{
    let edge = edge_of(is_long);
    if number < edge {
        return literal(is_long, number as i64);
    }
    let past = number - edge;
    if past >= edge {
        return None;
    }
    literal(is_long, -1 - (edge - 1 - past) as i64)
}

fn is_spelled(base: u64, digits: &[u8]) -> bool
    ensures { result ≡ is_spelled base digits.now }
{
    !digits.is_empty() && are_digits(base, digits)
}

fn hexadecimal(is_long: bool, digits: &[u8]) -> Option<Class>
    ensures { result ≡ hexadecimal_class is_long (number_from 16 0 digits.now) }
{
    let number = number_of(16, digits)?;
    hexadecimal_class(is_long, number)
}

fn decimal(is_long: bool, digits: &[u8]) -> Option<Class>
    ensures { result ≡ decimal_class is_long (number_from 10 0 digits.now) }
{
    let number = number_of(10, digits)?;
    decimal_class(is_long, number)
}

// Behind a first `0`.
fn after_zero(is_long: bool, rest: &[u8]) -> Option<Class>
    ensures { result ≡ after_zero is_long rest.now }
{
    let [first, digits @ ..] = rest else {
        return decimal_class(is_long, 0);
    };
    if (*first == b'x' || *first == b'X') && is_spelled(16, digits) {
        hexadecimal(is_long, digits)
    } else {
        None
    }
}

// A number without a mark of `long` behind it.
fn unmarked_class(is_long: bool, bytes: &[u8]) -> Option<Class>
    ensures { result ≡ unmarked_class is_long bytes.now }
{
    let [first, rest @ ..] = bytes else {
        return None;
    };
    if *first == b'0' {
        return after_zero(is_long, rest);
    }
    if are_digits(10, bytes) {
        decimal(is_long, bytes)
    } else {
        None
    }
}

/// What a run of letters, digits and `_` is as a number.
pub fn number_class(bytes: &[u8]) -> Option<Class>
    requires { 1 ≤ length bytes.now }
    ensures { result ≡ number_class bytes.now }
{
    let (last, digits) = bytes.split_last()?;
    if *last == b'L' || *last == b'l' {
        unmarked_class(true, digits)
    } else {
        unmarked_class(false, bytes)
    }
}
