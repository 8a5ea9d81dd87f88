//! The operations on numbers of kind `int` or `long`.

ghost use Rattle.std.specs.Prelude.{◌≡◌, ◌≢◌, pos, ◌+ℤ◌, ◌-ℤ◌, ◌*ℤ◌, neg_ℤ, ◌^◌, ◌/◌, ◌<◌};
ghost use Rattle.std.specs.Int.{w32, w64, cast_unsigned, int_wrap, int_shr, int_bit_and, int_bit_xor, int_bit_or};
ghost use Rattle.java_values.specs.Kinds.{IsInRange};
ghost use Rattle.java_values.specs.Arithmetic.{size_kind, wrapped, quotient, remainder, width_of, distance};

use crate::kind::Kind;
use crate::size::Size;

pub fn product(size: Size, m: i64, n: i64) -> i64
    requires left { IsInRange (size_kind size) m }
    requires right { IsInRange (size_kind size) n }
    ensures number { result ≡ wrapped (size_kind size) (m *ℤ n) }
    ensures range { IsInRange (size_kind size) result }
{
    match size {
        Size::Int => i64::from((m as i32).wrapping_mul(n as i32)),
        Size::Long => m.wrapping_mul(n),
    }
}

pub fn sum(size: Size, m: i64, n: i64) -> i64
    requires left { IsInRange (size_kind size) m }
    requires right { IsInRange (size_kind size) n }
    ensures number { result ≡ wrapped (size_kind size) (m +ℤ n) }
    ensures range { IsInRange (size_kind size) result }
{
    match size {
        Size::Int => i64::from((m as i32).wrapping_add(n as i32)),
        Size::Long => m.wrapping_add(n),
    }
}

pub fn difference(size: Size, m: i64, n: i64) -> i64
    requires left { IsInRange (size_kind size) m }
    requires right { IsInRange (size_kind size) n }
    ensures number { result ≡ wrapped (size_kind size) (m -ℤ n) }
    ensures range { IsInRange (size_kind size) result }
{
    match size {
        Size::Int => i64::from((m as i32).wrapping_sub(n as i32)),
        Size::Long => m.wrapping_sub(n),
    }
}

pub fn negation(size: Size, n: i64) -> i64
    requires { IsInRange (size_kind size) n }
    ensures number { result ≡ wrapped (size_kind size) (neg_ℤ n) }
    ensures range { IsInRange (size_kind size) result }
{
    match size {
        Size::Int => i64::from((n as i32).wrapping_neg()),
        Size::Long => n.wrapping_neg(),
    }
}

fn int_quotient(m: i32, n: i32) -> i32
    requires { n ≢ pos 0 }
    ensures { result ≡ int_wrap w32 (quotient m n) }
{
    m.wrapping_div(n)
}

fn long_quotient(m: i64, n: i64) -> i64
    requires { n ≢ pos 0 }
    ensures { result ≡ int_wrap w64 (quotient m n) }
{
    m.wrapping_div(n)
}

/// Rounded toward zero.
pub fn quotient_of(size: Size, m: i64, n: i64) -> i64
    requires left { IsInRange (size_kind size) m }
    requires right { IsInRange (size_kind size) n }
    requires divisor { n ≢ pos 0 }
    ensures number { result ≡ wrapped (size_kind size) (quotient m n) }
    ensures range { IsInRange (size_kind size) result }
{
    match size {
        Size::Int => i64::from(int_quotient(m as i32, n as i32)),
        Size::Long => long_quotient(m, n),
    }
}

fn int_remainder(m: i32, n: i32) -> i32
    requires { n ≢ pos 0 }
    ensures { result ≡ int_wrap w32 (remainder m n) }
{
    m.wrapping_rem(n)
}

fn long_remainder(m: i64, n: i64) -> i64
    requires { n ≢ pos 0 }
    ensures { result ≡ int_wrap w64 (remainder m n) }
{
    m.wrapping_rem(n)
}

/// With the dividend's sign.
pub fn remainder_of(size: Size, m: i64, n: i64) -> i64
    requires left { IsInRange (size_kind size) m }
    requires right { IsInRange (size_kind size) n }
    requires divisor { n ≢ pos 0 }
    ensures number { result ≡ wrapped (size_kind size) (remainder m n) }
    ensures range { IsInRange (size_kind size) result }
{
    match size {
        Size::Int => i64::from(int_remainder(m as i32, n as i32)),
        Size::Long => long_remainder(m, n),
    }
}

/// The low 5 bits of a shift's right operand.
fn int_distance(n: i64) -> u32
    ensures number { result ≡ distance Kind.Int n }
    ensures below { result < 32 }
{
    n.rem_euclid(32) as u32
}

/// The low 6 bits of a shift's right operand.
fn long_distance(n: i64) -> u32
    ensures number { result ≡ distance Kind.Long n }
    ensures below { result < 64 }
{
    n.rem_euclid(64) as u32
}

fn int_left(m: i32, by: u32) -> i32
    requires { by < 32 }
    ensures { result ≡ int_wrap w32 (m *ℤ pos (2 ^ by)) }
{
    m << by
}

fn long_left(m: i64, by: u32) -> i64
    requires { by < 64 }
    ensures { result ≡ int_wrap w64 (m *ℤ pos (2 ^ by)) }
{
    m << by
}

pub fn shifted_left(size: Size, m: i64, n: i64) -> i64
    requires { IsInRange (size_kind size) m }
    ensures number { result ≡
        wrapped (size_kind size) (m *ℤ pos (2 ^ distance (size_kind size) n)) }
    ensures range { IsInRange (size_kind size) result }
{
    match size {
        Size::Int => i64::from(int_left(m as i32, int_distance(n))),
        Size::Long => long_left(m, long_distance(n)),
    }
}

/// The sign is shifted in.
pub fn shifted_right(size: Size, m: i64, n: i64) -> i64
    requires { IsInRange (size_kind size) m }
    ensures number { result ≡ int_shr m (distance (size_kind size) n) }
    ensures range { IsInRange (size_kind size) result }
{
    match size {
        Size::Int => m >> int_distance(n),
        Size::Long => m >> long_distance(n),
    }
}

fn int_zeros(m: i32, by: u32) -> i32
    requires { by < 32 }
    ensures { result ≡ int_wrap w32 (pos (cast_unsigned w32 m / 2 ^ by)) }
{
    (m.cast_unsigned() >> by).cast_signed()
}

fn long_zeros(m: i64, by: u32) -> i64
    requires { by < 64 }
    ensures { result ≡ int_wrap w64 (pos (cast_unsigned w64 m / 2 ^ by)) }
{
    (m.cast_unsigned() >> by).cast_signed()
}

/// Zeros are shifted in.
pub fn shifted_right_unsigned(size: Size, m: i64, n: i64) -> i64
    requires { IsInRange (size_kind size) m }
    ensures number { result ≡
        wrapped (size_kind size)
        (pos (cast_unsigned (width_of (size_kind size)) m / 2 ^ distance (size_kind size) n)) }
    ensures range { IsInRange (size_kind size) result }
{
    match size {
        Size::Int => i64::from(int_zeros(m as i32, int_distance(n))),
        Size::Long => long_zeros(m, long_distance(n)),
    }
}

pub fn bits_not(size: Size, n: i64) -> i64
    requires { IsInRange (size_kind size) n }
    ensures number { result ≡ neg_ℤ n -ℤ pos 1 }
    ensures range { IsInRange (size_kind size) result }
{
    !n
}

pub fn bits_and(size: Size, m: i64, n: i64) -> i64
    requires left { IsInRange (size_kind size) m }
    requires right { IsInRange (size_kind size) n }
    ensures number { result ≡ int_bit_and (width_of (size_kind size)) m n }
    ensures range { IsInRange (size_kind size) result }
{
    match size {
        Size::Int => i64::from((m as i32) & (n as i32)),
        Size::Long => m & n,
    }
}

pub fn bits_xor(size: Size, m: i64, n: i64) -> i64
    requires left { IsInRange (size_kind size) m }
    requires right { IsInRange (size_kind size) n }
    ensures number { result ≡ int_bit_xor (width_of (size_kind size)) m n }
    ensures range { IsInRange (size_kind size) result }
{
    match size {
        Size::Int => i64::from((m as i32) ^ (n as i32)),
        Size::Long => m ^ n,
    }
}

pub fn bits_or(size: Size, m: i64, n: i64) -> i64
    requires left { IsInRange (size_kind size) m }
    requires right { IsInRange (size_kind size) n }
    ensures number { result ≡ int_bit_or (width_of (size_kind size)) m n }
    ensures range { IsInRange (size_kind size) result }
{
    match size {
        Size::Int => i64::from((m as i32) | (n as i32)),
        Size::Long => m | n,
    }
}
