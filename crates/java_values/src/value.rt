ghost use Rattle.std.specs.Prelude.{◌≡◌, ◌↔◌, IsSome, IfSome, IsTrue};
ghost use Rattle.java_values.specs.Kinds.{IsInRange};
ghost use Rattle.java_values.specs.Arithmetic.{of_bool};

use crate::kind::Kind;
use std::marker::Model;

/// A kind and a whole number in its range. `false` is 0 and `true` is 1.
#[derive(Clone, Copy, Debug, PartialEq, Eq)]
pub struct Value {
    kind: Kind,
    number: i64,
}

impl Model for Value {
    ghost use Rattle.java_values.specs.Kinds.{TypedNumber, IsInRange};

    ghost Value = { TypedNumber };

    ghost view = { λ v. record { kind = v.kind; number = v.number } };

    ghost inverse = { λ v. record { kind = v.kind; number = v.number } };

    ghost invariant = { λ v. IsInRange v.kind v.number };
}

fn is_in_range(kind: Kind, n: i64) -> bool
    ensures { IsTrue result ↔ IsInRange kind n }
{
    match kind {
        Kind::Boolean => n >= 0 && n <= 1,
        Kind::Byte => n >= -0x80 && n <= 0x7f,
        Kind::Short => n >= -0x8000 && n <= 0x7fff,
        Kind::Char => n >= 0 && n <= 0xffff,
        Kind::Int => n >= -0x8000_0000 && n <= 0x7fff_ffff,
        Kind::Long => true,
    }
}

/// The value of this kind and number.
pub fn value_of(kind: Kind, number: i64) -> Value
    requires { IsInRange kind number }
    ensures kind { result.kind ≡ kind }
    ensures number { result.number ≡ number }
{
    Value { kind, number }
}

pub fn boolean(b: bool) -> Value
    ensures kind { result.kind ≡ Kind.Boolean }
    ensures number { result.number ≡ of_bool b }
{
    let number = if b { 1 } else { 0 };
    Value {
        kind: Kind::Boolean,
        number,
    }
}

/// Whether a `boolean` is true.
pub fn is_true_value(v: Value) -> bool
    requires { v.kind ≡ Kind.Boolean }
    ensures number { v.number ≡ of_bool result }
{
    v.number == 1
}

impl Value {
    /// The value of this kind and number; None exactly where the number is out of the kind's range.
    pub fn new(kind: Kind, n: i64) -> Option<Value>
        ensures some { IsSome result ↔ IsInRange kind n }
        ensures value { IfSome result (λ v. (v.kind ≡ kind) × (v.number ≡ n)) }
    {
        if is_in_range(kind, n) {
            Some(Value { kind, number: n })
        } else {
            None
        }
    }

    /// The kind.
    pub fn kind(self) -> Kind
        ensures { result ≡ self.kind }
    {
        self.kind
    }

    /// The number, which is in the kind's range.
    pub fn number(self) -> i64
        ensures number { result ≡ self.number }
        ensures range { IsInRange self.kind result }
    {
        self.number
    }
}
