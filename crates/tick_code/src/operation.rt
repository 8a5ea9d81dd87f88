//! Java's operations on numbers that lie in their kinds.

ghost use Rattle.std.specs.Prelude.{◌≡◌, true, IsSome};
ghost use Rattle.java_values.specs.Kinds.{IsInRange, result_kind1, result_kind2, is_castable};
ghost use Rattle.java_values.specs.Arithmetic.{HasDivisor};
ghost use Rattle.java_values.specs.Arithmetic as numbers;

use java_values::{Kind, Op1, Op2, Value, apply1, apply2, cast};

fn value_of(kind: Kind, n: i64) -> Value
    requires { IsInRange kind n }
    ensures kind { result.kind ≡ kind }
    ensures number { result.number ≡ n }
{
    match Value::new(kind, n) {
        Some(v) => v,
        None => unreachable!(),
    }
}

pub fn on_one(op: Op1, kind: Kind, n: i64) -> i64
    requires fits { IsSome (result_kind1 op kind) }
    requires range { IsInRange kind n }
    ensures { result ≡ numbers.applied1 op kind n }
{
    apply1(op, value_of(kind, n)).number()
}

pub fn on_two(op: Op2, left: Kind, right: Kind, m: i64, n: i64) -> i64
    requires fits { IsSome (result_kind2 op left right) }
    requires left { IsInRange left m }
    requires right { IsInRange right n }
    requires divisor { HasDivisor op n }
    ensures { result ≡ numbers.applied2 op left m right n }
{
    apply2(op, value_of(left, m), value_of(right, n)).number()
}

pub fn casted(from: Kind, to: Kind, n: i64) -> i64
    requires fits { is_castable from to ≡ true }
    requires range { IsInRange from n }
    ensures { result ≡ numbers.cast_to to n }
{
    cast(to, value_of(from, n)).number()
}
