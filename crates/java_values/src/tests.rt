ghost use Rattle.std.specs.Prelude.{◌≡◌, IfOk};

use super::*;
use std::test::Fail;

fn value(kind: Kind, n: i64) -> Result<Value, Fail>
    ensures { IfOk result (λ v. (v.kind ≡ kind) × (v.number ≡ n)) }
{
    let Some(value) = Value::new(kind, n) else {
        return Err("the number is out of range".into());
    };
    Ok(value)
}

#[test]
fn a_text_keeps_its_bytes(rt: HostRuntime) -> Result<(), Fail> {
    let text = Text::new(rt.alloc(), b"A1")?;
    assert_eq!(rt; text.bytes(), b"A1".as_slice());
    let longest_within = Text::new(rt.alloc(), b"abcdefghijklmn")?;
    assert_eq!(rt; longest_within.bytes(), b"abcdefghijklmn".as_slice());
    let beside = Text::new(rt.alloc(), b"abcdefghijklmno")?;
    assert_eq!(rt; beside.bytes(), b"abcdefghijklmno".as_slice());
    Ok(())
}

#[test]
fn a_value_is_in_its_range(rt: HostRuntime) -> Result<(), Fail> {
    let ranges = [
        (Kind::Boolean, -1, 0, 1, 2),
        (Kind::Byte, -129, -128, 127, 128),
        (Kind::Short, -32_769, -32_768, 32_767, 32_768),
        (Kind::Char, -1, 0, 65_535, 65_536),
        (
            Kind::Int,
            -2_147_483_649,
            -2_147_483_648,
            2_147_483_647,
            2_147_483_648,
        ),
    ];
    for (kind, below, low, high, above) in ranges {
        assert!(rt; Value::new(kind, below).is_none());
        assert_eq!(rt; value(kind, low)?.number(), low);
        assert_eq!(rt; value(kind, high)?.number(), high);
        assert!(rt; value(kind, high)?.kind() == kind);
        assert!(rt; Value::new(kind, above).is_none());
    }
    assert_eq!(rt; value(Kind::Long, i64::MIN)?.number(), i64::MIN);
    assert_eq!(rt; value(Kind::Long, i64::MAX)?.number(), i64::MAX);
    Ok(())
}

#[test]
fn operators_take_their_kinds(rt: HostRuntime) -> Result<(), Fail> {
    assert!(rt; fits1(Op1::Plus, Kind::Char) == Some(Kind::Int));
    assert!(rt; fits1(Op1::BitNot, Kind::Long) == Some(Kind::Long));
    assert!(rt; fits1(Op1::Minus, Kind::Boolean) == None);
    assert!(rt; fits1(Op1::Not, Kind::Boolean) == Some(Kind::Boolean));
    assert!(rt; fits1(Op1::Not, Kind::Int) == None);
    assert!(rt; fits2(Op2::Add, Kind::Byte, Kind::Char) == Some(Kind::Int));
    assert!(rt; fits2(Op2::Add, Kind::Int, Kind::Long) == Some(Kind::Long));
    assert!(rt; fits2(Op2::Shl, Kind::Int, Kind::Long) == Some(Kind::Int));
    assert!(rt; fits2(Op2::Ushr, Kind::Long, Kind::Byte) == Some(Kind::Long));
    assert!(rt; fits2(Op2::Less, Kind::Long, Kind::Byte) == Some(Kind::Boolean));
    assert!(rt; fits2(Op2::Less, Kind::Boolean, Kind::Boolean) == None);
    assert!(rt; fits2(Op2::Equal, Kind::Boolean, Kind::Boolean) == Some(Kind::Boolean));
    assert!(rt; fits2(Op2::Equal, Kind::Boolean, Kind::Int) == None);
    assert!(rt; fits2(Op2::And, Kind::Boolean, Kind::Boolean) == Some(Kind::Boolean));
    assert!(rt; fits2(Op2::And, Kind::Short, Kind::Long) == Some(Kind::Long));
    assert!(rt; fits2(Op2::Both, Kind::Int, Kind::Int) == None);
    assert!(rt; can_cast(Kind::Long, Kind::Char) && !can_cast(Kind::Boolean, Kind::Int));
    assert!(rt; widens(Kind::Char, Kind::Int) && !widens(Kind::Char, Kind::Short));
    assert!(rt; widens(Kind::Byte, Kind::Short) && !widens(Kind::Byte, Kind::Char));
    assert!(rt; widens(Kind::Boolean, Kind::Boolean) && !widens(Kind::Boolean, Kind::Int));
    Ok(())
}

fn shown(value: Value, kind: Kind, n: i64) -> bool {
    value.kind() == kind && value.number() == n
}

#[test]
fn results_wrap(rt: HostRuntime) -> Result<(), Fail> {
    let byte = value(Kind::Byte, -128)?;
    let char = value(Kind::Char, 65_535)?;
    let least = value(Kind::Int, -2_147_483_648)?;
    let two = value(Kind::Int, 2)?;
    let minus_one = value(Kind::Int, -1)?;
    let least_long = value(Kind::Long, i64::MIN)?;
    assert!(rt; shown(apply1(Op1::Minus, byte), Kind::Int, 128));
    assert!(rt; shown(apply1(Op1::Minus, least), Kind::Int, -2_147_483_648));
    assert!(rt; shown(apply1(Op1::Minus, least_long), Kind::Long, i64::MIN));
    assert!(rt; shown(apply1(Op1::BitNot, char), Kind::Int, -65_536));
    assert!(rt; shown(apply1(Op1::Plus, char), Kind::Int, 65_535));
    assert!(rt; shown(apply2(Op2::Add, least, minus_one), Kind::Int, 2_147_483_647));
    assert!(rt; shown(apply2(Op2::Sub, least, two), Kind::Int, 2_147_483_646));
    assert!(rt; shown(apply2(Op2::Mul, char, char), Kind::Int, -131_071));
    assert!(rt;
        shown(
            apply2(Op2::Add, least_long, minus_one),
            Kind::Long,
            i64::MAX
        )
    );
    assert!(rt;
        shown(
            apply2(Op2::Mul, least_long, minus_one),
            Kind::Long,
            i64::MIN
        )
    );
    Ok(())
}

#[test]
fn division_rounds_toward_zero_and_wraps(rt: HostRuntime) -> Result<(), Fail> {
    let least = value(Kind::Int, -2_147_483_648)?;
    let minus_one = value(Kind::Int, -1)?;
    let seven = value(Kind::Int, 7)?;
    let minus_seven = value(Kind::Int, -7)?;
    let two = value(Kind::Int, 2)?;
    let minus_two = value(Kind::Int, -2)?;
    let least_long = value(Kind::Long, i64::MIN)?;
    assert!(rt;
        shown(
            apply2(Op2::Div, least, minus_one),
            Kind::Int,
            -2_147_483_648
        )
    );
    assert!(rt; shown(apply2(Op2::Rem, least, minus_one), Kind::Int, 0));
    assert!(rt;
        shown(
            apply2(Op2::Div, least_long, minus_one),
            Kind::Long,
            i64::MIN
        )
    );
    assert!(rt; shown(apply2(Op2::Rem, least_long, minus_one), Kind::Long, 0));
    assert!(rt; shown(apply2(Op2::Div, minus_seven, two), Kind::Int, -3));
    assert!(rt; shown(apply2(Op2::Rem, minus_seven, two), Kind::Int, -1));
    assert!(rt; shown(apply2(Op2::Div, seven, minus_two), Kind::Int, -3));
    assert!(rt; shown(apply2(Op2::Rem, seven, minus_two), Kind::Int, 1));
    Ok(())
}

#[test]
fn bits_and_order_are_those_of_the_numbers(rt: HostRuntime) -> Result<(), Fail> {
    let byte = value(Kind::Byte, -128)?;
    let char = value(Kind::Char, 65_535)?;
    let minus_one = value(Kind::Int, -1)?;
    let seven = value(Kind::Int, 7)?;
    let least_long = value(Kind::Long, i64::MIN)?;
    assert!(rt; shown(apply2(Op2::And, byte, char), Kind::Int, 65_408));
    assert!(rt; shown(apply2(Op2::Xor, minus_one, seven), Kind::Int, -8));
    assert!(rt; shown(apply2(Op2::Or, byte, seven), Kind::Int, -121));
    assert!(rt; shown(apply2(Op2::Less, byte, char), Kind::Boolean, 1));
    assert!(rt; shown(apply2(Op2::LessEq, char, char), Kind::Boolean, 1));
    assert!(rt; shown(apply2(Op2::Greater, least_long, byte), Kind::Boolean, 0));
    assert!(rt; shown(apply2(Op2::GreaterEq, seven, seven), Kind::Boolean, 1));
    assert!(rt; shown(apply2(Op2::Equal, seven, minus_one), Kind::Boolean, 0));
    assert!(rt; shown(apply2(Op2::NotEqual, seven, minus_one), Kind::Boolean, 1));
    Ok(())
}

#[test]
fn shifts_use_the_low_bits_of_their_distance(rt: HostRuntime) -> Result<(), Fail> {
    let three = value(Kind::Byte, 3)?;
    let minus_nine = value(Kind::Short, -9)?;
    let long_three = value(Kind::Long, 3)?;
    let long_minus_nine = value(Kind::Long, -9)?;
    let rows = [
        (32, 3, -9, -9, 12_884_901_888, -1, 4_294_967_295),
        (33, 6, -5, 2_147_483_643, 25_769_803_776, -1, 2_147_483_647),
        (64, 3, -9, -9, 3, -9, -9),
        (65, 6, -5, 2_147_483_643, 6, -5, 9_223_372_036_854_775_803),
        (-1, -2_147_483_648, -1, 1, i64::MIN, -1, 1),
    ];
    for (n, left, right, zeros, long_left, long_right, long_zeros) in rows {
        let by = value(Kind::Long, n)?;
        assert!(rt; shown(apply2(Op2::Shl, three, by), Kind::Int, left));
        assert!(rt; shown(apply2(Op2::Shr, minus_nine, by), Kind::Int, right));
        assert!(rt; shown(apply2(Op2::Ushr, minus_nine, by), Kind::Int, zeros));
        assert!(rt; shown(apply2(Op2::Shl, long_three, by), Kind::Long, long_left));
        assert!(rt;
            shown(
                apply2(Op2::Shr, long_minus_nine, by),
                Kind::Long,
                long_right
            )
        );
        assert!(rt;
            shown(
                apply2(Op2::Ushr, long_minus_nine, by),
                Kind::Long,
                long_zeros
            )
        );
    }
    Ok(())
}

#[test]
fn booleans_are_zero_and_one(rt: HostRuntime) -> Result<(), Fail> {
    for (m, n) in [(false, false), (false, true), (true, false), (true, true)] {
        let a = value(Kind::Boolean, i64::from(m))?;
        let b = value(Kind::Boolean, i64::from(n))?;
        assert!(rt; shown(apply1(Op1::Not, a), Kind::Boolean, i64::from(!m)));
        assert!(rt; shown(apply2(Op2::And, a, b), Kind::Boolean, i64::from(m && n)));
        assert!(rt; shown(apply2(Op2::Both, a, b), Kind::Boolean, i64::from(m && n)));
        assert!(rt; shown(apply2(Op2::Or, a, b), Kind::Boolean, i64::from(m || n)));
        assert!(rt; shown(apply2(Op2::Either, a, b), Kind::Boolean, i64::from(m || n)));
        assert!(rt; shown(apply2(Op2::Xor, a, b), Kind::Boolean, i64::from(m != n)));
        assert!(rt;
            shown(
                apply2(Op2::NotEqual, a, b),
                Kind::Boolean,
                i64::from(m != n)
            )
        );
        assert!(rt; shown(apply2(Op2::Equal, a, b), Kind::Boolean, i64::from(m == n)));
        assert!(rt; shown(cast(Kind::Boolean, a), Kind::Boolean, i64::from(m)));
    }
    Ok(())
}

#[test]
fn casts_keep_low_bits_of_every_kind(rt: HostRuntime) -> Result<(), Fail> {
    let long = value(Kind::Long, 0x1_8000_ff80)?;
    assert!(rt; shown(cast(Kind::Byte, long), Kind::Byte, -128));
    assert!(rt; shown(cast(Kind::Short, long), Kind::Short, -128));
    assert!(rt; shown(cast(Kind::Char, long), Kind::Char, 0xff80));
    assert!(rt; shown(cast(Kind::Int, long), Kind::Int, -0x7fff_0080));
    assert!(rt; shown(cast(Kind::Long, long), Kind::Long, 0x1_8000_ff80));
    let minus_one = value(Kind::Byte, -1)?;
    assert!(rt; shown(cast(Kind::Char, minus_one), Kind::Char, 65_535));
    assert!(rt; shown(cast(Kind::Long, minus_one), Kind::Long, -1));
    Ok(())
}
