use super::*;
use crate::operation::{casted, on_one, on_two};
use java_values::{Kind, Op1, Op2};
use std::test::Fail;
use wire_code::{Equation, Formula};

fn equations(rt: &HostRuntime, formulas: &[Formula]) -> Result<Vec<Equation>, Fail> {
    let mut equations = Vec::new(rt.alloc());
    for (wire, formula) in formulas.iter().enumerate() {
        let wire = u32::try_from(wire)?;
        equations.push(Equation {
            wire,
            formula: *formula,
        })?;
    }
    Ok(equations)
}

#[test]
fn a_later_wire_is_refused(rt: HostRuntime) -> Result<(), Fail> {
    let early = equations(&rt, &[Formula::Not(1), Formula::Const(1)])?;
    assert!(rt; Code::new(early).is_none());
    let own = equations(&rt, &[Formula::Cast(Kind::Int, Kind::Byte, 0)])?;
    assert!(rt; Code::new(own).is_none());
    let condition = equations(&rt, &[Formula::Get(0), Formula::Choose(1, 0, 0)])?;
    assert!(rt; Code::new(condition).is_none());
    let none = equations(&rt, &[])?;
    assert!(rt; Code::new(none).is_some());
    Ok(())
}

#[test]
fn a_code_has_a_wire_for_each_equation(rt: HostRuntime) -> Result<(), Fail> {
    let formulas = [
        Formula::Get(0),
        Formula::Const(-3),
        Formula::Apply2(Op2::Add, Kind::Int, Kind::Int, 0, 1),
        Formula::Cast(Kind::Int, Kind::Byte, 2),
        Formula::Apply1(Op1::Minus, Kind::Byte, 3),
        Formula::Choose(0, 1, 4),
    ];
    let Some(code) = Code::new(equations(&rt, &formulas)?) else {
        return Err("the code was refused".into());
    };
    assert_eq!(rt; code.len(), 6);
    Ok(())
}

#[test]
fn operations_are_javas(rt: HostRuntime) -> Result<(), Fail> {
    assert_eq!(rt; on_one(Op1::Minus, Kind::Byte, -128), 128);
    assert_eq!(rt; on_two(Op2::Shl, Kind::Int, Kind::Long, 1, 33), 2);
    assert_eq!(rt; on_two(Op2::Rem, Kind::Int, Kind::Int, -7, 2), -1);
    assert_eq!(rt; casted(Kind::Int, Kind::Byte, 200), -56);
    Ok(())
}
