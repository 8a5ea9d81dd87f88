use super::*;
use std::test::Fail;

fn equations(rt: &HostRuntime, formulas: &[Formula]) -> Result<Vec<Equation>, Fail> {
    let mut equations = Vec::new(rt.alloc());
    for (wire, formula) in formulas.iter().enumerate() {
        let wire = u32::try_from(wire)?;
        equations.push(Equation {
            wire,
            formula: *formula,
        })?;
    }
    Ok(equations)
}

#[test]
fn a_later_wire_is_refused(rt: HostRuntime) -> Result<(), Fail> {
    let early = equations(&rt, &[Formula::Not(1), Formula::Const(1)])?;
    assert!(rt; Code::new(early).is_none());
    let own = equations(&rt, &[Formula::Not(0)])?;
    assert!(rt; Code::new(own).is_none());
    let none = equations(&rt, &[])?;
    assert!(rt; Code::new(none).is_some());
    Ok(())
}

#[test]
fn a_code_has_a_wire_for_each_equation(rt: HostRuntime) -> Result<(), Fail> {
    let formulas = [
        Formula::Get(0),
        Formula::Const(-3),
        Formula::And(0, 1),
        Formula::Or(2, 0),
        Formula::Not(3),
    ];
    let Some(code) = Code::new(equations(&rt, &formulas)?) else {
        return Err("the code was refused".into());
    };
    assert_eq!(rt; code.len(), 5);
    Ok(())
}
