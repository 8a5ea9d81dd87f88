use crate::builder::{Builder, FIRST_FURTHER};
use crate::copy_builder::Guarded;
use crate::emissions::{add_conditions, add_emissions};
use crate::places::read_places;
use crate::registers::{add_register, add_registers};
use java_values::{Kind, NoMemory, Text};
use kernel_terms::{Combine, SignalInfo, Sort};
use std::alloc::Global;
use std::test::Fail;
use wire_code::{Equation, Formula};

fn signal(alloc: Global, kind: Kind, combine: Combine) -> Result<SignalInfo, NoMemory> {
    Ok(SignalInfo {
        name: Text::new(alloc, b"S")?,
        domain: 0,
        sort: Sort::Output,
        kind: Some(kind),
        combine,
    })
}

fn is_at(builder: &Builder, at: usize, wire: u32, formula: Formula) -> bool {
    match builder.equations.get(at) {
        Some(equation) => *equation == Equation { wire, formula },
        None => false,
    }
}

fn guarded(condition: u32, value: u32) -> Guarded {
    Guarded { condition, value }
}

#[test]
fn places_are_read_one_after_the_other(rt: HostRuntime) -> Result<(), Fail> {
    let mut builder = Builder::new(rt.alloc(), 50);
    read_places(&mut builder, 2, 7, 2)?;
    assert_eq!(rt; builder.equations.len(), 2);
    assert!(rt; is_at(&builder, 0, 2, Formula::Get(7)));
    assert!(rt; is_at(&builder, 1, 3, Formula::Get(8)));
    assert_eq!(rt; builder.next, 50);
    Ok(())
}

// The condition of each emission is on wire 4 or 6, and its value on wire 5 or 7.
#[test]
fn emissions_are_combined_in_order(rt: HostRuntime) -> Result<(), Fail> {
    let alloc = rt.alloc();
    let info = signal(alloc, Kind::Int, Combine::Min)?;
    let emitted: Vec<Guarded> = vec![in alloc; guarded(4, 5), guarded(6, 7)]?;
    let mut builder = Builder::new(alloc, 50);
    let n = FIRST_FURTHER;
    let folded = add_emissions(&mut builder, &info, 3, &emitted)?;
    assert_eq!(rt; folded.some, 55);
    assert_eq!(rt; folded.value, 54);
    assert_eq!(rt; builder.equations.len(), 10);
    assert!(rt; is_at(&builder, 1, n + 1, Formula::Choose(n, 3, 5)));
    assert!(rt; is_at(&builder, 2, 50, Formula::Choose(0, n + 1, 5)));
    assert!(rt; is_at(&builder, 3, 51, Formula::Choose(4, 50, 3)));
    assert!(rt; is_at(&builder, 4, 52, Formula::Or(0, 4)));
    assert!(rt; is_at(&builder, 7, 53, Formula::Choose(52, n + 3, 7)));
    assert!(rt; is_at(&builder, 8, 54, Formula::Choose(6, 53, 51)));
    assert!(rt; is_at(&builder, 9, 55, Formula::Or(52, 6)));
    let pure = add_conditions(&mut builder, &emitted)?;
    assert_eq!(rt; pure.some, 57);
    assert_eq!(rt; pure.value, 0);
    assert!(rt; is_at(&builder, 10, 56, Formula::Or(0, 4)));
    assert!(rt; is_at(&builder, 11, 57, Formula::Or(56, 6)));
    Ok(())
}

#[test]
fn a_register_has_its_first_set_that_is_on(rt: HostRuntime) -> Result<(), Fail> {
    let alloc = rt.alloc();
    let sets: Vec<Guarded> = vec![in alloc; guarded(4, 5)]?;
    let mut builder = Builder::new(alloc, 50);
    let n = FIRST_FURTHER;
    assert_eq!(rt; add_register(&mut builder, Kind::Byte, &sets)?, 50);
    assert!(rt; is_at(&builder, 0, 50, Formula::Choose(4, 5, 51)));
    assert!(rt; is_at(&builder, 1, n, Formula::Const(0)));
    assert!(rt; is_at(&builder, 2, 51, Formula::Cast(Kind::Byte, Kind::Byte, n)));
    let kinds: Vec<Kind> = vec![in alloc; Kind::Boolean]?;
    let all: Vec<Vec<Guarded>> = vec![in alloc; sets]?;
    let mut next: Vec<u32> = Vec::new(alloc);
    add_registers(&mut builder, &kinds, &all, &mut next)?;
    assert_eq!(rt; next.len(), 1);
    assert_eq!(rt; builder.equations.len(), 6);
    assert_eq!(rt; builder.next, 54);
    Ok(())
}
