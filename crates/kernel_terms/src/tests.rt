use super::*;
use java_values::{Kind, NoMemory, Op1, Op2, Text};
use sqlite_items::{Boxed, Items};
use std::alloc::Global;
use std::test::Fail;

#[test]
fn a_system_keeps_its_parts(rt: HostRuntime) -> Result<(), Fail> {
    let mut terms = Vec::new(rt.alloc());
    terms.push(Term {
        at: 7,
        form: Form::Pause,
    })?;
    let tables = Tables {
        signals: Items::new(rt.alloc()),
        channels: Items::new(rt.alloc()),
        variables: Items::new(rt.alloc()),
    };
    let system = System::new(tables, Items::from_vec(terms));
    let shared = threads_share_systems(&system);
    assert_eq!(rt; shared.domains().len(), 1);
    assert_eq!(rt; shared.tables().signals.len(), 0);
    Ok(())
}

// `(byte)(-#C + x)`
fn cast_sum(alloc: Global) -> Result<Expr, NoMemory> {
    let channel = Boxed::new(
        alloc,
        Expr {
            kind: Kind::Int,
            form: ExprForm::Channel(3),
        },
    )?;
    let negated = Boxed::new(
        alloc,
        Expr {
            kind: Kind::Int,
            form: ExprForm::Unary(Op1::Minus, channel),
        },
    )?;
    let variable = Boxed::new(
        alloc,
        Expr {
            kind: Kind::Short,
            form: ExprForm::Variable(1),
        },
    )?;
    let sum = Boxed::new(
        alloc,
        Expr {
            kind: Kind::Int,
            form: ExprForm::Binary(Op2::Add, negated, variable),
        },
    )?;
    Ok(Expr {
        kind: Kind::Byte,
        form: ExprForm::Cast(sum),
    })
}

fn is_negated_channel(e: &Expr) -> bool {
    let ExprForm::Unary(Op1::Minus, inner) = &e.form else {
        return false;
    };
    matches!(inner.get().form, ExprForm::Channel(3))
}

fn is_cast_sum(e: &Expr) -> bool {
    let ExprForm::Cast(sum) = &e.form else {
        return false;
    };
    let ExprForm::Binary(Op2::Add, left, right) = &sum.get().form else {
        return false;
    };
    e.kind == Kind::Byte
        && is_negated_channel(left.get())
        && matches!(right.get().form, ExprForm::Variable(1))
}

#[test]
fn a_copy_has_every_node(rt: HostRuntime) -> Result<(), Fail> {
    let copy = cast_sum(rt.alloc())?.copy(rt.alloc())?;
    assert!(rt; is_cast_sum(&copy));
    Ok(())
}
