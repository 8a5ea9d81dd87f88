ghost use Rattle.std.specs.Prelude.{◌≡◌, IfOk, None, length, pos};
ghost use Rattle.java_values.specs.declared.kind.Kind.TheVariants as kind;
ghost use Rattle.kernel_terms.specs.Expressions.{Literal};
ghost use Rattle.kernel_terms.specs.Statements as statements;
ghost use Rattle.kernel_terms.specs.Statements.{statement};

use crate::builder::{Builder, FIRST_FURTHER};
use crate::change::Change;
use crate::copy_builder::{CopyBuilder, Given, Guarded, Made};
use crate::expression::{test, value};
use crate::starting::start;
use crate::statuses::{add_combined, give_status, give_trap, give_weak_abort};
use crate::variables::{join, set_wire, undo};
use crate::wire_tables::WireTables;
use java_values::{Kind, NoMemory, Op1, Op2};
use kernel_terms::{Combine, Expr, ExprForm, Form, SigTest, Tables, Term};
use sqlite_items::{Boxed, Items};
use std::alloc::Global;
use std::test::Fail;
use wire_code::{Equation, Formula};

// Variable 1 is on wire 11, signal 0 on the wires 20 (presence) and 30 (value), and channel 0 on
// wire 40.
fn tables(alloc: Global) -> Result<WireTables, NoMemory>
    ensures { IfOk result (λ tables. length tables.variables.items ≡ 2) }
{
    Ok(WireTables {
        variables: vec![in alloc; 10, 11]?,
        present: vec![in alloc; 20]?,
        value: vec![in alloc; 30]?,
        last: vec![in alloc; 40]?,
    })
}

fn node(alloc: Global, kind: Kind, form: ExprForm) -> Result<Boxed<Expr>, NoMemory> {
    Ok(Boxed::new(alloc, Expr { kind, form })?)
}

// `(byte)(v - (5 + -#C))`, where v is `short`
fn difference(alloc: Global) -> Result<Expr, NoMemory> {
    let last = node(alloc, Kind::Int, ExprForm::Channel(0))?;
    let minus = node(alloc, Kind::Int, ExprForm::Unary(Op1::Minus, last))?;
    let five = node(alloc, Kind::Int, ExprForm::Literal(5))?;
    let sum = node(alloc, Kind::Int, ExprForm::Binary(Op2::Add, five, minus))?;
    let v = node(alloc, Kind::Short, ExprForm::Variable(1))?;
    let difference = node(alloc, Kind::Int, ExprForm::Binary(Op2::Sub, v, sum))?;
    Ok(Expr {
        kind: Kind::Byte,
        form: ExprForm::Cast(difference),
    })
}

// `v % -2`, where v is `short`
fn remainder(alloc: Global) -> Result<Expr, NoMemory> {
    let v = node(alloc, Kind::Short, ExprForm::Variable(1))?;
    let two = node(alloc, Kind::Int, ExprForm::Literal(2))?;
    let minus = node(alloc, Kind::Int, ExprForm::Unary(Op1::Minus, two))?;
    Ok(Expr {
        kind: Kind::Int,
        form: ExprForm::Binary(Op2::Rem, v, minus),
    })
}

fn is_at(builder: &Builder, at: usize, wire: u32, formula: Formula) -> bool {
    match builder.equations.get(at) {
        Some(equation) => *equation == Equation { wire, formula },
        None => false,
    }
}

#[test]
fn operands_come_before_their_operator(rt: HostRuntime) -> Result<(), Fail> {
    let tables = tables(rt.alloc())?;
    let e = difference(rt.alloc())?;
    let mut builder = Builder::new(rt.alloc(), 50);
    let n = FIRST_FURTHER;
    assert_eq!(rt; value(&mut builder, &tables, &e)?, n + 4);
    assert_eq!(rt; builder.equations.len(), 5);
    assert!(rt; is_at(&builder, 0, n, Formula::Const(5)));
    assert!(rt;
        is_at(
            &builder,
            1,
            n + 1,
            Formula::Apply1(Op1::Minus, Kind::Int, 40)
        )
    );
    assert!(rt;
        is_at(
            &builder,
            2,
            n + 2,
            Formula::Apply2(Op2::Add, Kind::Int, Kind::Int, n, n + 1)
        )
    );
    let sub = Formula::Apply2(Op2::Sub, Kind::Short, Kind::Int, 11, n + 2);
    assert!(rt; is_at(&builder, 3, n + 3, sub));
    assert!(rt;
        is_at(
            &builder,
            4,
            n + 4,
            Formula::Cast(Kind::Int, Kind::Byte, n + 3)
        )
    );
    Ok(())
}

// `!s || s`, and a signal past the table
#[test]
fn a_divisor_is_one_constant(rt: HostRuntime) -> Result<(), Fail> {
    let tables = tables(rt.alloc())?;
    let e = remainder(rt.alloc())?;
    let mut builder = Builder::new(rt.alloc(), 50);
    let n = FIRST_FURTHER;
    assert_eq!(rt; value(&mut builder, &tables, &e)?, n + 1);
    assert_eq!(rt; builder.equations.len(), 2);
    assert!(rt; is_at(&builder, 0, n, Formula::Const(-2)));
    let rem = Formula::Apply2(Op2::Rem, Kind::Short, Kind::Int, 11, n);
    assert!(rt; is_at(&builder, 1, n + 1, rem));
    Ok(())
}

#[test]
fn tests_read_presence(rt: HostRuntime) -> Result<(), Fail> {
    let tables = tables(rt.alloc())?;
    let alloc = rt.alloc();
    let absent = SigTest::Not(Boxed::new(alloc, SigTest::Signal(0))?);
    let either = SigTest::Either(
        Boxed::new(alloc, absent)?,
        Boxed::new(alloc, SigTest::Signal(0))?,
    );
    let mut builder = Builder::new(alloc, 50);
    let n = FIRST_FURTHER;
    assert_eq!(rt; test(&mut builder, &tables, &either)?, n + 1);
    assert!(rt; is_at(&builder, 0, n, Formula::Not(20)));
    assert!(rt; is_at(&builder, 1, n + 1, Formula::Or(n, 20)));
    assert_eq!(rt; test(&mut builder, &tables, &SigTest::Signal(7))?, 0);
    Ok(())
}

#[test]
fn statuses_and_combinations_are_written(rt: HostRuntime) -> Result<(), Fail> {
    let mut builder = Builder::new(rt.alloc(), 50);
    let n = FIRST_FURTHER;
    give_status(&mut builder, 8, 1, 2)?;
    assert!(rt; is_at(&builder, 0, n, Formula::Const(3)));
    assert!(rt; is_at(&builder, 1, n + 1, Formula::Apply1(Op1::Plus, Kind::Int, n)));
    assert!(rt; is_at(&builder, 2, 8, Formula::Choose(1, n + 1, 0)));
    give_trap(&mut builder, 9, 8)?;
    assert_eq!(rt; builder.equations.len(), 13);
    assert!(rt; is_at(&builder, 12, 9, Formula::Choose(n + 3, n + 8, n + 10)));
    give_weak_abort(&mut builder, 10, 3, 9)?;
    assert_eq!(rt; builder.equations.len(), 19);
    assert!(rt; is_at(&builder, 18, 10, Formula::Choose(n + 13, n + 15, 9)));
    let sum = add_combined(&mut builder, Combine::Add, Kind::Byte, 30, 31)?;
    assert_eq!(rt; sum, n + 17);
    assert!(rt;
        is_at(
            &builder,
            20,
            n + 17,
            Formula::Cast(Kind::Int, Kind::Byte, n + 16)
        )
    );
    let greatest = add_combined(&mut builder, Combine::Max, Kind::Byte, 30, 31)?;
    assert!(rt; is_at(&builder, 22, greatest, Formula::Choose(n + 18, 31, 30)));
    Ok(())
}

#[test]
fn wires_run_out(rt: HostRuntime) -> Result<(), Fail> {
    let mut builder = Builder::new(rt.alloc(), FIRST_FURTHER - 2);
    assert_eq!(rt; builder.take_own(2)?, FIRST_FURTHER - 2);
    assert!(rt; builder.take_own(1).is_err());
    assert_eq!(rt; builder.take_further(FIRST_FURTHER - 1)?, FIRST_FURTHER);
    assert!(rt; builder.add(Formula::Const(0)).is_err());
    Ok(())
}

fn is_logged(changes: &[Change], at: usize, variable: u32, before: u32) -> bool {
    match changes.get(at) {
        Some(change) => change.variable == variable && change.before == before,
        None => false,
    }
}

// The first of two alternatives assigns variables 1, 0 and 1 again, and the second, whose own wires
// begin with 20, variables 1 and 2.
#[test]
fn variables_of_two_alternatives(rt: HostRuntime) -> Result<(), Fail> {
    let mut wires: Vec<u32> = vec![in rt.alloc(); 1, 2, 3, 4]?;
    let mut changes: Vec<Change> = Vec::new(rt.alloc());
    let mut builder = Builder::new(rt.alloc(), 30);
    set_wire(&mut wires, &mut changes, 3, 9)?;
    set_wire(&mut wires, &mut changes, 1, 10)?;
    set_wire(&mut wires, &mut changes, 0, 11)?;
    set_wire(&mut wires, &mut changes, 1, 12)?;
    let left = undo(rt.alloc(), &mut wires, &mut changes, 1)?;
    assert!(rt; &*wires == [1, 2, 3, 9].as_slice());
    assert_eq!(rt; changes.len(), 1);
    set_wire(&mut wires, &mut changes, 1, 20)?;
    set_wire(&mut wires, &mut changes, 2, 21)?;
    join(&mut builder, &mut wires, &mut changes, 5, &left, 20)?;
    assert!(rt; &*wires == [11, 30, 21, 9].as_slice());
    assert_eq!(rt; builder.next, 31);
    assert_eq!(rt; builder.equations.len(), 1);
    assert!(rt; is_at(&builder, 0, 30, Formula::Choose(5, 20, 12)));
    assert_eq!(rt; changes.len(), 5);
    assert!(rt; is_logged(&changes, 3, 0, 1));
    assert!(rt; is_logged(&changes, 4, 1, 20));
    Ok(())
}

// One signal and one register, and own wires from 50 on.
fn copy_builder(alloc: Global) -> Result<CopyBuilder, NoMemory>
    ensures variables { IfOk result (λ b. length b.wires.variables.items ≡ 2) }
    ensures signals { IfOk result (λ b. length b.emits.items ≡ 1) }
    ensures registers { IfOk result (λ b. length b.sets.items ≡ 1) }
{
    Ok(CopyBuilder {
        builder: Builder::new(alloc, 50),
        wires: tables(alloc)?,
        changes: Vec::new(alloc),
        emits: vec![in alloc; Vec::new(alloc)]?,
        sets: vec![in alloc; Vec::new(alloc)]?,
    })
}

fn no_tables(alloc: Global) -> Tables {
    Tables {
        signals: Items::from_vec(Vec::new(alloc)),
        channels: Items::from_vec(Vec::new(alloc)),
        variables: Items::from_vec(Vec::new(alloc)),
    }
}

fn at_start(form: Form) -> Term
    ensures { result.form ≡ form }
{
    Term { at: 0, form }
}

fn emission() -> Term
    ensures { statement result ≡ statements.Emit 0 None }
{
    at_start(Form::Emit {
        signal: 0,
        value: None,
    })
}

fn assignment() -> Term
    ensures { statement result ≡ statements.Assign 1 (Literal kind.Short (pos 5)) }
{
    let five = Expr {
        kind: Kind::Short,
        form: ExprForm::Literal(5),
    };
    at_start(Form::Assign {
        var: 1,
        value: five,
    })
}

fn in_turn(alloc: Global, p: Term, q: Term, r: Term) -> Result<Term, NoMemory>
    ensures { IfOk result (λ t. statement t ≡ statements.Seq (statement p) (statements.Seq
        (statement q) (statement r))) }
{
    let mut parts = Vec::new(alloc);
    parts.push(p)?;
    parts.push(q)?;
    parts.push(r)?;
    Ok(at_start(Form::Seq(Items::from_vec(parts))))
}

// `while(true) { emit S; v = 5; pause; }`
fn turns(alloc: Global) -> Result<Term, NoMemory>
    ensures { IfOk result (λ t. statement t ≡ statements.Loop (statements.Seq
        (statements.Emit 0 None) (statements.Seq
        (statements.Assign 1 (Literal kind.Short (pos 5))) statements.Pause))) }
{
    let body = in_turn(alloc, emission(), assignment(), at_start(Form::Pause))?;
    Ok(at_start(Form::Loop(Boxed::new(alloc, body)?)))
}

fn status(op: Op2, a: u32, b: u32) -> Formula {
    Formula::Apply2(op, Kind::Int, Kind::Int, a, b)
}

// What `go` on wire 2 and `keep` on wire 3 give.
fn first_operations(alloc: Global) -> Result<Vec<(u32, Formula)>, NoMemory> {
    let n = FIRST_FURTHER;
    Ok(vec![in alloc;
        (n, Formula::Const(1)),
        (n + 1, Formula::Apply1(Op1::Plus, Kind::Int, n)),
        (53, Formula::Choose(2, n + 1, 0)),
        (54, Formula::Const(0)),
        (n + 2, Formula::Const(1)),
        (52, status(Op2::Equal, 53, n + 2)),
        (n + 3, Formula::Const(1)),
        (n + 4, Formula::Apply1(Op1::Plus, Kind::Int, n + 3)),
        (58, Formula::Choose(52, n + 4, 0)),
        (n + 5, Formula::Const(5)),
        (59, Formula::Choose(0, n + 5, n + 5)),
        (60, Formula::Choose(52, 59, 11)),
    ]?)
}

fn other_operations(alloc: Global) -> Result<Vec<(u32, Formula)>, NoMemory> {
    let n = FIRST_FURTHER;
    Ok(vec![in alloc;
        (n + 6, Formula::Const(1)),
        (57, status(Op2::Equal, 58, n + 6)),
        (n + 7, Formula::Const(2)),
        (n + 8, Formula::Apply1(Op1::Plus, Kind::Int, n + 7)),
        (61, Formula::Choose(57, n + 8, 0)),
        (62, Formula::And(57, 3)),
        (n + 9, status(Op2::Less, 61, 58)),
        (55, Formula::Choose(n + 9, 58, 61)),
        (n + 10, status(Op2::Less, 55, 53)),
        (50, Formula::Choose(n + 10, 53, 55)),
    ]?)
}

fn stand_from(builder: &Builder, first: usize, operations: &[(u32, Formula)]) -> bool {
    for (i, (wire, formula)) in operations.iter().enumerate() {
        if !is_at(builder, first.saturating_add(i), *wire, *formula) {
            return false;
        }
    }
    true
}

fn is_only(list: &[Guarded], condition: u32, value: u32) -> bool {
    match list {
        [one] => one.condition == condition && one.value == value,
        _ => false,
    }
}

fn has_all_operations(builder: &Builder, alloc: Global) -> Result<bool, NoMemory> {
    let first = first_operations(alloc)?;
    let other = other_operations(alloc)?;
    Ok(stand_from(builder, 0, &first) && stand_from(builder, 12, &other))
}

fn has_changed(b: &CopyBuilder) -> bool {
    match b.changes.as_slice() {
        [change] => change.variable == 1 && change.before == 11,
        _ => false,
    }
}

fn has_wires(b: &CopyBuilder) -> bool {
    match b.wires.variables.as_slice() {
        [x, y] => *x == 10 && *y == 60,
        _ => false,
    }
}

fn has_set(b: &CopyBuilder) -> bool {
    match b.sets.as_slice() {
        [list] => is_only(list.as_slice(), 62, 62),
        _ => false,
    }
}

fn has_emitted(b: &CopyBuilder) -> bool {
    match b.emits.as_slice() {
        [list] => is_only(list.as_slice(), 2, 54),
        _ => false,
    }
}

fn start_turns(b: &mut CopyBuilder, alloc: Global) -> Result<Made, NoMemory>
    requires variables { length b.old.wires.variables.items ≡ 2 }
    requires signals { length b.old.emits.items ≡ 1 }
    requires registers { length b.old.sets.items ≡ 1 }
{
    let tables = no_tables(alloc);
    let term = turns(alloc)?;
    let given = Given {
        go: 2,
        hold: 0,
        keep: 3,
        register: 0,
    };
    start(b, alloc, &tables, &term, given)
}

#[test]
fn parts_of_a_sequence_start_in_turn(rt: HostRuntime) -> Result<(), Fail> {
    let alloc = rt.alloc();
    let mut b = copy_builder(alloc)?;
    let made = start_turns(&mut b, alloc)?;
    assert!(rt; made.status == 50 && made.live == 0 && !made.ends);
    assert!(rt; b.builder.equations.len() == 22 && b.builder.next == 63);
    assert!(rt; has_all_operations(&b.builder, alloc)?);
    assert!(rt; has_changed(&b) && has_wires(&b));
    assert!(rt; has_set(&b) && has_emitted(&b));
    Ok(())
}
