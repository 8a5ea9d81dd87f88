ghost use Rattle.std.specs.Prelude.{◌≡◌, MatchResult, map};
ghost use Rattle.java_types.specs.definitions.Checks.{fine, IsFirst, all_checked, after};
ghost use Rattle.java_types.specs.definitions.TypedTrees.{value_for, condition_of, emission_of, update_of, checked_form, checked_block, checked_stmt, checked_other, combination_failures};

use crate::conversions::{condition, given, updated};
use crate::expressions::expression;
use crate::failure::{TypeError, TypeFailure};
use crate::lists::{add, boxed_block};
use crate::ports::{combination_failure, copied_signal};
use crate::tables::{channel_kind, signal_kind, variable_kind};
use crate::test_copies::copied;
use java_values::{Kind, Op2};
use kernel_terms::{Expr, Tables};
use sj_ast::{Block, Form, Raw, Signal, Stmt};
use sj_names::TableEntry;
use sqlite_items::{Boxed, Items};
use std::alloc::Global;

/// The expression, given to something of the kind.
#[tactic(auto, using(crate::proofs::CheckLemmas::checks))]
fn value_for(
    alloc: Global,
    tables: &Tables,
    kind: Kind,
    value: &Raw<TableEntry>,
) -> Result<Expr, TypeError>
    ensures { MatchResult result (λ e. value_for tables.now kind value.now ≡
        fine e) (IsFirst (value_for tables.now kind value.now)) }
{
    let operand = expression(alloc, tables, value)?;
    given(alloc, kind, operand)
}

#[tactic(auto, using(crate::proofs::CheckLemmas::checks))]
fn condition_of(alloc: Global, tables: &Tables, value: &Raw<TableEntry>) -> Result<Expr, TypeError>
    ensures { MatchResult result (λ e. condition_of tables.now value.now ≡
        fine e) (IsFirst (condition_of tables.now value.now)) }
{
    let operand = expression(alloc, tables, value)?;
    condition(operand)
}

/// The value with which a signal is emitted, if it has a kind.
#[tactic(auto, using(crate::proofs::CheckLemmas::checks))]
fn emission_of(
    alloc: Global,
    tables: &Tables,
    name_at: u32,
    signal: u32,
    value: &Option<Raw<TableEntry>>,
) -> Result<Option<Expr>, TypeError>
    ensures { MatchResult result (λ o. emission_of tables.now name_at signal value.now ≡
        fine o) (IsFirst (emission_of tables.now name_at signal value.now)) }
{
    match signal_kind(tables, signal) {
        Some(kind) => match value {
            Some(value) => Ok(Some(value_for(alloc, tables, kind, value)?)),
            None => Err(TypeError::Failed(TypeFailure::Mismatch(name_at))),
        },
        None => match value {
            Some(_) => Err(TypeError::Failed(TypeFailure::Mismatch(name_at))),
            None => Ok(None),
        },
    }
}

/// The new value of a variable behind a compound assignment.
#[tactic(auto, using(crate::proofs::CheckLemmas::checks))]
fn update_of(
    alloc: Global,
    tables: &Tables,
    variable: u32,
    sign_at: u32,
    op: Op2,
    value: &Raw<TableEntry>,
) -> Result<Expr, TypeError>
    ensures { MatchResult result (λ e. update_of tables.now variable sign_at op value.now ≡
        fine e) (IsFirst (update_of tables.now variable sign_at op value.now)) }
{
    let operand = expression(alloc, tables, value)?;
    updated(
        alloc,
        variable_kind(tables, variable),
        variable,
        sign_at,
        op,
        operand,
    )
}

/// A local signal, whose operator fits its kind.
fn declaration(signal: &Signal<u32>) -> Result<Signal<u32>, TypeError>
    ensures { MatchResult result (λ s. after (combination_failures signal.now.valued)
        (fine signal.now) ≡
        fine s) (IsFirst (after (combination_failures signal.now.valued) (fine signal.now))) }
{
    match combination_failure(signal.valued) {
        Some(failure) => Err(TypeError::Failed(failure)),
        None => Ok(copied_signal(signal)),
    }
}

#[cycle(typing)]
fn statement(
    alloc: Global,
    tables: &Tables,
    statement: &Stmt<u32, Raw<TableEntry>>,
) -> Result<Stmt<u32, Expr>, TypeError>
    ensures { MatchResult result (λ s. checked_stmt tables.now statement.now ≡
        fine s) (IsFirst (checked_stmt tables.now statement.now)) }
{
    let form = form(alloc, tables, &statement.form)?;
    Ok(Stmt {
        at: statement.at,
        form,
    })
}

// Most statements have these forms. For the others there is more to set aside.
#[cycle(typing)]
#[tactic(auto, using(crate::proofs::CheckLemmas::checks))]
fn form(
    alloc: Global,
    tables: &Tables,
    form: &Form<u32, Raw<TableEntry>>,
) -> Result<Form<u32, Expr>, TypeError>
    ensures { MatchResult result (λ f. checked_form tables.now form.now ≡
        fine f) (IsFirst (checked_form tables.now form.now)) }
{
    match form {
        Form::Empty => Ok(Form::Empty),
        Form::Pause => Ok(Form::Pause),
        _ => larger_form(alloc, tables, form),
    }
}

#[cycle(typing)]
#[tactic(auto, using(crate::proofs::CheckLemmas::checks))]
fn larger_form(
    alloc: Global,
    tables: &Tables,
    form: &Form<u32, Raw<TableEntry>>,
) -> Result<Form<u32, Expr>, TypeError>
    ensures { MatchResult result (λ f. checked_form tables.now form.now ≡
        fine f) (IsFirst (checked_form tables.now form.now)) }
{
    match form {
        Form::Empty => Ok(Form::Empty),
        Form::Pause => Ok(Form::Pause),
        Form::Halt => Ok(Form::Halt),
        Form::Par { first, others } => {
            let first = block(alloc, tables, first)?;
            let others = blocks(alloc, tables, others.as_slice())?;
            Ok(Form::Par { first, others })
        }
        Form::Emit {
            name_at,
            name,
            value,
        } => {
            let value = emission_of(alloc, tables, *name_at, *name, value)?;
            Ok(Form::Emit {
                name_at: *name_at,
                name: *name,
                value,
            })
        }
        Form::Sustain {
            name_at,
            name,
            value,
        } => {
            let value = emission_of(alloc, tables, *name_at, *name, value)?;
            Ok(Form::Sustain {
                name_at: *name_at,
                name: *name,
                value,
            })
        }
        Form::Declare(signal) => Ok(Form::Declare(declaration(signal)?)),
        Form::Variable {
            kind,
            name_at,
            name,
            value,
        } => {
            let value = value_for(alloc, tables, *kind, value)?;
            Ok(Form::Variable {
                kind: *kind,
                name_at: *name_at,
                name: *name,
                value,
            })
        }
        Form::Assign {
            name_at,
            name,
            value,
        } => {
            let value = value_for(alloc, tables, variable_kind(tables, *name), value)?;
            Ok(Form::Assign {
                name_at: *name_at,
                name: *name,
                value,
            })
        }
        Form::Update {
            name_at,
            name,
            sign_at,
            op,
            value,
        } => {
            let value = update_of(alloc, tables, *name, *sign_at, *op, value)?;
            Ok(Form::Assign {
                name_at: *name_at,
                name: *name,
                value,
            })
        }
        Form::If { cond, yes, other } => {
            let cond = condition_of(alloc, tables, cond)?;
            let yes = boxed_block(alloc, block(alloc, tables, yes.get())?)?;
            let other = other_block(alloc, tables, other)?;
            Ok(Form::If { cond, yes, other })
        }
        Form::Present { test, yes, other } => {
            let test = copied(alloc, test)?;
            let yes = boxed_block(alloc, block(alloc, tables, yes.get())?)?;
            let other = other_block(alloc, tables, other)?;
            Ok(Form::Present { test, yes, other })
        }
        Form::While(body) => Ok(Form::While(block(alloc, tables, body)?)),
        Form::Abort {
            weak,
            immediate,
            test,
            body,
        } => {
            let test = copied(alloc, test)?;
            let body = block(alloc, tables, body)?;
            Ok(Form::Abort {
                weak: *weak,
                immediate: *immediate,
                test,
                body,
            })
        }
        Form::Suspend {
            immediate,
            test,
            body,
        } => {
            let test = copied(alloc, test)?;
            let body = block(alloc, tables, body)?;
            Ok(Form::Suspend {
                immediate: *immediate,
                test,
                body,
            })
        }
        Form::Trap {
            name_at,
            name,
            body,
        } => {
            let body = block(alloc, tables, body)?;
            Ok(Form::Trap {
                name_at: *name_at,
                name: *name,
                body,
            })
        }
        Form::Exit { name_at, name } => Ok(Form::Exit {
            name_at: *name_at,
            name: *name,
        }),
        Form::Send {
            name_at,
            name,
            value,
        } => {
            let value = value_for(alloc, tables, channel_kind(tables, *name), value)?;
            Ok(Form::Send {
                name_at: *name_at,
                name: *name,
                value,
            })
        }
        Form::Receive { name_at, name } => Ok(Form::Receive {
            name_at: *name_at,
            name: *name,
        }),
        Form::Await { immediate, test } => {
            let test = copied(alloc, test)?;
            Ok(Form::Await {
                immediate: *immediate,
                test,
            })
        }
        Form::Every {
            immediate,
            test,
            body,
        } => {
            let test = copied(alloc, test)?;
            let body = block(alloc, tables, body)?;
            Ok(Form::Every {
                immediate: *immediate,
                test,
                body,
            })
        }
        Form::Loop { body, test } => {
            let body = block(alloc, tables, body)?;
            let test = copied(alloc, test)?;
            Ok(Form::Loop { body, test })
        }
    }
}

#[cycle(typing)]
fn other_block(
    alloc: Global,
    tables: &Tables,
    given: &Option<Boxed<Block<u32, Raw<TableEntry>>>>,
) -> Result<Option<Boxed<Block<u32, Expr>>>, TypeError>
    ensures { MatchResult result (λ o. checked_other tables.now given.now ≡
        fine o) (IsFirst (checked_other tables.now given.now)) }
{
    match given {
        Some(given) => {
            let given = block(alloc, tables, given.get())?;
            Ok(Some(boxed_block(alloc, given)?))
        }
        None => Ok(None),
    }
}

#[cycle(typing)]
#[tactic(auto, using(crate::proofs::ListLemmas::lists))]
pub fn blocks(
    alloc: Global,
    tables: &Tables,
    blocks: &[Block<u32, Raw<TableEntry>>],
) -> Result<Items<Block<u32, Expr>>, TypeError>
    ensures { MatchResult result (λ bs. all_checked (map (checked_block tables.now) blocks.now) ≡
        fine bs) (IsFirst (all_checked (map (checked_block tables.now) blocks.now))) }
{
    let mut typed = Vec::new(alloc);
    for part in blocks {
        let part = block(alloc, tables, part)?;
        add(&mut typed, part)?;
    }
    Ok(Items::from_vec(typed))
}

#[cycle(typing)]
fn block(
    alloc: Global,
    tables: &Tables,
    block: &Block<u32, Raw<TableEntry>>,
) -> Result<Block<u32, Expr>, TypeError>
    ensures { MatchResult result (λ b. checked_block tables.now block.now ≡
        fine b) (IsFirst (checked_block tables.now block.now)) }
{
    let statements = statements(alloc, tables, block.statements.as_slice())?;
    Ok(Block {
        at: block.at,
        statements,
    })
}

#[cycle(typing)]
#[tactic(auto, using(crate::proofs::ListLemmas::lists))]
fn statements(
    alloc: Global,
    tables: &Tables,
    statements: &[Stmt<u32, Raw<TableEntry>>],
) -> Result<Items<Stmt<u32, Expr>>, TypeError>
    ensures { MatchResult result (λ ss. all_checked (map (checked_stmt tables.now) statements.now) ≡
        fine ss) (IsFirst (all_checked (map (checked_stmt tables.now) statements.now))) }
{
    let mut typed = Vec::new(alloc);
    for part in statements {
        let part = statement(alloc, tables, part)?;
        add(&mut typed, part)?;
    }
    Ok(Items::from_vec(typed))
}
