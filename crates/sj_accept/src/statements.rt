// The terms of statements.

ghost use Rattle.std.specs.Prelude.{◌≡◌, ◌≤◌, IfOk, IfSome, length};
ghost use Rattle.kernel_terms.specs.Expressions.{expression};
ghost use Rattle.sj_accept.specs.BuiltTerms.{IsTermOf, IsTermOfBlock};
ghost use Rattle.sj_accept.specs.definitions.Lowering.{block_of, int_of, send_of, stmt_term, block_term};

use crate::lists::begins_with_item;
use java_values::{Kind, NoMemory};
use kernel_terms::{Expr, ExprForm, Form, Term};
use sj_ast as ast;
use sj_ast::{Block, Stmt};
use sqlite_items::{Boxed, Items};
use std::alloc::Global;

/// The term of these terms one after another.
#[tactic(auto, using(crate::proofs::TermLemmas::sequences))]
pub fn sequence(at: u32, mut terms: Vec<Term>) -> Term
    ensures value { result ≡ block_of at terms.items }
{
    if terms.len() >= 2 {
        return Term {
            at,
            form: Form::Seq(Items::from_vec(terms)),
        };
    }
    match terms.pop() {
        Some(term) => term,
        None => Term {
            at,
            form: Form::Nothing,
        },
    }
}

/// The number of a literal of the kind `int`.
#[tactic(auto, using(crate::proofs::LiteralLemmas::literals))]
fn int_literal(value: &Expr) -> Option<i64>
    ensures { result ≡ int_of (expression value.now) }
{
    match value.kind {
        Kind::Int => match value.form {
            ExprForm::Literal(number) => Some(number),
            _ => None,
        },
        Kind::Boolean => None,
        Kind::Byte => None,
        Kind::Short => None,
        Kind::Char => None,
        Kind::Long => None,
    }
}

fn sending(at: u32, channel: u32, value: &Expr) -> Option<Term>
    ensures { result ≡ send_of at channel (int_of (expression value.now)) }
{
    let number = int_literal(value)?;
    let value = Expr {
        kind: Kind::Int,
        form: ExprForm::Literal(number),
    };
    Some(Term {
        at,
        form: Form::Send { channel, value },
    })
}

/// The term of a statement, where its form is built.
#[cycle(lowering)]
#[tactic(auto, using(crate::proofs::StatementLemmas::terms_of_statements))]
fn statement_term(alloc: Global, statement: &Stmt<u32, Expr>) -> Result<Option<Term>, NoMemory>
    ensures value { IfOk result (λ o. o ≡ stmt_term statement.now) }
    ensures term { IfOk result (λ o. IfSome o (IsTermOf statement.now)) }
{
    let at = statement.at;
    match &statement.form {
        ast::Form::Empty => Ok(Some(Term {
            at,
            form: Form::Nothing,
        })),
        ast::Form::Pause => Ok(Some(Term {
            at,
            form: Form::Pause,
        })),
        ast::Form::Emit {
            name_at: _,
            name,
            value: None,
        } => Ok(Some(Term {
            at,
            form: Form::Emit {
                signal: *name,
                value: None,
            },
        })),
        ast::Form::Send {
            name_at: _,
            name,
            value,
        } => Ok(sending(at, *name, value)),
        ast::Form::Receive { name_at: _, name } => Ok(Some(Term {
            at,
            form: Form::Receive { channel: *name },
        })),
        ast::Form::While(body) => {
            let Some(body) = block_term(alloc, body)? else {
                return Ok(None);
            };
            Ok(Some(Term {
                at,
                form: Form::Loop(Boxed::new(alloc, body)?),
            }))
        }
        _ => Ok(None),
    }
}

/// The term of a block, where all its statements have one.
#[cycle(lowering)]
pub fn block_term(alloc: Global, block: &Block<u32, Expr>) -> Result<Option<Term>, NoMemory>
    ensures value { IfOk result (λ o. o ≡ block_term block.now) }
    ensures term { IfOk result (λ o. IfSome o (IsTermOfBlock block.now)) }
{
    let statements = block.statements.as_slice();
    let mut terms = Vec::with_capacity(alloc, statements.len())?;
    for i in 0..statements.len() {
        let statement = &statements[i];
        begins_with_item(statements, i, statement);
        let Some(term) = statement_term(alloc, statement)? else {
            return Ok(None);
        };
        terms.push(term)?;
    }
    Ok(Some(sequence(block.at, terms)))
}
