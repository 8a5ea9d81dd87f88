ghost use Rattle.std.specs.Prelude.{◌≡◌, true, ◌++◌, ◌∷◌, [], IfOk};
ghost use Rattle.sj_ast.specs.declared.statement.Form as form;
ghost use Rattle.sj_grammar.specs.definitions.Trees.{placed, still_form, emission_form, assign_form, guarded_form, block_at};

use java_values::{NoMemory, Op2};
use sj_ast::{Block, Form, Name, Raw, Stmt, Test};
use sj_lexer::{Class, Token, Word};
use sqlite_items::{Boxed, Items};
use std::alloc::Global;

/// The statement that begins with this token.
pub fn placed(first: &Token, form: Form<Name, Raw<Name>>) -> Stmt<Name, Raw<Name>>
    ensures { result ≡ placed first.now form }
{
    Stmt {
        at: first.start,
        form,
    }
}

/// The block that begins with this token.
pub fn block_at(open: &Token, statements: Vec<Stmt<Name, Raw<Name>>>) -> Block<Name, Raw<Name>>
    ensures { result ≡ block_at open.now statements.items }
{
    Block {
        at: open.start,
        statements: Items::from_vec(statements),
    }
}

/// The block, in memory of its own.
pub fn boxed_block(
    alloc: Global,
    block: Block<Name, Raw<Name>>,
) -> Result<Boxed<Block<Name, Raw<Name>>>, NoMemory>
    ensures { IfOk result (λ b. b ≡ block) }
{
    Ok(Boxed::new(alloc, block)?)
}

/// `pause` or `halt`.
pub fn still_form(class: Class) -> Form<Name, Raw<Name>>
    ensures { result ≡ still_form class }
{
    match class {
        Class::Reserved(Word::Halt) => Form::Halt,
        _ => Form::Pause,
    }
}

/// `emit` or `sustain`.
pub fn emission_form(class: Class, name: Name, value: Option<Raw<Name>>) -> Form<Name, Raw<Name>>
    ensures { result ≡ emission_form class name.at name value }
{
    let name_at = name.at;
    match class {
        Class::Reserved(Word::Sustain) => Form::Sustain {
            name_at,
            name,
            value,
        },
        _ => Form::Emit {
            name_at,
            name,
            value,
        },
    }
}

/// An assignment.
pub fn assign_form(
    op: Option<Op2>,
    name: Name,
    sign_at: u32,
    value: Raw<Name>,
) -> Form<Name, Raw<Name>>
    ensures { result ≡ assign_form op name.at name sign_at value }
{
    let name_at = name.at;
    match op {
        Some(op) => Form::Update {
            name_at,
            name,
            sign_at,
            op,
            value,
        },
        None => Form::Assign {
            name_at,
            name,
            value,
        },
    }
}

/// `abort`, `suspend` or `every`.
pub fn guarded_form(
    class: Class,
    immediate: bool,
    test: Test<Name>,
    body: Block<Name, Raw<Name>>,
) -> Form<Name, Raw<Name>>
    ensures { result ≡ guarded_form class immediate test body }
{
    match class {
        Class::Reserved(Word::Abort) => Form::Abort {
            weak: false,
            immediate,
            test,
            body,
        },
        Class::Reserved(Word::Suspend) => Form::Suspend {
            immediate,
            test,
            body,
        },
        _ => Form::Every {
            immediate,
            test,
            body,
        },
    }
}

pub fn add_statement(
    statements: &mut Vec<Stmt<Name, Raw<Name>>>,
    statement: Stmt<Name, Raw<Name>>,
) -> bool
    ensures { result ≡ true → statements.new.items ≡ statements.old.items ++ statement ∷ [] }
{
    statements.push(statement).is_ok()
}

pub fn add_block(blocks: &mut Vec<Block<Name, Raw<Name>>>, block: Block<Name, Raw<Name>>) -> bool
    ensures { result ≡ true → blocks.new.items ≡ blocks.old.items ++ block ∷ [] }
{
    blocks.push(block).is_ok()
}
