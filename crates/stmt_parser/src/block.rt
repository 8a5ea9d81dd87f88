ghost use Rattle.std.specs.Prelude.{◌≡◌, ◌<◌, ◌+◌, true, [], ◌∷◌, MatchOption, MatchResult};
ghost use Rattle.sj_lexer.specs.declared.token.Class.TheVariants as class_is;
ghost use Rattle.sj_lexer.specs.declared.token.Mark as sign;
ghost use Rattle.sj_lexer.specs.declared.token.Mark.TheVariants as mark;
ghost use Rattle.sj_lexer.specs.declared.token.Word.TheVariants as word;
ghost use Rattle.sj_grammar.specs.declared.role.Start.TheVariants as start;
ghost use Rattle.sj_grammar.specs.definitions.Roles.{start_of};
ghost use Rattle.sj_grammar.specs.definitions.Machine.{T, Statements, ElsePart, OthersPart};
ghost use Rattle.expr_parser.specs.Reading.{IsFirst, FailsAt};
ghost use Rattle.stmt_parser.specs.Reading.{tail_of, is_start, is_form, begins_statement, ReadsForm, ReadsStmt, ReadsInside, ReadsBraces, FailsBraces, ReadsOther, ReadsOthers, is_between, Skips};

use crate::leaf::{assign, await_test, emit, exit, kinded, local_signal, receive, send, still};
use crate::make::{add_block, add_statement, block_at, boxed_block, guarded_form, placed};
use crate::pieces::{expect, read_named};
use crate::values::{Guard, read_guard, read_parens, read_test_parens, read_true};
use expr_parser::expression::MOST_OPEN;
use expr_parser::head::after;
use expr_parser::read::{Read, Stop};
use sj_ast::{Block, Form, Name, Raw, Stmt};
use sj_grammar::{Start, start_of};
use sj_lexer::{Class, Mark, Token, Word};
use sqlite_items::{Boxed, Items};
use std::alloc::Global;

fn is_start(start: Start) -> bool
    ensures { result ≡ is_start start }
{
    match start {
        Start::Nothing => false,
        _ => true,
    }
}

/// Whether a statement that isn't a block begins so.
fn is_form(start: Start) -> bool
    ensures { result ≡ is_form start }
{
    match start {
        Start::Nothing => false,
        Start::Braces => false,
        _ => true,
    }
}

fn begins_statement(tokens: &[Token]) -> bool
    ensures { result ≡ begins_statement tokens.now }
{
    match tokens.split_first() {
        Some((first, _)) => is_start(start_of(first.class)),
        None => false,
    }
}

/// An `else` that the tokens begin with.
fn else_at(tokens: &[Token]) -> Option<Read<Token>>
    ensures { MatchOption result (Skips ElsePart tokens.now)
        (λ f. IsFirst (class_is.Reserved word.Else) tokens.now f.value f.rest.now) }
{
    match after(tokens, Class::Reserved(Word::Else)) {
        Some(first) => Some(first),
        None => None,
    }
}

/// The sign before a further block.
fn beside_at(tokens: &[Token], between: Mark) -> Option<Read<Token>>
    ensures { MatchOption result (Skips (OthersPart between) tokens.now)
        (λ f. IsFirst (class_is.Mark between) tokens.now f.value f.rest.now) }
{
    match after(tokens, Class::Mark(between)) {
        Some(first) => Some(first),
        None => None,
    }
}

/// A block in braces.
#[cycle(statements)]
pub fn braces<'a>(
    alloc: Global,
    source: &[u8],
    tokens: &'a [Token],
    depth: u32,
) -> Result<Read<'a, Block<Name, Raw<Name>>>, Stop<'a>>
    ensures { MatchResult result (λ r. ReadsBraces source.now tokens.now depth r.value r.rest.now)
        (λ s. FailsBraces tokens.now depth s) }
{
    let Some(open) = after(tokens, Class::Mark(Mark::OpenBrace)) else {
        return Err(Stop::Syntax(tokens));
    };
    if depth >= MOST_OPEN {
        return Err(Stop::TooDeep(tokens));
    }
    match inside(alloc, source, open.rest, depth) {
        Ok(read) => Ok(Read {
            value: block_at(&open.value, read.value),
            rest: read.rest,
        }),
        Err(stop) => Err(stop),
    }
}

/// A block in braces, in memory of its own.
#[cycle(statements)]
fn boxed_braces<'a>(
    alloc: Global,
    source: &[u8],
    tokens: &'a [Token],
    depth: u32,
) -> Result<Read<'a, Boxed<Block<Name, Raw<Name>>>>, Stop<'a>>
    ensures { MatchResult result (λ r. ReadsBraces source.now tokens.now depth r.value r.rest.now)
        (λ s. FailsBraces tokens.now depth s) }
{
    match braces(alloc, source, tokens, depth) {
        Ok(read) => match boxed_block(alloc, read.value) {
            Ok(value) => Ok(Read {
                value,
                rest: read.rest,
            }),
            Err(_) => Err(Stop::NoMemory),
        },
        Err(stop) => Err(stop),
    }
}

/// The statements of a block behind its `{`, and the `}`.
#[cycle(statements)]
fn inside<'a>(
    alloc: Global,
    source: &[u8],
    tokens: &'a [Token],
    depth: u32,
) -> Result<Read<'a, Vec<Stmt<Name, Raw<Name>>>>, Stop<'a>>
    requires { depth < 64 }
    ensures { MatchResult result (λ r. ReadsInside source.now tokens.now depth r.value.items
        r.rest.now) (λ s. FailsAt (Statements ∷ T (class_is.Mark mark.CloseBrace) ∷
        []) tokens.now (depth + 1) 0 s) }
{
    let mut statements = Vec::new(alloc);
    let mut rest = tokens;
    while begins_statement(rest) {
        match statement(alloc, source, rest, depth + 1) {
            Ok(read) => {
                if !add_statement(&mut statements, read.value) {
                    return Err(Stop::NoMemory);
                }
                rest = read.rest;
            }
            Err(stop) => return Err(stop),
        }
    }
    match after(rest, Class::Mark(Mark::CloseBrace)) {
        Some(close) => Ok(Read {
            value: statements,
            rest: close.rest,
        }),
        None => Err(Stop::Syntax(rest)),
    }
}

/// The statement that the tokens begin with.
#[cycle(statements)]
fn statement<'a>(
    alloc: Global,
    source: &[u8],
    tokens: &'a [Token],
    depth: u32,
) -> Result<Read<'a, Stmt<Name, Raw<Name>>>, Stop<'a>>
    requires { begins_statement tokens.now ≡ true }
    ensures { MatchResult result (λ r. ReadsStmt source.now tokens.now depth r.value r.rest.now)
        (λ s. FailsAt (Statements ∷ []) tokens.now depth 0 s) }
{
    let Some((first, rest)) = tokens.split_first() else {
        unreachable!()
    };
    let start = start_of(first.class);
    if !is_form(start) {
        return par(alloc, source, tokens, first, rest, depth);
    }
    match form(alloc, source, first, start, rest, depth) {
        Ok(read) => Ok(read),
        Err(stop) => Err(stop),
    }
}

/// A block, and the blocks beside it.
#[cycle(statements)]
fn par<'a>(
    alloc: Global,
    source: &[u8],
    tokens: &'a [Token],
    first: &Token,
    rest: &'a [Token],
    depth: u32,
) -> Result<Read<'a, Stmt<Name, Raw<Name>>>, Stop<'a>>
    requires is { tokens.now ≡ first.now ∷ rest.now }
    requires role { start_of first.now.class ≡ start.Braces }
    ensures { MatchResult result (λ r. ReadsStmt source.now tokens.now depth r.value r.rest.now)
        (λ s. FailsAt (Statements ∷ []) tokens.now depth 0 s) }
{
    match braces(alloc, source, tokens, depth) {
        Ok(read) => match others(alloc, source, read.rest, Mark::Either, depth) {
            Ok(last) => Ok(Read {
                value: placed(
                    first,
                    Form::Par {
                        first: read.value,
                        others: Items::from_vec(last.value),
                    },
                ),
                rest: last.rest,
            }),
            Err(stop) => Err(stop),
        },
        Err(stop) => Err(stop),
    }
}

/// A statement that isn't a block, behind its first token.
#[cycle(statements)]
fn form<'a>(
    alloc: Global,
    source: &[u8],
    first: &Token,
    start: Start,
    rest: &'a [Token],
    depth: u32,
) -> Result<Read<'a, Stmt<Name, Raw<Name>>>, Stop<'a>>
    requires role { start_of first.now.class ≡ start }
    requires form { is_form start ≡ true }
    ensures { MatchResult result (λ r. ReadsForm source.now first.now start rest.now depth r.value
        r.rest.now) (λ s. FailsAt (tail_of start) rest.now depth 0 s) }
{
    match start {
        Start::Empty => Ok(Read {
            value: placed(first, Form::Empty),
            rest,
        }),
        Start::Still => still(first, rest, depth),
        Start::Emit => emit(alloc, source, first, rest, depth),
        Start::Signal => local_signal(alloc, source, first, rest, depth),
        Start::Kind(kind) => kinded(alloc, source, first, kind, rest, depth),
        Start::Name => assign(alloc, source, first, rest, depth),
        Start::If => branch(alloc, source, first, rest, depth),
        Start::Present => present(alloc, source, first, rest, depth),
        Start::While => repeat(alloc, source, first, rest, depth),
        Start::Weak => weak(alloc, source, first, rest, depth),
        Start::Guarded => guarded(alloc, source, first, rest, depth),
        Start::Trap => trap(alloc, source, first, rest, depth),
        Start::Exit => exit(alloc, source, first, rest, depth),
        Start::Send => send(alloc, source, first, rest, depth),
        Start::Receive => receive(alloc, source, first, rest, depth),
        Start::Await => await_test(alloc, source, first, rest, depth),
        Start::Loop => looped(alloc, source, first, rest, depth),
        Start::Braces => unreachable!(),
        Start::Nothing => unreachable!(),
    }
}

/// `if`
#[cycle(statements)]
fn branch<'a>(
    alloc: Global,
    source: &[u8],
    first: &Token,
    rest: &'a [Token],
    depth: u32,
) -> Result<Read<'a, Stmt<Name, Raw<Name>>>, Stop<'a>>
    requires { start_of first.now.class ≡ start.If }
    ensures { MatchResult result (λ r. ReadsForm source.now first.now start.If rest.now depth
        r.value r.rest.now) (λ s. FailsAt (tail_of start.If) rest.now depth 0 s) }
{
    match read_parens(alloc, source, rest, depth) {
        Ok(cond) => match boxed_braces(alloc, source, cond.rest, depth) {
            Ok(yes) => match other(alloc, source, yes.rest, depth) {
                Ok(last) => Ok(Read {
                    value: placed(
                        first,
                        Form::If {
                            cond: cond.value,
                            yes: yes.value,
                            other: last.value,
                        },
                    ),
                    rest: last.rest,
                }),
                Err(stop) => Err(stop),
            },
            Err(stop) => Err(stop),
        },
        Err(stop) => Err(stop),
    }
}

/// `present`
#[cycle(statements)]
fn present<'a>(
    alloc: Global,
    source: &[u8],
    first: &Token,
    rest: &'a [Token],
    depth: u32,
) -> Result<Read<'a, Stmt<Name, Raw<Name>>>, Stop<'a>>
    requires { start_of first.now.class ≡ start.Present }
    ensures { MatchResult result (λ r. ReadsForm source.now first.now start.Present rest.now depth
        r.value r.rest.now) (λ s. FailsAt (tail_of start.Present) rest.now depth 0 s) }
{
    match read_test_parens(alloc, source, rest, depth) {
        Ok(guard) => match boxed_braces(alloc, source, guard.rest, depth) {
            Ok(yes) => match other(alloc, source, yes.rest, depth) {
                Ok(last) => Ok(Read {
                    value: placed(
                        first,
                        Form::Present {
                            test: guard.value,
                            yes: yes.value,
                            other: last.value,
                        },
                    ),
                    rest: last.rest,
                }),
                Err(stop) => Err(stop),
            },
            Err(stop) => Err(stop),
        },
        Err(stop) => Err(stop),
    }
}

/// `while (true)`
#[cycle(statements)]
fn repeat<'a>(
    alloc: Global,
    source: &[u8],
    first: &Token,
    rest: &'a [Token],
    depth: u32,
) -> Result<Read<'a, Stmt<Name, Raw<Name>>>, Stop<'a>>
    requires { start_of first.now.class ≡ start.While }
    ensures { MatchResult result (λ r. ReadsForm source.now first.now start.While rest.now depth
        r.value r.rest.now) (λ s. FailsAt (tail_of start.While) rest.now depth 0 s) }
{
    match read_true(rest, depth) {
        Ok(inner) => match braces(alloc, source, inner, depth) {
            Ok(body) => Ok(Read {
                value: placed(first, Form::While(body.value)),
                rest: body.rest,
            }),
            Err(stop) => Err(stop),
        },
        Err(stop) => Err(stop),
    }
}

/// `abort`, `suspend` and `every`
#[cycle(statements)]
fn guarded<'a>(
    alloc: Global,
    source: &[u8],
    first: &Token,
    rest: &'a [Token],
    depth: u32,
) -> Result<Read<'a, Stmt<Name, Raw<Name>>>, Stop<'a>>
    requires { start_of first.now.class ≡ start.Guarded }
    ensures { MatchResult result (λ r. ReadsForm source.now first.now start.Guarded rest.now depth
        r.value r.rest.now) (λ s. FailsAt (tail_of start.Guarded) rest.now depth 0 s) }
{
    match read_guard(alloc, source, rest, depth) {
        Ok(guard) => match braces(alloc, source, guard.rest, depth) {
            Ok(body) => {
                let Guard { immediate, test } = guard.value;
                Ok(Read {
                    value: placed(
                        first,
                        guarded_form(first.class, immediate, test, body.value),
                    ),
                    rest: body.rest,
                })
            }
            Err(stop) => Err(stop),
        },
        Err(stop) => Err(stop),
    }
}

/// `weak abort`
#[cycle(statements)]
fn weak<'a>(
    alloc: Global,
    source: &[u8],
    first: &Token,
    rest: &'a [Token],
    depth: u32,
) -> Result<Read<'a, Stmt<Name, Raw<Name>>>, Stop<'a>>
    requires { start_of first.now.class ≡ start.Weak }
    ensures { MatchResult result (λ r. ReadsForm source.now first.now start.Weak rest.now depth
        r.value r.rest.now) (λ s. FailsAt (tail_of start.Weak) rest.now depth 0 s) }
{
    match expect(rest, Class::Reserved(Word::Abort)) {
        Ok(keyword) => match read_guard(alloc, source, keyword.rest, depth) {
            Ok(guard) => match braces(alloc, source, guard.rest, depth) {
                Ok(body) => {
                    let Guard { immediate, test } = guard.value;
                    Ok(Read {
                        value: placed(
                            first,
                            Form::Abort {
                                weak: true,
                                immediate,
                                test,
                                body: body.value,
                            },
                        ),
                        rest: body.rest,
                    })
                }
                Err(stop) => Err(stop),
            },
            Err(stop) => Err(stop),
        },
        Err(stop) => Err(stop),
    }
}

/// `trap`
#[cycle(statements)]
fn trap<'a>(
    alloc: Global,
    source: &[u8],
    first: &Token,
    rest: &'a [Token],
    depth: u32,
) -> Result<Read<'a, Stmt<Name, Raw<Name>>>, Stop<'a>>
    requires { start_of first.now.class ≡ start.Trap }
    ensures { MatchResult result (λ r. ReadsForm source.now first.now start.Trap rest.now depth
        r.value r.rest.now) (λ s. FailsAt (tail_of start.Trap) rest.now depth 0 s) }
{
    match read_named(alloc, source, rest, depth) {
        Ok(named) => match braces(alloc, source, named.rest, depth) {
            Ok(body) => Ok(Read {
                value: placed(
                    first,
                    Form::Trap {
                        name_at: named.value.at,
                        name: named.value,
                        body: body.value,
                    },
                ),
                rest: body.rest,
            }),
            Err(stop) => Err(stop),
        },
        Err(stop) => Err(stop),
    }
}

/// `loop` and `each`
#[cycle(statements)]
fn looped<'a>(
    alloc: Global,
    source: &[u8],
    first: &Token,
    rest: &'a [Token],
    depth: u32,
) -> Result<Read<'a, Stmt<Name, Raw<Name>>>, Stop<'a>>
    requires { start_of first.now.class ≡ start.Loop }
    ensures { MatchResult result (λ r. ReadsForm source.now first.now start.Loop rest.now depth
        r.value r.rest.now) (λ s. FailsAt (tail_of start.Loop) rest.now depth 0 s) }
{
    match braces(alloc, source, rest, depth) {
        Ok(body) => match expect(body.rest, Class::Reserved(Word::Each)) {
            Ok(each) => match read_test_parens(alloc, source, each.rest, depth) {
                Ok(guard) => match expect(guard.rest, Class::Mark(Mark::Semicolon)) {
                    Ok(end) => Ok(Read {
                        value: placed(
                            first,
                            Form::Loop {
                                body: body.value,
                                test: guard.value,
                            },
                        ),
                        rest: end.rest,
                    }),
                    Err(stop) => Err(stop),
                },
                Err(stop) => Err(stop),
            },
            Err(stop) => Err(stop),
        },
        Err(stop) => Err(stop),
    }
}

/// The block behind an `else`, where there is one.
#[cycle(statements)]
fn other<'a>(
    alloc: Global,
    source: &[u8],
    tokens: &'a [Token],
    depth: u32,
) -> Result<Read<'a, Option<Boxed<Block<Name, Raw<Name>>>>>, Stop<'a>>
    ensures { MatchResult result (λ r. ReadsOther source.now tokens.now depth r.value r.rest.now)
        (λ s. FailsAt (ElsePart ∷ []) tokens.now depth 0 s) }
{
    let Some(keyword) = else_at(tokens) else {
        return Ok(Read {
            value: None,
            rest: tokens,
        });
    };
    match boxed_braces(alloc, source, keyword.rest, depth) {
        Ok(read) => Ok(Read {
            value: Some(read.value),
            rest: read.rest,
        }),
        Err(stop) => Err(stop),
    }
}

/// The blocks that stand behind a sign.
#[cycle(statements)]
pub fn others<'a>(
    alloc: Global,
    source: &[u8],
    tokens: &'a [Token],
    between: Mark,
    depth: u32,
) -> Result<Read<'a, Vec<Block<Name, Raw<Name>>>>, Stop<'a>>
    requires { is_between between ≡ true }
    ensures { MatchResult result (λ r. ReadsOthers source.now tokens.now between depth r.value.items
        r.rest.now) (λ s. FailsAt (OthersPart between ∷ []) tokens.now depth 0 s) }
{
    let mut blocks = Vec::new(alloc);
    let mut rest = tokens;
    while let Some(sign) = beside_at(rest, between) {
        match braces(alloc, source, sign.rest, depth) {
            Ok(read) => {
                if !add_block(&mut blocks, read.value) {
                    return Err(Stop::NoMemory);
                }
                rest = read.rest;
            }
            Err(stop) => return Err(stop),
        }
    }
    Ok(Read {
        value: blocks,
        rest,
    })
}
