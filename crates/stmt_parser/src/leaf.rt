ghost use Rattle.std.specs.Prelude.{◌≡◌, ℕ, List, [], ◌∷◌, MatchResult};
ghost use Rattle.sj_lexer.specs.declared.token.Class.TheVariants as class_is;
ghost use Rattle.sj_lexer.specs.declared.token.Mark.TheVariants as mark;
ghost use Rattle.sj_lexer.specs.declared.token.Word.TheVariants as word;
ghost use Rattle.sj_grammar.specs.declared.role.Start.TheVariants as start;
ghost use Rattle.sj_grammar.specs.definitions.Roles.{start_of};
ghost use Rattle.sj_grammar.specs.definitions.Machine.{T, AfterKind, CombinePart};
ghost use Rattle.expr_parser.specs.Reading.{IsNotFirst, FailsAt};
ghost use Rattle.stmt_parser.specs.Reading.{tail_of, ReadsForm, ReadsValued};

use crate::make::{assign_form, emission_form, placed, still_form};
use crate::pieces::{expect, read_combined, read_name, read_name_end, read_named};
use crate::values::{Guard, read_assign, read_given, read_guard, read_parens, read_value};
use expr_parser::head::after;
use expr_parser::read::{Read, Stop};
use expr_parser::tree::name_of;
use java_values::Kind;
use sj_ast::{Form, Name, Raw, Signal, Stmt, Valued};
use sj_lexer::{Class, Mark, Token, Word};
use std::alloc::Global;

/// `pause` and `halt`
pub fn still<'a>(
    first: &Token,
    rest: &'a [Token],
    depth: u32,
) -> Result<Read<'a, Stmt<Name, Raw<Name>>>, Stop<'a>>
    requires { start_of first.now.class ≡ start.Still }
    ensures { MatchResult result (λ r. (source : List ℕ) →
        ReadsForm source first.now start.Still rest.now depth r.value r.rest.now)
        (λ s. FailsAt (tail_of start.Still) rest.now depth 0 s) }
{
    match expect(rest, Class::Mark(Mark::Semicolon)) {
        Ok(end) => Ok(Read {
            value: placed(first, still_form(first.class)),
            rest: end.rest,
        }),
        Err(stop) => Err(stop),
    }
}

/// `emit` and `sustain`
pub fn emit<'a>(
    alloc: Global,
    source: &[u8],
    first: &Token,
    rest: &'a [Token],
    depth: u32,
) -> Result<Read<'a, Stmt<Name, Raw<Name>>>, Stop<'a>>
    requires role { start_of first.now.class ≡ start.Emit }
    ensures { MatchResult result (λ r. ReadsForm source.now first.now start.Emit rest.now depth
        r.value r.rest.now) (λ s. FailsAt (tail_of start.Emit) rest.now depth 0 s) }
{
    match read_name(alloc, source, rest, depth) {
        Ok(named) => match read_given(alloc, source, named.rest, depth) {
            Ok(given) => match expect(given.rest, Class::Mark(Mark::Semicolon)) {
                Ok(end) => Ok(Read {
                    value: placed(first, emission_form(first.class, named.value, given.value)),
                    rest: end.rest,
                }),
                Err(stop) => Err(stop),
            },
            Err(stop) => Err(stop),
        },
        Err(stop) => Err(stop),
    }
}

/// `signal`
pub fn local_signal<'a>(
    alloc: Global,
    source: &[u8],
    first: &Token,
    rest: &'a [Token],
    depth: u32,
) -> Result<Read<'a, Stmt<Name, Raw<Name>>>, Stop<'a>>
    requires role { start_of first.now.class ≡ start.Signal }
    ensures { MatchResult result (λ r. ReadsForm source.now first.now start.Signal rest.now depth
        r.value r.rest.now) (λ s. FailsAt (tail_of start.Signal) rest.now depth 0 s) }
{
    match read_name_end(alloc, source, rest, depth) {
        Ok(named) => Ok(Read {
            value: placed(
                first,
                Form::Declare(Signal {
                    at: named.value.at,
                    name: named.value,
                    valued: None,
                }),
            ),
            rest: named.rest,
        }),
        Err(stop) => Err(stop),
    }
}

/// NAME [ `combine` operator ] `;`
pub fn read_valued<'a>(
    alloc: Global,
    source: &[u8],
    kind: Kind,
    tokens: &'a [Token],
    depth: u32,
) -> Result<Read<'a, Signal<Name>>, Stop<'a>>
    ensures { MatchResult result (λ r. ReadsValued source.now kind tokens.now depth r.value
        r.rest.now) (λ s. FailsAt (T class_is.Name ∷ CombinePart ∷
        T (class_is.Mark mark.Semicolon) ∷ []) tokens.now depth 0 s) }
{
    match read_name(alloc, source, tokens, depth) {
        Ok(named) => match read_combined(named.rest, depth) {
            Ok(read) => match expect(read.rest, Class::Mark(Mark::Semicolon)) {
                Ok(end) => Ok(Read {
                    value: Signal {
                        at: named.value.at,
                        name: named.value,
                        valued: Some(Valued {
                            kind,
                            combine: read.value,
                        }),
                    },
                    rest: end.rest,
                }),
                Err(stop) => Err(stop),
            },
            Err(stop) => Err(stop),
        },
        Err(stop) => Err(stop),
    }
}

/// NAME `=` expression `;`
fn variable<'a>(
    alloc: Global,
    source: &[u8],
    first: &Token,
    kind: Kind,
    rest: &'a [Token],
    depth: u32,
) -> Result<Read<'a, Stmt<Name, Raw<Name>>>, Stop<'a>>
    requires role { start_of first.now.class ≡ start.Kind kind }
    requires no_signal { IsNotFirst (class_is.Reserved word.Signal) rest.now }
    ensures { MatchResult result (λ r. ReadsForm source.now first.now (start.Kind kind) rest.now
        depth r.value r.rest.now) (λ s. FailsAt (tail_of (start.Kind kind)) rest.now depth 0 s) }
{
    match read_name(alloc, source, rest, depth) {
        Ok(named) => match expect(named.rest, Class::Mark(Mark::Assign)) {
            Ok(sign) => match read_value(alloc, source, sign.rest, depth) {
                Ok(read) => match expect(read.rest, Class::Mark(Mark::Semicolon)) {
                    Ok(end) => Ok(Read {
                        value: placed(
                            first,
                            Form::Variable {
                                kind,
                                name_at: named.value.at,
                                name: named.value,
                                value: read.value,
                            },
                        ),
                        rest: end.rest,
                    }),
                    Err(stop) => Err(stop),
                },
                Err(stop) => Err(stop),
            },
            Err(stop) => Err(stop),
        },
        Err(stop) => Err(stop),
    }
}

/// A valued signal or a variable
pub fn kinded<'a>(
    alloc: Global,
    source: &[u8],
    first: &Token,
    kind: Kind,
    rest: &'a [Token],
    depth: u32,
) -> Result<Read<'a, Stmt<Name, Raw<Name>>>, Stop<'a>>
    requires role { start_of first.now.class ≡ start.Kind kind }
    ensures { MatchResult result (λ r. ReadsForm source.now first.now (start.Kind kind) rest.now
        depth r.value r.rest.now) (λ s. FailsAt (tail_of (start.Kind kind)) rest.now depth 0 s) }
{
    match after(rest, Class::Reserved(Word::Signal)) {
        Some(keyword) => match read_valued(alloc, source, kind, keyword.rest, depth) {
            Ok(read) => Ok(Read {
                value: placed(first, Form::Declare(read.value)),
                rest: read.rest,
            }),
            Err(stop) => Err(stop),
        },
        None => variable(alloc, source, first, kind, rest, depth),
    }
}

/// An assignment
pub fn assign<'a>(
    alloc: Global,
    source: &[u8],
    first: &Token,
    rest: &'a [Token],
    depth: u32,
) -> Result<Read<'a, Stmt<Name, Raw<Name>>>, Stop<'a>>
    requires role { start_of first.now.class ≡ start.Name }
    ensures { MatchResult result (λ r. ReadsForm source.now first.now start.Name rest.now depth
        r.value r.rest.now) (λ s. FailsAt (tail_of start.Name) rest.now depth 0 s) }
{
    let name = match name_of(alloc, source, first) {
        Ok(name) => name,
        Err(_) => return Err(Stop::NoMemory),
    };
    match read_assign(rest, depth) {
        Ok(sign) => match read_value(alloc, source, sign.rest, depth) {
            Ok(read) => match expect(read.rest, Class::Mark(Mark::Semicolon)) {
                Ok(end) => Ok(Read {
                    value: placed(
                        first,
                        assign_form(sign.value.op, name, sign.value.at, read.value),
                    ),
                    rest: end.rest,
                }),
                Err(stop) => Err(stop),
            },
            Err(stop) => Err(stop),
        },
        Err(stop) => Err(stop),
    }
}

/// `exit`
pub fn exit<'a>(
    alloc: Global,
    source: &[u8],
    first: &Token,
    rest: &'a [Token],
    depth: u32,
) -> Result<Read<'a, Stmt<Name, Raw<Name>>>, Stop<'a>>
    requires role { start_of first.now.class ≡ start.Exit }
    ensures { MatchResult result (λ r. ReadsForm source.now first.now start.Exit rest.now depth
        r.value r.rest.now) (λ s. FailsAt (tail_of start.Exit) rest.now depth 0 s) }
{
    match read_named(alloc, source, rest, depth) {
        Ok(named) => match expect(named.rest, Class::Mark(Mark::Semicolon)) {
            Ok(end) => Ok(Read {
                value: placed(
                    first,
                    Form::Exit {
                        name_at: named.value.at,
                        name: named.value,
                    },
                ),
                rest: end.rest,
            }),
            Err(stop) => Err(stop),
        },
        Err(stop) => Err(stop),
    }
}

/// `send`
pub fn send<'a>(
    alloc: Global,
    source: &[u8],
    first: &Token,
    rest: &'a [Token],
    depth: u32,
) -> Result<Read<'a, Stmt<Name, Raw<Name>>>, Stop<'a>>
    requires role { start_of first.now.class ≡ start.Send }
    ensures { MatchResult result (λ r. ReadsForm source.now first.now start.Send rest.now depth
        r.value r.rest.now) (λ s. FailsAt (tail_of start.Send) rest.now depth 0 s) }
{
    match read_name(alloc, source, rest, depth) {
        Ok(named) => match read_parens(alloc, source, named.rest, depth) {
            Ok(read) => match expect(read.rest, Class::Mark(Mark::Semicolon)) {
                Ok(end) => Ok(Read {
                    value: placed(
                        first,
                        Form::Send {
                            name_at: named.value.at,
                            name: named.value,
                            value: read.value,
                        },
                    ),
                    rest: end.rest,
                }),
                Err(stop) => Err(stop),
            },
            Err(stop) => Err(stop),
        },
        Err(stop) => Err(stop),
    }
}

/// `receive`
pub fn receive<'a>(
    alloc: Global,
    source: &[u8],
    first: &Token,
    rest: &'a [Token],
    depth: u32,
) -> Result<Read<'a, Stmt<Name, Raw<Name>>>, Stop<'a>>
    requires role { start_of first.now.class ≡ start.Receive }
    ensures { MatchResult result (λ r. ReadsForm source.now first.now start.Receive rest.now depth
        r.value r.rest.now) (λ s. FailsAt (tail_of start.Receive) rest.now depth 0 s) }
{
    match read_name_end(alloc, source, rest, depth) {
        Ok(named) => Ok(Read {
            value: placed(
                first,
                Form::Receive {
                    name_at: named.value.at,
                    name: named.value,
                },
            ),
            rest: named.rest,
        }),
        Err(stop) => Err(stop),
    }
}

/// `await`
pub fn await_test<'a>(
    alloc: Global,
    source: &[u8],
    first: &Token,
    rest: &'a [Token],
    depth: u32,
) -> Result<Read<'a, Stmt<Name, Raw<Name>>>, Stop<'a>>
    requires role { start_of first.now.class ≡ start.Await }
    ensures { MatchResult result (λ r. ReadsForm source.now first.now start.Await rest.now depth
        r.value r.rest.now) (λ s. FailsAt (tail_of start.Await) rest.now depth 0 s) }
{
    match read_guard(alloc, source, rest, depth) {
        Ok(guard) => match expect(guard.rest, Class::Mark(Mark::Semicolon)) {
            Ok(end) => {
                let Guard { immediate, test } = guard.value;
                Ok(Read {
                    value: placed(first, Form::Await { immediate, test }),
                    rest: end.rest,
                })
            }
            Err(stop) => Err(stop),
        },
        Err(stop) => Err(stop),
    }
}
