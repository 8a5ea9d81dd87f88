ghost use Rattle.std.specs.Prelude.{◌≡◌, true, Some, None, [], ◌∷◌, ◌++◌, MatchResult};
ghost use Rattle.sj_lexer.specs.declared.token.Class.TheVariants as class_is;
ghost use Rattle.sj_lexer.specs.declared.token.Mark.TheVariants as mark;
ghost use Rattle.sj_lexer.specs.declared.token.Word.TheVariants as word;
ghost use Rattle.sj_grammar.specs.definitions.Roles.{direction_of, kind_of};
ghost use Rattle.sj_grammar.specs.definitions.Machine.{T, PortList, SignalPart};
ghost use Rattle.expr_parser.specs.Reading.{FailsAt};
ghost use Rattle.stmt_parser.specs.Reading.{begins_port, ReadsDeclared, ReadsPort, ReadsPorts};

use crate::leaf::read_valued;
use crate::pieces::{expect, read_name_end};
use expr_parser::head::{after, kind_at};
use expr_parser::read::{Read, Stop};
use java_values::Kind;
use sj_ast::{ChannelPort, Direction, Name, Port, Signal, SignalPort};
use sj_grammar::{direction_of, kind_of};
use sj_lexer::{Class, Token, Word};
use std::alloc::Global;

fn begins_port(tokens: &[Token]) -> bool
    ensures { result ≡ begins_port tokens.now }
{
    match tokens.split_first() {
        Some((first, _)) => direction_of(first.class).is_some() || kind_of(first.class).is_some(),
        None => false,
    }
}

fn add_port(ports: &mut Vec<Port<Name>>, port: Port<Name>) -> bool
    ensures { result ≡ true → ports.new.items ≡ ports.old.items ++ port ∷ [] }
{
    ports.push(port).is_ok()
}

/// A signal's declaration.
fn declared<'a>(
    alloc: Global,
    source: &[u8],
    tokens: &'a [Token],
    depth: u32,
) -> Result<Read<'a, Signal<Name>>, Stop<'a>>
    ensures { MatchResult result (λ r. ReadsDeclared source.now tokens.now depth r.value r.rest.now)
        (λ s. FailsAt (SignalPart ∷ []) tokens.now depth 0 s) }
{
    if let Some(keyword) = after(tokens, Class::Reserved(Word::Signal)) {
        return match read_name_end(alloc, source, keyword.rest, depth) {
            Ok(read) => Ok(Read {
                value: Signal {
                    at: read.value.at,
                    name: read.value,
                    valued: None,
                },
                rest: read.rest,
            }),
            Err(stop) => Err(stop),
        };
    }
    let Some(kinded) = kind_at(tokens) else {
        return Err(Stop::Syntax(tokens));
    };
    match expect(kinded.rest, Class::Reserved(Word::Signal)) {
        Ok(keyword) => match read_valued(alloc, source, kinded.value, keyword.rest, depth) {
            Ok(read) => Ok(read),
            Err(stop) => Err(stop),
        },
        Err(stop) => Err(stop),
    }
}

/// A signal of the interface, behind its direction.
fn signal_port<'a>(
    alloc: Global,
    source: &[u8],
    tokens: &'a [Token],
    first: &Token,
    direction: Direction,
    rest: &'a [Token],
    depth: u32,
) -> Result<Read<'a, Port<Name>>, Stop<'a>>
    requires is { tokens.now ≡ first.now ∷ rest.now }
    requires role { direction_of first.now.class ≡ Some direction }
    ensures { MatchResult result (λ r. ReadsPort source.now tokens.now depth r.value r.rest.now)
        (λ s. FailsAt (PortList ∷ []) tokens.now depth 0 s) }
{
    match declared(alloc, source, rest, depth) {
        Ok(read) => Ok(Read {
            value: Port::Signal(SignalPort {
                direction,
                signal: read.value,
            }),
            rest: read.rest,
        }),
        Err(stop) => Err(stop),
    }
}

/// A channel, behind its kind.
fn channel_port<'a>(
    alloc: Global,
    source: &[u8],
    tokens: &'a [Token],
    first: &Token,
    kind: Kind,
    rest: &'a [Token],
    depth: u32,
) -> Result<Read<'a, Port<Name>>, Stop<'a>>
    requires is { tokens.now ≡ first.now ∷ rest.now }
    requires role { kind_of first.now.class ≡ Some kind }
    ensures { MatchResult result (λ r. ReadsPort source.now tokens.now depth r.value r.rest.now)
        (λ s. FailsAt (PortList ∷ []) tokens.now depth 0 s) }
{
    match expect(rest, Class::Reserved(Word::Channel)) {
        Ok(keyword) => match read_name_end(alloc, source, keyword.rest, depth) {
            Ok(read) => Ok(Read {
                value: Port::Channel(ChannelPort {
                    kind,
                    at: read.value.at,
                    name: read.value,
                }),
                rest: read.rest,
            }),
            Err(stop) => Err(stop),
        },
        Err(stop) => Err(stop),
    }
}

/// The port that the tokens begin with.
fn read_port<'a>(
    alloc: Global,
    source: &[u8],
    tokens: &'a [Token],
    depth: u32,
) -> Result<Read<'a, Port<Name>>, Stop<'a>>
    requires { begins_port tokens.now ≡ true }
    ensures { MatchResult result (λ r. ReadsPort source.now tokens.now depth r.value r.rest.now)
        (λ s. FailsAt (PortList ∷ []) tokens.now depth 0 s) }
{
    let Some((first, rest)) = tokens.split_first() else {
        unreachable!()
    };
    if let Some(direction) = direction_of(first.class) {
        return signal_port(alloc, source, tokens, first, direction, rest, depth);
    }
    match kind_of(first.class) {
        Some(kind) => channel_port(alloc, source, tokens, first, kind, rest, depth),
        None => unreachable!(),
    }
}

/// The ports that the tokens begin with.
pub fn read_ports<'a>(
    alloc: Global,
    source: &[u8],
    tokens: &'a [Token],
    depth: u32,
) -> Result<Read<'a, Vec<Port<Name>>>, Stop<'a>>
    ensures { MatchResult result (λ r. ReadsPorts source.now tokens.now depth r.value.items
        r.rest.now) (λ s. FailsAt (PortList ∷ []) tokens.now depth 0 s) }
{
    let mut ports = Vec::new(alloc);
    let mut rest = tokens;
    while begins_port(rest) {
        match read_port(alloc, source, rest, depth) {
            Ok(read) => {
                if !add_port(&mut ports, read.value) {
                    return Err(Stop::NoMemory);
                }
                rest = read.rest;
            }
            Err(stop) => return Err(stop),
        }
    }
    Ok(Read { value: ports, rest })
}
