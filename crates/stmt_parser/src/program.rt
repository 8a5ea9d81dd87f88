ghost use Rattle.std.specs.Prelude.{◌≡◌, ◌≤◌, [], ◌∷◌, ◌++◌, true, length, MatchResult};
ghost use Rattle.sj_lexer.specs.declared.token.Class.TheVariants as class_is;
ghost use Rattle.sj_lexer.specs.declared.token.Mark.TheVariants as mark;
ghost use Rattle.sj_lexer.specs.declared.token.Word.TheVariants as word;
ghost use Rattle.sj_grammar.specs.definitions.Machine.{T, PortList, InBraces, OthersPart, program};
ghost use Rattle.expr_parser.specs.Reading.{FailsAt};
ghost use Rattle.stmt_parser.specs.Reading.{ReadsInterface, ReadsDomains, ReadsProgram};

use crate::block::{braces, others};
use crate::pieces::expect;
use crate::ports::read_ports;
use expr_parser::read::{Read, Stop};
use sj_ast::{Block, Name, Port, Raw, Tree};
use sj_lexer::{Class, Mark, Token, Word};
use sqlite_items::Items;
use std::alloc::Global;

/// `system` `{` `interface` `{` { port } `}`
fn interface<'a>(
    alloc: Global,
    source: &[u8],
    tokens: &'a [Token],
) -> Result<Read<'a, Vec<Port<Name>>>, Stop<'a>>
    ensures { MatchResult result (λ r. ReadsInterface source.now tokens.now r.value.items
        r.rest.now) (λ s. FailsAt (T (class_is.Reserved word.System) ∷
        T (class_is.Mark mark.OpenBrace) ∷ T (class_is.Reserved word.Interface) ∷
        T (class_is.Mark mark.OpenBrace) ∷ PortList ∷ T (class_is.Mark mark.CloseBrace) ∷
        []) tokens.now 0 0 s) }
{
    match expect(tokens, Class::Reserved(Word::System)) {
        Ok(system) => match expect(system.rest, Class::Mark(Mark::OpenBrace)) {
            Ok(open) => match expect(open.rest, Class::Reserved(Word::Interface)) {
                Ok(word) => match expect(word.rest, Class::Mark(Mark::OpenBrace)) {
                    Ok(inner) => match read_ports(alloc, source, inner.rest, 2) {
                        Ok(read) => match expect(read.rest, Class::Mark(Mark::CloseBrace)) {
                            Ok(close) => Ok(Read {
                                value: read.value,
                                rest: close.rest,
                            }),
                            Err(stop) => Err(stop),
                        },
                        Err(stop) => Err(stop),
                    },
                    Err(stop) => Err(stop),
                },
                Err(stop) => Err(stop),
            },
            Err(stop) => Err(stop),
        },
        Err(stop) => Err(stop),
    }
}

fn put_first(blocks: &mut Vec<Block<Name, Raw<Name>>>, first: Block<Name, Raw<Name>>) -> bool
    ensures { result ≡ true → blocks.new.items ≡ first ∷ blocks.old.items }
{
    blocks.insert(0, first).is_ok()
}

/// block { `><` block } `}`
fn domains<'a>(
    alloc: Global,
    source: &[u8],
    tokens: &'a [Token],
) -> Result<Read<'a, Vec<Block<Name, Raw<Name>>>>, Stop<'a>>
    ensures { MatchResult result (λ r. ReadsDomains source.now tokens.now r.value.items r.rest.now)
        (λ s. FailsAt (InBraces ∷ OthersPart mark.Beside ∷ T (class_is.Mark mark.CloseBrace) ∷
        []) tokens.now 1 0 s) }
{
    match braces(alloc, source, tokens, 1) {
        Ok(first) => match others(alloc, source, first.rest, Mark::Beside, 1) {
            Ok(read) => match expect(read.rest, Class::Mark(Mark::CloseBrace)) {
                Ok(close) => {
                    let mut blocks = read.value;
                    if !put_first(&mut blocks, first.value) {
                        return Err(Stop::NoMemory);
                    }
                    Ok(Read {
                        value: blocks,
                        rest: close.rest,
                    })
                }
                Err(stop) => Err(stop),
            },
            Err(stop) => Err(stop),
        },
        Err(stop) => Err(stop),
    }
}

/// A program, and the tokens behind it.
pub fn read_program<'a>(
    alloc: Global,
    source: &[u8],
    tokens: &'a [Token],
) -> Result<Read<'a, Tree<Name, Raw<Name>>>, Stop<'a>>
    ensures { MatchResult result (λ r. ReadsProgram source.now tokens.now r.value r.rest.now)
        (λ s. FailsAt program tokens.now 0 0 s) }
{
    match interface(alloc, source, tokens) {
        Ok(ports) => match domains(alloc, source, ports.rest) {
            Ok(read) => Ok(Read {
                value: Tree {
                    ports: Items::from_vec(ports.value),
                    domains: Items::from_vec(read.value),
                },
                rest: read.rest,
            }),
            Err(stop) => Err(stop),
        },
        Err(stop) => Err(stop),
    }
}
