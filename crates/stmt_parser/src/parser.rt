ghost use Rattle.std.specs.Prelude.{◌≤◌, length, MatchResult};
ghost use Rattle.java_values.specs.SourceLimits.{most_source_bytes};
ghost use Rattle.stmt_parser.specs.definitions.Parsing.{IsTreeOf, IsNoProgram};
ghost use Rattle.stmt_parser.specs.Reading.{Stops};

use crate::program::read_program;
use expr_parser::read::Stop;
use expr_parser::{ParseError, place_of};
use sj_ast::{Name, Raw, Tree};
use sj_lexer::Token;
use std::alloc::Global;

/// The program that all the tokens are.
fn whole<'a>(
    alloc: Global,
    source: &[u8],
    tokens: &'a [Token],
) -> Result<Tree<Name, Raw<Name>>, Stop<'a>>
    ensures { MatchResult result (λ t. IsTreeOf source.now tokens.now t) (λ s. Stops tokens.now s) }
{
    match read_program(alloc, source, tokens) {
        Ok(read) => match read.rest {
            [] => Ok(read.value),
            [_, ..] => Err(Stop::Syntax(read.rest)),
        },
        Err(stop) => Err(stop),
    }
}

/// The tree of the program that the tokens of a source are. `Syntax` is at the first token such that the
/// tokens up to and with it begin no program, and `TooDeep` at the first one that opens the 65th level or
/// is the 257th operator of one expression or test.
pub fn parse(
    alloc: Global,
    tokens: &[Token],
    source: &[u8],
) -> Result<Tree<Name, Raw<Name>>, ParseError>
    requires { length source.now ≤ most_source_bytes }
    ensures { MatchResult result (λ t. IsTreeOf source.now tokens.now t)
        (λ e. IsNoProgram source.now tokens.now e) }
{
    match whole(alloc, source, tokens) {
        Ok(tree) => Ok(tree),
        Err(Stop::Syntax(bad)) => Err(ParseError::Syntax(place_of(bad, source))),
        Err(Stop::TooDeep(bad)) => Err(ParseError::TooDeep(place_of(bad, source))),
        Err(Stop::NoMemory) => Err(ParseError::NoMemory),
    }
}
