// The longest run of tokens from a token on.

ghost use Rattle.std.specs.Prelude.{◌≡◌, ◌≤◌, ◌-◌, length, drop, MatchResult, true, false};
ghost use Rattle.java_values.specs.SourceLimits.{most_source_bytes};
ghost use Rattle.sj_grammar.specs.definitions.Sentences.{AreExpression, AreTest, BeginExpression, BeginTest};
ghost use Rattle.expr_parser.specs.definitions.Longest.{ReadsExpression, ReadsTest, FailsFrom, place_of};
ghost use Rattle.expr_parser.specs.Reading.{ExpressionBefore, TestBefore, Stops};

use crate::expression::expression;
use crate::read::{Counted, Read, Stop};
use crate::test_parser::test_from;
use sj_ast::{Name, Raw, Test};
use sj_lexer::Token;
use std::alloc::Global;
use thiserror::Error;

/// What can't be read, at the byte offset of a token.
#[derive(Clone, Copy, Debug, PartialEq, Eq, Error)]
pub enum ParseError {
    /// The token after the longest run, which is no whole sentence.
    #[error("a syntax error at {0}")]
    Syntax(u32),
    /// A token that opens a level too many, or is an operator too many.
    #[error("too deep at {0}")]
    TooDeep(u32),
    /// An allocation was refused.
    #[error("no memory")]
    NoMemory,
}

/// An expression, and the number of the token after it.
#[derive(Debug, Drop)]
pub struct ExprRead {
    pub tree: Raw<Name>,
    pub next: usize,
}

/// A test, and the number of the token after it.
#[derive(Debug, Drop)]
pub struct TestRead {
    pub tree: Test<Name>,
    pub next: usize,
}

fn longest_expression<'a>(
    alloc: Global,
    source: &[u8],
    tokens: &'a [Token],
    depth: u32,
) -> Result<Read<'a, Counted<Raw<Name>>>, Stop<'a>>
    ensures { MatchResult result (λ r. ExpressionBefore source.now tokens.now depth r.value.tree
        r.rest.now) (λ s. Stops BeginExpression AreExpression true tokens.now depth s) }
{
    match expression(alloc, source, tokens, 1, depth, 0) {
        Ok(read) => Ok(read),
        Err(stop) => Err(stop),
    }
}

fn longest_test<'a>(
    alloc: Global,
    source: &[u8],
    tokens: &'a [Token],
    depth: u32,
) -> Result<Read<'a, Counted<Test<Name>>>, Stop<'a>>
    ensures { MatchResult result (λ r. TestBefore source.now tokens.now depth r.value.tree
        r.rest.now) (λ s. Stops BeginTest AreTest false tokens.now depth s) }
{
    match test_from(alloc, source, tokens, 1, depth, 0) {
        Ok(read) => Ok(read),
        Err(stop) => Err(stop),
    }
}

/// The place of the first of these tokens, or the end of the source.
pub fn place_of(tokens: &[Token], source: &[u8]) -> u32
    requires { length source.now ≤ most_source_bytes }
    ensures { result ≡ place_of tokens.now (length source.now) }
{
    match tokens.split_first() {
        Some((first, _)) => first.start,
        None => source.len() as u32,
    }
}

/// The place of the first of the last tokens, of which there are as many as in `bad`.
fn place(tokens: &[Token], bad: &[Token], source: &[u8]) -> u32
    requires fits { length bad.now ≤ length tokens.now }
    requires small { length source.now ≤ most_source_bytes }
    ensures { result ≡
        place_of (drop (length tokens.now - length bad.now) tokens.now) (length source.now) }
{
    let (_, last) = tokens.split_at(tokens.len() - bad.len());
    place_of(last, source)
}

/// The longest run of tokens from `from` on that begins an expression, where it is one. `depth` is the
/// number of braces and parentheses that are open before it.
pub fn expr(
    alloc: Global,
    tokens: &[Token],
    from: usize,
    source: &[u8],
    depth: u32,
) -> Result<ExprRead, ParseError>
    requires from { from ≤ length tokens.now }
    requires small { length source.now ≤ most_source_bytes }
    ensures { MatchResult result (λ r. ReadsExpression source.now tokens.now from depth r.tree
        r.next) (λ e. FailsFrom BeginExpression AreExpression true source.now tokens.now from
        depth e) }
{
    let (_, rest) = tokens.split_at(from);
    match longest_expression(alloc, source, rest, depth) {
        Ok(read) => Ok(ExprRead {
            tree: read.value.tree,
            next: tokens.len() - read.rest.len(),
        }),
        Err(Stop::Syntax(bad)) => Err(ParseError::Syntax(place(tokens, bad, source))),
        Err(Stop::TooDeep(bad)) => Err(ParseError::TooDeep(place(tokens, bad, source))),
        Err(Stop::NoMemory) => Err(ParseError::NoMemory),
    }
}

/// The longest run of tokens from `from` on that begins a test, where it is one. `depth` is the number
/// of braces and parentheses that are open before it.
pub fn test(
    alloc: Global,
    tokens: &[Token],
    from: usize,
    source: &[u8],
    depth: u32,
) -> Result<TestRead, ParseError>
    requires from { from ≤ length tokens.now }
    requires small { length source.now ≤ most_source_bytes }
    ensures { MatchResult result (λ r. ReadsTest source.now tokens.now from depth r.tree r.next)
        (λ e. FailsFrom BeginTest AreTest false source.now tokens.now from depth e) }
{
    let (_, rest) = tokens.split_at(from);
    match longest_test(alloc, source, rest, depth) {
        Ok(read) => Ok(TestRead {
            tree: read.value.tree,
            next: tokens.len() - read.rest.len(),
        }),
        Err(Stop::Syntax(bad)) => Err(ParseError::Syntax(place(tokens, bad, source))),
        Err(Stop::TooDeep(bad)) => Err(ParseError::TooDeep(place(tokens, bad, source))),
        Err(Stop::NoMemory) => Err(ParseError::NoMemory),
    }
}
