ghost use Rattle.std.specs.Prelude.{◌≡◌, MatchOption};
ghost use Rattle.expr_parser.specs.Reading.{IsNotFirst, NoFirstEdge, NoFirstKind, IsFirst, IsFirstEdge, IsFirstKind, infix_level, join_level_of};

use crate::read::Read;
use java_values::Kind;
use sj_grammar::{infix_of, is_edge, join_level, join_of, kind_of, level_of, same};
use sj_lexer::{Class, Token};

/// The token of this class and the tokens after it, where they begin with one.
pub fn after(tokens: &[Token], wanted: Class) -> Option<Read<Token>>
    ensures { MatchOption result (IsNotFirst wanted tokens.now)
        (λ f. IsFirst wanted tokens.now f.value f.rest.now) }
{
    let (first, rest) = tokens.split_first()?;
    if same(wanted, first.class) {
        Some(Read {
            value: *first,
            rest,
        })
    } else {
        None
    }
}

/// The number that is one only behind a minus, where the tokens begin with one.
pub fn edge_at(tokens: &[Token]) -> Option<Read<Token>>
    ensures { MatchOption result (NoFirstEdge tokens.now)
        (λ f. IsFirstEdge tokens.now f.value f.rest.now) }
{
    let (first, rest) = tokens.split_first()?;
    if is_edge(first.class) {
        Some(Read {
            value: *first,
            rest,
        })
    } else {
        None
    }
}

/// The kind that the tokens begin with.
pub fn kind_at(tokens: &[Token]) -> Option<Read<Kind>>
    ensures { MatchOption result (NoFirstKind tokens.now)
        (λ f. IsFirstKind tokens.now f.value f.rest.now) }
{
    let (first, rest) = tokens.split_first()?;
    match kind_of(first.class) {
        Some(kind) => Some(Read { value: kind, rest }),
        None => None,
    }
}

/// The level of the operator that the tokens begin with, and 0 where they begin with none.
pub fn infix_level(tokens: &[Token]) -> u32
    ensures { result ≡ infix_level tokens.now }
{
    let Some((first, _)) = tokens.split_first() else {
        return 0;
    };
    match infix_of(first.class) {
        Some(op) => level_of(op),
        None => 0,
    }
}

/// The level of the operator of tests that the tokens begin with, and 0 where they begin with none.
pub fn join_level_of(tokens: &[Token]) -> u32
    ensures { result ≡ join_level_of tokens.now }
{
    let Some((first, _)) = tokens.split_first() else {
        return 0;
    };
    match join_of(first.class) {
        Some(join) => join_level(join),
        None => 0,
    }
}
