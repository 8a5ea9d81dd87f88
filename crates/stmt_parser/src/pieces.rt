ghost use Rattle.std.specs.Prelude.{◌≡◌, [], ◌∷◌, MatchOption, MatchResult};
ghost use Rattle.sj_lexer.specs.declared.token.Class.TheVariants as class_is;
ghost use Rattle.sj_lexer.specs.declared.token.Mark.TheVariants as mark;
ghost use Rattle.sj_lexer.specs.declared.token.Word.TheVariants as word;
ghost use Rattle.sj_grammar.specs.definitions.Machine.{T, CombinePart, CombineSign};
ghost use Rattle.expr_parser.specs.Reading.{IsFirst, FailsAt};
ghost use Rattle.stmt_parser.specs.Reading.{ReadsName, ReadsNamed, ReadsNameEnd, ReadsCombineSign, ReadsCombined, Lacks, Skips};

use expr_parser::expression::MOST_OPEN;
use expr_parser::head::after;
use expr_parser::read::{Read, Stop};
use expr_parser::tree::name_of;
use sj_ast::{Combination, Name};
use sj_grammar::combine_of;
use sj_lexer::{Class, Mark, Token, Word};
use std::alloc::Global;

/// The token of this class, and those behind it.
pub fn expect<'a>(tokens: &'a [Token], wanted: Class) -> Result<Read<'a, Token>, Stop<'a>>
    ensures { MatchResult result (λ f. IsFirst wanted tokens.now f.value f.rest.now)
        (λ s. Lacks wanted tokens.now s) }
{
    match after(tokens, wanted) {
        Some(first) => Ok(first),
        None => Err(Stop::Syntax(tokens)),
    }
}

/// NAME
pub fn read_name<'a>(
    alloc: Global,
    source: &[u8],
    tokens: &'a [Token],
    depth: u32,
) -> Result<Read<'a, Name>, Stop<'a>>
    ensures { MatchResult result (λ r. ReadsName source.now tokens.now r.value r.rest.now)
        (λ s. FailsAt (T class_is.Name ∷ []) tokens.now depth 0 s) }
{
    match expect(tokens, Class::Name) {
        Ok(token) => match name_of(alloc, source, &token.value) {
            Ok(name) => Ok(Read {
                value: name,
                rest: token.rest,
            }),
            Err(_) => Err(Stop::NoMemory),
        },
        Err(stop) => Err(stop),
    }
}

/// `(` NAME `)`
pub fn read_named<'a>(
    alloc: Global,
    source: &[u8],
    tokens: &'a [Token],
    depth: u32,
) -> Result<Read<'a, Name>, Stop<'a>>
    ensures { MatchResult result (λ r. ReadsNamed source.now tokens.now depth r.value r.rest.now)
        (λ s. FailsAt (T (class_is.Mark mark.OpenParen) ∷ T class_is.Name ∷
        T (class_is.Mark mark.CloseParen) ∷ []) tokens.now depth 0 s) }
{
    let open = match expect(tokens, Class::Mark(Mark::OpenParen)) {
        Ok(open) => open,
        Err(stop) => return Err(stop),
    };
    if depth >= MOST_OPEN {
        return Err(Stop::TooDeep(tokens));
    }
    match read_name(alloc, source, open.rest, depth + 1) {
        Ok(read) => match expect(read.rest, Class::Mark(Mark::CloseParen)) {
            Ok(close) => Ok(Read {
                value: read.value,
                rest: close.rest,
            }),
            Err(stop) => Err(stop),
        },
        Err(stop) => Err(stop),
    }
}

/// NAME `;`
pub fn read_name_end<'a>(
    alloc: Global,
    source: &[u8],
    tokens: &'a [Token],
    depth: u32,
) -> Result<Read<'a, Name>, Stop<'a>>
    ensures { MatchResult result (λ r. ReadsNameEnd source.now tokens.now depth r.value r.rest.now)
        (λ s. FailsAt (T class_is.Name ∷ T (class_is.Mark mark.Semicolon) ∷
        []) tokens.now depth 0 s) }
{
    match read_name(alloc, source, tokens, depth) {
        Ok(read) => match expect(read.rest, Class::Mark(Mark::Semicolon)) {
            Ok(end) => Ok(Read {
                value: read.value,
                rest: end.rest,
            }),
            Err(stop) => Err(stop),
        },
        Err(stop) => Err(stop),
    }
}

/// The sign of a combination.
fn combine_sign<'a>(tokens: &'a [Token], depth: u32) -> Result<Read<'a, Combination>, Stop<'a>>
    ensures { MatchResult result (λ r. ReadsCombineSign tokens.now depth r.value.operator r.value.at
        r.rest.now) (λ s. FailsAt (CombineSign ∷ []) tokens.now depth 0 s) }
{
    let Some((sign, rest)) = tokens.split_first() else {
        return Err(Stop::Syntax(tokens));
    };
    match combine_of(sign.class) {
        Some(operator) => Ok(Read {
            value: Combination {
                at: sign.start,
                operator,
            },
            rest,
        }),
        None => Err(Stop::Syntax(tokens)),
    }
}

/// A `combine` that the tokens begin with.
fn combine_at(tokens: &[Token]) -> Option<Read<Token>>
    ensures { MatchOption result (Skips CombinePart tokens.now)
        (λ f. IsFirst (class_is.Reserved word.Combine) tokens.now f.value f.rest.now) }
{
    match after(tokens, Class::Reserved(Word::Combine)) {
        Some(first) => Some(first),
        None => None,
    }
}

/// [ `combine` operator ]
pub fn read_combined<'a>(
    tokens: &'a [Token],
    depth: u32,
) -> Result<Read<'a, Option<Combination>>, Stop<'a>>
    ensures { MatchResult result (λ r. ReadsCombined tokens.now depth r.value r.rest.now)
        (λ s. FailsAt (CombinePart ∷ []) tokens.now depth 0 s) }
{
    let Some(keyword) = combine_at(tokens) else {
        return Ok(Read {
            value: None,
            rest: tokens,
        });
    };
    match combine_sign(keyword.rest, depth) {
        Ok(read) => Ok(Read {
            value: Some(read.value),
            rest: read.rest,
        }),
        Err(stop) => Err(stop),
    }
}
