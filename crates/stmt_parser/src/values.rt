ghost use Rattle.std.specs.Prelude.{◌≡◌, ◌+◌, ◌<◌, true, [], ◌∷◌, MatchOption, MatchResult};
ghost use Rattle.sj_lexer.specs.declared.token.Class.TheVariants as class_is;
ghost use Rattle.sj_lexer.specs.declared.token.Mark.TheVariants as mark;
ghost use Rattle.sj_lexer.specs.declared.token.Word.TheVariants as word;
ghost use Rattle.sj_grammar.specs.definitions.Machine.{T, Operand, More, TestOperand, MoreTest, ImmediatePart, ValuePart, AssignSign};
ghost use Rattle.expr_parser.specs.Reading.{IsFirst, FailsAt};
ghost use Rattle.stmt_parser.specs.Reading.{ReadsValue, ReadsTest, ReadsClosed, ReadsClosedTest, ReadsParens, ReadsTestParens, ReadsGuard, ReadsTrue, ReadsGiven, ReadsAssignSign, Skips};

use crate::pieces::expect;
use expr_parser::expression::{MOST_OPEN, expression};
use expr_parser::head::after;
use expr_parser::read::{Read, Stop};
use expr_parser::test_parser::test_from;
use java_values::Op2;
use sj_ast::{Name, Raw, Test};
use sj_grammar::assign_of;
use sj_lexer::{Class, Mark, Token, Word};
use std::alloc::Global;

/// A test in parentheses, and whether `immediate` stands before it.
#[derive(Drop)]
pub struct Guard {
    pub immediate: bool,
    pub test: Test<Name>,
}

/// The sign of an assignment: its operator, where it has one, and its place.
#[derive(Clone, Copy)]
pub struct Assignment {
    pub op: Option<Op2>,
    pub at: u32,
}

/// An expression.
pub fn read_value<'a>(
    alloc: Global,
    source: &[u8],
    tokens: &'a [Token],
    depth: u32,
) -> Result<Read<'a, Raw<Name>>, Stop<'a>>
    ensures { MatchResult result (λ r. ReadsValue source.now tokens.now depth r.value r.rest.now)
        (λ s. FailsAt (Operand ∷ More ∷ []) tokens.now depth 0 s) }
{
    match expression(alloc, source, tokens, 1, depth, 0) {
        Ok(read) => Ok(Read {
            value: read.value.tree,
            rest: read.rest,
        }),
        Err(stop) => Err(stop),
    }
}

/// A test.
pub fn read_test<'a>(
    alloc: Global,
    source: &[u8],
    tokens: &'a [Token],
    depth: u32,
) -> Result<Read<'a, Test<Name>>, Stop<'a>>
    ensures { MatchResult result (λ r. ReadsTest source.now tokens.now depth r.value r.rest.now)
        (λ s. FailsAt (TestOperand ∷ MoreTest ∷ []) tokens.now depth 0 s) }
{
    match test_from(alloc, source, tokens, 1, depth, 0) {
        Ok(read) => Ok(Read {
            value: read.value.tree,
            rest: read.rest,
        }),
        Err(stop) => Err(stop),
    }
}

/// An expression and `)`, one level deeper.
fn closed_value<'a>(
    alloc: Global,
    source: &[u8],
    tokens: &'a [Token],
    depth: u32,
) -> Result<Read<'a, Raw<Name>>, Stop<'a>>
    requires { depth < 64 }
    ensures { MatchResult result (λ r. ReadsClosed source.now tokens.now depth r.value r.rest.now)
        (λ s. FailsAt (Operand ∷ More ∷ T (class_is.Mark mark.CloseParen) ∷
        []) tokens.now (depth + 1) 0 s) }
{
    match read_value(alloc, source, tokens, depth + 1) {
        Ok(read) => match expect(read.rest, Class::Mark(Mark::CloseParen)) {
            Ok(close) => Ok(Read {
                value: read.value,
                rest: close.rest,
            }),
            Err(stop) => Err(stop),
        },
        Err(stop) => Err(stop),
    }
}

/// A test and `)`, one level deeper.
fn closed_test<'a>(
    alloc: Global,
    source: &[u8],
    tokens: &'a [Token],
    depth: u32,
) -> Result<Read<'a, Test<Name>>, Stop<'a>>
    requires { depth < 64 }
    ensures { MatchResult result (λ r. ReadsClosedTest source.now tokens.now depth r.value
        r.rest.now) (λ s. FailsAt (TestOperand ∷ MoreTest ∷ T (class_is.Mark mark.CloseParen) ∷
        []) tokens.now (depth + 1) 0 s) }
{
    match read_test(alloc, source, tokens, depth + 1) {
        Ok(read) => match expect(read.rest, Class::Mark(Mark::CloseParen)) {
            Ok(close) => Ok(Read {
                value: read.value,
                rest: close.rest,
            }),
            Err(stop) => Err(stop),
        },
        Err(stop) => Err(stop),
    }
}

/// `(` expression `)`
pub fn read_parens<'a>(
    alloc: Global,
    source: &[u8],
    tokens: &'a [Token],
    depth: u32,
) -> Result<Read<'a, Raw<Name>>, Stop<'a>>
    ensures { MatchResult result (λ r. ReadsParens source.now tokens.now depth r.value r.rest.now)
        (λ s. FailsAt (T (class_is.Mark mark.OpenParen) ∷ Operand ∷ More ∷
        T (class_is.Mark mark.CloseParen) ∷ []) tokens.now depth 0 s) }
{
    let open = match expect(tokens, Class::Mark(Mark::OpenParen)) {
        Ok(open) => open,
        Err(stop) => return Err(stop),
    };
    if depth >= MOST_OPEN {
        return Err(Stop::TooDeep(tokens));
    }
    match closed_value(alloc, source, open.rest, depth) {
        Ok(read) => Ok(read),
        Err(stop) => Err(stop),
    }
}

/// `(` test `)`
pub fn read_test_parens<'a>(
    alloc: Global,
    source: &[u8],
    tokens: &'a [Token],
    depth: u32,
) -> Result<Read<'a, Test<Name>>, Stop<'a>>
    ensures { MatchResult result (λ r. ReadsTestParens source.now tokens.now depth r.value
        r.rest.now) (λ s. FailsAt (T (class_is.Mark mark.OpenParen) ∷ TestOperand ∷ MoreTest ∷
        T (class_is.Mark mark.CloseParen) ∷ []) tokens.now depth 0 s) }
{
    let open = match expect(tokens, Class::Mark(Mark::OpenParen)) {
        Ok(open) => open,
        Err(stop) => return Err(stop),
    };
    if depth >= MOST_OPEN {
        return Err(Stop::TooDeep(tokens));
    }
    match closed_test(alloc, source, open.rest, depth) {
        Ok(read) => Ok(read),
        Err(stop) => Err(stop),
    }
}

/// An `immediate` that the tokens begin with.
fn immediate_at(tokens: &[Token]) -> Option<Read<Token>>
    ensures { MatchOption result (Skips ImmediatePart tokens.now)
        (λ f. IsFirst (class_is.Reserved word.Immediate) tokens.now f.value f.rest.now) }
{
    match after(tokens, Class::Reserved(Word::Immediate)) {
        Some(first) => Some(first),
        None => None,
    }
}

/// `(` [ `immediate` ] test `)`
pub fn read_guard<'a>(
    alloc: Global,
    source: &[u8],
    tokens: &'a [Token],
    depth: u32,
) -> Result<Read<'a, Guard>, Stop<'a>>
    ensures { MatchResult result (λ r. ReadsGuard source.now tokens.now depth r.value.immediate
        r.value.test r.rest.now) (λ s. FailsAt (T (class_is.Mark mark.OpenParen) ∷ ImmediatePart ∷
        TestOperand ∷ MoreTest ∷ T (class_is.Mark mark.CloseParen) ∷ []) tokens.now depth 0 s) }
{
    let open = match expect(tokens, Class::Mark(Mark::OpenParen)) {
        Ok(open) => open,
        Err(stop) => return Err(stop),
    };
    if depth >= MOST_OPEN {
        return Err(Stop::TooDeep(tokens));
    }
    match immediate_at(open.rest) {
        Some(keyword) => match closed_test(alloc, source, keyword.rest, depth) {
            Ok(read) => Ok(Read {
                value: Guard {
                    immediate: true,
                    test: read.value,
                },
                rest: read.rest,
            }),
            Err(stop) => Err(stop),
        },
        None => match closed_test(alloc, source, open.rest, depth) {
            Ok(read) => Ok(Read {
                value: Guard {
                    immediate: false,
                    test: read.value,
                },
                rest: read.rest,
            }),
            Err(stop) => Err(stop),
        },
    }
}

/// `(` `true` `)`
pub fn read_true<'a>(tokens: &'a [Token], depth: u32) -> Result<&'a [Token], Stop<'a>>
    ensures { MatchResult result (λ r. ReadsTrue tokens.now depth r.now)
        (λ s. FailsAt (T (class_is.Mark mark.OpenParen) ∷ T (class_is.Reserved word.True) ∷
        T (class_is.Mark mark.CloseParen) ∷ []) tokens.now depth 0 s) }
{
    let open = match expect(tokens, Class::Mark(Mark::OpenParen)) {
        Ok(open) => open,
        Err(stop) => return Err(stop),
    };
    if depth >= MOST_OPEN {
        return Err(Stop::TooDeep(tokens));
    }
    match expect(open.rest, Class::Reserved(Word::True)) {
        Ok(truth) => match expect(truth.rest, Class::Mark(Mark::CloseParen)) {
            Ok(close) => Ok(close.rest),
            Err(stop) => Err(stop),
        },
        Err(stop) => Err(stop),
    }
}

/// A `(` before a value.
fn value_at(tokens: &[Token]) -> Option<Read<Token>>
    ensures { MatchOption result (Skips ValuePart tokens.now)
        (λ f. IsFirst (class_is.Mark mark.OpenParen) tokens.now f.value f.rest.now) }
{
    match after(tokens, Class::Mark(Mark::OpenParen)) {
        Some(first) => Some(first),
        None => None,
    }
}

/// [ `(` expression `)` ]
pub fn read_given<'a>(
    alloc: Global,
    source: &[u8],
    tokens: &'a [Token],
    depth: u32,
) -> Result<Read<'a, Option<Raw<Name>>>, Stop<'a>>
    ensures { MatchResult result (λ r. ReadsGiven source.now tokens.now depth r.value r.rest.now)
        (λ s. FailsAt (ValuePart ∷ []) tokens.now depth 0 s) }
{
    let Some(open) = value_at(tokens) else {
        return Ok(Read {
            value: None,
            rest: tokens,
        });
    };
    if depth >= MOST_OPEN {
        return Err(Stop::TooDeep(tokens));
    }
    match closed_value(alloc, source, open.rest, depth) {
        Ok(read) => Ok(Read {
            value: Some(read.value),
            rest: read.rest,
        }),
        Err(stop) => Err(stop),
    }
}

/// The sign of an assignment.
pub fn read_assign<'a>(tokens: &'a [Token], depth: u32) -> Result<Read<'a, Assignment>, Stop<'a>>
    ensures { MatchResult result (λ r. ReadsAssignSign tokens.now depth r.value.op r.value.at
        r.rest.now) (λ s. FailsAt (AssignSign ∷ []) tokens.now depth 0 s) }
{
    let Some((sign, rest)) = tokens.split_first() else {
        return Err(Stop::Syntax(tokens));
    };
    match assign_of(sign.class) {
        Some(op) => Ok(Read {
            value: Assignment { op, at: sign.start },
            rest,
        }),
        None => Err(Stop::Syntax(tokens)),
    }
}
