ghost use Rattle.std.specs.Prelude.{◌≡◌, ◌≤◌, [], ◌∷◌, MatchResult};
ghost use Rattle.sj_grammar.specs.declared.role.TestLead.TheVariants as test_lead;
ghost use Rattle.sj_grammar.specs.definitions.Roles.{test_lead_of};
ghost use Rattle.sj_grammar.specs.definitions.Machine.{TestOperand, MoreTest};
ghost use Rattle.expr_parser.specs.Reading.{join_level_of, ReadsTestOperand, ReadsTestFrom, TestGrows, FailsAt};

use crate::expression::{MOST_OPEN, MOST_OPERATORS};
use crate::head::{after, join_level_of};
use crate::read::{Counted, Read, Stop};
use crate::tree::{make_join, make_not, make_test_group, name_of};
use sj_ast::{Name, Test};
use sj_grammar::{TestLead, join_level, join_of, test_lead_of};
use sj_lexer::{Class, Mark, Token};
use std::alloc::Global;

fn signal<'a>(
    alloc: Global,
    source: &[u8],
    tokens: &'a [Token],
    first: &Token,
    rest: &'a [Token],
    depth: u32,
    operators: u32,
) -> Result<Read<'a, Counted<Test<Name>>>, Stop<'a>>
    requires is { tokens.now ≡ first.now ∷ rest.now }
    requires role { test_lead_of first.now.class ≡ test_lead.Signal }
    ensures { MatchResult result (λ r. ReadsTestOperand source.now tokens.now depth operators
        r.value.tree r.value.operators r.rest.now) (λ s. FailsAt (TestOperand ∷
        []) tokens.now depth operators s) }
{
    match name_of(alloc, source, first) {
        Ok(name) => Ok(Read {
            value: Counted {
                tree: Test::Signal {
                    at: first.start,
                    name,
                },
                operators,
            },
            rest,
        }),
        Err(_) => Err(Stop::NoMemory),
    }
}

/// The operand after a `!`.
#[cycle(tests)]
fn not<'a>(
    alloc: Global,
    source: &[u8],
    tokens: &'a [Token],
    first: &Token,
    rest: &'a [Token],
    depth: u32,
    operators: u32,
) -> Result<Read<'a, Counted<Test<Name>>>, Stop<'a>>
    requires is { tokens.now ≡ first.now ∷ rest.now }
    requires role { test_lead_of first.now.class ≡ test_lead.Not }
    ensures { MatchResult result (λ r. ReadsTestOperand source.now tokens.now depth operators
        r.value.tree r.value.operators r.rest.now) (λ s. FailsAt (TestOperand ∷
        []) tokens.now depth operators s) }
{
    if operators >= MOST_OPERATORS {
        return Err(Stop::TooDeep(tokens));
    }
    match test_operand(alloc, source, rest, depth, operators + 1) {
        Ok(read) => {
            let Counted { tree, operators } = read.value;
            match make_not(alloc, first.start, tree) {
                Ok(tree) => Ok(Read {
                    value: Counted { tree, operators },
                    rest: read.rest,
                }),
                Err(_) => Err(Stop::NoMemory),
            }
        }
        Err(stop) => Err(stop),
    }
}

/// A test in parentheses.
#[cycle(tests)]
fn test_group<'a>(
    alloc: Global,
    source: &[u8],
    tokens: &'a [Token],
    first: &Token,
    rest: &'a [Token],
    depth: u32,
    operators: u32,
) -> Result<Read<'a, Counted<Test<Name>>>, Stop<'a>>
    requires is { tokens.now ≡ first.now ∷ rest.now }
    requires role { test_lead_of first.now.class ≡ test_lead.Open }
    ensures { MatchResult result (λ r. ReadsTestOperand source.now tokens.now depth operators
        r.value.tree r.value.operators r.rest.now) (λ s. FailsAt (TestOperand ∷
        []) tokens.now depth operators s) }
{
    if depth >= MOST_OPEN {
        return Err(Stop::TooDeep(tokens));
    }
    match test_from(alloc, source, rest, 1, depth + 1, operators) {
        Ok(read) => match after(read.rest, Class::Mark(Mark::CloseParen)) {
            Some(close) => {
                let Counted { tree, operators } = read.value;
                match make_test_group(alloc, first.start, tree) {
                    Ok(tree) => Ok(Read {
                        value: Counted { tree, operators },
                        rest: close.rest,
                    }),
                    Err(_) => Err(Stop::NoMemory),
                }
            }
            None => Err(Stop::Syntax(read.rest)),
        },
        Err(stop) => Err(stop),
    }
}

/// The operand that the tokens begin with.
#[cycle(tests)]
fn test_operand<'a>(
    alloc: Global,
    source: &[u8],
    tokens: &'a [Token],
    depth: u32,
    operators: u32,
) -> Result<Read<'a, Counted<Test<Name>>>, Stop<'a>>
    ensures { MatchResult result (λ r. ReadsTestOperand source.now tokens.now depth operators
        r.value.tree r.value.operators r.rest.now) (λ s. FailsAt (TestOperand ∷
        []) tokens.now depth operators s) }
{
    let Some((first, rest)) = tokens.split_first() else {
        return Err(Stop::Syntax(tokens));
    };
    match test_lead_of(first.class) {
        TestLead::Signal => signal(alloc, source, tokens, first, rest, depth, operators),
        TestLead::Not => not(alloc, source, tokens, first, rest, depth, operators),
        TestLead::Open => test_group(alloc, source, tokens, first, rest, depth, operators),
        TestLead::Nothing => Err(Stop::Syntax(tokens)),
    }
}

/// The tree with the next operator and what is to its right.
#[cycle(tests)]
fn grow_test<'a>(
    alloc: Global,
    source: &[u8],
    tree: Test<Name>,
    tokens: &'a [Token],
    depth: u32,
    operators: u32,
) -> Result<Read<'a, Counted<Test<Name>>>, Stop<'a>>
    requires { 1 ≤ join_level_of tokens.now }
    ensures { MatchResult result (λ r. TestGrows source.now tokens.now depth operators tree
        r.value.tree r.value.operators r.rest.now) (λ s. FailsAt (MoreTest ∷
        []) tokens.now depth operators s) }
{
    let Some((first, rest)) = tokens.split_first() else {
        unreachable!()
    };
    let Some(join) = join_of(first.class) else {
        unreachable!()
    };
    if operators >= MOST_OPERATORS {
        return Err(Stop::TooDeep(tokens));
    }
    match test_from(
        alloc,
        source,
        rest,
        join_level(join) + 1,
        depth,
        operators + 1,
    ) {
        Ok(read) => {
            let Counted {
                tree: right,
                operators,
            } = read.value;
            match make_join(alloc, first.start, join, tree, right) {
                Ok(tree) => Ok(Read {
                    value: Counted { tree, operators },
                    rest: read.rest,
                }),
                Err(_) => Err(Stop::NoMemory),
            }
        }
        Err(stop) => Err(stop),
    }
}

/// The test that the tokens begin with, as far as its operators have at least a level.
#[cycle(tests)]
pub fn test_from<'a>(
    alloc: Global,
    source: &[u8],
    tokens: &'a [Token],
    least: u32,
    depth: u32,
    operators: u32,
) -> Result<Read<'a, Counted<Test<Name>>>, Stop<'a>>
    requires low { 1 ≤ least }
    requires high { least ≤ 3 }
    ensures { MatchResult result (λ r. ReadsTestFrom source.now tokens.now depth operators least
        r.value.tree r.value.operators r.rest.now) (λ s. FailsAt (TestOperand ∷ MoreTest ∷
        []) tokens.now depth operators s) }
{
    let mut read = match test_operand(alloc, source, tokens, depth, operators) {
        Ok(read) => read,
        Err(stop) => return Err(stop),
    };
    while join_level_of(read.rest) >= least {
        let Counted { tree, operators } = read.value;
        read = match grow_test(alloc, source, tree, read.rest, depth, operators) {
            Ok(read) => read,
            Err(stop) => return Err(stop),
        };
    }
    Ok(read)
}
