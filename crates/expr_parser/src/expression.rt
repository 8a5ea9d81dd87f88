ghost use Rattle.std.specs.Prelude.{◌≡◌, ◌<◌, ◌≤◌, [], ◌∷◌, MatchResult};
ghost use Rattle.sj_grammar.specs.declared.role.Lead.TheVariants as lead;
ghost use Rattle.sj_grammar.specs.definitions.Roles.{lead_of};
ghost use Rattle.sj_grammar.specs.definitions.Machine.{Operand, More};
ghost use Rattle.expr_parser.specs.Reading.{infix_level, NoFirstKind, IsFirstKind, ReadsOperand, ReadsFrom, Grows, FailsAt};

use crate::head::{after, edge_at, infix_level, kind_at};
use crate::read::{Counted, Read, Stop};
use crate::tree::{atom_of, least_of, make_binary, make_cast, make_group, make_unary, name_of};
use java_values::{Kind, Op1};
use sj_ast::{Name, Raw};
use sj_grammar::{Lead, infix_of, lead_of, level_of};
use sj_lexer::{Class, Mark, Token};
use std::alloc::Global;

/// How many braces and parentheses may be open at once.
pub const MOST_OPEN: u32 = 64;

/// How many operators an expression or a test may have.
pub const MOST_OPERATORS: u32 = 256;

/// A literal or a variable.
fn atom<'a>(
    alloc: Global,
    source: &[u8],
    tokens: &'a [Token],
    first: &Token,
    rest: &'a [Token],
    depth: u32,
    operators: u32,
) -> Result<Read<'a, Counted<Raw<Name>>>, Stop<'a>>
    requires is { tokens.now ≡ first.now ∷ rest.now }
    requires role { lead_of first.now.class ≡ lead.Atom }
    ensures { MatchResult result (λ r. ReadsOperand source.now tokens.now depth operators
        r.value.tree r.value.operators r.rest.now) (λ s. FailsAt (Operand ∷
        []) tokens.now depth operators s) }
{
    match atom_of(alloc, source, first) {
        Ok(tree) => Ok(Read {
            value: Counted { tree, operators },
            rest,
        }),
        Err(_) => Err(Stop::NoMemory),
    }
}

/// The name after a `#`.
fn status<'a>(
    alloc: Global,
    source: &[u8],
    tokens: &'a [Token],
    first: &Token,
    rest: &'a [Token],
    depth: u32,
    operators: u32,
) -> Result<Read<'a, Counted<Raw<Name>>>, Stop<'a>>
    requires is { tokens.now ≡ first.now ∷ rest.now }
    requires role { lead_of first.now.class ≡ lead.Hash }
    ensures { MatchResult result (λ r. ReadsOperand source.now tokens.now depth operators
        r.value.tree r.value.operators r.rest.now) (λ s. FailsAt (Operand ∷
        []) tokens.now depth operators s) }
{
    let Some(named) = after(rest, Class::Name) else {
        return Err(Stop::Syntax(rest));
    };
    match name_of(alloc, source, &named.value) {
        Ok(name) => Ok(Read {
            value: Counted {
                tree: Raw::Status {
                    at: first.start,
                    name_at: named.value.start,
                    name,
                },
                operators,
            },
            rest: named.rest,
        }),
        Err(_) => Err(Stop::NoMemory),
    }
}

/// The operand after an operator that isn't `-`.
#[cycle(expressions)]
fn prefix<'a>(
    alloc: Global,
    source: &[u8],
    tokens: &'a [Token],
    first: &Token,
    op: Op1,
    rest: &'a [Token],
    depth: u32,
    operators: u32,
) -> Result<Read<'a, Counted<Raw<Name>>>, Stop<'a>>
    requires is { tokens.now ≡ first.now ∷ rest.now }
    requires role { lead_of first.now.class ≡ lead.Prefix op }
    ensures { MatchResult result (λ r. ReadsOperand source.now tokens.now depth operators
        r.value.tree r.value.operators r.rest.now) (λ s. FailsAt (Operand ∷
        []) tokens.now depth operators s) }
{
    if operators >= MOST_OPERATORS {
        return Err(Stop::TooDeep(tokens));
    }
    match operand(alloc, source, rest, depth, operators + 1) {
        Ok(read) => {
            let Counted { tree, operators } = read.value;
            match make_unary(alloc, first.start, op, tree) {
                Ok(tree) => Ok(Read {
                    value: Counted { tree, operators },
                    rest: read.rest,
                }),
                Err(_) => Err(Stop::NoMemory),
            }
        }
        Err(stop) => Err(stop),
    }
}

/// The operand after a `-`, or the number after it that is none without it.
#[cycle(expressions)]
fn minus<'a>(
    alloc: Global,
    source: &[u8],
    tokens: &'a [Token],
    first: &Token,
    rest: &'a [Token],
    depth: u32,
    operators: u32,
) -> Result<Read<'a, Counted<Raw<Name>>>, Stop<'a>>
    requires is { tokens.now ≡ first.now ∷ rest.now }
    requires role { lead_of first.now.class ≡ lead.Minus }
    ensures { MatchResult result (λ r. ReadsOperand source.now tokens.now depth operators
        r.value.tree r.value.operators r.rest.now) (λ s. FailsAt (Operand ∷
        []) tokens.now depth operators s) }
{
    if operators >= MOST_OPERATORS {
        return Err(Stop::TooDeep(tokens));
    }
    if let Some(number) = edge_at(rest) {
        return Ok(Read {
            value: Counted {
                tree: Raw::Least {
                    at: first.start,
                    value: least_of(number.value.class),
                },
                operators: operators + 1,
            },
            rest: number.rest,
        });
    }
    match operand(alloc, source, rest, depth, operators + 1) {
        Ok(read) => {
            let Counted { tree, operators } = read.value;
            match make_unary(alloc, first.start, Op1::Minus, tree) {
                Ok(tree) => Ok(Read {
                    value: Counted { tree, operators },
                    rest: read.rest,
                }),
                Err(_) => Err(Stop::NoMemory),
            }
        }
        Err(stop) => Err(stop),
    }
}

/// The rest of a cast after its kind.
#[cycle(expressions)]
fn cast<'a>(
    alloc: Global,
    source: &[u8],
    tokens: &'a [Token],
    first: &Token,
    inside: &'a [Token],
    kind: Kind,
    rest: &'a [Token],
    depth: u32,
    operators: u32,
) -> Result<Read<'a, Counted<Raw<Name>>>, Stop<'a>>
    requires is { tokens.now ≡ first.now ∷ inside.now }
    requires role { lead_of first.now.class ≡ lead.Open }
    requires kind { IsFirstKind inside.now kind rest.now }
    requires within { depth < 64 }
    ensures { MatchResult result (λ r. ReadsOperand source.now tokens.now depth operators
        r.value.tree r.value.operators r.rest.now) (λ s. FailsAt (Operand ∷
        []) tokens.now depth operators s) }
{
    if operators >= MOST_OPERATORS {
        return Err(Stop::TooDeep(tokens));
    }
    let Some(close) = after(rest, Class::Mark(Mark::CloseParen)) else {
        return Err(Stop::Syntax(rest));
    };
    match operand(alloc, source, close.rest, depth, operators + 1) {
        Ok(read) => {
            let Counted { tree, operators } = read.value;
            match make_cast(alloc, first.start, kind, tree) {
                Ok(tree) => Ok(Read {
                    value: Counted { tree, operators },
                    rest: read.rest,
                }),
                Err(_) => Err(Stop::NoMemory),
            }
        }
        Err(stop) => Err(stop),
    }
}

/// The rest of an expression in parentheses.
#[cycle(expressions)]
fn group<'a>(
    alloc: Global,
    source: &[u8],
    tokens: &'a [Token],
    first: &Token,
    rest: &'a [Token],
    depth: u32,
    operators: u32,
) -> Result<Read<'a, Counted<Raw<Name>>>, Stop<'a>>
    requires is { tokens.now ≡ first.now ∷ rest.now }
    requires role { lead_of first.now.class ≡ lead.Open }
    requires no_kind { NoFirstKind rest.now }
    requires within { depth < 64 }
    ensures { MatchResult result (λ r. ReadsOperand source.now tokens.now depth operators
        r.value.tree r.value.operators r.rest.now) (λ s. FailsAt (Operand ∷
        []) tokens.now depth operators s) }
{
    match expression(alloc, source, rest, 1, depth + 1, operators) {
        Ok(read) => match after(read.rest, Class::Mark(Mark::CloseParen)) {
            Some(close) => {
                let Counted { tree, operators } = read.value;
                match make_group(alloc, first.start, tree) {
                    Ok(tree) => Ok(Read {
                        value: Counted { tree, operators },
                        rest: close.rest,
                    }),
                    Err(_) => Err(Stop::NoMemory),
                }
            }
            None => Err(Stop::Syntax(read.rest)),
        },
        Err(stop) => Err(stop),
    }
}

/// A cast or an expression in parentheses.
#[cycle(expressions)]
fn opened<'a>(
    alloc: Global,
    source: &[u8],
    tokens: &'a [Token],
    first: &Token,
    rest: &'a [Token],
    depth: u32,
    operators: u32,
) -> Result<Read<'a, Counted<Raw<Name>>>, Stop<'a>>
    requires is { tokens.now ≡ first.now ∷ rest.now }
    requires role { lead_of first.now.class ≡ lead.Open }
    ensures { MatchResult result (λ r. ReadsOperand source.now tokens.now depth operators
        r.value.tree r.value.operators r.rest.now) (λ s. FailsAt (Operand ∷
        []) tokens.now depth operators s) }
{
    if depth >= MOST_OPEN {
        return Err(Stop::TooDeep(tokens));
    }
    match kind_at(rest) {
        Some(named) => cast(
            alloc,
            source,
            tokens,
            first,
            rest,
            named.value,
            named.rest,
            depth,
            operators,
        ),
        None => group(alloc, source, tokens, first, rest, depth, operators),
    }
}

/// The operand that the tokens begin with.
#[cycle(expressions)]
fn operand<'a>(
    alloc: Global,
    source: &[u8],
    tokens: &'a [Token],
    depth: u32,
    operators: u32,
) -> Result<Read<'a, Counted<Raw<Name>>>, Stop<'a>>
    ensures { MatchResult result (λ r. ReadsOperand source.now tokens.now depth operators
        r.value.tree r.value.operators r.rest.now) (λ s. FailsAt (Operand ∷
        []) tokens.now depth operators s) }
{
    let Some((first, rest)) = tokens.split_first() else {
        return Err(Stop::Syntax(tokens));
    };
    match lead_of(first.class) {
        Lead::Atom => atom(alloc, source, tokens, first, rest, depth, operators),
        Lead::Hash => status(alloc, source, tokens, first, rest, depth, operators),
        Lead::Prefix(op) => prefix(alloc, source, tokens, first, op, rest, depth, operators),
        Lead::Minus => minus(alloc, source, tokens, first, rest, depth, operators),
        Lead::Open => opened(alloc, source, tokens, first, rest, depth, operators),
        Lead::Nothing => Err(Stop::Syntax(tokens)),
    }
}

/// The tree with the next operator and what is to its right.
#[cycle(expressions)]
fn grow<'a>(
    alloc: Global,
    source: &[u8],
    tree: Raw<Name>,
    tokens: &'a [Token],
    depth: u32,
    operators: u32,
) -> Result<Read<'a, Counted<Raw<Name>>>, Stop<'a>>
    requires { 1 ≤ infix_level tokens.now }
    ensures { MatchResult result (λ r. Grows source.now tokens.now depth operators tree r.value.tree
        r.value.operators r.rest.now) (λ s. FailsAt (More ∷ []) tokens.now depth operators s) }
{
    let Some((first, rest)) = tokens.split_first() else {
        unreachable!()
    };
    let Some(op) = infix_of(first.class) else {
        unreachable!()
    };
    if operators >= MOST_OPERATORS {
        return Err(Stop::TooDeep(tokens));
    }
    match expression(alloc, source, rest, level_of(op) + 1, depth, operators + 1) {
        Ok(read) => {
            let Counted {
                tree: right,
                operators,
            } = read.value;
            match make_binary(alloc, first.start, op, tree, right) {
                Ok(tree) => Ok(Read {
                    value: Counted { tree, operators },
                    rest: read.rest,
                }),
                Err(_) => Err(Stop::NoMemory),
            }
        }
        Err(stop) => Err(stop),
    }
}

/// The expression that the tokens begin with, as far as its operators have at least a level.
#[cycle(expressions)]
pub fn expression<'a>(
    alloc: Global,
    source: &[u8],
    tokens: &'a [Token],
    least: u32,
    depth: u32,
    operators: u32,
) -> Result<Read<'a, Counted<Raw<Name>>>, Stop<'a>>
    requires low { 1 ≤ least }
    requires high { least ≤ 11 }
    ensures { MatchResult result (λ r. ReadsFrom source.now tokens.now depth operators least
        r.value.tree r.value.operators r.rest.now) (λ s. FailsAt (Operand ∷ More ∷
        []) tokens.now depth operators s) }
{
    let mut read = match operand(alloc, source, tokens, depth, operators) {
        Ok(read) => read,
        Err(stop) => return Err(stop),
    };
    while infix_level(read.rest) >= least {
        let Counted { tree, operators } = read.value;
        read = match grow(alloc, source, tree, read.rest, depth, operators) {
            Ok(read) => read,
            Err(stop) => return Err(stop),
        };
    }
    Ok(read)
}
