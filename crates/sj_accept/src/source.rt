ghost use Rattle.std.specs.Prelude.{◌≤◌, ℕ, List, length, IfOk, IfErr, MatchResult};
ghost use Rattle.java_values.specs.SourceLimits.{most_source_bytes};
ghost use Rattle.sj_lexer.specs.declared.token.Token.{Token};
ghost use Rattle.sj_lexer.specs.definitions.Readings.{AreTokens};
ghost use Rattle.sj_lexer.specs.definitions.Refusals.{IsWhy};
ghost use Rattle.stmt_parser.specs.definitions.Parsing.{IsNoProgram};
ghost use Rattle.sj_names.specs.declared.binding.Bound.{Bound as BoundTree};
ghost use Rattle.sj_names.specs.definitions.Bindings.{IsBinding, IsWhyUnbound};
ghost use Rattle.java_types.specs.definitions.Typings.{IsWhyUntyped};
ghost use Rattle.sj_accept.specs.Lowered.{IsWhole};
ghost use Rattle.sj_grammar.specs.definitions.SourceTrees.{SourceTree};
ghost use Rattle.sj_accept.specs.definitions.Sources.{IsParsed};
ghost use Rattle.sj_accept.specs.definitions.Systems.{Accepts};
ghost use Rattle.sj_accept.specs.definitions.Refusals.{IsWhyNot};

use crate::laws::{sources_are_one_tree, trees_are_whole};
use crate::program::system_of;
use crate::refusal::{AcceptError, Refusal};
use crate::rules::keep_static_rules;
use java_types::{TypeError, typed};
use kernel_terms::System;
use sj_ast::{Name, Raw, Tree};
use sj_lexer::{LexError, lex};
use sj_names::{BindError, Bound, bind};
use std::alloc::Global;
use stmt_parser::{ParseError, parse};
use tick_tree::system_exits_fit;

fn lex_error(error: LexError) -> AcceptError
    ensures { (source : List ℕ) → IsWhy source error → IsWhyNot source result }
{
    match error {
        LexError::BadByte(at) => AcceptError::Refused(Refusal::BadByte(at)),
        LexError::BadNumber(at) => AcceptError::Refused(Refusal::BadNumber(at)),
        LexError::OpenComment(at) => AcceptError::Refused(Refusal::OpenComment(at)),
        LexError::NoMemory => AcceptError::NoMemory,
    }
}

fn parse_error(error: ParseError) -> AcceptError
    ensures { (source : List ℕ) (tokens : List Token) → AreTokens source tokens →
        IsNoProgram source tokens error → IsWhyNot source result }
{
    match error {
        ParseError::Syntax(at) => AcceptError::Refused(Refusal::Syntax(at)),
        ParseError::TooDeep(at) => AcceptError::Refused(Refusal::TooDeep(at)),
        ParseError::NoMemory => AcceptError::NoMemory,
    }
}

fn name_error(error: BindError) -> AcceptError
    ensures { (source : List ℕ) (tree : SourceTree) → IsParsed source tree →
        IsWhyUnbound tree error → IsWhyNot source result }
{
    match error {
        BindError::Failed(failure) => AcceptError::Refused(Refusal::Names(failure)),
        BindError::NoMemory => AcceptError::NoMemory,
    }
}

fn kind_error(error: TypeError) -> AcceptError
    ensures { (source : List ℕ) (tree : SourceTree) (bound : BoundTree) → IsParsed source tree →
        IsBinding tree bound → IsWhyUntyped bound error → IsWhyNot source result }
{
    match error {
        TypeError::Failed(failure) => AcceptError::Refused(Refusal::Kinds(failure)),
        TypeError::NoMemory => AcceptError::NoMemory,
    }
}

/// How many bytes a source may have.
pub const MOST_SOURCE_BYTES: usize = 1_048_576;

/// The tree that the source is.
pub fn read_tree(alloc: Global, source: &[u8]) -> Result<Tree<Name, Raw<Name>>, AcceptError>
    requires { length source.now ≤ most_source_bytes }
    ensures { MatchResult result (IsParsed source.now) (IsWhyNot source.now) }
{
    let mut tokens = match lex(alloc, source) {
        Ok(tokens) => tokens,
        Err(error) => return Err(lex_error(error)),
    };
    tokens.shrink_to_fit();
    match parse(alloc, &tokens, source) {
        Ok(tree) => Ok(tree),
        Err(error) => Err(parse_error(error)),
    }
}

/// The tree with numbers for its names, or the first failure of its names.
pub fn bound_tree(alloc: Global, tree: &Tree<Name, Raw<Name>>) -> Result<Bound, BindError>
    requires whole { IsWhole tree.now }
    ensures bound { IfOk result (IsBinding tree.now) }
    ensures why { IfErr result (IsWhyUnbound tree.now) }
{
    bind(alloc, tree)
}

/// The system of an accepted source. A refusal is the first reason in this order: the first place where the bytes
/// are no token, the first token that can't stand where it does or is too deep, the first failure of a name, the
/// first failure of a kind, and then any other rule.
pub fn accept(alloc: Global, source: &[u8]) -> Result<System, AcceptError>
    requires { length source.now ≤ most_source_bytes }
    ensures { MatchResult result (Accepts source.now) (IsWhyNot source.now) }
{
    sources_are_one_tree();
    trees_are_whole();
    let tree = read_tree(alloc, source)?;
    let bound = match bound_tree(alloc, &tree) {
        Ok(bound) => bound,
        Err(error) => return Err(name_error(error)),
    };
    drop(tree);
    let typed = match typed(alloc, &bound) {
        Ok(typed) => typed,
        Err(error) => return Err(kind_error(error)),
    };
    drop(bound);
    let Some(system) = system_of(alloc, typed)? else {
        return Err(AcceptError::Refused(Refusal::Later));
    };
    system_exits_fit();
    if !keep_static_rules(system.domains()) {
        return Err(AcceptError::Refused(Refusal::Later));
    }
    Ok(system)
}
