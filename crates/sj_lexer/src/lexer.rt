// The tokens of a source.

ghost use Rattle.std.specs.Prelude.{◌≡◌, ◌≤◌, ◌<◌, ◌+◌, ◌∷◌, ℕ, List, IfOk, IfErr, MatchResult, length, drop};
ghost use Rattle.java_values.specs.SourceLimits.{most_source_bytes};
ghost use Rattle.sj_lexer.specs.declared.lexer.LexError.TheVariants as error;
ghost use Rattle.sj_lexer.specs.Lexing.{with_token, Adds, Stops};
ghost use Rattle.sj_lexer.specs.definitions.ReservedWords.{reserved_word};
ghost use Rattle.sj_lexer.specs.definitions.Signs.{longest_sign};
ghost use Rattle.sj_lexer.specs.definitions.Heads.{head, sign, word};
ghost use Rattle.sj_lexer.specs.definitions.Readings.{AreTokens, AreInOrder, IsRefused};
ghost use Rattle.sj_lexer.specs.definitions.Refusals.{IsWhy};

use crate::head::{Fault, Head, MOST_NAME_BYTES, begins_sign, is_letter, make_head, run_of};
use crate::reserved_words::reserved_word;
use crate::signs::longest_sign;
use crate::token::{Class, Token};
use std::alloc::Global;
use thiserror::Error;

/// Why a source has no tokens. Places are byte offsets from 0, and the first bad place decides.
#[derive(Clone, Copy, Debug, PartialEq, Eq, Error)]
pub enum LexError {
    /// A byte that begins no token, a `'` that begins no character, or the 65th byte of a word.
    #[error("a bad byte at {0}")]
    BadByte(u32),
    /// A token that begins with a digit, and isn't spelled as a number or is out of range.
    #[error("a bad number at {0}")]
    BadNumber(u32),
    /// A `/*` behind which no `*/` stands.
    #[error("an open comment at {0}")]
    OpenComment(u32),
    /// An allocation was refused.
    #[error("no memory")]
    NoMemory,
}

fn refused(reason: Fault, place: u32) -> LexError
    ensures { (source : List ℕ) → IsRefused source reason place → IsWhy source result }
{
    match reason {
        Fault::BadByte => LexError::BadByte(place),
        Fault::BadNumber => LexError::BadNumber(place),
        Fault::OpenComment => LexError::OpenComment(place),
    }
}

// The bytes behind the first of them.
fn after(bytes: &[u8], count: usize) -> &[u8]
    requires { count ≤ length bytes.now }
    ensures { result.now ≡ drop count bytes.now }
{
    bytes.split_at(count).1
}

// Puts the token of so many bytes behind the others.
fn put(tokens: &mut Vec<Token>, class: Class, at: u32, count: usize) -> Result<usize, LexError>
    requires { at + count ≤ most_source_bytes }
    ensures { MatchResult result (λ n. (n ≡ count) × (tokens.new.items ≡
        with_token tokens.old.items class at count)) (λ e. e ≡ error.NoMemory) }
{
    let token = Token {
        class,
        start: at,
        end: at + count as u32,
    };
    match tokens.push(token) {
        Ok(()) => Ok(count),
        Err(_) => Err(LexError::NoMemory),
    }
}

// Puts a word that begins with a letter.
fn put_word(tokens: &mut Vec<Token>, bytes: &[u8], at: u32) -> Result<usize, LexError>
    requires { at + length bytes.now ≤ most_source_bytes }
    ensures { MatchResult result (Adds (word (reserved_word bytes.now) (length bytes.now)) at
        tokens.old.items tokens.new.items) (Stops (word (reserved_word bytes.now)
        (length bytes.now)) at) }
{
    if let Some(reserved) = reserved_word(bytes) {
        return put(tokens, Class::Reserved(reserved), at, bytes.len());
    }
    if bytes.len() <= MOST_NAME_BYTES {
        put(tokens, Class::Name, at, bytes.len())
    } else {
        Err(refused(Fault::BadByte, at + MOST_NAME_BYTES as u32))
    }
}

// Puts the sign that the bytes begin with.
fn put_sign(tokens: &mut Vec<Token>, bytes: &[u8], at: u32) -> Result<usize, LexError>
    requires { at + length bytes.now ≤ most_source_bytes }
    ensures { MatchResult result (Adds (sign (longest_sign bytes.now)) at tokens.old.items
        tokens.new.items) (Stops (sign (longest_sign bytes.now)) at) }
{
    match longest_sign(bytes) {
        Some((mark, count)) => put(tokens, Class::Mark(mark), at, count),
        None => Err(refused(Fault::BadByte, at)),
    }
}

// Puts the token that the bytes begin with, where they begin with one.
fn put_head(tokens: &mut Vec<Token>, bytes: &[u8], at: u32) -> Result<usize, LexError>
    requires some { 1 ≤ length bytes.now }
    requires within { at + length bytes.now ≤ most_source_bytes }
    ensures { MatchResult result (Adds (head bytes.now) at tokens.old.items tokens.new.items)
        (Stops (head bytes.now) at) }
{
    match make_head(bytes) {
        Head::AtEnd => unreachable!(),
        Head::Between(count) => Ok(count),
        Head::Lexeme(class, count) => put(tokens, class, at, count),
        Head::Bad(reason, offset) => Err(refused(reason, at + offset as u32)),
    }
}

// Reads what the bytes begin with. Words and signs are most of a source, and are put with no `Head`
// in between, which is large to copy.
fn step(
    tokens: &mut Vec<Token>,
    first: u8,
    rest: &[u8],
    bytes: &[u8],
    at: u32,
) -> Result<usize, LexError>
    requires is { bytes.now ≡ first ∷ rest.now }
    requires within { at + length bytes.now ≤ most_source_bytes }
    ensures { MatchResult result (Adds (head bytes.now) at tokens.old.items tokens.new.items)
        (Stops (head bytes.now) at) }
{
    if is_letter(first) {
        return put_word(tokens, run_of(bytes), at);
    }
    if begins_sign(first) {
        return put_sign(tokens, bytes, at);
    }
    put_head(tokens, bytes, at)
}

/// The tokens of the source: the longest one at each place, in order. What lies between them is white
/// space and comments. It looks at each byte a bounded number of times.
#[tactic(auto, using(crate::proofs::Lexing::lexing))]
pub fn lex(alloc: Global, source: &[u8]) -> Result<Vec<Token>, LexError>
    requires { length source.now ≤ most_source_bytes }
    ensures tokens { IfOk result (λ v. AreTokens source.now v.items) }
    ensures order { IfOk result (λ v. AreInOrder 0 (length source.now) v.items) }
    ensures why { IfErr result (IsWhy source.now) }
{
    let mut tokens = Vec::new(alloc);
    let mut rest = source;
    let mut at = 0;
    while let [first, behind @ ..] = rest {
        match step(&mut tokens, *first, behind, rest, at) {
            Ok(bytes) => {
                rest = after(rest, bytes);
                at += bytes as u32;
            }
            Err(error) => return Err(error),
        }
    }
    Ok(tokens)
}
