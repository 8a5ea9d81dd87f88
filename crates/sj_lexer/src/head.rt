// What stands at the head of bytes.

ghost use Rattle.std.specs.Prelude.{◌≡◌, ◌==◌, ◌+◌, ◌≤◌, ◌<◌, ◌∷◌, not, length, drop, MatchOption, IfSome, None, Some, codes};
ghost use Rattle.std.specs.List.{prefix_len, take_while, starts_with};
ghost use Rattle.java_values.specs.Names.{is_letter, is_word_byte};
ghost use Rattle.sj_lexer.specs.definitions.ReservedWords.{reserved_word};
ghost use Rattle.sj_lexer.specs.definitions.Numbers.{number_class};
ghost use Rattle.sj_lexer.specs.definitions.Characters.{character};
ghost use Rattle.sj_lexer.specs.definitions.Signs.{longest_sign};
ghost use Rattle.sj_lexer.specs.Lexing.{begins_sign};
ghost use Rattle.sj_lexer.specs.definitions.Heads.{is_white, is_line_end, comment_end, comment, word, number, quoted, sign, run, lexeme, head};

use crate::characters::read_character;
use crate::numbers::number_class;
use crate::reserved_words::reserved_word;
use crate::signs::longest_sign;
use crate::token::Class;
use java_values::{Kind, Value};

/// Why bytes begin no token.
#[derive(Clone, Copy, Debug, PartialEq, Eq)]
pub enum Fault {
    BadByte,
    BadNumber,
    OpenComment,
}

/// What stands at the head of bytes.
#[derive(Clone, Copy, Debug, PartialEq, Eq)]
pub enum Head {
    /// There are none.
    AtEnd,
    /// White space or a comment, of so many bytes.
    Between(usize),
    /// A token of so many bytes.
    Lexeme(Class, usize),
    /// Nothing that may stand there: the place is so many bytes on.
    Bad(Fault, usize),
}

/// How many bytes a name may have.
pub const MOST_NAME_BYTES: usize = 64;

/// `A` to `Z`, `a` to `z` or `_`.
pub fn is_letter(byte: u8) -> bool
    ensures { result ≡ is_letter byte }
{
    (b'A' <= byte && byte <= b'Z') || ((b'a' <= byte && byte <= b'z') || byte == b'_')
}

fn is_word_byte(byte: u8) -> bool
    ensures { result ≡ is_word_byte byte }
{
    is_letter(byte) || (b'0' <= byte && byte <= b'9')
}

fn is_white(byte: u8) -> bool
    ensures { result ≡ is_white byte }
{
    byte == b'\t' || (byte == b'\n' || (byte == b'\r' || byte == b' '))
}

/// Whether what begins with the byte is a sign or no token.
pub fn begins_sign(byte: u8) -> bool
    ensures { result ≡ begins_sign byte }
{
    !(is_white(byte) || (is_word_byte(byte) || (byte == b'\'' || byte == b'/')))
}

fn white_len(bytes: &[u8]) -> usize
    ensures { result ≡ prefix_len is_white bytes.now }
{
    bytes.iter().take_while(|byte| is_white(**byte)).count()
}

fn line_len(bytes: &[u8]) -> usize
    ensures { result ≡ prefix_len (λ c. not (is_line_end c)) bytes.now }
{
    bytes.iter().take_while(|byte| **byte != b'\n').count()
}

fn run_len(bytes: &[u8]) -> usize
    ensures value { result ≡ prefix_len is_word_byte bytes.now }
    ensures within { result ≤ length bytes.now }
{
    bytes.iter().take_while(|byte| is_word_byte(**byte)).count()
}

/// The letters, digits and `_` that the bytes begin with.
pub fn run_of(bytes: &[u8]) -> &[u8]
    ensures { result.now ≡ take_while is_word_byte bytes.now }
{
    bytes.split_at(run_len(bytes)).0
}

// How many bytes there are up to and with the first end of a comment.
fn comment_end(bytes: &[u8]) -> Option<usize>
    ensures value { result ≡ comment_end bytes.now }
    ensures within { IfSome result (λ n. n ≤ length bytes.now + 1) }
{
    let mut rest = bytes;
    let mut passed = 0;
    while let [_, after @ ..] = rest {
        if rest.starts_with(b"*/") {
            return Some(passed + 2);
        }
        passed += 1;
        rest = after;
    }
    None
}

// A comment behind its first two bytes.
fn comment(text: &[u8]) -> Head
    ensures { result ≡ comment (comment_end text.now) }
{
    match comment_end(text) {
        Some(end) => Head::Between(end + 2),
        None => Head::Bad(Fault::OpenComment, 0),
    }
}

fn word(bytes: &[u8]) -> Head
    ensures { result ≡ word (reserved_word bytes.now) (length bytes.now) }
{
    if let Some(reserved) = reserved_word(bytes) {
        return Head::Lexeme(Class::Reserved(reserved), bytes.len());
    }
    if bytes.len() <= MOST_NAME_BYTES {
        Head::Lexeme(Class::Name, bytes.len())
    } else {
        Head::Bad(Fault::BadByte, MOST_NAME_BYTES)
    }
}

fn number(bytes: &[u8]) -> Head
    requires { 1 ≤ length bytes.now }
    ensures { result ≡ number (number_class bytes.now) (length bytes.now) }
{
    match number_class(bytes) {
        Some(class) => Head::Lexeme(class, bytes.len()),
        None => Head::Bad(Fault::BadNumber, 0),
    }
}

fn quoted(rest: &[u8]) -> Head
    ensures { result ≡ quoted (character rest.now) }
{
    let Some(character) = read_character(rest) else {
        return Head::Bad(Fault::BadByte, 0);
    };
    match Value::new(Kind::Char, i64::from(character.number)) {
        Some(value) => Head::Lexeme(Class::Literal(value), character.bytes),
        None => unreachable!(),
    }
}

fn sign(bytes: &[u8]) -> Head
    ensures { result ≡ sign (longest_sign bytes.now) }
{
    match longest_sign(bytes) {
        Some((mark, bytes)) => Head::Lexeme(Class::Mark(mark), bytes),
        None => Head::Bad(Fault::BadByte, 0),
    }
}

// A run of letters, digits and `_`.
fn run(bytes: &[u8]) -> Head
    ensures { result ≡ run bytes.now }
{
    let [first, ..] = bytes else {
        return Head::AtEnd;
    };
    if is_letter(*first) {
        word(bytes)
    } else {
        number(bytes)
    }
}

// What isn't white space and begins no comment.
fn lexeme(first: u8, rest: &[u8], bytes: &[u8]) -> Head
    requires { bytes.now ≡ first ∷ rest.now }
    ensures { result ≡ lexeme first rest.now }
{
    if is_word_byte(first) {
        return run(run_of(bytes));
    }
    if first == b'\'' {
        return quoted(rest);
    }
    sign(bytes)
}

// A comment, or a sign that begins with `/`.
fn after_slash(rest: &[u8], bytes: &[u8]) -> Head
    requires { bytes.now ≡ 47 ∷ rest.now }
    ensures { result ≡ head (47 ∷ rest.now) }
{
    let Some((next, text)) = rest.split_first() else {
        return sign(bytes);
    };
    match *next {
        b'/' => Head::Between(line_len(bytes)),
        b'*' => comment(text),
        _ => sign(bytes),
    }
}

/// What stands at the head of the bytes.
pub fn make_head(bytes: &[u8]) -> Head
    ensures { result ≡ head bytes.now }
{
    let [first, rest @ ..] = bytes else {
        return Head::AtEnd;
    };
    if is_white(*first) {
        return Head::Between(white_len(bytes));
    }
    if *first == b'/' {
        return after_slash(rest, bytes);
    }
    lexeme(*first, rest, bytes)
}
