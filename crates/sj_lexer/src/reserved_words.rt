// Reserved words.

ghost use Rattle.std.specs.Prelude.{◌≡◌, ◌∷◌, cond, Some};
ghost use Rattle.std.specs.Str.{bytes_eq};
ghost use Rattle.sj_lexer.specs.definitions.ReservedWords.{reserved_word};

use crate::token::Word;

// The word where these are its bytes, and what stands for another word elsewhere.
fn word_or(bytes: &[u8], text: &[u8], word: Word, other: Option<Word>) -> Option<Word>
    ensures { result ≡ cond (bytes_eq bytes.now text.now) (Some word) other }
{
    if bytes == text { Some(word) } else { other }
}

// The reserved word of bytes that begin with this one.
fn word_from(first: u8, rest: &[u8], bytes: &[u8]) -> Option<Word>
    requires { bytes.now ≡ first ∷ rest.now }
    ensures { result ≡ reserved_word bytes.now }
{
    match first {
        b'a' => word_or(
            bytes,
            b"abort",
            Word::Abort,
            word_or(bytes, b"await", Word::Await, None),
        ),
        b'b' => word_or(
            bytes,
            b"boolean",
            Word::Boolean,
            word_or(bytes, b"byte", Word::Byte, None),
        ),
        b'c' => word_or(
            bytes,
            b"channel",
            Word::Channel,
            word_or(
                bytes,
                b"combine",
                Word::Combine,
                word_or(bytes, b"char", Word::Char, None),
            ),
        ),
        b'e' => word_or(
            bytes,
            b"emit",
            Word::Emit,
            word_or(
                bytes,
                b"else",
                Word::Else,
                word_or(
                    bytes,
                    b"exit",
                    Word::Exit,
                    word_or(
                        bytes,
                        b"every",
                        Word::Every,
                        word_or(bytes, b"each", Word::Each, None),
                    ),
                ),
            ),
        ),
        b'f' => word_or(bytes, b"false", Word::False, None),
        b'h' => word_or(bytes, b"halt", Word::Halt, None),
        b'i' => word_or(
            bytes,
            b"interface",
            Word::Interface,
            word_or(
                bytes,
                b"input",
                Word::Input,
                word_or(
                    bytes,
                    b"int",
                    Word::Int,
                    word_or(
                        bytes,
                        b"if",
                        Word::If,
                        word_or(bytes, b"immediate", Word::Immediate, None),
                    ),
                ),
            ),
        ),
        b'l' => word_or(
            bytes,
            b"long",
            Word::Long,
            word_or(bytes, b"loop", Word::Loop, None),
        ),
        b'm' => word_or(
            bytes,
            b"max",
            Word::Max,
            word_or(bytes, b"min", Word::Min, None),
        ),
        b'o' => word_or(bytes, b"output", Word::Output, None),
        b'p' => word_or(
            bytes,
            b"pause",
            Word::Pause,
            word_or(bytes, b"present", Word::Present, None),
        ),
        b'r' => word_or(bytes, b"receive", Word::Receive, None),
        b's' => word_or(
            bytes,
            b"system",
            Word::System,
            word_or(
                bytes,
                b"signal",
                Word::Signal,
                word_or(
                    bytes,
                    b"short",
                    Word::Short,
                    word_or(
                        bytes,
                        b"sustain",
                        Word::Sustain,
                        word_or(
                            bytes,
                            b"suspend",
                            Word::Suspend,
                            word_or(bytes, b"send", Word::Send, None),
                        ),
                    ),
                ),
            ),
        ),
        b't' => word_or(
            bytes,
            b"true",
            Word::True,
            word_or(bytes, b"trap", Word::Trap, None),
        ),
        b'w' => word_or(
            bytes,
            b"while",
            Word::While,
            word_or(bytes, b"weak", Word::Weak, None),
        ),
        _ => None,
    }
}

/// The reserved word of these bytes.
pub fn reserved_word(bytes: &[u8]) -> Option<Word>
    ensures { result ≡ reserved_word bytes.now }
{
    match bytes.split_first() {
        Some((first, rest)) => word_from(*first, rest, bytes),
        None => None,
    }
}
