// Signs.

ghost use Rattle.std.specs.Prelude.{◌≡◌, ◌==◌, ◌<◌, ◌+◌, [], ◌∷◌, length, cond, Some, option_map};
ghost use Rattle.std.specs.List.{starts_with};
ghost use Rattle.sj_lexer.specs.definitions.Signs.{longest_sign};

use crate::token::Mark;

// The mark of the longer sign where the rest begins with this byte, and that of the shorter elsewhere.
fn longer(rest: &[u8], next: u8, long: Mark, short: Mark, bytes: usize) -> Option<(Mark, usize)>
    requires { bytes < 8 }
    ensures { result ≡
        cond (starts_with ◌==◌ rest.now (next ∷
        [])) (Some (long, bytes + 1)) (Some (short, bytes)) }
{
    match rest.split_first() {
        Some((first, _)) => {
            if next == *first {
                Some((long, bytes + 1))
            } else {
                Some((short, bytes))
            }
        }
        None => Some((short, bytes)),
    }
}

// The sign that begins with `&`, of which this is the rest.
fn after_ampersand(rest: &[u8]) -> Option<(Mark, usize)>
    ensures { result ≡ option_map (λ s. (s.mark, length s.text)) (longest_sign (38 ∷ rest.now)) }
{
    let Some((next, _)) = rest.split_first() else {
        return Some((Mark::Ampersand, 1));
    };
    match *next {
        b'=' => Some((Mark::AmpersandAssign, 2)),
        b'&' => Some((Mark::Both, 2)),
        _ => Some((Mark::Ampersand, 1)),
    }
}

// The sign that begins with `|`, of which this is the rest.
fn after_pipe(rest: &[u8]) -> Option<(Mark, usize)>
    ensures { result ≡ option_map (λ s. (s.mark, length s.text)) (longest_sign (124 ∷ rest.now)) }
{
    let Some((next, _)) = rest.split_first() else {
        return Some((Mark::Pipe, 1));
    };
    match *next {
        b'=' => Some((Mark::PipeAssign, 2)),
        b'|' => Some((Mark::Either, 2)),
        _ => Some((Mark::Pipe, 1)),
    }
}

// The sign that begins with `<`, of which this is the rest.
fn after_less(rest: &[u8]) -> Option<(Mark, usize)>
    ensures { result ≡ option_map (λ s. (s.mark, length s.text)) (longest_sign (60 ∷ rest.now)) }
{
    let Some((next, more)) = rest.split_first() else {
        return Some((Mark::Less, 1));
    };
    match *next {
        b'<' => longer(more, b'=', Mark::ShlAssign, Mark::Shl, 2),
        b'=' => Some((Mark::LessEq, 2)),
        _ => Some((Mark::Less, 1)),
    }
}

// The sign that begins with `>>`, of which this is the rest.
fn after_shr(rest: &[u8]) -> Option<(Mark, usize)>
    ensures { result ≡
        option_map (λ s. (s.mark, length s.text)) (longest_sign (62 ∷ 62 ∷ rest.now)) }
{
    let Some((next, more)) = rest.split_first() else {
        return Some((Mark::Shr, 2));
    };
    match *next {
        b'>' => longer(more, b'=', Mark::UshrAssign, Mark::Ushr, 3),
        b'=' => Some((Mark::ShrAssign, 3)),
        _ => Some((Mark::Shr, 2)),
    }
}

// The sign that begins with `>`, of which this is the rest.
fn after_greater(rest: &[u8]) -> Option<(Mark, usize)>
    ensures { result ≡ option_map (λ s. (s.mark, length s.text)) (longest_sign (62 ∷ rest.now)) }
{
    let Some((next, more)) = rest.split_first() else {
        return Some((Mark::Greater, 1));
    };
    match *next {
        b'>' => after_shr(more),
        b'=' => Some((Mark::GreaterEq, 2)),
        b'<' => Some((Mark::Beside, 2)),
        _ => Some((Mark::Greater, 1)),
    }
}

/// The mark and the length of the longest sign with which the bytes begin.
pub fn longest_sign(bytes: &[u8]) -> Option<(Mark, usize)>
    ensures { result ≡ option_map (λ s. (s.mark, length s.text)) (longest_sign bytes.now) }
{
    let Some((first, rest)) = bytes.split_first() else {
        return None;
    };
    match *first {
        b'{' => Some((Mark::OpenBrace, 1)),
        b'}' => Some((Mark::CloseBrace, 1)),
        b'(' => Some((Mark::OpenParen, 1)),
        b')' => Some((Mark::CloseParen, 1)),
        b';' => Some((Mark::Semicolon, 1)),
        b'#' => Some((Mark::Hash, 1)),
        b'~' => Some((Mark::Tilde, 1)),
        b'=' => longer(rest, b'=', Mark::Equal, Mark::Assign, 1),
        b'+' => longer(rest, b'=', Mark::PlusAssign, Mark::Plus, 1),
        b'-' => longer(rest, b'=', Mark::MinusAssign, Mark::Minus, 1),
        b'*' => longer(rest, b'=', Mark::StarAssign, Mark::Star, 1),
        b'/' => longer(rest, b'=', Mark::SlashAssign, Mark::Slash, 1),
        b'%' => longer(rest, b'=', Mark::PercentAssign, Mark::Percent, 1),
        b'^' => longer(rest, b'=', Mark::CaretAssign, Mark::Caret, 1),
        b'!' => longer(rest, b'=', Mark::NotEqual, Mark::Bang, 1),
        b'&' => after_ampersand(rest),
        b'|' => after_pipe(rest),
        b'<' => after_less(rest),
        b'>' => after_greater(rest),
        _ => None,
    }
}
