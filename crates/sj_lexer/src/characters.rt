// Characters.

ghost use Rattle.std.specs.Prelude.{◌≡◌, MatchOption, None, Some};
ghost use Rattle.sj_lexer.specs.definitions.Characters.{escaped, is_plain, plain, closed, after_backslash, character};

/// A character, and how many bytes it has in the source.
#[derive(Clone, Copy, Debug, PartialEq, Eq)]
pub struct Character {
    pub number: u8,
    pub bytes: usize,
}

// What stands behind a backslash.
fn escaped(byte: u8) -> Option<u8>
    ensures { result ≡ escaped byte }
{
    match byte {
        b'n' => Some(b'\n'),
        b't' => Some(b'\t'),
        b'r' => Some(b'\r'),
        b'\\' | b'\'' => Some(byte),
        _ => None,
    }
}

fn plain(byte: u8) -> Option<u8>
    ensures { result ≡ plain byte }
{
    let is_plain = b' ' <= byte && byte <= b'~' && byte != b'\'' && byte != b'\\';
    if is_plain { Some(byte) } else { None }
}

// A number behind which a quotation mark stands.
fn closed(number: Option<u8>, bytes: usize, rest: &[u8]) -> Option<Character>
    ensures { result ≡ closed number bytes rest.now }
{
    let number = number?;
    match rest {
        [b'\'', ..] => Some(Character { number, bytes }),
        _ => None,
    }
}

fn after_backslash(rest: &[u8]) -> Option<Character>
    ensures { result ≡ after_backslash rest.now }
{
    let [byte, after @ ..] = rest else {
        return None;
    };
    closed(escaped(*byte), 4, after)
}

/// The character behind its first quotation mark.
pub fn read_character(rest: &[u8]) -> Option<Character>
    ensures { result ≡ character rest.now }
{
    let [byte, after @ ..] = rest else {
        return None;
    };
    if *byte == b'\\' {
        return after_backslash(after);
    }
    closed(plain(*byte), 3, after)
}
