ghost use Rattle.std.specs.Prelude.{◌≡◌, ◌≤◌, length};

use std::marker::Model;

/// At most 14 bytes, with no memory of their own.
#[derive(Debug, Drop)]
pub(crate) struct ShortText {
    count: u8,
    room: [u8; 14],
}

impl Model for ShortText {
    ghost use Rattle.std.specs.Prelude.{List, ℕ, take, ◌≤◌};

    ghost Value = { List ℕ };

    ghost view = { λ s. take s.count s.room };

    ghost invariant = { λ s. s.count ≤ 14 };
}

impl ShortText {
    /// How many bytes a short text has at most.
    pub(crate) const MOST: usize = 14;

    /// The text of these bytes.
    pub(crate) fn new(bytes: &[u8]) -> ShortText
        requires { length bytes.now ≤ 14 }
        ensures { result ≡ bytes.now }
    {
        let mut room = [0; 14];
        room[..bytes.len()].copy_from_slice(bytes);
        ShortText {
            count: bytes.len() as u8,
            room,
        }
    }

    /// The bytes that the text was made of.
    pub(crate) fn bytes(&self) -> &[u8]
        ensures { result.now ≡ self.now }
    {
        &self.room[..self.count as usize]
    }
}
