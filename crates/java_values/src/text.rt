ghost use Rattle.std.specs.Prelude.{◌≡◌, IfOk};

use crate::no_memory::NoMemory;
use crate::short_text::ShortText;
use std::alloc::Global;
use std::marker::Model;

/// Where the bytes of a text are: short ones lie in it.
#[derive(Debug, Drop)]
enum Held {
    Within(ShortText),
    Beside(Box<Vec<u8>>),
}

/// A list of bytes, such as a name.
#[derive(Debug, Drop)]
pub struct Text {
    held: Held,
}

impl Model for Text {
    ghost use Rattle.std.specs.Prelude.{List, ℕ};
    ghost use Rattle.java_values.specs.HeldBytes.{held_bytes};

    ghost Value = { List ℕ };

    ghost view = { λ t. held_bytes t.held };
}

impl Text {
    /// The text of these bytes.
    pub fn new(alloc: Global, bytes: &[u8]) -> Result<Text, NoMemory>
        ensures { IfOk result (λ t. t ≡ bytes.now) }
    {
        if bytes.len() <= ShortText::MOST {
            return Ok(Text {
                held: Held::Within(ShortText::new(bytes)),
            });
        }
        let bytes = Vec::from_slice(alloc, bytes)?;
        Ok(Text {
            held: Held::Beside(Box::new(alloc, bytes)?),
        })
    }

    /// The bytes that the text was made of.
    pub fn bytes(&self) -> &[u8]
        ensures { result.now ≡ self.now }
    {
        match &self.held {
            Held::Within(text) => text.bytes(),
            Held::Beside(bytes) => bytes.as_slice(),
        }
    }
}
