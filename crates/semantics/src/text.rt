//! The text of a name.

ghost use Rattle.std.specs.Prelude.{◌≡◌, map, string_bytes, IfOk};
ghost use Rattle.std.specs.Char.{to_ascii_lowercase};
ghost use Rattle.std.specs.Str.{IsAscii};

use std::alloc::{AllocError, Global};
use std::marker::Model;
use std::str;

/// The most bytes of a short text. With it a text takes 16 bytes.
const MOST: usize = 14;

/// Where the bytes of a text are.
#[derive(Drop)]
enum Held {
    /// In the value itself.
    Short { len: u8, bytes: [u8; MOST] },
    /// On the heap.
    Long(Box<String>),
}

/// An ASCII text as a string, with its letters lowered.
fn lowered(alloc: Global, text: &[u8]) -> Result<String, AllocError>
    requires { IsAscii text.now }
    ensures { IfOk result (λ string. string_bytes string ≡ map to_ascii_lowercase text.now) }
{
    let Ok(ascii) = str::from_utf8(text) else {
        unreachable!()
    };
    let mut string = String::from_str(alloc, ascii)?;
    string.make_ascii_lowercase();
    Ok(string)
}

/// A text. A short one, as that of most names, takes no memory beside the value.
#[derive(Drop)]
pub struct Text {
    held: Held,
}

impl Model for Text {
    ghost use Rattle.std.specs.Prelude.{ℕ, List};
    ghost use Rattle.semantics.specs.Held.{bytes_of, IsText};

    ghost Value = { List ℕ };

    ghost view = { λ t. bytes_of t.held };

    ghost invariant = { λ t. IsText t.held };
}

impl Text {
    /// An ASCII text with its letters lowered.
    pub fn lowered(alloc: Global, text: &[u8]) -> Result<Text, AllocError>
        requires { IsAscii text.now }
        ensures { IfOk result (λ held. held ≡ map to_ascii_lowercase text.now) }
    {
        let len = text.len();
        if len > MOST {
            let long = Box::new(alloc, lowered(alloc, text)?)?;
            return Ok(Text {
                held: Held::Long(long),
            });
        }
        let mut bytes = [0; MOST];
        bytes[..len].copy_from_slice(text);
        bytes[..len].make_ascii_lowercase();
        Ok(Text {
            held: Held::Short {
                len: len as u8,
                bytes,
            },
        })
    }

    /// It as a `str`.
    pub fn as_str(&self) -> &str
        ensures { result.now ≡ self.now }
    {
        match &self.held {
            Held::Short { len, bytes } => match str::from_utf8(&bytes[..*len as usize]) {
                Ok(text) => text,
                Err(_) => unreachable!(),
            },
            Held::Long(text) => text.as_str(),
        }
    }

    /// An equal text.
    pub fn copy(&self) -> Result<Text, AllocError>
        ensures { IfOk result (λ text. text ≡ self.now) }
    {
        let held = match &self.held {
            Held::Short { len, bytes } => Held::Short {
                len: *len,
                bytes: *bytes,
            },
            Held::Long(text) => Held::Long(text.clone()?),
        };
        Ok(Text { held })
    }
}
