ghost use Rattle.std.specs.Prelude.{◌≡◌, ◌<◌, ◌≤◌, Ok, Err, length};

use crate::Text;
use std::alloc::AllocError;
use std::marker::Model;

/// A pattern for paths, of at most 1,024 bytes. Contracts see it as the list of its bytes.
#[derive(Drop)]
pub struct Glob {
    text: Text,
}

impl Model for Glob {
    ghost use Rattle.std.specs.Prelude.{ℕ, ◌≤◌, List as Items, length};

    ghost Value = { Items ℕ };

    ghost view = { λ g. g.text };

    ghost invariant = { λ g. length g.text ≤ 1024 };

    ghost inverse = { λ bytes. record { text = bytes } };
}

impl Glob {
    /// The pattern written as this text. A text of more than 1,024 bytes is handed back.
    /// Takes no memory.
    pub fn new(text: Text) -> Result<Glob, Text>
        ensures short { length text ≤ 1024 → result ≡ Ok text }
        ensures long { 1024 < length text → result ≡ Err text }
    {
        if text.as_str().len() <= 1024 {
            Ok(Glob { text })
        } else {
            Err(text)
        }
    }

    /// The text as it was written. Takes no memory.
    pub fn text(&self) -> &Text
        ensures text { result.now ≡ self.now }
        ensures within { length self.now ≤ 1024 }
    {
        &self.text
    }
}

impl Clone for Glob {
    ghost is_clone = { λ x y. y ≡ x };

    fn clone(&self) -> Result<Glob, AllocError> {
        Ok(Glob {
            text: self.text.clone()?,
        })
    }
}
