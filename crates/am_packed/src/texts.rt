//! Texts.
ghost use Rattle.std.specs.Prelude.{◌≡◌, ◌++◌, OnOk, IfOk, IsOk, IsTrue};
ghost use Rattle.am_packed.specs.Texts.{text};

use crate::form::Pack;
use am_types::{NoMemory, Text};
use std::alloc::Global;
use std::str;

#[tactic(auto, unfolding(crate::specs::Texts::text))]
impl Pack for Text {
    ghost form = { text };

    fn pack(&self, out: &mut Vec<u8>) -> Result<(), NoMemory> {
        let words = self.as_str().as_bytes();
        (words.len() as u64).pack(out)?;
        out.extend_from_slice(words)?;
        Ok(())
    }

    fn unpack(alloc: Global, bytes: &[u8]) -> Result<(Text, &[u8]), NoMemory> {
        let (count, rest) = u64::unpack(alloc, bytes)?;
        if count > rest.len() as u64 {
            return Err(NoMemory);
        }
        let (words, rest) = rest.split_at(count as usize);
        match str::from_utf8(words) {
            Ok(words) => Ok((Text::of(alloc, words)?, rest)),
            Err(_) => Err(NoMemory),
        }
    }
}
