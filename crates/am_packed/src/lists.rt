//! Options and lists.
ghost use Rattle.std.specs.Prelude.{◌≡◌, ◌++◌, OnOk, IfOk, IsOk, IsTrue};
ghost use Rattle.am_packed.specs.Lists.{option_of, list_of, items_at};

use crate::form::Pack;
use am_types::{List, NoMemory};
use std::alloc::Global;

impl<T: Pack> Pack for Option<T> {
    ghost form = { option_of T.form };

    fn pack(&self, out: &mut Vec<u8>) -> Result<(), NoMemory> {
        match self {
            None => {
                out.push(0)?;
                Ok(())
            }
            Some(value) => {
                out.push(1)?;
                value.pack(out)
            }
        }
    }

    fn unpack(alloc: Global, bytes: &[u8]) -> Result<(Option<T>, &[u8]), NoMemory> {
        match bytes {
            [] => Ok((None, bytes)),
            [0, rest @ ..] => Ok((None, rest)),
            [_, rest @ ..] => {
                let (value, rest) = T::unpack(alloc, rest)?;
                Ok((Some(value), rest))
            }
        }
    }
}

impl<T: Pack> Pack for List<T> {
    ghost form = { list_of T.form };

    fn pack(&self, out: &mut Vec<u8>) -> Result<(), NoMemory> {
        let items = self.as_slice();
        (items.len() as u64).pack(out)?;
        for item in items {
            item.pack(out)?;
        }
        Ok(())
    }

    fn unpack(alloc: Global, bytes: &[u8]) -> Result<(List<T>, &[u8]), NoMemory> {
        let (count, rest) = u64::unpack(alloc, bytes)?;
        let (items, rest) = items_at(alloc, count, rest)?;
        Ok((List::new(items), rest))
    }
}

// So many values that the bytes begin with, and what follows them.
fn items_at<T: Pack>(alloc: Global, count: u64, bytes: &[u8]) -> Result<(Vec<T>, &[u8]), NoMemory>
    ensures read { IfOk result (λ read. (read.0.items, read.1.now) ≡ items_at T.form.read count bytes.now) }
    ensures none { count ≡ 0 → IsOk result }
{
    let mut items = Vec::new(alloc);
    let mut rest = bytes;
    for _ in 0..count {
        let (item, after) = T::unpack(alloc, rest)?;
        items.push(item)?;
        rest = after;
    }
    Ok((items, rest))
}
