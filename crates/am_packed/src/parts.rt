//! Bytes that hold one value and nothing else.
ghost use Rattle.std.specs.Prelude.{◌≡◌, IfOk, IsOk, IsTrue};
ghost use Rattle.am_packed.specs.Parts.{value_of};

use crate::form::{Pack, Parts};
use am_types::NoMemory;
use std::alloc::Global;

/// The bytes of the value that has these parts, in no more memory than they take. The buffer's contents are lost.
#[tactic(auto, using(crate::proofs::Back::value_back))]
pub fn bytes_of<P: Parts>(alloc: Global, out: &mut Vec<u8>, parts: &P) -> Result<Vec<u8>, NoMemory>
    ensures { IfOk result (λ bytes. value_of P.Value.form bytes.items ≡ P.together parts.now) }
{
    out.clear();
    parts.pack_parts(out)?;
    Ok(Vec::from_slice(alloc, out)?)
}

/// The value of these bytes. A light value takes no memory.
pub fn value_of<A: Pack>(alloc: Global, bytes: &[u8]) -> Result<A, NoMemory>
    ensures read { IfOk result (λ value. value ≡ value_of A.form bytes.now) }
    ensures light { IsTrue (A.form.light (value_of A.form bytes.now)) → IsOk result }
{
    let (value, _) = A::unpack(alloc, bytes)?;
    Ok(value)
}
