//! Numbers.
ghost use Rattle.std.specs.Prelude.{◌≡◌, ◌++◌, ◌*◌, ◌^◌, ◌≤◌, OnOk, IfOk, IfSome, IfNone, IsOk, IsTrue};
ghost use Rattle.am_packed.specs.Numbers.{number, short_number, number_at, flag, is_near, signed, signed_read, whole, short_whole};

use crate::form::Pack;
use am_types::NoMemory;
use std::alloc::Global;

// Unpacks a number of fewer bits than the type that it is packed as.
macro_rules! unpack_narrow {
    ($alloc:ident, $bytes:ident, $wide:ident as $narrow:ident) => {{
        let (value, rest) = $wide::unpack($alloc, $bytes)?;
        match $narrow::try_from(value) {
            Ok(value) => Ok((value, rest)),
            Err(_) => Err(NoMemory),
        }
    }};
}

impl Pack for u64 {
    ghost form = { number };

    #[tactic(auto, using(crate::proofs::Digits::goes_on, crate::proofs::Digits::number_small))]
    fn pack(&self, out: &mut Vec<u8>) -> Result<(), NoMemory> {
        let mut rest = *self;
        while rest >= 128 {
            out.push((rest % 128) as u8 + 128)?;
            rest /= 128;
        }
        out.push(rest as u8)?;
        Ok(())
    }

    #[tactic(auto, unfolding(crate::specs::Numbers::number))]
    fn unpack(alloc: Global, bytes: &[u8]) -> Result<(u64, &[u8]), NoMemory> {
        let _ = alloc;
        match number_at(bytes) {
            Some(read) => Ok(read),
            None => Err(NoMemory),
        }
    }
}

// The number that the bytes begin with, and what follows it; none if it has more than 64 bits.
fn number_at(bytes: &[u8]) -> Option<(u64, &[u8])>
    ensures read { IfSome result (λ read. (read.0, read.1.now) ≡ number_at bytes.now) }
    ensures none { IfNone result (2 ^ 64 ≤ (number_at bytes.now).0) }
{
    match bytes {
        [] => Some((0, bytes)),
        [first, others @ ..] => {
            if *first < 128 {
                return Some((u64::from(*first), others));
            }
            let (high, rest) = number_at(others)?;
            let value = high.checked_mul(128)?.checked_add(u64::from(*first - 128))?;
            Some((value, rest))
        }
    }
}

#[tactic(auto, unfolding(crate::specs::Numbers::number, crate::specs::Numbers::short_number))]
impl Pack for u32 {
    ghost form = { short_number };

    fn pack(&self, out: &mut Vec<u8>) -> Result<(), NoMemory> {
        u64::from(*self).pack(out)
    }

    fn unpack(alloc: Global, bytes: &[u8]) -> Result<(u32, &[u8]), NoMemory> {
        unpack_narrow!(alloc, bytes, u64 as u32)
    }
}

#[tactic(auto, unfolding(crate::specs::Numbers::flag))]
impl Pack for bool {
    ghost form = { flag };

    fn pack(&self, out: &mut Vec<u8>) -> Result<(), NoMemory> {
        out.push(if *self { 1 } else { 0 })?;
        Ok(())
    }

    fn unpack(alloc: Global, bytes: &[u8]) -> Result<(bool, &[u8]), NoMemory> {
        let _ = alloc;
        match bytes {
            [] => Ok((false, bytes)),
            [first, rest @ ..] => Ok((*first == 1, rest)),
        }
    }
}

#[tactic(auto, unfolding(crate::specs::Numbers::whole))]
impl Pack for i64 {
    ghost form = { whole };

    fn pack(&self, out: &mut Vec<u8>) -> Result<(), NoMemory> {
        let value = *self;
        if value >= 0 {
            out.push(0)?;
            (value as u64).pack(out)
        } else {
            out.push(1)?;
            ((-(value + 1)) as u64).pack(out)
        }
    }

    fn unpack(alloc: Global, bytes: &[u8]) -> Result<(i64, &[u8]), NoMemory> {
        match bytes {
            [] => Ok((0, bytes)),
            [sign, others @ ..] => signed_at(alloc, *sign, others),
        }
    }
}

// The whole number of that sign, so far from 0, or from -1, as the bytes begin with, and what follows it.
#[tactic(auto, using(crate::proofs::Light::far_fits))]
fn signed_at(alloc: Global, sign: u8, bytes: &[u8]) -> Result<(i64, &[u8]), NoMemory>
    ensures read { IfOk result (λ read. (read.0, read.1.now) ≡ signed_read sign (number.read bytes.now)) }
    ensures light { IsTrue (is_near (2 ^ 63) (signed sign (number.read bytes.now).0)) → IsOk result }
{
    let (far, rest) = u64::unpack(alloc, bytes)?;
    match i64::try_from(far) {
        Ok(far) if sign == 0 => Ok((far, rest)),
        Ok(far) => Ok((-far - 1, rest)),
        Err(_) => Err(NoMemory),
    }
}

#[tactic(auto, unfolding(crate::specs::Numbers::whole, crate::specs::Numbers::short_whole))]
impl Pack for i32 {
    ghost form = { short_whole };

    fn pack(&self, out: &mut Vec<u8>) -> Result<(), NoMemory> {
        i64::from(*self).pack(out)
    }

    fn unpack(alloc: Global, bytes: &[u8]) -> Result<(i32, &[u8]), NoMemory> {
        unpack_narrow!(alloc, bytes, i64 as i32)
    }
}
