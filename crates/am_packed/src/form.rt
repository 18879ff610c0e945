//! Values that can be packed, whole or part by part.
ghost use Rattle.std.specs.Prelude.{◌≡◌, ◌++◌, OnOk, IfOk, IsOk, IsTrue};
ghost use Rattle.am_packed.specs.Forms.{Form, both};

use am_types::NoMemory;
use std::alloc::Global;

/// A value that can be packed into bytes, and unpacked from them.
pub trait Pack: Drop {
    /// Its bytes, and how they are read.
    ghost form: { Form Self };

    /// Adds its bytes.
    fn pack(&self, out: &mut Vec<u8>) -> Result<(), NoMemory>
        ensures { OnOk result (out.new.items ≡ out.old.items ++ form.bytes self.now) };

    /// The value that the bytes begin with, and what follows it. What was packed is unpacked unless memory runs out,
    /// and a light value always.
    fn unpack(alloc: Global, bytes: &[u8]) -> Result<(Self, &[u8]), NoMemory>
        ensures read { IfOk result (λ read. (read.0, read.1.now) ≡ form.read bytes.now) }
        ensures light { IsTrue (form.light (form.read bytes.now).0) → IsOk result };
}

#[tactic(auto, unfolding(crate::specs::Forms::both))]
impl<A: Pack, B: Pack> Pack for (A, B) {
    ghost form = { both A.form B.form };

    fn pack(&self, out: &mut Vec<u8>) -> Result<(), NoMemory> {
        self.0.pack(out)?;
        self.1.pack(out)
    }

    fn unpack(alloc: Global, bytes: &[u8]) -> Result<((A, B), &[u8]), NoMemory> {
        let (first, rest) = A::unpack(alloc, bytes)?;
        let (second, rest) = B::unpack(alloc, rest)?;
        Ok(((first, second), rest))
    }
}

/// A value as references to its parts, in nested pairs. It is packed as these would be in a value.
pub trait Parts {
    /// The value that has the parts themselves.
    type Value: Pack;

    /// That value.
    ghost together: { Self → Self.Value };

    /// Adds the bytes of that value.
    fn pack_parts(&self, out: &mut Vec<u8>) -> Result<(), NoMemory>
        ensures { OnOk result (out.new.items ≡ out.old.items ++ Self.Value.form.bytes (together self.now)) };
}

impl<T: Pack> Parts for &T {
    type Value = T;

    ghost together = { λ part. part.now };

    fn pack_parts(&self, out: &mut Vec<u8>) -> Result<(), NoMemory> {
        (**self).pack(out)
    }
}

impl<A: Parts, B: Parts> Parts for (A, B) {
    type Value = (A::Value, B::Value);

    ghost together = { λ parts. (A.together parts.0, B.together parts.1) };

    #[tactic(auto, unfolding(crate::specs::Forms::both))]
    fn pack_parts(&self, out: &mut Vec<u8>) -> Result<(), NoMemory> {
        self.0.pack_parts(out)?;
        self.1.pack_parts(out)
    }
}

// References to these fields of a value, in nested pairs.
macro_rules! parts {
    ($value:ident: $field:ident) => { &$value.$field };
    ($value:ident: $field:ident $($others:ident)+) => { (&$value.$field, parts!($value: $($others)+)) };
}

pub(crate) use parts;

// Packs a value by its fields.
macro_rules! pack_parts {
    ($value:ident, $out:ident: $($field:ident)+) => { parts!($value: $($field)+).pack_parts($out) };
}

pub(crate) use pack_parts;

/// These names in nested pairs, as the parts of a value and as what it is taken apart into.
#[macro_export]
macro_rules! pairs {
    ($name:ident) => { $name };
    ($name:ident $($others:ident)+) => { ($name, $crate::pairs!($($others)+)) };
}

// Unpacks a value of that type from its fields.
macro_rules! unpack_parts {
    ($alloc:ident, $bytes:ident, $kind:ident: $($field:ident)+) => {{
        let ($crate::pairs!($($field)+), rest) = Pack::unpack($alloc, $bytes)?;
        Ok(($kind { $($field),+ }, rest))
    }};
}

pub(crate) use unpack_parts;
