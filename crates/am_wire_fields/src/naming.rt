//! The faults that name a field. The name is copied only here, when a fault is found.
ghost use Rattle.am_wire_fields.specs.declared.fault.WireFault.TheVariants.{WrongKind, TooLong};
ghost use Rattle.am_types.specs.Reading.{IsFault};

use crate::{Unread, WireFault};
use am_types::{Text, Unmade};
use std::alloc::Global;

// The fault with this name, or that memory ran out while the name was copied.
macro_rules! named {
    ($alloc:ident, $fault:ident, $name:ident) => {
        match Text::of($alloc, $name) {
            Ok(name) => Unmade::Fault(WireFault::$fault(name)),
            Err(_) => Unmade::NoMemory,
        }
    };
}

/// The fault that the value of a field is of another kind or out of its range, or that memory ran out while its name
/// was copied.
#[cold]
pub fn wrong_kind(alloc: Global, name: &str) -> Unread
    ensures { IsFault result (WrongKind name.now) }
{
    named!(alloc, WrongKind, name)
}

/// The fault that the value of a field has too many bytes or entries, or that memory ran out while its name was copied.
#[cold]
pub fn too_long(alloc: Global, name: &str) -> Unread
    ensures { IsFault result (TooLong name.now) }
{
    named!(alloc, TooLong, name)
}
