//! The printed form of a fault.
ghost use Rattle.std.specs.Prelude.{◌≡◌, IfOk};
ghost use Rattle.am_types.specs.Printing.{printed};

use am_types::{ManifestFault, NoMemory, Text};
use std::alloc::Global;

/// A fault as a line shows it, without a newline: its name, then a space and the place or the thing that it names.
///
/// # Errors
///
/// `NoMemory` if memory runs out.
pub fn print_fault(alloc: Global, fault: &ManifestFault) -> Result<Text, NoMemory>
    ensures { IfOk result (λ text. text ≡ printed fault.now) }
{
    Ok(Text::new(fault.to_string(alloc)?))
}
