//! The texts of generated names, keys and actions.
ghost use Rattle.std.specs.Prelude.{◌≡◌, ◌++◌, codes, decimal, IfOk};

use am_types::{NoMemory, Text};
use std::alloc::Global;

/// This text followed by a number.
pub(crate) fn numbered(alloc: Global, text: &str, number: u32) -> Result<Text, NoMemory>
    ensures { IfOk result (λ made. made ≡ text.now ++ decimal number) }
{
    Ok(Text::new(format!(in alloc; "{text}{number}")?))
}

/// This text followed by another one.
pub(crate) fn joined(alloc: Global, text: &Text, end: &str) -> Result<Text, NoMemory>
    ensures { IfOk result (λ made. made ≡ text.now ++ end.now) }
{
    let text = text.as_str();
    Ok(Text::new(format!(in alloc; "{text}{end}")?))
}
