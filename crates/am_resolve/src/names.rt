//! What is known about the package of a uid.
ghost use Rattle.std.specs.Prelude.{◌≡◌, option_copied};
ghost use Rattle.am_model.specs.Receivers.{is_for, is_stopped, is_text, name_of};

use am_gates::is_privileged;
use am_installed::{Installed, package_at};
use am_types::{Intent, Text};

/// The name of the package of the system and the root.
const SYSTEM_NAME: &str = "android";

/// The intent names no package, or names the package of the uid. Takes no memory.
pub fn is_for(installed: &Installed, intent: &Intent, uid: u32) -> bool
    ensures { result ≡ is_for intent.now.«package» (name_of installed.now.packages uid) }
{
    match &intent.package {
        None => true,
        Some(name) => is_text(name, name_of(installed, uid)),
    }
}

/// The other text is present, and the texts are the same.
fn is_text(text: &Text, other: Option<&str>) -> bool
    ensures { result ≡ is_text text.now (option_copied other.entry) }
{
    match other {
        None => false,
        Some(other) => text.as_str() == other,
    }
}

/// The name of the package of the uid, if there is one.
fn name_of(installed: &Installed, uid: u32) -> Option<&str>
    ensures { option_copied result ≡ name_of installed.now.packages uid }
{
    if is_privileged(uid) {
        return Some(SYSTEM_NAME);
    }
    match installed.package_at(uid) {
        None => None,
        Some(package) => Some(package.name.as_str()),
    }
}

/// The package of the uid is stopped.
pub(crate) fn is_stopped(installed: &Installed, uid: u32) -> bool
    ensures { result ≡ is_stopped installed.now.packages uid }
{
    match package_at(installed.packages(), uid) {
        None => false,
        Some(package) => package.stopped,
    }
}
