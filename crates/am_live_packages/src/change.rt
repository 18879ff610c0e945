//! What calls on packages change, and what is planned for them.

use am_keeper::Row;
use am_types::{Package, RightKind, Rule, Text};

/// A right to the permission or the host, which is given to the uid, or taken from it.
#[derive(Drop)]
pub struct RightChange {
    pub kind: RightKind,
    pub uid: u32,
    pub text: Text,
    pub held: bool,
    /// Whether it is given and wasn't held.
    pub is_new: bool,
}

/// What an accepted call on packages changes, once its row is kept.
#[derive(Drop)]
pub enum Change {
    /// The package is added after the others, under the next uid, and is stopped.
    Install(Package),
    /// The package with the uid is removed with all that it has.
    Uninstall { uid: u32 },
    /// A right is given to a uid, or taken.
    Right(RightChange),
}

/// What is planned for a call that keeps a row.
#[derive(Drop)]
pub enum Plan {
    /// Nothing is kept, and only the moment changes.
    Refused(Rule),
    /// The row is kept, and then the change is made.
    Accepted { change: Change, row: Row },
}
