//! Rights that are given and taken.
ghost use Rattle.std.specs.Prelude.{◌≡◌, false, length, if◌then◌else◌, IsOk, OnOk, OnErr};
ghost use Rattle.am_live_packages.specs.Changes.{with_held};

use crate::RightChange;
use am_resolve::Board;
use am_types::{NoMemory, RightKind};

/// Gives the uid the right, or takes it away, which takes no memory. If memory runs out, all is as before.
pub fn set_right(board: &mut Board, right: &RightChange, held: bool) -> Result<(), NoMemory>
    ensures set { OnOk result (board.new ≡ with_held board.old right.now.kind right.now.uid right.now.text held) }
    ensures same { OnErr result (board.new ≡ board.old) }
    ensures taken { held ≡ false → IsOk result }
    ensures count { length board.new.packages ≡ length board.old.packages }
{
    match right.kind {
        RightKind::Permission => board.set_grant(right.uid, &right.text, held),
        RightKind::Host => board.set_link(right.uid, &right.text, held),
    }
}

/// Takes the right away from the uid. Takes no memory.
pub fn take_right(board: &mut Board, right: &RightChange)
    ensures taken { board.new ≡ with_held board.old right.now.kind right.now.uid right.now.text false }
    ensures count { length board.new.packages ≡ length board.old.packages }
{
    let _taken = set_right(board, right, false);
}

/// Takes the right away from the uid, unless it is to be held. Takes no memory.
pub fn take_unless_held(board: &mut Board, right: &RightChange)
    ensures taken { board.new ≡ (if right.now.held then board.old
        else with_held board.old right.now.kind right.now.uid right.now.text false) }
    ensures count { length board.new.packages ≡ length board.old.packages }
{
    if !right.held {
        take_right(board, right);
    }
}
