//! Rights in the order of uid and text. A right is a uid with a permission or a host.
ghost use Rattle.std.specs.Prelude.{◌≡◌, ◌++◌, OnOk, take, drop};
ghost use Rattle.am_model.specs.Rights.{rights_without};
ghost use Rattle.am_opening.specs.Merging.{behind_front, front, is_first, is_first_before, merge_one, unless_first};

use am_installed::{Right, drop_rights_of, stands_before, take};
use am_types::{List, NoMemory, Text};
use std::alloc::Global;
use std::collections::VecDeque;

/// Removes the rights of the uid.
pub(crate) fn drop_rights<T: Right>(alloc: Global, rights: &mut List<T>, uid: u32)
    ensures { rights.new ≡ rights_without T.right_of rights.old uid }
{
    let mut items = take(rights, alloc);
    drop_rights_of(&mut items, uid);
    *rights = List::new(items);
}

/// Whether the first right that is left comes before this one.
fn is_first_before(left: &VecDeque<(u32, Text)>, uid: u32, text: &Text) -> bool
    ensures { result ≡ is_first_before (uid, text.now) left.now.items }
{
    match left.front() {
        None => false,
        Some((other_uid, other)) => stands_before(*other_uid, other, uid, text),
    }
}

/// Whether the first right that is left is this one.
fn is_first(left: &VecDeque<(u32, Text)>, uid: u32, text: &Text) -> bool
    ensures { result ≡ is_first (uid, text.now) left.now.items }
{
    match left.front() {
        None => false,
        Some((other_uid, other)) => *other_uid == uid && *other == *text,
    }
}

/// Moves the first right that is left to the end of those that are done.
fn move_first(done: &mut Vec<(u32, Text)>, left: &mut VecDeque<(u32, Text)>) -> Result<(), NoMemory>
    ensures done { OnOk result (done.new.items ≡ done.old.items ++ take 1 left.old.items) }
    ensures left { left.new.items ≡ drop 1 left.old.items }
{
    if let Some(first) = left.pop_front() {
        done.push(first)?;
    }
    Ok(())
}

/// Moves the rights that come before this one to the end of those that are done.
fn move_front(
    done: &mut Vec<(u32, Text)>,
    left: &mut VecDeque<(u32, Text)>,
    uid: u32,
    text: &Text,
) -> Result<(), NoMemory>
    ensures done { OnOk result (done.new.items ≡ done.old.items ++ front (uid, text.now) left.old.items) }
    ensures left { OnOk result (left.new.items ≡ behind_front (uid, text.now) left.old.items) }
{
    while is_first_before(left, uid, text) {
        move_first(done, left)?;
    }
    Ok(())
}

/// Drops the first right that is left, if it is this one.
fn drop_first(left: &mut VecDeque<(u32, Text)>, uid: u32, text: &Text)
    ensures { left.new.items ≡ unless_first (uid, text.now) left.old.items }
{
    if is_first(left, uid, text) {
        drop(left.pop_front());
    }
}

/// Merges one more right, held or not held, with those that are left.
pub(crate) fn merge_one(
    done: &mut Vec<(u32, Text)>,
    left: &mut VecDeque<(u32, Text)>,
    uid: u32,
    text: &Text,
    held: bool,
) -> Result<(), NoMemory>
    ensures { OnOk result ((done.new.items, left.new.items)
        ≡ merge_one (uid, text.now) held (done.old.items, left.old.items)) }
{
    move_front(done, left, uid, text)?;
    drop_first(left, uid, text);
    if held {
        done.push((uid, text.clone()?))?;
    }
    Ok(())
}
