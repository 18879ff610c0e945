//! Rights, each of which has a uid and a text: grants and links. They are ordered by uid and then by the bytes of the
//! text.
ghost use Rattle.std.specs.Prelude.{◌≡◌, not, false, OnOk, OnErr, IsOk, filter};
ghost use Rattle.am_model.specs.Lists.{inserted, place_of};
ghost use Rattle.am_model.specs.Rights.{before_right, has_right, is_right, rights_without, stands_before, with_right};

use am_types::{Grant, Link, NoMemory, Text};

/// What gives a uid a right to a text.
pub trait Right: Drop {
    ghost use Rattle.std.specs.Prelude.{◌≡◌, ℕ, List};
    ghost use Rattle.am_model.specs.Rights.{Right as Held};

    ghost right_of: { Self → Held };

    ghost made: { ℕ → List ℕ → Self };

    fn uid(&self) -> u32
        ensures { result ≡ (right_of self.now).0 };

    fn text(&self) -> &Text
        ensures { result.now ≡ (right_of self.now).1 };

    fn new(uid: u32, text: Text) -> Self
        ensures { result ≡ made uid text };
}

impl Right for Grant {
    ghost use Rattle.am_model.specs.Rights.{grant_of, of_grant};

    ghost right_of = { of_grant };

    ghost made = { grant_of };

    fn uid(&self) -> u32 {
        self.uid
    }

    fn text(&self) -> &Text {
        &self.permission
    }

    fn new(uid: u32, text: Text) -> Self {
        Grant {
            uid,
            permission: text,
        }
    }
}

impl Right for Link {
    ghost use Rattle.am_model.specs.Rights.{link_of, of_link};

    ghost right_of = { of_link };

    ghost made = { link_of };

    fn uid(&self) -> u32 {
        self.uid
    }

    fn text(&self) -> &Text {
        &self.host
    }

    fn new(uid: u32, text: Text) -> Self {
        Link { uid, host: text }
    }
}

/// One uid and text come before another.
pub fn stands_before(uid: u32, text: &Text, other_uid: u32, other: &Text) -> bool
    ensures { result ≡ stands_before uid text.now other_uid other.now }
{
    uid < other_uid || uid == other_uid && text < other
}

/// The right has this uid and text.
fn is_right<T: Right>(uid: u32, text: &Text, right: &T) -> bool
    ensures { result ≡ is_right T.right_of uid text.now right.now }
{
    right.uid() == uid && *right.text() == *text
}

/// One of the rights has this uid and text.
fn has_right<T: Right>(rights: &[T], uid: u32, text: &Text) -> bool
    ensures { result ≡ has_right T.right_of rights.now uid text.now }
{
    rights.iter().any(|right| is_right(uid, text, right))
}

/// How many rights come before the first that this one belongs before.
fn place_of<T: Right>(rights: &[T], right: &T) -> usize
    ensures { result ≡ place_of (before_right T.right_of) right.now rights.now }
{
    for (place, other) in rights.iter().enumerate() {
        if stands_before(right.uid(), right.text(), other.uid(), other.text()) {
            return place;
        }
    }
    rights.len()
}

/// Puts a right in its place. If memory runs out, all stay.
fn put_right<T: Right>(rights: &mut Vec<T>, uid: u32, text: &Text) -> Result<(), NoMemory>
    ensures put { OnOk result (rights.new.items
        ≡ inserted (before_right T.right_of) (T.made uid text.now) rights.old.items) }
    ensures same { OnErr result (rights.new.items ≡ rights.old.items) }
{
    rights.reserve(1)?;
    let right = T::new(uid, text.clone()?);
    let place = place_of(rights, &right);
    rights.insert(place, right)?;
    Ok(())
}

/// Removes a right.
fn drop_right<T: Right>(rights: &mut Vec<T>, uid: u32, text: &Text)
    ensures { rights.new.items ≡ filter (λ right. not (is_right T.right_of uid text.now right)) rights.old.items }
{
    rights.retain(|right| !is_right(uid, text, right));
}

/// Gives the uid the right, or takes it away. If memory runs out, all stay.
pub(crate) fn set_right<T: Right>(
    rights: &mut Vec<T>,
    uid: u32,
    text: &Text,
    held: bool,
) -> Result<(), NoMemory>
    ensures set { OnOk result (rights.new.items ≡ with_right T.right_of T.made rights.old.items uid text.now held) }
    ensures same { OnErr result (rights.new.items ≡ rights.old.items) }
    ensures taken { held ≡ false → IsOk result }
{
    if !held {
        drop_right(rights, uid, text);
        return Ok(());
    }
    if has_right(rights, uid, text) {
        return Ok(());
    }
    put_right(rights, uid, text)
}

/// Removes the rights of the uid. Takes no memory.
pub fn drop_rights_of<T: Right>(rights: &mut Vec<T>, uid: u32)
    ensures { rights.new.items ≡ rights_without T.right_of rights.old.items uid }
{
    rights.retain(|right| right.uid() != uid);
}
