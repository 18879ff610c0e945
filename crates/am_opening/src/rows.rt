//! Which grant and link rows count.
ghost use Rattle.std.specs.Prelude.{◌≡◌, ◌==◌};
ghost use Rattle.std.specs.Char.{to_ascii_lowercase};
ghost use Rattle.std.specs.List.{list_all};
ghost use Rattle.am_model.specs.Texts.{is_same, lowered};
ghost use Rattle.am_opening.specs.Merging.{is_live};

use crate::packages::is_package_uid;
use am_keeper::{GrantRow, LinkRow};
use am_types::{Package, RightKind, Text};

/// A row of a right, which is a uid with a permission or a host.
pub(crate) trait RightRow: Drop {
    ghost use Rattle.std.specs.Prelude.{◌≡◌, Bool};
    ghost use Rattle.am_model.specs.Rights.{Right};

    /// The right that the row is about.
    ghost right: { Self → Right };

    /// Whether the right is held.
    ghost is_held: { Self → Bool };

    fn uid(&self) -> u32
        ensures { result ≡ (right self.now).0 };

    fn text(&self) -> &Text
        ensures { result.now ≡ (right self.now).1 };

    fn held(&self) -> bool
        ensures { result ≡ is_held self.now };
}

impl RightRow for GrantRow {
    ghost use Rattle.am_opening.specs.Merging.{of_grant_row};

    ghost right = { of_grant_row };

    ghost is_held = { λ row. row.held };

    fn uid(&self) -> u32 {
        self.uid
    }

    fn text(&self) -> &Text {
        &self.permission
    }

    fn held(&self) -> bool {
        self.held
    }
}

impl RightRow for LinkRow {
    ghost use Rattle.am_opening.specs.Merging.{of_link_row};

    ghost right = { of_link_row };

    ghost is_held = { λ row. row.approved };

    fn uid(&self) -> u32 {
        self.uid
    }

    fn text(&self) -> &Text {
        &self.host
    }

    fn held(&self) -> bool {
        self.approved
    }
}

/// Whether rows of this right count among these packages.
pub(crate) fn is_live(kind: RightKind, packages: &[Package], uid: u32, text: &Text) -> bool
    ensures { result ≡ is_live kind packages.now (uid, text.now) }
{
    match kind {
        RightKind::Permission => is_package_uid(packages, uid),
        RightKind::Host => is_package_uid(packages, uid) && is_lowered(text.as_str()),
    }
}

/// Whether each byte stays the same in lower ASCII case.
fn all_lowered(text: &str) -> bool
    ensures { result ≡ list_all (λ b. to_ascii_lowercase b == b) text.now }
{
    text.as_bytes().iter().all(|b| b.to_ascii_lowercase() == *b)
}

/// Whether the text is in lower ASCII case.
fn is_lowered(text: &str) -> bool
    ensures { result ≡ is_same (lowered text.now) text.now }
{
    all_lowered(text)
}
