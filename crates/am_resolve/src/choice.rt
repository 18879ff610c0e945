//! Which of the activities that are left a start reaches on a phone.
ghost use Rattle.std.specs.Prelude.{◌≡◌, filter};
ghost use Rattle.am_model.specs.Links.{may_start, phone_choice};

use crate::top::{choose, is_tied};
use am_installed::Installed;
use am_links::may_start;
use am_types::{Hit, List, Target};

/// The hits that the caller may start.
fn keep_own(installed: &Installed, caller: u32, left: List<Hit>) -> List<Hit>
    ensures { result ≡ filter (may_start installed.now caller) left }
{
    let mut hits = left.into_items();
    hits.retain(|hit| may_start(installed, caller, hit));
    List::new(hits)
}

/// Which of the hits, which are ordered by falling priority, a start of the caller reaches: the one of greatest
/// priority; if several share it, the one of greatest priority among those that the caller may start, or several from
/// which the user must choose. (AOSP, `ResolverListController.filterIneligibleActivities`.) Takes no memory.
pub fn phone_choice(installed: &Installed, caller: u32, left: List<Hit>) -> Target
    ensures { result ≡ phone_choice installed.now caller left }
{
    if is_tied(&left) {
        choose(keep_own(installed, caller, left))
    } else {
        choose(left)
    }
}
