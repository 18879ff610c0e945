//! Whether a pattern's elements match a path, found with the set of places in the pattern that the path has reached:
//! there is one place before each element, and one after the last. A character moves the whole set on, a word at a
//! time, so the time depends only on the lengths of the path and the pattern.
ghost use Rattle.std.specs.Prelude.{◌≡◌, ◌<◌, ◌≤◌, ◌*◌, map, length, replicate, chars};
ghost use Rattle.am_model.specs.Paths.{matches};
ghost use Rattle.am_uri.specs.PathElements.{element_of};
ghost use Rattle.am_uri.specs.PathRows.{AreRows};

use crate::bits::{Test, WIDTH, WORDS, write_where};
use crate::pattern::Element;
use crate::places::{advance, is_empty, is_reached, skip};
use crate::rows::{ASKED, ROWS, Row, write_allowed, write_rows};

/// Whether all the characters of the path are matched by the elements, one after the other.
pub(crate) fn matches(elements: &[Element], path: &str) -> bool
    requires { length elements.now ≤ 1024 }
    ensures { result ≡ matches (map element_of elements.now) (chars path.now) }
{
    // Asking each element at each new character is expensive if there are many of both; rows cost something to make.
    if elements.len() >= WIDTH && changes_often(path) {
        return matches_varied(elements, path);
    }
    matches_by(elements, &[], path)
}

/// The same with rows, which are made first.
fn matches_varied(elements: &[Element], path: &str) -> bool
    requires { length elements.now ≤ 1024 }
    ensures { result ≡ matches (map element_of elements.now) (chars path.now) }
{
    let mut rows = [[0; WORDS]; ROWS];
    write_rows(elements, &mut rows);
    matches_by(elements, &rows, path)
}

/// The same with these rows, or without rows.
fn matches_by(elements: &[Element], rows: &[Row], path: &str) -> bool
    requires fits { length elements.now ≤ 1024 }
    requires rows { AreRows (map element_of elements.now) rows.now }
    ensures { result ≡ matches (map element_of elements.now) (chars path.now) }
{
    let mut reached = [0; WORDS];
    let mut repeated = [0; WORDS];
    let mut allowed = [0; WORDS];
    let count = elements.len() / WIDTH + 1;
    walk(
        elements,
        rows,
        path,
        &mut reached[..count],
        &mut repeated[..count],
        &mut allowed[..count],
    )
}

/// Whether the character changes more often than elements are asked for the rows.
fn changes_often(path: &str) -> bool {
    let mut last = ' ';
    let mut changes = 0;
    for c in path.chars() {
        if c != last {
            if changes == ASKED {
                return true;
            }
            last = c;
            changes += 1;
        }
    }
    false
}

/// Goes through the path, with words for the places that are reached, for the elements that are repeated, and for the
/// elements that allow a character.
fn walk(
    elements: &[Element],
    rows: &[Row],
    path: &str,
    reached: &mut [u64],
    repeated: &mut [u64],
    allowed: &mut [u64],
) -> bool
    requires rows { AreRows (map element_of elements.now) rows.now }
    requires start { reached.old ≡ replicate (length reached.old) 0 }
    requires room { length elements.now < 63 * length reached.old }
    requires repeated { length repeated.old ≡ length reached.old }
    requires allowed { length allowed.old ≡ length reached.old }
    ensures { result ≡ matches (map element_of elements.now) (chars path.now) }
{
    let mut last = ' ';
    reached[0] = 1;
    write_where(elements, Test::Repeated, repeated);
    write_where(elements, Test::Allows(last), allowed);
    for c in path.chars() {
        write_allowed(elements, rows, c, last, allowed);
        last = c;
        skip(repeated, reached);
        advance(allowed, repeated, reached);
        if is_empty(reached) {
            return false;
        }
    }
    skip(repeated, reached);
    is_reached(reached, elements.len())
}
