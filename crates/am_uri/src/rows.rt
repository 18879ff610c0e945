//! Rows of a pattern: with them the elements that allow a character are found without asking each element.
ghost use Rattle.std.specs.Prelude.{◌≡◌, ◌<◌, ◌≤◌, ℕ, map, take, length, List as Items};
ghost use Rattle.am_model.specs.Paths.{Element as ReadElement};
ghost use Rattle.am_uri.specs.PathElements.{element_of, allowed_at};
ghost use Rattle.am_uri.specs.PathWords.{IsShift, passes, words_where};
ghost use Rattle.am_uri.specs.PathRows.{AreRows, test_of, both, without, either};

use crate::bits::{Test, WIDTH, WORDS, write_where};
use crate::pattern::Element;

/// The words of the elements that pass a test.
pub(crate) type Row = [u64; WORDS];

/// The rows that are made by asking each element: one for each of the 21 bits of a character, then three more.
pub(crate) const ASKED: usize = 24;

/// The rows of a pattern: those, then one for each ASCII character.
pub(crate) const ROWS: usize = 152;

/// The row of the elements whose character is below 2^7.
const ASCII: usize = 21;

/// The row of the elements whose character is below 2^21. All are, but as a row this needs no fact about characters.
const WHOLE: usize = 22;

/// The row of the elements that allow every character.
const WILD: usize = 23;

/// The test of a row that is made by asking each element.
fn test_of(k: usize) -> Test
    requires { k < 24 }
    ensures test { result ≡ test_of k }
    ensures shift { IsShift result }
{
    match k {
        ASCII => Test::Below(7),
        WHOLE => Test::Below(21),
        WILD => Test::Wild,
        _ => Test::Bit((k % 32) as u32),
    }
}

/// The row at this place. The row of an ASCII character is found with the rows before it.
fn row_at(elements: &[Element], before: &[Row], k: usize) -> Row
    requires before { length before.now ≡ k }
    requires most { k < 152 }
    requires rows { AreRows (map element_of elements.now) before.now }
    ensures { (m : ℕ) → m ≤ 17 → take m result ≡ words_where 63 (passes (test_of k)) m (map element_of elements.now) }
{
    let mut row = [0; WORDS];
    if k < ASKED {
        write_where(elements, test_of(k), &mut row);
    } else {
        find(before, (k - ASKED) as u8 as char, &mut row);
    }
    row
}

/// Writes each row.
pub(crate) fn write_rows(elements: &[Element], rows: &mut [Row])
    requires { length rows.old ≤ 152 }
    ensures rows { AreRows (map element_of elements.now) rows.new }
    ensures same_length { length rows.new ≡ length rows.old }
{
    for k in 0..rows.len() {
        let row = row_at(elements, &rows[..k], k);
        rows[k] = row;
    }
}

/// Overwrites the previous character's words with the words of the elements that allow this character: with the rows if
/// there are any, otherwise by asking each element.
pub(crate) fn write_allowed(
    elements: &[Element],
    rows: &[Row],
    c: char,
    last: char,
    words: &mut [u64],
)
    requires rows { AreRows (map element_of elements.now) rows.now }
    requires last { words.old ≡ words_where 63 (allowed_at last) (length words.old) (map element_of elements.now) }
    ensures { words.new ≡ words_where 63 (allowed_at c) (length words.old) (map element_of elements.now) }
{
    if c == last {
        return;
    }
    if rows.len() == ROWS && words.len() <= WORDS {
        look_up(rows, c, words);
    } else {
        write_where(elements, Test::Allows(c), words);
    }
}

/// Writes the words of the elements that allow the character. An ASCII character has a row of its own.
fn look_up(rows: &[Row], c: char, words: &mut [u64])
    requires rows { length rows.now ≡ 152 }
    requires words { length words.old ≤ 17 }
    ensures { (elements : Items ReadElement) → AreRows elements rows.now → words.new
        ≡ words_where 63 (allowed_at c) (length words.old) elements }
{
    let code = c as usize;
    if code < 128 {
        let count = words.len();
        words.copy_from_slice(&rows[ASKED + code][..count]);
    } else {
        find(rows, c, words);
    }
}

/// The same with the rows that are made first: elements whose character has the same bits, and wild
/// ones.
fn find(rows: &[Row], c: char, words: &mut [u64])
    requires rows { 24 ≤ length rows.now }
    requires words { length words.old ≤ 17 }
    ensures { (elements : Items ReadElement) → AreRows elements rows.now
        → words.new ≡ words_where 63 (allowed_at c) (length words.old) elements }
{
    let code = c as u32;
    let count = words.len();
    let mut b: usize;
    if code < 128 {
        words.copy_from_slice(&rows[ASCII][..count]);
        b = 7;
    } else {
        words.copy_from_slice(&rows[WHOLE][..count]);
        b = 21;
    }
    while b > 0 {
        b -= 1;
        if (code >> b) % 2 == 1 {
            keep(&rows[b][..count], words);
        } else {
            remove(&rows[b][..count], words);
        }
    }
    add(&rows[WILD][..count], words);
}

/// Clears the bits that aren't in the row.
fn keep(row: &[u64], words: &mut [u64])
    requires { length row.now ≡ length words.old }
    ensures { words.new ≡ both row.now words.old }
{
    for i in 0..words.len() {
        words[i] &= row[i];
    }
}

/// Clears the bits that are in the row.
fn remove(row: &[u64], words: &mut [u64])
    requires { length row.now ≡ length words.old }
    ensures { words.new ≡ without row.now words.old }
{
    for i in 0..words.len() {
        words[i] ^= words[i] & row[i];
    }
}

/// Sets the bits that are in the row.
fn add(row: &[u64], words: &mut [u64])
    requires { length row.now ≡ length words.old }
    ensures { words.new ≡ either row.now words.old }
{
    for i in 0..words.len() {
        words[i] |= row[i];
    }
}
