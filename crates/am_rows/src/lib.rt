//! Turns kept rows into cells of a table, and back.
#![tactic(auto)]

ghost use Rattle.std.specs.Prelude.{◌≡◌, ◌↔◌, ◌<◌, List as Items, [], Some, None, Err, IfOk, option_map};
ghost use Rattle.std.specs.Option.{option_copied};
ghost use Rattle.am_rows.specs.Cells.{cells_of, whole_at, words_at, truth_from, truth_number, is_empty, package_from, has_word_alone, row_from, numbers_in, texts_in, row_in, word_cells, IsReading};
ghost use Rattle.am_rows.specs.declared.Cell.{Cell as Item};
ghost use Rattle.am_rows.specs.Parts.{numbers_of, texts_of};

pub use am_keeper::Row;
use am_keeper::{GrantRow, LinkRow, PackageRow};
use am_types::{List, NoMemory, Text};
use std::alloc::{AllocError, AllocFailed, Global};
use std::error::Error;
use std::fmt;

/// A cell of a table.
#[derive(Drop)]
pub enum Cell {
    Whole(i64),
    Words(Text),
}

/// Why cells aren't read as a row.
#[derive(Clone, Copy, Debug, PartialEq, Eq)]
pub enum RowFault {
    /// No row has these cells.
    Shape,
    /// Memory ran out.
    NoMemory,
}

impl fmt::Display for RowFault {
    fn fmt<W: fmt::Write>(&self, f: &mut fmt::Formatter<W>) -> fmt::Result {
        f.write_str(match self {
            RowFault::Shape => "not a row",
            RowFault::NoMemory => "out of memory",
        })
    }
}

impl Error for RowFault {}

impl From<AllocError> for RowFault {
    ghost use Rattle.std.specs.Prelude.{◌≡◌};
    ghost use Rattle.am_rows.specs.declared.RowFault.TheVariants.{NoMemory};

    ghost from_gives = { λ _ fault. fault ≡ NoMemory };

    fn from(_error: AllocError) -> RowFault {
        RowFault::NoMemory
    }
}

/// The number in the cell at a place.
fn whole_at(cells: &[Cell], at: usize) -> Option<i64>
    ensures { result ≡ whole_at cells.now at }
{
    match cells.get(at)? {
        Cell::Whole(number) => Some(*number),
        Cell::Words(_) => None,
    }
}

/// The text in the cell at a place.
fn words_at(cells: &[Cell], at: usize) -> Option<&Text>
    ensures { option_copied result ≡ words_at cells.now at }
{
    match cells.get(at)? {
        Cell::Whole(_) => None,
        Cell::Words(text) => Some(text),
    }
}

/// The truth value that 0 or 1 means.
fn truth_from(number: i64) -> Option<bool>
    ensures { result ≡ truth_from number }
{
    match number {
        0 => Some(false),
        1 => Some(true),
        _ => None,
    }
}

/// The kind, the uid and the truth value of a row.
#[derive(Drop)]
struct Numbers {
    kind: i64,
    uid: u32,
    truth: bool,
}

fn read_numbers(cells: &[Cell]) -> Option<Numbers>
    ensures { option_map numbers_of result ≡ numbers_in cells.now }
{
    let kind = whole_at(cells, 0)?;
    let uid = u32::try_from(whole_at(cells, 1)?).ok()?;
    let truth = truth_from(whole_at(cells, 6)?)?;
    Some(Numbers { kind, uid, truth })
}

/// The four texts of a row.
#[derive(Drop)]
struct Texts<'a> {
    word: &'a Text,
    name: &'a Text,
    access: &'a Text,
    manifest: &'a Text,
}

fn read_texts(cells: &[Cell]) -> Option<Texts<'_>>
    ensures { option_map texts_of result ≡ texts_in cells.now }
{
    Some(Texts {
        word: words_at(cells, 2)?,
        name: words_at(cells, 3)?,
        access: words_at(cells, 4)?,
        manifest: words_at(cells, 5)?,
    })
}

fn copy(text: &Text) -> Result<Text, AllocError>
    ensures { IfOk result (λ copy. copy ≡ text.now) }
{
    text.clone()
}

fn package_row(uid: u32, gone: bool, texts: &Texts<'_>) -> Result<Row, RowFault>
    ensures { IsReading (package_from uid gone (texts_of texts.now)) result }
{
    if !texts.word.as_str().is_empty() {
        return Err(RowFault::Shape);
    }
    Ok(Row::Package(PackageRow {
        uid,
        name: copy(texts.name)?,
        key: copy(texts.access)?,
        text: copy(texts.manifest)?,
        gone,
    }))
}

/// Whether the word is the only text.
fn has_word_alone(texts: &Texts<'_>) -> bool
    ensures { result ≡ has_word_alone (texts_of texts.now) }
{
    texts.name.as_str().is_empty()
        && texts.access.as_str().is_empty()
        && texts.manifest.as_str().is_empty()
}

/// The row of this kind. A right has only its word as a text.
fn row_from(numbers: &Numbers, texts: &Texts<'_>) -> Result<Row, RowFault>
    ensures { IsReading (row_from numbers.now.kind numbers.now.uid numbers.now.truth (texts_of texts.now)) result }
{
    match numbers.kind {
        0 => package_row(numbers.uid, numbers.truth, texts),
        1 if has_word_alone(texts) => Ok(Row::Grant(GrantRow {
            uid: numbers.uid,
            permission: copy(texts.word)?,
            held: numbers.truth,
        })),
        2 if has_word_alone(texts) => Ok(Row::Link(LinkRow {
            uid: numbers.uid,
            host: copy(texts.word)?,
            approved: numbers.truth,
        })),
        _ => Err(RowFault::Shape),
    }
}

/// Reads a row from its cells. Fails with `Shape` if and only if no row has these cells: their
/// number or kinds are wrong, the kind of row isn't 0, 1 or 2, the uid isn't from 0 to
/// 4,294,967,295, the truth value isn't 0 or 1, or there is a text that this kind of row lacks.
pub fn row_of(cells: &List<Cell>) -> Result<Row, RowFault>
    ensures reads { IsReading (row_in cells.now) result }
    ensures inverse { IfOk result (λ row. cells_of row ≡ cells.now) }
    ensures shape { (result ≡ Err RowFault.Shape) ↔ (row_in cells.now ≡ None) }
{
    let cells = cells.as_slice();
    if cells.len() != 7 {
        return Err(RowFault::Shape);
    }
    match (read_numbers(cells), read_texts(cells)) {
        (Some(numbers), Some(texts)) => row_from(&numbers, &texts),
        _ => Err(RowFault::Shape),
    }
}

/// A truth value as a number.
fn truth_number(truth: bool) -> i64
    ensures { result ≡ truth_number truth }
{
    if truth { 1 } else { 0 }
}

fn words(text: &Text) -> Result<Cell, AllocError>
    ensures { IfOk result (λ cell. cell ≡ Cell.Words text.now) }
{
    Ok(Cell::Words(text.clone()?))
}

fn empty(alloc: Global) -> Cell
    ensures { result ≡ Cell.Words [] }
{
    Cell::Words(Text::new(String::new(alloc)))
}

fn package_cells(alloc: Global, row: &PackageRow) -> Result<Vec<Cell>, AllocError>
    ensures cells { IfOk result (λ cells. cells.items ≡ cells_of (Row.Package row.now)) }
    ensures uid { row.now.uid < 4294967296 }
{
    let uid = Cell::Whole(i64::from(row.uid));
    let name = words(&row.name)?;
    let key = words(&row.key)?;
    let text = words(&row.text)?;
    let gone = Cell::Whole(truth_number(row.gone));
    Ok(vec![in alloc; Cell::Whole(0), uid, empty(alloc), name, key, text, gone]?)
}

fn word_cells(
    alloc: Global,
    kind: i64,
    uid: u32,
    word: &Text,
    truth: bool,
) -> Result<Vec<Cell>, AllocError>
    ensures cells { IfOk result (λ cells. cells.items ≡ word_cells kind uid word.now truth) }
    ensures uid { uid < 4294967296 }
{
    let word = words(word)?;
    let truth = Cell::Whole(truth_number(truth));
    let uid = Cell::Whole(i64::from(uid));
    Ok(vec![in alloc;
        Cell::Whole(kind),
        uid,
        word,
        empty(alloc),
        empty(alloc),
        empty(alloc),
        truth,
    ]?)
}

/// The cells of a row, in the order of the columns. No other list of cells is read as this row.
pub fn row_cells(alloc: Global, row: &Row) -> Result<List<Cell>, NoMemory>
    ensures cells { IfOk result (λ cells. cells ≡ cells_of row.now) }
    ensures inverse { IfOk result (λ cells. row_in cells ≡ Some row.now) }
    ensures only { IfOk result (λ cells. (other : Items Item) → row_in other ≡ Some row.now → other ≡ cells) }
{
    let cells = match row {
        Row::Package(row) => package_cells(alloc, row)?,
        Row::Grant(row) => word_cells(alloc, 1, row.uid, &row.permission, row.held)?,
        Row::Link(row) => word_cells(alloc, 2, row.uid, &row.host, row.approved)?,
    };
    Ok(List::new(cells))
}
