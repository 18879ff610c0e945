//! Tables of rows, sections and documents that are tried one after the other.
use crate::spelled_out;
use std::alloc::Global;
use std::test::Fail;

/// Tries each row of a table, of which there must be so many. A line that begins with `#` is a remark, not a
/// row.
///
/// # Errors
///
/// The first failure of a row, or another number of rows.
pub fn try_each<F: FnMut(&str) -> Result<(), Fail>>(
    table: &str,
    wanted: u32,
    mut try_row: F,
) -> Result<(), Fail>
    requires { F.IsAlwaysCallable try_row }
{
    let mut rows: usize = 0;
    for row in table.lines() {
        if !row.starts_with('#') {
            try_row(row)?;
            rows = rows.wrapping_add(1);
        }
    }
    same_count(rows, wanted)
}

/// Tries each section of a text between the separators, of which there must be so many.
///
/// # Errors
///
/// The first failure of a section, or another number of sections.
pub fn try_sections<F: FnMut(&str) -> Result<(), Fail>>(
    text: &str,
    separator: &str,
    wanted: u32,
    mut try_section: F,
) -> Result<(), Fail>
    requires { F.IsAlwaysCallable try_section }
{
    for section in text.split(separator) {
        try_section(section)?;
    }
    same_count(text.split(separator).count(), wanted)
}

/// Asks what each row of a table asks. The answer must be the text after the row's first separator. There must be so
/// many rows.
///
/// # Errors
///
/// The first failure of an answer, the first answer that is another one, or another number of rows.
pub fn try_answers<F: FnMut(&str) -> Result<String, Fail>>(
    table: &str,
    separator: &str,
    wanted: u32,
    mut answer: F,
) -> Result<(), Fail>
    requires { F.IsAlwaysCallable answer }
{
    for row in table.lines() {
        let (asked, told) = row.split_once(separator).unwrap_or((row, "no row"));
        let found = answer(asked)?;
        same_text(found.as_str(), told, asked)?;
    }
    same_count(table.lines().count(), wanted)
}

/// Asks what becomes of each document of a table. The answer must be the line after it that begins with `= `. In a
/// document `<3:a>` is spelled out, and lines end as given.
///
/// # Errors
///
/// The first failure of an answer, or the first answer that is another one.
pub fn try_documents<F: FnMut(&str) -> Result<String, Fail>>(
    alloc: Global,
    table: &str,
    ending: &str,
    mut answer: F,
) -> Result<(), Fail>
    requires { F.IsAlwaysCallable answer }
{
    let mut document = String::new(alloc);
    for line in table.lines() {
        if let Some(told) = line.strip_prefix("= ") {
            let found = answer(document.as_str())?;
            same_text(found.as_str(), told, document.as_str())?;
            document.clear();
        } else {
            document.push_str(spelled_out(alloc, line)?.as_str())?;
            document.push_str(ending)?;
        }
    }
    Ok(())
}

fn same_count(found: usize, wanted: u32) -> Result<(), Fail> {
    if found == wanted as usize {
        Ok(())
    } else {
        Err(Fail::new(format_args!("{found} of them, and not {wanted}")))
    }
}

fn same_text(found: &str, wanted: &str, asked: &str) -> Result<(), Fail> {
    if found == wanted {
        Ok(())
    } else {
        Err(Fail::new(format_args!("{found}, and not {wanted}, at {asked}")))
    }
}
