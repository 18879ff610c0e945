//! The data rows of a filter, and how they merge.
ghost use Rattle.std.specs.Prelude.{◌≡◌, ◌++◌, IfOk, fold};
ghost use Rattle.am_filter.specs.Rows.{filter_with, listed, merged, no_rows, with_paths, with_row};

use am_types::{Authority, Filter, Glob, List, Mime, PathRule, Text};
use am_uri::with_optional;
use std::alloc::{AllocError, Global};
use std::collections::BTreeSet;

/// The path rules of a data row: at most one of each kind.
#[derive(Drop)]
pub struct Paths {
    /// The whole path.
    pub literal: Option<Text>,
    /// What the path starts with.
    pub prefix: Option<Text>,
    /// What the path ends with.
    pub suffix: Option<Text>,
    /// A pattern of the whole path.
    pub pattern: Option<Glob>,
}

/// A data row of a filter.
#[derive(Drop)]
pub struct DataRow {
    /// The scheme, if the row has one.
    pub scheme: Option<Text>,
    /// The host with its port, if the row has a host.
    pub authority: Option<Authority>,
    /// The path rules, in the order in which they are kept.
    pub paths: Paths,
    /// The MIME type, if the row has one.
    pub mime: Option<Mime>,
}

/// The data rows of a filter, merged.
#[derive(Drop)]
pub struct DataRows {
    /// Sorted by bytes, each once.
    pub schemes: List<Text>,
    /// In the order of the rows, repeats included.
    pub authorities: List<Authority>,
    /// In the order of the rows, repeats included.
    pub paths: List<PathRule>,
    /// In the order of the rows, repeats included.
    pub types: List<Mime>,
}

impl DataRows {
    /// The filter with these data. Takes no memory.
    pub fn into_filter(self, actions: List<Text>, categories: List<Text>, priority: i32) -> Filter
        ensures { result ≡ filter_with actions categories self priority }
    {
        Filter {
            actions,
            categories,
            schemes: self.schemes,
            authorities: self.authorities,
            paths: self.paths,
            types: self.types,
            priority,
        }
    }
}

/// The items, with one more, if there is one.
fn with_one<T: Drop>(items: Vec<T>, item: Option<T>) -> Result<Vec<T>, AllocError>
    ensures { IfOk result (λ all. all.items ≡ items.items ++ listed item) }
{
    let mut items = items;
    if let Some(item) = item {
        items.push(item)?;
    }
    Ok(items)
}

/// The rules, followed by those of one more row.
fn with_paths(rules: Vec<PathRule>, paths: Paths) -> Result<Vec<PathRule>, AllocError>
    ensures { IfOk result (λ all. all.items ≡ with_paths rules.items paths) }
{
    let rules = with_one(rules, paths.literal.map(PathRule::Literal))?;
    let rules = with_one(rules, paths.prefix.map(PathRule::Prefix))?;
    let rules = with_one(rules, paths.suffix.map(PathRule::Suffix))?;
    with_one(rules, paths.pattern.map(PathRule::Pattern))
}

/// Rows that are being merged.
#[derive(Drop)]
pub struct Merging {
    pub schemes: BTreeSet<Text>,
    pub authorities: Vec<Authority>,
    pub paths: Vec<PathRule>,
    pub types: Vec<Mime>,
}

/// The rows, with one more.
fn with_row(rows: Merging, row: DataRow) -> Result<Merging, AllocError>
    ensures { IfOk result (λ all. merged all ≡ with_row (merged rows) row) }
{
    Ok(Merging {
        schemes: with_optional(rows.schemes, row.scheme)?,
        authorities: with_one(rows.authorities, row.authority)?,
        paths: with_paths(rows.paths, row.paths)?,
        types: with_one(rows.types, row.mime)?,
    })
}

/// Merges the rows of a filter in their order: schemes are sorted by bytes, each once, and everything else is in the
/// order of the rows, repeats included.
///
/// # Errors
///
/// Only if memory runs out.
pub fn merge_rows(alloc: Global, rows: Vec<DataRow>) -> Result<DataRows, AllocError>
    ensures { IfOk result (λ all. all ≡ fold with_row no_rows rows.items) }
{
    let mut all = Merging {
        schemes: BTreeSet::new(alloc),
        authorities: Vec::new(alloc),
        paths: Vec::new(alloc),
        types: Vec::new(alloc),
    };
    for row in rows {
        all = with_row(all, row)?;
    }
    Ok(DataRows {
        schemes: List::new(all.schemes.into_iter().collect(alloc)?),
        authorities: List::new(all.authorities),
        paths: List::new(all.paths),
        types: List::new(all.types),
    })
}
