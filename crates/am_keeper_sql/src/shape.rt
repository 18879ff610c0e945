//! Whether a database has the table of the kept rows, and nothing else.
ghost use Rattle.std.specs.Prelude.{◌≡◌, ◌↔◌, [], ◌∷◌, IsTrue, codes};
ghost use Rattle.am_keeper_sql.specs.Table.{no_schema, kept_schema, kept, kept_index, column_of};

use sqlite::types::Value;
use sqlite_items::Items;
use sqlite_schema::code::Terms;
use sqlite_schema::schema::{Column, Index, Kind, Schema, Stamps, Table};
use sqlite_value::keys::Collation;

/// Whether the column has this name and type, is never NULL and has no other rule.
fn is_column(column: &Column, name: &str, kind: Kind) -> bool
    ensures { IsTrue result ↔ (column.now ≡ column_of name.now kind) }
{
    column.name.as_slice() == name.as_bytes()
        && column.kind == kind
        && column.is_strict
        && column.not_null
        && matches!(column.default, Value::Null)
        && column.collation == Collation::Binary
}

fn are_key_columns(kind: &Column, uid: &Column, word: &Column) -> bool
    ensures kind { IsTrue result → kind.now ≡ column_of (codes "kind") Kind.Integer }
    ensures uid { IsTrue result → uid.now ≡ column_of (codes "uid") Kind.Integer }
    ensures word { IsTrue result → word.now ≡ column_of (codes "word") Kind.Text }
    ensures all { kind.now ≡ column_of (codes "kind") Kind.Integer → uid.now ≡ column_of (codes "uid") Kind.Integer
        → word.now ≡ column_of (codes "word") Kind.Text → IsTrue result }
{
    is_column(kind, "kind", Kind::Integer)
        && is_column(uid, "uid", Kind::Integer)
        && is_column(word, "word", Kind::Text)
}

fn are_other_columns(name: &Column, access: &Column, manifest: &Column, truth: &Column) -> bool
    ensures name { IsTrue result → name.now ≡ column_of (codes "name") Kind.Text }
    ensures access { IsTrue result → access.now ≡ column_of (codes "access") Kind.Text }
    ensures manifest { IsTrue result → manifest.now ≡ column_of (codes "manifest") Kind.Text }
    ensures truth { IsTrue result → truth.now ≡ column_of (codes "truth") Kind.Integer }
    ensures all { name.now ≡ column_of (codes "name") Kind.Text → access.now ≡ column_of (codes "access") Kind.Text
        → manifest.now ≡ column_of (codes "manifest") Kind.Text
        → truth.now ≡ column_of (codes "truth") Kind.Integer → IsTrue result }
{
    is_column(name, "name", Kind::Text)
        && is_column(access, "access", Kind::Text)
        && is_column(manifest, "manifest", Kind::Text)
        && is_column(truth, "truth", Kind::Integer)
}

fn has_columns(columns: &Items<Column>) -> bool
    ensures { IsTrue result ↔ (columns.now ≡ kept.columns) }
{
    let [kind, uid, word, name, access, manifest, truth] = columns.as_slice() else {
        return false;
    };
    are_key_columns(kind, uid, word) && are_other_columns(name, access, manifest, truth)
}

/// Whether these are the places of the kind, the uid and the word.
fn is_key(places: &Items<usize>) -> bool
    ensures { IsTrue result ↔ (places.now ≡ kept.primary) }
{
    places.as_slice() == [1, 2, 3].as_slice()
}

fn has_key(table: &Table) -> bool
    ensures uniques { IsTrue result → table.now.uniques ≡ kept.uniques }
    ensures primary { IsTrue result → table.now.primary ≡ kept.primary }
    ensures orders { IsTrue result → table.now.orders ≡ kept.orders }
    ensures key { IsTrue result → table.now.key ≡ kept.key }
    ensures all { table.now ≡ kept → IsTrue result }
{
    let ([unique], [order]) = (table.uniques.as_slice(), table.orders.as_slice()) else {
        return false;
    };
    table.key.is_none() && is_key(&table.primary) && is_key(unique) && order.digits == 0
}

fn are_none(terms: &Terms) -> bool
    ensures { IsTrue result ↔ (terms.now ≡ []) }
{
    terms.roots.len() == 0
}

fn is_unstamped(stamps: &Stamps) -> bool
    ensures { IsTrue result ↔ (stamps.now ≡ kept.stamps) }
{
    stamps.places.len() == 0 && are_none(&stamps.terms) && stamps.formats.len() == 0
}

fn has_no_rules(table: &Table) -> bool
    ensures checks { IsTrue result → table.now.checks ≡ kept.checks }
    ensures references { IsTrue result → table.now.references ≡ kept.references }
    ensures computed { IsTrue result → table.now.computed ≡ kept.computed }
    ensures stamps { IsTrue result → table.now.stamps ≡ kept.stamps }
    ensures counted { IsTrue result → table.now.is_counted ≡ kept.is_counted }
    ensures all { table.now ≡ kept → IsTrue result }
{
    are_none(&table.checks)
        && table.references.len() == 0
        && table.computed.len() == 0
        && is_unstamped(&table.stamps)
        && !table.is_counted
}

fn is_table(table: &Table) -> bool
    ensures { IsTrue result ↔ (table.now ≡ kept) }
{
    table.name.as_slice() == "kept".as_bytes()
        && table.tree == 0
        && has_columns(&table.columns)
        && has_key(table)
        && has_no_rules(table)
}

/// Whether the index holds each key once, in the order of its values.
fn is_of_key(index: &Index) -> bool
    ensures columns { IsTrue result → index.now.columns ≡ kept_index.columns }
    ensures order { IsTrue result → index.now.order ≡ kept_index.order }
    ensures unique { IsTrue result → index.now.is_unique ≡ kept_index.is_unique }
    ensures all { index.now ≡ kept_index → IsTrue result }
{
    is_key(&index.columns) && index.order.digits == 0 && index.is_unique
}

#[tactic(auto, using(crate::proofs::Shapes::index_is))]
fn is_index(index: &Index) -> bool
    ensures { IsTrue result ↔ (index.now ≡ kept_index) }
{
    if index.name.as_slice() != "sqlite_autoindex_kept_1".as_bytes() {
        return false;
    }
    if index.tree != 1 || index.table != 0 {
        return false;
    }
    is_of_key(index)
}

/// Whether nothing is there yet.
pub(crate) fn is_blank(schema: &Schema) -> bool
    ensures { IsTrue result ↔ (schema.now ≡ no_schema) }
{
    schema.tables.len() == 0 && schema.indexes.len() == 0 && schema.views.len() == 0
}

/// Whether the one table is there, and nothing else.
pub(crate) fn is_kept(schema: &Schema) -> bool
    ensures { IsTrue result ↔ (schema.now ≡ kept_schema) }
{
    let ([table], [index]) = (schema.tables.as_slice(), schema.indexes.as_slice()) else {
        return false;
    };
    schema.views.len() == 0 && is_table(table) && is_index(index)
}
