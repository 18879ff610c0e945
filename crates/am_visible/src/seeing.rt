//! Which packages a caller sees.
ghost use Rattle.std.specs.Prelude.{◌≡◌, option_copied};
ghost use Rattle.std.specs.List.{list_any};
ghost use Rattle.am_model.specs.Visibility.{ask_for, is_asked_for, meets, queries_of, sees, shows};

use crate::meeting::meets;
use am_filter::lists;
use am_gates::{holds_named, is_privileged};
use am_resolve::Board;
use am_types::{Decl, Filter, List, Package, Queries, Signature};

/// The permission that shows every package to its holder.
const QUERY_ALL_PACKAGES: &str = "android.permission.QUERY_ALL_PACKAGES";

/// Whether the caller sees the package of this uid. The queries are those of the board's packages, in their order.
///
/// The system and the root see every package, and so does a holder of `android.permission.QUERY_ALL_PACKAGES`. An app
/// sees itself, what its queries name, and packages with an exported and enabled component with a filter that meets one
/// of their signatures. ("Package visibility filtering"; that the component must be enabled: own.) Takes no memory.
pub fn sees(board: &Board, queries: &List<Queries>, caller: u32, package: u32) -> bool
    ensures { result ≡ sees board.now queries.now caller «package» }
{
    is_privileged(caller)
        || caller == package
        || holds_named(caller, QUERY_ALL_PACKAGES, board.grants())
        || ask_for(
            queries_of(board.packages(), queries, caller),
            board.package_at(package),
        )
}

/// The queries of the package of the uid, if there is one: the n-th queries belong to the n-th package.
fn queries_of<'a>(
    packages: &List<Package>,
    queries: &'a List<Queries>,
    uid: u32,
) -> Option<&'a Queries>
    ensures { option_copied result ≡ queries_of packages.now queries.entry.now uid }
{
    let queries = queries.as_slice();
    for (i, package) in packages.as_slice().iter().enumerate() {
        if i >= queries.len() {
            return None;
        }
        if package.uid == uid {
            return Some(&queries[i]);
        }
    }
    None
}

/// The queries ask for the package, if both are present.
fn ask_for(queries: Option<&Queries>, found: Option<&Package>) -> bool
    ensures { result ≡ ask_for (option_copied queries.entry) (option_copied found.entry) }
{
    match (queries, found) {
        (Some(queries), Some(found)) => is_asked_for(queries, found),
        _ => false,
    }
}

/// The package is named by the queries, or has a component that shows it.
fn is_asked_for(queries: &Queries, owner: &Package) -> bool
    ensures { result ≡ is_asked_for queries.now owner.now }
{
    lists(&queries.names, &owner.name) || some_shows(&queries.signatures, &owner.decls)
}

/// Some component shows its package to an app that asks for these signatures.
fn some_shows(signatures: &List<Signature>, decls: &List<Decl>) -> bool
    ensures { result ≡ list_any (shows signatures.now) decls.now }
{
    decls.as_slice().iter().any(|decl| shows(signatures, decl))
}

/// Other apps may reach the component, and it has a filter that meets one of the signatures.
fn shows(signatures: &List<Signature>, decl: &Decl) -> bool
    ensures { result ≡ shows signatures.now decl.now }
{
    decl.exported && decl.enabled && some_meets(&decl.filters, signatures)
}

/// Some filter meets one of the signatures.
fn some_meets(filters: &List<Filter>, signatures: &List<Signature>) -> bool
    ensures { result
        ≡ list_any (λ filter. list_any (λ signature. meets filter signature) signatures.now) filters.now }
{
    filters
        .as_slice()
        .iter()
        .any(|filter| meets_some(filter, signatures))
}

/// The filter meets one of the signatures.
fn meets_some(filter: &Filter, signatures: &List<Signature>) -> bool
    ensures { result ≡ list_any (λ signature. meets filter.now signature) signatures.now }
{
    signatures
        .as_slice()
        .iter()
        .any(|signature| meets(filter, signature))
}
