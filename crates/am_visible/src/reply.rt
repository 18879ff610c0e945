//! The reply to a query.
ghost use Rattle.std.specs.Prelude.{◌≡◌, ◌<◌, IfOk, IsTrue, map, string_bytes};
ghost use Rattle.am_types.specs.declared.resolve.Hit.{Hit};
ghost use Rattle.am_visible.specs.Answers.{components_of, is_query, line_of, reply_to};

use crate::shown::visible;
use am_resolve::Board;
use am_types::{Component, Hit, List, NoMemory, Queries, Reply, Request, Steps, Text};
use am_wire_replies::reply_text;
use std::alloc::{AllocError, Global};
use std::marker::Brand;
use std::sync::ledger::{Blank, Ledger};

/// The names of the components that were found.
fn components_of(alloc: Global, found: List<Hit>) -> Result<List<Component>, AllocError>
    ensures { IfOk result (λ names. names ≡ components_of found) }
{
    let found = found.into_items().into_iter();
    let names = found.map(|hit| hit.component).collect(alloc)?;
    Ok(List::new(names))
}

/// The reply to the query, with a counter made from `blank`.
fn counted<L: Ledger>(
    alloc: Global,
    board: &Board,
    queries: &List<Queries>,
    caller: u32,
    request: &Request,
    blank: Blank,
) -> Result<Reply, NoMemory>
    requires name { blank.name ≡ L.name }
    requires parts { blank.parts ≡ L.parts }
    requires some { 0 < blank.parts }
    requires query { IsTrue (is_query request.now) }
    ensures { IfOk result (λ reply. reply ≡ reply_to board.now queries.now caller request.now) }
{
    let mut steps = Steps::<L>::new(blank);
    match request {
        Request::Query {
            kind,
            intent,
            default_only,
        } => {
            let found = visible(
                alloc,
                board,
                queries,
                caller,
                *kind,
                intent,
                *default_only,
                &mut steps,
            )?;
            let names = components_of(alloc, found)?;
            Ok(Reply::Components(names))
        }
        _ => unreachable!(),
    }
}

/// The reply to the query: of the components that it finds, those that the caller sees.
pub(crate) fn reply_to(
    alloc: Global,
    board: &Board,
    queries: &List<Queries>,
    caller: u32,
    request: &Request,
) -> Result<Reply, NoMemory>
    requires query { IsTrue (is_query request.now) }
    ensures { IfOk result (λ reply. reply ≡ reply_to board.now queries.now caller request.now) }
{
    counted::<Brand>(alloc, board, queries, caller, request, Blank::new(1))
}

/// The reply as a line.
pub(crate) fn line_of(alloc: Global, reply: &Reply) -> Result<Text, NoMemory>
    ensures { IfOk result (λ line. line ≡ line_of reply.now) }
{
    let mut text = reply_text(alloc, reply)?;
    text.push('\n')?;
    Ok(Text::new(text))
}
