//! Stored calls.
ghost use Rattle.std.specs.Prelude.{◌≡◌, ◌++◌, OnOk};
ghost use Rattle.am_wire_replies.specs.Printing.{tokens_of, tokens_of_items};
ghost use Rattle.am_wire_values.specs.Replies.{entries_data, entry_data};
ghost use Rattle.am_wire_values.specs.Requests.{request_data};

use crate::printed::{Printed, print_object};
use crate::printer::Printer;
use crate::trees::print_tree;
use am_types::{Entry, Request};
use am_wire_routes::endpoint_of;
use am_wire_values::{number_after, request_value};
use std::alloc::AllocError;

impl Printed for Request {
    ghost as_data = { request_data };

    #[tactic(auto, using(am_wire_values::proofs::Floats::request_none))]
    fn print(&self, to: &mut Printer) -> Result<(), AllocError> {
        match request_value(to.alloc(), self) {
            Ok(value) => print_tree(to, &value),
            Err(_) => Err(AllocError),
        }
    }
}

/// Writes a stored call with its number.
#[tactic(auto, unfolding(am_wire_values::specs::Replies::entry_data))]
fn print_entry(to: &mut Printer, at: u64, call: &Entry) -> Result<(), AllocError>
    ensures { OnOk result (to.new ≡ to.old ++ tokens_of (entry_data at call.entry.now)) }
{
    let route = endpoint_of(&call.request).path();
    print_object!(
        to,
        "at" => &at,
        "desk" => &call.desk,
        "kept" => &call.kept,
        "now" => &call.now,
        "request" => &call.request,
        "route" => &route,
        "uid" => &call.uid,
        "weight" => &call.weight
    )
}

/// Writes stored calls that follow each other, the items of an array, and the bracket that closes it.
pub(crate) fn print_entries(
    to: &mut Printer,
    from: u64,
    entries: &[Entry],
) -> Result<(), AllocError>
    ensures { OnOk result (to.new ≡ to.old ++ tokens_of_items (entries_data from entries.now)) }
{
    let mut at = from;
    for entry in entries {
        print_entry(to, at, entry)?;
        at = number_after(at);
    }
    to.end_array()
}
