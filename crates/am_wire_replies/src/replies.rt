//! Replies.
ghost use Rattle.std.specs.Prelude.{◌≡◌, ◌++◌, IfOk, OnOk, string_bytes};
ghost use Rattle.serde_json.specs.Written.{compact_text};
ghost use Rattle.am_types.specs.declared.reply.Reply.TheVariants.{Entries};
ghost use Rattle.am_wire_replies.specs.Printing.{tokens_of};
ghost use Rattle.am_wire_values.specs.Replies.{reply_data};

use crate::entries::print_entries;
use crate::printed::{Fields, Printed, fields, print_object};
use crate::printer::Printer;
use crate::rules::print_refusal;
use am_types::{Entry, NoMemory, Reply};
use std::alloc::{AllocError, Global};

/// The compact text of the reply's value.
#[tactic(auto, using(crate::proofs::Tokens::compact_print))]
pub fn reply_text(alloc: Global, reply: &Reply) -> Result<String, NoMemory>
    ensures { IfOk result (λ text. string_bytes text ≡ compact_text (reply_data reply.now)) }
{
    let mut to = Printer::new(alloc)?;
    print_reply(&mut to, reply)?;
    Ok(to.into_text())
}

/// Writes a reply.
#[tactic(auto, unfolding(am_wire_values::specs::Replies::reply_data))]
fn print_reply(to: &mut Printer, reply: &Reply) -> Result<(), AllocError>
    ensures { OnOk result (to.new ≡ to.old ++ tokens_of (reply_data reply.now)) }
{
    match reply {
        Reply::Components(found) => print_object!(to, "components" => found),
        Reply::Accounts(accounts) => print_object!(to, "accounts" => accounts),
        Reply::Choose(found) => print_object!(to, "choose" => found),
        Reply::Placed(landed) => landed.print(to),
        Reply::Finished(instance) => print_object!(to, "finished" => instance),
        Reply::Tasks(tasks) => print_object!(to, "tasks" => tasks),
        Reply::Services(services) => print_object!(to, "services" => services),
        Reply::Registered(number) => print_object!(to, "number" => number),
        Reply::Items(items) => print_object!(to, "items" => items),
        Reply::Token(token) => print_object!(to, "token" => token),
        Reply::Installed(uid) => print_object!(to, "uid" => uid),
        Reply::Refused(rule) => print_refusal(to, rule),
        Reply::Started { component, starts } => {
            print_object!(to, "component" => component, "starts" => starts)
        }
        Reply::Sent {
            broadcast,
            receivers,
        } => print_object!(to, "broadcast" => broadcast, "receivers" => receivers),
        Reply::Entries { from, entries } => print_stored(to, *from, entries.as_slice()),
        Reply::Status {
            history,
            moment,
            packages,
        } => print_object!(to, "history" => history, "moment" => moment, "packages" => packages),
        Reply::Advanced { due, now } => print_object!(to, "due" => due, "now" => now),
        Reply::Plain => print_object!(to,),
    }
}

/// Writes stored calls, and the number of the first.
#[tactic(auto, unfolding(am_wire_values::specs::Replies::reply_data))]
fn print_stored(to: &mut Printer, from: u64, entries: &[Entry]) -> Result<(), AllocError>
    ensures { OnOk result (to.new ≡ to.old ++ tokens_of (reply_data (Entries from entries.now))) }
{
    to.begin_object()?;
    to.name("entries")?;
    to.begin_array()?;
    print_entries(to, from, entries)?;
    fields!("from" => &from).print_last(to)
}
