//! Replies as values, and their statuses.
ghost use Rattle.std.specs.Prelude.{◌≡◌, IfOk, OnOk};
ghost use Rattle.serde_json.specs.Data.{object, no_members};
ghost use Rattle.serde_json.specs.View.{view, members_view};
ghost use Rattle.am_types.specs.declared.reply.Reply.TheVariants.{Entries};
ghost use Rattle.am_wire_values.specs.Replies.{reply_data, status_of};

use crate::as_value::{object_with, put_all, put_shown};
use crate::fields::{Members, listed};
use crate::rules::{put_refusal, rule_status};
use crate::views::{entry_values, put_landed};
use am_types::{Entry, NoMemory, Reply, Shown};
use serde_json::{Value, put};
use std::alloc::{AllocError, Global};

/// The reply that is shown, as a value: its place in the history isn't in it. Its text is compact, with the fields of
/// each object in the order of their bytes.
pub fn reply_value(alloc: Global, shown: &Shown) -> Result<Value, NoMemory>
    ensures { IfOk result (λ value. view value ≡ reply_data shown.now.reply) }
{
    Ok(value_of(alloc, &shown.reply)?)
}

fn value_of(alloc: Global, reply: &Reply) -> Result<Value, AllocError>
    ensures { IfOk result (λ value. view value ≡ reply_data reply.now) }
{
    object_with!(alloc, |members| put_reply(alloc, &mut members, reply))
}

/// Puts the contents of a reply.
#[tactic(auto, unfolding(crate::specs::Replies::reply_data))]
fn put_reply(alloc: Global, members: &mut Members, reply: &Reply) -> Result<(), AllocError>
    requires { members_view members.old.entries ≡ no_members }
    ensures { OnOk result (object (members_view members.new.entries) ≡ reply_data reply.now) }
{
    match reply {
        Reply::Components(found) => put_shown(alloc, members, "components", found),
        Reply::Accounts(accounts) => put_shown(alloc, members, "accounts", accounts),
        Reply::Choose(found) => put_shown(alloc, members, "choose", found),
        Reply::Placed(landed) => put_landed(alloc, members, *landed),
        Reply::Finished(instance) => put_shown(alloc, members, "finished", instance),
        Reply::Tasks(tasks) => put_shown(alloc, members, "tasks", tasks),
        Reply::Services(services) => put_shown(alloc, members, "services", services),
        Reply::Registered(number) => put_shown(alloc, members, "number", number),
        Reply::Items(items) => put_shown(alloc, members, "items", items),
        Reply::Token(token) => put_shown(alloc, members, "token", token),
        Reply::Installed(uid) => put_shown(alloc, members, "uid", uid),
        Reply::Refused(rule) => put_refusal(alloc, members, rule),
        Reply::Started { component, starts } => {
            put_all!(alloc, members, "component" => component, "starts" => starts)
        }
        Reply::Sent {
            broadcast,
            receivers,
        } => put_all!(alloc, members, "broadcast" => broadcast, "receivers" => receivers),
        Reply::Entries { from, entries } => {
            put_stored(alloc, members, *from, entries.as_slice())
        }
        Reply::Status {
            history,
            moment,
            packages,
        } =>
            put_all!(alloc, members, "history" => history, "moment" => moment, "packages" => packages),
        Reply::Advanced { due, now } => put_all!(alloc, members, "due" => due, "now" => now),
        Reply::Plain => Ok(()),
    }
}

#[tactic(auto, unfolding(crate::specs::Replies::reply_data))]
fn put_stored(
    alloc: Global,
    members: &mut Members,
    from: u64,
    entries: &[Entry],
) -> Result<(), AllocError>
    requires { members_view members.old.entries ≡ no_members }
    ensures { OnOk result (object (members_view members.new.entries) ≡ reply_data (Entries from entries.now)) }
{
    let entries = listed(entry_values(alloc, from, entries)?);
    put(members, alloc, "entries", entries)?;
    put_shown(alloc, members, "from", &from)
}

/// The status of the reply. Takes no memory.
pub fn reply_status(reply: &Reply) -> u16
    ensures { result ≡ status_of reply.now }
{
    match reply {
        Reply::Choose(_) => 300,
        Reply::Refused(rule) => rule_status(rule),
        _ => 200,
    }
}
