//! What waits for a caller at a moment.
ghost use Rattle.std.specs.Prelude.{◌≡◌, IfOk, OnOk, OnErr};
ghost use Rattle.am_types.specs.declared.reply.Reply.TheVariants.{Items};
ghost use Rattle.am_model.specs.Broadcasts.{expired};
ghost use Rattle.am_model.specs.Sending.{inbox};

use am_live_callers::Caller;
use am_queue::Queues;
use am_types::{NoMemory, Reply, Steps};
use std::mem;
use std::sync::ledger::Ledger;

/// What waits for the caller after the deadlines that are due at the moment of the call are handled. A step is a
/// reading of a deadline. After `NoMemory` all is as before.
pub fn inbox_at<L: Ledger>(
    queues: &mut Queues,
    by: Caller,
    steps: &mut Steps<L>,
) -> Result<Reply, NoMemory>
    ensures left { OnOk result (queues.new ≡ expired queues.old by.moment) }
    ensures items { IfOk result (λ reply. reply ≡ Items (inbox queues.new by.uid)) }
    ensures same { OnErr result (queues.new ≡ queues.old) }
{
    let mut copy = queues.copy()?;
    copy.expire(by.moment, steps);
    match copy.inbox(by.uid) {
        Ok(items) => {
            drop(mem::replace(queues, copy));
            Ok(Reply::Items(items))
        }
        Err(error) => {
            drop(copy);
            Err(error)
        }
    }
}
