//! Broadcasts, registered receivers and deliveries, as callers ask for them.
ghost use Rattle.std.specs.Prelude.{◌≡◌, None, IfOk, IsOk, OnOk, OnErr};
ghost use Rattle.std.specs.Option.{option_copied};
ghost use Rattle.am_types.specs.declared.reply.Reply.TheVariants.{Items};
ghost use Rattle.am_model.specs.Sending.{inbox};
ghost use Rattle.am_history.specs.BroadcastCalls.{finish, register, send, unregister};
ghost use Rattle.am_history.specs.Numbers.{HasNumbers};
ghost use Rattle.am_history.specs.Steps.{at_moment};

use crate::Live;
use am_live_broadcasts::Message;
use am_live_callers::Caller;
use am_types::{Answer, Filter, Intent, NoMemory, Ordered, Reply, Steps, Text};
use std::sync::ledger::Ledger;

impl Live {
    /// Broadcasts an intent at a moment, after handling the deadlines that are due then: to all receivers at
    /// once, or to one after the other if `ordered` says how that starts. `permission` is what a receiver
    /// must hold. The answer gives the broadcast's number and who it was offered to. Refusals in this order:
    /// `ProtectedAction` if the action is protected and the caller is neither the system nor the root;
    /// `OverLimit` of `Broadcasts` if the caller has 64 live ones, and of `Receivers` if more than 1,024 are
    /// admitted. After `NoMemory` the state is as before.
    pub fn send<L: Ledger>(
        &mut self,
        by: Caller,
        intent: &Intent,
        permission: Option<&Text>,
        ordered: Option<&Ordered>,
        steps: &mut Steps<L>,
    ) -> Result<Reply, NoMemory>
        requires numbers { HasNumbers self.old }
        ensures done { IfOk result (λ reply. send (at_moment self.old by.moment) by.uid intent.now
            (option_copied permission.entry) (option_copied ordered.entry) ≡ (reply, self.new)) }
        ensures same { OnErr result (self.new ≡ self.old) }
    {
        let message = Message {
            intent,
            permission,
            ordered,
        };
        let reply = am_live_broadcasts::send(
            self.alloc,
            &self.board,
            &mut self.queues,
            by,
            &message,
            steps,
        )?;
        self.moment = by.moment;
        Ok(reply)
    }

    /// Registers a receiver of the caller at a moment, after handling the deadlines that are due then, and
    /// answers its number. `permission` is what a sender must hold. Refused by `OverLimit` of `Registered`
    /// if the caller has 64. After `NoMemory` the state is as before.
    pub fn register<L: Ledger>(
        &mut self,
        by: Caller,
        filter: &Filter,
        permission: Option<&Text>,
        steps: &mut Steps<L>,
    ) -> Result<Reply, NoMemory>
        requires numbers { HasNumbers self.old }
        ensures done { IfOk result (λ reply. register (at_moment self.old by.moment) by.uid filter.now
            (option_copied permission.entry) ≡ (reply, self.new)) }
        ensures same { OnErr result (self.new ≡ self.old) }
    {
        let next = &mut self.next_registration;
        let reply = am_live_broadcasts::register(
            &mut self.board,
            next,
            by.uid,
            filter,
            permission,
        )?;
        self.settle(by.moment, steps);
        Ok(reply)
    }

    /// Takes a registered receiver of the caller back at a moment, after handling the deadlines that are
    /// due then. No broadcast goes to it any longer. Refusals: `NoReceiver` if none with that number is
    /// registered; `NotYours` if it is another uid's. Takes no memory.
    pub fn unregister<L: Ledger>(&mut self, by: Caller, number: u64, steps: &mut Steps<L>) -> Reply
        ensures { unregister (at_moment self.old by.moment) by.uid number ≡ (result, self.new) }
    {
        let reply = am_live_broadcasts::unregister(
            &mut self.board,
            &mut self.queues,
            by,
            number,
            steps,
        );
        self.moment = by.moment;
        reply
    }

    /// Finishes a delivery to the caller, or takes the result of the caller's ordered broadcast, at a
    /// moment, after handling the deadlines that are due then. Refusals: `NoDelivery` if there is none with
    /// that number; `NotYours` if it is another uid's; `NotOrdered` if the answer sets an outcome or aborts,
    /// and it isn't an ordered delivery. Takes memory only if the answer sets an outcome. After `NoMemory`
    /// the state is as before.
    pub fn finish<L: Ledger>(
        &mut self,
        by: Caller,
        delivery: u64,
        answer: &Answer,
        steps: &mut Steps<L>,
    ) -> Result<Reply, NoMemory>
        ensures done { IfOk result (λ reply. finish (at_moment self.old by.moment) by.uid delivery answer.now
            ≡ (reply, self.new)) }
        ensures same { OnErr result (self.new ≡ self.old) }
        ensures calm { answer.now.set ≡ None → IsOk result }
    {
        let reply = am_live_broadcasts::finish(&mut self.queues, by, delivery, answer, steps)?;
        self.moment = by.moment;
        Ok(reply)
    }

    /// What waits for the caller, at most 64 items by rising number.
    pub fn inbox(&self, caller: u32) -> Result<Reply, NoMemory>
        ensures { IfOk result (λ reply. reply ≡ Items (inbox self.now.broadcasts caller)) }
    {
        let items = self.queues.inbox(caller)?;
        Ok(Reply::Items(items))
    }

    /// What waits for the caller after the deadlines that are due at a moment are handled. The moment
    /// becomes the last one. After `NoMemory` the state is as before.
    pub fn inbox_at<L: Ledger>(
        &mut self,
        by: Caller,
        steps: &mut Steps<L>,
    ) -> Result<Reply, NoMemory>
        ensures state { OnOk result (self.new ≡ at_moment self.old by.moment) }
        ensures items { IfOk result (λ reply. reply ≡ Items (inbox self.new.broadcasts by.uid)) }
        ensures same { OnErr result (self.new ≡ self.old) }
    {
        let reply = am_live_broadcasts::inbox_at(&mut self.queues, by, steps)?;
        self.moment = by.moment;
        Ok(reply)
    }
}
