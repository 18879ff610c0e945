//! Pending intents, as callers ask for them.
ghost use Rattle.std.specs.Prelude.{◌≡◌, Ok, IfOk, OnErr};
ghost use Rattle.std.specs.Option.{option_copied};
ghost use Rattle.am_history.specs.Numbers.{HasNumbers};
ghost use Rattle.am_history.specs.PendingCalls.{after_use, lend, pending_cancel, pending_get, pending_give, pending_send};
ghost use Rattle.am_history.specs.Steps.{at_moment};

use crate::Live;
use am_live_callers::Caller;
use am_live_pendings::{in_new_task, refused};
use am_types::{Intent, Kind, NoMemory, PendingFlags, Reply, Steps, Text, Used};
use std::sync::ledger::Ledger;

impl Live {
    /// Gives the caller the token of its pending intent, which is made if there is none and `no_create` isn't
    /// given, and settles the moment. Refused by `Mutability` unless exactly one of `mutable` and `immutable`
    /// is given, and by `OverLimit(Pending)` if the caller has 1,024. After `NoMemory` the state is as before.
    /// (`PendingIntent.getActivity`, `getService`, `getBroadcast`.)
    pub fn pending_get<L: Ledger>(
        &mut self,
        by: Caller,
        kind: Kind,
        code: i64,
        intent: &Intent,
        flags: PendingFlags,
        steps: &mut Steps<L>,
    ) -> Result<Reply, NoMemory>
        requires numbers { HasNumbers self.old }
        ensures done { IfOk result (λ reply.
            pending_get (at_moment self.old by.moment) by.uid kind code intent.now flags ≡ (reply, self.new)) }
        ensures same { OnErr result (self.new ≡ self.old) }
    {
        let intent = intent.clone()?;
        let reply = am_live_pendings::get(
            &mut self.pending,
            by.uid,
            kind,
            code,
            intent,
            flags,
            steps,
        )?;
        self.settle(by.moment, steps);
        Ok(reply)
    }

    /// Cancels a token for its creator, and settles the moment. Refused by `NoToken` if the token isn't live,
    /// and by `NotCreator`. Takes no memory. (`PendingIntent.cancel`.)
    pub fn pending_cancel<L: Ledger>(
        &mut self,
        by: Caller,
        token: u64,
        steps: &mut Steps<L>,
    ) -> Reply
        ensures { pending_cancel (at_moment self.old by.moment) by.uid token ≡ (result, self.new) }
    {
        let reply = am_live_pendings::cancel(&mut self.pending, by.uid, token, steps);
        self.settle(by.moment, steps);
        reply
    }

    /// Gives a token of the caller's to the installed package with that name, and settles the moment. Refused
    /// by `NoPackage`, then by `NoToken` if the token isn't live, by `NotCreator`, and by `OverLimit(Holders)`
    /// if it has 64 holders. After `NoMemory` the state is as before.
    pub fn pending_give<L: Ledger>(
        &mut self,
        by: Caller,
        token: u64,
        name: &Text,
        steps: &mut Steps<L>,
    ) -> Result<Reply, NoMemory>
        ensures done { IfOk result
            (λ reply. pending_give (at_moment self.old by.moment) by.uid token name.now ≡ (reply, self.new)) }
        ensures same { OnErr result (self.new ≡ self.old) }
    {
        let reply = am_live_pendings::give(
            &self.board,
            &mut self.pending,
            by.uid,
            token,
            name,
            steps,
        )?;
        self.settle(by.moment, steps);
        Ok(reply)
    }

    /// Acts as the creator of a token that the caller holds, after the moment is settled: starts an activity
    /// in a new task, starts a service, or sends a broadcast. A mutable pending intent takes what is filled
    /// in. A one-shot token is used up by any answer. Refused by `NoToken` if the token was never made,
    /// `Canceled` if it is no longer live, `NotHolder`, `OverLimit(Extras)`, and by what refuses the
    /// creator. After `NoMemory` the state is as before. (`PendingIntent.send`.)
    pub fn pending_send<L: Ledger>(
        &mut self,
        by: Caller,
        token: u64,
        fill: Option<&Intent>,
        steps: &mut Steps<L>,
    ) -> Result<Reply, NoMemory>
        requires numbers { HasNumbers self.old }
        ensures done { IfOk result (λ reply. pending_send (at_moment self.old by.moment) by.uid token
            (option_copied fill.entry) ≡ (reply, self.new)) }
        ensures same { OnErr result (self.new ≡ self.old) }
    {
        match self.pending.use_token(token, by.uid, fill, steps) {
            Ok(used) => self.after_use(token, used, by, steps),
            Err(fault) => {
                let reply = refused(fault)?;
                self.settle(by.moment, steps);
                Ok(reply)
            }
        }
    }

    /// Carries out a token that may be used. A one-shot token is used up by any answer, but not by
    /// `NoMemory`.
    fn after_use<L: Ledger>(
        &mut self,
        token: u64,
        used: Used,
        by: Caller,
        steps: &mut Steps<L>,
    ) -> Result<Reply, NoMemory>
        requires numbers { HasNumbers self.old }
        ensures done { IfOk result
            (λ reply. after_use (at_moment self.old by.moment) token (Ok used) ≡ (reply, self.new)) }
        ensures same { OnErr result (self.new ≡ self.old) }
    {
        let one_shot = used.one_shot;
        let creator = Caller {
            uid: used.creator,
            moment: by.moment,
        };
        let reply = self.lend(creator, used.intent, used.kind, steps)?;
        if one_shot {
            am_live_pendings::use_up(&mut self.pending, token, creator.uid, steps);
        }
        Ok(reply)
    }

    /// Does what the intent asks for as its creator, after the moment is settled.
    fn lend<L: Ledger>(
        &mut self,
        by: Caller,
        intent: Intent,
        kind: Kind,
        steps: &mut Steps<L>,
    ) -> Result<Reply, NoMemory>
        requires numbers { HasNumbers self.old }
        ensures done { IfOk result (λ reply.
            lend (at_moment self.old by.moment) by.uid intent kind ≡ (reply, self.new)) }
        ensures same { OnErr result (self.new ≡ self.old) }
    {
        match kind {
            Kind::Activity => {
                let intent = in_new_task(intent);
                let reply = self.start(by, &intent, None, steps);
                drop(intent);
                reply
            }
            Kind::Service => {
                let reply = self.start_service(by, &intent, steps);
                drop(intent);
                reply
            }
            Kind::Receiver => {
                let reply = self.send(by, &intent, None, None, steps);
                drop(intent);
                reply
            }
        }
    }
}
