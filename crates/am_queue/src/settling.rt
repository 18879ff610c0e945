//! What becomes of live broadcasts: deadlines, answers, and receivers that are gone.
ghost use Rattle.std.specs.Prelude.{◌≡◌, ◌+◌, ◌≤◌, not, ◌==◌, filter, map, Ok, Err, IfErr, OnOk, OnErr};
ghost use Rattle.std.specs.Option.{option_map};
ghost use Rattle.am_model.specs.Broadcasts as broadcasts;
ghost use Rattle.am_model.specs.Broadcasts.{queue_of, with_queue, settle, settle_both, expired_queue, normals_keeping, expired, span};
ghost use Rattle.am_model.specs.Sending.{held, answered_head, finish, forget, forget_uid, forget_registered, strike, unwanted};
ghost use Rattle.am_queue_ordered.specs.Doings.{doing_of};
ghost use Rattle.am_queue_ordered.specs.Struck.{strikes};
ghost use Rattle.am_queue_ordered.specs.Heads.{head_turned};
ghost use Rattle.am_queue.specs.Taken.{fault_of, held_as, is_taken};
ghost use Rattle.am_queue_normal.specs.Kept.{deliveries_in, is_other};

use crate::results::Taken;
use crate::{LAST_MOMENT, Queues};
use am_queue_ordered::{Doing, Struck};
use am_types::{Answer, FinishFault, Steps};
use std::sync::ledger::Ledger;

/// How long a delivery of the foreground queue may take, in milliseconds.
const FOREGROUND_SPAN: u64 = 10_000;

/// How long any other delivery may take, in milliseconds.
const BACKGROUND_SPAN: u64 = 60_000;

/// How long a delivery may take, in milliseconds.
pub(crate) fn span(foreground: bool) -> u64
    ensures { result ≡ span foreground }
{
    if foreground {
        FOREGROUND_SPAN
    } else {
        BACKGROUND_SPAN
    }
}

/// Why a uid doesn't finish what is held.
fn fault_of(uid: u32, answer: &Answer, held: Option<(u32, bool)>) -> Option<FinishFault>
    ensures { result ≡ fault_of uid answer.now (option_map held_as held) }
{
    let Some((holder, ordered)) = held else {
        return Some(FinishFault::NoDelivery);
    };
    if holder != uid {
        return Some(FinishFault::NotYours);
    }
    if (answer.set.is_some() || answer.abort) && !ordered {
        return Some(FinishFault::NotOrdered);
    }
    None
}

impl Queues {
    /// One of the two queues settles at a moment.
    pub(crate) fn settle(&mut self, foreground: bool, now: u64)
        requires { now ≤ LAST_MOMENT }
        ensures { self.new ≡ settle foreground now self.old }
    {
        let deadline = now + span(foreground);
        let (results, live, next) = (&mut self.results, &mut self.live, self.next_delivery);
        if foreground {
            self.next_delivery = results.settle(&mut self.foreground, live, next, deadline);
        } else {
            self.next_delivery = results.settle(&mut self.background, live, next, deadline);
        }
    }

    /// Both queues settle at a moment.
    fn settle_both(&mut self, now: u64)
        requires { now ≤ LAST_MOMENT }
        ensures { self.new ≡ settle_both now self.old }
    {
        self.settle(true, now);
        self.settle(false, now);
    }

    /// Records what the first receiver of the head of one of the two queues did.
    fn turn_head(&mut self, foreground: bool, doing: Doing)
        ensures { self.new
            ≡ with_queue foreground (head_turned (doing_of doing) (queue_of foreground self.old)) self.old }
    {
        if foreground {
            self.foreground.turn_head(doing);
        } else {
            self.background.turn_head(doing);
        }
    }

    /// Passes over a late receiver in one of the two queues.
    fn expire_queue<L: Ledger>(&mut self, foreground: bool, now: u64, steps: &mut Steps<L>)
        requires { now ≤ LAST_MOMENT }
        ensures queue { self.new ≡ expired_queue foreground now self.old }
        ensures cost { steps.new ≤ steps.old + 1 }
    {
        if self.is_head_due(foreground, now, steps) {
            self.turn_head(foreground, Doing::Late);
            self.settle(foreground, now);
        }
    }

    /// Handles the deadlines that are due: at most one receiver of each queue, and all normal
    /// deliveries. A step is a reading of a deadline. `now` is at most `LAST_MOMENT`. Takes no memory.
    pub fn expire<L: Ledger>(&mut self, now: u64, steps: &mut Steps<L>)
        requires { now ≤ LAST_MOMENT }
        ensures expired { self.new ≡ expired self.old now }
        ensures cost { steps.new + deliveries_in self.new.normal ≤ steps.old + 3 + deliveries_in self.old.normal }
    {
        self.expire_queue(true, now, steps);
        self.expire_queue(false, now, steps);
        self.normals.expire(now, &mut self.live, steps);
    }

    /// Who holds the delivery or the result with this number, and whether it is an ordered broadcast's.
    fn held(&self, number: u64) -> Option<(u32, bool)>
        ensures { held self.now number ≡ option_map held_as result }
    {
        if let Some(uid) = self.normals.holder(number) {
            return Some((uid, false));
        }
        if let Some(uid) = self.foreground.holder(number) {
            return Some((uid, true));
        }
        if let Some(uid) = self.background.holder(number) {
            return Some((uid, true));
        }
        match self.results.holder(number) {
            None => None,
            Some(uid) => Some((uid, false)),
        }
    }

    /// Finishes the normal delivery with this number, if there is one.
    fn finish_normal(&mut self, number: u64)
        ensures { self.new ≡ record self.old { normal = normals_keeping (is_other number) self.old.normal } }
    {
        if self.normals.holder(number).is_some() {
            self.normals.finish(number, &mut self.live);
        }
    }

    /// Answers the ordered delivery with this number, if there is one.
    fn answer_head(&mut self, number: u64, answer: Answer)
        ensures { self.new ≡ record self.old {
          foreground = answered_head number (broadcasts.Answered answer) self.old.foreground;
          background = answered_head number (broadcasts.Answered answer) self.old.background;
        } }
    {
        if self.foreground.is_head(number) {
            self.turn_head(true, Doing::Answered(answer));
        } else if self.background.is_head(number) {
            self.turn_head(false, Doing::Answered(answer));
        } else {
            drop(answer);
        }
    }

    /// Removes results.
    fn take_results(&mut self, taken: &Taken)
        ensures { self.new
            ≡ record self.old { results = filter (λ kept. not (is_taken taken.now kept)) self.old.results } }
    {
        self.results.take_out(taken, &mut self.live);
    }

    /// Removes the result with this number, if there is one.
    fn finish_result(&mut self, number: u64)
        ensures { self.new
            ≡ record self.old { results = filter (λ kept. not (kept.delivery == number)) self.old.results } }
    {
        if self.results.holder(number).is_some() {
            self.take_results(&Taken::Delivery(number));
        }
    }

    /// Finishes a delivery, or takes a result: `NoDelivery` if there is none with this number,
    /// `NotYours` if it is another uid's, and `NotOrdered` if the answer sets an outcome or
    /// aborts, and it isn't an ordered delivery. After a refusal nothing has changed. `now` is at most
    /// `LAST_MOMENT`. Takes no memory.
    pub fn finish(
        &mut self,
        delivery: u64,
        uid: u32,
        answer: Answer,
        now: u64,
    ) -> Result<(), FinishFault>
        requires { now ≤ LAST_MOMENT }
        ensures finished { OnOk result (finish self.old delivery uid answer now ≡ Ok self.new) }
        ensures refused { IfErr result (λ fault. finish self.old delivery uid answer now ≡ Err fault) }
        ensures same { OnErr result (self.new ≡ self.old) }
    {
        match fault_of(uid, &answer, self.held(delivery)) {
            Some(fault) => {
                drop(answer);
                Err(fault)
            }
            None => {
                self.finish_normal(delivery);
                self.answer_head(delivery, answer);
                self.finish_result(delivery);
                self.settle_both(now);
                Ok(())
            }
        }
    }

    /// Strikes receivers everywhere.
    fn strike(&mut self, struck: &Struck)
        ensures { self.new ≡ record self.old {
          normal = normals_keeping (λ delivery. not (strikes struck.now delivery.spot)) self.old.normal;
          foreground = map (strike (strikes struck.now)) self.old.foreground;
          background = map (strike (strikes struck.now)) self.old.background;
        } }
    {
        self.normals.strike(struck, &mut self.live);
        self.foreground.strike(struck);
        self.background.strike(struck);
    }

    /// Strikes receivers everywhere, and settles both queues.
    fn forget(&mut self, struck: &Struck, now: u64)
        requires { now ≤ LAST_MOMENT }
        ensures { self.new ≡ forget self.old (strikes struck.now) now }
    {
        self.strike(struck);
        self.settle_both(now);
    }

    /// A uid no longer wants results.
    fn unwant(&mut self, uid: u32)
        ensures { self.new ≡ record self.old {
          foreground = map (unwanted uid) self.old.foreground;
          background = map (unwanted uid) self.old.background;
        } }
    {
        self.foreground.unwant(uid);
        self.background.unwant(uid);
    }

    /// Strikes the receivers of a uid, and removes its results; it no longer wants any. `now` is at most
    /// `LAST_MOMENT`. Takes no memory.
    pub fn forget_uid(&mut self, uid: u32, now: u64)
        requires { now ≤ LAST_MOMENT }
        ensures { self.new ≡ forget_uid self.old uid now }
    {
        self.unwant(uid);
        self.take_results(&Taken::Sender(uid));
        self.forget(&Struck::Uid(uid), now);
    }

    /// Strikes a registered receiver. `now` is at most `LAST_MOMENT`. Takes no memory.
    pub fn forget_registered(&mut self, number: u64, now: u64)
        requires { now ≤ LAST_MOMENT }
        ensures { self.new ≡ forget_registered self.old number now }
    {
        self.forget(&Struck::Registered(number), now);
    }
}
