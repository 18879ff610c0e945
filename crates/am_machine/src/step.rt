//! One call of the manager.
ghost use Rattle.std.specs.Prelude.{◌≡◌, ◌≤◌, ◌<◌, ◌+◌, ◌||◌, Some, false, true, if◌then◌else◌, length, IfOk, OnErr, IsOk, IsTrue};
ghost use Rattle.am_types.specs.declared.reply.Reply.TheVariants.{Refused};
ghost use Rattle.am_types.specs.declared.rule.Rule.TheVariants.{KeeperFault};
ghost use Rattle.am_history.specs.Desks.{opening_of, ShowsAt};
ghost use Rattle.am_history.specs.History.{IsLegal, replay, may_change, has_room, entry_of};
ghost use Rattle.am_history.specs.State.{uid_of, has_uid};
ghost use Rattle.am_history.specs.Numbers.{HasNumbers};
ghost use Rattle.am_history.specs.Steps.{Call, after_due, asks_keeper, is_calm, has_formed_row, keeps_row, step};
ghost use Rattle.am_laws_state.specs.Sound.{IsSoundState};
ghost use Rattle.am_machine.specs.Keeping.{AsksAtMostOnce, AsksOnce, CountsFault, CountsNone, GoesOn, IsFault, IsUnasked, Leaves, LeavesUnmade, TellsSame, told_after, with_kept};

use crate::acts::act;
use crate::archive::Archive;
use crate::keeping::{Answered, keep, keeps_row};
use crate::manager::Manager;
use crate::reads::{is_changing, read};
use am_keeper::Keeper;
use am_live::Live;
use am_types::{Entry, NoMemory, Reply, Request, Rule, Shown, Steps, Text};
use std::marker::Brand;
use std::sync::ledger::{Blank, Ledger};

/// The most entries that a history may have.
const MOST: usize = 1_048_576;

/// The most that the bodies of the stored requests may weigh together, in bytes.
const MOST_WEIGHT: u64 = 536_870_912;

impl<K: Keeper> Manager<K> {
    /// One call: `desk` is the number of the desk that it is made on, `key` the caller's key, `now` the moment
    /// in milliseconds, and `weight` the length of the request's body in bytes. The request has the form
    /// that a body is read as. A call that may change the state is stored, and so is a read at a moment at
    /// which some deadline is due. The keeper is asked for the row of an installation, a removal, a grant
    /// or a link that nothing else refuses, and the row is put if the call is accepted. If the keeper
    /// fails, the call is stored, answered by `KeeperFault`, and changes nothing but the moment. A call that
    /// something else refuses leaves the whole keeper as it was, also its count of faults. A call that
    /// keeps a row and is accepted, or refused by the keeper's fault, makes exactly one put, and any other
    /// call none. After `NoMemory` the state and the history are as before, and so are the rows of an honest
    /// keeper and its count of faults, and it was asked at most once.
    pub fn step(
        &mut self,
        desk: u32,
        key: &Text,
        now: u64,
        weight: u32,
        request: Request,
    ) -> Result<Shown, NoMemory>
        requires formed { IsTrue (has_formed_row request) }
        ensures shown { IfOk result
            (λ shown. ShowsAt (opening_of self.old.origin) self.old.history self.new.history
            (record { desk = desk; key = key.now; now = now; weight = weight; request = request })
            shown) }
        ensures origin { self.new.origin ≡ self.old.origin }
        ensures legal { IsLegal (opening_of self.new.origin) self.new.history }
        ensures refused { OnErr result (self.new.history ≡ self.old.history) }
        ensures keeper { GoesOn K.Keeper self.old.keeper self.new.keeper }
        ensures quiet { keeps_row request ≡ false → self.new.keeper ≡ self.old.keeper }
        ensures put { IfOk result (λ shown. K.is_honest self.new.keeper → K.rows self.new.keeper
            ≡ told_after (replay (opening_of self.old.origin) self.old.history) request shown.reply
            (K.rows self.old.keeper)) }
        ensures refused_rows { OnErr result (TellsSame K.Keeper self.old.keeper self.new.keeper) }
        ensures unasked { IfOk result (λ shown. IsUnasked shown.reply self.old.keeper self.new.keeper) }
        ensures counts { IfOk result (λ shown. CountsNone K.Keeper shown.reply self.old.keeper self.new.keeper) }
        ensures uncounted { OnErr result (K.faults self.new.keeper ≡ K.faults self.old.keeper) }
        ensures asks { IfOk result (λ shown. AsksOnce K.Keeper request shown.reply self.old.keeper self.new.keeper) }
        ensures at_most { OnErr result (AsksAtMostOnce K.Keeper self.old.keeper self.new.keeper) }
        ensures fault { IfOk result (λ shown. shown.reply ≡ Refused KeeperFault → IsFault K.Keeper self.old self.new) }
        ensures spare { IfOk result (λ shown. self.old.spare ≤ self.new.spare + (if shown.stored then 1 else 0)) }
        ensures room { OnErr result (self.old.spare ≤ self.new.spare) }
        ensures calm { IsTrue (is_calm request) → 1 ≤ self.old.spare → IsOk result }
    {
        match self.live.uid_of(key) {
            None => {
                drop(request);
                Ok(self.unstored(Reply::Refused(Rule::UnknownKey)))
            }
            Some(uid) => {
                let call = Entry {
                    desk,
                    uid,
                    now,
                    weight,
                    request,
                    kept: true,
                };
                let shown = self.counted::<Brand>(&call, Blank::new(1));
                drop(call);
                shown
            }
        }
    }

    // A call of a known caller, by a counter that begins with the blank.
    fn counted<L: Ledger>(&mut self, call: &Entry, blank: Blank) -> Result<Shown, NoMemory>
        requires name { blank.name ≡ L.name }
        requires parts { blank.parts ≡ L.parts }
        requires some { 0 < blank.parts }
        requires caller { IsTrue (has_uid (replay (opening_of self.old.origin) self.old.history) call.now.uid) }
        requires kept { call.now.kept ≡ true }
        ensures shown { IfOk result (λ shown. (asked : Call) → call.entry.now ≡ entry_of asked call.entry.now.uid true
            → uid_of (replay (opening_of self.old.origin) self.old.history) asked.key ≡ Some call.entry.now.uid
            → ShowsAt (opening_of self.old.origin) self.old.history self.new.history asked shown) }
        ensures origin { self.new.origin ≡ self.old.origin }
        ensures legal { IsLegal (opening_of self.new.origin) self.new.history }
        ensures refused { OnErr result (self.new.history ≡ self.old.history) }
        ensures keeper { GoesOn K.Keeper self.old.keeper self.new.keeper }
        ensures quiet { keeps_row call.entry.now.request ≡ false → self.new.keeper ≡ self.old.keeper }
        ensures leaves { IfOk result (λ shown. Leaves K.Keeper
            (record {
              state = replay (opening_of self.old.origin) self.old.history;
              request = call.entry.now.request;
              reply = shown.reply;
            }) self.old.keeper self.new.keeper) }
        ensures unmade { OnErr result (LeavesUnmade K.Keeper self.old.keeper self.new.keeper) }
        ensures fault { IfOk result (λ shown. shown.reply ≡ Refused KeeperFault → IsFault K.Keeper self.old self.new) }
        ensures spare { IfOk result (λ shown. self.old.spare ≤ self.new.spare + (if shown.stored then 1 else 0)) }
        ensures room { OnErr result (self.old.spare ≤ self.new.spare) }
        ensures calm { IsTrue (is_calm call.entry.now.request) → 1 ≤ self.old.spare → IsOk result }
    {
        let mut steps = Steps::<L>::new(blank);
        if !self.may_change(call, &mut steps) {
            let reply = read(&self.live, &self.history, call, &mut steps)?;
            return Ok(self.unstored(reply));
        }
        if !self.has_room(call.weight) {
            return Ok(self.unstored(Reply::Refused(Rule::HistoryFull)));
        }
        let mut stored = self.history.prepare(call)?;
        // Nothing between the last change and the push can fail.
        let answered = answer(
            &mut self.live,
            &mut self.keeper,
            &self.history,
            call,
            &mut steps,
        )?;
        let at = self.history.len() as u64;
        self.weight += u64::from(call.weight);
        stored.set_kept(answered.kept);
        self.history.push_reserved(stored);
        Ok(Shown {
            at,
            stored: true,
            reply: answered.reply,
        })
    }

    // Whether a call may change the state, or some deadline is due at its moment.
    fn may_change<L: Ledger>(&self, call: &Entry, steps: &mut Steps<L>) -> bool
        ensures { result ≡ may_change (replay (opening_of self.now.origin) self.now.history)
            call.entry.now.now call.entry.now.request }
    {
        is_changing(&call.request) || self.live.is_due(call.now, steps)
    }

    // What is shown of a call that isn't stored.
    fn unstored(&self, reply: Reply) -> Shown
        ensures { result ≡ record { at = length self.now.history; stored = false; reply = reply } }
    {
        Shown {
            at: self.history.len() as u64,
            stored: false,
            reply,
        }
    }

    // Whether the history has room for one more entry of that weight.
    fn has_room(&self, weight: u32) -> bool
        ensures { result ≡ has_room self.now.history weight }
    {
        self.history.len() < MOST && self.weight + u64::from(weight) <= MOST_WEIGHT
    }
}

// The answer to a stored call, and what it does to the state and the keeper.
fn answer<K: Keeper, L: Ledger>(
    live: &mut Live,
    keeper: &mut K,
    history: &Archive,
    call: &Entry,
    steps: &mut Steps<L>,
) -> Result<Answered, NoMemory>
    requires numbers { HasNumbers live.old }
    requires sound { IsSoundState live.old }
    ensures done { IfOk result (λ answered.
        step live.old history.now.entries (with_kept call.entry.now answered.kept) ≡ (answered.reply, live.new)) }
    ensures asked { IfOk result (λ answered. IsTrue (answered.kept
        || asks_keeper (after_due live.old call.entry.now.now) history.now.entries call.entry.now.uid
        call.entry.now.request)) }
    ensures same { OnErr result (live.new ≡ live.old) }
    ensures keeper { GoesOn K.Keeper keeper.old keeper.new }
    ensures quiet { keeps_row call.entry.now.request ≡ false → keeper.new ≡ keeper.old }
    ensures leaves { IfOk result (λ answered. Leaves K.Keeper
        (record { state = live.old; request = call.entry.now.request; reply = answered.reply })
        keeper.old keeper.new) }
    ensures fault { IfOk result (λ answered. CountsFault K.Keeper answered.kept keeper.old keeper.new) }
    ensures unmade { OnErr result (LeavesUnmade K.Keeper keeper.old keeper.new) }
    ensures calm { IsTrue (is_calm call.entry.now.request) → IsOk result }
{
    if keeps_row(&call.request) {
        return keep(live, keeper, call, steps);
    }
    let reply = act(live, history, call, steps)?;
    Ok(Answered { reply, kept: true })
}
