//! The calls on pending intents.
ghost use Rattle.std.specs.Prelude.{◌≡◌, ◌≤◌, ◌<◌, ◌+◌, IfOk, IsOk, None, Some, Ok, Err, OnOk, OnErr};
ghost use Rattle.std.specs.Option.{option_copied};
ghost use Rattle.am_types.specs.Bounds.{greatest_number};
ghost use Rattle.am_model.specs.Pendings.{cancel, count_of, forget_uid, get, give, is_clear, no_pendings, no_record, use_token, without_token};
ghost use Rattle.am_pending.specs.Answers.{IsAnswer, IsChange, IsUse};
ghost use Rattle.am_pending.specs.Records.{kept_at, lent_by, made_for, renewed_for, token_in, with_fresh, without};

use crate::hashing::Hashing;
use crate::index;
use crate::index::Tokens;
use crate::key::Key;
use crate::record::Record;
use crate::records::Records;
use am_filter::fill_in;
use am_types::{FillFault, Intent, Kind, PendingFault, PendingFlags, Steps, Used, drop_parts};
use indexmap::IndexMap;
use std::alloc::{AllocError, Global};
use std::hash::RandomState;
use std::marker::Model;
use std::sync::ledger::Ledger;

/// The most live records of a creator.
const MOST_RECORDS: u32 = 1024;

/// The live pending intents of all creators. Contracts see the records in the order of their tokens, and the next
/// token.
///
/// In a call that counts steps, a step is one look-up of a record: by its key, or by its token to read, change or
/// remove it. A record that is canceled is read and then removed in one step. Keeping the tables of tokens and of
/// numbers in line with the records takes none.
pub struct Pending {
    alloc: Global,
    records: Records,
    tokens: Tokens,
    /// How many records each creator has.
    counts: IndexMap<u32, u32>,
    next: u64,
}

impl Drop for Pending {
    fn drop(self) {
        drop_parts!(self, Pending: alloc records tokens counts next);
    }
}

impl Model for Pending {
    ghost use Rattle.am_model.specs.Pendings.{Pendings};
    ghost use Rattle.am_pending.specs.Records.{IsIndexed, count_at, token_at};

    ghost Value = { Pendings };

    ghost view = { λ p. record { records = p.records; next = p.next } };

    ghost invariant = { λ p. IsIndexed p.records (token_at p.tokens.entries) (count_at p.counts.entries) p.next };
}

/// Exactly one of mutable and immutable is given.
fn is_clear(flags: PendingFlags) -> bool
    ensures { result ≡ is_clear flags }
{
    flags.mutable != flags.immutable
}

/// The record's intent, with the fill-in applied if it is mutable.
fn lent(alloc: Global, kept: &Record, fill: Option<&Intent>) -> Result<Intent, FillFault>
    ensures ok { IfOk result (λ intent. lent_by kept.now (option_copied fill.entry) ≡ Ok intent) }
    ensures full { (result ≡ Err FillFault.ExtrasFull)
        → (lent_by kept.now (option_copied fill.entry) ≡ Err FillFault.ExtrasFull) }
    ensures ran_out { result ≡ Err FillFault.NoMemory → IsOk (lent_by kept.now (option_copied fill.entry)) }
{
    let key = kept.key();
    match fill {
        Some(fill) if key.mutable => fill_in(alloc, &key.intent, fill),
        _ => match key.intent.clone() {
            Ok(intent) => Ok(intent),
            Err(_) => Err(FillFault::NoMemory),
        },
    }
}

impl Pending {
    /// No records; the next token is 1. Takes no memory.
    pub fn new(alloc: Global) -> Pending
        ensures { result ≡ no_pendings }
    {
        Pending::keyed(alloc, None)
    }

    /// The same, except that records are looked up by hashes under these keys, if some were drawn. Draw them if callers
    /// aren't trusted: without them a caller can make keys with the same hash, and a look-up compares with each of
    /// these.
    pub fn keyed(alloc: Global, drawn: Option<RandomState>) -> Pending
        ensures { result ≡ no_pendings }
    {
        Pending {
            alloc,
            records: Records::new(alloc),
            tokens: IndexMap::with_hasher(alloc, Hashing::under(drawn)),
            counts: IndexMap::new(alloc),
            next: 1,
        }
    }

    /// The token of the creator's record for the intent, kind, code and flags, or none if `no_create` is given and
    /// there is no such record. Extras and flags of the intent don't tell records apart; `cancel_current` cancels an
    /// existing record, and `update_current` gives it the new extras. Refusals: `Mutability` unless exactly one of
    /// `mutable` and `immutable` is given; `Full` if a record would be made and the creator has 1,024; `NoMemory` only
    /// if nothing else is refused. (`PendingIntent`; AOSP, `PendingIntentController.getIntentSender`.)
    pub fn get<L: Ledger>(
        &mut self,
        creator: u32,
        kind: Kind,
        code: i64,
        intent: Intent,
        flags: PendingFlags,
        steps: &mut Steps<L>,
    ) -> Result<Option<u64>, PendingFault>
        requires { self.old.next ≤ greatest_number }
        ensures answer { IsAnswer result self.old self.new (get self.old
            (record { creator = creator; kind = kind; code = code; intent = intent; flags = flags })) }
        ensures ran_out { result ≡ Err PendingFault.NoMemory
            → IsOk (get self.old
            (record { creator = creator; kind = kind; code = code; intent = intent; flags = flags })) }
        ensures next { self.new.next ≤ self.old.next + 1 }
        ensures steps { steps.new ≤ steps.old + 2 }
    {
        if !is_clear(flags) {
            drop(intent);
            return Err(PendingFault::Mutability);
        }
        let key = Key::asked(creator, kind, code, intent, flags);
        match self.find(&key, steps) {
            None => self.make(key, flags.no_create),
            Some(token) if flags.cancel_current => self.renew(token, key, flags.no_create, steps),
            Some(token) => {
                self.keep(token, key, flags.update_current, steps);
                Ok(Some(token))
            }
        }
    }

    /// The token of the record that has the key.
    fn find<L: Ledger>(&self, key: &Key, steps: &mut Steps<L>) -> Option<u64>
        ensures found { result ≡ token_in key.now self.now.records }
        ensures steps { steps.new ≡ steps.old + 1 }
    {
        steps.tick();
        self.tokens.get(key).copied()
    }

    /// Keeps the record, with the extras of the key's intent if it is to be updated. Takes no memory.
    fn keep<L: Ledger>(&mut self, token: u64, key: Key, update: bool, steps: &mut Steps<L>)
        ensures kept { self.new ≡ kept_at self.old token key update }
        ensures steps { steps.new ≤ steps.old + 1 }
    {
        if update {
            self.records.set_extras(token, key.into_extras(), steps);
        } else {
            drop(key);
        }
    }

    /// Makes a record for a key that has none, unless none is to be made.
    fn make(&mut self, key: Key, no_create: bool) -> Result<Option<u64>, PendingFault>
        requires next { self.old.next ≤ greatest_number }
        requires absent { token_in key self.old.records ≡ None }
        ensures answer { IsAnswer result self.old self.new (made_for self.old no_create key) }
        ensures ran_out { result ≡ Err PendingFault.NoMemory → IsOk (made_for self.old no_create key) }
        ensures next { self.new.next ≤ self.old.next + 1 }
    {
        if no_create {
            drop(key);
            return Ok(None);
        }
        if self.count(key.creator) >= MOST_RECORDS {
            drop(key);
            return Err(PendingFault::Full);
        }
        match self.add(key) {
            Ok(token) => Ok(Some(token)),
            Err(_) => Err(PendingFault::NoMemory),
        }
    }

    /// Cancels the record that has the key, and makes another in its place unless none is to be made.
    fn renew<L: Ledger>(
        &mut self,
        old: u64,
        key: Key,
        no_create: bool,
        steps: &mut Steps<L>,
    ) -> Result<Option<u64>, PendingFault>
        requires next { self.old.next ≤ greatest_number }
        requires found { token_in key self.old.records ≡ Some old }
        ensures answer { IsAnswer result self.old self.new (renewed_for self.old old no_create key) }
        ensures ran_out { result ≡ Err PendingFault.NoMemory → IsOk (renewed_for self.old old no_create key) }
        ensures next { self.new.next ≤ self.old.next + 1 }
        ensures steps { steps.new ≤ steps.old + 1 }
    {
        if no_create {
            drop(key);
            self.remove(old, steps);
            return Ok(None);
        }
        if self.count_besides(old, &key) >= MOST_RECORDS {
            drop(key);
            return Err(PendingFault::Full);
        }
        match self.replace(old, key, steps) {
            Ok(token) => Ok(Some(token)),
            Err(_) => Err(PendingFault::NoMemory),
        }
    }

    /// How many records the creator has.
    fn count(&self, creator: u32) -> u32
        ensures { result ≡ count_of self.now.records creator }
    {
        index::count_of(&self.counts, creator)
    }

    /// How many records the key's creator has apart from the one that has the key.
    fn count_besides(&self, old: u64, key: &Key) -> u32
        requires { token_in key.now self.now.records ≡ Some old }
        ensures { result ≡ count_of (without_token self.now.records old) key.now.creator }
    {
        index::count_of(&self.counts, key.creator).saturating_sub(1)
    }

    /// Adds a record without holders under the next token, which it returns. If memory runs out, nothing changes.
    fn add(&mut self, key: Key) -> Result<u64, AllocError>
        requires next { self.old.next ≤ greatest_number }
        requires absent { token_in key self.old.records ≡ None }
        requires few { count_of self.old.records key.creator < 1024 }
        ensures token { IfOk result (λ token. token ≡ self.old.next) }
        ensures ok { OnOk result (self.new ≡ with_fresh self.old self.old.records key) }
        ensures err { OnErr result (self.new ≡ self.old) }
    {
        match key.clone() {
            Ok(other) => self.put(key, other),
            Err(error) => {
                drop(key);
                Err(error)
            }
        }
    }

    /// Adds a record without holders under the next token, which it returns, with a copy of its key for the table of
    /// tokens. If memory runs out, nothing changes.
    fn put(&mut self, key: Key, other: Key) -> Result<u64, AllocError>
        requires next { self.old.next ≤ greatest_number }
        requires absent { token_in key self.old.records ≡ None }
        requires few { count_of self.old.records key.creator < 1024 }
        requires same { other ≡ key }
        ensures token { IfOk result (λ token. token ≡ self.old.next) }
        ensures ok { OnOk result (self.new ≡ with_fresh self.old self.old.records key) }
        ensures err { OnErr result (self.new ≡ self.old) }
    {
        let (creator, token) = (key.creator, self.next);
        if index::make_room(&mut self.tokens, &mut self.counts).is_err() {
            drop(key);
            drop(other);
            return Err(AllocError);
        }
        match self.records.push(token, Record::new(self.alloc, key)) {
            Ok(()) => {
                index::put_token(&mut self.tokens, other, token);
                index::raise(&mut self.counts, creator);
                self.next += 1;
                Ok(token)
            }
            Err(error) => {
                drop(other);
                Err(error)
            }
        }
    }

    /// Adds a record without holders under the next token, which it returns, in place of the record with its key. If
    /// memory runs out, nothing changes.
    fn replace<L: Ledger>(
        &mut self,
        old: u64,
        key: Key,
        steps: &mut Steps<L>,
    ) -> Result<u64, AllocError>
        requires next { self.old.next ≤ greatest_number }
        requires found { token_in key self.old.records ≡ Some old }
        ensures token { IfOk result (λ token. token ≡ self.old.next) }
        ensures ok { OnOk result (self.new ≡ with_fresh self.old (without_token self.old.records old) key) }
        ensures err { OnErr result (self.new ≡ self.old) }
        ensures steps { steps.new ≤ steps.old + 1 }
    {
        let token = self.next;
        self.records.push(token, Record::new(self.alloc, key))?;
        if let Some(gone) = self.records.take(old, steps) {
            index::set_token(&mut self.tokens, gone.key(), token);
            drop(gone);
        }
        self.next += 1;
        Ok(token)
    }

    /// Removes the token's record, if there is one. Takes no memory.
    fn remove<L: Ledger>(&mut self, token: u64, steps: &mut Steps<L>)
        ensures others { self.new ≡ without self.old token }
        ensures steps { steps.new ≡ steps.old + 1 }
    {
        if let Some(gone) = self.records.take(token, steps) {
            index::unlist(&mut self.tokens, &mut self.counts, gone.key());
            drop(gone);
        }
    }

    /// Cancels a token, by its creator. Refusals: `NoToken` if the token isn't live; `NotCreator`. Takes no memory.
    /// (`PendingIntent.cancel`.)
    pub fn cancel<L: Ledger>(
        &mut self,
        token: u64,
        uid: u32,
        steps: &mut Steps<L>,
    ) -> Result<(), PendingFault>
        ensures answer { IsChange result self.old self.new (cancel self.old token uid) }
        ensures next { self.new.next ≡ self.old.next }
        ensures memory { (result ≡ Err PendingFault.NoMemory) → ⊥ }
        ensures steps { steps.new ≤ steps.old + 1 }
    {
        match self.records.take_own(token, uid, steps) {
            Ok(gone) => {
                index::unlist(&mut self.tokens, &mut self.counts, gone.key());
                drop(gone);
                Ok(())
            }
            Err(fault) => Err(fault),
        }
    }

    /// Gives a token to another uid, by its creator. Refusals: `NoToken` if the token isn't live; `NotCreator`;
    /// `HoldersFull` at 64 holders, unless that uid is the creator or a holder already, which changes nothing. (Own: an
    /// intent's sender is handed from process to process on a device.)
    pub fn give<L: Ledger>(
        &mut self,
        token: u64,
        uid: u32,
        to: u32,
        steps: &mut Steps<L>,
    ) -> Result<(), PendingFault>
        ensures answer { IsChange result self.old self.new (give self.old token uid to) }
        ensures ran_out { result ≡ Err PendingFault.NoMemory → IsOk (give self.old token uid to) }
        ensures next { self.new.next ≡ self.old.next }
        ensures steps { steps.new ≤ steps.old + 1 }
    {
        steps.tick();
        self.records.give(token, uid, to)
    }

    /// What a uid gets by using a token: a mutable record takes the uid's fill-in. Nothing changes, even if the token
    /// is for one use, which the answer tells. Refusals in this order: `NoToken` if the token was never made;
    /// `Canceled` if it is no longer live; `NotHolder` if the uid neither made it nor was given it; `ExtrasFull`.
    /// (`PendingIntent.send`; AOSP, `PendingIntentRecord.sendInner`.)
    pub fn use_token<L: Ledger>(
        &self,
        token: u64,
        uid: u32,
        fill: Option<&Intent>,
        steps: &mut Steps<L>,
    ) -> Result<Used, PendingFault>
        ensures answer { IsUse result (use_token self.now token uid (option_copied fill.entry)) }
        ensures ran_out { result ≡ Err PendingFault.NoMemory
            → IsOk (use_token self.now token uid (option_copied fill.entry)) }
        ensures steps { steps.new ≤ steps.old + 1 }
    {
        let Some(kept) = self.records.read(token, steps) else {
            return Err(self.no_record(token));
        };
        if !kept.is_holder(uid) {
            return Err(PendingFault::NotHolder);
        }
        let intent = match lent(self.alloc, kept, fill) {
            Ok(intent) => intent,
            Err(FillFault::ExtrasFull) => return Err(PendingFault::ExtrasFull),
            Err(FillFault::NoMemory) => return Err(PendingFault::NoMemory),
        };
        Ok(Used {
            creator: kept.creator(),
            kind: kept.key().kind,
            intent,
            one_shot: kept.key().one_shot,
        })
    }

    /// Why a token that isn't live can't be used.
    fn no_record(&self, token: u64) -> PendingFault
        ensures { result ≡ no_record self.now token }
    {
        if token == 0 || token >= self.next {
            PendingFault::NoToken
        } else {
            PendingFault::Canceled
        }
    }

    /// Cancels the records of a uid, which then no longer holds any token. It goes over all records, and takes no
    /// memory.
    pub fn forget_uid(&mut self, uid: u32)
        ensures { self.new ≡ forget_uid self.old uid }
    {
        self.records.forget_creator(uid);
        self.records.forget_holder(uid);
        index::forget_tokens(&mut self.tokens, uid);
        index::forget_count(&mut self.counts, uid);
    }
}
