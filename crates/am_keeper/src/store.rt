//! A store in memory.
ghost use Rattle.std.specs.Prelude.{◌≡◌, ◌≢◌, ◌↔◌, ◌⊎◌, ℕ, ◌≤◌, List as Items, [], Some, None, Err, IsTrue, IfOk, OnOk, OnErr, if◌then◌else◌, unwrap_or};
ghost use Rattle.std.specs.Option.{option_copied};
ghost use Rattle.std.specs.List.{position};
ghost use Rattle.am_keeper.specs.declared.rows.Rows.{Rows as Told};
ghost use Rattle.am_keeper.specs.Rows.{IsInOrder, no_rows};
ghost use Rattle.am_keeper.specs.Keeping.{same_text, raised_by, rows_after};
ghost use Rattle.am_keeper.specs.Memory.{fails_at, one_more, fresh_keeper};
ghost use Rattle.am_keeper.specs.Shelf.{ArePlaces, rows_in_places, rows_in_slots, has_slot, fresh_shelf, after_attach, rows_on};

use crate::logged::Logged;
use crate::{Attached, KeepFail, Keeper, MemoryKeeper, Rows, RowsBuilder, Store};
use am_outside::Calls;
use am_types::{List, Text};
use std::alloc::{AllocError, Global};
use std::marker::Model;

/// Rows at a path.
#[derive(Drop)]
pub struct StoredRows {
    pub path: Text,
    pub rows: Rows,
}

/// The room for what a keeper brings back, and what came back.
#[derive(Drop)]
pub(crate) struct Slot {
    pub path: Text,
    pub rows: Option<Logged>,
}

/// Whether there is a slot for this path.
fn has_slot(slots: &[Slot], path: &Text) -> bool
    ensures { result ≡ has_slot slots.now path.now }
{
    slots.iter().any(|slot| slot.path == *path)
}

/// The index of the first slot for this path.
fn place_for(slots: &[Slot], path: &Text) -> Option<usize>
    ensures { result ≡ position (λ slot. same_text slot.path path.now) slots.now }
{
    slots.iter().position(|slot| slot.path == *path)
}

/// The rows that came back to the slot for this path.
fn rows_back<'a>(slots: &'a [Slot], path: &Text) -> Option<&'a Logged>
    ensures { (otherwise : Told) → rows_in_slots slots.now path.now otherwise
        ≡ unwrap_or (option_copied result) otherwise }
{
    for slot in slots {
        if slot.path == *path {
            return slot.rows.as_ref();
        }
    }
    None
}

/// The rows that were at this path from the start.
fn rows_in_places(alloc: Global, places: &[StoredRows], path: &Text) -> Result<Rows, AllocError>
    requires { ArePlaces places.now }
    ensures rows { IfOk result (λ rows. rows ≡ rows_in_places places.now path.now) }
    ensures in_order { IfOk result IsInOrder }
{
    for place in places {
        if place.path == *path {
            return place.rows.clone();
        }
    }
    Ok(RowsBuilder::new(alloc).finish())
}

/// Makes a slot for this path if there is none yet.
fn make_room(slots: &mut Vec<Slot>, path: &Text) -> Result<(), AllocError>
    ensures rows { (at : Items ℕ) (otherwise : Told) → rows_in_slots slots.new.items at otherwise
        ≡ rows_in_slots slots.old.items at otherwise }
    ensures ok { OnOk result ((at : Items ℕ) → IsTrue (has_slot slots.new.items at)
        ↔ (IsTrue (has_slot slots.old.items at) ⊎ (path.now ≡ at))) }
    ensures err { OnErr result (slots.new.items ≡ slots.old.items) }
{
    if has_slot(slots, path) {
        return Ok(());
    }
    slots.push(Slot {
        path: path.clone()?,
        rows: None,
    })?;
    Ok(())
}

/// Puts rows that came back into the slot for their place.
fn keep(slots: &mut Vec<Slot>, place: &Text, rows: Logged)
    requires { IsTrue (has_slot slots.old.items place.now) }
    ensures rows { (at : Items ℕ) (otherwise : Told) → rows_in_slots slots.new.items at otherwise
        ≡ (if same_text place.now at then rows else rows_in_slots slots.old.items at otherwise) }
    ensures slots { (at : Items ℕ) → has_slot slots.new.items at ≡ has_slot slots.old.items at }
{
    if let Some(at) = place_for(slots, place) {
        slots[at].rows = Some(rows);
    }
}

/// A store in memory. The calls of `attach` whose numbers it was given fail, and no others.
#[derive(Drop)]
pub struct MemoryStore {
    places: List<StoredRows>,
    slots: Vec<Slot>,
    attaches: Calls,
    keeper_faults: u64,
    alloc: Global,
}

impl Model for MemoryStore {
    ghost use Rattle.am_keeper.specs.Shelf.{ArePlaces, Shelf, fresh_shelf};

    ghost Value = { Shelf };

    ghost view = { λ s. record (fresh_shelf s.places s.attaches.failing) {
      slots = s.slots.items;
      attaches = s.attaches.made;
      failed_attaches = s.attaches.faults;
      keeper_faults = s.keeper_faults;
    } };

    ghost invariant = { λ s. ArePlaces s.places };
}

impl MemoryStore {
    /// A store with these rows. If several places have the same path, the first one counts. The
    /// calls of `attach` with the numbers in `failing`, counted from 1, fail. Takes no memory.
    pub fn new(alloc: Global, places: List<StoredRows>, failing: List<u32>) -> Self
        requires { ArePlaces places }
        ensures { result ≡ fresh_shelf places failing }
    {
        MemoryStore {
            places,
            slots: Vec::new(alloc),
            attaches: Calls::new(failing),
            keeper_faults: 0,
            alloc,
        }
    }

    /// Counts a call of `attach`, and tells whether it is to fail.
    fn count_attach(&mut self) -> Result<(), KeepFail>
        ensures exact { self.new ≡ after_attach self.old self.old.slots result }
        ensures fails { (result ≡ Err KeepFail.Failed)
            ↔ IsTrue (fails_at self.old.failing (one_more self.old.attaches)) }
        ensures never_falls { self.old.failed_attaches ≤ self.new.failed_attaches }
        ensures only_failed { result ≢ Err KeepFail.Failed → self.new.failed_attaches ≡ self.old.failed_attaches }
    {
        if self.attaches.next_fails() {
            return Err(KeepFail::Failed);
        }
        Ok(())
    }

    /// The rows at a path.
    fn rows_at(&self, path: &Text) -> Result<Rows, AllocError>
        ensures rows { IfOk result (λ rows. rows ≡ rows_on self.now path.now) }
        ensures in_order { IfOk result IsInOrder }
    {
        match rows_back(&self.slots, path) {
            Some(rows) => rows.rows(),
            None => rows_in_places(self.alloc, self.places.as_slice(), path),
        }
    }

    /// A keeper of the rows at a path, or of no rows without a path.
    fn keeper_for(&self, path: Option<&Text>) -> Result<Attached<MemoryKeeper>, AllocError>
        ensures keeper { IfOk result
            (λ attached. attached.keeper ≡ fresh_keeper attached.rows (option_copied path.entry) []) }
        ensures pathless { IfOk result (λ attached. option_copied path.entry ≡ None → attached.rows ≡ no_rows) }
        ensures stored { IfOk result (λ attached. (at : Items ℕ)
            → option_copied path.entry ≡ Some at → attached.rows ≡ rows_on self.now at) }
        ensures in_order { IfOk result (λ attached. IsInOrder attached.rows) }
    {
        let (rows, place) = match path {
            Some(path) => (self.rows_at(path)?, Some(path.clone()?)),
            None => (RowsBuilder::new(self.alloc).finish(), None),
        };
        let keeper = MemoryKeeper::at(self.alloc, rows.clone()?, place);
        Ok(Attached { keeper, rows })
    }
}

impl Store for MemoryStore {
    ghost use Rattle.std.specs.Prelude.{IsTrue, true, refl};
    ghost use Rattle.am_keeper.specs.Shelf.{rows_on, has_slot};

    type Kept = MemoryKeeper;

    ghost tells = { λ _. true };

    ghost rows_at = { rows_on };

    ghost has_attached = { λ s at. IsTrue (has_slot s.slots at) };

    ghost failed_attaches = { λ s. s.failed_attaches };

    ghost keeper_faults = { λ s. s.keeper_faults };

    ghost honest_where_told = { λ store tells keeper. (tt, refl) };

    fn attach(&mut self, path: Option<&Text>) -> Result<Attached<MemoryKeeper>, KeepFail>
        ensures exact { self.new ≡ after_attach self.old self.new.slots result }
        ensures same_rows { (at : Items ℕ) → rows_on self.new at ≡ rows_on self.old at }
        ensures in_order { IfOk result (λ attached. IsInOrder attached.rows) }
        ensures pathless { IfOk result (λ attached. option_copied path.entry ≡ None → attached.rows ≡ no_rows) }
        ensures stored { IfOk result (λ attached. (at : Items ℕ)
            → option_copied path.entry ≡ Some at → attached.rows ≡ rows_on self.old at) }
        ensures keeper { IfOk result
            (λ attached. attached.keeper ≡ fresh_keeper attached.rows (option_copied path.entry) []) }
        ensures attached { OnOk result ((at : Items ℕ) → IsTrue (has_slot self.new.slots at)
            ↔ (IsTrue (has_slot self.old.slots at) ⊎ (option_copied path.entry ≡ Some at))) }
        ensures not_attached { OnErr result (self.new.slots ≡ self.old.slots) }
        ensures fails { (result ≡ Err KeepFail.Failed)
            ↔ IsTrue (fails_at self.old.failing (one_more self.old.attaches)) }
        ensures never_falls { self.old.failed_attaches ≤ self.new.failed_attaches }
        ensures only_failed { result ≢ Err KeepFail.Failed → self.new.failed_attaches ≡ self.old.failed_attaches }
    {
        self.count_attach()?;
        let attached = self.keeper_for(path)?;
        if let Some(path) = path {
            make_room(&mut self.slots, path)?;
        }
        Ok(attached)
    }

    fn detach(&mut self, keeper: MemoryKeeper)
        requires { (at : Items ℕ) → keeper.place ≡ Some at → IsTrue (has_slot self.old.slots at) }
        ensures rows { (at : Items ℕ) → rows_on self.new at ≡ rows_after keeper.place keeper.told at
            (rows_on self.old at) }
        ensures slots { (at : Items ℕ) → has_slot self.new.slots at ≡ has_slot self.old.slots at }
        ensures exact { self.new ≡ record self.old {
          slots = self.new.slots;
          keeper_faults = raised_by keeper.faults self.old.keeper_faults;
        } }
    {
        let (rows, place, faults) = keeper.into_parts();
        self.keeper_faults = self.keeper_faults.saturating_add(faults);
        if let Some(place) = place {
            keep(&mut self.slots, &place, rows);
        }
    }
}
