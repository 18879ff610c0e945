//! A keeper, which puts rows, and a store, which hands keepers out and takes them back.
ghost use Rattle.std.specs.Prelude.{◌≡◌, ◌≢◌, ◌↔◌, ◌⊎◌, ℕ, ◌≤◌, List as Items, Bool, false, Option, Some, None, is_some, IsTrue, IfOk, OnErr, Err, OnOk, ⊤};
ghost use Rattle.std.specs.Option.{option_copied};
ghost use Rattle.am_outside.specs.Counts.{HasRisen};
ghost use Rattle.am_keeper.specs.declared.rows.Rows.{Rows as Told};
ghost use Rattle.am_keeper.specs.declared.rows.Row.TheVariants.{Package, Grant, Link};
ghost use Rattle.am_keeper.specs.Rows.{IsInOrder, no_rows};
ghost use Rattle.am_keeper.specs.Keeping.{IsAskedBy, raised_by, rows_after};

use crate::{GrantRow, KeepFail, LinkRow, PackageRow, Rows};
use am_types::Text;

/// Puts rows into a store. A clause about rows applies only if the store is honest, that is, if it
/// has returned what was written into it.
pub trait Keeper: Drop {
    /// Its rows. A keeper tells its rows either always or never.
    ghost rows: { Self → Option Told };

    /// The place of its rows in the store. No call changes it.
    ghost place: { Self → Option (Items ℕ) };

    /// Its store has been honest so far. A call may find that it isn't.
    ghost is_honest: { Self → Type 0 };

    /// Its store is honest for good. No call changes this.
    ghost stays_honest: { Self → Type 0 };

    /// How many faults there were. The count stops at the greatest 64-bit number.
    ghost faults: { Self → ℕ };

    /// How many puts there were, whatever they returned. The count stops at the greatest 64-bit number.
    ghost puts: { Self → ℕ };

    /// Replaces the row with the same uid, or adds this one.
    fn put_package(&mut self, row: &PackageRow) -> Result<(), KeepFail>
        ensures asked { IsAskedBy rows place is_honest stays_honest faults puts (Package row.now) self.old self.new result };

    /// Replaces the row with the same uid and permission, or adds this one.
    fn put_grant(&mut self, row: &GrantRow) -> Result<(), KeepFail>
        ensures asked { IsAskedBy rows place is_honest stays_honest faults puts (Grant row.now) self.old self.new result };

    /// Replaces the row with the same uid and host, or adds this one.
    fn put_link(&mut self, row: &LinkRow) -> Result<(), KeepFail>
        ensures asked { IsAskedBy rows place is_honest stays_honest faults puts (Link row.now) self.old self.new result };

    ghost honest_by_nature: { (keeper : Self) → stays_honest keeper → is_honest keeper };
}

/// A keeper at work, and the rows that it was handed out with.
#[derive(Drop)]
pub struct Attached<K> {
    pub keeper: K,
    pub rows: Rows,
}

/// Keeps rows under paths, and hands out a keeper for the rows at a path.
pub trait Store {
    type Kept: Keeper;

    /// Whether it tells its rows, which it doesn't by default. No call changes this.
    ghost tells: { Self → Bool } = { λ _. false };

    /// The rows at a path, if it tells its rows. At a path without rows this is empty.
    ghost rows_at: { Self → Items ℕ → Told } = { λ _ _. no_rows };

    /// The paths for which `attach` returned a keeper, if it tells its rows.
    ghost has_attached: { Self → Items ℕ → Type 0 } = { λ _ _. ⊤ };

    /// How many calls of `attach` failed. The count stops at the greatest 64-bit number.
    ghost failed_attaches: { Self → ℕ };

    /// How many faults there were in all keepers that came back. The count stops at the greatest
    /// 64-bit number.
    ghost keeper_faults: { Self → ℕ };

    /// Hands out a keeper for the rows at the path, or for no rows if there is no path, and makes
    /// room for what the keeper brings back.
    fn attach(&mut self, path: Option<&Text>) -> Result<Attached<Self::Kept>, KeepFail>
        ensures tells { tells self.new ≡ tells self.old }
        ensures same_rows { IsTrue (tells self.old) → (at : Items ℕ) → rows_at self.new at ≡ rows_at self.old at }
        ensures in_order { IfOk result (λ attached. IsInOrder attached.rows) }
        ensures told { IfOk result (λ attached. Self.Kept.is_honest attached.keeper
            → (told : Told) → Self.Kept.rows attached.keeper ≡ Some told → attached.rows ≡ told) }
        ensures pathless { IfOk result (λ attached. option_copied path.entry ≡ None → attached.rows ≡ no_rows) }
        ensures stored { IsTrue (tells self.old) → IfOk result (λ attached. (at : Items ℕ)
            → option_copied path.entry ≡ Some at → attached.rows ≡ rows_at self.old at) }
        ensures keeper_tells { IsTrue (tells self.old)
            → IfOk result (λ attached. Self.Kept.rows attached.keeper ≡ Some attached.rows) }
        ensures keeper_honest { IsTrue (tells self.old)
            → IfOk result (λ attached. Self.Kept.stays_honest attached.keeper) }
        ensures keeper_place { IfOk result (λ attached. Self.Kept.place attached.keeper ≡ option_copied path.entry) }
        ensures no_faults { IfOk result (λ attached. Self.Kept.faults attached.keeper ≡ 0) }
        ensures attached { IsTrue (tells self.old) → OnOk result ((at : Items ℕ)
            → has_attached self.new at ↔ (has_attached self.old at ⊎ (option_copied path.entry ≡ Some at))) }
        ensures not_attached { IsTrue (tells self.old) → OnErr result
            ((at : Items ℕ) → has_attached self.new at ↔ has_attached self.old at) }
        ensures never_falls { failed_attaches self.old ≤ failed_attaches self.new }
        ensures failed { result ≡ Err KeepFail.Failed → HasRisen (failed_attaches self.old) (failed_attaches self.new) }
        ensures only_failed { result ≢ Err KeepFail.Failed → failed_attaches self.new ≡ failed_attaches self.old }
        ensures keepers { keeper_faults self.new ≡ keeper_faults self.old };

    /// Takes a keeper back with its rows. Takes no memory.
    fn detach(&mut self, keeper: Self::Kept)
        requires { IsTrue (tells self.old)
            → (at : Items ℕ) → Self.Kept.place keeper ≡ Some at → has_attached self.old at }
        ensures tells { tells self.new ≡ tells self.old }
        ensures rows { IsTrue (tells self.old) → Self.Kept.is_honest keeper
            → (told : Told) → Self.Kept.rows keeper ≡ Some told
            → (at : Items ℕ) → rows_at self.new at ≡ rows_after (Self.Kept.place keeper) told at (rows_at self.old at) }
        ensures attached { IsTrue (tells self.old) → (at : Items ℕ)
            → has_attached self.new at ↔ has_attached self.old at }
        ensures failed_attaches { failed_attaches self.new ≡ failed_attaches self.old }
        ensures keepers { keeper_faults self.new ≡ raised_by (Self.Kept.faults keeper) (keeper_faults self.old) };

    /// If a store tells its rows, its keepers are honest and tell theirs.
    ghost honest_where_told: { (store : Self) → IsTrue (tells store) → (keeper : Self.Kept)
        → Self.Kept.is_honest keeper × IsTrue (is_some (Self.Kept.rows keeper)) };
}
