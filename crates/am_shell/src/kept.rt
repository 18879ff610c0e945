//! The manager of a session, which begins with the rows that are kept, and how its keeper gets back to the store.
ghost use Rattle.std.specs.Prelude.{◌≡◌, ◌≤◌, ℕ, List as Items, [], Some, IfOk, OnOk, IfErr, IsTrue};
ghost use Rattle.std.specs.Option.{option_copied};
ghost use Rattle.am_model.specs.Sound.{IsSound};
ghost use Rattle.am_shell.specs.Kept.{FailsToOpenRows, IsOrigin, IsUnchanged, Leaves, unattached_of};
ghost use Rattle.am_shell.specs.Lines.{rows_line};
ghost use Rattle.am_shell.specs.World.{store_of};

use crate::undone::Undone;
use am_console::Setback;
use am_keeper::{Attached, KeepFail, Keeper, Store};
use am_machine::{Manager, begin_keyed};
use am_opening::BeginFault;
use am_types::{Device, NoMemory, Text};
use std::alloc::Global;
use std::hash::RandomState;

/// A manager of a sound device with the rows that the store keeps at the place, or none without a place. It hashes
/// what callers choose under the keys that were drawn, if some were.
pub fn open_manager<T: Store>(
    alloc: Global,
    drawn: Option<RandomState>,
    store: &mut T,
    device: Device,
    place: Option<&Text>,
) -> Result<Manager<T::Kept>, Undone>
    requires sound { IsSound device }
    ensures origin { IfOk result (λ manager. IsOrigin manager.origin device (option_copied place.entry)
        (store_of T.Store store.old)) }
    ensures fresh { IfOk result (λ manager. manager.history ≡ []) }
    ensures attached { IsTrue (T.tells store.old) → OnOk result ((at : Items ℕ) →
        option_copied place.entry ≡ Some at → T.has_attached store.new at) }
    ensures unchanged { IsUnchanged (store_of T.Store store.old) (store_of T.Store store.new) }
    ensures failed { IfErr result (λ why. FailsToOpenRows why device (option_copied place.entry)
        (store_of T.Store store.old) (store_of T.Store store.new)) }
{
    let attached = match store.attach(place) {
        Ok(attached) => attached,
        Err(fail) => {
            drop(device);
            return Err(unattached(fail));
        }
    };
    match begin_keyed(alloc, device, attached, drawn) {
        Ok(manager) => Ok(manager),
        Err(BeginFault::NoMemory) => Err(Undone::Setback(Setback::NoMemory)),
        Err(BeginFault::Rows(name)) => Err(Undone::RowsRefused(rows_line(alloc, &name)?)),
    }
}

// Why no manager began if the store attached no rows.
fn unattached(fail: KeepFail) -> Undone
    ensures { result ≡ unattached_of fail }
{
    match fail {
        KeepFail::Failed => Undone::StoreFault,
        KeepFail::NoMemory => Undone::Setback(Setback::NoMemory),
    }
}

// The line that names the package.
fn rows_line(alloc: Global, name: &Text) -> Result<Text, NoMemory>
    ensures { IfOk result (λ line. line ≡ rows_line name.now) }
{
    let name = name.as_str();
    Ok(Text::new(format!(in alloc; "am: kept rows refused: {name}\n")?))
}

/// Hands the manager's keeper back to the store, which has attached its place.
pub fn hand_back<T: Store>(store: &mut T, manager: Manager<T::Kept>)
    requires { IsTrue (T.tells store.old) → (at : Items ℕ) → manager.origin.place ≡ Some at
        → T.has_attached store.old at }
    ensures { Leaves manager.origin manager.origin.place manager.history
        (store_of T.Store store.old) (store_of T.Store store.new) }
{
    store.detach(manager.into_keeper());
}
