//! Adds and removes packages and registered receivers.
ghost use Rattle.std.specs.Prelude.{◌≡◌, ◌∷◌, ◌++◌, [], not, ◌==◌, if◌then◌else◌, OnOk, OnErr, filter};
ghost use Rattle.am_model.specs.Boards.{registered_without, with_stopped, without_package};
ghost use Rattle.am_model.specs.Lists.{place_of};
ghost use Rattle.am_installed.specs.Places.{before_registered, place_registered};
ghost use Rattle.am_types.specs.declared.resolve.Registration.{Registration};

use am_types::{List, NoMemory, Package, Registration};
use std::alloc::Global;
use std::mem;

/// Takes the items of a list, and leaves none. Takes no memory.
pub fn take<T>(list: &mut List<T>, alloc: Global) -> Vec<T>
    ensures items { result.items ≡ list.old }
    ensures left { list.new ≡ [] }
{
    mem::replace(list, List::new(Vec::new(alloc))).into_items()
}

/// Puts a package after the others. If memory runs out, all stay.
pub(crate) fn push_package(packages: &mut Vec<Package>, package: Package) -> Result<(), NoMemory>
    ensures put { OnOk result (packages.new.items ≡ packages.old.items ++ «package» ∷ []) }
    ensures same { OnErr result (packages.new.items ≡ packages.old.items) }
{
    packages.push(package)?;
    Ok(())
}

/// Removes the package of the uid.
pub fn drop_package(packages: &mut Vec<Package>, uid: u32)
    ensures { packages.new.items ≡ without_package packages.old.items uid }
{
    packages.retain(|package| package.uid != uid);
}

/// Makes a package stopped, or no longer stopped, if it has the uid.
fn stop_if(package: &mut Package, uid: u32, stopped: bool)
    ensures { «package».new ≡
        (if «package».old.uid == uid then record «package».old { stopped = stopped } else «package».old) }
{
    if package.uid == uid {
        package.stopped = stopped;
    }
}

/// Makes the package of the uid stopped, or no longer stopped.
pub(crate) fn set_stopped(packages: &mut Vec<Package>, uid: u32, stopped: bool)
    ensures { packages.new.items ≡ with_stopped packages.old.items uid stopped }
{
    for place in 0..packages.len() {
        let package = &mut packages[place];
        stop_if(package, uid, stopped);
    }
}

/// How many registered receivers come before the first with a greater number.
fn place_of(registered: &[Registration], registration: &Registration) -> usize
    ensures { result ≡ place_of before_registered registration.now registered.now }
{
    for (place, other) in registered.iter().enumerate() {
        if registration.number < other.number {
            return place;
        }
    }
    registered.len()
}

/// Puts a registered receiver in its place by number. If memory runs out, all stay.
pub(crate) fn put_registered(
    registered: &mut Vec<Registration>,
    registration: Registration,
) -> Result<(), NoMemory>
    ensures put { OnOk result (registered.new.items ≡ place_registered registration registered.old.items) }
    ensures same { OnErr result (registered.new.items ≡ registered.old.items) }
{
    let place = place_of(registered, &registration);
    registered.insert(place, registration)?;
    Ok(())
}

/// Removes the registered receiver with this number.
pub(crate) fn drop_registered(registered: &mut Vec<Registration>, number: u64)
    ensures { registered.new.items ≡ filter (λ (r : Registration). not (r.number == number)) registered.old.items }
{
    registered.retain(|registration| registration.number != number);
}

/// Removes the registered receivers of the uid.
pub(crate) fn drop_registered_of(registered: &mut Vec<Registration>, uid: u32)
    ensures { registered.new.items ≡ registered_without registered.old.items uid }
{
    registered.retain(|registration| registration.uid != uid);
}
