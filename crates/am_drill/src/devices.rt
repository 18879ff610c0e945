//! The generated device.
ghost use Rattle.std.specs.Prelude.{◌≡◌, ◌≤◌, ◌<◌, ◌+◌, ◌*◌, ◌++◌, [], ◌∷◌, pos, ◌-ℤ◌, IfOk, OnOk, codes};
ghost use Rattle.am_model.specs.Filters.{default_category};
ghost use Rattle.am_model.specs.Plain.{filter_for};
ghost use Rattle.am_drill.specs.Draws.{after};
ghost use Rattle.am_drill.specs.Devices.{activity_of, device_of, exported, name_of, package_of, packages_of, receiver_of};

use crate::draws::Draws;
use crate::texts::{joined, numbered};
use am_types::{Decl, Device, Filter, Kind, List, Mode, NoMemory, Package, Rules, Text};
use std::alloc::{AllocError, Global};

/// How many packages a device may have.
pub(crate) const MOST_PACKAGES: u32 = 256;

/// The uid of the first package.
const FIRST_UID: u32 = 10_000;

/// The category that an activity lists to be started by intents that name no component.
const DEFAULT: &str = "android.intent.category.DEFAULT";

/// The device of so many packages, whose activities and receivers are drawn.
#[tactic(auto, unfolding(crate::specs::Devices::device_of))]
pub(crate) fn device(alloc: Global, draws: &mut Draws, packages: u32) -> Result<Device, NoMemory>
    requires few { packages ≤ MOST_PACKAGES }
    ensures made { IfOk result (λ device. device ≡ device_of packages draws.old) }
    ensures drawn { OnOk result (draws.new ≡ after (4 * packages) draws.old) }
{
    let packages = self::packages(alloc, draws, packages)?;
    let system_key = Text::of(alloc, "sys")?;
    let exempt = exempt(alloc)?;
    Ok(Device {
        rules: Rules::Profile,
        system_key,
        root_key: None,
        browser: None,
        protected: List::new(Vec::new(alloc)),
        exempt,
        packages: List::new(packages),
        grants: List::new(Vec::new(alloc)),
        links: List::new(Vec::new(alloc)),
    })
}

// The actions that receivers of a manifest get, no matter who broadcasts them.
fn exempt(alloc: Global) -> Result<List<Text>, AllocError>
    ensures { IfOk result (λ exempt. exempt ≡ codes "b.0" ∷ codes "b.1" ∷ codes "b.2" ∷ codes "b.3" ∷ []) }
{
    let mut actions = Vec::new(alloc);
    actions.push(Text::of(alloc, "b.0")?)?;
    actions.push(Text::of(alloc, "b.1")?)?;
    actions.push(Text::of(alloc, "b.2")?)?;
    actions.push(Text::of(alloc, "b.3")?)?;
    Ok(List::new(actions))
}

// So many packages.
fn packages(alloc: Global, draws: &mut Draws, packages: u32) -> Result<Vec<Package>, NoMemory>
    requires few { packages ≤ MOST_PACKAGES }
    ensures made { IfOk result (λ made. made.items ≡ packages_of packages draws.old) }
    ensures drawn { OnOk result (draws.new ≡ after (4 * packages) draws.old) }
{
    let mut made = Vec::new(alloc);
    for i in 0..packages {
        let package = package(alloc, draws, i)?;
        made.push(package)?;
    }
    Ok(made)
}

// Package number i.
fn package(alloc: Global, draws: &mut Draws, i: u32) -> Result<Package, NoMemory>
    requires few { i < MOST_PACKAGES }
    ensures made { IfOk result (λ made. made ≡ package_of i draws.old) }
    ensures drawn { OnOk result (draws.new ≡ after 4 draws.old) }
{
    let name = numbered(alloc, "p.", i)?;
    let decls = decls(alloc, draws, i, &name)?;
    let key = numbered(alloc, "k", i)?;
    Ok(Package {
        uid: FIRST_UID + i,
        name,
        key,
        stopped: false,
        decls,
    })
}

// The activity and the receiver of package number i, which has this name.
fn decls(alloc: Global, draws: &mut Draws, i: u32, name: &Text) -> Result<List<Decl>, NoMemory>
    requires name { name.now ≡ name_of i }
    ensures made { IfOk result (λ decls. decls ≡ activity_of i draws.old ∷ receiver_of i (after 2 draws.old) ∷ []) }
    ensures drawn { OnOk result (draws.new ≡ after 4 draws.old) }
{
    let mut decls = Vec::new(alloc);
    decls.push(activity(alloc, draws, i, name)?)?;
    decls.push(receiver(alloc, draws, i, name)?)?;
    Ok(List::new(decls))
}

// The activity of package number i, which has this name.
#[tactic(auto, unfolding(crate::specs::Devices::activity_of))]
fn activity(alloc: Global, draws: &mut Draws, i: u32, name: &Text) -> Result<Decl, NoMemory>
    requires name { name.now ≡ name_of i }
    ensures made { IfOk result (λ decl. decl ≡ activity_of i draws.old) }
    ensures drawn { OnOk result (draws.new ≡ after 2 draws.old) }
{
    let action = numbered(alloc, "a.", draws.below(8))?;
    let priority = lowered(draws.below(5));
    let filter = filter(alloc, action, default_alone(alloc)?, priority)?;
    exported(alloc, Kind::Activity, name, ".A", filter)
}

// The receiver of package number i, which has this name.
#[tactic(auto, unfolding(crate::specs::Devices::receiver_of))]
fn receiver(alloc: Global, draws: &mut Draws, i: u32, name: &Text) -> Result<Decl, NoMemory>
    requires name { name.now ≡ name_of i }
    ensures made { IfOk result (λ decl. decl ≡ receiver_of i draws.old) }
    ensures drawn { OnOk result (draws.new ≡ after 2 draws.old) }
{
    let action = numbered(alloc, "b.", draws.below(4))?;
    let priority = draws.below(5) as i32;
    let filter = filter(alloc, action, List::new(Vec::new(alloc)), priority)?;
    exported(alloc, Kind::Receiver, name, ".R", filter)
}

// The priority of an activity: as much below zero as was drawn.
fn lowered(drawn: u32) -> i32
    requires { drawn < 5 }
    ensures { result ≡ pos 0 -ℤ pos drawn }
{
    0 - drawn as i32
}

// Only the default category.
fn default_alone(alloc: Global) -> Result<List<Text>, AllocError>
    ensures { IfOk result (λ categories. categories ≡ default_category ∷ []) }
{
    let mut categories = Vec::new(alloc);
    categories.push(Text::of(alloc, DEFAULT)?)?;
    Ok(List::new(categories))
}

// A filter of one action.
fn filter(
    alloc: Global,
    action: Text,
    categories: List<Text>,
    priority: i32,
) -> Result<Filter, AllocError>
    ensures { IfOk result (λ filter. filter ≡ filter_for action categories priority) }
{
    let mut actions = Vec::new(alloc);
    actions.push(action)?;
    Ok(Filter {
        actions: List::new(actions),
        categories,
        schemes: List::new(Vec::new(alloc)),
        authorities: List::new(Vec::new(alloc)),
        paths: List::new(Vec::new(alloc)),
        types: List::new(Vec::new(alloc)),
        priority,
    })
}

// An exported component of the package with this name, with one filter.
fn exported(
    alloc: Global,
    kind: Kind,
    name: &Text,
    end: &str,
    filter: Filter,
) -> Result<Decl, NoMemory>
    ensures { IfOk result (λ decl. decl ≡ exported kind name.now (name.now ++ end.now) filter) }
{
    let class = joined(alloc, name, end)?;
    let affinity = name.clone()?;
    let mut filters = Vec::new(alloc);
    filters.push(filter)?;
    Ok(Decl {
        kind,
        class,
        exported: true,
        enabled: true,
        permission: None,
        mode: Mode::Standard,
        affinity,
        filters: List::new(filters),
    })
}
