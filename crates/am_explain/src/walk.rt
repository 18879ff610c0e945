//! Goes through the components of a device and its registered receivers, one after the other.
ghost use Rattle.std.specs.Prelude.{◌≡◌, ◌∷◌, ◌++◌, [], ◌+◌, ◌≤◌, IsSome, OnOk, length};
ghost use Rattle.am_types.specs.declared.broadcast.Aim.TheVariants.{Declared};
ghost use Rattle.am_model.specs.Accounts.{accounts_from, component_of, declared_accounts, is_shown, registered_accounts, standing};
ghost use Rattle.am_explain.specs.Asking.{question_of};
ghost use Rattle.am_explain.specs.Contests.{AreGrounds};
ghost use Rattle.am_explain.specs.Costs.{filters_from, filters_in};

use crate::contest::Grounds;
use crate::naming::component_of;
use crate::standing::{registered_standing, standing_of};
use am_types::{Account, Aim, Decl, NoMemory, Package, Standing, Steps};
use std::sync::ledger::Ledger;

/// All are shown, or only what has this uid.
fn is_shown(shown: Option<u32>, uid: u32) -> bool
    ensures { result ≡ is_shown shown uid }
{
    match shown {
        None => true,
        Some(only) => uid == only,
    }
}

/// Adds an account.
fn tell(told: &mut Vec<Account>, to: Aim, standing: Standing) -> Result<(), NoMemory>
    ensures { OnOk result (told.new.items ≡ told.old.items ++ record { to = to; standing = standing } ∷ []) }
{
    told.push(Account { to, standing })?;
    Ok(())
}

/// Adds the accounts of the components that packages declare, if they are shown. Each filter
/// that is tested is a step.
pub(crate) fn add_declared<L: Ledger>(
    told: &mut Vec<Account>,
    grounds: &Grounds,
    steps: &mut Steps<L>,
) -> Result<(), NoMemory>
    requires { AreGrounds grounds.now }
    ensures added { OnOk result (told.new.items ≡ told.old.items
        ++ declared_accounts grounds.now.installed.now (question_of grounds.now.question) grounds.now.shown
        grounds.now.installed.now.packages) }
    ensures tests { steps.new ≤ steps.old + filters_in grounds.now.question.kind grounds.now.installed.now.packages }
    ensures explicit { IsSome grounds.now.question.intent.now.component → steps.new ≡ steps.old }
{
    for owner in grounds.installed.packages().as_slice() {
        if is_shown(grounds.shown, owner.uid) {
            add_package(told, grounds, owner, steps)?;
        }
    }
    Ok(())
}

/// Adds the accounts of a package's components of the kind.
fn add_package<L: Ledger>(
    told: &mut Vec<Account>,
    grounds: &Grounds,
    owner: &Package,
    steps: &mut Steps<L>,
) -> Result<(), NoMemory>
    requires { AreGrounds grounds.now }
    ensures added { OnOk result (told.new.items ≡ told.old.items
        ++ accounts_from grounds.now.installed.now (question_of grounds.now.question) owner.now owner.now.decls) }
    ensures tests { steps.new ≤ steps.old + filters_from grounds.now.question.kind owner.now.decls }
    ensures explicit { IsSome grounds.now.question.intent.now.component → steps.new ≡ steps.old }
{
    for decl in owner.decls.as_slice() {
        if decl.kind == grounds.question.kind {
            add_component(told, grounds, owner, decl, steps)?;
        }
    }
    Ok(())
}

/// Adds the account of a component.
fn add_component<L: Ledger>(
    told: &mut Vec<Account>,
    grounds: &Grounds,
    owner: &Package,
    decl: &Decl,
    steps: &mut Steps<L>,
) -> Result<(), NoMemory>
    requires { AreGrounds grounds.now }
    ensures added { OnOk result (told.new.items ≡ told.old.items ++ record {
      to = Declared (component_of owner.now decl.now);
      standing = standing grounds.now.installed.now (question_of grounds.now.question) owner.now decl.now;
    } ∷ []) }
    ensures tests { steps.new ≤ steps.old + length decl.now.filters }
    ensures explicit { IsSome grounds.now.question.intent.now.component → steps.new ≡ steps.old }
{
    let standing = standing_of(grounds, owner, decl, steps)?;
    let to = Aim::Declared(component_of(owner, decl)?);
    tell(told, to, standing)
}

/// Adds the accounts of the registered receivers, if they are shown. Each filter that is tested
/// is a step.
pub(crate) fn add_registered<L: Ledger>(
    told: &mut Vec<Account>,
    grounds: &Grounds,
    steps: &mut Steps<L>,
) -> Result<(), NoMemory>
    ensures added { OnOk result (told.new.items ≡ told.old.items
        ++ registered_accounts grounds.now.installed.now (question_of grounds.now.question) grounds.now.shown
        grounds.now.installed.now.registered) }
    ensures tests { steps.new ≤ steps.old + length grounds.now.installed.now.registered }
    ensures explicit { IsSome grounds.now.question.intent.now.component → steps.new ≡ steps.old }
{
    for registration in grounds.installed.registered().as_slice() {
        if is_shown(grounds.shown, registration.uid) {
            let standing = registered_standing(grounds, registration, steps)?;
            tell(told, Aim::Registered(registration.number), standing)?;
        }
    }
    Ok(())
}
