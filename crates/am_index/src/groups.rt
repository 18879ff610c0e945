//! The groups under which a component is listed.
ghost use Rattle.std.specs.Prelude.{◌≡◌, ◌++◌, OnOk, IfOk, map};
ghost use Rattle.am_index.specs.declared.key.Group.TheVariants.{Action, Scheme};
ghost use Rattle.am_index.specs.Keys.{data_groups, groups_of, groups_of_filter, groups_of_types, type_group};

use crate::key::Group;
use am_types::{Decl, Filter, List, Mime, NoMemory, Text};
use std::alloc::Global;

/// The class of the component, and what its filters list, repeats included.
pub(crate) fn groups_of(alloc: Global, decl: &Decl) -> Result<Vec<Group>, NoMemory>
    ensures { IfOk result (λ groups. groups.items ≡ groups_of decl.now) }
{
    let mut groups = Vec::new(alloc);
    groups.push(Group::Class(decl.class.clone()?))?;
    for filter in decl.filters.as_slice() {
        add_filter(&mut groups, filter)?;
    }
    Ok(groups)
}

/// Adds what a filter lists.
fn add_filter(groups: &mut Vec<Group>, filter: &Filter) -> Result<(), NoMemory>
    ensures { OnOk result (groups.new.items ≡ groups.old.items ++ groups_of_filter filter.now) }
{
    add_actions(groups, &filter.actions)?;
    add_schemes(groups, &filter.schemes)?;
    add_data(groups, filter)
}

fn add_actions(groups: &mut Vec<Group>, actions: &List<Text>) -> Result<(), NoMemory>
    ensures { OnOk result (groups.new.items ≡ groups.old.items ++ map Action actions.now) }
{
    for action in actions.as_slice() {
        groups.push(Group::Action(action.clone()?))?;
    }
    Ok(())
}

fn add_schemes(groups: &mut Vec<Group>, schemes: &List<Text>) -> Result<(), NoMemory>
    ensures { OnOk result (groups.new.items ≡ groups.old.items ++ map Scheme schemes.now) }
{
    for scheme in schemes.as_slice() {
        groups.push(Group::Scheme(scheme.clone()?))?;
    }
    Ok(())
}

/// Adds what the data of a filter list, apart from the schemes.
fn add_data(groups: &mut Vec<Group>, filter: &Filter) -> Result<(), NoMemory>
    ensures { OnOk result (groups.new.items ≡ groups.old.items ++ data_groups filter.now) }
{
    if filter.schemes.as_slice().is_empty() {
        add_types(groups, &filter.types)?;
    }
    Ok(())
}

/// Adds whether a filter without schemes lists no type, or which main parts its types have.
fn add_types(groups: &mut Vec<Group>, types: &List<Mime>) -> Result<(), NoMemory>
    ensures { OnOk result (groups.new.items ≡ groups.old.items ++ groups_of_types types.now) }
{
    if types.as_slice().is_empty() {
        groups.push(Group::Bare)?;
        return Ok(());
    }
    groups.push(Group::Typed)?;
    add_mains(groups, types)
}

fn add_mains(groups: &mut Vec<Group>, types: &List<Mime>) -> Result<(), NoMemory>
    ensures { OnOk result (groups.new.items ≡ groups.old.items ++ map type_group types.now) }
{
    for mime in types.as_slice() {
        groups.push(Group::Main(mime.main.clone()?))?;
    }
    Ok(())
}
