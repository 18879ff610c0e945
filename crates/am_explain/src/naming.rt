//! Whether an intent names a component, and how it is named.
ghost use Rattle.std.specs.Prelude.{◌≡◌, IfOk};
ghost use Rattle.am_model.specs.Candidates.{is_in, is_named};
ghost use Rattle.am_model.specs.Accounts.{component_of, is_other_component, is_other_package, is_that};

use am_types::{Component, Decl, Intent, Package, Text};
use std::alloc::AllocError;

/// The intent names another component than this one.
pub(crate) fn is_other_component(
    component: &Option<Component>,
    owner: &Package,
    decl: &Decl,
) -> bool
    ensures { result ≡ is_other_component component.now owner.now decl.now }
{
    match component {
        None => false,
        Some(component) => !is_named(component, owner, decl),
    }
}

/// The component has this name.
fn is_named(component: &Component, owner: &Package, decl: &Decl) -> bool
    ensures { result ≡ is_named component.now owner.now.name decl.now.class }
{
    component.package == owner.name && component.class == decl.class
}

/// The intent names no component, but a package other than this one.
pub(crate) fn is_other_package(intent: &Intent, owner: &Package) -> bool
    ensures { result ≡ is_other_package intent.now owner.now }
{
    intent.component.is_none() && !is_in(&intent.package, owner)
}

/// No package is named, or this one is.
fn is_in(name: &Option<Text>, owner: &Package) -> bool
    ensures { result ≡ is_in name.now owner.now }
{
    match name {
        None => true,
        Some(name) => *name == owner.name,
    }
}

/// There is a named component, and it is this one.
pub(crate) fn is_that(component: &Option<Component>, owner: &Package, decl: &Decl) -> bool
    ensures { result ≡ is_that component.now (component_of owner.now decl.now) }
{
    match component {
        None => false,
        Some(component) => is_named(component, owner, decl),
    }
}

/// The name of a component.
pub(crate) fn component_of(owner: &Package, decl: &Decl) -> Result<Component, AllocError>
    ensures { IfOk result (λ component. component ≡ component_of owner.now decl.now) }
{
    Ok(Component {
        package: owner.name.clone()?,
        class: decl.class.clone()?,
    })
}
