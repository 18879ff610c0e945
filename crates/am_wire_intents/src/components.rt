//! Components as texts name them: `package/class`.
ghost use Rattle.std.specs.Prelude.{◌≡◌, IfOk, Some, option_map};
ghost use Rattle.serde_json.specs.View.{view};
ghost use Rattle.am_uri.specs.Parts.{both};
ghost use Rattle.am_types.specs.Reading.{Gives};
ghost use Rattle.am_wire_intents.specs.Components.{component_in, full_class, measured, of_parts, optional_component, parts_of};

use am_types::{Component, Text};
use am_uri::{Form, starts_with_dot};
use am_wire_fields::{Unread, if_said, too_long, wrong_kind};
use serde_json::Value;
use std::alloc::{AllocError, Global};

/// The part before the first slash and the part after it.
fn parts_of(text: &str) -> Option<(&str, &str)>
    ensures { option_map both result ≡ parts_of text.now }
{
    text.split_once('/')
}

/// The class: a class that starts with a dot is put after the package.
fn full_class(alloc: Global, package: &str, class: &str) -> Result<Text, AllocError>
    ensures { IfOk result (λ full. full ≡ full_class «package».now class.now) }
{
    if !starts_with_dot(class) {
        return Ok(Text::of(alloc, class)?);
    }
    let mut full = String::from_str(alloc, package)?;
    full.push_str(class)?;
    Ok(Text::new(full))
}

/// The component of a package and a class, unless one of them is too long.
#[tactic(auto, unfolding(crate::specs::Components::measured))]
fn measured(alloc: Global, name: &str, package: &str, class: &str) -> Result<Component, Unread>
    ensures { Gives result (measured name.now «package».now (full_class «package».now class.now)) }
{
    if package.len() > 1024 {
        return Err(too_long(alloc, name));
    }
    let class = full_class(alloc, package, class)?;
    if class.as_str().len() > 1024 {
        return Err(too_long(alloc, name));
    }
    let package = Text::of(alloc, package)?;
    Ok(Component { package, class })
}

/// The component of a package and a class, which must be valid names.
#[tactic(auto, unfolding(crate::specs::Components::of_parts))]
fn of_parts(alloc: Global, name: &str, package: &str, class: &str) -> Result<Component, Unread>
    ensures { Gives result (of_parts name.now (Some («package».now, class.now))) }
{
    if !Form::PackageName.fits(package) {
        return Err(wrong_kind(alloc, name));
    }
    if !Form::Class.fits(class) {
        return Err(wrong_kind(alloc, name));
    }
    measured(alloc, name, package, class)
}

/// The component that a text names.
#[tactic(auto, unfolding(crate::specs::Components::of_parts))]
fn named(alloc: Global, name: &str, text: &str) -> Result<Component, Unread>
    ensures { Gives result (of_parts name.now (parts_of text.now)) }
{
    match parts_of(text) {
        None => Err(wrong_kind(alloc, name)),
        Some((package, class)) => of_parts(alloc, name, package, class),
    }
}

/// The component that a value names: the name of its package, a slash, and its class, which is put after the package
/// if it starts with a dot. Each part has at most 1,024 bytes. `name` is what a fault calls the value.
///
/// # Errors
///
/// If the value isn't a text of two such names, and then if a part is too long.
#[tactic(auto, unfolding(crate::specs::Components::component_in, crate::specs::Components::of_parts))]
pub fn component_in(alloc: Global, name: &str, value: &Value) -> Result<Component, Unread>
    ensures { Gives result (component_in name.now (view value.now)) }
{
    match value.as_str() {
        None => Err(wrong_kind(alloc, name)),
        Some(text) => named(alloc, name, text),
    }
}

/// The component that a field names: none if the field is absent or null.
///
/// # Errors
///
/// As for [`component_in`].
#[tactic(auto, unfolding(crate::specs::Components::optional_component))]
pub fn optional_component(
    alloc: Global,
    name: &str,
    object: &Value,
) -> Result<Option<Component>, Unread>
    ensures { Gives result (optional_component name.now (view object.now)) }
{
    if_said!(name, object, |value| component_in(alloc, name, value))
}
