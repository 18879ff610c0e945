//! Fields with whole numbers. A number with a fraction or an exponent isn't one, and neither is -0.
ghost use Rattle.serde_json.specs.View.{view};
ghost use Rattle.am_types.specs.Reading.{Gives};
ghost use Rattle.am_wire_fields.specs.Numbers.{natural_in, optional_natural, optional_whole, required_natural, required_up_to, required_whole, whole_in};

use crate::fields::required;
use crate::naming::wrong_kind;
use crate::{Unread, if_said};
use serde_json::Value;
use std::alloc::Global;

/// The whole number from 0 to 18,446,744,073,709,551,615 in a value. `name` is what a fault calls the value.
///
/// # Errors
///
/// If the value isn't such a number.
#[tactic(auto, unfolding(crate::specs::Numbers::natural_in, crate::specs::Fields::of_kind))]
pub fn natural_in(alloc: Global, name: &str, value: &Value) -> Result<u64, Unread>
    ensures { Gives result (natural_in name.now (view value.now)) }
{
    value.as_u64().ok_or_else(|| wrong_kind(alloc, name))
}

/// The signed whole number of 64 bits in a value. `name` is what a fault calls the value.
///
/// # Errors
///
/// If the value isn't such a number.
#[tactic(auto, unfolding(crate::specs::Numbers::whole_in, crate::specs::Fields::of_kind))]
pub fn whole_in(alloc: Global, name: &str, value: &Value) -> Result<i64, Unread>
    ensures { Gives result (whole_in name.now (view value.now)) }
{
    value.as_i64().ok_or_else(|| wrong_kind(alloc, name))
}

/// The number from 0 on in a required field.
///
/// # Errors
///
/// If the field is absent or null, and then if its value isn't such a number.
#[tactic(auto, unfolding(crate::specs::Numbers::required_natural))]
pub fn required_natural(alloc: Global, name: &str, object: &Value) -> Result<u64, Unread>
    ensures { Gives result (required_natural name.now (view object.now)) }
{
    natural_in(alloc, name, required(alloc, name, object)?)
}

/// The number from 0 to this one in a required field.
///
/// # Errors
///
/// If the field is absent or null, and then if its value isn't such a number.
#[tactic(auto, unfolding(crate::specs::Numbers::required_up_to))]
pub fn required_up_to(
    alloc: Global,
    greatest: u64,
    name: &str,
    object: &Value,
) -> Result<u64, Unread>
    ensures { Gives result (required_up_to greatest name.now (view object.now)) }
{
    let number = required_natural(alloc, name, object)?;
    if number > greatest {
        return Err(wrong_kind(alloc, name));
    }
    Ok(number)
}

/// The signed number in a required field.
///
/// # Errors
///
/// If the field is absent or null, and then if its value isn't such a number.
#[tactic(auto, unfolding(crate::specs::Numbers::required_whole))]
pub fn required_whole(alloc: Global, name: &str, object: &Value) -> Result<i64, Unread>
    ensures { Gives result (required_whole name.now (view object.now)) }
{
    whole_in(alloc, name, required(alloc, name, object)?)
}

/// The number from 0 on in a field: none if the field is absent or null.
///
/// # Errors
///
/// If the field's value isn't such a number.
#[tactic(auto, unfolding(crate::specs::Numbers::optional_natural))]
pub fn optional_natural(alloc: Global, name: &str, object: &Value) -> Result<Option<u64>, Unread>
    ensures { Gives result (optional_natural name.now (view object.now)) }
{
    if_said!(name, object, |value| natural_in(alloc, name, value))
}

/// The signed number in a field: none if the field is absent or null.
///
/// # Errors
///
/// If the field's value isn't such a number.
#[tactic(auto, unfolding(crate::specs::Numbers::optional_whole))]
pub fn optional_whole(alloc: Global, name: &str, object: &Value) -> Result<Option<i64>, Unread>
    ensures { Gives result (optional_whole name.now (view object.now)) }
{
    if_said!(name, object, |value| whole_in(alloc, name, value))
}
