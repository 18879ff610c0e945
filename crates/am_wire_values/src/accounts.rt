//! What an intent would reach, and why it doesn't reach the others.
ghost use Rattle.std.specs.Prelude.{◌≡◌, IfOk};
ghost use Rattle.serde_json.specs.View.{view};
ghost use Rattle.am_types.specs.declared.account.Standing.TheVariants.{Filters, Narrowed};
ghost use Rattle.am_wire_values.specs.Replies.{account_data, reason_data, standing_data};

use crate::as_value::{AsValue, put_shown};
use crate::fields::put_word;
use crate::names::{narrowing_name, why_name};
use crate::views::{put_judged, skipped_value, verdict_value};
use am_types::{Account, Aim, List, Narrowing, Standing, Why};
use serde_json::{Map, Value};
use std::alloc::{AllocError, Global};

/// Why a filter doesn't pass.
impl AsValue for Why {
    ghost as_data = { reason_data };

    fn value(&self, alloc: Global) -> Result<Value, AllocError> {
        Value::try_from_str(alloc, why_name(*self))
    }
}

/// A component or a registered receiver whose filters don't pass, with the reason for each.
fn filters_value(alloc: Global, to: &Aim, reasons: &List<Why>) -> Result<Value, AllocError>
    ensures { IfOk result (λ value. view value ≡ standing_data to.now (Filters reasons.now)) }
{
    let mut members = Map::new(alloc);
    put_shown(alloc, &mut members, "reasons", reasons)?;
    put_judged(alloc, &mut members, to, "filters")?;
    Ok(Value::Object(members))
}

/// An activity that the narrowing of web intents leaves out.
fn narrowed_value(alloc: Global, to: &Aim, by: Narrowing) -> Result<Value, AllocError>
    ensures { IfOk result (λ value. view value ≡ standing_data to.now (Narrowed by)) }
{
    let mut members = Map::new(alloc);
    put_word(alloc, &mut members, "by", narrowing_name(by))?;
    put_judged(alloc, &mut members, to, "narrowed")?;
    Ok(Value::Object(members))
}

/// A component or a registered receiver with its standing.
fn standing_value(alloc: Global, to: &Aim, standing: &Standing) -> Result<Value, AllocError>
    ensures { IfOk result (λ value. view value ≡ standing_data to.now standing.now) }
{
    match standing {
        Standing::OtherComponent => verdict_value(alloc, to, "other_component"),
        Standing::OtherPackage => verdict_value(alloc, to, "other_package"),
        Standing::Disabled => verdict_value(alloc, to, "disabled"),
        Standing::Filters(reasons) => filters_value(alloc, to, reasons),
        Standing::Narrowed(by) => narrowed_value(alloc, to, *by),
        Standing::Outranked => verdict_value(alloc, to, "outranked"),
        Standing::Tied => verdict_value(alloc, to, "tied"),
        Standing::Refused(rule) => skipped_value(alloc, to, rule),
        Standing::Reached => verdict_value(alloc, to, "reached"),
    }
}

impl AsValue for Account {
    ghost as_data = { account_data };

    fn value(&self, alloc: Global) -> Result<Value, AllocError> {
        standing_value(alloc, &self.to, &self.standing)
    }
}
