//! Refusals: their names, values and statuses.
ghost use Rattle.std.specs.Prelude.{◌≡◌, IfOk, OnOk, option_map, string_bytes};
ghost use Rattle.std.specs.Option.{option_copied};
ghost use Rattle.serde_json.specs.Data.{object, no_members};
ghost use Rattle.serde_json.specs.View.{members_view};
ghost use Rattle.am_wire_values.specs.Rules.{error_data, limit_name, named_by, refusal_data, rule_name, rule_status};

use crate::fields::{Members, put_word};
use am_types::{Limit, Rule};
use std::alloc::{AllocError, Global};

/// Puts a refusal: its name, and what it names.
pub(crate) fn put_refusal(
    alloc: Global,
    members: &mut Members,
    rule: &Rule,
) -> Result<(), AllocError>
    requires { members_view members.old.entries ≡ no_members }
    ensures { OnOk result (object (members_view members.new.entries) ≡ refusal_data rule.now) }
{
    match named_by(alloc, rule)? {
        None => put_error(alloc, members, rule_name(rule), None),
        Some(name) => put_error(alloc, members, rule_name(rule), Some(name.as_str())),
    }
}

/// Puts an error, and a name if there is one.
fn put_error(
    alloc: Global,
    members: &mut Members,
    error: &str,
    name: Option<&str>,
) -> Result<(), AllocError>
    requires { members_view members.old.entries ≡ no_members }
    ensures { OnOk result (object (members_view members.new.entries)
        ≡ error_data error.now (option_copied name.entry)) }
{
    put_word(alloc, members, "error", error)?;
    match name {
        None => Ok(()),
        Some(name) => put_word(alloc, members, "name", name),
    }
}

/// What a rule names: a permission, a limit, or the fault of a manifest.
pub fn named_by(alloc: Global, rule: &Rule) -> Result<Option<String>, AllocError>
    ensures { IfOk result (λ name. option_map string_bytes name ≡ named_by rule.now) }
{
    match rule {
        Rule::NeedsPermission(permission) | Rule::ReceiverLacks(permission) => {
            Ok(Some(String::from_str(alloc, permission.as_str())?))
        }
        Rule::OverLimit(limit) => Ok(Some(String::from_str(alloc, limit_name(*limit))?)),
        Rule::BadManifest(fault) => Ok(Some(fault.to_string(alloc)?)),
        _ => Ok(None),
    }
}

/// The name of a quantity that has a limit.
fn limit_name(limit: Limit) -> &'static str
    ensures { result.now ≡ limit_name limit }
{
    match limit {
        Limit::Packages => "packages",
        Limit::Grants => "grants",
        Limit::Links => "links",
        Limit::Registered => "registered",
        Limit::Broadcasts => "broadcasts",
        Limit::Receivers => "receivers",
        Limit::Pending => "pending",
        Limit::Holders => "holders",
        Limit::Extras => "extras",
        Limit::Tasks => "tasks",
        Limit::Activities => "activities",
        Limit::Services => "services",
        Limit::Moment => "moment",
    }
}

/// The name of a rule. Takes no memory.
pub fn rule_name(rule: &Rule) -> &'static str
    ensures { result.now ≡ rule_name rule.now }
{
    match rule {
        Rule::UnknownKey => "unknown_key",
        Rule::HistoryFull => "history_full",
        Rule::AdminOnly => "admin_only",
        Rule::NoPackage => "no_package",
        Rule::NoComponent => "no_component",
        Rule::NoActivity => "no_activity",
        Rule::NoInstance => "no_instance",
        Rule::NoDelivery => "no_delivery",
        Rule::NoToken => "no_token",
        Rule::NoService => "no_service",
        Rule::NoReceiver => "no_receiver",
        Rule::NotExported => "not_exported",
        Rule::NeedsPermission(_) => "needs_permission",
        Rule::ProtectedAction => "protected_action",
        Rule::NotYours => "not_yours",
        Rule::NotHolder => "not_holder",
        Rule::NotCreator => "not_creator",
        Rule::ImplicitService => "implicit_service",
        Rule::NeedsNewTask => "needs_new_task",
        Rule::Mutability => "mutability",
        Rule::NotOrdered => "not_ordered",
        Rule::Installed => "installed",
        Rule::Canceled => "canceled",
        Rule::OverLimit(_) => "over_limit",
        Rule::BadManifest(_) => "bad_manifest",
        Rule::KeeperFault => "keeper_fault",
        Rule::RegisteredOnly => "registered_only",
        Rule::ManifestImplicit => "manifest_implicit",
        Rule::StoppedPackage => "stopped_package",
        Rule::ReceiverLacks(_) => "receiver_lacks",
    }
}

/// The status of a refusal. Takes no memory.
///
/// `RegisteredOnly`, `ManifestImplicit`, `StoppedPackage` and `ReceiverLacks` tell why a receiver is
/// skipped, and never refuse a request; their 403 is never sent.
pub(crate) fn rule_status(rule: &Rule) -> u16
    ensures { result ≡ rule_status rule.now }
{
    match rule {
        Rule::ImplicitService | Rule::NeedsNewTask | Rule::Mutability | Rule::NotOrdered => 400,
        Rule::UnknownKey => 401,
        Rule::AdminOnly
        | Rule::NotExported
        | Rule::NeedsPermission(_)
        | Rule::ProtectedAction
        | Rule::NotYours
        | Rule::NotHolder
        | Rule::NotCreator
        | Rule::RegisteredOnly
        | Rule::ManifestImplicit
        | Rule::StoppedPackage
        | Rule::ReceiverLacks(_) => 403,
        Rule::NoPackage
        | Rule::NoComponent
        | Rule::NoActivity
        | Rule::NoInstance
        | Rule::NoDelivery
        | Rule::NoToken
        | Rule::NoService
        | Rule::NoReceiver => 404,
        Rule::Installed => 409,
        Rule::Canceled => 410,
        Rule::BadManifest(_) => 422,
        Rule::HistoryFull | Rule::OverLimit(_) => 429,
        Rule::KeeperFault => 503,
    }
}
