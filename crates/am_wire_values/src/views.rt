//! What replies show: tasks, services, receivers, items and stored calls.
ghost use Rattle.std.specs.Prelude.{◌≡◌, IfOk, OnOk, codes, map, option_map};
ghost use Rattle.serde_json.specs.Data.{object, no_members, string, put as with_member};
ghost use Rattle.serde_json.specs.View.{view, members_view};
ghost use Rattle.am_types.specs.declared.broadcast.ItemKind.TheVariants.{Normal, InOrder, Final};
ghost use Rattle.am_wire_values.specs.Fields.{natural, or_null, whole};
ghost use Rattle.am_wire_values.specs.Intents.{extras_data};
ghost use Rattle.am_wire_values.specs.Replies.{aim_data, entries_data, entry_data, instance_data, item_data, judged, landed_data, number_after, receiving_data, service_data, skipped_data, task_data, waiting_data};
ghost use Rattle.am_wire_values.specs.Rules.{named_by, rule_name};

use crate::as_value::{AsValue, object_of, object_with, put_shown};
use crate::fields::{Members, put_word};
use crate::intents::extras_value;
use crate::names::placed_name;
use crate::rules::{named_by, rule_name};
use am_types::{
    Aim, Entry, InstanceView, Intent, Item, ItemKind, Landed, Outcome, Receiving, Rule,
    ServiceView, TaskView,
};
use am_wire_routes::endpoint_of;
use serde_json::{Map, Value, put};
use std::alloc::{AllocError, Global};

/// Puts where a start ended up.
pub(crate) fn put_landed(
    alloc: Global,
    members: &mut Members,
    landed: Landed,
) -> Result<(), AllocError>
    requires { members_view members.old.entries ≡ no_members }
    ensures { OnOk result (object (members_view members.new.entries) ≡ landed_data landed) }
{
    put_shown(alloc, members, "instance", &landed.instance)?;
    put_word(alloc, members, "placed", placed_name(landed.how))?;
    put_shown(alloc, members, "task", &landed.task)
}

impl AsValue for InstanceView {
    ghost as_data = { instance_data };

    fn value(&self, alloc: Global) -> Result<Value, AllocError> {
        object_of!(alloc, "component" => &self.component, "instance" => &self.instance, "intent" => &self.intent)
    }
}

impl AsValue for TaskView {
    ghost as_data = { task_data };

    fn value(&self, alloc: Global) -> Result<Value, AllocError> {
        object_of!(alloc, "instances" => &self.instances, "task" => &self.task)
    }
}

impl AsValue for ServiceView {
    ghost as_data = { service_data };

    fn value(&self, alloc: Global) -> Result<Value, AllocError> {
        object_of!(alloc, "component" => &self.component, "intent" => &self.intent, "starts" => &self.starts)
    }
}

/// A receiver: a component, or the number of a registered one.
impl AsValue for Aim {
    ghost as_data = { aim_data };

    fn value(&self, alloc: Global) -> Result<Value, AllocError> {
        match self {
            Aim::Declared(component) => component.value(alloc),
            Aim::Registered(number) => number.value(alloc),
        }
    }
}

/// A receiver with the verdict on it.
pub(crate) fn verdict_value(alloc: Global, aim: &Aim, verdict: &str) -> Result<Value, AllocError>
    ensures { IfOk result (λ value. view value ≡ object (judged aim.now verdict.now)) }
{
    object_with!(
        alloc,
        |members| put_judged(alloc, &mut members, aim, verdict)
    )
}

/// Puts what the verdict is on, and the verdict.
pub(crate) fn put_judged(
    alloc: Global,
    members: &mut Members,
    aim: &Aim,
    verdict: &str,
) -> Result<(), AllocError>
    ensures { OnOk result (members_view members.new.entries
        ≡ with_member (codes "verdict") (string verdict.now)
        (with_member (codes "to") (aim_data aim.now) (members_view members.old.entries))) }
{
    put_shown(alloc, members, "to", aim)?;
    put_word(alloc, members, "verdict", verdict)
}

/// A receiver that was left out by a rule.
pub(crate) fn skipped_value(alloc: Global, aim: &Aim, rule: &Rule) -> Result<Value, AllocError>
    ensures { IfOk result (λ value. view value ≡ skipped_data aim.now (rule_name rule.now) (named_by rule.now)) }
{
    object_with!(alloc, |members| put_skipped(alloc, &mut members, aim, rule))
}

/// Puts which receiver was left out, by which rule, and what the rule names.
fn put_skipped(
    alloc: Global,
    members: &mut Members,
    aim: &Aim,
    rule: &Rule,
) -> Result<(), AllocError>
    requires { members_view members.old.entries ≡ no_members }
    ensures { OnOk result (object (members_view members.new.entries)
        ≡ skipped_data aim.now (rule_name rule.now) (named_by rule.now)) }
{
    match named_by(alloc, rule)? {
        None => put_judged(alloc, members, aim, rule_name(rule)),
        Some(name) => {
            put(members, alloc, "name", Value::String(name))?;
            put_judged(alloc, members, aim, rule_name(rule))
        }
    }
}

/// A receiver with what became of it.
impl AsValue for Receiving {
    ghost as_data = { receiving_data };

    fn value(&self, alloc: Global) -> Result<Value, AllocError> {
        match &self.skip {
            None => verdict_value(alloc, &self.aim, "admitted"),
            Some(rule) => skipped_value(alloc, &self.aim, rule),
        }
    }
}

/// A delivery of a normal broadcast.
fn normal_value(alloc: Global, item: &Item, aim: &Aim, intent: &Intent) -> Result<Value, AllocError>
    ensures { IfOk result (λ value. view value ≡ item_data item.now.broadcast item.now.delivery
        (Normal aim.now intent.now)) }
{
    object_of!(
        alloc,
        "broadcast" => &item.broadcast,
        "delivery" => &item.delivery,
        "intent" => intent,
        "ordered" => &false,
        "to" => aim
    )
}

/// A delivery of an ordered broadcast, with the result so far.
fn ordered_value(
    alloc: Global,
    item: &Item,
    aim: &Aim,
    intent: &Intent,
    outcome: &Outcome,
) -> Result<Value, AllocError>
    ensures { IfOk result (λ value. view value ≡ item_data item.now.broadcast item.now.delivery
        (InOrder aim.now intent.now outcome.now)) }
{
    let mut members = Map::new(alloc);
    put_shown(alloc, &mut members, "broadcast", &item.broadcast)?;
    put_outcome(alloc, &mut members, item, outcome)?;
    put_shown(alloc, &mut members, "intent", intent)?;
    put_shown(alloc, &mut members, "ordered", &true)?;
    put_shown(alloc, &mut members, "to", aim)?;
    Ok(Value::Object(members))
}

/// Puts the result of an ordered broadcast so far.
fn put_outcome(
    alloc: Global,
    members: &mut Members,
    item: &Item,
    outcome: &Outcome,
) -> Result<(), AllocError>
    ensures { OnOk result (members_view members.new.entries
        ≡ with_member (codes "extras") (extras_data outcome.now.extras)
        (with_member (codes "delivery") (natural item.now.delivery)
        (with_member (codes "data") (or_null (option_map string outcome.now.text))
        (with_member (codes "code") (whole outcome.now.code) (members_view members.old.entries))))) }
{
    put_shown(alloc, members, "code", &outcome.code)?;
    put_shown(alloc, members, "data", &outcome.text)?;
    put_shown(alloc, members, "delivery", &item.delivery)?;
    let extras = extras_value(alloc, &outcome.extras)?;
    put(members, alloc, "extras", extras)
}

/// The result of an ordered broadcast, for its sender.
fn final_value(alloc: Global, item: &Item, outcome: &Outcome) -> Result<Value, AllocError>
    ensures { IfOk result (λ value. view value ≡ item_data item.now.broadcast item.now.delivery (Final outcome.now)) }
{
    let mut members = Map::new(alloc);
    put_outcome(alloc, &mut members, item, outcome)?;
    put_shown(alloc, &mut members, "result", &item.broadcast)?;
    Ok(Value::Object(members))
}

/// An item of an inbox.
impl AsValue for Item {
    ghost as_data = { waiting_data };

    fn value(&self, alloc: Global) -> Result<Value, AllocError> {
        match &self.what {
            ItemKind::Normal { aim, intent } => normal_value(alloc, self, aim, intent),
            ItemKind::InOrder {
                aim,
                intent,
                outcome,
            } => ordered_value(alloc, self, aim, intent, outcome),
            ItemKind::Final { outcome } => final_value(alloc, self, outcome),
        }
    }
}

/// The number of the stored call after this one; the greatest 64-bit number stays.
#[tactic(auto, unfolding(crate::specs::Replies::number_after))]
pub fn number_after(at: u64) -> u64
    ensures { result ≡ number_after at }
{
    if at < u64::MAX { at + 1 } else { at }
}

/// A stored call with its number.
#[tactic(auto, unfolding(crate::specs::Replies::entry_data))]
fn entry_value(alloc: Global, at: u64, call: &Entry) -> Result<Value, AllocError>
    ensures { IfOk result (λ value. view value ≡ entry_data at call.entry.now) }
{
    let mut members = Map::new(alloc);
    put_shown(alloc, &mut members, "at", &at)?;
    put_shown(alloc, &mut members, "desk", &call.desk)?;
    put_shown(alloc, &mut members, "kept", &call.kept)?;
    put_shown(alloc, &mut members, "now", &call.now)?;
    put_shown(alloc, &mut members, "request", &call.request)?;
    put_word(
        alloc,
        &mut members,
        "route",
        endpoint_of(&call.request).path(),
    )?;
    put_shown(alloc, &mut members, "uid", &call.uid)?;
    put_shown(alloc, &mut members, "weight", &call.weight)?;
    Ok(Value::Object(members))
}

/// Stored calls that follow each other, each as a value.
pub(crate) fn entry_values(
    alloc: Global,
    from: u64,
    entries: &[Entry],
) -> Result<Vec<Value>, AllocError>
    ensures { IfOk result (λ values. map view values.items ≡ entries_data from entries.now) }
{
    let mut values = Vec::new(alloc);
    let mut at = from;
    for entry in entries {
        values.push(entry_value(alloc, at, entry)?)?;
        at = number_after(at);
    }
    Ok(values)
}
