//! Components, tasks, services and receivers in replies.
ghost use Rattle.std.specs.Prelude.{◌≡◌, ◌++◌, OnOk};
ghost use Rattle.serde_json.specs.Data.{object};
ghost use Rattle.am_wire_replies.specs.Printing.{tokens_of};
ghost use Rattle.am_wire_values.specs.Intents.{component_data, intent_data};
ghost use Rattle.am_wire_values.specs.Replies.{aim_data, instance_data, judged, landed_data, receiving_data, service_data, skipped_data, task_data};
ghost use Rattle.am_wire_values.specs.Rules.{named_by, rule_name};

use crate::printed::{Printed, print_object};
use crate::printer::Printer;
use crate::trees::print_tree;
use am_types::{
    Aim, Component, InstanceView, Intent, Landed, Receiving, Rule, ServiceView, TaskView,
};
use am_wire_values::{intent_value, named_by, rule_name};
use std::alloc::AllocError;

/// A component: package/class.
impl Printed for Component {
    ghost as_data = { component_data };

    fn print(&self, to: &mut Printer) -> Result<(), AllocError> {
        to.slashed(self.package.as_str(), self.class.as_str())
    }
}

impl Printed for Intent {
    ghost as_data = { intent_data };

    #[tactic(auto, using(am_wire_values::proofs::Floats::intent_none))]
    fn print(&self, to: &mut Printer) -> Result<(), AllocError> {
        let value = intent_value(to.alloc(), self)?;
        print_tree(to, &value)
    }
}

/// Where a start ended up.
impl Printed for Landed {
    ghost as_data = { landed_data };

    fn print(&self, to: &mut Printer) -> Result<(), AllocError> {
        print_object!(to, "instance" => &self.instance, "placed" => &self.how, "task" => &self.task)
    }
}

impl Printed for InstanceView {
    ghost as_data = { instance_data };

    fn print(&self, to: &mut Printer) -> Result<(), AllocError> {
        print_object!(to, "component" => &self.component, "instance" => &self.instance, "intent" => &self.intent)
    }
}

impl Printed for TaskView {
    ghost as_data = { task_data };

    fn print(&self, to: &mut Printer) -> Result<(), AllocError> {
        print_object!(to, "instances" => &self.instances, "task" => &self.task)
    }
}

impl Printed for ServiceView {
    ghost as_data = { service_data };

    fn print(&self, to: &mut Printer) -> Result<(), AllocError> {
        print_object!(to, "component" => &self.component, "intent" => &self.intent, "starts" => &self.starts)
    }
}

/// A receiver: a component, or the number of a registered one.
impl Printed for Aim {
    ghost as_data = { aim_data };

    fn print(&self, to: &mut Printer) -> Result<(), AllocError> {
        match self {
            Aim::Declared(component) => component.print(to),
            Aim::Registered(number) => number.print(to),
        }
    }
}

/// Writes a receiver with the verdict on it.
pub(crate) fn print_verdict(to: &mut Printer, aim: &Aim, verdict: &str) -> Result<(), AllocError>
    ensures { OnOk result (to.new ≡ to.old ++ tokens_of (object (judged aim.now verdict.now))) }
{
    print_object!(to, "to" => aim, "verdict" => &verdict)
}

/// Writes a receiver that was left out by a rule.
pub(crate) fn print_skipped(to: &mut Printer, aim: &Aim, rule: &Rule) -> Result<(), AllocError>
    ensures { OnOk result (to.new ≡ to.old
        ++ tokens_of (skipped_data aim.now (rule_name rule.now) (named_by rule.now))) }
{
    let verdict = rule_name(rule);
    match named_by(to.alloc(), rule)? {
        None => print_verdict(to, aim, verdict),
        Some(name) => {
            let name = name.as_str();
            print_object!(to, "name" => &name, "to" => aim, "verdict" => &verdict)
        }
    }
}

/// A receiver with what became of it.
impl Printed for Receiving {
    ghost as_data = { receiving_data };

    fn print(&self, to: &mut Printer) -> Result<(), AllocError> {
        match &self.skip {
            None => print_verdict(to, &self.aim, "admitted"),
            Some(rule) => print_skipped(to, &self.aim, rule),
        }
    }
}
