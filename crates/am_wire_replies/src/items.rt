//! Items of an inbox.
ghost use Rattle.am_wire_values.specs.Intents.{extras_data};
ghost use Rattle.am_wire_values.specs.Replies.{waiting_data};

use crate::printed::{Printed, print_object};
use crate::printer::Printer;
use crate::trees::print_tree;
use am_types::{Item, ItemKind, List, Named};
use am_wire_values::extras_value;
use std::alloc::AllocError;

/// Extras, as an object.
#[derive(Drop)]
struct Extras<'a>(&'a List<Named>);

impl Printed for Extras<'_> {
    ghost as_data = { λ extras. extras_data extras.0.now };

    #[tactic(auto, using(am_wire_values::proofs::Floats::extras_none))]
    fn print(&self, to: &mut Printer) -> Result<(), AllocError> {
        let value = extras_value(to.alloc(), self.0)?;
        print_tree(to, &value)
    }
}

/// An item of an inbox. A delivery of an ordered broadcast has the result so far.
impl Printed for Item {
    ghost as_data = { waiting_data };

    fn print(&self, to: &mut Printer) -> Result<(), AllocError> {
        match &self.what {
            ItemKind::Normal { aim, intent } => print_object!(
                to,
                "broadcast" => &self.broadcast,
                "delivery" => &self.delivery,
                "intent" => intent,
                "ordered" => &false,
                "to" => aim
            ),
            ItemKind::InOrder {
                aim,
                intent,
                outcome,
            } => print_object!(
                to,
                "broadcast" => &self.broadcast,
                "code" => &outcome.code,
                "data" => &outcome.text,
                "delivery" => &self.delivery,
                "extras" => &Extras(&outcome.extras),
                "intent" => intent,
                "ordered" => &true,
                "to" => aim
            ),
            ItemKind::Final { outcome } => print_object!(
                to,
                "code" => &outcome.code,
                "data" => &outcome.text,
                "delivery" => &self.delivery,
                "extras" => &Extras(&outcome.extras),
                "result" => &self.broadcast
            ),
        }
    }
}
