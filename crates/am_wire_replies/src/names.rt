//! What is printed as one word.
ghost use Rattle.serde_json.specs.Data.{string};
ghost use Rattle.am_wire_values.specs.Names.{narrowing_name, placed_name};
ghost use Rattle.am_wire_values.specs.Replies.{reason_data};

use crate::printed::Printed;
use crate::printer::Printer;
use am_types::{Narrowing, Placed, Why};
use am_wire_values::{narrowing_name, placed_name, why_name};
use std::alloc::AllocError;

/// Why a filter doesn't pass.
impl Printed for Why {
    ghost as_data = { reason_data };

    fn print(&self, to: &mut Printer) -> Result<(), AllocError> {
        to.text(why_name(*self))
    }
}

/// What the activities that open a web intent are narrowed to.
impl Printed for Narrowing {
    ghost as_data = { λ by. string (narrowing_name by) };

    fn print(&self, to: &mut Printer) -> Result<(), AllocError> {
        to.text(narrowing_name(*self))
    }
}

/// What a start did.
impl Printed for Placed {
    ghost as_data = { λ how. string (placed_name how) };

    fn print(&self, to: &mut Printer) -> Result<(), AllocError> {
        to.text(placed_name(*self))
    }
}
