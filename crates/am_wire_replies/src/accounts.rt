//! What an intent would reach, and why it doesn't reach the others.
ghost use Rattle.am_wire_values.specs.Replies.{account_data};

use crate::printed::{Printed, print_object};
use crate::printer::Printer;
use crate::views::{print_skipped, print_verdict};
use am_types::{Account, Standing};
use std::alloc::AllocError;

/// A component or a registered receiver with its standing.
impl Printed for Account {
    ghost as_data = { account_data };

    fn print(&self, to: &mut Printer) -> Result<(), AllocError> {
        let aim = &self.to;
        match &self.standing {
            Standing::OtherComponent => print_verdict(to, aim, "other_component"),
            Standing::OtherPackage => print_verdict(to, aim, "other_package"),
            Standing::Disabled => print_verdict(to, aim, "disabled"),
            Standing::Filters(reasons) => {
                print_object!(to, "reasons" => reasons, "to" => aim, "verdict" => &"filters")
            }
            Standing::Narrowed(by) => {
                print_object!(to, "by" => by, "to" => aim, "verdict" => &"narrowed")
            }
            Standing::Outranked => print_verdict(to, aim, "outranked"),
            Standing::Tied => print_verdict(to, aim, "tied"),
            Standing::Refused(rule) => print_skipped(to, aim, rule),
            Standing::Reached => print_verdict(to, aim, "reached"),
        }
    }
}
