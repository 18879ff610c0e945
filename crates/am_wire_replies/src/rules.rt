//! Refusals.
ghost use Rattle.std.specs.Prelude.{◌≡◌, ◌++◌, IfOk, OnOk, string_bytes};
ghost use Rattle.std.specs.Option.{option_copied};
ghost use Rattle.serde_json.specs.Written.{compact_text};
ghost use Rattle.am_wire_replies.specs.Printing.{tokens_of};
ghost use Rattle.am_wire_values.specs.Rules.{error_data, refusal_data};

use crate::printed::print_object;
use crate::printer::Printer;
use am_types::Rule;
use am_wire_values::{named_by, rule_name};
use std::alloc::{AllocError, Global};

/// The compact text of an error, with a name if there is one.
#[tactic(auto, using(crate::proofs::Tokens::compact_print))]
pub fn error_text(alloc: Global, error: &str, name: Option<&str>) -> Result<String, AllocError>
    ensures { IfOk result (λ text. string_bytes text
        ≡ compact_text (error_data error.now (option_copied name.entry))) }
{
    let mut to = Printer::new(alloc)?;
    print_error(&mut to, error, name)?;
    Ok(to.into_text())
}

/// Writes a refusal: its name, and what it names.
pub(crate) fn print_refusal(to: &mut Printer, rule: &Rule) -> Result<(), AllocError>
    ensures { OnOk result (to.new ≡ to.old ++ tokens_of (refusal_data rule.now)) }
{
    match named_by(to.alloc(), rule)? {
        None => print_error(to, rule_name(rule), None),
        Some(name) => print_error(to, rule_name(rule), Some(name.as_str())),
    }
}

/// Writes an error, with a name if there is one.
fn print_error(to: &mut Printer, error: &str, name: Option<&str>) -> Result<(), AllocError>
    ensures { OnOk result (to.new ≡ to.old
        ++ tokens_of (error_data error.now (option_copied name.entry))) }
{
    match name {
        None => print_object!(to, "error" => &error),
        Some(name) => print_object!(to, "error" => &error, "name" => &name),
    }
}
