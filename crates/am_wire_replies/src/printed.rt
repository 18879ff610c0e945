//! What is printed as a JSON value: alone, in an array, or under a name.
ghost use Rattle.std.specs.Prelude.{◌≡◌, ◌++◌, OnOk, map, option_map};
ghost use Rattle.serde_json.specs.Data.{Data, Members, boolean, member, no_members, object, string};
ghost use Rattle.am_wire_replies.specs.Printing.{tokens_of, tokens_of_items, tokens_of_members};
ghost use Rattle.am_wire_values.specs.Fields.{listed, natural, or_null, whole};

use crate::printer::Printer;
use am_types::{List, Text};
use std::alloc::AllocError;

/// What is printed as a JSON value.
pub(crate) trait Printed {
    ghost as_data: { Self → Data };

    /// Writes the value.
    fn print(&self, to: &mut Printer) -> Result<(), AllocError>
        ensures { OnOk result (to.new ≡ to.old ++ tokens_of (as_data self.now)) };
}

impl Printed for bool {
    ghost as_data = { boolean };

    fn print(&self, to: &mut Printer) -> Result<(), AllocError> {
        to.truth(*self)
    }
}

impl Printed for u32 {
    ghost as_data = { natural };

    fn print(&self, to: &mut Printer) -> Result<(), AllocError> {
        to.natural(u64::from(*self))
    }
}

impl Printed for u64 {
    ghost as_data = { natural };

    fn print(&self, to: &mut Printer) -> Result<(), AllocError> {
        to.natural(*self)
    }
}

impl Printed for i64 {
    ghost as_data = { whole };

    #[tactic(auto, using(crate::proofs::Tokens::whole_text))]
    fn print(&self, to: &mut Printer) -> Result<(), AllocError> {
        to.integer(*self)
    }
}

impl Printed for &str {
    ghost as_data = { λ word. string word.now };

    fn print(&self, to: &mut Printer) -> Result<(), AllocError> {
        to.text(*self)
    }
}

impl Printed for Text {
    ghost as_data = { string };

    fn print(&self, to: &mut Printer) -> Result<(), AllocError> {
        to.text(self.as_str())
    }
}

/// The value, or `null` if there is none.
impl<T: Printed> Printed for Option<T> {
    ghost as_data = { λ shown. or_null (option_map T.as_data shown) };

    fn print(&self, to: &mut Printer) -> Result<(), AllocError> {
        match self {
            None => to.null(),
            Some(shown) => shown.print(to),
        }
    }
}

/// An array.
impl<T: Printed> Printed for List<T> {
    ghost as_data = { λ items. listed (map T.as_data items) };

    fn print(&self, to: &mut Printer) -> Result<(), AllocError> {
        to.begin_array()?;
        print_each(to, self.as_slice())
    }
}

/// Writes the items of an array, and the bracket that closes it.
fn print_each<T: Printed>(to: &mut Printer, shown: &[T]) -> Result<(), AllocError>
    ensures { OnOk result (to.new ≡ to.old ++ tokens_of_items (map T.as_data shown.now)) }
{
    for one in shown {
        one.print(to)?;
    }
    to.end_array()
}

/// Fields of an object: the name of the first one, what is printed under it, and the others.
pub(crate) trait Fields {
    ghost members: { Self → Members };

    /// Writes the fields, and the bracket that closes the object.
    fn print_last(&self, to: &mut Printer) -> Result<(), AllocError>
        ensures { OnOk result (to.new ≡ to.old ++ tokens_of_members (members self.now)) };
}

impl Fields for () {
    ghost members = { λ none. no_members };

    fn print_last(&self, to: &mut Printer) -> Result<(), AllocError> {
        to.end_object()
    }
}

impl<T: Printed, F: Fields> Fields for (&str, &T, F) {
    ghost members = { λ fields. member fields.0.now (T.as_data fields.1.now) (F.members fields.2) };

    fn print_last(&self, to: &mut Printer) -> Result<(), AllocError> {
        to.name(self.0)?;
        self.1.print(to)?;
        self.2.print_last(to)
    }
}

/// Fields, each with its name.
macro_rules! fields {
    () => { () };
    ($name:expr => $shown:expr $(, $names:expr => $others:expr)*) => {
        ($name, $shown, $crate::printed::fields!($($names => $others),*))
    };
}

pub(crate) use fields;

/// Writes an object with these fields.
pub(crate) fn print_fields<F: Fields>(to: &mut Printer, fields: &F) -> Result<(), AllocError>
    ensures { OnOk result (to.new ≡ to.old ++ tokens_of (object (F.members fields.now))) }
{
    to.begin_object()?;
    fields.print_last(to)
}

/// Writes an object with fields, each with its name.
macro_rules! print_object {
    ($to:expr, $($fields:tt)*) => { $crate::printed::print_fields($to, &$crate::printed::fields!($($fields)*)) };
}

pub(crate) use print_object;
