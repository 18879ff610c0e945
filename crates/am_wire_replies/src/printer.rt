//! A text that is written token by token.
ghost use Rattle.std.specs.Prelude.{◌≡◌, ◌++◌, ◌∷◌, [], IfOk, OnOk, codes, string_bytes};
ghost use Rattle.std.specs.Fmt.{signed_decimal};
ghost use Rattle.json.specs.Print.{print};
ghost use Rattle.json.specs.Token.{begin_array, begin_object, end_array, end_object, key, number as number_token};
ghost use Rattle.serde_json.specs.Data.{boolean, null, number as number_data, string, unsigned};
ghost use Rattle.am_wire_replies.specs.Printing.{tokens_of};

use json::{Token, Writer};
use std::alloc::{AllocError, Global};
use std::marker::Model;

/// A JSON text that is being written: its tokens so far. The writer places commas and colons, and escapes texts.
#[derive(Drop)]
pub(crate) struct Printer {
    out: Writer,
    // Room for a text of two parts.
    room: String,
    alloc: Global,
}

impl Model for Printer {
    ghost use Rattle.std.specs.Prelude.{◌≡◌, List, []};
    ghost use Rattle.json.specs.Token.{Token as SpecToken, tokens_code};

    ghost Value = { List SpecToken };

    ghost coded = { tokens_code };

    ghost view = { λ printer. printer.out.tokens };

    ghost invariant = { λ printer. printer.out.before ≡ [] };
}

impl Printer {
    /// No text yet.
    pub(crate) fn new(alloc: Global) -> Result<Self, AllocError>
        ensures { IfOk result (λ printer. printer ≡ []) }
    {
        Ok(Printer {
            out: Writer::new(Vec::with_capacity(alloc, 128)?),
            room: String::new(alloc),
            alloc,
        })
    }

    /// Where memory for what is printed comes from.
    pub(crate) fn alloc(&self) -> Global {
        self.alloc
    }

    /// The text.
    pub(crate) fn into_text(self) -> String
        ensures { string_bytes result ≡ print self }
    {
        match String::from_utf8(self.out.into_inner()) {
            Ok(text) => text,
            Err(_) => unreachable!(),
        }
    }

    /// The bracket that opens an object.
    pub(crate) fn begin_object(&mut self) -> Result<(), AllocError>
        ensures { OnOk result (self.new ≡ self.old ++ begin_object ∷ []) }
    {
        self.out.begin_object()
    }

    /// The bracket that closes an object.
    pub(crate) fn end_object(&mut self) -> Result<(), AllocError>
        ensures { OnOk result (self.new ≡ self.old ++ end_object ∷ []) }
    {
        self.out.end_object()
    }

    /// The bracket that opens an array.
    pub(crate) fn begin_array(&mut self) -> Result<(), AllocError>
        ensures { OnOk result (self.new ≡ self.old ++ begin_array ∷ []) }
    {
        self.out.begin_array()
    }

    /// The bracket that closes an array.
    pub(crate) fn end_array(&mut self) -> Result<(), AllocError>
        ensures { OnOk result (self.new ≡ self.old ++ end_array ∷ []) }
    {
        self.out.end_array()
    }

    /// The name of a field.
    pub(crate) fn name(&mut self, name: &str) -> Result<(), AllocError>
        ensures { OnOk result (self.new ≡ self.old ++ key name.now ∷ []) }
    {
        self.out.key(name)
    }

    /// A text.
    pub(crate) fn text(&mut self, text: &str) -> Result<(), AllocError>
        ensures { OnOk result (self.new ≡ self.old ++ tokens_of (string text.now)) }
    {
        self.out.string(text)
    }

    /// Two texts with a slash between them, as one.
    pub(crate) fn slashed(&mut self, first: &str, second: &str) -> Result<(), AllocError>
        ensures { OnOk result (self.new ≡ self.old ++ tokens_of (string (first.now ++ codes "/" ++ second.now))) }
    {
        self.room.clear();
        self.room.push_str(first)?;
        self.room.push_str("/")?;
        self.room.push_str(second)?;
        self.out.string(self.room.as_str())
    }

    /// A number from 0 on.
    pub(crate) fn natural(&mut self, number: u64) -> Result<(), AllocError>
        ensures { OnOk result (self.new ≡ self.old ++ tokens_of (number_data (unsigned number))) }
    {
        self.out.u64(number)
    }

    /// A number that may be negative.
    pub(crate) fn integer(&mut self, number: i64) -> Result<(), AllocError>
        ensures { OnOk result (self.new ≡ self.old ++ number_token (signed_decimal number) ∷ []) }
    {
        self.out.i64(number)
    }

    /// A boolean.
    pub(crate) fn truth(&mut self, truth: bool) -> Result<(), AllocError>
        ensures { OnOk result (self.new ≡ self.old ++ tokens_of (boolean truth)) }
    {
        self.out.token(Token::Bool(truth))
    }

    /// `null`.
    pub(crate) fn null(&mut self) -> Result<(), AllocError>
        ensures { OnOk result (self.new ≡ self.old ++ tokens_of null) }
    {
        self.out.token(Token::Null)
    }
}
