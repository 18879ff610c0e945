//! A text as a phone reads it: the units of its UTF-16 form, one after the other.
ghost use Rattle.std.specs.Prelude.{◌≡◌, ◌∷◌, ◌<◌, ◌&&◌, [], IfSome, List as Items, MatchOption, length};
ghost use Rattle.am_model.specs.Paths.{Piece, One, Run, UpTo, fits, is_end, past_run, units};
ghost use Rattle.am_uri.specs.PathPieces.{IsText, starts_with, units_of};

use std::str::EncodeUtf16;

/// A dot, which stands for any unit.
const DOT: u16 = 46;

/// The units of a text that are left.
#[derive(Drop)]
pub(crate) struct Units<'a> {
    first: Option<u16>,
    others: EncodeUtf16<'a>,
}

impl<'a> Units<'a> {
    /// All units of the text.
    pub(crate) fn of(text: &'a str) -> Units<'a>
        ensures text { IsText result }
        ensures units { units_of result ≡ units text.now }
    {
        let mut others = text.encode_utf16();
        let first = others.next();
        Units { first, others }
    }

    /// Takes a unit off the front.
    pub(crate) fn next(&mut self) -> Option<u16>
        requires { IsText self.old }
        ensures text { IsText self.new }
        ensures unit { MatchOption result ((units_of self.old ≡ []) × (units_of self.new ≡ []))
            (λ unit. units_of self.old ≡ unit ∷ units_of self.new) }
        ensures shorter { IfSome result (λ unit. length (units_of self.new) < length (units_of self.old)) }
    {
        let unit = self.first?;
        self.first = self.others.next();
        Some(unit)
    }

    /// None is left.
    pub(crate) fn is_empty(&self) -> bool
        ensures { result ≡ is_end (units_of self.now) }
    {
        self.first.is_none()
    }

    /// This unit comes next.
    pub(crate) fn starts_with(&self, unit: u16) -> bool
        ensures { result ≡ starts_with unit (units_of self.now) }
    {
        match self.first {
            None => false,
            Some(first) => first == unit,
        }
    }

    /// Goes on behind the first such unit, if there is one.
    pub(crate) fn skip_past(&mut self, unit: u16) -> bool
        requires { IsText self.old }
        ensures text { IsText self.new }
        ensures skips { (others : Items Piece) →
            fits (UpTo unit ∷ others) (units_of self.old) ≡ (result && fits others (units_of self.new)) }
    {
        while let Some(next) = self.next() {
            if unit == next {
                return true;
            }
        }
        false
    }

    /// Goes on behind as many such units as come next, if any unit comes.
    pub(crate) fn skip_run(&mut self, unit: u16) -> bool
        requires { IsText self.old }
        ensures text { IsText self.new }
        ensures skips { (others : Items Piece) →
            fits (Run unit ∷ others) (units_of self.old) ≡ (result && fits others (units_of self.new)) }
    {
        if self.is_empty() {
            return false;
        }
        self.skip_all(unit);
        true
    }

    fn skip_all(&mut self, unit: u16)
        requires { IsText self.old }
        ensures text { IsText self.new }
        ensures skips { units_of self.new ≡ past_run unit (units_of self.old) }
    {
        while self.starts_with(unit) {
            self.next();
        }
    }

    /// Goes on behind the next unit, if it is this one; a dot is any.
    pub(crate) fn skip_one(&mut self, unit: u16) -> bool
        requires { IsText self.old }
        ensures text { IsText self.new }
        ensures skips { (others : Items Piece) →
            fits (One unit ∷ others) (units_of self.old) ≡ (result && fits others (units_of self.new)) }
    {
        match self.next() {
            None => false,
            Some(next) => unit == DOT || unit == next,
        }
    }
}
