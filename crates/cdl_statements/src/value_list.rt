//! The plain numbers, fill values and plain strings of a list, one after the other.

ghost use Rattle.std.specs.Prelude.{◌≡◌, IfSome, None, false, true};
ghost use Rattle.cdl_statements.specs.code.ListedTokens.{EndsAtScanner, IsAtComma, PassesNumber, PassesString, PassesUnderscore};
ghost use Rattle.cdl_statements.specs.code.ValueLists.{SamePlace, reached};

use crate::cutter::Cutter;
use cdl_tokens::{Numeral, Scanner};

/// Reads the values that come next in a list, from a comma on, as long as each is a plain number (decimal, at most 19 digits, no suffix but
/// `b`, `s` or `l`), a `_`, or a plain string (one without an escape or a line feed).
///
/// Only the scanner moves from value to value. The token of the last comma is made once, when the caller leaves the list by
/// [`cutter`](ValueList::cutter).
#[derive(Clone, Copy)]
pub struct ValueList<'a> {
    /// The cutter at the first comma.
    start: Cutter<'a>,
    /// The scanner after the comma that was read last.
    scanner: Scanner<'a>,
}

impl<'a> ValueList<'a> {
    /// Creates the list of the values after a comma. Needs a `start` that has this comma as its next token, and whose scanner stands just
    /// after the comma.
    #[inline(always)]
    pub fn new(start: Cutter<'a>) -> ValueList<'a>
        requires { EndsAtScanner start }
        ensures { SamePlace (reached result) start.entry }
    {
        ValueList {
            start,
            scanner: start.scanner(),
        }
    }

    /// If a plain number (decimal, at most 19 digits, no suffix but `b`, `s` or `l`) and a comma come next, with only white space before
    /// each, passes both and returns the number. Otherwise returns `None` (no clause says when), and the list stays where it is. Needs a
    /// list that began at a comma inside of a statement. Does not allocate.
    #[inline(always)]
    pub fn number_and_comma(&mut self) -> Option<Numeral>
        requires { IsAtComma (reached self.old) }
        ensures passes { IfSome result (λ n. PassesNumber (reached self.old) (reached self.new) n) }
        ensures stays { result ≡ None → self.new ≡ self.old }
    {
        let listed = self.scanner.number_and_comma()?;
        Some(listed.numeral)
    }

    /// If a `_` and a comma come next, with only white space before each, passes both and returns true. Otherwise returns false (no clause
    /// says when), and the list stays where it is. Needs a list that began at a comma inside of a statement. Does not allocate.
    #[inline(always)]
    pub fn underscore_and_comma(&mut self) -> bool
        requires { IsAtComma (reached self.old) }
        ensures passes { result ≡ true → PassesUnderscore (reached self.old) (reached self.new) }
        ensures stays { result ≡ false → self.new ≡ self.old }
    {
        match self.scanner.underscore_and_comma() {
            Some(_) => true,
            None => false,
        }
    }

    /// If a string without an escape or a line feed and a comma come next, with only white space before each, passes both and returns the
    /// bytes between the string's quotes. Otherwise returns `None`, and the list stays where it is. Needs a list that began at a comma
    /// inside of a statement. Does not allocate.
    #[inline(always)]
    pub fn string_and_comma(&mut self) -> Option<&'a [u8]>
        requires { IsAtComma (reached self.old) }
        ensures passes { IfSome result (λ bytes.
            PassesString (reached self.old) (reached self.new) bytes.now) }
        ensures stays { result ≡ None → self.new ≡ self.old }
    {
        let text = self.scanner.text();
        let listed = self.scanner.string_and_comma()?;
        Some(&text[listed.token.first + 1..listed.token.past - 1])
    }

    /// Returns the cutter at the comma that was read last, or at the first comma if no value was read. Needs a list that began at a comma
    /// inside of a statement.
    #[inline(always)]
    pub fn cutter(self) -> Cutter<'a>
        requires { IsAtComma (reached self) }
        ensures { SamePlace result (reached self.entry) }
    {
        let mut cutter = self.start;
        cutter.move_to_comma(self.scanner.comma_before(), self.scanner);
        cutter
    }
}
