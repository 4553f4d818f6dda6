//! The fill value that prints as `_`, and which numbers equal it.

ghost use Rattle.std.specs.Prelude.{◌≡◌, ◌↔◌, IfSome, IsSome, FitsSigned};
ghost use Rattle.std.specs.Int.{w64};
ghost use Rattle.cdl_print.specs.code.Fills.{IsFillBelow100, IsFillOf, IsNarrowFill, prints_as_fill, shows_below_100};
ghost use Rattle.cdl_print.specs.code.Leads.{look_at};

use crate::layout::TextLayout;

/// The fill value of a variable, in the forms in which its numbers are compared with it.
#[derive(Clone, Copy)]
pub struct PrintedFill {
    /// The fill value if it prints as `_` and is from 0 to 99, otherwise 100.
    pub below_100: u64,
    /// The fill value if it prints as `_` and an `i64` can hold it, otherwise `None`.
    pub narrow: Option<i64>,
}

impl PrintedFill {
    /// Returns the fill value of a layout in both forms: for the comparison with numbers from 0 to 99, and with those that an `i64` can
    /// hold.
    pub fn of(layout: &TextLayout<'_>) -> PrintedFill
        ensures { IsFillOf (look_at layout.now) result }
    {
        PrintedFill {
            below_100: fill_below_100(layout),
            narrow: narrow_fill(layout),
        }
    }

    /// Returns true if a number is from 0 to 99 and isn't `below_100`. If [`PrintedFill::of`] made `self`, it then doesn't print as `_`, so
    /// its digits are shown.
    #[inline(always)]
    pub fn shows_below_100(self, number: i128) -> bool
        ensures { result ≡ shows_below_100 self.below_100 number }
    {
        number >= 0 && number < 100 && number as u64 != self.below_100
    }

    /// Returns true if a number prints as `_`, as [`TextLayout::prints_as_fill`] does. It is faster, since it compares 64 bits if an `i64`
    /// can hold the number. Needs a `self` that [`PrintedFill::of`] made of `layout`.
    #[inline(always)]
    pub fn prints(self, layout: &TextLayout<'_>, number: i128) -> bool
        requires { IsFillOf (look_at layout.now) self }
        ensures { result ≡ prints_as_fill (look_at layout.now) number }
    {
        match narrow(number) {
            Some(n) => self.narrow.is_some_and(|fill| fill == n),
            None => layout.prints_as_fill(number),
        }
    }
}

/// Returns the fill value if it prints as `_` and is from 0 to 99, otherwise 100. The clause promises only that no other number from 0 to
/// 99 prints as `_`, and that the result does, if it is one of these.
fn fill_below_100(layout: &TextLayout<'_>) -> u64
    ensures { IsFillBelow100 (look_at layout.now) result }
{
    if layout.prints_fill && layout.fill >= 0 && layout.fill < 100 {
        layout.fill as u64
    } else {
        100
    }
}

/// Returns the fill value if it prints as `_` and an `i64` can hold it, otherwise `None`.
fn narrow_fill(layout: &TextLayout<'_>) -> Option<i64>
    ensures { IsNarrowFill (look_at layout.now) result }
{
    if layout.prints_fill {
        narrow(layout.fill)
    } else {
        None
    }
}

/// Returns the number as an `i64`, or `None` if an `i64` can't hold it.
#[inline(always)]
fn narrow(number: i128) -> Option<i64>
    ensures fits { IsSome result ↔ FitsSigned w64 number }
    ensures same { IfSome result (λ n. n ≡ number) }
{
    if number >= i64::MIN as i128 && number <= i64::MAX as i128 {
        Some(number as i64)
    } else {
        None
    }
}
