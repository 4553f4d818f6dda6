//! What stands before a number.

ghost use Rattle.std.specs.Prelude.{◌≡◌, ◌+◌, ◌++◌, ◌≤◌, length, take};
ghost use Rattle.cdl_print.specs.code.Leads.{lead_bytes, lead_in_row, columns_left_after};

use crate::put::{put_bytes, put_comma};

/// What stands before a number.
#[derive(Clone, Copy)]
pub enum Lead {
    /// A space: before the first number of a variable of rank 0 or 1.
    Space,
    /// A line feed and two spaces: before the first number of the first row.
    FirstRow,
    /// A comma, a line feed and two spaces: before the first number of a later row.
    NextRow,
    /// A comma and a space: between two numbers of a row that stand on one line.
    Comma,
    /// A comma, a space, a line feed and four spaces: between two numbers of a row, if the second begins a line.
    NewLine,
}

impl Lead {
    /// Returns how many bytes more a line may have after the lead, or 0 if the line is full. `columns_left` is how many bytes more it could
    /// have before the lead, and `width` is how many bytes a line may have in all.
    #[inline(always)]
    pub fn columns_left_after(self, columns_left: usize, width: usize) -> usize
        ensures { result ≡ columns_left_after self columns_left width }
    {
        match self {
            Lead::Space => columns_left.saturating_sub(1),
            Lead::FirstRow | Lead::NextRow => width.saturating_sub(2),
            Lead::Comma => columns_left.saturating_sub(2),
            Lead::NewLine => width.saturating_sub(4),
        }
    }
}

/// Returns the lead before a number of `len` bytes that isn't its row's first: `NewLine` if `, `, the number, and two bytes for what
/// follows it take more than `columns_left`, the number of bytes that the line may still have; otherwise `Comma`. Needs a `len` up to 40.
#[inline(always)]
pub fn lead_in_row(columns_left: usize, len: usize) -> Lead
    requires { len ≤ 40 }
    ensures { result ≡ lead_in_row columns_left len }
{
    if columns_left < len + 4 {
        Lead::NewLine
    } else {
        Lead::Comma
    }
}

/// Writes a lead at the offset `at` of `text`, which must have room for it, and returns the offset of its end. Each lead has a branch of
/// its own, since a copy of a known length needs no call.
#[inline(always)]
pub fn put_lead(text: &mut [u8], at: usize, lead: Lead) -> usize
    requires { at + length (lead_bytes lead) ≤ length text.old }
    ensures end { result ≡ at + length (lead_bytes lead) }
    ensures written { take result text.new ≡ take at text.old ++ lead_bytes lead }
{
    match lead {
        Lead::Space => put_bytes(text, at, b" "),
        Lead::FirstRow => put_bytes(text, at, b"\n  "),
        Lead::NextRow => put_bytes(text, at, b",\n  "),
        Lead::Comma => put_comma(text, at),
        Lead::NewLine => put_bytes(text, at, b", \n    "),
    }
}
