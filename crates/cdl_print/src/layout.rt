//! What the text of a variable's values depends on.

ghost use Rattle.std.specs.Prelude.{◌≡◌, ◌+◌, ◌++◌, ◌<◌, ◌≤◌, ◌&&◌, length, take};
ghost use Rattle.std.specs.Ordering.{int_eq};
ghost use Rattle.nc_base.specs.Headers.{IsSound};
ghost use Rattle.nc_base.specs.Sizes.{is_record_var};
ghost use Rattle.nc_base.specs.ValueText.{variable_closing, is_char, is_trimmed, row_len};
ghost use Rattle.cdl_print.specs.code.Leads.{IfVariable, IsLayoutOf, look_at, next_char_lead, next_number_lead, row_lead};
ghost use Rattle.cdl_print.specs.code.Printing.{shown};

use crate::lead::{Lead, lead_in_row};
use crate::progress::Progress;
use crate::put::put_bytes;
use crate::trailing_nuls::without_trailing_nuls;
use nc_base::{
    Dim, Header, NcType, Var, dim_len, fill_of, is_record_var, prints_fill, value_count,
};

/// All that the text of a variable's values depends on, but for the values.
#[derive(Clone, Copy)]
pub struct TextLayout<'a> {
    /// The variable's name, without escapes.
    pub name: &'a [u8],
    /// The type of its values.
    pub ty: NcType,
    /// True if the values stand in rows: the variable has two dimensions or more.
    pub in_rows: bool,
    /// How many values a row has.
    pub row: u128,
    /// How many values the variable has.
    pub total: u128,
    /// The variable's fill value.
    pub fill: i128,
    /// True if a number that equals the fill value prints as `_`.
    pub prints_fill: bool,
    /// True if the NULs at the end of a row aren't printed. This matters only for characters.
    pub trimmed: bool,
    /// The width, in bytes, at which lines of numbers are broken.
    pub width: usize,
}

/// Returns the layout of the text of the variable at the index `v`, if there are `records` records. A line of numbers is broken at `width`
/// bytes. Needs a sound header (`nc_base::Header::sound`) that has such a variable.
pub fn layout_of(header: &Header, v: usize, records: u64, width: usize) -> TextLayout<'_>
    requires sound { IsSound header.now }
    requires there { v < length header.now.vars }
    ensures { IfVariable header.now v records width (λ look. look_at result ≡ look) }
{
    let var = &header.vars.as_slice()[v];
    layout_of_var(header, var, value_count(header, v, records), width)
}

/// Returns the layout of the text of the variable `var`, which has `total` values. A line of numbers is broken at `width` bytes. The clause
/// `layout` promises this for each number of records over which the variable has `total` values.
#[tactic(auto, unfolding(nc_base::specs::ValueText::look_of))]
fn layout_of_var<'a>(header: &'a Header, var: &'a Var, total: u128, width: usize) -> TextLayout<'a>
    ensures total { result.total ≡ total }
    ensures layout { IsLayoutOf header.now var.now width result }
{
    let dims = header.dims.as_slice();
    TextLayout {
        name: var.name.as_slice(),
        ty: var.ty,
        in_rows: var.dimids.len() >= 2,
        row: row_len(dims, var.dimids.as_slice(), total),
        total,
        fill: fill_of(var),
        prints_fill: prints_fill(var),
        trimmed: is_trimmed(dims, var),
        width,
    }
}

/// Returns how many values a row has, if the variable has `total` values: all of them at rank 0 and 1, otherwise as many as the last
/// dimension is long. `dimids` has the ids of its dimensions, their indexes in `dims`.
fn row_len(dims: &[Dim], dimids: &[u64], total: u128) -> u128
    ensures { result ≡ row_len dims.now dimids.now total }
{
    match dimids {
        [] | [_] => total,
        [.., last] => dim_len(dims, *last) as u128,
    }
}

/// Returns true if the text leaves out NULs at the end of a row of characters: if the variable's fill value is 0, and it isn't a record
/// variable of rank 1. Doesn't look at the type: for numbers the result has no effect. `dims` has the header's dimensions.
fn is_trimmed(dims: &[Dim], var: &Var) -> bool
    ensures { result ≡ is_trimmed dims.now var.now }
{
    fill_of(var) == 0 && !(is_record_var(dims, var) && var.dimids.len() == 1)
}

impl TextLayout<'_> {
    /// Returns true if the values are characters.
    pub fn is_char(&self) -> bool
        ensures { result ≡ is_char self.now.ty }
    {
        matches!(self.ty, NcType::Char)
    }

    /// Returns what stands after the variable's last value: ` ;` and a line feed, and before them a `"` if the values are characters.
    #[tactic(auto, unfolding(nc_base::specs::ValueText::variable_closing))]
    pub fn closing(&self) -> &'static [u8]
        ensures { result.now ≡ variable_closing (look_at self.now) }
    {
        if self.is_char() { b"\" ;\n" } else { b" ;\n" }
    }

    /// Returns true if this number prints as `_`: if the variable prints its fill value so, and the number equals that value.
    #[inline(always)]
    pub fn prints_as_fill(&self, number: i128) -> bool
        ensures { result ≡ self.now.prints_fill && int_eq number self.now.fill }
    {
        self.prints_fill && number == self.fill
    }

    /// Returns how many values are left in the row that has begun, if `row_index` is the index of the next value in its row. If that is 0,
    /// no row has begun, and the result is 0. The clauses promise only that the row has at least as many left.
    pub fn values_left_in_row(&self, row_index: u128) -> u128
        ensures some { 0 < result → 0 < row_index }
        ensures within { 0 < result → row_index + result ≤ self.now.row }
    {
        if row_index == 0 {
            0
        } else {
            self.row.saturating_sub(row_index)
        }
    }

    /// Returns the lead before the next number (the spaces, comma or line break between it and what comes before). If the number is its
    /// row's first, that is what [`row_lead`](TextLayout::row_lead) returns; otherwise `, `, and a new line if the number doesn't fit.
    /// `len` is how many bytes the number has, and `progress` is how far the numbers before it are printed. Needs a `len` of at most 40,
    /// enough for any `i128`.
    pub fn number_lead(&self, progress: &Progress, len: usize) -> Lead
        requires { len ≤ 40 }
        ensures { result ≡ next_number_lead (look_at self.now) progress.now len }
    {
        if progress.row_index == 0 {
            self.row_lead(progress.position)
        } else {
            lead_in_row(progress.columns_left, len)
        }
    }

    /// Returns the lead before a number that is its row's first: a space if the values don't stand in rows, otherwise a new line, with a
    /// comma before it unless `position` is 0. `position` is how many values the variable has before the number.
    fn row_lead(&self, position: u128) -> Lead
        ensures { result ≡ row_lead (look_at self.now) position }
    {
        if !self.in_rows {
            Lead::Space
        } else if position == 0 {
            Lead::FirstRow
        } else {
            Lead::NextRow
        }
    }

    /// Returns the characters of `chars`, all of one row, that are printed even if no others follow in the row: in a trimmed layout all but
    /// the NULs at their end, otherwise all.
    pub fn shown_chars<'b>(&self, chars: &'b [u8]) -> &'b [u8]
        ensures { result.now ≡ shown (look_at self.now) chars.now }
    {
        if self.trimmed {
            without_trailing_nuls(chars)
        } else {
            chars
        }
    }

    /// Puts what stands before the next character at the offset `at` of `text`, and returns the offset at which it ends. If the character
    /// is its row's first, that closes the string of the row before it, if there is one, and opens a string (in rows after the first: `",`,
    /// a new line, two spaces and `"`). Otherwise it is nothing. `progress` is how far the characters before are printed. Doesn't put NULs
    /// that were held back. Needs room for 6 bytes in `text`.
    #[inline(always)]
    pub fn put_char_lead(&self, text: &mut [u8], at: usize, progress: &Progress) -> usize
        requires { at + 6 ≤ length text.old }
        ensures written { take result text.new
            ≡ take at text.old ++ next_char_lead (look_at self.now) progress.now }
        ensures short { result ≤ at + 6 }
    {
        if progress.row_index != 0 {
            at
        } else if !self.in_rows {
            put_bytes(text, at, b" \"")
        } else if progress.position == 0 {
            put_bytes(text, at, b"\n  \"")
        } else {
            put_bytes(text, at, b"\",\n  \"")
        }
    }
}
