//! The numbers of a row after its first, put one after the other into a line.

ghost use Rattle.std.specs.Prelude.{ℕ, ◌≡◌, ◌+◌, ◌*◌, ◌<◌, ◌≤◌, ◌^◌, codes, length, unsigned_abs};
ghost use Rattle.std.specs.Fmt.{decimal, signed_decimal};
ghost use Rattle.nc_base.specs.Numbers.{number_of};
ghost use Rattle.nc_types.specs.Types.{size_of};
ghost use Rattle.cdl_print.specs.code.NumberTexts.{IsByteNumber};
ghost use Rattle.cdl_print.specs.code.Fills.{IsFillOf};
ghost use Rattle.cdl_print.specs.code.Leads.{lead_bytes, look_at, values};
ghost use Rattle.cdl_print.specs.code.Printing.{columns_left_at_end, gap_at_end, PutAt, PutInRow, PutLine, PutNumber};

use crate::byte_number::{byte_number_len, put_byte_number};
use crate::decimal::{decimal_len, put_decimal, put_digits};
use crate::layout::TextLayout;
use crate::lead::{lead_in_row, put_lead};
use crate::printed_fill::PrintedFill;
use crate::put::{put_byte, put_comma};
use nc_base::{NcType, number_of};

/// The last line of the text that is gathered in a buffer.
#[derive(Clone, Copy)]
pub struct LastLine {
    /// The offset in the buffer at which the line ends. The next text is put there.
    pub end: usize,
    /// How many bytes more the line may have.
    pub columns_left: usize,
}

/// Puts numbers of one row, none of them the row's first, into `text` at the end of `line`. Each comes after `, `, and on a new line if it
/// doesn't fit ([`lead_in_row`]). Returns the last line after them. `bytes` has the numbers, big-endian; the clause `more` speaks only of
/// numbers that the row has left. Needs room for 47 bytes a number in `text`: 40 of its own, and 7 before it.
pub fn gather_at_end(
    text: &mut [u8],
    line: LastLine,
    layout: &TextLayout<'_>,
    bytes: &[u8],
) -> LastLine
    requires fits { line.end + 47 * length (values layout.now bytes.now) ≤ length text.old }
    ensures more { PutLine layout.now (values layout.now bytes.now) line text.old result text.new }
    ensures short { result.end ≤ line.end + 47 * length (values layout.now bytes.now) }
{
    match layout.ty {
        NcType::Byte => gather_typed(NcType::Byte, text, line, layout, bytes),
        NcType::Char => gather_typed(NcType::Char, text, line, layout, bytes),
        NcType::Short => gather_typed(NcType::Short, text, line, layout, bytes),
        NcType::Int => gather_typed(NcType::Int, text, line, layout, bytes),
        NcType::Ubyte => gather_typed(NcType::Ubyte, text, line, layout, bytes),
        NcType::Ushort => gather_typed(NcType::Ushort, text, line, layout, bytes),
        NcType::Uint => gather_typed(NcType::Uint, text, line, layout, bytes),
        NcType::Int64 => gather_typed(NcType::Int64, text, line, layout, bytes),
        NcType::Uint64 => gather_typed(NcType::Uint64, text, line, layout, bytes),
    }
}

/// Puts numbers as [`gather_at_end`] does, which inlines this function once for each type, and needs the same room. Needs the type of
/// `layout` as `ty`, a constant there, so that each type has a loop of its own.
#[inline(always)]
fn gather_typed(
    ty: NcType,
    text: &mut [u8],
    line: LastLine,
    layout: &TextLayout<'_>,
    bytes: &[u8],
) -> LastLine
    requires ty { ty ≡ layout.now.ty }
    requires fits { line.end + 47 * length (values layout.now bytes.now) ≤ length text.old }
    ensures more { PutLine layout.now (values layout.now bytes.now) line text.old result text.new }
    ensures short { result.end ≤ line.end + 47 * length (values layout.now bytes.now) }
{
    let size = ty.size() as usize;
    let fill = PrintedFill::of(layout);
    let mut now = line;
    let mut rest = bytes;
    while size <= rest.len() {
        let (value, others) = rest.split_at(size);
        now = put_next_value(ty, text, now, layout, fill, value);
        rest = others;
    }
    now
}

/// Puts a number that isn't its row's first into `text` at the end of `line`, after `, `, and on a new line if it doesn't fit. Returns the
/// last line after it. Needs all bytes of the number in `value`, big-endian, as a value of the type `ty`, a `fill` made of `layout`, and
/// room for 47 bytes in `text`.
#[inline(always)]
fn put_next_value(
    ty: NcType,
    text: &mut [u8],
    line: LastLine,
    layout: &TextLayout<'_>,
    fill: PrintedFill,
    value: &[u8],
) -> LastLine
    requires whole { length value.now ≡ size_of ty }
    requires fill { IsFillOf (look_at layout.now) fill }
    requires fits { line.end + 47 ≤ length text.old }
    ensures put { PutNumber layout.now (number_of ty value.now) line text.old result text.new }
    ensures short { result.end ≤ line.end + 47 }
{
    let number = number_of(ty, value);
    match ty {
        NcType::Byte | NcType::Ubyte => put_next_byte_number(text, line, layout, fill, number),
        _ => put_next_number(text, line, layout, fill, number),
    }
}

/// Puts a byte's number that isn't its row's first, as `_` or in decimal, into `text` at the end of `line`, after `, `, and on a new line
/// if it doesn't fit. Returns the last line after it. No branch depends on the number, unless it prints as `_` or begins a line. Needs a
/// `fill` made of `layout`, a number from -128 to 255, and room for 47 bytes in `text`, as for any number.
#[inline(always)]
fn put_next_byte_number(
    text: &mut [u8],
    line: LastLine,
    layout: &TextLayout<'_>,
    fill: PrintedFill,
    number: i128,
) -> LastLine
    requires byte { IsByteNumber number }
    requires fill { IsFillOf (look_at layout.now) fill }
    requires fits { line.end + 47 ≤ length text.old }
    ensures put { PutNumber layout.now number line text.old result text.new }
    ensures short { result.end ≤ line.end + 47 }
{
    if fill.prints(layout, number) {
        return put_fill(text, line, layout.width);
    }
    let len = byte_number_len(number);
    let start = put_lead_in_row(text, line, layout.width, len);
    put_byte_number(text, start.offset, number);
    LastLine {
        end: start.offset + len,
        columns_left: start.columns_left_after,
    }
}

/// Puts a number that isn't its row's first, as `_` or in decimal, into `text` at the end of `line`, after `, `, and on a new line if it
/// doesn't fit. Returns the last line after it. Needs a `fill` made of `layout`, an absolute value below 2^64, and room for 47 bytes in
/// `text`. A number from 0 to 99 that doesn't print as `_` takes fewer steps if at least six columns are left (`, `, two digits and two
/// bytes more): no line begins before it then.
#[inline(always)]
fn put_next_number(
    text: &mut [u8],
    line: LastLine,
    layout: &TextLayout<'_>,
    fill: PrintedFill,
    number: i128,
) -> LastLine
    requires magnitude { unsigned_abs number < 2 ^ 64 }
    requires fill { IsFillOf (look_at layout.now) fill }
    requires fits { line.end + 47 ≤ length text.old }
    ensures put { PutNumber layout.now number line text.old result text.new }
    ensures short { result.end ≤ line.end + 47 }
{
    if fill.shows_below_100(number) && line.columns_left >= 6 {
        put_below_100(text, line, number as u64)
    } else if fill.prints(layout, number) {
        put_fill(text, line, layout.width)
    } else {
        put_decimal_in_row(text, line, layout.width, number)
    }
}

/// Puts a comma, a space and `n` at the end of the line, and returns the line after them. Needs an `n` below 100, room for four bytes in
/// `text`, and at least six columns left: four for these, and two after them, so that no line begins before the number.
#[inline(always)]
fn put_below_100(text: &mut [u8], line: LastLine, n: u64) -> LastLine
    requires below_100 { n < 100 }
    requires on_line { 6 ≤ line.columns_left }
    requires fits { line.end + 4 ≤ length text.old }
    ensures put { (width : ℕ) → PutInRow width (decimal n) line text.old result text.new }
    ensures short { result.end ≤ line.end + 4 }
{
    let start = put_comma(text, line.end);
    if n < 10 {
        put_digits(text, start, 1, n);
        LastLine {
            end: start + 1,
            columns_left: line.columns_left - 3,
        }
    } else {
        put_digits(text, start, 2, n);
        LastLine {
            end: start + 2,
            columns_left: line.columns_left - 4,
        }
    }
}

/// Puts `_`, the text of a number that equals the fill value, at the end of the line, after `, `, and on a new line if it doesn't fit.
/// Returns the last line after it. `width` is how many bytes a line may have. Needs room for 8 bytes in `text`: one of `_`, and 7 before
/// it.
#[inline(always)]
fn put_fill(text: &mut [u8], line: LastLine, width: usize) -> LastLine
    requires fits { line.end + 8 ≤ length text.old }
    ensures put { PutInRow width (codes "_") line text.old result text.new }
    ensures short { result.end ≤ line.end + 8 }
{
    let start = put_lead_in_row(text, line, width, 1);
    LastLine {
        end: put_byte(text, start.offset, b'_'),
        columns_left: start.columns_left_after,
    }
}

/// Puts a number in decimal at the end of the line, after `, `, and on a new line if it doesn't fit. Returns the last line after it.
/// `width` is how many bytes a line may have. Needs an absolute value below 2^64, and room for 28 bytes in `text`: 21 of the number, and 7
/// before it. It isn't inlined: the loop of each type is small then, so that the type is chosen once and not for each number.
#[inline(never)]
fn put_decimal_in_row(text: &mut [u8], line: LastLine, width: usize, number: i128) -> LastLine
    requires magnitude { unsigned_abs number < 2 ^ 64 }
    requires fits { line.end + 28 ≤ length text.old }
    ensures put { PutInRow width (signed_decimal number) line text.old result text.new }
    ensures short { result.end ≤ line.end + 28 }
{
    let len = decimal_len(number);
    let start = put_lead_in_row(text, line, width, len);
    put_decimal(text, start.offset, len, number);
    LastLine {
        end: start.offset + len,
        columns_left: start.columns_left_after,
    }
}

/// The place of a number that is still to be put into a text.
#[derive(Clone, Copy)]
struct NumberStart {
    /// The offset in the text at which the number begins.
    offset: usize,
    /// How many columns its line has left after it.
    columns_left_after: usize,
}

/// Puts `, ` at the end of the line in `text`, and a new line after it if a number of `len` bytes and two bytes more don't fit on this one.
/// Doesn't put the number. Returns where it begins, and how many columns are left after it. `width` is how many bytes a line may have.
/// Needs a `len` of at most 40, and room for 7 bytes in `text`: `, `, LF and four spaces.
#[inline(always)]
fn put_lead_in_row(text: &mut [u8], line: LastLine, width: usize, len: usize) -> NumberStart
    requires short { len ≤ 40 }
    requires fits { line.end + 7 ≤ length text.old }
    ensures text { PutAt line.end text.old result.offset text.new (lead_bytes (gap_at_end line len)) }
    ensures columns { result.columns_left_after ≡ columns_left_at_end width line len }
    ensures start { result.offset ≡ line.end + length (lead_bytes (gap_at_end line len)) }
{
    let lead = lead_in_row(line.columns_left, len);
    let columns_left = lead.columns_left_after(line.columns_left, width);
    NumberStart {
        offset: put_lead(text, line.end, lead),
        columns_left_after: columns_left.saturating_sub(len),
    }
}
