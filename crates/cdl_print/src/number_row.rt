//! The numbers of a variable as CDL writes them.

ghost use Rattle.std.specs.Prelude.{◌≡◌, ◌+◌, ◌*◌, ◌<◌, ◌≤◌, false, length, take, OnOk};
ghost use Rattle.nc_types.specs.Types.{size_of};
ghost use Rattle.nc_base.specs.ValueText.{is_char};
ghost use Rattle.cdl_print.specs.code.Leads.{values, AreWhole};
ghost use Rattle.cdl_print.specs.code.Printing.{next, next_number, AreLeft, AreInRow, IsAfterNext, IsAfterNextNumber, PutAt, PutNext, WroteNext};

use crate::decimal::{put_text, text_len};
use crate::layout::TextLayout;
use crate::lead::put_lead;
use crate::number_line::{LastLine, gather_at_end};
use crate::progress::{Progress, row_index_after};
use devices::{Sink, WriteFailed, put};
use nc_base::number_of;

/// How many numbers are written at once. Each has room for 47 bytes: 40, in which any `i128` fits (a value takes at most 21), and 7 that stand
/// before it.
const NUMBERS_AT_ONCE: usize = 80;

/// A buffer for the text of numbers, or of characters of a row, that are written at once.
pub type TextBuffer = [u8; 4096];

/// Writes the next numbers of a variable, each after its lead: spaces, a comma or a line break ([`TextLayout::number_lead`]). Moves
/// `progress` past them. Needs a `layout` of numbers, and in `bytes`, big-endian, no more of them than the variable has left. `text` is a
/// buffer in which at most 80 of them at a time are gathered, and may hold anything. Errs if the sink fails; `progress` may then be past
/// unwritten numbers.
pub fn put_number_values<W: Sink>(
    sink: &mut W,
    layout: &TextLayout<'_>,
    progress: &mut Progress,
    text: &mut TextBuffer,
    bytes: &[u8],
) -> Result<(), WriteFailed>
    requires number { is_char layout.now.ty ≡ false }
    requires within { AreLeft (next layout.now progress.old bytes.now) }
    ensures after { OnOk result (IsAfterNext (next layout.now progress.old bytes.now) progress.new) }
    ensures wrote { WroteNext W.view sink.old sink.new (next layout.now progress.old bytes.now) result }
{
    let most = NUMBERS_AT_ONCE * layout.ty.size() as usize;
    let mut rest = bytes;
    while !rest.is_empty() {
        let (prefix, others) = rest.split_at(most.min(rest.len()));
        put_few_numbers(sink, layout, progress, text, prefix)?;
        rest = others;
    }
    Ok(())
}

/// Writes numbers in one piece, each after its lead ([`TextLayout::number_lead`]), and moves `progress` past them. If the sink fails, it
/// errs after it has moved `progress`. `text` is a buffer for their text. `bytes` has the numbers, big-endian. Needs a `layout` of numbers,
/// no more of them than the variable has left, and at most 80 ([`NUMBERS_AT_ONCE`]), so that their text fits.
fn put_few_numbers<W: Sink>(
    sink: &mut W,
    layout: &TextLayout<'_>,
    progress: &mut Progress,
    text: &mut TextBuffer,
    bytes: &[u8],
) -> Result<(), WriteFailed>
    requires number { is_char layout.now.ty ≡ false }
    requires few { length (values layout.now bytes.now) ≤ 80 }
    requires within { AreLeft (next layout.now progress.old bytes.now) }
    ensures after { OnOk result (IsAfterNext (next layout.now progress.old bytes.now) progress.new) }
    ensures wrote { WroteNext W.view sink.old sink.new (next layout.now progress.old bytes.now) result }
{
    let end = gather_numbers(text, layout, progress, bytes);
    put(sink, &text[..end])
}

/// Puts numbers at the start of `text`, each after its lead ([`TextLayout::number_lead`]), moves `progress` past them, and returns the
/// offset at which they end. `bytes` has the numbers, big-endian. Needs a `layout` of numbers, no more of them than the variable has left,
/// and room for 47 bytes a number in `text`: 40 of its own, and 7 of its lead.
fn gather_numbers(
    text: &mut [u8],
    layout: &TextLayout<'_>,
    progress: &mut Progress,
    bytes: &[u8],
) -> usize
    requires number { is_char layout.now.ty ≡ false }
    requires fits { 47 * length (values layout.now bytes.now) ≤ length text.old }
    requires within { AreLeft (next layout.now progress.old bytes.now) }
    ensures after { IsAfterNext (next layout.now progress.old bytes.now) progress.new }
    ensures text { PutNext 0 text.old result text.new (next layout.now progress.old bytes.now) }
    ensures inside { result ≤ length text.new }
{
    let size = layout.ty.size() as usize;
    let mut now = *progress;
    let mut end = 0;
    let mut rest = bytes;
    while size <= rest.len() {
        let (value, others) = rest.split_at(size);
        end = gather_number(text, end, layout, &mut now, value);
        let (row, later) = others.split_at(len_in_row(layout, &now, others));
        end = gather_in_row(text, end, layout, &mut now, row);
        rest = later;
    }
    *progress = now;
    end
}

/// Returns how many bytes at the start of `bytes` are whole values of the row that has begun, as `progress` says: 0 if the next value is
/// its row's first. The clauses promise only that the row has at least as many values left.
fn len_in_row(layout: &TextLayout<'_>, progress: &Progress, bytes: &[u8]) -> usize
    ensures whole { AreWhole layout.now (take result bytes.now) }
    ensures within { result ≤ length bytes.now }
    ensures in_row { AreInRow (next layout.now progress.now (take result bytes.now)) }
{
    let size = layout.ty.size() as usize;
    let left = layout.values_left_in_row(progress.row_index);
    let count = left.min((bytes.len() / size) as u128) as usize;
    count * size
}

/// Puts the lead before the next number ([`TextLayout::number_lead`]) and the number, which may be its row's first, at the offset `at` of
/// `text`. Moves `progress` past the number, and returns the offset at which it ends. Needs the number's bytes in `value`, big-endian, a
/// value that the variable has left, and room for 47 bytes in `text`: 40 of the number, and 7 of its lead.
fn gather_number(
    text: &mut [u8],
    at: usize,
    layout: &TextLayout<'_>,
    progress: &mut Progress,
    value: &[u8],
) -> usize
    requires whole { length value.now ≡ size_of layout.now.ty }
    requires fits { at + 47 ≤ length text.old }
    requires within { progress.old.position < layout.now.total }
    ensures text { PutAt at text.old result text.new (next_number layout.now progress.old value.now) }
    ensures short { result ≤ at + 47 }
    ensures after { IsAfterNextNumber layout.now progress.old value.now progress.new }
{
    let number = number_of(layout.ty, value);
    let is_fill = layout.prints_as_fill(number);
    let len = text_len(is_fill, number);
    let lead = layout.number_lead(progress, len);
    let start = put_lead(text, at, lead);
    put_text(text, start, len, is_fill, number);
    let columns_left = lead.columns_left_after(progress.columns_left, layout.width);
    *progress = Progress {
        position: progress.position + 1,
        row_index: row_index_after(layout.row, progress.row_index, 1),
        columns_left: columns_left.saturating_sub(len),
        held_nuls: progress.held_nuls,
    };
    start + len
}

/// Puts numbers of one row, none of them the row's first, at the offset `at` of `text`, one after the other, each after its lead
/// ([`TextLayout::number_lead`]). Moves `progress` past them, and returns the offset at which they end. `bytes` has the numbers,
/// big-endian. Needs a `layout` of numbers, only whole ones, no more than the row and the variable have left, and room for 47 bytes a
/// number in `text`: 40 of its own, and 7 of its lead.
fn gather_in_row(
    text: &mut [u8],
    at: usize,
    layout: &TextLayout<'_>,
    progress: &mut Progress,
    bytes: &[u8],
) -> usize
    requires number { is_char layout.now.ty ≡ false }
    requires fits { at + 47 * length (values layout.now bytes.now) ≤ length text.old }
    requires whole { AreWhole layout.now bytes.now }
    requires in_row { AreInRow (next layout.now progress.old bytes.now) }
    requires within { AreLeft (next layout.now progress.old bytes.now) }
    ensures after { IsAfterNext (next layout.now progress.old bytes.now) progress.new }
    ensures text { PutNext at text.old result text.new (next layout.now progress.old bytes.now) }
    ensures short { result ≤ at + 47 * length (values layout.now bytes.now) }
{
    if bytes.is_empty() {
        return at;
    }
    let line = LastLine {
        end: at,
        columns_left: progress.columns_left,
    };
    let line = gather_at_end(text, line, layout, bytes);
    let count = (bytes.len() / layout.ty.size() as usize) as u128;
    *progress = Progress {
        position: progress.position + count,
        row_index: row_index_after(layout.row, progress.row_index, count),
        columns_left: line.columns_left,
        held_nuls: progress.held_nuls,
    };
    line.end
}
