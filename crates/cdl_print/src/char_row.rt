//! The characters of a variable as CDL writes them.

ghost use Rattle.std.specs.Prelude.{◌≡◌, ◌+◌, ◌++◌, ◌-◌, ◌<◌, ◌≤◌, ◌==◌, ◌^◌, true, length, replicate, if◌then◌else◌, OnOk};
ghost use Rattle.nc_types.specs.Escapes.{escaped_text};
ghost use Rattle.nc_base.specs.ValueText.{is_char};
ghost use Rattle.devices.specs.code.SinkWrites.{Wrote};
ghost use Rattle.cdl_print.specs.code.Leads.{look_at, next_char_lead};
ghost use Rattle.cdl_print.specs.code.Printing.{next, next_part, part_text, IsAfterNext, IsAfterPart, WroteNext};

use crate::escaped::{gather_escaped, put_escaped};
use crate::layout::TextLayout;
use crate::number_row::TextBuffer;
use crate::progress::{Progress, row_index_after};
use devices::{Sink, WriteFailed, put};
use nc_base::Quoting;

/// The most characters of a row that are gathered to be written at once. Each takes at most four bytes with its escape.
const CHARS_AT_ONCE: usize = 1000;

/// Writes the next characters of a variable, `bytes`, and moves `progress` past them. Each row is a string, whose last quote is left to the
/// row after it, or to the caller. A trimmed layout shows no NULs at the end of a row: it holds NULs back until another character follows
/// in the row. `text` is a buffer for the text of a row, and may hold anything. Needs a `layout` of characters, and no more of them than
/// the variable has left. Errs if the sink fails; then `progress` is before the part that wasn't written whole, but no clause says so.
pub fn put_char_values<W: Sink>(
    sink: &mut W,
    layout: &TextLayout<'_>,
    progress: &mut Progress,
    text: &mut TextBuffer,
    bytes: &[u8],
) -> Result<(), WriteFailed>
    requires character { is_char layout.now.ty ≡ true }
    requires within { progress.old.position + length bytes.now ≤ layout.now.total }
    ensures after { OnOk result (IsAfterNext (next layout.now progress.old bytes.now) progress.new) }
    ensures wrote { WroteNext W.view sink.old sink.new (next layout.now progress.old bytes.now) result }
{
    let mut rest = bytes;
    while !rest.is_empty() {
        let (part, others) = rest.split_at(len_in_row(layout.row, progress.row_index, rest.len()));
        put_next_part(sink, layout, progress, text, part)?;
        rest = others;
    }
    Ok(())
}

/// Returns how many of the next `len` characters stand in the row that the next one is in, but at least 1. `row` is how many characters a
/// row has, and `row_index` is the index of the next one in its row. Needs a `len` above 0.
fn len_in_row(row: u128, row_index: u128, len: usize) -> usize
    requires { 0 < len }
    ensures some { 0 < result }
    ensures within { result ≤ len }
    ensures in_row { 1 < result → row_index + result ≤ row }
{
    row.saturating_sub(row_index).min(len as u128).max(1) as usize
}

/// Writes the next characters of one row, `part`, with what stands before them, and moves `progress` past them. Needs a `layout` of
/// characters, at least one character, and no more than the row and the variable have left. Errs if the sink fails. It does this by one
/// call of [`put_row_part`], and is there for its contract: what is written is the text of these values, whichever were printed before.
fn put_next_part<W: Sink>(
    sink: &mut W,
    layout: &TextLayout<'_>,
    progress: &mut Progress,
    text: &mut TextBuffer,
    part: &[u8],
) -> Result<(), WriteFailed>
    requires character { is_char layout.now.ty ≡ true }
    requires within { progress.old.position + length part.now ≤ layout.now.total }
    requires some { 0 < length part.now }
    requires in_row { 1 < length part.now → progress.old.row_index + length part.now ≤ layout.now.row }
    ensures after { OnOk result (IsAfterNext (next layout.now progress.old part.now) progress.new) }
    ensures wrote { WroteNext W.view sink.old sink.new (next layout.now progress.old part.now) result }
{
    put_row_part(sink, layout, progress, text, part)
}

/// Writes what stands before the row if `part` begins it, the NULs that were held back, and the characters of `part`
/// ([`put_shown_with_lead`]), and moves `progress` past `part`. In a trimmed layout it doesn't write NULs at the end of `part`: it holds
/// them back, or drops them if the row ends there. Needs no more characters than the variable has left. Errs if the sink fails.
fn put_row_part<W: Sink>(
    sink: &mut W,
    layout: &TextLayout<'_>,
    progress: &mut Progress,
    text: &mut TextBuffer,
    part: &[u8],
) -> Result<(), WriteFailed>
    requires within { progress.old.position + length part.now ≤ layout.now.total }
    ensures wrote { Wrote W.view sink.old sink.new (next_part layout.now progress.old part.now) result }
    ensures after { OnOk result (IsAfterPart (look_at layout.now) progress.old part.now progress.new) }
{
    let shown = layout.shown_chars(part);
    put_shown_with_lead(sink, layout, progress, text, shown)?;
    let count = part.len() as u128;
    let row_index = row_index_after(layout.row, progress.row_index, count);
    *progress = Progress {
        position: progress.position + count,
        row_index,
        columns_left: progress.columns_left,
        held_nuls: held_nuls_after(progress.held_nuls, row_index, count, shown.len() as u128),
    };
    Ok(())
}

/// Returns how many NULs are held back after `count` characters of a row, the first `shown` of them printed. `held_nuls` is how many were
/// held back before these characters; they were written if `shown` isn't 0. `row_index` is the index, in its row, of the character after
/// them. If it is 0, the row has ended, its last NULs are dropped, and the result is 0. Needs a `shown` of at most `count`, and less than
/// 2^128 for `held_nuls` and `count` together.
fn held_nuls_after(held_nuls: u128, row_index: u128, count: u128, shown: u128) -> u128
    requires within { shown ≤ count }
    requires few { held_nuls + count < 2 ^ 128 }
    ensures held_nuls { result
        ≡ (if row_index == 0 then 0 else (if shown == 0 then held_nuls else 0) + (count - shown)) }
    ensures few { result ≤ held_nuls + count }
{
    if row_index == 0 {
        0
    } else if shown == 0 {
        held_nuls + count
    } else {
        count - shown
    }
}

/// Writes the lead ([`TextLayout::put_char_lead`]: the quotes that begin a row, or nothing within a row), then the NULs that were held
/// back, and then the characters of `shown`. If `shown` is empty, writes only the lead. Gathers all of it in `text`, and writes it in one
/// piece, unless NULs were held back or there are more than [`CHARS_AT_ONCE`] characters. Errs if the sink fails.
#[tactic(auto, using(devices::proofs::Writes::writes, crate::proofs::CharRows::none_before))]
fn put_shown_with_lead<W: Sink>(
    sink: &mut W,
    layout: &TextLayout<'_>,
    progress: &Progress,
    text: &mut TextBuffer,
    shown: &[u8],
) -> Result<(), WriteFailed>
    ensures { Wrote W.view sink.old sink.new
        (next_char_lead (look_at layout.now) progress.now ++ part_text progress.now.held_nuls shown.now) result }
{
    let start = layout.put_char_lead(text, 0, progress);
    if progress.held_nuls != 0 || shown.len() > CHARS_AT_ONCE {
        put(sink, &text[..start])?;
        return put_shown(sink, progress.held_nuls, shown);
    }
    let end = gather_escaped(text, start, Quoting::InString, shown);
    put(sink, &text[..end])
}

/// Writes the `held_nuls` NULs that were held back, and then the characters of `shown` with their escapes. Writes nothing if `shown` is
/// empty: the NULs are still held back then. Errs if the sink fails.
#[tactic(auto, using(devices::proofs::Writes::writes), unfolding(crate::specs::code::Printing::part_text, nc_types::specs::Escapes::escaped_text))]
fn put_shown<W: Sink>(sink: &mut W, held_nuls: u128, shown: &[u8]) -> Result<(), WriteFailed>
    ensures { Wrote W.view sink.old sink.new (part_text held_nuls shown.now) result }
{
    if shown.is_empty() {
        return Ok(());
    }
    put_nuls(sink, held_nuls)?;
    put_escaped(sink, Quoting::InString, shown)
}

/// Writes `count` NULs, each as `\000`. Errs if the sink fails.
fn put_nuls<W: Sink>(sink: &mut W, count: u128) -> Result<(), WriteFailed>
    ensures { Wrote W.view sink.old sink.new (escaped_text (replicate count 0)) result }
{
    for _ in 0..count {
        put(sink, b"\\000")?;
    }
    Ok(())
}
