//! What stands before the values of a variable.

ghost use Rattle.std.specs.Prelude.{◌≡◌, ◌-◌, ◌++◌, codes};
ghost use Rattle.nc_types.specs.Escapes.{escaped_in_name, escaped_name};
ghost use Rattle.nc_base.specs.ValueText.{column};
ghost use Rattle.devices.specs.code.SinkWrites.{Wrote};
ghost use Rattle.cdl_print.specs.code.Leads.{LeavesColumns};
ghost use Rattle.cdl_print.specs.code.Pieces.{opening_of};

use crate::name::{needs_leading_backslash, put_name};
use devices::{Sink, WriteFailed, put};
use nc_base::Quoting;

/// Writes what stands before the values of a variable: a line feed, a space, its `name` with escapes, and ` =`. Errs if the sink fails.
#[tactic(auto, using(devices::proofs::Writes::writes))]
pub fn put_opening<W: Sink>(sink: &mut W, name: &[u8]) -> Result<(), WriteFailed>
    ensures { Wrote W.view sink.old sink.new (opening_of name.now) result }
{
    put(sink, b"\n ")?;
    put_name(sink, name)?;
    put(sink, b" =")
}

/// Returns how many bytes more a line of `width` bytes may have after what [`put_opening`] writes for this name, or 0 if it is full.
pub fn columns_left_after_opening(width: usize, name: &[u8]) -> usize
    ensures { result ≡ width - column (opening_of name.now) }
{
    columns_left_after_name(width, name).saturating_sub(2)
}

/// Returns how many bytes more a line of `width` bytes may have after a space and a name with its escapes, or 0 if it is full. A line feed
/// in the name begins a new line.
fn columns_left_after_name(width: usize, name: &[u8]) -> usize
    ensures { result ≡ width - column (codes "\n " ++ escaped_name name.now) }
{
    let len = if needs_leading_backslash(name) { 2 } else { 1 };
    let mut columns_left = width.saturating_sub(len);
    for b in name {
        columns_left = columns_left_after_byte(width, columns_left, *b);
    }
    columns_left
}

/// Returns how many bytes more (columns) a line of `width` bytes may have after the byte `b` of a name, with the backslash that it may
/// need. `columns_left` is how many it may have before that. The result is 0 if the line is full, and `width` after a line feed.
fn columns_left_after_byte(width: usize, columns_left: usize, b: u8) -> usize
    ensures { LeavesColumns width columns_left (escaped_in_name b) result }
{
    if b == b'\n' {
        width
    } else if Quoting::InName.is_plain(b) {
        columns_left.saturating_sub(1)
    } else {
        columns_left.saturating_sub(2)
    }
}
