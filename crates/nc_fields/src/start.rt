//! The first bytes of a file that isn't netCDF: those of its first field, and those that are read on for.

ghost use Rattle.std.specs.Prelude.{◌≡◌, ◌≤◌, length, max, IfOk};
ghost use Rattle.std.specs.Bool.{OnTrue};
ghost use Rattle.nc_window.specs.code.Window.{Kept, left, next_of, source_of};
ghost use Rattle.nc_fields.specs.Listings.{Blames};
ghost use Rattle.nc_fields.specs.code.Starts.{bytes_of, is_foreign, letters_of, start_after};

use devices::Source;
use nc_base::Sequence;
use nc_findings::{Content, Entry, ListFault};
use nc_window::{HeadFault, Window};
use std::alloc::Global;

/// How many of the bytes that are kept of the start of a file come after the three that should be `CDF`.
const AFTER_LETTERS: u64 = 52 - 3;

/// Returns the first bytes of the file with these fields of its header: 52, or all if there are fewer, of a file that doesn't begin with
/// `CDF`, and none of any other. Reads on for them through the window, with which the fields were read. Errs if the source or an allocation
/// fails.
pub(crate) fn start_of<S: Source>(
    alloc: Global,
    window: &mut Window<'_, S>,
    entries: &[Entry],
) -> Result<Sequence<u8>, ListFault>
    ensures kept { Kept window.old window.new }
    ensures cause { Blames (source_of window.old).failures (source_of window.new) result }
    ensures start { OnTrue S.is_transparent (IfOk result (λ start.
        start ≡ start_after (letters_of entries.now) (next_of window.old) (left window.old))) }
    ensures used { IfOk result (λ start.
        next_of window.new ≤ max (next_of window.old) (length start)) }
{
    let letters = letters_of(entries);
    if !is_foreign(letters, window.offset_of_next()) {
        return Ok(Sequence::new(alloc));
    }
    let mut start = Sequence::new(alloc);
    start.extend_from_slice(letters)?;
    match window.read_up_to(&mut start, AFTER_LETTERS) {
        Ok(()) => Ok(start),
        Err(HeadFault::ReadFailed) => Err(ListFault::ReadFailed),
        // No fault of the format comes from there: too few bytes are none.
        Err(HeadFault::OutOfMemory | HeadFault::Format(_)) => Err(ListFault::OutOfMemory),
    }
}

/// Returns what is kept of the first of these fields, which should be the letters `CDF`. Without a field, returns none.
fn letters_of(entries: &[Entry]) -> &[u8]
    ensures { result.now ≡ letters_of entries.now }
{
    match entries.first() {
        Some(entry) => bytes_of(&entry.content),
        None => &[],
    }
}

/// Returns the bytes that the field is, or none if it is something else.
fn bytes_of(content: &Content) -> &[u8]
    ensures { result.now ≡ bytes_of content.now }
{
    match content {
        Content::Bytes(bytes) => bytes.as_slice(),
        Content::Number(_) | Content::Values { .. } | Content::Cut => &[],
    }
}

/// Returns true if `letters`, the first bytes of a file, aren't `CDF`, and reading has stopped after them, at the offset `end`.
fn is_foreign(letters: &[u8], end: u64) -> bool
    ensures { result ≡ is_foreign letters.now end }
{
    letters != b"CDF".as_slice() && letters.len() as u64 == end
}
