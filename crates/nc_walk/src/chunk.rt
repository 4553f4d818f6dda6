//! Values of one slab after the other, side by side in a slice.

ghost use Rattle.std.specs.Prelude.{◌≡◌, ◌+◌, ◌*◌, ◌/◌, ◌^◌, ◌<◌, ◌≤◌, ◌↔◌, IsTrue, IfOk, IfErr};
ghost use Rattle.nc_walk.specs.code.Slabs.{IsCursor, AreReady, HasCapacity, number_at};
ghost use Rattle.devices.specs.Uses.{use_of};
ghost use Rattle.nc_walk.specs.code.Walks.{reading};
ghost use Rattle.nc_walk.specs.code.Chunks.{Collects, Continues, ReadToSlabEnd};

use crate::cursor::Cursor;
use crate::fault::WalkFault;
use crate::read_full::read_full;
use crate::slabs::Slabs;
use devices::Source;

/// What a call has read: values of one or more slabs, which now stand at the start of a slice, one after the other.
#[derive(Clone, Copy)]
pub(crate) struct Chunk {
    /// The number of values.
    pub(crate) values: u64,
    /// The cursor after these values.
    pub(crate) next: Cursor,
}

impl Chunk {
    /// Returns true if values of the next slab can follow those of the chunk: if the chunk ends with its slab, another slab follows, and
    /// the chunk has fewer than `capacity` values. Needs `self.next` to be a cursor of these slabs: that of a value, or the one after the
    /// last.
    fn continues_in_next_slab(self, slabs: Slabs, capacity: u64) -> bool
        requires { IsCursor slabs self.next }
        ensures { IsTrue result ↔ Continues slabs capacity self }
    {
        self.next.within == 0 && !self.next.is_end(slabs) && self.values < capacity
    }
}

/// Reads the next `ready` values, which lie side by side in one slab, into the start of `into`. The first one is the value at `cursor`, and
/// `at` is its offset in the source, in bytes. Returns a [`Chunk`]: how many values came whole, at least 1, and fewer than `ready` if the
/// source has ended before the length that it states; and the cursor after them. If they end with their slab, exactly their bytes were
/// read, even of an opaque source. Needs a `ready` of at least 1, and values that all end inside of the slab, of `into`, and of that
/// length.
///
/// # Errors
///
/// `ReadFailed` if the source failed; `DataTruncated` with the number of the value at `cursor` if not even this one came whole.
#[inline(always)]
fn read_values<S: Source>(
    slabs: &Slabs,
    cursor: Cursor,
    at: u64,
    ready: u64,
    source: &mut S,
    into: &mut [u8],
) -> Result<Chunk, WalkFault>
    requires { AreReady slabs.now cursor at ready into.old (S.view source.old) }
    ensures collects { Collects S.is_transparent (reading slabs.now cursor into.old into.new)
        (use_of S.view source.old source.new) result }
    ensures in_slab { IfOk result (λ chunk. cursor.within + chunk.values ≤ slabs.now.values_per_slab) }
    ensures slab_read { IfOk result (ReadToSlabEnd slabs.now cursor S.view source.old source.new) }
{
    let wanted = (ready * slabs.size) as usize;
    let got = read_full(source, at, &mut into[..wanted])?;
    let values = whole_values(slabs, cursor, ready, got as u64)?;
    let next = cursor.cursor_after(*slabs, values);
    Ok(Chunk { values, next })
}

/// Returns how many of `ready` values are whole if the first `got` of their bytes were read: `got` divided by the size of a value, rounded
/// down. The first value is at `cursor`, which only the fault needs. Needs a `ready` and a size of at least 1, values with fewer than 2^64
/// bytes in all, and a `got` of at most as many.
///
/// # Errors
///
/// `DataTruncated` with the number of the first value if not even this one is whole.
#[inline(always)]
fn whole_values(slabs: &Slabs, cursor: Cursor, ready: u64, got: u64) -> Result<u64, WalkFault>
    requires some { 0 < ready }
    requires size { 0 < slabs.now.size }
    requires fits { ready * slabs.now.size < 2 ^ 64 }
    requires within { got ≤ ready * slabs.now.size }
    ensures whole { IfOk result (λ n. n ≡ got / slabs.now.size) }
    ensures some { IfOk result (λ n. 0 < n) }
    ensures none { IfErr result (λ fault.
        (fault ≡ WalkFault.DataTruncated (number_at slabs.now cursor))
        × (got / slabs.now.size ≡ 0)) }
{
    if got == ready * slabs.size {
        return Ok(ready);
    }
    let whole = got / slabs.size;
    if whole == 0 {
        return Err(WalkFault::DataTruncated(cursor.number(*slabs)));
    }
    Ok(whole)
}

/// Reads values of one slab, from the one at `cursor` on, into the start of `into`: those up to the slab's end that are whole inside of the
/// source, but at most `capacity`. Returns a [`Chunk`]: how many values came, which are fewer if the source has ended before the length
/// that it states, and the cursor after them. If they end with their slab, exactly their bytes were read, even of an opaque source. Needs a
/// value at the cursor, a `capacity` of at least 1, and room for as many values in `into`.
///
/// # Errors
///
/// `ReadFailed` if the source failed; `DataTruncated` with the number of the value at `cursor` if this one isn't whole in the source.
#[inline(never)]
fn read_from_slab<S: Source>(
    slabs: &Slabs,
    cursor: Cursor,
    capacity: u64,
    source: &mut S,
    into: &mut [u8],
) -> Result<Chunk, WalkFault>
    requires { HasCapacity slabs.now cursor capacity into.old }
    ensures collects { Collects S.is_transparent (reading slabs.now cursor into.old into.new)
        (use_of S.view source.old source.new) result }
    ensures slab_read { IfOk result (ReadToSlabEnd slabs.now cursor S.view source.old source.new) }
{
    let ready = slabs.ready(cursor, capacity, source.len());
    if ready == 0 {
        return Err(WalkFault::DataTruncated(cursor.number(*slabs)));
    }
    let at = slabs.offset(cursor) as u64;
    read_values(slabs, cursor, at, ready, source, into)
}

/// Reads values, from the one at `cursor` on, of one slab after the other, into the start of `into`. Stops after `capacity` values, after
/// the variable's last value, and before a value that isn't whole in the source. Returns a [`Chunk`]: how many values were read, at least
/// 1, and the cursor after them. Needs a value at the cursor, a `capacity` of at least 1, and room for as many values in `into`.
///
/// # Errors
///
/// `ReadFailed` if the source failed, even if it gave values before; `DataTruncated` with the number of the value at `cursor` if this one
/// isn't whole in the source. After an error `into` may hold anything.
// Reads the rest of a slab, then whole slabs, and last what fits of one more. If slabs have few values, calls and tests take longer than
// the reads. So the code of a read is inlined in the loop over whole slabs, and little else is there.
#[inline(never)]
pub(crate) fn read_chunk<S: Source>(
    slabs: &Slabs,
    cursor: Cursor,
    capacity: u64,
    source: &mut S,
    into: &mut [u8],
) -> Result<Chunk, WalkFault>
    requires { HasCapacity slabs.now cursor capacity into.old }
    ensures { Collects S.is_transparent (reading slabs.now cursor into.old into.new)
        (use_of S.view source.old source.new) result }
{
    let slabs = *slabs;
    let len = source.len();
    let mut chunk = read_from_slab(&slabs, cursor, capacity, source, into)?;
    let mut at = slabs.capped_offset(chunk.next);
    while chunk.continues_in_next_slab(slabs, capacity)
        && slabs.has_whole_slab(at, capacity - chunk.values, len)
    {
        let bytes_so_far = (chunk.values * slabs.size) as usize;
        let rest = &mut into[bytes_so_far..];
        match read_values(&slabs, chunk.next, at, slabs.values_per_slab, source, rest) {
            Ok(slab) => {
                chunk = Chunk {
                    values: chunk.values + slab.values,
                    next: slab.next,
                };
                at = at.saturating_add(slabs.stride);
            }
            Err(WalkFault::DataTruncated(_)) => return Ok(chunk),
            Err(WalkFault::ReadFailed) => return Err(WalkFault::ReadFailed),
        }
    }
    if !chunk.continues_in_next_slab(slabs, capacity) {
        return Ok(chunk);
    }
    let bytes_so_far = (chunk.values * slabs.size) as usize;
    let space = &mut into[bytes_so_far..];
    match read_from_slab(&slabs, chunk.next, capacity - chunk.values, source, space) {
        Ok(more) => Ok(Chunk {
            values: chunk.values + more.values,
            next: more.next,
        }),
        Err(WalkFault::DataTruncated(_)) => Ok(chunk),
        Err(WalkFault::ReadFailed) => Err(WalkFault::ReadFailed),
    }
}
