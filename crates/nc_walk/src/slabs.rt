//! Where a variable's values lie, by their cursor.

ghost use Rattle.std.specs.Prelude.{◌≡◌, ◌↔◌, IsTrue, ◌*◌, ◌<◌, ◌≤◌, ◌^◌, if◌then◌else◌, length};
ghost use Rattle.nc_base.specs.Headers.{IsSound};
ghost use Rattle.nc_base.specs.Sizes.{is_record_var, record_size, slab_count, slab_size, slab_limit};
ghost use Rattle.nc_walk.specs.code.Slabs.{number_at, offset, offsets_after, IsSized, IsOffset, AreSlabsOf, HasWholeSlab, Ready};

use crate::cursor::Cursor;
use nc_base::{Dim, Header, RecordLayout, Var, is_record_var, slab_len};

/// The slabs of a variable: values side by side in each, and one slab after the other at the same distance.
///
/// The slabs that [`Slabs::of`] makes (`IsSized`) have at least one value each, values of 1 to 8 bytes, and a `stride` of at most 2^62. A
/// cursor in a slab has a `within` below `values_per_slab`.
#[derive(Clone, Copy)]
pub(crate) struct Slabs {
    /// The offset of the first value in the file.
    pub(crate) begin: u64,
    /// The number of bytes from the start of one slab to the start of the next.
    pub(crate) stride: u64,
    /// The number of values in a slab.
    pub(crate) values_per_slab: u64,
    /// The number of slabs.
    pub(crate) total_slabs: u64,
    /// The number of bytes of a value.
    pub(crate) size: u64,
}

impl Slabs {
    /// Returns the slabs of the variable at index `v` over the records of the layout: one for each record, or one in all if the variable
    /// has no record dimension. Slabs that are side by side become one, as [`Slabs::joined`] says. Needs a sound header
    /// (`nc_base::Header::sound`), a variable at this index, and the header's record size in `layout`.
    pub(crate) fn of(header: &Header, v: usize, layout: RecordLayout) -> Slabs
        requires sound { IsSound header.now }
        requires there { v < length header.now.vars }
        requires record_size { layout.record_size ≡ record_size header.now }
        ensures { AreSlabsOf header.now v layout.records result }
    {
        let dims = header.dims.as_slice();
        let var = &header.vars.as_slice()[v];
        let slabs = Slabs {
            begin: var.begin_at,
            stride: layout.record_size,
            values_per_slab: values_per_slab(dims, var),
            total_slabs: total_slabs(dims, var, layout.records),
            size: var.ty.size(),
        };
        slabs.joined()
    }

    /// Returns slabs with the same values at the same offsets. If each slab begins at the end of the one before it, they become one slab,
    /// so that one read can take values of many records. Otherwise they stay as they are, and also if there are no values, or more than a
    /// `u64` can count. No clause says which of the two is done. Needs at least one value in a slab, values of 1 to 8 bytes, and a `stride`
    /// of at most 2^62.
    #[tactic(auto, using(crate::proofs::SlabSteps::joined_offsets))]
    fn joined(self) -> Slabs
        requires { IsSized self }
        ensures size { result.size ≡ self.size }
        ensures offsets { offsets_after result 0 ≡ offsets_after self 0 }
        ensures sized { IsSized result }
    {
        let slab_len = self.values_per_slab as u128 * self.size as u128;
        if slab_len != self.stride as u128 {
            return self;
        }
        match self.total_slabs.checked_mul(self.values_per_slab) {
            None | Some(0) => self,
            Some(values) => Slabs {
                values_per_slab: values,
                total_slabs: 1,
                ..self
            },
        }
    }

    /// Returns the offset in the file, in bytes, of the value at this cursor. It may be past the end of the file, and past 2^64, but is
    /// below 2^127. Needs slabs as [`Slabs::of`] makes them, and a cursor in a slab.
    pub(crate) fn offset(&self, cursor: Cursor) -> u128
        requires sized { IsSized self.now }
        requires within { cursor.within < self.now.values_per_slab }
        ensures value { result ≡ offset self.now (number_at self.now cursor) }
        ensures bound { result < 2 ^ 127 }
    {
        let slab = self.begin as u128 + cursor.slab as u128 * self.stride as u128;
        slab + cursor.within as u128 * self.size as u128
    }

    /// Returns the offset of the value at this cursor, as [`offset`](Slabs::offset) does, but at most 2^64 - 1, where no file has a byte.
    /// Needs slabs as [`Slabs::of`] makes them, and a cursor in a slab.
    pub(crate) fn capped_offset(&self, cursor: Cursor) -> u64
        requires sized { IsSized self.now }
        requires within { cursor.within < self.now.values_per_slab }
        ensures { IsOffset self.now (number_at self.now cursor) result }
    {
        self.offset(cursor).min(u64::MAX as u128) as u64
    }

    /// Returns true if a slab that begins at the offset `at` can be read whole: if it has no more than `capacity` values and ends inside of
    /// a file of `len` bytes. Needs slabs as [`Slabs::of`] makes them, and a `capacity` whose values have fewer than 2^64 bytes.
    #[inline(always)]
    pub(crate) fn has_whole_slab(self, at: u64, capacity: u64, len: u64) -> bool
        requires sized { IsSized self }
        requires capacity { capacity * self.size < 2 ^ 64 }
        ensures { IsTrue result ↔ HasWholeSlab self at capacity len }
    {
        self.values_per_slab <= capacity
            && self.values_per_slab * self.size <= len.saturating_sub(at)
    }

    /// Returns how many values one read can take from this cursor on: those up to the end of its slab that are whole inside of a file of
    /// `len` bytes, but at most `capacity`. Returns 0 if not even the value at the cursor is whole. Needs slabs as [`Slabs::of`] makes
    /// them, a cursor in a slab, and a `capacity` above 0.
    pub(crate) fn ready(&self, cursor: Cursor, capacity: u64, len: u64) -> u64
        requires sized { IsSized self.now }
        requires within { cursor.within < self.now.values_per_slab }
        requires some { 0 < capacity }
        ensures { Ready self.now (number_at self.now cursor) (capacity * self.now.size) len result }
    {
        let at = self.offset(cursor);
        let wanted = (self.values_per_slab - cursor.within).min(capacity);
        if at + wanted as u128 * self.size as u128 <= len as u128 {
            wanted
        } else if at < len as u128 {
            (len - at as u64) / self.size
        } else {
            0
        }
    }
}

/// Returns the number of slabs of the variable over `records` records: `records` for a record variable, and 1 for any other.
fn total_slabs(dims: &[Dim], var: &Var, records: u64) -> u64
    ensures { result ≡ (if is_record_var dims.now var.now then records else 1) }
{
    if is_record_var(dims, var) { records } else { 1 }
}

/// Returns the number of values in a slab of the variable. Needs a slab of at most 2^48 bytes.
fn values_per_slab(dims: &[Dim], var: &Var) -> u64
    requires { slab_size dims.now var.now ≤ slab_limit }
    ensures { result ≡ slab_count dims.now var.now }
{
    let slab = slab_len(dims, var.dimids.as_slice(), var.ty).unwrap();
    slab / var.ty.size()
}
