//! A variable's array, written slab by slab.

ghost use Rattle.devices.specs.code.SinkWrites.{Wrote};
ghost use Rattle.nc_walk.specs.code.Filled.{ArrayView, filled_part, filled_record, filled_slab, filled_slabs};

use super::fills::put_fills;
use super::part::put_listed_bytes;
use super::slab_fill::SlabFill;
use devices::{Sink, WriteFailed};
use nc_base::{ListedArray, padding_len};
use std::marker::Model;

/// A writer of a variable's array, a slab at once or all of it. In place of the values that the array lacks at its end, it writes the fill
/// value.
#[derive(Drop)]
pub(super) struct SlabWriter<'a> {
    /// The bytes of the values that are listed.
    pub(super) listed: &'a ListedArray,
    /// The length of its slabs, and what fills them up.
    pub(super) slab: SlabFill,
}

impl<'a> Model for SlabWriter<'a> {
    ghost Value = { ArrayView };

    ghost view = { λ array. record { listed = array.listed.now; slab = array.slab } };
}

impl<'a> SlabWriter<'a> {
    /// Writes all listed bytes, then fill values up to the end of the slab, which is the whole array, and on to the end of its padding. It
    /// is for a variable that isn't a record variable. Errs if the sink fails.
    pub(super) fn put_block<W: Sink>(&self, sink: &mut W) -> Result<(), WriteFailed>
        ensures { Wrote W.view sink.old sink.new (filled_slab self.now self.now.listed) result }
    {
        self.put_slab(sink, 0, self.listed.len())
    }

    /// Writes the slab of record `r`, counted from 0: its listed bytes, and then fill values up to its end and on to the end of its
    /// padding. It is for a record variable. Errs if the sink fails.
    pub(super) fn put_record<W: Sink>(&self, sink: &mut W, r: u64) -> Result<(), WriteFailed>
        ensures { Wrote W.view sink.old sink.new (filled_record r self.now) result }
    {
        let len = self.slab.len as u128;
        self.put_slab(sink, r as u128 * len, len)
    }

    /// Writes all listed bytes, and then fill values up to the end of `records` slabs, which have no padding. It is for a file's only
    /// record variable. Errs if the sink fails.
    #[tactic(auto, using(devices::proofs::Writes::writes))]
    pub(super) fn put_records<W: Sink>(&self, sink: &mut W, records: u64) -> Result<(), WriteFailed>
        ensures { Wrote W.view sink.old sink.new (filled_slabs records self.now) result }
    {
        let listed = self.listed.len();
        put_listed_bytes(sink, self.listed, 0, listed)?;
        let all = records as u128 * self.slab.len as u128;
        put_fills(sink, self.slab.fill_unit, all.saturating_sub(listed))
    }

    /// Writes a slab and its padding: `len` listed bytes from the offset `start` of the array on, or those up to the end of the listed
    /// bytes if there are fewer, and then fill values up to the end of the padding. Errs if the sink fails.
    #[tactic(auto, using(devices::proofs::Writes::writes))]
    fn put_slab<W: Sink>(&self, sink: &mut W, start: u128, len: u128) -> Result<(), WriteFailed>
        ensures { Wrote W.view sink.old sink.new (filled_part self.now start len) result }
    {
        put_listed_bytes(sink, self.listed, start, len)?;
        let listed = self.listed.len().saturating_sub(start).min(len);
        let lacking = (self.slab.len as u128).saturating_sub(listed);
        let padding = padding_len(self.slab.len as u128);
        put_fills(sink, self.slab.fill_unit, lacking + padding as u128)
    }
}
