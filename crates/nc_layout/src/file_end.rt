//! Findings at the end of the file.

ghost use Rattle.std.specs.Prelude.{◌≡◌, ◌≤◌, ◌<◌, ◌+◌, ◌*◌, ◌++◌, ◌^◌, ◌==◌, ℕ, OnOk, true, filter, max, nat_lt, if◌then◌else◌};
ghost use Rattle.nc_types.specs.Bytes.{padding_len};
ghost use Rattle.nc_layout.specs.Blocks.{blocks};
ghost use Rattle.nc_layout.specs.Findings.{IsSoundLayout, IsSoundSlot};
ghost use Rattle.nc_layout.specs.FileEnd.{record_slab, slabs_of, first_of, first_slab, is_cut, first_cut_slab, missing, end_padding, spare_len, spare_padding, numrecs_by_length, trailing, end_findings};
ghost use Rattle.nc_layout.specs.code.Records.{AreRecords};
ghost use Rattle.nc_layout.specs.code.BlockEnds.{AreEnds};

use crate::blocks::Extent;
use crate::finding::{finding_if, push_some};
use crate::records::FileRecords;
use crate::slot::{FileLayout, Slot};
use nc_base::{NumRecs, Sequence, padding_len};
use nc_findings::{LayoutFact, LayoutFinding, LayoutPlace, Slab};
use std::alloc::AllocError;

/// The offsets at which the blocks of a file end (each variable that isn't a record variable, and all records), or the header if later.
#[derive(Clone, Copy)]
pub(crate) struct BlockEnds {
    /// The greatest end of the values of a block that has some.
    pub values: u128,
    /// The greatest end of the padding of a block that has values.
    pub padding: u128,
    /// The same with blocks that have no values: that of the records ends where they begin, if there are none.
    pub used: u128,
}

/// A slab (the values of a record variable in one record, or all values of another variable), and where it lies.
#[derive(Clone, Copy, Debug, PartialEq, Eq)]
pub struct SlabPlace {
    /// Which slab it is.
    pub slab: Slab,
    /// The offset at which it begins.
    pub begin: u128,
    /// The offset at which its last value ends.
    pub end: u128,
}

/// Appends the findings at the end of the file: it lacks values or padding, or has bytes after them. Needs a sound layout (within the
/// limits), its `records`, and `extents`, the blocks of the layout: each variable that isn't a record variable has one, and all records
/// together are one. Errs only if an allocation fails.
pub(crate) fn push_end_findings(
    found: &mut Sequence<LayoutFinding>,
    layout: &FileLayout,
    records: FileRecords,
    extents: &[Extent],
) -> Result<(), AllocError>
    requires sound { IsSoundLayout layout.now }
    requires records { AreRecords layout.now records }
    requires blocks { extents.now ≡ blocks layout.now }
    ensures { OnOk result (found.new ≡ found.old ++ end_findings layout.now) }
{
    let ends = file_ends(layout, extents);
    push_some(found, missing(layout, records, ends))?;
    push_some(found, end_padding(layout, ends))?;
    push_some(found, spare_padding(layout, records, ends))?;
    push_some(found, trailing(layout, records, ends))?;
    Ok(())
}

/// Returns the offsets at which the data of the file ends. Needs `extents` that are the blocks of the layout.
fn file_ends(layout: &FileLayout, extents: &[Extent]) -> BlockEnds
    requires { extents.now ≡ blocks layout.now }
    ensures { AreEnds layout.now result }
{
    let header_end = layout.header_end as u128;
    let mut ends = BlockEnds {
        values: header_end,
        padding: header_end,
        used: header_end,
    };
    for block in extents {
        ends = ends_including(ends, *block);
    }
    ends
}

/// Returns `ends` with one more block taken in: each is the greater of the two ends. A block without values counts for `used` alone.
fn ends_including(ends: BlockEnds, block: Extent) -> BlockEnds
    ensures values { result.values
        ≡ (if nat_lt block.begin block.end then max ends.values block.end else ends.values) }
    ensures padding { result.padding
        ≡ (if nat_lt block.begin block.end then max ends.padding block.padded_end else ends.padding) }
    ensures used { result.used ≡ max ends.used block.padded_end }
{
    let used = ends.used.max(block.padded_end);
    if block.end > block.begin as u128 {
        BlockEnds {
            values: ends.values.max(block.end),
            padding: ends.padding.max(block.padded_end),
            used,
        }
    } else {
        BlockEnds { used, ..ends }
    }
}

/// Returns the finding that the file ends before the values do, with the first slab that isn't whole, or `None`. Needs a sound layout
/// (within the limits), its `records` and its `ends`.
fn missing(layout: &FileLayout, records: FileRecords, ends: BlockEnds) -> Option<LayoutFinding>
    requires sound { IsSoundLayout layout.now }
    requires records { AreRecords layout.now records }
    requires ends { AreEnds layout.now ends }
    ensures { result ≡ missing layout.now }
{
    let cut = first_cut_slab(layout, records)?;
    finding_if(
        (layout.file_len as u128) < ends.values,
        LayoutPlace::Data(layout.file_len),
        LayoutFact::Missing {
            file_len: layout.file_len,
            end: ends.values,
            slab: cut.slab,
        },
    )
}

/// Returns the finding that the file has all values, but ends before their padding does, or `None`. Needs the layout's `ends`.
fn end_padding(layout: &FileLayout, ends: BlockEnds) -> Option<LayoutFinding>
    requires { AreEnds layout.now ends }
    ensures { result ≡ end_padding layout.now }
{
    let file_len = layout.file_len as u128;
    finding_if(
        ends.values <= file_len && file_len < ends.padding,
        LayoutPlace::Data(layout.file_len),
        LayoutFact::EndPadding {
            file_len: layout.file_len,
            end: ends.padding,
        },
    )
}

/// Returns the finding that the padding of a sole record variable of narrow values follows the last record, where none belongs, or `None`.
/// Needs the layout's `records` and `ends`.
fn spare_padding(
    layout: &FileLayout,
    records: FileRecords,
    ends: BlockEnds,
) -> Option<LayoutFinding>
    requires records { AreRecords layout.now records }
    requires ends { AreEnds layout.now ends }
    ensures { result ≡ spare_padding layout.now }
{
    let spare = spare_len(layout, ends);
    if 0 < spare && spare <= spare_padding_len(records) as u128 {
        Some(LayoutFinding {
            place: LayoutPlace::Data(ends.used as u64),
            fact: LayoutFact::EndPadding {
                file_len: layout.file_len,
                end: ends.used,
            },
        })
    } else {
        None
    }
}

/// Returns how many bytes follow the blocks of the file. If any do, the blocks end below 2^64. Needs the layout's `ends`.
fn spare_len(layout: &FileLayout, ends: BlockEnds) -> u128
    requires { AreEnds layout.now ends }
    ensures spare { result ≡ spare_len layout.now }
    ensures end { 0 < result → ends.used < 2 ^ 64 }
{
    (layout.file_len as u128).saturating_sub(ends.used)
}

/// Returns how many bytes of padding the last record lacks: of a sole record variable of narrow values up to 3, and otherwise 0, also if
/// there are no records. `records` are those of the layout.
fn spare_padding_len(records: FileRecords) -> u64
    ensures { result ≡ (if records.count == 0 then 0 else padding_len records.size) }
{
    if records.count == 0 {
        0
    } else {
        padding_len(records.size as u128)
    }
}

/// Returns the finding that the file has bytes after the values and any padding, or `None`. Needs the layout's `records` and `ends`.
fn trailing(layout: &FileLayout, records: FileRecords, ends: BlockEnds) -> Option<LayoutFinding>
    requires records { AreRecords layout.now records }
    requires ends { AreEnds layout.now ends }
    ensures { result ≡ trailing layout.now }
{
    if spare_len(layout, ends) > spare_padding_len(records) as u128 {
        let end = ends.used as u64;
        Some(LayoutFinding {
            place: LayoutPlace::Data(end),
            fact: LayoutFact::Trailing {
                file_len: layout.file_len,
                end,
                records: numrecs_by_length(layout, records),
            },
        })
    } else {
        None
    }
}

/// Returns the number of whole records that fit into the file if the header counts fewer, or `None`, also for the streaming mark. Needs the
/// layout's `records`.
fn numrecs_by_length(layout: &FileLayout, records: FileRecords) -> Option<u64>
    requires { AreRecords layout.now records }
    ensures { result ≡ numrecs_by_length layout.now layout.now.numrecs }
{
    match layout.numrecs {
        NumRecs::Known(n) if n < records.by_length => Some(records.by_length),
        _ => None,
    }
}

/// Returns the slab that begins first of those that end after the file does, or `None` if all are whole. A slab is the values of a record
/// variable in one record, or all values of another variable. Needs a sound layout (within the limits) and its `records`.
fn first_cut_slab(layout: &FileLayout, records: FileRecords) -> Option<SlabPlace>
    requires sound { IsSoundLayout layout.now }
    requires records { AreRecords layout.now records }
    ensures { result ≡ first_cut_slab layout.now }
{
    let slots = layout.slots.as_slice();
    let mut first = None;
    for (i, slot) in slots.iter().enumerate() {
        let cut = cut_slab_of(layout.file_len, records, i as u64, *slot);
        first = first_of(first, cut);
    }
    first
}

/// Returns the one of two slabs that begins first, or `slab` if both begin at one offset. If one is `None`, returns the other.
fn first_of(slab: Option<SlabPlace>, later: Option<SlabPlace>) -> Option<SlabPlace>
    ensures { result ≡ first_of slab later }
{
    match (slab, later) {
        (None, later) => later,
        (Some(slab), None) => Some(slab),
        (Some(slab), Some(later)) => Some(if later.begin < slab.begin {
            later
        } else {
            slab
        }),
    }
}

/// Returns the first slab of the variable at the index `i`, which has this slot, that ends after the first `file_len` bytes. Returns `None`
/// if all of its slabs are whole. Needs a sound slot, records of at most 2^62 bytes, and of at least one if it is a record variable.
fn cut_slab_of(file_len: u64, records: FileRecords, i: u64, slot: Slot) -> Option<SlabPlace>
    requires sound { IsSoundSlot slot }
    requires size { slot.is_record ≡ true → 0 < records.size }
    requires small { records.size ≤ 2 ^ 62 }
    ensures { result
        ≡ first_slab (filter (is_cut file_len) (slabs_of records.size records.count i slot)) }
{
    if slot.is_record {
        let whole = whole_slabs(file_len, slot, records.size);
        if whole < records.count {
            Some(record_slab(records.size, i, slot, whole))
        } else {
            None
        }
    } else {
        let begin = slot.begin as u128;
        let end = begin + slot.slab as u128;
        if end > file_len as u128 {
            Some(SlabPlace {
                slab: Slab::Var(i),
                begin,
                end,
            })
        } else {
            None
        }
    }
}

/// Returns the slab of the variable at the index `i`, a record variable with this slot, in the record `number`, from 0. Needs a sound slot
/// (within the limits) and a `size` (the bytes from a record to the next) of at most 2^62.
fn record_slab(size: u64, i: u64, slot: Slot, number: u64) -> SlabPlace
    requires sound { IsSoundSlot slot }
    requires small { size ≤ 2 ^ 62 }
    ensures { result ≡ record_slab size i slot number }
{
    let begin = slot.begin as u128 + number as u128 * size as u128;
    SlabPlace {
        slab: Slab::Record {
            var: i,
            record: number,
        },
        begin,
        end: begin + slot.slab as u128,
    }
}

/// Returns how many slabs of the record variable with this slot end within the first `file_len` bytes, if it has one every `size` bytes
/// from its begin on, without end: the number of records in the header plays no part. Needs a sound slot and a `size` above 0.
fn whole_slabs(file_len: u64, slot: Slot, size: u64) -> u64
    requires sound { IsSoundSlot slot }
    requires size { 0 < size }
    ensures whole { (r : ℕ) → r < result → slot.begin + r * size + slot.slab ≤ file_len }
    ensures cut { (r : ℕ) → result ≤ r → file_len < slot.begin + r * size + slot.slab }
{
    let end = slot.begin + slot.slab;
    if file_len < end {
        0
    } else {
        (file_len - end) / size + 1
    }
}
