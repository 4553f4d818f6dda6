//! The records of a file: where they begin, how large they are, and how many there are.

ghost use Rattle.std.specs.Prelude.{◌≡◌, ◌<◌, ◌^◌, ◌+◌, ◌/◌, min, sum_by};
ghost use Rattle.nc_base.specs.Sizes.{record_limit};
ghost use Rattle.nc_layout.specs.Slots.{padded_slab_len, record_slots, is_sole_narrow, records_begin};
ghost use Rattle.nc_layout.specs.Findings.{IsSoundLayout};
ghost use Rattle.nc_layout.specs.code.Records.{slab_if, AreRecords};

use crate::slot::{FileLayout, Slot};
use nc_base::{NumRecs, RECORD_LIMIT, padding_len};

/// What the rules on the layout need of the records of a file, computed once.
#[derive(Clone, Copy)]
pub(crate) struct FileRecords {
    /// The offset at which the first record begins, or `None` if there are no record variables.
    pub begin: Option<u64>,
    /// There is exactly one record variable, and its values have less than four bytes each: its slabs aren't padded.
    pub sole_narrow: bool,
    /// The number of bytes from the begin of a record to that of the next.
    pub size: u64,
    /// How many whole records lie between `begin` and the end of the file; 0 if there are no record variables.
    pub by_length: u64,
    /// How many records there are: as the header says, or `by_length` if it has the streaming mark.
    pub count: u64,
}

/// Returns the records of a file with this layout: where they begin, their size and their number. Needs a sound layout (within the limits).
#[tactic(auto, using(crate::proofs::SlotLists::record_size_is, crate::proofs::SlotLists::record_size_le), unfolding(crate::specs::Slots::record_count, crate::specs::Slots::records_by_length))]
pub(crate) fn file_records(layout: &FileLayout) -> FileRecords
    requires { IsSoundLayout layout.now }
    ensures { AreRecords layout.now result }
{
    let slots = layout.slots.as_slice();
    let begin = records_begin(slots);
    let sole_narrow = is_sole_narrow(slots);
    let size = capped_record_bytes(slots, sole_narrow) as u64;
    let by_length = match begin {
        Some(begin) => whole_records(layout.file_len.saturating_sub(begin), size),
        None => 0,
    };
    let count = match layout.numrecs {
        NumRecs::Known(n) => n,
        NumRecs::Streaming => by_length,
    };
    FileRecords {
        begin,
        sole_narrow,
        size,
        by_length,
        count,
    }
}

/// Returns the bytes of a slab of the variable with this slot, rounded up to a multiple of four. Needs a slab below 2^63 bytes.
pub fn padded_slab_len(slot: Slot) -> u64
    requires { slot.slab < 2 ^ 63 }
    ensures { result ≡ padded_slab_len slot }
{
    slot.slab + padding_len(slot.slab as u128)
}

/// Returns the bytes that the slab takes in a record: padded, or without padding if `sole_narrow` says that no other variable has records
/// and its values are narrow (less than four bytes).
pub(crate) fn slab_in_record(slot: Slot, sole_narrow: bool) -> u128
    ensures bytes { result ≡ slab_if sole_narrow slot }
    ensures small { result < 2 ^ 65 }
{
    let slab = slot.slab as u128;
    if sole_narrow {
        slab
    } else {
        slab + padding_len(slab) as u128
    }
}

/// Returns the bytes that the slabs of all record variables take in a record ([`slab_in_record`]), or 2^62 + 1 if these are more than 2^62.
pub(crate) fn capped_record_bytes(slots: &[Slot], sole_narrow: bool) -> u128
    ensures { result ≡ min (sum_by (slab_if sole_narrow) (record_slots slots.now)) (record_limit + 1) }
{
    let mut bytes: u128 = 0;
    for slot in slots {
        if slot.is_record {
            bytes = (bytes + slab_in_record(*slot, sole_narrow)).min(RECORD_LIMIT + 1);
        }
    }
    bytes
}

/// Returns the offset at which the records begin: the least begin of a record variable, or `None` if there is none.
fn records_begin(slots: &[Slot]) -> Option<u64>
    ensures { result ≡ records_begin slots.now }
{
    slots
        .iter()
        .filter(|slot| slot.is_record)
        .map(|slot| slot.begin)
        .min()
}

/// Returns true if exactly one of the variables is a record variable, and its values have less than four bytes each.
#[tactic(auto, using(crate::proofs::SlotLists::sole_is))]
fn is_sole_narrow(slots: &[Slot]) -> bool
    ensures { result ≡ is_sole_narrow (record_slots slots.now) }
{
    let mut sole = None;
    for slot in slots {
        if slot.is_record {
            if sole.is_some() {
                return false;
            }
            sole = Some(slot.is_narrow);
        }
    }
    sole.unwrap_or(false)
}

/// Returns how many whole records of `size` bytes fit into `bytes` bytes, or 0 if `size` is 0.
fn whole_records(bytes: u64, size: u64) -> u64
    ensures { result ≡ bytes / size }
{
    if size == 0 { 0 } else { bytes / size }
}
