//! The blocks of a file: one for each variable that isn't a record variable, and one for all records together.

ghost use Rattle.std.specs.Prelude.{◌≡◌, ◌≤◌, ◌<◌, ◌^◌, ◌+◌, ◌==◌, ◌&&◌, All, IfOk, map, max, fold, position};
ghost use Rattle.nc_layout.specs.Slots.{record_slots, is_sole_narrow, slab_in_record, record_size};
ghost use Rattle.nc_layout.specs.Blocks.{slot_block, fixed_block, each_slot, record_slot_at, records_end, records_block, blocks};
ghost use Rattle.nc_layout.specs.Findings.{IsSoundSlot, IsSoundLayout};
ghost use Rattle.nc_layout.specs.code.Records.{slab_if, AreRecords};

use crate::records::{FileRecords, padded_slab_len, slab_in_record};
use crate::slot::{FileLayout, Slot};
use nc_findings::Block;
use std::alloc::{AllocError, Global};

/// A block (the values of a variable that isn't a record variable, or all records together), and where it lies.
#[derive(Clone, Copy, Debug, PartialEq, Eq)]
pub struct Extent {
    /// Which block it is.
    pub block: Block,
    /// The index of the variable that begins where the block begins: of several record variables, the first one.
    pub var: u64,
    /// The offset at which it begins.
    pub begin: u64,
    /// The offset at which its last value ends, or `begin` if it has no values.
    pub end: u128,
    /// The offset at which the padding after its last value ends, or `begin` if it has no values.
    pub padded_end: u128,
}

/// Returns the blocks of the file: one for each variable that isn't a record variable, in the order of the header, and then one for all
/// records, if there are record variables. Needs a sound layout (within the limits) and its `records`. Errs if an allocation fails.
#[tactic(auto, using(crate::proofs::SlotLists::record_size_le), unfolding(crate::specs::Blocks::blocks))]
pub(crate) fn blocks(
    alloc: Global,
    layout: &FileLayout,
    records: FileRecords,
) -> Result<Vec<Extent>, AllocError>
    requires sound { IsSoundLayout layout.now }
    requires records { AreRecords layout.now records }
    ensures { IfOk result (λ found. found.items ≡ blocks layout.now) }
{
    let slots = layout.slots.as_slice();
    let mut found = fixed_blocks(alloc, slots)?;
    if let Some(begin) = records.begin {
        found.push(records_block(slots, records, begin))?;
    }
    Ok(found)
}

/// Returns a block for each variable that isn't a record variable, in the order of `slots`, which has all variables. Needs sound slots
/// (within the limits). Errs only if an allocation fails.
fn fixed_blocks(alloc: Global, slots: &[Slot]) -> Result<Vec<Extent>, AllocError>
    requires { All IsSoundSlot slots.now }
    ensures { IfOk result (λ found. found.items ≡ each_slot fixed_block 0 slots.now) }
{
    let mut found = Vec::new(alloc);
    for (i, slot) in slots.iter().enumerate() {
        if !slot.is_record {
            found.push(slot_block(i as u64, *slot))?;
        }
    }
    Ok(found)
}

/// Returns the block of the variable at the index `i`, which has this slot: its one slab. It should be no record variable, but no clause
/// says so. Needs a begin and a slab below 2^63.
fn slot_block(i: u64, slot: Slot) -> Extent
    requires begin { slot.begin < 2 ^ 63 }
    requires slab { slot.slab < 2 ^ 63 }
    ensures { result ≡ slot_block i slot }
{
    Extent {
        block: Block::Var(i),
        var: i,
        begin: slot.begin,
        end: slot.begin as u128 + slot.slab as u128,
        padded_end: slot.begin as u128 + padded_slab_len(slot) as u128,
    }
}

/// Returns the block of all records, which begin at the offset `begin`. `slots` has all variables. Needs their `records`, of at most 2^62
/// bytes each.
fn records_block(slots: &[Slot], records: FileRecords, begin: u64) -> Extent
    requires narrow { records.sole_narrow ≡ is_sole_narrow (record_slots slots.now) }
    requires size { records.size ≡ record_size slots.now }
    requires small { records.size ≤ 2 ^ 62 }
    ensures { result ≡ records_block slots.now records.count begin }
{
    let ends = records_ends(slots, records, begin);
    Extent {
        block: Block::Records,
        var: record_slot_at(slots, begin),
        begin,
        end: ends.values,
        padded_end: ends.padding,
    }
}

/// Returns the index of the first record variable that begins at the offset `begin`, or 0 if there is none.
fn record_slot_at(slots: &[Slot], begin: u64) -> u64
    ensures { result ≡ record_slot_at slots.now begin }
{
    match position_of_record_slot(slots, begin) {
        Some(i) => i as u64,
        None => 0,
    }
}

/// Returns the index of the first record variable that begins at the offset `begin`, or `None` if there is none.
fn position_of_record_slot(slots: &[Slot], begin: u64) -> Option<usize>
    ensures { result ≡ position (λ slot. slot.is_record && (slot.begin == begin)) slots.now }
{
    slots
        .iter()
        .position(|slot| slot.is_record && slot.begin == begin)
}

/// The offsets at which the values of a block and their padding end.
#[derive(Clone, Copy)]
struct Ends {
    values: u128,
    padding: u128,
}

/// Returns the offsets at which the last record ends, without and with padding (a sole narrow slab has none). Both are `begin`, where the
/// records begin, if there are no records. Needs the `records` of these slots, of at most 2^62 bytes each.
fn records_ends(slots: &[Slot], records: FileRecords, begin: u64) -> Ends
    requires narrow { records.sole_narrow ≡ is_sole_narrow (record_slots slots.now) }
    requires size { records.size ≡ record_size slots.now }
    requires small { records.size ≤ 2 ^ 62 }
    ensures values { result.values ≡ records_end slots.now records.count begin (λ slot. slot.slab) }
    ensures padding { result.padding
        ≡ records_end slots.now records.count begin (slab_in_record slots.now) }
{
    if records.count == 0 {
        Ends {
            values: begin as u128,
            padding: begin as u128,
        }
    } else {
        let before = (records.count - 1) as u128 * records.size as u128;
        last_record_ends(slots, before, records.sole_narrow)
    }
}

/// Returns the offsets at which the values of the last record and their padding (none with `sole_narrow`) end, if the records before it
/// have `before` bytes. Both are 0 without a record variable. Needs `before` below 2^126.
fn last_record_ends(slots: &[Slot], before: u128, sole_narrow: bool) -> Ends
    requires { before < 2 ^ 126 }
    ensures values { result.values
        ≡ fold max 0 (map (λ slot. slot.begin + before + slot.slab) (record_slots slots.now)) }
    ensures padding { result.padding
        ≡ fold max 0 (map (λ slot. slot.begin + before + slab_if sole_narrow slot) (record_slots slots.now)) }
{
    let mut values: u128 = 0;
    let mut padding: u128 = 0;
    for slot in slots {
        if slot.is_record {
            let begin = slot.begin as u128 + before;
            values = values.max(begin + slot.slab as u128);
            padding = padding.max(begin + slab_in_record(*slot, sole_narrow));
        }
    }
    Ends { values, padding }
}
