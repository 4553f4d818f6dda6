//! Findings at the size or the begin of one variable.

ghost use Rattle.std.specs.Prelude.{◌≡◌, ◌≤◌, ◌<◌, ◌^◌, ◌+◌, ◌++◌, OnOk, slice_get, Some};
ghost use Rattle.std.specs.Option.{ForSome};
ghost use Rattle.nc_layout.specs.Slots.{records_begin};
ghost use Rattle.nc_layout.specs.Blocks.{each_slot};
ghost use Rattle.nc_layout.specs.Findings.{IsSoundLayout};
ghost use Rattle.nc_layout.specs.SlotRules.{large_limit, large_variable, begin_in_header, after_records, record_place, slot_findings};
ghost use Rattle.nc_layout.specs.code.Records.{AreRecords};
ghost use Rattle.nc_layout.specs.code.PassedSlots.{HasPassed, order_after, passed_after, next_has_successor};

use crate::finding::{finding_if, push_some};
use crate::records::{FileRecords, padded_slab_len};
use crate::slot::{FileLayout, Slot};
use nc_base::{Sequence, Version};
use nc_findings::{LayoutFact, LayoutFinding, LayoutPlace};
use std::alloc::AllocError;

/// What a pass over the slots (begin, slab size and kind of each variable) keeps of those before the next one, for the rules on it.
#[derive(Clone, Copy)]
pub(crate) struct PassedSlots {
    /// The greatest begin of the passed variables that aren't record variables, or 0 if there are none.
    pub latest_begin: u64,
    /// The index of the first of these variables that has this begin. It means nothing if the begin is 0.
    pub latest: u64,
    /// The bytes of the padded slabs of the record variables that were passed.
    pub record_bytes: u64,
    /// How many variables are left, with the next one, that aren't record variables.
    pub fixed_left: u64,
    /// How many record variables are left, with the next one.
    pub records_left: u64,
}

/// Appends the findings at the size or the begin of each variable, in the order of the header. Needs a sound layout (within the limits) and
/// its `records`. Errs only if an allocation fails.
pub(crate) fn push_slot_findings(
    found: &mut Sequence<LayoutFinding>,
    layout: &FileLayout,
    records: FileRecords,
) -> Result<(), AllocError>
    requires sound { IsSoundLayout layout.now }
    requires records { AreRecords layout.now records }
    ensures { OnOk result
        (found.new ≡ found.old ++ each_slot (slot_findings layout.now) 0 layout.now.slots) }
{
    let slots = layout.slots.as_slice();
    let mut passed = no_slot_passed(slots);
    for (i, slot) in slots.iter().enumerate() {
        push_findings_of_slot(found, layout, records, passed, i as u64, *slot)?;
        passed = passed_after(passed, i as u64, *slot);
    }
    Ok(())
}

/// Returns what a pass over these slots, one for each variable, keeps before the first one: none is passed, and all are left.
fn no_slot_passed(slots: &[Slot]) -> PassedSlots
    ensures { HasPassed slots.now 0 result }
{
    let records_left = slots.iter().filter(|slot| slot.is_record).count() as u64;
    let fixed_left = slots.iter().filter(|slot| !slot.is_record).count() as u64;
    PassedSlots {
        latest_begin: 0,
        latest: 0,
        record_bytes: 0,
        fixed_left,
        records_left,
    }
}

/// Returns what a pass over the slots keeps once it has passed `slot`, at the index `i`, too; before, it kept `passed`. Needs a slab of at
/// most 2^48 bytes, and at most 2^62 `record_bytes`.
fn passed_after(passed: PassedSlots, i: u64, slot: Slot) -> PassedSlots
    requires bytes { passed.record_bytes ≤ 2 ^ 62 }
    requires slab { slot.slab ≤ 2 ^ 48 }
    ensures { result ≡ passed_after passed i slot }
{
    if slot.is_record {
        PassedSlots {
            record_bytes: passed.record_bytes + padded_slab_len(slot),
            records_left: passed.records_left.saturating_sub(1),
            ..passed
        }
    } else {
        PassedSlots {
            latest_begin: passed.latest_begin.max(slot.begin),
            latest: if passed.latest_begin < slot.begin {
                i
            } else {
                passed.latest
            },
            fixed_left: passed.fixed_left.saturating_sub(1),
            ..passed
        }
    }
}

/// Appends the findings at the size or the begin of the variable at the index `i`, which has this slot. `passed` is what the pass keeps of
/// the slots before it. Needs a sound layout (within the limits) and its `records`. Errs only if an allocation fails.
#[tactic(auto, using(crate::proofs::PassedLists::begin_is_small, crate::proofs::PassedLists::bytes_are_small))]
fn push_findings_of_slot(
    found: &mut Sequence<LayoutFinding>,
    layout: &FileLayout,
    records: FileRecords,
    passed: PassedSlots,
    i: u64,
    slot: Slot,
) -> Result<(), AllocError>
    requires sound { IsSoundLayout layout.now }
    requires records { AreRecords layout.now records }
    requires passed { HasPassed layout.now.slots i passed }
    requires at { slice_get layout.now.slots i ≡ Some slot }
    ensures { OnOk result (found.new ≡ found.old ++ slot_findings layout.now i slot) }
{
    let is_followed = has_successor(passed, records.begin.is_some(), slot);
    push_some(found, large_variable(layout.version, is_followed, i, slot))?;
    push_some(found, begin_in_header(layout, i, slot))?;
    push_some(found, order(passed, i, slot))?;
    push_some(found, after_records(records.begin, i, slot))?;
    push_some(
        found,
        record_place(records.begin, passed.record_bytes, i, slot),
    )?;
    Ok(())
}

/// Returns the greatest slab, in bytes, that the version allows for a variable that isn't the last, or `None` for CDF-5: it has no limit.
fn large_limit(version: Version) -> Option<u64>
    ensures { result ≡ large_limit version }
{
    match version {
        Version::Cdf1 => Some((1 << 31) - 4),
        Version::Cdf2 => Some((1 << 32) - 4),
        Version::Cdf5 => None,
    }
}

/// Returns true if the variable of this slot isn't the last: `passed`, what a pass keeps before it, has another one of its kind left, or it
/// isn't a record variable and there are some (`has_records`).
fn has_successor(passed: PassedSlots, has_records: bool, slot: Slot) -> bool
    ensures { result ≡ next_has_successor passed has_records slot }
{
    if slot.is_record {
        passed.records_left > 1
    } else {
        passed.fixed_left > 1 || has_records
    }
}

/// Returns the finding that the slab of the variable at the index `i` is greater than [`large_limit`] and the variable isn't the last
/// (`is_followed`), or `None`, as always for CDF-5.
fn large_variable(version: Version, is_followed: bool, i: u64, slot: Slot) -> Option<LayoutFinding>
    ensures { result ≡ large_variable version is_followed i slot }
{
    let limit = large_limit(version)?;
    finding_if(
        slot.slab > limit && is_followed,
        LayoutPlace::Vsize(i),
        LayoutFact::LargeVariable {
            var: i,
            bytes: slot.slab,
            limit,
        },
    )
}

/// Returns the finding that the variable at the index `i` begins before the header ends, or `None` if it doesn't.
fn begin_in_header(layout: &FileLayout, i: u64, slot: Slot) -> Option<LayoutFinding>
    ensures { result ≡ begin_in_header layout.now i slot }
{
    finding_if(
        slot.begin < layout.header_end,
        LayoutPlace::Begin(i),
        LayoutFact::BeginInHeader {
            begin: slot.begin,
            header_end: layout.header_end,
        },
    )
}

/// Returns the finding that the variable at the index `i` begins before an earlier one (`passed`) and neither is a record variable, or
/// `None`.
fn order(passed: PassedSlots, i: u64, slot: Slot) -> Option<LayoutFinding>
    ensures { result ≡ order_after passed i slot }
{
    finding_if(
        !slot.is_record && slot.begin < passed.latest_begin,
        LayoutPlace::Begin(i),
        LayoutFact::Order {
            begin: slot.begin,
            least: passed.latest_begin,
            of: passed.latest,
        },
    )
}

/// Returns the finding that the variable at the index `i` isn't a record variable, but begins after the records do, or `None`. The records
/// begin at the offset `records_begin`; it is `None` without record variables.
fn after_records(records_begin: Option<u64>, i: u64, slot: Slot) -> Option<LayoutFinding>
    ensures { result ≡ after_records records_begin i slot }
{
    let most = records_begin?;
    finding_if(
        !slot.is_record && slot.begin > most,
        LayoutPlace::Begin(i),
        LayoutFact::AfterRecords {
            begin: slot.begin,
            most,
        },
    )
}

/// Returns the finding that the slab of the record variable at the index `i` isn't in its place, `bytes` bytes after `records_begin`, the
/// offset at which the records begin, or `None`. Needs an offset below 2^63, and at most 2^62 `bytes`.
fn record_place(records_begin: Option<u64>, bytes: u64, i: u64, slot: Slot) -> Option<LayoutFinding>
    requires begin { ForSome records_begin (λ begin. begin < 2 ^ 63) }
    requires bytes { bytes ≤ 2 ^ 62 }
    ensures { result ≡ record_place records_begin bytes i slot }
{
    let begin = records_begin?;
    let expected = begin + bytes;
    finding_if(
        slot.is_record && slot.begin != expected,
        LayoutPlace::Begin(i),
        LayoutFact::RecordPlace {
            begin: slot.begin,
            expected,
        },
    )
}
