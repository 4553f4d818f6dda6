//! The limits that a sound layout keeps.

ghost use Rattle.std.specs.Prelude.{◌≤◌, ◌↔◌, All, IsTrue, sum_by};
ghost use Rattle.nc_base.specs.Sizes.{record_limit};
ghost use Rattle.nc_layout.specs.Slots.{padded_slab_len, record_slots};
ghost use Rattle.nc_layout.specs.Findings.{IsSoundSlot};

use crate::records::capped_record_bytes;
use crate::slot::{FileLayout, Slot};
use nc_base::{RECORD_LIMIT, SLAB_LIMIT};

/// What a begin is below: 2^63.
const BEGIN_LIMIT: u64 = 1 << 63;

impl FileLayout {
    ghost use Rattle.nc_layout.specs.Findings.{IsSoundLayout};

    /// Returns true if the layout is sound.
    ///
    /// In a sound layout each slab has at least one byte and at most 2^48, each begin is below 2^63, the padded slabs of the record slots
    /// have at most 2^62 bytes together, and the header ends inside of the file.
    pub fn is_sound(&self) -> bool
        ensures { IsTrue result ↔ IsSoundLayout self.now }
    {
        let slots = self.slots.as_slice();
        are_sound_slots(slots) && has_small_record(slots) && self.header_end <= self.file_len
    }
}

/// Returns true if the slot of each variable is sound: its slab and its begin are within the limits ([`is_sound_slot`]).
fn are_sound_slots(slots: &[Slot]) -> bool
    ensures { IsTrue result ↔ All IsSoundSlot slots.now }
{
    slots.iter().all(|slot| is_sound_slot(slot))
}

/// Returns true if the slab has at least one byte and at most 2^48, and the begin is below 2^63.
fn is_sound_slot(slot: &Slot) -> bool
    ensures { IsTrue result ↔ IsSoundSlot slot.now }
{
    slot.slab > 0 && slot.slab <= SLAB_LIMIT && slot.begin < BEGIN_LIMIT
}

/// Returns true if the padded slabs of the record variables have at most 2^62 bytes together.
fn has_small_record(slots: &[Slot]) -> bool
    ensures { IsTrue result ↔ (sum_by padded_slab_len (record_slots slots.now) ≤ record_limit) }
{
    capped_record_bytes(slots, false) <= RECORD_LIMIT
}
