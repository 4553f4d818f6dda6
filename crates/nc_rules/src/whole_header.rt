//! Findings that need a whole header.

ghost use Rattle.std.specs.Prelude.{◌≡◌, ◌++◌, ◌<◌, ◌^◌, map, slice_get, OnOk, IsPermutation};
ghost use Rattle.nc_layout.specs.Findings.{IsSoundLayout, layout_findings};
ghost use Rattle.nc_rules.specs.WholeHeader.{vsize_fact, whole_findings};
ghost use Rattle.nc_rules.specs.code.WholeHeaders.{HasSoundLayout, found_at_number, located_number, vsize_finding_at, vsize_findings_at};

use crate::ahead::NumberField;
use crate::finding::{finding_at, push_some};
use crate::number_fields::{NumberFields, number_fields};
use crate::superblock::hdf5_truncated;
use nc_base::{Sequence, Version};
use nc_findings::{Fact, Finding, LayoutFinding, LayoutPlace, Listing};
use nc_layout::{FileLayout, Slot, layout_findings, padded_slab_len, sound_layout};
use std::alloc::{AllocError, Global};

/// If the header is whole (no field is wrong), appends the findings about the sizes of variables (`vsize`) and the layout of the file, in
/// no order that is promised. Of a header whose layout isn't sound (within the limits) nothing is promised. If the header isn't whole,
/// appends the finding that the file is one of HDF5 and too short, if it is. Errs only if an allocation fails.
pub(crate) fn push_whole_findings(
    found: &mut Sequence<Finding>,
    alloc: Global,
    listing: &Listing,
) -> Result<(), AllocError>
    ensures { OnOk result (HasSoundLayout listing.now
        → IsPermutation (found.old ++ whole_findings listing.now) found.new) }
{
    let Ok(header) = &listing.header else {
        let cut = hdf5_truncated(listing.start.as_slice(), listing.file_len);
        return push_some(found, cut);
    };
    if let Some(layout) = sound_layout(alloc, header, listing.end, listing.file_len)? {
        let fields = number_fields(alloc, listing.entries.as_slice())?;
        push_vsize_findings(found, &layout, &fields.vsizes)?;
        push_layout_findings(found, alloc, &layout, &fields)?;
    }
    Ok(())
}

/// Appends a finding at each field `vsize` that hasn't the number that is written for the variable ([`vsize_fact`]). `vsizes` are these
/// fields, in the order of the header. Needs a sound layout (within the limits). Errs only if an allocation fails.
fn push_vsize_findings(
    found: &mut Sequence<Finding>,
    layout: &FileLayout,
    vsizes: &Sequence<NumberField>,
) -> Result<(), AllocError>
    requires { IsSoundLayout layout.now }
    ensures { OnOk result (found.new ≡ found.old ++ vsize_findings_at layout.now vsizes.now) }
{
    let slots = layout.slots.as_slice();
    for (i, slot) in slots.iter().enumerate() {
        let vsize = field_at(vsizes, i as u64);
        push_some(found, vsize_finding(layout.version, *slot, vsize))?;
    }
    Ok(())
}

/// Returns the finding at the field `vsize` of the variable of `slot` ([`vsize_fact`]), or `None` if there is none, or if the field is
/// `None`.
fn vsize_finding(version: Version, slot: Slot, vsize: Option<NumberField>) -> Option<Finding>
    requires { slot.slab < 2 ^ 63 }
    ensures { result ≡ vsize_finding_at version slot vsize }
{
    let field = vsize?;
    let fact = vsize_fact(version, slot, field.number)?;
    Some(finding_at(field.index, field.offset, fact))
}

/// Returns what is wrong or odd about `found` as the size of the variable of `slot`, or `None` if it is what the version writes: the bytes
/// of the padded slab, or 2^32 - 1 if these don't fit the field. It is odd if `found` is the bytes of the slab without padding or 0, or if
/// the padded slab doesn't fit the field; otherwise `found` contradicts the variable's type and shape.
fn vsize_fact(version: Version, slot: Slot, found: u64) -> Option<Fact>
    requires { slot.slab < 2 ^ 63 }
    ensures { result ≡ vsize_fact version slot found }
{
    let padded = padded_slab_len(slot);
    let expected = version.vsize_of(padded);
    if found == expected {
        None
    } else if found == slot.slab || found == 0 || expected != padded {
        Some(Fact::OddVsize { expected })
    } else {
        Some(Fact::Vsize { expected })
    }
}

/// Appends all findings about the layout, each at the field of the header that it is about (`fields`) or at an offset in the data, in no
/// order that is promised. Needs a sound layout (within the limits). Errs only if an allocation fails.
fn push_layout_findings(
    found: &mut Sequence<Finding>,
    alloc: Global,
    layout: &FileLayout,
    fields: &NumberFields,
) -> Result<(), AllocError>
    requires { IsSoundLayout layout.now }
    ensures { OnOk result (IsPermutation
        (found.old ++ map (located_number fields.now) (layout_findings layout.now)) found.new) }
{
    let of_layout = layout_findings(alloc, layout)?;
    push_located(found, fields, of_layout.as_slice())
}

/// Appends these findings about the layout, in their order, each at its field (one of `fields`) or at its offset in the data. Errs only if
/// an allocation fails.
fn push_located(
    found: &mut Sequence<Finding>,
    fields: &NumberFields,
    of_layout: &[LayoutFinding],
) -> Result<(), AllocError>
    ensures { OnOk result (found.new ≡ found.old ++ map (located_number fields.now) of_layout.now) }
{
    for finding in of_layout {
        found.push(located(fields, *finding))?;
    }
    Ok(())
}

/// Returns this finding about the layout as a [`Finding`]: at the field that it is about, one of `fields`, or at its offset in the data.
fn located(fields: &NumberFields, finding: LayoutFinding) -> Finding
    ensures { result ≡ located_number fields.now finding }
{
    let fact = Fact::Layout(finding.fact);
    match finding.place {
        LayoutPlace::NumRecs => found_at(field_at(&fields.numrecs, 0), fact),
        LayoutPlace::Vsize(i) => found_at(field_at(&fields.vsizes, i), fact),
        LayoutPlace::Begin(i) => found_at(field_at(&fields.begins, i), fact),
        LayoutPlace::Data(offset) => Finding {
            offset,
            field: None,
            fact,
        },
    }
}

/// Returns the field at the index `i` of these, or `None` if there is none.
fn field_at(fields: &Sequence<NumberField>, i: u64) -> Option<NumberField>
    ensures { result ≡ slice_get fields.now i }
{
    fields.as_slice().get(i as usize).copied()
}

/// Returns the finding of this fact at the field, or at the offset 0 and at no field if there is none.
fn found_at(field: Option<NumberField>, fact: Fact) -> Finding
    ensures { result ≡ found_at_number field fact }
{
    match field {
        Some(field) => finding_at(field.index, field.offset, fact),
        None => Finding {
            offset: 0,
            field: None,
            fact,
        },
    }
}
