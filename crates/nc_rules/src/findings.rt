//! All findings of a listing, in their order.

ghost use Rattle.std.specs.Prelude.{IfOk, IsPermutation};
ghost use Rattle.std.specs.List.{AllPairs};
ghost use Rattle.nc_rules.specs.Findings.{all_findings, IsInOrder};
ghost use Rattle.nc_rules.specs.code.WholeHeaders.{HasSoundLayout};

use crate::header_rules::header_findings;
use crate::whole_header::push_whole_findings;
use nc_base::Sequence;
use nc_findings::{Finding, Listing};
use std::alloc::{AllocError, Global};

/// Returns all that is found in a file with this listing (its header's fields), by offset. Errs only if an allocation fails.
///
/// If the layout of a whole header isn't sound (within the limits), nothing is found about sizes and the layout, and no clause says that
/// all else is found. Each listing that `nc_fields::list_fields` returns for a transparent source has a sound layout.
pub fn findings_of(alloc: Global, listing: &Listing) -> Result<Sequence<Finding>, AllocError>
    ensures all { IfOk result (λ found. HasSoundLayout listing.now
        → IsPermutation (all_findings listing.now) found) }
    ensures in_order { IfOk result (AllPairs IsInOrder) }
{
    let start = listing.start.as_slice();
    let mut found = header_findings(alloc, start, listing.entries.as_slice())?;
    push_whole_findings(&mut found, alloc, listing)?;
    Ok(in_order(found))
}

/// Returns the findings sorted as a report has them: by offset, then by kind, by fact and by field.
fn in_order(found: Sequence<Finding>) -> Sequence<Finding>
    ensures all { IsPermutation found result }
    ensures in_order { AllPairs IsInOrder result }
{
    let mut findings = found.into_vec();
    findings.sort_unstable_by_key(|finding| {
        (
            finding.offset,
            finding.fact.kind(),
            finding.fact,
            finding.field,
        )
    });
    Sequence::from_vec(findings)
}
