//! All findings at the fields of a header.

ghost use Rattle.std.specs.Prelude.{IfOk, IsPermutation};
ghost use Rattle.nc_rules.specs.HeaderRules.{header_findings};

use crate::attribute_rules::push_attribute_findings;
use crate::field_rules::{push_field_findings, push_floating_finding};
use crate::name_rules::push_name_findings;
use nc_base::Sequence;
use nc_findings::{Entry, Finding};
use std::alloc::{AllocError, Global};

/// Returns all findings at these fields of a header, except those that need a whole header (about sizes and the layout of the file), in no
/// order that is promised. `start` is the start of a file that isn't netCDF. Errs only if an allocation fails.
///
/// It takes time in proportion to n log n for n fields, however many names are equal.
pub(crate) fn header_findings(
    alloc: Global,
    start: &[u8],
    entries: &[Entry],
) -> Result<Sequence<Finding>, AllocError>
    ensures { IfOk result (λ found. IsPermutation (header_findings start.now entries.now) found) }
{
    let mut found = Sequence::new(alloc);
    push_field_findings(&mut found, alloc, start, entries)?;
    push_floating_finding(&mut found, entries)?;
    let names = push_name_findings(&mut found, alloc, entries)?;
    push_attribute_findings(&mut found, entries, &names)?;
    Ok(found)
}
