//! All findings about the layout of a file.

ghost use Rattle.std.specs.Prelude.{IfOk, IsPermutation};
ghost use Rattle.nc_layout.specs.Findings.{IsSoundLayout, layout_findings};

use crate::block_rules::push_block_findings;
use crate::blocks::blocks;
use crate::file_end::push_end_findings;
use crate::numrecs_rules::push_numrecs_findings;
use crate::records::file_records;
use crate::slot::FileLayout;
use crate::slot_rules::push_slot_findings;
use nc_base::Sequence;
use nc_findings::LayoutFinding;
use std::alloc::{AllocError, Global};

/// Returns all findings about the layout of a file, in no order that is promised. Errs only if an allocation fails.
///
/// Each slab has to have at least one byte and at most 2^48, each begin has to be below 2^63, the padded slabs of the record slots have to
/// have at most 2^62 bytes together, and the file has to have the whole header. It takes time in proportion to k log k for k slots, however
/// many records there are.
pub fn layout_findings(
    alloc: Global,
    layout: &FileLayout,
) -> Result<Sequence<LayoutFinding>, AllocError>
    requires { IsSoundLayout layout.now }
    ensures { IfOk result (λ found. IsPermutation (layout_findings layout.now) found) }
{
    let records = file_records(layout);
    let mut extents = blocks(alloc, layout, records)?;
    let mut found = Sequence::new(alloc);
    push_numrecs_findings(&mut found, layout, records)?;
    push_slot_findings(&mut found, layout, records)?;
    push_end_findings(&mut found, layout, records, extents.as_slice())?;
    push_block_findings(&mut found, layout, &mut extents)?;
    Ok(found)
}
