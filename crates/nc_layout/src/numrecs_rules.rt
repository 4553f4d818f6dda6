//! Findings at the number of records.

ghost use Rattle.std.specs.Prelude.{◌≡◌, ◌++◌, OnOk};
ghost use Rattle.nc_layout.specs.NumRecsRules.{streaming, unused_records, numrecs_findings};
ghost use Rattle.nc_layout.specs.code.Records.{AreRecords};

use crate::finding::{finding_if, push_some};
use crate::records::FileRecords;
use crate::slot::FileLayout;
use nc_base::{NumRecs, Sequence};
use nc_findings::{LayoutFact, LayoutFinding, LayoutPlace};
use std::alloc::AllocError;

/// Appends the findings at the field `numrecs` of the header: the streaming mark, and records without a record variable. Needs the layout's
/// `records`. Errs only if an allocation fails.
#[tactic(auto, unfolding(crate::specs::NumRecsRules::numrecs_findings))]
pub(crate) fn push_numrecs_findings(
    found: &mut Sequence<LayoutFinding>,
    layout: &FileLayout,
    records: FileRecords,
) -> Result<(), AllocError>
    requires { AreRecords layout.now records }
    ensures { OnOk result (found.new ≡ found.old ++ numrecs_findings layout.now) }
{
    push_some(found, streaming(layout, records))?;
    push_some(found, unused_records(layout, records))?;
    Ok(())
}

/// Returns the finding that the header has the streaming mark in place of a number of records, or `None`. Needs the layout's `records`.
fn streaming(layout: &FileLayout, records: FileRecords) -> Option<LayoutFinding>
    requires { AreRecords layout.now records }
    ensures { result ≡ streaming layout.now layout.now.numrecs }
{
    match layout.numrecs {
        NumRecs::Known(_) => None,
        NumRecs::Streaming => finding_if(
            true,
            LayoutPlace::NumRecs,
            LayoutFact::Streaming {
                records: records.by_length,
            },
        ),
    }
}

/// Returns the finding that the header counts records, but has no record variable, or `None`. Needs the layout's `records`.
fn unused_records(layout: &FileLayout, records: FileRecords) -> Option<LayoutFinding>
    requires { AreRecords layout.now records }
    ensures { result ≡ unused_records layout.now layout.now.numrecs }
{
    match layout.numrecs {
        NumRecs::Known(n) => finding_if(
            n > 0 && records.begin.is_none(),
            LayoutPlace::NumRecs,
            LayoutFact::UnusedRecords { records: n },
        ),
        NumRecs::Streaming => None,
    }
}
