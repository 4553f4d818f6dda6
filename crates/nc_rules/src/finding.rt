//! Findings, as rules make them.

ghost use Rattle.std.specs.Prelude.{◌≡◌, ◌++◌, OnOk};
ghost use Rattle.std.specs.Option.{option_to_list};
ghost use Rattle.nc_rules.specs.Indexed.{finding_at};

use nc_base::Sequence;
use nc_findings::{Fact, Finding};
use std::alloc::AllocError;

/// Returns the finding of this fact at the header's field that has this index and this offset in the file.
pub(crate) fn finding_at(index: u64, offset: u64, fact: Fact) -> Finding
    ensures { result ≡ finding_at index offset fact }
{
    Finding {
        offset,
        field: Some(index),
        fact,
    }
}

/// Appends the finding, or nothing if it is `None`. Errs only if an allocation fails.
pub(crate) fn push_some(
    found: &mut Sequence<Finding>,
    finding: Option<Finding>,
) -> Result<(), AllocError>
    ensures { OnOk result (found.new ≡ found.old ++ option_to_list finding) }
{
    if let Some(finding) = finding {
        found.push(finding)?;
    }
    Ok(())
}
