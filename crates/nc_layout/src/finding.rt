//! Findings about the layout of a file, as rules make them.

ghost use Rattle.std.specs.Prelude.{◌≡◌, ◌++◌, OnOk};
ghost use Rattle.std.specs.Option.{option_to_list};
ghost use Rattle.nc_layout.specs.FindingIf.{finding_if};

use nc_base::Sequence;
use nc_findings::{LayoutFact, LayoutFinding, LayoutPlace};
use std::alloc::AllocError;

/// Returns the finding of this fact in this place if `holds` is true, or `None` if it isn't.
pub(crate) fn finding_if(holds: bool, place: LayoutPlace, fact: LayoutFact) -> Option<LayoutFinding>
    ensures { result ≡ finding_if holds place fact }
{
    holds.then_some(LayoutFinding { place, fact })
}

/// Appends the finding, or nothing if it is `None`. Errs only if an allocation fails.
pub(crate) fn push_some(
    found: &mut Sequence<LayoutFinding>,
    finding: Option<LayoutFinding>,
) -> Result<(), AllocError>
    ensures { OnOk result (found.new ≡ found.old ++ option_to_list finding) }
{
    match finding {
        Some(finding) => found.push(finding),
        None => Ok(()),
    }
}
