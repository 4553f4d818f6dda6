//! Which findings to report.

use crate::kind::{Kind, Severity};
use nc_base::Sequence;

/// Which findings to report: those that are grave enough, and not of an ignored kind.
#[derive(Debug, Drop)]
pub struct Filter {
    /// How grave a finding has to be at least to be reported (`-l` of nccheck(1)).
    pub level: Severity,
    /// The kinds that aren't reported (`-i`).
    pub ignored: Sequence<Kind>,
}
