//! What is wrong or odd in a netCDF classic file.
//!
//! [`check`] reads a header once, and returns a report: the listing of its fields (`nc_fields`), and all findings, each at a field or in
//! the data, by offset (`nc_rules`). No value is read, so files with floats and doubles can be checked as any others. `specs/` has the
//! definition.
//!
//! ```
//! let mut buf = [0; 4096];
//! let report = check(alloc, source, &mut buf)?;
//! let findings = report.findings.as_slice().iter();
//! let severities = findings.map(|finding| finding.fact.kind().severity());
//! Ok(severities.filter(|it| *it == Severity::Error).count())
//! ```
#![tactic(auto)]

mod report;

pub use nc_findings::{
    Fact, Finding, HIGHEST_RANK, Kind, LARGE_COUNT, LONGEST_NAME, Report, Severity,
};
pub use nc_rules::findings_of;
pub use report::check;
