//! The lines of a report, and its lines in JSON.

ghost use Rattle.std.specs.Prelude.{◌≡◌, IfOk};
ghost use Rattle.devices.specs.code.SinkWrites.{Wrote};
ghost use Rattle.check_lines.specs.Json.{json_lines};
ghost use Rattle.check_lines.specs.Lines.{gravest, has_reported, if_reported, is_at_level, is_reported, lines};
ghost use Rattle.check_lines.specs.Shown.{each_of};
ghost use Rattle.check_lines.specs.code.Names.{IsPassed};
ghost use Rattle.check_lines.specs.code.Styles.{finding_in};

use crate::line::put_line;
use crate::object::put_object;
use crate::passed::{Passed, nothing_passed, passed_up_to};
use crate::style::Style;
use devices::{Sink, WriteFailed};
use nc_findings::{Filter, Finding, Listing, Report, Severity};

/// Writes a line for each finding of a report that `filter` lets be reported: one that is grave enough and of no ignored kind. The lines
/// are in the order of the report. Each begins with `file`, which is the path of the file.
///
/// # Errors
///
/// The sink failed. It took some prefix of the lines.
#[tactic(auto, unfolding(crate::specs::code::Styles::told_in))]
pub fn put_lines<W: Sink>(
    sink: &mut W,
    file: &[u8],
    report: &Report,
    filter: &Filter,
) -> Result<(), WriteFailed>
    ensures { Wrote W.view sink.old sink.new
        (lines filter.now file.now report.now.listing report.now.findings) result }
{
    put_findings(sink, Style::Line, file, report, filter)
}

/// Writes a JSON object, and a line feed, for each finding of a report that `filter` lets be reported, in the order of the report. Each has
/// the path `file` of the file, the offset, the severity and the kind of the finding, its path as in its line, and what is found and
/// expected where the line tells it. `file` has to be UTF-8, so that the objects are.
///
/// # Errors
///
/// The sink failed. It took some prefix of the lines.
#[tactic(auto, unfolding(crate::specs::code::Styles::told_in))]
pub fn put_json_lines<W: Sink>(
    sink: &mut W,
    file: &[u8],
    report: &Report,
    filter: &Filter,
) -> Result<(), WriteFailed>
    ensures { Wrote W.view sink.old sink.new
        (json_lines filter.now file.now report.now.listing report.now.findings) result }
{
    put_findings(sink, Style::Json, file, report, filter)
}

/// Writes the line of each finding of a report that `filter` lets be reported, or its object, as `style` says. `file` is the path of the
/// file. Errs if the sink fails.
#[tactic(auto, using(devices::proofs::Writes::writes))]
fn put_findings<W: Sink>(
    sink: &mut W,
    style: Style,
    file: &[u8],
    report: &Report,
    filter: &Filter,
) -> Result<(), WriteFailed>
    ensures { Wrote W.view sink.old sink.new (each_of
        (if_reported (finding_in style file.now report.now.listing) filter.now)
        report.now.findings) result }
{
    let findings = report.findings.as_slice();
    let mut passed = nothing_passed();
    for finding in findings {
        passed = put_if_reported(sink, style, file, &report.listing, filter, passed, finding)?;
    }
    Ok(())
}

/// If `filter` lets a finding be reported, writes its line or its object, as `style` says, and returns how many fields there are up to its
/// own, and the names that are known after them ([`passed_up_to`]). Otherwise writes nothing, and returns `passed`, which an earlier
/// finding has left. `file` is the path of the file. Needs a `passed` of this listing. Errs if the sink fails.
#[tactic(auto, using(devices::proofs::Writes::writes), unfolding(crate::specs::code::Styles::told_in))]
fn put_if_reported<'a, W: Sink>(
    sink: &mut W,
    style: Style,
    file: &[u8],
    listing: &'a Listing,
    filter: &Filter,
    passed: Passed<'a>,
    finding: &Finding,
) -> Result<Passed<'a>, WriteFailed>
    requires { IsPassed listing.now.entries passed }
    ensures text { Wrote W.view sink.old sink.new (if_reported
        (finding_in style file.now listing.entry.now) filter.now finding.now) result }
    ensures passed { IfOk result (IsPassed listing.entry.now.entries) }
{
    if !is_reported(filter, finding) {
        return Ok(passed);
    }
    let passed = passed_up_to(passed, listing.entries.as_slice(), finding.field);
    match style {
        Style::Line => put_line(sink, file, listing, passed.names, finding)?,
        Style::Json => put_object(sink, file, listing, passed.names, finding)?,
    }
    Ok(passed)
}

/// Returns the gravest severity of the findings that the filter lets be reported, or `None` if it lets none.
pub fn gravest(report: &Report, filter: &Filter) -> Option<Severity>
    ensures { result ≡ gravest filter.now report.now.findings }
{
    if has_reported(report, filter, Severity::Error) {
        Some(Severity::Error)
    } else if has_reported(report, filter, Severity::Violation) {
        Some(Severity::Violation)
    } else if has_reported(report, filter, Severity::Note) {
        Some(Severity::Note)
    } else {
        None
    }
}

/// Returns true if the filter lets a finding of the report be reported that is at least as grave as `severity`.
fn has_reported(report: &Report, filter: &Filter, severity: Severity) -> bool
    ensures { result ≡ has_reported filter.now severity report.now.findings }
{
    let findings = report.findings.as_slice();
    findings.iter().any(|finding| {
        is_reported(filter, finding) && is_at_level(severity, finding.fact.kind().severity())
    })
}

/// Returns true if the finding is at least as grave as the level of the filter, and of no kind that it ignores.
fn is_reported(filter: &Filter, finding: &Finding) -> bool
    ensures { result ≡ is_reported filter.now finding.now }
{
    let kind = finding.fact.kind();
    is_at_level(filter.level, kind.severity()) && !filter.ignored.as_slice().contains(&kind)
}

/// Returns true if `severity` is at least as grave as `level`. A note is the least grave, and an error the gravest.
fn is_at_level(level: Severity, severity: Severity) -> bool
    ensures { result ≡ is_at_level level severity }
{
    match level {
        Severity::Note => true,
        Severity::Violation => !matches!(severity, Severity::Note),
        Severity::Error => matches!(severity, Severity::Error),
    }
}
