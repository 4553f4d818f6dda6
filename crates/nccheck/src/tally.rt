//! What came of the files of a run, and how many of each there were.

ghost use Rattle.std.specs.Prelude.{◌≡◌, ◌+◌, ◌<◌, ◌^◌};
ghost use Rattle.devices.specs.code.SinkWrites.{Wrote};
ghost use Rattle.nccheck.specs.Tallies.{checked, count_text, count_words, counted, has_other_format, is_other_format, member_text, member_words, no_files, outcome_of, reported_members, reported_text, status_of, summary, summary_line, summary_object, total};

use crate::fault::FileFault;
use check_lines::gravest;
use check_options::Form;
use devices::{Sink, WriteFailed, put, put_decimal};
use nc_findings::Filter;
use nc_report::{Kind, Report, Severity};

/// The status of a run in which nothing was reported of any file.
pub(crate) const CLEAN: u8 = 0;

/// The status of a run in which something was reported.
const REPORTED: u8 = 1;

/// The status of a run in which something could not be done.
pub(crate) const TROUBLE: u8 = 2;

/// What came of a file.
#[derive(Clone, Copy)]
pub(crate) enum Outcome {
    /// Something was reported: the gravest severity.
    Reported(Severity),
    /// Nothing was reported.
    NothingReported,
    /// Nothing was reported, and the file has another format: HDF5 or gzip.
    OtherFormat,
}

/// Returns what came of a file with this report, if what the filter lets is reported.
pub(crate) fn outcome_of(report: &Report, filter: &Filter) -> Outcome
    ensures { result ≡ outcome_of filter.now report.now.findings }
{
    match gravest(report, filter) {
        Some(severity) => Outcome::Reported(severity),
        None if has_other_format(report) => Outcome::OtherFormat,
        None => Outcome::NothingReported,
    }
}

/// Returns true if the file of the report has another format.
fn has_other_format(report: &Report) -> bool
    ensures { result ≡ has_other_format report.now.findings }
{
    let findings = report.findings.as_slice();
    findings
        .iter()
        .any(|finding| is_other_format(finding.fact.kind()))
}

/// Returns true if findings of this kind are about files of another format.
fn is_other_format(kind: Kind) -> bool
    ensures { result ≡ is_other_format kind }
{
    matches!(kind, Kind::Hdf5 | Kind::Gzip)
}

/// How many files of a run were checked. Each counts once, for the gravest of what was reported of it.
#[derive(Clone, Copy)]
pub(crate) struct Tally {
    /// Those with an error.
    pub with_errors: u128,
    /// Those with a violation, and no error.
    pub with_violations: u128,
    /// Those with notes alone.
    pub with_notes: u128,
    /// Those of which nothing was reported.
    pub with_nothing: u128,
    /// Those of another format, of which nothing was reported.
    pub other_formats: u128,
    /// Those that could not be checked.
    pub not_checked: u128,
}

impl Tally {
    /// Returns the tally of no files.
    pub fn new() -> Tally
        ensures { result ≡ no_files }
    {
        Tally {
            with_errors: 0,
            with_violations: 0,
            with_notes: 0,
            with_nothing: 0,
            other_formats: 0,
            not_checked: 0,
        }
    }

    /// Returns the tally with one more file. `answer` is what came of it, or the fault for which it could not be checked. Needs fewer than
    /// 2^128 - 1 files in the tally.
    pub fn with(self, answer: Result<Outcome, FileFault>) -> Tally
        requires { total self + 1 < 2 ^ 128 }
        ensures { result ≡ counted self answer }
    {
        let mut tally = self;
        match answer {
            Ok(Outcome::Reported(Severity::Error)) => tally.with_errors += 1,
            Ok(Outcome::Reported(Severity::Violation)) => tally.with_violations += 1,
            Ok(Outcome::Reported(Severity::Note)) => tally.with_notes += 1,
            Ok(Outcome::NothingReported) => tally.with_nothing += 1,
            Ok(Outcome::OtherFormat) => tally.other_formats += 1,
            Err(_) => tally.not_checked += 1,
        }
        tally
    }

    /// Returns how many of these files were checked. A file of another format is one of them if something was reported of it, and otherwise
    /// is one of `other_formats`. Needs fewer than 2^128 files in the tally.
    fn checked(self) -> u128
        requires { total self < 2 ^ 128 }
        ensures { result ≡ checked self }
    {
        self.with_errors + self.with_violations + self.with_notes + self.with_nothing
    }

    /// Returns the exit status of a run over these files: 2 if one could not be checked, otherwise 1 if something was reported of one,
    /// otherwise 0.
    pub fn status(self) -> u8
        ensures { result ≡ status_of self }
    {
        if self.not_checked > 0 {
            TROUBLE
        } else if self.with_errors > 0 || self.with_violations > 0 || self.with_notes > 0 {
            REPORTED
        } else {
            CLEAN
        }
    }
}

/// What a number in the line of `-s` counts.
#[derive(Clone, Copy)]
enum SummaryCount {
    /// Files that were checked.
    Checked,
    /// Those with an error.
    WithErrors,
    /// Those with a violation, and no error.
    WithViolations,
    /// Those with notes alone.
    WithNotes,
    /// Those of which nothing was reported.
    WithNothing,
    /// Files of another format, of which nothing was reported.
    OtherFormats,
    /// Files that could not be checked.
    NotChecked,
}

/// Returns the words after a number in the line of `-s`, such as ` with errors, `.
#[tactic(auto, unfolding(crate::specs::Tallies::count_words))]
fn count_words(count: SummaryCount) -> &'static str
    ensures { result.now ≡ count_words count }
{
    match count {
        SummaryCount::Checked => " checked: ",
        SummaryCount::WithErrors => " with errors, ",
        SummaryCount::WithViolations => " with violations, ",
        SummaryCount::WithNotes => " with notes, ",
        SummaryCount::WithNothing => " with nothing to report; ",
        SummaryCount::OtherFormats => " of other formats; ",
        SummaryCount::NotChecked => " not checked\n",
    }
}

/// Writes the number `n` and the words that say what it counts, such as `3 with errors, `. Errs if the sink fails.
#[tactic(auto, using(devices::proofs::Writes::writes), unfolding(crate::specs::Tallies::count_text))]
fn put_count<W: Sink>(sink: &mut W, n: u128, count: SummaryCount) -> Result<(), WriteFailed>
    ensures { Wrote W.view sink.old sink.new (count_text n count) result }
{
    put_decimal(sink, n)?;
    put(sink, count_words(count).as_bytes())
}

/// Writes what `-s` asks for beside this form: an object beside `-j`, otherwise a line. Needs fewer than 2^128 files in the tally. Errs if the
/// sink fails.
pub(crate) fn put_summary<W: Sink>(
    sink: &mut W,
    form: Form,
    tally: Tally,
) -> Result<(), WriteFailed>
    requires { total tally < 2 ^ 128 }
    ensures { Wrote W.view sink.old sink.new (summary form tally) result }
{
    match form {
        Form::Objects => put_summary_object(sink, tally),
        Form::Lines | Form::Paths => put_summary_line(sink, tally),
    }
}

/// Writes the line of `-s`, such as `3 checked: 1 with errors, 0 with violations, 0 with notes, 2 with nothing to report; 7 of other
/// formats; 0 not checked`. Needs fewer than 2^128 files in the tally. Errs if the sink fails.
#[tactic(auto, using(devices::proofs::Writes::writes), unfolding(crate::specs::Tallies::summary_line))]
fn put_summary_line<W: Sink>(sink: &mut W, tally: Tally) -> Result<(), WriteFailed>
    requires { total tally < 2 ^ 128 }
    ensures { Wrote W.view sink.old sink.new (summary_line tally) result }
{
    put_count(sink, tally.checked(), SummaryCount::Checked)?;
    put_reported(sink, tally)?;
    put_count(sink, tally.other_formats, SummaryCount::OtherFormats)?;
    put_count(sink, tally.not_checked, SummaryCount::NotChecked)
}

/// Writes a part of the line of `-s`: `1 with errors, 0 with violations, 2 with notes, 5 with nothing to report; ` of the checked files.
/// Errs if the sink fails.
#[tactic(auto, using(devices::proofs::Writes::writes), unfolding(crate::specs::Tallies::reported_text))]
fn put_reported<W: Sink>(sink: &mut W, tally: Tally) -> Result<(), WriteFailed>
    ensures { Wrote W.view sink.old sink.new (reported_text tally) result }
{
    put_count(sink, tally.with_errors, SummaryCount::WithErrors)?;
    put_count(sink, tally.with_violations, SummaryCount::WithViolations)?;
    put_count(sink, tally.with_notes, SummaryCount::WithNotes)?;
    put_count(sink, tally.with_nothing, SummaryCount::WithNothing)
}

/// Returns the text before a number in the object of `-s`, such as `,"errors":`.
#[tactic(auto, unfolding(crate::specs::Tallies::member_words))]
fn member_words(count: SummaryCount) -> &'static str
    ensures { result.now ≡ member_words count }
{
    match count {
        SummaryCount::Checked => "{\"checked\":",
        SummaryCount::WithErrors => ",\"errors\":",
        SummaryCount::WithViolations => ",\"violations\":",
        SummaryCount::WithNotes => ",\"notes\":",
        SummaryCount::WithNothing => ",\"nothing_to_report\":",
        SummaryCount::OtherFormats => ",\"other_formats\":",
        SummaryCount::NotChecked => ",\"not_checked\":",
    }
}

/// Writes the words that say what a number counts in the object of `-s`, and the number `n`. Errs if the sink fails.
#[tactic(auto, using(devices::proofs::Writes::writes), unfolding(crate::specs::Tallies::member_text))]
fn put_member<W: Sink>(sink: &mut W, n: u128, count: SummaryCount) -> Result<(), WriteFailed>
    ensures { Wrote W.view sink.old sink.new (member_text n count) result }
{
    put(sink, member_words(count).as_bytes())?;
    put_decimal(sink, n)
}

/// Writes the object of `-s`, such as `{"checked":3,"errors":1,"violations":0,"notes":0,"nothing_to_report":2,"other_formats":7,` and
/// `"not_checked":0}`, in a line of its own. Needs fewer than 2^128 files in the tally. Errs if the sink fails.
#[tactic(auto, using(devices::proofs::Writes::writes), unfolding(crate::specs::Tallies::summary_object))]
fn put_summary_object<W: Sink>(sink: &mut W, tally: Tally) -> Result<(), WriteFailed>
    requires { total tally < 2 ^ 128 }
    ensures { Wrote W.view sink.old sink.new (summary_object tally) result }
{
    put_member(sink, tally.checked(), SummaryCount::Checked)?;
    put_reported_members(sink, tally)?;
    put_member(sink, tally.other_formats, SummaryCount::OtherFormats)?;
    put_member(sink, tally.not_checked, SummaryCount::NotChecked)?;
    put(sink, b"}\n")
}

/// Writes a part of the object of `-s`: of how many of the checked files something was reported, and of how many nothing. Errs if the sink
/// fails.
#[tactic(auto, using(devices::proofs::Writes::writes), unfolding(crate::specs::Tallies::reported_members))]
fn put_reported_members<W: Sink>(sink: &mut W, tally: Tally) -> Result<(), WriteFailed>
    ensures { Wrote W.view sink.old sink.new (reported_members tally) result }
{
    put_member(sink, tally.with_errors, SummaryCount::WithErrors)?;
    put_member(sink, tally.with_violations, SummaryCount::WithViolations)?;
    put_member(sink, tally.with_notes, SummaryCount::WithNotes)?;
    put_member(sink, tally.with_nothing, SummaryCount::WithNothing)
}
