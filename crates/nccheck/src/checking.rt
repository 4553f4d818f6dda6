//! The check of one path.

ghost use Rattle.std.specs.Prelude.{◌≡◌, [], ◌∷◌, ◌++◌, false, OnErr};
ghost use Rattle.std.specs.Bool.{OnTrue};
ghost use Rattle.devices.specs.code.PathOpens.{NamesAsBefore};
ghost use Rattle.devices.specs.code.SinkWrites.{Wrote};
ghost use Rattle.check_options.specs.code.Options.{asked_for};
ghost use Rattle.nccheck.specs.PathLists.{Path};
ghost use Rattle.nccheck.specs.Runs.{ChecksBytes, ChecksItem, ChecksNamed, ends_run, OpensFile, openings, Reports, shown, state, written, WriteFailsOnly};
ghost use Rattle.nccheck.specs.code.OpenedFiles.{ReadsOpened};

use crate::fault::FileFault;
use crate::fault_text::put_file_fault;
use crate::format::tell_format;
use crate::path_list::path_of;
use crate::tally::{Outcome, outcome_of};
use check_lines::{gravest, put_json_lines, put_lines};
use check_options::{CheckOptions, Form};
use devices::{Opener, Sink, Source, WriteFailed, put};
use nc_report::{Report, check};
use std::alloc::Global;

/// Checks the file at the path `file`, and writes the lines of its findings to `out` as the options ask. Returns what came of it. Errs as
/// [`check_file`] does, and also with `BadPath` for a path that is empty, isn't UTF-8 or has more than 65,535 bytes. Writes the line of an
/// error to `err`, and passes over a failure of `err`.
#[tactic(auto, using(crate::proofs::InTurn::is_told))]
pub(crate) fn check_item<P: Opener, O: Sink, E: Sink>(
    opener: &mut P,
    alloc: Global,
    file: &[u8],
    options: &CheckOptions<'_>,
    out: &mut O,
    err: &mut E,
) -> Result<Outcome, FileFault>
    ensures checks { ChecksItem
        (openings P.Source.is_transparent (P.named opener.old) P.view) (asked_for options.now)
        (Path file.now) (state O.view E.view opener.old out.old err.old)
        (state O.view E.view opener.new out.new err.new) result }
    ensures names { NamesAsBefore (P.named opener.old) (P.named opener.new) }
{
    let answer = match path_of(file) {
        Ok(path) => check_file(opener, alloc, path, options, out),
        Err(why) => Err(FileFault::BadPath(why)),
    };
    if let Err(fault) = answer {
        let _ = put_file_fault(err, file, fault);
    }
    answer
}

/// Returns true if a run ends after a check with this answer: if standard output failed. After any other fault, also if an allocation
/// failed, the run goes on with the next file.
pub(crate) fn ends_run(answer: Result<Outcome, FileFault>) -> bool
    ensures { result ≡ ends_run answer }
{
    matches!(answer, Err(FileFault::WriteFailed))
}

/// Opens the file at the path `file`, checks it, writes the lines of its findings to `out` as the options ask, and closes it. Returns what
/// came of it. Errs with `CannotOpen`, `ReadFailed` (the source failed), `OutOfMemory`, or `NotClassic` (the options ask for the file's format),
/// before it has written anything, and with `WriteFailed` if `out` fails, after some prefix of the lines.
fn check_file<P: Opener, O: Sink>(
    opener: &mut P,
    alloc: Global,
    file: &str,
    options: &CheckOptions<'_>,
    out: &mut O,
) -> Result<Outcome, FileFault>
    ensures opens { OpensFile (P.view opener.old) (P.view opener.new) result }
    ensures writes { WriteFailsOnly (O.view out.old) (O.view out.new) result }
    ensures checks { OnTrue P.Source.is_transparent (ChecksNamed
        (asked_for options.now) (P.named opener.old file.now) file.now
        (O.view out.old) (O.view out.new) result) }
    ensures names { NamesAsBefore (P.named opener.old) (P.named opener.new) }
{
    let mut source = opener.open(file)?;
    let answer = check_source(&mut source, alloc, file, options, out);
    opener.close(source);
    answer
}

/// The length of the buffer that a file is read through, in bytes.
const BUFFER_LEN: usize = 4096;

/// Checks the file that `source` reads ([`report_source`]), or writes its format to `out` ([`tell_format`]), as the options ask. Returns what
/// came of it. Errs as [`check_file`] does once it has opened the file.
fn check_source<S: Source, O: Sink>(
    source: &mut S,
    alloc: Global,
    file: &str,
    options: &CheckOptions<'_>,
    out: &mut O,
) -> Result<Outcome, FileFault>
    ensures reads { ReadsOpened (S.view source.old).failures (S.view source.new).failures result }
    ensures writes { WriteFailsOnly (O.view out.old) (O.view out.new) result }
    ensures checks { OnTrue S.is_transparent (ChecksBytes
        (asked_for options.now) (S.view source.old).bytes file.now
        (O.view out.old) (O.view out.new) result) }
{
    if options.tells_formats {
        tell_format(source, out)
    } else {
        report_source(source, alloc, file, options, out)
    }
}

/// Checks the file that `source` reads, through a buffer of 4096 bytes, and writes what the options ask for of its findings to `out`. Returns
/// what came of it. Errs as [`check_file`] does once it has opened the file.
fn report_source<S: Source, O: Sink>(
    source: &mut S,
    alloc: Global,
    file: &str,
    options: &CheckOptions<'_>,
    out: &mut O,
) -> Result<Outcome, FileFault>
    ensures reads { ReadsOpened (S.view source.old).failures (S.view source.new).failures result }
    ensures writes { WriteFailsOnly (O.view out.old) (O.view out.new) result }
    ensures reports { OnTrue S.is_transparent (Reports
        (asked_for options.now) (S.view source.old).bytes file.now
        (O.view out.old) (O.view out.new) result) }
{
    let mut buf = [0u8; BUFFER_LEN];
    let report = check(alloc, source, &mut buf)?;
    put_unless_quiet(out, file, &report, options)?;
    Ok(outcome_of(&report, &options.filter))
}

/// Writes the findings of the report that the options let be reported, in the form that they ask for. With `-q` it writes nothing, and
/// doesn't err; otherwise it errs if `out` fails.
#[tactic(auto, using(devices::proofs::Writes::writes))]
fn put_unless_quiet<O: Sink>(
    out: &mut O,
    file: &str,
    report: &Report,
    options: &CheckOptions<'_>,
) -> Result<(), WriteFailed>
    ensures text { Wrote O.view out.old out.new
        (shown (asked_for options.now) file.now report.now.listing report.now.findings) result }
    ensures not_quiet { OnErr result (options.now.is_quiet ≡ false) }
{
    if options.is_quiet {
        Ok(())
    } else {
        put_findings(out, file.as_bytes(), report, options)
    }
}

/// Writes the findings of the report that the options let be reported: a line or an object for each, or the path `file` and a NUL if there is
/// one. Errs if `out` fails.
#[tactic(auto, using(devices::proofs::Writes::writes))]
fn put_findings<O: Sink>(
    out: &mut O,
    file: &[u8],
    report: &Report,
    options: &CheckOptions<'_>,
) -> Result<(), WriteFailed>
    ensures { Wrote O.view out.old out.new
        (written (asked_for options.now).form (asked_for options.now).filter file.now report.now.listing report.now.findings) result }
{
    match options.form {
        Form::Lines => put_lines(out, file, report, &options.filter),
        Form::Objects => put_json_lines(out, file, report, &options.filter),
        Form::Paths => match gravest(report, &options.filter) {
            Some(_) => put_path(out, file),
            None => Ok(()),
        },
    }
}

/// Writes a path, and a NUL after it. Errs if `out` fails.
#[tactic(auto, using(devices::proofs::Writes::writes))]
fn put_path<O: Sink>(out: &mut O, file: &[u8]) -> Result<(), WriteFailed>
    ensures { Wrote O.view out.old out.new (file.now ++ 0 ∷ []) result }
{
    put(out, file)?;
    put(out, b"\0")
}
