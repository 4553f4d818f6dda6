//! A run of the program.

ghost use Rattle.std.specs.Prelude.{◌≡◌, ◌≤◌, true, IfSome};
ghost use Rattle.cli_base.specs.Arguments.{texts_of};
ghost use Rattle.devices.specs.Readers.{view_of};
ghost use Rattle.devices.specs.Uses.{use_of};
ghost use Rattle.check_options.specs.CommandLine.{asked_by};
ghost use Rattle.check_options.specs.code.Options.{asked_for};
ghost use Rattle.nccheck.specs.Info.{info_text};
ghost use Rattle.nccheck.specs.Runs.{openings, Runs, RunsAsked, RunsFiles, RunsWords, state, Writes};
ghost use Rattle.nccheck.specs.code.Endings.{EndsAfter};

use crate::counting::check_all;
use crate::fault_text::{put_flush_fault, put_refusal};
use crate::info::{Info, info_in, put_info};
use crate::tally::{CLEAN, TROUBLE, put_summary};
use check_options::{CheckOptions, options_of_words};
use devices::{CountedRead, Flush, Opener, Sink};
use std::alloc::Global;
use std::io::Read;

/// Runs the program, and returns its exit status. `words` is the command line, with the program's name first; `opener` opens the files;
/// `input` is standard input, `out` is standard output, and `err` is standard error.
///
/// The status is 2 if the words are no command line (with no `-V` or `-h` before `--`), if a file can't be opened or read, if the list on
/// standard input can't be read, if standard output fails, or if an allocation fails; a line on standard error says so. Otherwise it is 1
/// if something was reported of a file, and 0 if nothing was, or if the words ask for the version or for help. Files are checked in the
/// order of the words, and then in that of the list, which is read only if the words ask for that. After a file that can't be opened or
/// read, or for which an allocation fails, the run goes on with the next one; a failure of standard output ends it, and is told once.
/// Standard output is flushed in any case. Standard error is not flushed.
#[tactic(auto, using(crate::proofs::Endings::endings))]
pub fn run_with<P: Opener, R: Read, O: Flush, E: Sink>(
    opener: &mut P,
    alloc: Global,
    words: &[&str],
    input: &mut CountedRead<R>,
    out: &mut O,
    err: &mut E,
) -> u8
    ensures runs { Runs
        (openings P.Source.is_transparent (P.named opener.old) P.view)
        (texts_of words.now)
        (use_of (view_of R.remaining) input.old input.new)
        (state O.Sink.view E.view opener.old out.old err.old)
        (state O.Sink.view E.view opener.new out.new err.new) result }
    ensures status { result ≤ 2 }
    ensures flushed { result ≤ 1 → O.is_flushed out.new ≡ true }
{
    let status = run_words(opener, alloc, words, input, out, err);
    let flushed = out.flush();
    match status {
        Some(status) => status_after(flushed, status, err).unwrap_or(TROUBLE),
        None => TROUBLE,
    }
}

/// Returns `status`, if standard output took what was `written`. Otherwise writes the line of a failure to `err`, passes over a failure of
/// `err`, and returns `None`.
#[tactic(auto, using(crate::proofs::InTurn::is_told))]
fn status_after<F: Drop, E: Sink>(written: Result<(), F>, status: u8, err: &mut E) -> Option<u8>
    ensures { EndsAfter (E.view err.old) (E.view err.new) written status result }
{
    match written {
        Ok(()) => Some(status),
        Err(_) => {
            let _ = put_flush_fault(err);
            None
        }
    }
}

/// Does what the words ask for: writes the version or the help, or checks files. Returns the exit status, from 0 to 2, or `None` if `out`
/// failed, which `err` was told. Flushes nothing.
fn run_words<P: Opener, R: Read, O: Sink, E: Sink>(
    opener: &mut P,
    alloc: Global,
    words: &[&str],
    input: &mut CountedRead<R>,
    out: &mut O,
    err: &mut E,
) -> Option<u8>
    ensures runs { RunsWords
        (openings P.Source.is_transparent (P.named opener.old) P.view)
        (texts_of words.now)
        (use_of (view_of R.remaining) input.old input.new)
        (state O.view E.view opener.old out.old err.old)
        (state O.view E.view opener.new out.new err.new) result }
    ensures status { IfSome result (λ status. status ≤ 2) }
{
    match info_in(words) {
        Some(info) => inform(info, out, err),
        None => check_for_words(opener, alloc, words, input, out, err),
    }
}

/// Writes the version or the help to `out`, and returns the exit status 0. If `out` fails, writes a line to `err`, and returns `None`.
#[tactic(auto, using(crate::proofs::Endings::endings))]
fn inform<O: Sink, E: Sink>(info: Info, out: &mut O, err: &mut E) -> Option<u8>
    ensures writes { Writes (info_text info)
        (state O.view E.view (tt {0}) out.old err.old) (state O.view E.view tt out.new err.new) 0 result }
    ensures status { IfSome result (λ status. status ≤ 2) }
{
    let written = put_info(out, info);
    status_after(written, CLEAN, err)
}

/// Checks the files that the words name, and returns the exit status ([`check_files`]). If the words are misused, or an allocation failed
/// while they were read, says so on `err`, and returns 2.
#[tactic(auto, using(crate::proofs::InTurn::is_told))]
fn check_for_words<P: Opener, R: Read, O: Sink, E: Sink>(
    opener: &mut P,
    alloc: Global,
    words: &[&str],
    input: &mut CountedRead<R>,
    out: &mut O,
    err: &mut E,
) -> Option<u8>
    ensures runs { RunsAsked
        (openings P.Source.is_transparent (P.named opener.old) P.view)
        (asked_by (texts_of words.now))
        (use_of (view_of R.remaining) input.old input.new)
        (state O.view E.view opener.old out.old err.old)
        (state O.view E.view opener.new out.new err.new) result }
    ensures status { IfSome result (λ status. status ≤ 2) }
{
    match options_of_words(alloc, words) {
        Ok(options) => check_files(opener, alloc, &options, input, out, err),
        Err(fault) => {
            let _ = put_refusal(err, fault);
            Some(TROUBLE)
        }
    }
}

/// Checks the files of the options, with those whose paths `input` has if the options ask for that (`-0`), and returns the exit status:
/// that of [`Tally::status`](crate::tally::Tally::status), or `None` if `out` failed, which ends the run, and which `err` was told. If the
/// options ask for it (`-s`), and the run wasn't ended so, writes a line that counts the files to `out`.
fn check_files<P: Opener, R: Read, O: Sink, E: Sink>(
    opener: &mut P,
    alloc: Global,
    options: &CheckOptions<'_>,
    input: &mut CountedRead<R>,
    out: &mut O,
    err: &mut E,
) -> Option<u8>
    ensures runs { RunsFiles
        (openings P.Source.is_transparent (P.named opener.old) P.view) (asked_for options.now)
        (use_of (view_of R.remaining) input.old input.new)
        (state O.view E.view opener.old out.old err.old)
        (state O.view E.view opener.new out.new err.new) result }
    ensures status { IfSome result (λ status. status ≤ 2) }
{
    let tally = check_all(opener, alloc, options, input, out, err)?;
    if !options.has_summary {
        return Some(tally.status());
    }
    let written = put_summary(out, options.form, tally);
    status_after(written, tally.status(), err)
}
