//! A run of the program.

ghost use Rattle.std.specs.Prelude.{◌≡◌, string_bytes};
ghost use Rattle.std.specs.Bool.{OnTrue};
ghost use Rattle.devices.specs.Openers.{opener_use};
ghost use Rattle.devices.specs.Uses.{use_of};
ghost use Rattle.ncdump.specs.Dumps.{options_of, Dumps};
ghost use Rattle.ncdump.specs.Dumps as dumps;
ghost use Rattle.ncdump.specs.Runs.{run_of, DumpsAsked, DumpsFile, Ends, EndsOverSystem, OfDump, OpensFile};
ghost use Rattle.ncdump.specs.code.Shows.{ReadFailsOnly};

use crate::command_line::options_of_words;
use crate::dumping::dump;
use crate::fault::{Failure, FileFault};
use crate::fault_text::put_failure;
use crate::options::DumpOptions;
use devices::{Opener, Sink, Source, SystemFiles};
use std::alloc::Global;
use std::fs::File;
use std::rt::Files;

/// Runs the program on the files of the system that `rt` stands for, and returns its exit status, as [`run_with`] does.
pub fn run<R: Files<File = File>, O: Sink, E: Sink>(
    rt: &R,
    alloc: Global,
    words: &[&str],
    out: &mut O,
    err: &mut E,
) -> u8
    ensures { EndsOverSystem words.now
        (use_of O.view out.old out.new) (use_of E.view err.old err.new) result }
{
    run_with(&mut SystemFiles::new(rt), alloc, words, out, err)
}

/// Runs the program, and returns its exit status. `words` is the command line, with the program's name first; `opener` opens the file;
/// `out` is standard output, and `err` is standard error.
///
/// The status is 0 if the dump that the words ask for was written to standard output. Otherwise the status is 1, and a line on standard
/// error names the failure: of the command line, of opening the file, or of its dump. If standard error fails, the status stays 1. Neither
/// is flushed.
pub fn run_with<P: Opener, O: Sink, E: Sink>(
    opener: &mut P,
    alloc: Global,
    words: &[&str],
    out: &mut O,
    err: &mut E,
) -> u8
    ensures { Ends
        (run_of words.now
        (opener_use P.Source.is_transparent P.named P.view opener.old opener.new)
        (use_of O.view out.old out.new))
        (use_of E.view err.old err.new) result }
{
    match dump_for_words(opener, alloc, words, out) {
        Ok(()) => 0,
        Err(failure) => {
            let _ = put_failure(err, &failure);
            1
        }
    }
}

/// Opens the file that the words name, writes its dump to `out`, and gives the file back to `opener`. Errs with `CommandLine` if the
/// words are no valid command line, or if an allocation failed while they were read. Errs with `File` if the file can't be opened, or
/// if its dump failed.
fn dump_for_words<P: Opener, O: Sink>(
    opener: &mut P,
    alloc: Global,
    words: &[&str],
    out: &mut O,
) -> Result<(), Failure>
    ensures { DumpsAsked
        (run_of words.now
        (opener_use P.Source.is_transparent P.named P.view opener.old opener.new)
        (use_of O.view out.old out.new)) result }
{
    let options = options_of_words(alloc, words)?;
    match open_and_dump(opener, alloc, &options, out) {
        Ok(()) => Ok(()),
        Err(fault) => Err(Failure::File(options.file, fault)),
    }
}

/// Opens the file that the options name, writes its dump to `out`, and gives the file back to the opener, also if the dump failed. Errs
/// with `CannotOpen` if the file can't be opened, or with the fault of its dump.
fn open_and_dump<P: Opener, O: Sink>(
    opener: &mut P,
    alloc: Global,
    options: &DumpOptions,
    out: &mut O,
) -> Result<(), FileFault>
    ensures opens { OpensFile (P.view opener.old) (P.view opener.new) result }
    ensures writes { OfDump
        (dumps.WriteFailsOnly (O.view out.old) (O.view out.new)) (O.view out.new ≡ O.view out.old) result }
    ensures dump { OnTrue P.Source.is_transparent (DumpsFile
        (P.named opener.old (string_bytes options.now.file)) (options_of options.now)
        (O.view out.old) (O.view out.new) result) }
{
    let mut source = opener.open(options.file.as_str())?;
    let answer = dump_buffered(alloc, &mut source, options, out);
    opener.close(source);
    answer
}

/// The length of the buffer that a file is read through, in bytes.
const BUFFER_LEN: usize = 4096;

/// Dumps the source's file to the sink, as the options ask, through a buffer of 4096 bytes. Errs with the fault of [`dump`], as
/// `FileFault::Dump`, and never with `CannotOpen`.
fn dump_buffered<S: Source, W: Sink>(
    alloc: Global,
    source: &mut S,
    options: &DumpOptions,
    sink: &mut W,
) -> Result<(), FileFault>
    ensures reads { OfDump (ReadFailsOnly (S.view source.old) (S.view source.new)) ⊥ result }
    ensures writes { OfDump (dumps.WriteFailsOnly (W.view sink.old) (W.view sink.new)) ⊥ result }
    ensures shows { OnTrue S.is_transparent (OfDump (Dumps (S.view source.old).bytes
        (options_of options.now) (W.view sink.old) (W.view sink.new)) ⊥ result) }
{
    let mut buf = [0u8; BUFFER_LEN];
    dump(alloc, source, options, &mut buf, sink)?;
    Ok(())
}
