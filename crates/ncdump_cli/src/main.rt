//! The program `ncdump [-h] [-c] [-v names] [-n name] [-l width] file`: a netCDF classic file as CDL text.
//!
//! If it can't write the text to standard output, one line on standard error says why, and the exit status is 1.
//!
//! [`ncdump::run`] does all of this. This crate gives it the words of the command line, and the standard streams through buffers, which it
//! flushes. If only this flush of standard output fails, no line says so.
#![tactic(auto)]

ghost use Rattle.std.specs.Prelude.{◌≡◌, ◌⊎◌, true};
ghost use Rattle.devices.specs.Failures.{HasFailed};

use cli_base::OptFault;
use devices::{Flush, IoSink};
use ncdump::{put_command_line_fault, run};
use std::fs::File;
use std::io::{BufWriter, Write};
use std::process::ExitCode;
use std::rt::{Env, Files};
use std::{env, io};

/// The capacity, in bytes, of the buffer between the text and standard output.
const TEXT_HELD_BACK: usize = 65536;

/// The capacity, in bytes, of the buffer before standard error. It holds the line of any file that can be opened, since a path has at most
/// 4,095 bytes then: so the line is passed on after the text, in one write.
const LINE_HELD_BACK: usize = 8192;

/// The exit status after a failure.
const FAILED: u8 = 1;

/// Runs the program, and returns its exit status: 0, or 1 after a failure.
fn main(rt: HostRuntime) -> ExitCode {
    match run_words(&rt, rt.stderr()) {
        Ok(status) => ExitCode::from(status),
        Err(fault) => {
            // A line that standard error doesn't take changes no status.
            let _ = put_command_line_fault(&mut IoSink::new(rt.stderr()), fault);
            ExitCode::from(FAILED)
        }
    }
}

/// Runs the program on the words that it was called with, with `stderr` as standard error, and returns its exit status. Errs with
/// `Usage` if a word isn't UTF-8, and with `OutOfMemory` if an allocation failed before the run. A failure in the run is no error:
/// [`run`] reports it on `stderr`, and the status is 1.
fn run_words<R: Env + Files<File = File> + Print + AllocGlobal, E: Write + Drop>(
    rt: &R,
    stderr: E,
) -> Result<u8, OptFault> {
    let alloc = rt.alloc();
    let arguments: Vec<String> = env::args(rt)?.collect(alloc)?;
    let words: Vec<&str> = arguments.iter().map(|word| word.as_str()).collect(alloc)?;
    let mut out = IoSink::new(BufWriter::with_capacity(alloc, TEXT_HELD_BACK, io::writer(rt))?);
    let mut err = IoSink::new(BufWriter::with_capacity(alloc, LINE_HELD_BACK, stderr)?);
    let run_status = run(rt, alloc, words.as_slice(), &mut out, &mut err);
    let status = flush_after_run(&mut out, run_status);
    let _ = err.flush();
    Ok(status)
}

/// Flushes `out` after a run that had this status, whatever it is. Returns the exit status: that of the run, or 1 if the flush failed.
fn flush_after_run<O: Flush>(out: &mut O, status: u8) -> u8
    ensures flushed { (O.is_flushed out.new ≡ true)
        ⊎ HasFailed (O.Sink.view out.old).failures (O.Sink.view out.new).failures }
    ensures zero { result ≡ 0 → O.is_flushed out.new ≡ true }
    ensures status { (result ≡ status) ⊎ (result ≡ 1) }
{
    match out.flush() {
        Ok(()) => status,
        Err(_) => FAILED,
    }
}
