//! The program `ncgen [-b] [-o file] [-k kind] [file]`: the netCDF classic file of a CDL text.
//!
//! If it can't make the file, one line on standard error says why, and the exit status is 1.
//!
//! [`ncgen::run`] does all of this. This crate gives it the words of the command line, standard input, and standard error through a buffer,
//! which it flushes.
#![tactic(auto)]

use cli_base::OptFault;
use devices::{CountedRead, Flush, IoSink};
use ncgen::{put_command_line_fault, run};
use std::env;
use std::fs::File;
use std::io::{BufWriter, Write};
use std::process::ExitCode;
use std::rt::{Env, Files};

/// The capacity, in bytes, of the buffer before standard error. A line that fits in the buffer is passed on in one write.
const LINE_HELD_BACK: usize = 4096;

/// Runs the program, and returns its exit status: 0, or 1 after a failure.
fn main(rt: HostRuntime) -> ExitCode {
    match run_words(&rt, rt.stderr()) {
        Ok(status) => ExitCode::from(status),
        Err(fault) => {
            // A line that standard error doesn't take changes no status.
            let _ = put_command_line_fault(&mut IoSink::new(rt.stderr()), fault);
            ExitCode::FAILURE
        }
    }
}

/// Runs the program on the words that it was called with, with `stderr` as standard error, and returns its exit status. Errs with
/// `Usage` if a word isn't UTF-8, and with `OutOfMemory` if an allocation failed before the run. A failure in the run is no error:
/// [`run`] reports it on `stderr`, and the status is 1.
fn run_words<R: Env + Files<File = File> + Input + AllocGlobal, E: Write + Drop>(
    rt: &R,
    stderr: E,
) -> Result<u8, OptFault> {
    let alloc = rt.alloc();
    let arguments: Vec<String> = env::args(rt)?.collect(alloc)?;
    let words: Vec<&str> = arguments.iter().map(|word| word.as_str()).collect(alloc)?;
    let mut input = CountedRead::new(rt.reader());
    let mut err = IoSink::new(BufWriter::with_capacity(alloc, LINE_HELD_BACK, stderr)?);
    let status = run(rt, alloc, words.as_slice(), &mut input, &mut err);
    let _ = err.flush();
    Ok(status)
}
