//! The program `nccheck [-q] [-s] [-j] [-p] [-k] [-0] [-l level] [-i kinds] [file ...]`: what is wrong or odd in netCDF classic files.
//!
//! A line on standard output tells each finding, or an object or a path, as the options ask; a line on standard error tells each trouble.
//! The exit status is 0 if nothing was reported, 1 if something was, and 2 after trouble.
//!
//! [`nccheck::run_with`] does all of this. This crate gives it the words of the command line, the files of the system, standard input, and
//! standard output and standard error through buffers of a line.
#![tactic(auto)]

use cli_base::OptFault;
use devices::{CountedRead, DirectFiles, Flush, IoSink};
use nccheck::{put_command_line_fault, run_with};
use std::fs::File;
use std::io::{LineWriter, Write};
use std::process::ExitCode;
use std::rt::{Env, Files};
use std::{env, io};

/// The capacity, in bytes, of the buffers before standard output and standard error. A line, or a path of `-p`, that fits is passed on in
/// one write, at its end: a pipe takes as many bytes in one piece, so that those of several processes don't mix in it.
const LINE_HELD_BACK: usize = 4096;

/// A writer that passes each line, and each path that a NUL ends, on in one write, if it fits in the buffer. (A `write` of the buffer itself
/// passes on first what it holds, and then the end of the line.)
#[derive(Drop)]
struct WholeLines<W: Write + Drop> {
    /// The buffer.
    lines: LineWriter<W>,
}

impl<W: Write + Drop> Write for WholeLines<W> {
    /// Takes all the bytes. Passes on what it has up to the end of the last line, or all if a NUL is the last byte, and holds the rest back
    /// if it fits in the buffer. Errs if the writer that it passes them on to fails.
    fn write(&mut self, buf: &[u8]) -> io::Result<usize> {
        self.lines.write_all(buf)?;
        if let [.., 0] = buf {
            self.lines.flush()?;
        }
        Ok(buf.len())
    }

    /// Passes on what is held back. Errs if the writer that it passes this on to fails.
    fn flush(&mut self) -> io::Result<()> {
        self.lines.flush()
    }
}

/// The exit status after trouble.
const TROUBLE: u8 = 2;

/// Runs the program, and returns its exit status: 0, 1 or 2.
fn main(rt: HostRuntime) -> ExitCode {
    match run_words(&rt, rt.stderr()) {
        Ok(status) => ExitCode::from(status),
        Err(fault) => {
            // A line that standard error doesn't take changes no status.
            let _ = put_command_line_fault(&mut IoSink::new(rt.stderr()), fault);
            ExitCode::from(TROUBLE)
        }
    }
}

/// Runs the program on the words that it was called with, with `stderr` as standard error, and returns its exit status. Errs with
/// `Usage` if a word isn't UTF-8, and with `OutOfMemory` if an allocation failed before the run. Trouble in the run is no error:
/// [`run_with`] tells it on `stderr`, and the status is 2.
fn run_words<R: Env + Files<File = File> + Input + Print + AllocGlobal, E: Write + Drop>(
    rt: &R,
    stderr: E,
) -> Result<u8, OptFault> {
    let alloc = rt.alloc();
    let arguments: Vec<String> = env::args(rt)?.collect(alloc)?;
    let words: Vec<&str> = arguments.iter().map(|word| word.as_str()).collect(alloc)?;
    let mut files = DirectFiles::new(rt);
    let mut input = CountedRead::new(rt.reader());
    let mut out = IoSink::new(WholeLines {
        lines: LineWriter::with_capacity(alloc, LINE_HELD_BACK, io::writer(rt))?,
    });
    let mut err = IoSink::new(WholeLines {
        lines: LineWriter::with_capacity(alloc, LINE_HELD_BACK, stderr)?,
    });
    let words = words.as_slice();
    let status = run_with(&mut files, alloc, words, &mut input, &mut out, &mut err);
    let _ = err.flush();
    Ok(status)
}
