//! Devices over the files and writers of the standard library.

ghost use Rattle.std.specs.Prelude.{◌≡◌, ◌+◌, ◌^◌, ◌-◌, ◌<◌, false, length, min, replicate, IfOk, IsErr};
ghost use Rattle.devices.specs.code.SinkWrites.{unfailed};

use crate::ahead::ReadAhead;
use crate::{Flush, OpenFailed, Sink, SinkFailed, Source, SourceFailed};
use std::fs::File;
use std::io::{ErrorKind, Write};
use std::os::unix::fs::FileExt;
use std::rt::Files;
use std::{fs, io};

/// A source over a file of the system, whose bytes contracts don't know (it is opaque).
///
/// The length of the source is that of the file when it was opened. It reads stretches of the file ahead, so that reads which lie near each
/// other take few calls of the system. A call that fails is not tried again.
pub type FileSource = ReadAhead<OpenFile>;

impl ReadAhead<OpenFile> {
    /// Opens the regular file at the path as a source, which keeps the length that the file has now. `rt` stands for the system.
    ///
    /// # Errors
    ///
    /// The path names no regular file, the file can't be opened for reading, or the system doesn't tell its kind or its length.
    pub fn open(rt: &impl Files<File = File>, path: &str) -> Result<FileSource, OpenFailed>
        ensures failures { IfOk result (λ source. source.failures ≡ 0) }
        ensures handed { IfOk result (λ source. source.handed ≡ 0) }
    {
        let source = OpenFile::open(rt, path)?;
        Ok(ReadAhead::new(source))
    }
}

/// A source over a file of the system, whose bytes contracts don't know (it is opaque). Each read is one call of the system.
///
/// The length of the source is that of the file when it was opened. A call that fails is not tried again.
#[derive(Drop)]
pub struct OpenFile {
    file: File,
    len: u64,
    /// How often a read has failed, at most `u128::MAX`.
    pub(crate) failures: u128,
    /// How many bytes were read.
    handed: u128,
}

impl OpenFile {
    /// Opens the regular file at the path as a source, which keeps the length that the file has now. `rt` stands for the system.
    ///
    /// # Errors
    ///
    /// The path names no regular file, the file can't be opened for reading, or the system doesn't tell its kind or its length.
    pub fn open(rt: &impl Files<File = File>, path: &str) -> Result<OpenFile, OpenFailed>
        ensures failures { IfOk result (λ source. source.failures ≡ 0) }
        ensures handed { IfOk result (λ source. source.handed ≡ 0) }
    {
        // asked of the path, since to open a pipe is to wait for its writer
        let named = fs::metadata(rt, path)?;
        if !named.is_file() {
            return Err(OpenFailed::NotRegular);
        }
        let file = File::open(rt, path)?;
        let metadata = file.metadata()?;
        Ok(OpenFile {
            file,
            len: metadata.len(),
            failures: 0,
            handed: 0,
        })
    }
}

impl Source for OpenFile {
    ghost is_transparent = { false };

    ghost view = { λ s. record { bytes = replicate s.len 0; failures = s.failures; handed = s.handed } };

    /// Returns the length that the file had when it was opened.
    fn len(&self) -> u64 {
        self.len
    }

    /// Reads bytes from the offset `at` on to the start of `into`, by one call of the system, and returns how many it got. Returns 0 if the
    /// file has no byte at `at` any more, since it has become shorter. Errs, and counts one failure, if the call fails, or without a call
    /// if the number of bytes read could reach 2^128. Needs an `into` that isn't empty, and an offset before the source's end.
    // It asks for no byte past the file's length: the system refuses to read past 2^63 - 1, though it has bytes there up to that offset.
    #[tactic(auto, unfolding(crate::specs::Failures::HasFailed))]
    fn read_at(&mut self, at: u64, into: &mut [u8]) -> Result<usize, SourceFailed> {
        if u128::MAX - self.handed < into.len() as u128 {
            self.failures = self.failures.saturating_add(1);
            return Err(SourceFailed);
        }
        let wanted = (into.len() as u64).min(self.len - at) as usize;
        match self.file.read_at(&mut into[..wanted], at) {
            Ok(n) => {
                self.handed += n as u128;
                Ok(n)
            }
            Err(_) => {
                self.failures = self.failures.saturating_add(1);
                Err(SourceFailed)
            }
        }
    }
}

/// A sink over a writer of the standard library. It is transparent if contracts know the bytes that the writer holds.
///
/// An error of the writer, of any kind, is a failure of the sink. So is a write of at least one byte that takes none.
#[derive(Drop)]
pub struct IoSink<W: Write> {
    writer: W,
    /// True if the last flush succeeded, and no write of bytes was tried after it.
    is_flushed: bool,
    failures: u128,
}

impl<W: Write> IoSink<W> {
    ghost use Rattle.devices.specs.code.IoSinks.{view_of};

    /// Creates a sink over the writer, without failures. Bytes that the writer already holds count as taken by the sink.
    pub fn new(writer: W) -> IoSink<W>
        ensures { view_of W.contents result ≡ unfailed (W.contents writer) }
    {
        IoSink {
            writer,
            is_flushed: false,
            failures: 0,
        }
    }

    /// Returns how many writes and flushes of the sink have failed, at most `u128::MAX`.
    pub(crate) fn failures(&self) -> u128
        ensures { result ≡ (view_of W.contents self.now).failures }
    {
        self.failures
    }
}

impl<W: Write> Sink for IoSink<W> {
    ghost use Rattle.devices.specs.code.IoSinks.{view_of};

    ghost view = { view_of W.contents };

    /// Passes the bytes to the writer by one call, and returns how many it has taken. If `bytes` is empty, makes no call and returns 0.
    /// Errs, and counts one failure, if the writer errs or takes no byte: none of the bytes is taken then.
    #[tactic(auto, using(crate::proofs::Writes::devices), unfolding(crate::specs::Sinks::append, crate::specs::Sinks::taken_len, crate::specs::Sinks::IsCut, crate::specs::Sinks::is_transparent, crate::specs::Failures::HasFailed))]
    fn write_some(&mut self, bytes: &[u8]) -> Result<usize, SinkFailed> {
        if bytes.is_empty() {
            return Ok(0);
        }
        self.is_flushed = false;
        let answer = match self.writer.write(bytes) {
            Ok(0) => Err(ErrorKind::WriteZero.into()),
            answer => answer,
        };
        count_failure(answer, &mut self.failures)
    }
}

impl<W: Write> Flush for IoSink<W> {
    ghost is_flushed = { λ s. s.is_flushed };

    /// Flushes the writer. Errs, and counts one failure, if the writer errs: it may still hold bytes back then.
    #[tactic(auto, using(crate::proofs::Writes::devices), unfolding(crate::specs::Sinks::append, crate::specs::Sinks::taken_len, crate::specs::Sinks::IsCut, crate::specs::Sinks::is_transparent, crate::specs::Failures::HasFailed))]
    fn flush(&mut self) -> Result<(), SinkFailed> {
        let answer = self.writer.flush();
        self.is_flushed = answer.is_ok();
        count_failure(answer, &mut self.failures)
    }
}

/// Turns the result of a writer's call into the result of a sink's call. `Ok` stays as it is. An error of any kind becomes `SinkFailed`,
/// and adds 1 to `failures`, which stops at `u128::MAX`.
fn count_failure<T>(answer: io::Result<T>, failures: &mut u128) -> Result<T, SinkFailed>
    ensures ok { IfOk answer (λ value. (result ≡ Ok value) × (failures.new ≡ failures.old)) }
    ensures err { IsErr answer → IsErr result × (failures.new ≡ min (failures.old + 1) (2 ^ 128 - 1)) }
{
    match answer {
        Ok(value) => Ok(value),
        Err(_) => {
            *failures = failures.saturating_add(1);
            Err(SinkFailed)
        }
    }
}
