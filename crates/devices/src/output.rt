//! Outputs in the files of the system.

ghost use Rattle.std.specs.Prelude.{◌≡◌, [], IfOk, false, option_and_then};
ghost use Rattle.devices.specs.code.Creations.{uncreated};

use crate::{CloseFailed, CreateFailed, Creator, Flush, IoSink, Sink};
use std::alloc::Global;
use std::fs::File;
use std::io;
use std::io::{BufWriter, ErrorKind, Write};
use std::rt::Files;

/// The capacity in bytes of the buffer that each output is written through.
const OUTPUT_BUFFER_LEN: usize = 65536;

/// What creates outputs in the files of the system, whose bytes contracts don't know (they are opaque). Each is written through one buffer.
#[derive(Drop)]
pub struct SystemOutputs<'a, R: Files<File = File>> {
    rt: &'a R,
    alloc: Global,
    /// How many outputs were created.
    creations: u128,
    /// The failures of `create`, of `close`, and of the outputs that were closed, at most `u128::MAX` together.
    failures: u128,
}

impl<'a, R: Files<File = File>> SystemOutputs<'a, R> {
    /// Creates `SystemOutputs` for the files of the system that `rt` stands for. It has created no output yet, and will take the buffers of
    /// its outputs from `alloc`.
    pub fn new(rt: &'a R, alloc: Global) -> SystemOutputs<'a, R>
        ensures { ⟦<SystemOutputs<'static, R> as Creator>⟧.view result ≡ uncreated }
    {
        SystemOutputs {
            rt,
            alloc,
            creations: 0,
            failures: 0,
        }
    }

    /// Creates the file at the path, or empties it, and returns a sink without failures, which writes to it through a buffer of 64 KiB.
    /// Errs if the file can't be created. If the buffer can't be allocated, it errs before it touches the file.
    fn create_file(&self, path: &str) -> io::Result<IoSink<BufWriter<OutputFile<File>>>>
        ensures { IfOk result (λ sink. sink.failures ≡ 0) }
    {
        let nothing = OutputFile { file: None };
        let mut writer = BufWriter::with_capacity(self.alloc, OUTPUT_BUFFER_LEN, nothing)?;
        let file = File::create(self.rt, path)?;
        writer.get_mut().file = Some(file);
        Ok(IoSink::new(writer))
    }
}

impl<R: Files<File = File>> Creator for SystemOutputs<'_, R> {
    type Output = IoSink<BufWriter<OutputFile<File>>>;

    ghost is_transparent = { false };

    ghost view = { λ s. record { given = []; creations = s.creations; failures = s.failures } };

    /// Creates the file at the path, or empties it, and returns a sink that writes to it through a buffer of 64 KiB, which is allocated.
    /// Errs, and counts one failure, if the buffer can't be allocated, the file can't be created, or 2^128 - 1 outputs were created before.
    #[tactic(auto, unfolding(crate::specs::Failures::HasFailed))]
    fn create(&mut self, path: &str) -> Result<IoSink<BufWriter<OutputFile<File>>>, CreateFailed> {
        if self.creations < u128::MAX {
            if let Ok(sink) = self.create_file(path) {
                self.creations += 1;
                return Ok(sink);
            }
        }
        self.failures = self.failures.saturating_add(1);
        Err(CreateFailed)
    }

    /// Flushes the output to its file, adds the output's failures to its own, up to `u128::MAX`, and drops the output, which closes the
    /// file. The path isn't needed for that. If the flush fails, it errs, counts one failure in place of those of the output, and drops the
    /// output all the same.
    #[tactic(auto, unfolding(crate::specs::Failures::HasFailed))]
    fn close(
        &mut self,
        _path: &str,
        mut output: IoSink<BufWriter<OutputFile<File>>>,
    ) -> Result<(), CloseFailed> {
        let failures = output.failures();
        if output.flush().is_err() {
            self.failures = self.failures.saturating_add(1);
            return Err(CloseFailed);
        }
        self.failures = self.failures.saturating_add(failures);
        Ok(())
    }
}

/// A writer over a file that is set once the file has been created. Before that each write fails, and a flush does nothing. After that it
/// takes what the file's own writer takes.
#[derive(Drop)]
pub struct OutputFile<W: Write> {
    /// The file's writer, or `None` before the file is created.
    file: Option<W>,
}

impl<W: Write> Write for OutputFile<W> {
    ghost contents = { λ output. option_and_then W.contents output.file };

    /// Passes the bytes to the file's writer, and returns how many it has taken. Errs if that writer does, and with `NotFound` if the file
    /// hasn't been created yet.
    fn write(&mut self, bytes: &[u8]) -> io::Result<usize> {
        match &mut self.file {
            Some(file) => file.write(bytes),
            None => Err(ErrorKind::NotFound.into()),
        }
    }

    /// Flushes the file's writer, and errs if that does. Does nothing if the file hasn't been created yet.
    fn flush(&mut self) -> io::Result<()> {
        match &mut self.file {
            Some(file) => file.flush(),
            None => Ok(()),
        }
    }
}
