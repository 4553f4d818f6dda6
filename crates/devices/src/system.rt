//! The files of the system.

ghost use Rattle.std.specs.Prelude.{◌≡◌, None, false, IfOk};
ghost use Rattle.devices.specs.code.PathOpens.{HasBack, unopened};
ghost use Rattle.devices.specs.code.OpenCounts.{view_of};

use crate::{CountedRead, FileSource, OpenCounts, OpenFailed, OpenFile, Opener, TextOpener};
use std::fs::File;
use std::io::Read;
use std::rt::Files;

/// What opens the files of the system, whose bytes contracts don't know (they are opaque).
#[derive(Drop)]
pub struct SystemFiles<'a, R: Files<File = File>> {
    rt: &'a R,
    counts: OpenCounts,
}

impl<'a, R: Files<File = File>> SystemFiles<'a, R> {
    /// Creates `SystemFiles` for the files of the system that `rt` stands for. None of them has been opened.
    pub fn new(rt: &'a R) -> SystemFiles<'a, R>
        ensures { view_of result.counts ≡ unopened }
    {
        SystemFiles {
            rt,
            counts: OpenCounts::new(),
        }
    }

    /// Opens the file at the path to be read as a text, so it may also be a pipe or a device. Errs if it can't be opened, if the system
    /// doesn't tell its kind, or if it is a directory: the system opens a directory, but fails to read from it.
    fn open_text(&self, path: &str) -> Result<CountedRead<File>, OpenFailed>
        ensures { IfOk result (λ text. text.failures ≡ 0) }
    {
        let file = File::open(self.rt, path)?;
        let metadata = file.metadata()?;
        if metadata.is_dir() {
            return Err(OpenFailed::NotRegular);
        }
        Ok(CountedRead::new(file))
    }
}

impl<R: Files<File = File>> Opener for SystemFiles<'_, R> {
    type Source = FileSource;

    ghost named = { λ _ _. None };

    ghost view = { λ files. view_of files.counts };

    /// Opens the regular file at the path as a source that reads ahead, and keeps the length that the file has now. Errs if the path names
    /// no regular file, the file can't be opened for reading, or the system doesn't tell its kind or its length. The attempt is counted in
    /// any case.
    fn open(&mut self, path: &str) -> Result<FileSource, OpenFailed> {
        let opened = FileSource::open(self.rt, path);
        self.counts.add_open(&opened);
        opened
    }

    /// Adds the failures of the source to its own, up to `u128::MAX`, and drops the source, which closes the file.
    fn close(&mut self, source: FileSource) {
        self.counts.add_failures(source.failures());
    }
}

impl<R: Files<File = File>> TextOpener for SystemFiles<'_, R> {
    type Text = File;

    ghost is_transparent = { false };

    ghost named = { λ _ _. None };

    ghost view = { λ files. view_of files.counts };

    /// Opens the file at the path, which may also be a pipe or a device, as a text, and returns a reader of it. Errs if it can't be opened,
    /// if the system doesn't tell its kind, or if it is a directory. The attempt is counted in any case.
    fn open_text(&mut self, path: &str) -> Result<CountedRead<File>, OpenFailed> {
        let opened = SystemFiles::open_text(self, path);
        self.counts.add_open(&opened);
        opened
    }

    /// Adds the failures of the text to its own, up to `u128::MAX`, and drops the text, which closes the file.
    fn close_text(&mut self, text: CountedRead<File>)
        ensures { HasBack (view_of self.old.counts) (view_of self.new.counts) text.failures }
    {
        // `text` is dropped, which closes the file
        self.counts.add_failures(text.failures());
    }
}

/// What opens the files of the system, as [`SystemFiles`] does, but as sources that don't read ahead: for a caller that reads only a little
/// of each file, through a buffer of its own. So a file takes no time but that of its calls of the system.
#[derive(Drop)]
pub struct DirectFiles<'a, R: Files<File = File>> {
    rt: &'a R,
    counts: OpenCounts,
}

impl<'a, R: Files<File = File>> DirectFiles<'a, R> {
    /// Creates `DirectFiles` for the files of the system that `rt` stands for. None of them has been opened.
    pub fn new(rt: &'a R) -> DirectFiles<'a, R>
        ensures { view_of result.counts ≡ unopened }
    {
        DirectFiles {
            rt,
            counts: OpenCounts::new(),
        }
    }
}

impl<R: Files<File = File>> Opener for DirectFiles<'_, R> {
    type Source = OpenFile;

    ghost named = { λ _ _. None };

    ghost view = { λ direct. view_of direct.counts };

    /// Opens the regular file at the path as a source that doesn't read ahead, and keeps the length that the file has now. Errs if the path
    /// names no regular file, the file can't be opened for reading, or the system doesn't tell its kind or its length. The attempt is
    /// counted in any case.
    fn open(&mut self, path: &str) -> Result<OpenFile, OpenFailed> {
        let opened = OpenFile::open(self.rt, path);
        self.counts.add_open(&opened);
        opened
    }

    /// Adds the failures of the source to its own, up to `u128::MAX`, and drops the source, which closes the file.
    fn close(&mut self, source: OpenFile) {
        self.counts.add_failures(source.failures);
    }
}
