//! Files in memory.

ghost use Rattle.std.specs.Prelude.{◌≡◌, option_map, true};
ghost use Rattle.devices.specs.code.MemFiles.{bytes_named, file_named, files_of, is_at};
ghost use Rattle.devices.specs.code.OpenCounts.{view_of};
ghost use Rattle.devices.specs.code.PathOpens.{HasBack, unopened};

use crate::{CountedRead, MemSource, OpenCounts, OpenFailed, Opener, TextOpener};
use std::io::Read;

/// A file in memory: a path and its bytes.
#[derive(Clone, Copy, Debug)]
pub struct MemFile<'a> {
    /// The path.
    pub path: &'a str,
    /// The bytes.
    pub bytes: &'a [u8],
}

/// What opens files in memory, whose bytes contracts know (they are transparent). If several of them have the same path, the path names the
/// first of these.
#[derive(Drop)]
pub struct MemFiles<'a> {
    files: &'a [MemFile<'a>],
    counts: OpenCounts,
}

impl<'a> MemFiles<'a> {
    /// Creates `MemFiles` for these files. None of them has been opened.
    pub fn new(files: &'a [MemFile<'a>]) -> MemFiles<'a>
        ensures files { files_of result ≡ files.now }
        ensures view { view_of result.counts ≡ unopened }
    {
        MemFiles {
            files,
            counts: OpenCounts::new(),
        }
    }
}

impl<'a> Opener for MemFiles<'a> {
    type Source = MemSource<'a>;

    ghost named = { λ listed path. bytes_named (files_of listed) path };

    ghost view = { λ listed. view_of listed.counts };

    /// Opens the first file at the path as a source of its bytes, which aren't copied. Errs with `NotFound` if there is none. The attempt is
    /// counted in any case.
    fn open(&mut self, path: &str) -> Result<MemSource<'a>, OpenFailed> {
        let opened = bytes_at(self.files, path).ok_or(OpenFailed::NotFound);
        self.counts.add_open(&opened);
        Ok(MemSource::new(opened?))
    }

    /// Adds the failures of the source to its own, up to `u128::MAX`, and drops the source.
    fn close(&mut self, source: MemSource<'a>) {
        self.counts.add_failures(source.failures());
    }
}

impl<'a> TextOpener for MemFiles<'a> {
    type Text = &'a [u8];

    ghost is_transparent = { true };

    ghost named = { λ listed path. bytes_named (files_of listed) path };

    ghost view = { λ listed. view_of listed.counts };

    /// Opens the first file at the path as a text, and returns a reader of its bytes, which aren't copied. Errs with `NotFound` if there is
    /// none. The attempt is counted in any case.
    fn open_text(&mut self, path: &str) -> Result<CountedRead<&'a [u8]>, OpenFailed> {
        let opened = bytes_at(self.files, path).ok_or(OpenFailed::NotFound);
        self.counts.add_open(&opened);
        Ok(CountedRead::new(opened?))
    }

    /// Adds the failures of the text to its own, up to `u128::MAX`, and drops the text.
    fn close_text(&mut self, text: CountedRead<&'a [u8]>)
        ensures { HasBack (view_of self.old.counts) (view_of self.new.counts) text.entry.failures }
    {
        self.counts.add_failures(text.failures());
    }
}

/// Returns the bytes of the first of these files at this path, or `None` if there is none.
fn bytes_at<'a>(files: &'a [MemFile<'a>], path: &str) -> Option<&'a [u8]>
    ensures { option_map (λ bytes. bytes.now) result ≡ bytes_named files.now path.now }
{
    let file = file_at(files, path)?;
    Some(file.bytes)
}

/// Returns the first of these files at this path, or `None` if there is none.
fn file_at<'a>(files: &'a [MemFile<'a>], path: &str) -> Option<&'a MemFile<'a>>
    ensures { option_map (λ file. file.now) result ≡ file_named files.now path.now }
{
    files.iter().find(|file| is_at(file, path))
}

/// Returns true if the file is at this path.
fn is_at(file: &MemFile<'_>, path: &str) -> bool
    ensures { result ≡ is_at file.now path.now }
{
    file.path == path
}
