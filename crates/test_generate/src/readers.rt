//! Readers that fail on request.

ghost use Rattle.std.specs.Prelude.{None, false};
ghost use Rattle.devices.specs.code.PathOpens.{HasBack};
ghost use Rattle.test_generate.specs.code.TextDevices.{view_of_watched};

use devices::{CountedRead, OpenCounts, OpenFailed, TextOpener};
use std::io;
use std::io::{ErrorKind, Read};

/// No read has this number.
pub const NEVER: u64 = u64::MAX;

/// A reader of the bytes of a slice, which gives at most `step` of them a read, and fails at the read of this number, counted
/// from 0.
#[derive(Drop)]
pub struct FailingReader<'a> {
    bytes: &'a [u8],
    step: usize,
    fail: u64,
    reads: u64,
}

impl<'a> FailingReader<'a> {
    /// A reader that has read nothing.
    pub fn new(bytes: &'a [u8], step: usize, fail: u64) -> FailingReader<'a> {
        FailingReader {
            bytes,
            step,
            fail,
            reads: 0,
        }
    }
}

impl Read for FailingReader<'_> {
    fn read(&mut self, into: &mut [u8]) -> io::Result<usize> {
        let read = self.reads;
        self.reads = self.reads.saturating_add(1);
        if read == self.fail {
            return Err(ErrorKind::Interrupted.into());
        }
        let n = into.len().min(self.step).min(self.bytes.len());
        let (first, rest) = self.bytes.split_at(n);
        into[..n].copy_from_slice(first);
        self.bytes = rest;
        Ok(n)
    }
}

/// Texts of these bytes at every path, whose readers give seven bytes a read and fail at the read of this number, with counts of how
/// often a text was opened and given back.
#[derive(Drop)]
pub struct WatchedTexts<'a> {
    bytes: &'a [u8],
    fail: u64,
    counts: OpenCounts,
    closings: u128,
}

impl<'a> WatchedTexts<'a> {
    /// These texts.
    pub fn new(bytes: &'a [u8], fail: u64) -> WatchedTexts<'a> {
        WatchedTexts {
            bytes,
            fail,
            counts: OpenCounts::new(),
            closings: 0,
        }
    }

    /// How often a text was opened, and how often one was given back.
    pub fn counts(&self) -> (u128, u128) {
        (self.counts.opens(), self.closings)
    }
}

impl<'a> TextOpener for WatchedTexts<'a> {
    type Text = FailingReader<'a>;

    ghost is_transparent = { false };

    ghost named = { λ _ _. None };

    ghost view = { view_of_watched };

    fn open_text(&mut self, _path: &str) -> Result<CountedRead<FailingReader<'a>>, OpenFailed> {
        let opened = Ok(CountedRead::new(FailingReader::new(self.bytes, 7, self.fail)));
        self.counts.add_open(&opened);
        opened
    }

    fn close_text(&mut self, text: CountedRead<FailingReader<'a>>)
        ensures { HasBack (view_of_watched self.old) (view_of_watched self.new) text.entry.failures }
    {
        self.closings = self.closings.saturating_add(1);
        self.counts.add_failures(text.failures());
    }
}
