//! A reader that counts.

ghost use Rattle.std.specs.Prelude.{◌≡◌};
ghost use Rattle.devices.specs.Readers.{view_of};
ghost use Rattle.devices.specs.code.ReaderReads.{StaysEnded, ReadsNext, unread};

use crate::SourceFailed;
use std::io::Read;

/// A reader that counts its reads, the bytes that it has handed over, and its failures.
///
/// An error of the reader, of any kind, is a failure. A read that fails is not tried again. If a read with room for bytes gives none, the
/// reader is at its end. It isn't read again after that, since a terminal would wait for more.
#[derive(Drop)]
pub struct CountedRead<R: Read> {
    reader: R,
    failures: u128,
    reads: u128,
    /// How many bytes were handed to the caller.
    handed: u128,
    /// True if a read with room for bytes gave none.
    is_ended: bool,
}

impl<R: Read> CountedRead<R> {
    /// Creates a reader of the bytes that `reader` has still to give. Its counts, of reads, bytes and failures, start at 0.
    pub fn new(reader: R) -> CountedRead<R>
        ensures { view_of R.remaining result ≡ unread (R.remaining reader) }
    {
        CountedRead {
            reader,
            failures: 0,
            reads: 0,
            handed: 0,
            is_ended: false,
        }
    }

    /// Reads the next bytes to the start of `into`, by one read of its reader, and returns how many they are.
    ///
    /// Returns 0 if `into` is empty, and at the end. After a read with room for bytes has given none, each call returns 0 and reads
    /// nothing.
    ///
    /// # Errors
    ///
    /// The reader failed, or the number of reads or of bytes could reach 2^128. This counts as one failure. No byte is handed over, and
    /// `into` may hold anything.
    #[tactic(auto, unfolding(crate::specs::Failures::HasFailed))]
    pub fn read_some(&mut self, into: &mut [u8]) -> Result<usize, SourceFailed>
        ensures read { ReadsNext R.remaining self.old self.new into.old into.new result }
        ensures ended { StaysEnded self.old self.new }
    {
        if self.is_ended {
            return Ok(0);
        }
        let is_full = self.reads == u128::MAX || u128::MAX - self.handed < into.len() as u128;
        if is_full {
            self.failures = self.failures.saturating_add(1);
            return Err(SourceFailed);
        }
        self.reads += 1;
        match self.reader.read(into) {
            Ok(n) => {
                self.is_ended = n == 0 && !into.is_empty();
                self.handed += n as u128;
                Ok(n)
            }
            Err(_) => {
                self.failures = self.failures.saturating_add(1);
                Err(SourceFailed)
            }
        }
    }

    /// Returns how many calls of `read_some` have failed, at most `u128::MAX`.
    pub fn failures(&self) -> u128
        ensures { result ≡ (view_of R.remaining self.now).failures }
    {
        self.failures
    }
}
