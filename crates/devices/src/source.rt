//! Sources of bytes.

ghost use Rattle.std.specs.Prelude.{◌≡◌, ◌<◌, Bool, length};
ghost use Rattle.std.specs.Bool.{OnTrue};
ghost use Rattle.nc_types.specs.Bytes.{AreBytes};
ghost use Rattle.devices.specs.Sources.{SourceView};
ghost use Rattle.devices.specs.code.SourceReads.{ReadSome};

use crate::SourceFailed;

/// A device that bytes are read from, each read at an offset of its own.
///
/// Contracts see a source as its bytes, the number of its failures and the number of bytes that were read from it. A transparent source is
/// one whose bytes a contract can name, such as memory. Of an opaque one, such as a file of the system, contracts know only the number of
/// bytes.
///
/// The number of failures stops at 2^128 - 1. A read that could bring the number of bytes to 2^128 is a failure, and reads nothing.
pub trait Source {
    // The source is transparent.
    ghost is_transparent: { Bool };

    // The source as contracts see it.
    ghost view: { Self → SourceView };

    /// Returns the number of the source's bytes, which never changes.
    fn len(&self) -> u64
        ensures length { result ≡ length (view self.now).bytes }
        ensures bytes { OnTrue is_transparent (AreBytes (view self.now).bytes) };

    /// Reads bytes from the offset `at` on to the start of `into`, and returns how many. Needs an offset before the source's end, and an
    /// `into` that isn't empty.
    ///
    /// It may read fewer bytes than `into` has room for. A transparent source reads at least one. An opaque one may read none, as from a
    /// file that has become shorter since it was opened.
    ///
    /// # Errors
    ///
    /// The source failed. No byte is read, and `into` may hold anything.
    fn read_at(&mut self, at: u64, into: &mut [u8]) -> Result<usize, SourceFailed>
        requires room { 0 < length into.old }
        requires inside { at < length (view self.old).bytes }
        ensures { ReadSome is_transparent (view self.old) (view self.new) at into.new result };
}
