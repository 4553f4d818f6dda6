//! Why no file was generated, or no text read.

ghost use Rattle.std.specs.Prelude.{◌≡◌};
ghost use Rattle.cdl_statements.specs.Bounds.{out_of_memory};
ghost use Rattle.ncgen.specs.declared.fault.GenFault.TheVariants as gen;
ghost use Rattle.ncgen.specs.declared.fault.TextFault.TheVariants as text;

use cdl_parse::{CdlFault, CdlKind};
use devices::{SourceFailed, WriteFailed};
use nc_file::OffsetTooLarge;
use std::alloc::AllocError;

/// Why no file was generated from a text.
#[derive(Clone, Copy, Debug, PartialEq, Eq)]
pub enum GenFault {
    /// The first fault of the text; or an allocation failed, if the kind is `OutOfMemory`.
    Cdl(CdlFault),
    /// The values of a variable would begin at an offset that is too large for the version.
    OffsetTooLarge,
    /// The sink failed. It has taken a prefix of the file.
    WriteFailed,
}

/// Why a text could not be read.
#[derive(Clone, Copy, Debug, PartialEq, Eq)]
pub enum TextFault {
    /// An allocation failed.
    OutOfMemory,
    /// The reader failed.
    ReadFailed,
    /// The text has more bytes than the caller of `read_text` allows.
    CdlTooLong,
}

impl From<CdlFault> for GenFault {
    ghost from_gives = { λ fault e. e ≡ gen.Cdl fault };

    /// Turns a fault of the text into [`GenFault::Cdl`] with this fault, for the `?` after a call that reads the text.
    fn from(fault: CdlFault) -> GenFault {
        GenFault::Cdl(fault)
    }
}

/// A failed allocation is a fault of the kind `OutOfMemory`, which belongs to no line of the text: its line is 0.
impl From<AllocError> for GenFault {
    ghost from_gives = { λ _ e. e ≡ gen.Cdl out_of_memory };

    /// Turns a failed allocation into [`GenFault::Cdl`] with the kind `OutOfMemory` and the line 0, for the `?` after a call that
    /// allocates.
    fn from(_e: AllocError) -> GenFault {
        GenFault::Cdl(CdlFault {
            line: 0,
            kind: CdlKind::OutOfMemory,
        })
    }
}

impl From<OffsetTooLarge> for GenFault {
    ghost from_gives = { λ _ e. e ≡ gen.OffsetTooLarge };

    /// Turns a begin that doesn't fit its field into [`GenFault::OffsetTooLarge`], for the `?` after `with_begins`.
    fn from(_e: OffsetTooLarge) -> GenFault {
        GenFault::OffsetTooLarge
    }
}

impl From<WriteFailed> for GenFault {
    ghost from_gives = { λ _ e. e ≡ gen.WriteFailed };

    /// Turns a failed write into [`GenFault::WriteFailed`], for the `?` after the write.
    fn from(_e: WriteFailed) -> GenFault {
        GenFault::WriteFailed
    }
}

impl From<SourceFailed> for TextFault {
    ghost from_gives = { λ _ e. e ≡ text.ReadFailed };

    /// Turns a failed read into [`TextFault::ReadFailed`], for the `?` after the read.
    fn from(_failure: SourceFailed) -> TextFault {
        TextFault::ReadFailed
    }
}

impl From<AllocError> for TextFault {
    ghost from_gives = { λ _ e. e ≡ text.OutOfMemory };

    /// Turns a failed allocation into [`TextFault::OutOfMemory`], for the `?` after a call that allocates.
    fn from(_refusal: AllocError) -> TextFault {
        TextFault::OutOfMemory
    }
}
