//! Why the calls that read a statement give up.

ghost use Rattle.std.specs.Prelude.{◌≡◌, Some};
ghost use Rattle.cdl_values.specs.code.FaultTexts.{read_error_text};
ghost use Rattle.cdl_values.specs.declared.read_error.ReadError.TheVariants.{Fault, OutOfMemory};

use cdl_statements::CdlKind;
use std::alloc::AllocError;
use std::error::Error;
use std::fmt;

/// Why a call that reads a statement gives up.
#[derive(Clone, Copy, Debug, PartialEq, Eq)]
pub enum ReadError {
    /// An allocation failed; nothing is said of the text.
    OutOfMemory,
    /// The statement has this fault.
    Fault(CdlKind),
}

impl fmt::Display for ReadError {
    ghost output = { λ error. Some (read_error_text error) };

    /// Writes `out of memory`, or the words for the fault's kind.
    #[tactic(auto, unfolding(crate::specs::code::FaultTexts::read_error_text))]
    fn fmt<W: fmt::Write>(&self, f: &mut fmt::Formatter<W>) -> fmt::Result {
        match self {
            ReadError::OutOfMemory => f.write_str(CdlKind::OutOfMemory.words()),
            ReadError::Fault(kind) => kind.fmt(f),
        }
    }
}

impl Error for ReadError {}

impl From<AllocError> for ReadError {
    ghost from_gives = { λ _ e. e ≡ OutOfMemory };

    /// Returns `OutOfMemory`, for `?` after a call that errs only if an allocation failed.
    fn from(_e: AllocError) -> ReadError {
        ReadError::OutOfMemory
    }
}

impl From<CdlKind> for ReadError {
    ghost from_gives = { λ kind e. e ≡ Fault kind };

    /// Returns `Fault` with this kind, for `?` after a call that errs with the kind of a fault.
    fn from(kind: CdlKind) -> ReadError {
        ReadError::Fault(kind)
    }
}
