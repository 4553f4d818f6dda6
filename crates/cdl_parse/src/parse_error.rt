//! Why the calls that read several statements give up.

ghost use Rattle.std.specs.Prelude.{◌≡◌};
ghost use Rattle.cdl_parse.specs.declared.parse_error.ParseError.TheVariants.{Fault, OutOfMemory};

use cdl_statements::CdlFault;
use cdl_values::ReadError;
use std::alloc::AllocError;

/// Why a call that reads several statements gives up.
#[derive(Clone, Copy)]
pub enum ParseError {
    /// An allocation failed; nothing is said of the text.
    OutOfMemory,
    /// The first bad statement has this fault.
    Fault(CdlFault),
}

impl ParseError {
    ghost use Rattle.cdl_parse.specs.code.Runs.{at_line};

    /// Turns the error of a statement that begins on this line into a `ParseError`: a fault gets the line, and `OutOfMemory` gets none.
    pub fn at_line(line: u64, error: ReadError) -> ParseError
        ensures { result ≡ at_line line error }
    {
        match error {
            ReadError::OutOfMemory => ParseError::OutOfMemory,
            ReadError::Fault(kind) => ParseError::Fault(CdlFault { line, kind }),
        }
    }
}

impl From<AllocError> for ParseError {
    ghost from_gives = { λ _ e. e ≡ OutOfMemory };

    /// Returns `OutOfMemory`, for `?` after a call that errs only if an allocation failed.
    fn from(_e: AllocError) -> ParseError {
        ParseError::OutOfMemory
    }
}

impl From<CdlFault> for ParseError {
    ghost from_gives = { λ fault e. e ≡ Fault fault };

    /// Returns `Fault` with this fault, for `?` after a call that errs with a fault and its line.
    fn from(fault: CdlFault) -> ParseError {
        ParseError::Fault(fault)
    }
}
