//! Why a command line could not be read.

ghost use Rattle.std.specs.Prelude.{◌≡◌, ◌≢◌, Some};
ghost use Rattle.std.specs.IoError.{error_kind};
ghost use Rattle.std.specs.declared.io.ErrorKind.TheVariants as io_kind;
ghost use Rattle.clap.specs.Words.{kind_of};
ghost use Rattle.clap.specs.declared.error.kind.ErrorKind.TheVariants as kind;
ghost use Rattle.cli_base.specs.code.FaultTexts.{opt_fault_text};
ghost use Rattle.cli_base.specs.declared.fault.OptFault.TheVariants as opt;

use clap::error::ErrorKind;
use std::alloc::AllocError;
use std::error::Error;
use std::{fmt, io};

/// Why the command line could not be read.
#[derive(Clone, Copy, Debug, PartialEq, Eq)]
pub enum OptFault {
    /// An allocation failed.
    OutOfMemory,
    /// The words are no command line that the program takes, or one of them isn't UTF-8.
    Usage,
}

impl fmt::Display for OptFault {
    ghost output = { λ fault. Some (opt_fault_text fault) };

    /// Writes `out of memory`, or `bad command line`. The programs' fault lines have the usage line in place of the latter.
    #[tactic(auto, unfolding(crate::specs::code::FaultTexts::opt_fault_text))]
    fn fmt<W: fmt::Write>(&self, f: &mut fmt::Formatter<W>) -> fmt::Result {
        match self {
            OptFault::OutOfMemory => f.write_str("out of memory"),
            OptFault::Usage => f.write_str("bad command line"),
        }
    }
}

impl Error for OptFault {}

impl From<AllocError> for OptFault {
    ghost from_gives = { λ _ e. e ≡ opt.OutOfMemory };

    /// Turns a failed allocation into [`OptFault::OutOfMemory`], for the `?` after a call that allocates.
    fn from(_refusal: AllocError) -> OptFault {
        OptFault::OutOfMemory
    }
}

impl From<io::Error> for OptFault {
    ghost from_gives = { λ error e. (error_kind error ≡ io_kind.OutOfMemory → e ≡ opt.OutOfMemory) × (error_kind error ≢ io_kind.OutOfMemory → e ≡ opt.Usage) };

    /// Turns an error of reading the words or of making a buffer into [`OptFault::OutOfMemory`] if an allocation failed, otherwise into
    /// [`OptFault::Usage`] (a word isn't UTF-8), for the `?` after `env::args` and `BufWriter::with_capacity`.
    fn from(error: io::Error) -> OptFault {
        match error.kind() {
            io::ErrorKind::OutOfMemory => OptFault::OutOfMemory,
            _ => OptFault::Usage,
        }
    }
}

impl From<clap::Error> for OptFault {
    ghost from_gives = { λ error e. (kind_of error ≡ kind.OutOfMemory → e ≡ opt.OutOfMemory) × (kind_of error ≢ kind.OutOfMemory → e ≡ opt.Usage) };

    /// Turns an error of matching the words into [`OptFault::OutOfMemory`] if an allocation failed, otherwise into [`OptFault::Usage`] (the
    /// command doesn't take the words), for the `?` after `try_get_matches_from`.
    fn from(error: clap::Error) -> OptFault {
        match error.kind() {
            ErrorKind::OutOfMemory => OptFault::OutOfMemory,
            _ => OptFault::Usage,
        }
    }
}
