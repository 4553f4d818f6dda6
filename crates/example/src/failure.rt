//! What can fail.

use crate::variable_fault::VariableFault;
use devices::{OpenFailed, WriteFailed};
use nc_file::OffsetTooLarge;
use nc_walk::WalkFault;
use std::alloc::AllocError;
use std::io;

/// Why a file was not made, or its values were not printed.
#[derive(Debug, Drop)]
pub enum Failure {
    /// The words of the command line can't be read, standard output fails, or no memory is left for either.
    Io(io::Error),
    /// No memory is left for the header or the values of the file that is made.
    OutOfMemory(AllocError),
    /// A begin doesn't fit its field.
    Begin(OffsetTooLarge),
    /// The sink of the file that is made failed.
    Write(WriteFailed),
    /// The command line has a path and no name of a variable.
    NoName,
    /// The path can't be opened.
    Open(OpenFailed),
    /// The header can't be read, or the file has no variable of this name.
    Variable(VariableFault),
    /// A value can't be read.
    Values(WalkFault),
}

impl From<io::Error> for Failure {
    /// Turns an error of the system into [`Failure::Io`], for the `?` after a call that reads words, makes a buffer or writes text.
    fn from(error: io::Error) -> Failure {
        Failure::Io(error)
    }
}

impl From<AllocError> for Failure {
    /// Turns a failed allocation into [`Failure::OutOfMemory`], for the `?` after a call that allocates.
    fn from(error: AllocError) -> Failure {
        Failure::OutOfMemory(error)
    }
}

impl From<OffsetTooLarge> for Failure {
    /// Turns a begin that doesn't fit its field into [`Failure::Begin`], for the `?` after `with_begins`.
    fn from(error: OffsetTooLarge) -> Failure {
        Failure::Begin(error)
    }
}

impl From<WriteFailed> for Failure {
    /// Turns a failure of the sink into [`Failure::Write`], for the `?` after a call that writes to it.
    fn from(error: WriteFailed) -> Failure {
        Failure::Write(error)
    }
}
