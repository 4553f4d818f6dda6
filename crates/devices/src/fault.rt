//! What can go wrong with a device. The words for each error are those that the fault lines of the programs have.

ghost use Rattle.std.specs.Prelude.{◌≡◌, codes, Some};
ghost use Rattle.std.specs.IoError.{error_kind};
ghost use Rattle.devices.specs.code.SystemErrors.{reason_of};

use std::error::Error;
use std::io::ErrorKind;
use std::{fmt, io};

/// A source failed to give bytes.
#[derive(Clone, Copy, Debug, PartialEq, Eq)]
pub struct SourceFailed;

/// A sink failed to take bytes.
#[derive(Clone, Copy, Debug, PartialEq, Eq)]
pub struct SinkFailed;

/// A text was not written whole, since the sink failed.
#[derive(Clone, Copy, Debug, PartialEq, Eq)]
pub struct WriteFailed;

/// A path could not be opened, as a source or as a text: why, if the system tells it.
#[derive(Clone, Copy, Debug, PartialEq, Eq)]
pub enum OpenFailed {
    /// There is no such file.
    NotFound,
    /// The file may not be read, or a folder on the way to it may not be searched.
    PermissionDenied,
    /// There is something else at the path than what can be read: a folder, or, as a source, any other file that isn't a regular one.
    NotRegular,
    /// The system gives another reason.
    Other,
}

impl From<io::Error> for OpenFailed {
    ghost from_gives = { λ error why. why ≡ reason_of (error_kind error) };

    /// Turns an error of the system into the reason that it tells, for the `?` after a call that opens a file.
    fn from(error: io::Error) -> OpenFailed {
        match error.kind() {
            ErrorKind::NotFound => OpenFailed::NotFound,
            ErrorKind::PermissionDenied => OpenFailed::PermissionDenied,
            _ => OpenFailed::Other,
        }
    }
}

/// An output could not be created.
#[derive(Clone, Copy, Debug, PartialEq, Eq)]
pub struct CreateFailed;

/// An output could not be closed, since not all that was written to it could be handed on.
#[derive(Clone, Copy, Debug, PartialEq, Eq)]
pub struct CloseFailed;

/// Lets a function that writes a text pass on a failure of its sink with `?`.
impl From<SinkFailed> for WriteFailed {
    /// Turns a failure of the sink into [`WriteFailed`], for the `?` after a call of `write_some`.
    fn from(_failure: SinkFailed) -> WriteFailed {
        WriteFailed
    }
}

impl fmt::Display for SourceFailed {
    ghost output = { λ _. Some (codes "read failed") };

    /// Writes `read failed`.
    fn fmt<W: fmt::Write>(&self, f: &mut fmt::Formatter<W>) -> fmt::Result {
        f.write_str("read failed")
    }
}

impl Error for SourceFailed {}

impl fmt::Display for SinkFailed {
    ghost output = { λ _. Some (codes "write failed") };

    /// Writes `write failed`.
    fn fmt<W: fmt::Write>(&self, f: &mut fmt::Formatter<W>) -> fmt::Result {
        f.write_str("write failed")
    }
}

impl Error for SinkFailed {}

impl fmt::Display for WriteFailed {
    ghost output = { λ _. Some (codes "write failed") };

    /// Writes `write failed`.
    fn fmt<W: fmt::Write>(&self, f: &mut fmt::Formatter<W>) -> fmt::Result {
        f.write_str("write failed")
    }
}

impl Error for WriteFailed {}

impl fmt::Display for OpenFailed {
    ghost output = { λ _. Some (codes "cannot open") };

    /// Writes `cannot open`, without the reason.
    fn fmt<W: fmt::Write>(&self, f: &mut fmt::Formatter<W>) -> fmt::Result {
        f.write_str("cannot open")
    }
}

impl Error for OpenFailed {}

impl fmt::Display for CreateFailed {
    ghost output = { λ _. Some (codes "cannot open") };

    /// Writes `cannot open`.
    fn fmt<W: fmt::Write>(&self, f: &mut fmt::Formatter<W>) -> fmt::Result {
        f.write_str("cannot open")
    }
}

impl Error for CreateFailed {}

impl fmt::Display for CloseFailed {
    ghost output = { λ _. Some (codes "write failed") };

    /// Writes `write failed`.
    fn fmt<W: fmt::Write>(&self, f: &mut fmt::Formatter<W>) -> fmt::Result {
        f.write_str("write failed")
    }
}

impl Error for CloseFailed {}
