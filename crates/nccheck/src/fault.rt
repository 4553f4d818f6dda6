//! Why a file could not be checked.

ghost use Rattle.std.specs.Prelude.{◌≡◌};
ghost use Rattle.nccheck.specs.Faults.{fault_of_head, fault_of_list};
ghost use Rattle.nccheck.specs.declared.fault.FileFault.TheVariants.{CannotOpen, WriteFailed as write_failed};

use devices::{OpenFailed, WriteFailed};
use nc_findings::ListFault;
use nc_window::HeadFault;

/// Why a path can't be one of a file.
#[derive(Clone, Copy)]
pub enum PathFault {
    /// It has no byte.
    Empty,
    /// It has more than 65,535 bytes.
    TooLong,
    /// It isn't UTF-8.
    NotUtf8,
}

/// Why a file could not be checked, or its lines not written.
#[derive(Clone, Copy)]
pub enum FileFault {
    /// The path can't be opened, whatever files there are.
    BadPath(PathFault),
    /// The path can't be opened: why, if the system tells it.
    CannotOpen(OpenFailed),
    /// The file could not be read.
    ReadFailed,
    /// The file isn't a netCDF classic file, by its first four bytes, where its format is asked for (`-k`).
    NotClassic,
    /// An allocation failed.
    OutOfMemory,
    /// The sink failed. It took some prefix of the lines.
    WriteFailed,
}

impl From<OpenFailed> for FileFault {
    ghost from_gives = { λ why e. e ≡ CannotOpen why };

    /// Turns a file that can't be opened into [`FileFault::CannotOpen`], for the `?` after the opening.
    fn from(why: OpenFailed) -> FileFault {
        FileFault::CannotOpen(why)
    }
}

impl From<ListFault> for FileFault {
    ghost from_gives = { λ fault e. e ≡ fault_of_list fault };

    /// Turns a fault of the check into the same fault of the file, for the `?` after `check`.
    fn from(fault: ListFault) -> FileFault {
        match fault {
            ListFault::OutOfMemory => FileFault::OutOfMemory,
            ListFault::ReadFailed => FileFault::ReadFailed,
        }
    }
}

impl From<HeadFault> for FileFault {
    ghost from_gives = { λ fault e. e ≡ fault_of_head fault };

    /// Turns a fault of reading the first bytes into the same fault of the file, for the `?` after that. If they don't come, the file is no
    /// netCDF classic file.
    fn from(fault: HeadFault) -> FileFault {
        match fault {
            HeadFault::OutOfMemory => FileFault::OutOfMemory,
            HeadFault::ReadFailed => FileFault::ReadFailed,
            HeadFault::Format(_) => FileFault::NotClassic,
        }
    }
}

impl From<WriteFailed> for FileFault {
    ghost from_gives = { λ _ e. e ≡ write_failed };

    /// Turns a failed write into [`FileFault::WriteFailed`], for the `?` after the write.
    fn from(_failure: WriteFailed) -> FileFault {
        FileFault::WriteFailed
    }
}
