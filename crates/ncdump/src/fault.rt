//! Why the program could not do what was asked of it.

ghost use Rattle.std.specs.Prelude.{◌≡◌};
ghost use Rattle.ncdump.specs.code.HeadFaults.{fault_of_head};
ghost use Rattle.ncdump.specs.declared.fault.DumpFault.TheVariants.{OutOfMemory as out_of_memory, WriteFailed as write_failed};
ghost use Rattle.ncdump.specs.declared.fault.Failure.TheVariants.{CommandLine as command_line};
ghost use Rattle.ncdump.specs.declared.fault.FileFault.TheVariants.{CannotOpen, Dump};

use cli_base::OptFault;
use devices::{OpenFailed, WriteFailed};
use nc_base::FormatFault;
use nc_file::HeadFault;
use std::alloc::AllocError;

/// Why a file could not be dumped: an allocation, the source or the sink failed, the file is wrong, or a chosen name is no variable's.
#[derive(Clone, Copy, Debug, PartialEq, Eq)]
pub enum DumpFault {
    /// An allocation failed. Nothing was written.
    OutOfMemory,
    /// The source failed. What was written is a prefix of the text.
    ReadFailed,
    /// The sink failed. It has taken a prefix of the text.
    WriteFailed,
    /// The header is wrong; the fault is that of its first wrong field. Nothing was written.
    Format(FormatFault),
    /// A chosen name is the name of no variable. This is the index, counted from 0, of the first such name. Nothing was written.
    NoSuchVariable(usize),
    /// A value of a shown variable isn't in the file. The text before that value was written.
    DataTruncated {
        /// The index of the variable in the header, counted from 0.
        var: usize,
        /// The number of the variable's first missing value, counted from 0 over all its records.
        value: u128,
    },
}

/// Why a file could not be opened or dumped.
#[derive(Clone, Copy)]
pub enum FileFault {
    /// The path can't be opened.
    CannotOpen,
    /// The file could not be dumped.
    Dump(DumpFault),
}

/// Why a run failed.
#[derive(Drop)]
pub enum Failure {
    /// The command line could not be read.
    CommandLine(OptFault),
    /// The file at this path could not be opened or dumped.
    File(String, FileFault),
}

impl From<HeadFault> for DumpFault {
    ghost from_gives = { λ fault e. e ≡ fault_of_head fault };

    /// Turns a fault of the header into the same fault of the dump, for the `?` after `read_header`.
    fn from(fault: HeadFault) -> DumpFault {
        match fault {
            HeadFault::OutOfMemory => DumpFault::OutOfMemory,
            HeadFault::ReadFailed => DumpFault::ReadFailed,
            HeadFault::Format(fault) => DumpFault::Format(fault),
        }
    }
}

impl From<AllocError> for DumpFault {
    ghost from_gives = { λ _ e. e ≡ out_of_memory };

    /// Turns a failed allocation into [`DumpFault::OutOfMemory`], for the `?` after a call that allocates.
    fn from(_refusal: AllocError) -> DumpFault {
        DumpFault::OutOfMemory
    }
}

impl From<WriteFailed> for DumpFault {
    ghost from_gives = { λ _ e. e ≡ write_failed };

    /// Turns a failed write into [`DumpFault::WriteFailed`], for the `?` after the write.
    fn from(_failure: WriteFailed) -> DumpFault {
        DumpFault::WriteFailed
    }
}

impl From<OpenFailed> for FileFault {
    ghost from_gives = { λ _ e. e ≡ CannotOpen };

    /// Turns a file that can't be opened into [`FileFault::CannotOpen`], for the `?` after the opening.
    fn from(_failure: OpenFailed) -> FileFault {
        FileFault::CannotOpen
    }
}

impl From<DumpFault> for FileFault {
    ghost from_gives = { λ fault e. e ≡ Dump fault };

    /// Turns a failed dump into [`FileFault::Dump`] with its fault, for the `?` after the dump.
    fn from(fault: DumpFault) -> FileFault {
        FileFault::Dump(fault)
    }
}

impl From<OptFault> for Failure {
    ghost from_gives = { λ fault e. e ≡ command_line fault };

    /// Turns a fault of the command line into [`Failure::CommandLine`] with this fault, for the `?` after the words are read.
    fn from(fault: OptFault) -> Failure {
        Failure::CommandLine(fault)
    }
}
