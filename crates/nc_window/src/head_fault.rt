//! Why a header could not be read.

ghost use Rattle.std.specs.Prelude.{◌≡◌, Some};
ghost use Rattle.nc_window.specs.code.FaultTexts.{head_fault_text};
ghost use Rattle.nc_window.specs.declared.head_fault.HeadFault.TheVariants.{OutOfMemory, ReadFailed, Format};

use devices::SourceFailed;
use nc_base::FormatFault;
use std::alloc::AllocError;
use std::error::Error;
use std::fmt;

/// Why a header could not be read: because an allocation failed, because the source failed, or for what is wrong with its
/// bytes.
#[derive(Clone, Copy, Debug, PartialEq, Eq)]
pub enum HeadFault {
    /// An allocation failed.
    OutOfMemory,
    /// The source failed.
    ReadFailed,
    /// What is wrong with the first wrong field of the header, from the left.
    Format(FormatFault),
}

impl fmt::Display for HeadFault {
    ghost output = { λ fault. Some (head_fault_text fault) };

    /// Writes the words for the fault, such as `read failed` or `bad tag`.
    #[tactic(auto, unfolding(crate::specs::code::FaultTexts::head_fault_text))]
    fn fmt<W: fmt::Write>(&self, f: &mut fmt::Formatter<W>) -> fmt::Result {
        match self {
            HeadFault::OutOfMemory => f.write_str("out of memory"),
            HeadFault::ReadFailed => f.write_str("read failed"),
            HeadFault::Format(fault) => fault.fmt(f),
        }
    }
}

impl Error for HeadFault {}

impl From<SourceFailed> for HeadFault {
    ghost from_gives = { λ _ e. e ≡ ReadFailed };

    /// Turns a failed read of the source into [`HeadFault::ReadFailed`], for the `?` after the read.
    fn from(_e: SourceFailed) -> HeadFault {
        HeadFault::ReadFailed
    }
}

impl From<FormatFault> for HeadFault {
    ghost from_gives = { λ fault e. e ≡ Format fault };

    /// Turns a fault of the header's bytes into [`HeadFault::Format`] with this fault, for the `?` after a check of the bytes.
    fn from(fault: FormatFault) -> HeadFault {
        HeadFault::Format(fault)
    }
}

impl From<AllocError> for HeadFault {
    ghost from_gives = { λ _ e. e ≡ OutOfMemory };

    /// Turns a failed allocation into [`HeadFault::OutOfMemory`], for the `?` after a call that allocates.
    fn from(_e: AllocError) -> HeadFault {
        HeadFault::OutOfMemory
    }
}
