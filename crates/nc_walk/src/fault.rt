//! Why a walk stops.

ghost use Rattle.std.specs.Prelude.{◌≡◌, Some};
ghost use Rattle.nc_walk.specs.code.FaultTexts.{walk_fault_text};
ghost use Rattle.nc_walk.specs.declared.fault.WalkFault.TheVariants.{ReadFailed};

use devices::SourceFailed;
use std::error::Error;
use std::fmt;

/// Why a [`Walk`](crate::Walk) stops before a variable's last value.
#[derive(Clone, Copy, Debug, PartialEq, Eq)]
pub enum WalkFault {
    /// The source failed.
    ReadFailed,
    /// Not all bytes of a value lie inside of the file. The first such value has this number, counted from 0 in row-major
    /// order.
    DataTruncated(u128),
}

impl fmt::Display for WalkFault {
    ghost output = { λ fault. Some (walk_fault_text fault) };

    /// Writes `read failed`, or `data truncated at value ` and the number of the value.
    #[tactic(auto, unfolding(nc_types::specs::Bytes::concat_parts, crate::specs::code::FaultTexts::walk_fault_text))]
    fn fmt<W: fmt::Write>(&self, f: &mut fmt::Formatter<W>) -> fmt::Result {
        match self {
            WalkFault::ReadFailed => f.write_str("read failed"),
            WalkFault::DataTruncated(value) => write!(f, "data truncated at value {value}"),
        }
    }
}

impl Error for WalkFault {}

impl From<SourceFailed> for WalkFault {
    ghost from_gives = { λ _ e. e ≡ ReadFailed };

    /// Turns a failed read of the source into [`WalkFault::ReadFailed`], for the `?` after the read.
    fn from(_e: SourceFailed) -> WalkFault {
        WalkFault::ReadFailed
    }
}
