//! Why the fields of a header could not be listed.

ghost use Rattle.std.specs.Prelude.{◌≡◌, Some};
ghost use Rattle.nc_findings.specs.code.FaultTexts.{list_fault_text};
ghost use Rattle.nc_findings.specs.declared.list_fault.ListFault.TheVariants.{OutOfMemory};

use std::alloc::AllocError;
use std::error::Error;
use std::fmt;

/// Why the fields of a header could not be listed.
#[derive(Clone, Copy, Debug, PartialEq, Eq)]
pub enum ListFault {
    /// An allocation failed.
    OutOfMemory,
    /// The source failed.
    ReadFailed,
}

impl From<AllocError> for ListFault {
    ghost from_gives = { λ _ e. e ≡ OutOfMemory };

    /// Turns a failed allocation into [`ListFault::OutOfMemory`], for the `?` after a call that allocates.
    fn from(_e: AllocError) -> ListFault {
        ListFault::OutOfMemory
    }
}

impl fmt::Display for ListFault {
    ghost output = { λ fault. Some (list_fault_text fault) };

    /// Writes the words for the fault: `out of memory` or `read failed`.
    #[tactic(auto, unfolding(crate::specs::code::FaultTexts::list_fault_text))]
    fn fmt<W: fmt::Write>(&self, f: &mut fmt::Formatter<W>) -> fmt::Result {
        match self {
            ListFault::OutOfMemory => f.write_str("out of memory"),
            ListFault::ReadFailed => f.write_str("read failed"),
        }
    }
}

impl Error for ListFault {}
