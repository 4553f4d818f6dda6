//! Why a variable could not be opened.

ghost use Rattle.std.specs.Prelude.{◌≡◌, Some};
ghost use Rattle.example.specs.code.FaultTexts.{variable_fault_text};
ghost use Rattle.example.specs.declared.variable_fault.VariableFault.TheVariants.{Header};

use nc_file::HeadFault;
use std::error::Error;
use std::fmt;

/// Why a variable could not be opened: because the header could not be read, or because it has no variable of this name.
#[derive(Clone, Copy, Debug, PartialEq, Eq)]
pub enum VariableFault {
    /// The header could not be read: it has a wrong field, the source failed, or an allocation failed.
    Header(HeadFault),
    /// The header has no variable of this name.
    NoSuchVariable,
}

impl fmt::Display for VariableFault {
    ghost output = { λ fault. Some (variable_fault_text fault) };

    /// Writes the words for the fault, such as `read failed`, `bad tag` or `no such variable`.
    #[tactic(auto, unfolding(crate::specs::code::FaultTexts::variable_fault_text))]
    fn fmt<W: fmt::Write>(&self, f: &mut fmt::Formatter<W>) -> fmt::Result {
        match self {
            VariableFault::Header(fault) => fault.fmt(f),
            VariableFault::NoSuchVariable => f.write_str("no such variable"),
        }
    }
}

impl Error for VariableFault {}

impl From<HeadFault> for VariableFault {
    ghost from_gives = { λ fault e. e ≡ Header fault };

    /// Turns the fault of a header into [`VariableFault::Header`] with this fault, for the `?` after the header is read.
    fn from(fault: HeadFault) -> VariableFault {
        VariableFault::Header(fault)
    }
}
