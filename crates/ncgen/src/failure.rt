//! Why a run failed.

ghost use Rattle.std.specs.Prelude.{◌≡◌};
ghost use Rattle.ncgen.specs.declared.failure.Failure.TheVariants.{CommandLine as command_line};
ghost use Rattle.ncgen.specs.declared.failure.InputFault.TheVariants as input;
ghost use Rattle.ncgen.specs.declared.failure.OutputFault.TheVariants as output;

use crate::fault::{GenFault, TextFault};
use cli_base::OptFault;
use devices::{CloseFailed, CreateFailed, OpenFailed, WriteFailed};

/// Why no file was made of a text.
#[derive(Clone, Copy)]
pub enum InputFault {
    /// The path can't be opened.
    CannotOpen,
    /// The text could not be read.
    Text(TextFault),
    /// The text was read, but no file could be generated from it.
    Generate(GenFault),
}

/// Why a file was not written.
#[derive(Clone, Copy)]
pub enum OutputFault {
    /// The output can't be created.
    CannotOpen,
    /// Writing or closing the output failed.
    WriteFailed,
}

/// Why a run failed.
#[derive(Drop)]
pub enum Failure {
    /// The command line could not be read.
    CommandLine(OptFault),
    /// No file was made of the text at this path, or of standard input if there is no path.
    Input(Option<String>, InputFault),
    /// The output at this path could not be created or written.
    Output(String, OutputFault),
}

impl From<OpenFailed> for InputFault {
    ghost from_gives = { λ _ e. e ≡ input.CannotOpen };

    /// Turns an input that can't be opened into [`InputFault::CannotOpen`], for the `?` after the opening.
    fn from(_failure: OpenFailed) -> InputFault {
        InputFault::CannotOpen
    }
}

impl From<TextFault> for InputFault {
    ghost from_gives = { λ fault e. e ≡ input.Text fault };

    /// Turns a text that can't be read into [`InputFault::Text`] with the reason, for the `?` after `read_text`.
    fn from(fault: TextFault) -> InputFault {
        InputFault::Text(fault)
    }
}

impl From<GenFault> for InputFault {
    ghost from_gives = { λ fault e. e ≡ input.Generate fault };

    /// Turns the reason why no file was generated into [`InputFault::Generate`] with it, for the `?` after `prepare`.
    fn from(fault: GenFault) -> InputFault {
        InputFault::Generate(fault)
    }
}

/// The line of an output that can't be created says `cannot open`.
impl From<CreateFailed> for OutputFault {
    ghost from_gives = { λ _ e. e ≡ output.CannotOpen };

    /// Returns [`OutputFault::CannotOpen`], for the `?` after the creation.
    fn from(_failure: CreateFailed) -> OutputFault {
        OutputFault::CannotOpen
    }
}

impl From<WriteFailed> for OutputFault {
    ghost from_gives = { λ _ e. e ≡ output.WriteFailed };

    /// Turns a failed write into [`OutputFault::WriteFailed`], for the `?` after the write.
    fn from(_failure: WriteFailed) -> OutputFault {
        OutputFault::WriteFailed
    }
}

/// If an output can't be closed, not all that was written to it could be handed on. So this counts as a failed write.
impl From<CloseFailed> for OutputFault {
    ghost from_gives = { λ _ e. e ≡ output.WriteFailed };

    /// Returns [`OutputFault::WriteFailed`], for the `?` after the closing.
    fn from(_failure: CloseFailed) -> OutputFault {
        OutputFault::WriteFailed
    }
}

impl From<OptFault> for Failure {
    ghost from_gives = { λ fault e. e ≡ command_line fault };

    /// Turns a fault of the command line into [`Failure::CommandLine`] with this fault, for the `?` after the words are read.
    fn from(fault: OptFault) -> Failure {
        Failure::CommandLine(fault)
    }
}
