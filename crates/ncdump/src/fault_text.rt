//! The line of each fault. A function that writes errs only if the sink failed, which has then taken some prefix of what is written.

ghost use Rattle.std.specs.Prelude.{◌≡◌, Some};
ghost use Rattle.devices.specs.code.SinkWrites.{Wrote};
ghost use Rattle.nc_base.specs.FaultWords.{format_text};
ghost use Rattle.ncdump.specs.Faults.{fault_text, file_line, file_text, item_words, line_of_failure, opt_fault_line, truncated_words, usage_line};
ghost use Rattle.ncdump.specs.declared.fault.DumpFault.TheVariants.{DataTruncated, NoSuchVariable};

use crate::fault::{DumpFault, Failure, FileFault};
use cli_base::OptFault;
use devices::{Sink, WriteFailed, put, put_decimal};
use nc_base::FormatFault;
use std::error::Error;
use std::fmt;

const OUT_OF_MEMORY: &str = "out of memory";

const READ_FAILED: &str = "read failed";

const WRITE_FAILED: &str = "write failed";

/// What follows the index in the message for a chosen name that no variable has.
const OF_NAMES: &str = " of -v";

/// What comes before the index in the message for a missing value.
const VARIABLE: &str = "variable ";

/// Writes the line that says why a run failed: a fault of the command line or of the file.
///
/// # Errors
///
/// The sink failed. It took some prefix of the line.
#[tactic(auto, unfolding(crate::specs::Faults::line_of_failure))]
pub(crate) fn put_failure<W: Sink>(sink: &mut W, failure: &Failure) -> Result<(), WriteFailed>
    ensures { Wrote W.view sink.old sink.new (line_of_failure failure.now) result }
{
    match failure {
        Failure::CommandLine(fault) => put_command_line_fault(sink, *fault),
        Failure::File(path, fault) => put_file_fault(sink, path.as_bytes(), *fault),
    }
}

/// Writes the line of a fault of the command line: `ncdump: out of memory`, or how the program is used.
///
/// # Errors
///
/// The sink failed. It took some prefix of the line.
#[tactic(auto, unfolding(crate::specs::Faults::opt_fault_line))]
pub fn put_command_line_fault<W: Sink>(sink: &mut W, fault: OptFault) -> Result<(), WriteFailed>
    ensures { Wrote W.view sink.old sink.new (opt_fault_line fault) result }
{
    match fault {
        OptFault::OutOfMemory => put(sink, b"ncdump: out of memory\n"),
        OptFault::Usage => put(sink, usage_line()),
    }
}

/// Returns the line that says how the program is used, with its line feed.
#[tactic(auto, unfolding(crate::specs::Faults::usage_line))]
fn usage_line() -> &'static [u8]
    ensures { result.now ≡ usage_line }
{
    b"usage: ncdump [-h] [-c] [-v names] [-n name] [-l width] file\n"
}

/// Writes the fault line of a file that could not be dumped: `ncdump: FILE: MESSAGE`. FILE is `file`, such as the file's path, and MESSAGE
/// says what `fault` is.
///
/// # Errors
///
/// The sink failed. It took some prefix of the line.
pub fn fault_line<W: Sink>(sink: &mut W, file: &[u8], fault: &DumpFault) -> Result<(), WriteFailed>
    ensures { Wrote W.view sink.old sink.new (file_line file.now (FileFault.Dump fault.now)) result }
{
    put_file_fault(sink, file, FileFault::Dump(*fault))
}

/// Writes the line that says why a file could not be opened (`ncdump: PATH: cannot open`) or dumped ([`fault_line`]). Errs if the sink
/// fails.
#[tactic(auto, using(devices::proofs::Writes::writes), unfolding(crate::specs::Faults::file_line))]
fn put_file_fault<W: Sink>(sink: &mut W, path: &[u8], fault: FileFault) -> Result<(), WriteFailed>
    ensures { Wrote W.view sink.old sink.new (file_line path.now fault) result }
{
    put(sink, b"ncdump: ")?;
    put(sink, path)?;
    put(sink, b": ")?;
    put_file_message(sink, fault)?;
    put(sink, b"\n")
}

/// Writes the message for a file that could not be opened or dumped: what is between `ncdump: PATH: ` and the line feed. Errs if the sink
/// fails.
#[tactic(auto, unfolding(crate::specs::Faults::file_text))]
fn put_file_message<W: Sink>(sink: &mut W, fault: FileFault) -> Result<(), WriteFailed>
    ensures { Wrote W.view sink.old sink.new (file_text fault) result }
{
    match fault {
        FileFault::CannotOpen => put(sink, b"cannot open"),
        FileFault::Dump(fault) => put_message(sink, &fault),
    }
}

/// Writes the message of a fault: what is between `ncdump: FILE: ` and the line feed, such as `read failed`. Errs if the sink fails.
#[tactic(auto, unfolding(crate::specs::Faults::fault_text))]
fn put_message<W: Sink>(sink: &mut W, fault: &DumpFault) -> Result<(), WriteFailed>
    ensures { Wrote W.view sink.old sink.new (fault_text fault.now) result }
{
    match fault {
        DumpFault::OutOfMemory => put(sink, OUT_OF_MEMORY.as_bytes()),
        DumpFault::ReadFailed => put(sink, READ_FAILED.as_bytes()),
        DumpFault::WriteFailed => put(sink, WRITE_FAILED.as_bytes()),
        DumpFault::Format(fault) => put_format_fault(sink, *fault),
        DumpFault::NoSuchVariable(index) => put_unknown_name(sink, *index),
        DumpFault::DataTruncated { var, value } => put_missing_value(sink, *var, *value),
    }
}

/// Writes the message for a chosen name that no variable has, such as `no such variable: item 2 of -v`. `index` is the index of the name
/// among those that `-v` gives, from 0. Errs if the sink fails.
#[tactic(auto, using(devices::proofs::Writes::writes), unfolding(crate::specs::Faults::fault_text))]
fn put_unknown_name<W: Sink>(sink: &mut W, index: usize) -> Result<(), WriteFailed>
    ensures { Wrote W.view sink.old sink.new (fault_text (NoSuchVariable index)) result }
{
    put(sink, item_words().as_bytes())?;
    put_decimal(sink, index as u128)?;
    put(sink, OF_NAMES.as_bytes())
}

/// Writes the message for a missing value, such as `variable 1: data truncated at value 9`. `var` is the index of the variable in the
/// header, and `value` the number of its first value that isn't in the file, both from 0. Errs if the sink fails.
#[tactic(auto, using(devices::proofs::Writes::writes), unfolding(crate::specs::Faults::fault_text))]
fn put_missing_value<W: Sink>(sink: &mut W, var: usize, value: u128) -> Result<(), WriteFailed>
    ensures { Wrote W.view sink.old sink.new (fault_text (DataTruncated var value)) result }
{
    put(sink, VARIABLE.as_bytes())?;
    put_decimal(sink, var as u128)?;
    put(sink, truncated_words().as_bytes())?;
    put_decimal(sink, value)
}

/// Writes the message for the first wrong field of a header: the words of `fault`, and, for an unknown version, the version byte in
/// decimal. Errs if the sink fails.
#[tactic(auto, using(devices::proofs::Writes::writes), unfolding(nc_base::specs::FaultWords::format_text))]
fn put_format_fault<W: Sink>(sink: &mut W, fault: FormatFault) -> Result<(), WriteFailed>
    ensures { Wrote W.view sink.old sink.new (format_text fault) result }
{
    put(sink, fault.words().as_bytes())?;
    match fault {
        FormatFault::UnknownVersion(byte) => put_decimal(sink, byte as u128),
        _ => Ok(()),
    }
}

/// Returns `no such variable: item `, which stands before the index in the message for a chosen name that no variable has.
#[tactic(auto, unfolding(crate::specs::Faults::item_words))]
fn item_words() -> &'static str
    ensures { result.now ≡ item_words }
{
    "no such variable: item "
}

/// Returns `: data truncated at value `, which stands between the two numbers of the message for a missing value.
#[tactic(auto, unfolding(crate::specs::Faults::truncated_words))]
fn truncated_words() -> &'static str
    ensures { result.now ≡ truncated_words }
{
    ": data truncated at value "
}

impl fmt::Display for DumpFault {
    ghost output = { λ fault. Some (fault_text fault) };

    /// Writes the message that [`fault_line`] has for the fault. Errs if `f` does.
    #[tactic(auto, unfolding(nc_types::specs::Bytes::concat_parts, crate::specs::Faults::fault_text))]
    fn fmt<W: fmt::Write>(&self, f: &mut fmt::Formatter<W>) -> fmt::Result {
        match self {
            DumpFault::OutOfMemory => f.write_str(OUT_OF_MEMORY),
            DumpFault::ReadFailed => f.write_str(READ_FAILED),
            DumpFault::WriteFailed => f.write_str(WRITE_FAILED),
            DumpFault::Format(fault) => fault.fmt(f),
            DumpFault::NoSuchVariable(index) => write!(f, "{}{index}{OF_NAMES}", item_words()),
            DumpFault::DataTruncated { var, value } => {
                write!(f, "{VARIABLE}{var}{}{value}", truncated_words())
            }
        }
    }
}

impl Error for DumpFault {}
