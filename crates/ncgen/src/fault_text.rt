//! The line of each fault. A function that writes errs only if the sink failed, which has then taken some prefix of what is written.

ghost use Rattle.std.specs.Prelude.{◌≡◌, Some, codes};
ghost use Rattle.cdl_statements.specs.FaultWords.{line_prefix};
ghost use Rattle.devices.specs.code.SinkWrites.{Wrote};
ghost use Rattle.ncgen.specs.declared.fault.GenFault.TheVariants.{Cdl};
ghost use Rattle.ncgen.specs.declared.failure.InputFault.TheVariants.{Text};
ghost use Rattle.ncgen.specs.Faults.{fault_line, fault_text, input_words, line_of_failure, opt_fault_line, output_words, text_name};

use crate::failure::{Failure, InputFault, OutputFault};
use crate::fault::{GenFault, TextFault};
use cdl_parse::{CdlFault, CdlKind};
use cli_base::OptFault;
use devices::{Sink, WriteFailed, put, put_decimal};
use std::error::Error;
use std::fmt;

const OFFSET_TOO_LARGE: &str = "offset too large";

const WRITE_FAILED: &str = "write failed";

/// Writes the line that says why a run failed: a fault of the command line, of the text or of the output.
///
/// # Errors
///
/// The sink failed. It took some prefix of the line.
#[tactic(auto, unfolding(crate::specs::Faults::line_of_failure))]
pub(crate) fn put_failure<W: Sink>(sink: &mut W, failure: &Failure) -> Result<(), WriteFailed>
    ensures { Wrote W.view sink.old sink.new (line_of_failure failure.now) result }
{
    match failure {
        Failure::CommandLine(fault) => put_command_line_fault(sink, *fault),
        Failure::Input(path, fault) => put_input_fault(sink, text_name(path), fault),
        Failure::Output(path, fault) => put_line(
            sink,
            path.as_bytes(),
            output_words(*fault).as_bytes(),
        ),
    }
}

/// Writes the line of a fault of the command line: `ncgen: out of memory`, or how the program is used.
///
/// # Errors
///
/// The sink failed. It took some prefix of the line.
#[tactic(auto, unfolding(crate::specs::Faults::opt_fault_line))]
pub fn put_command_line_fault<W: Sink>(sink: &mut W, fault: OptFault) -> Result<(), WriteFailed>
    ensures { Wrote W.view sink.old sink.new (opt_fault_line fault) result }
{
    match fault {
        OptFault::OutOfMemory => put(sink, b"ncgen: out of memory\n"),
        OptFault::Usage => put(sink, usage_line()),
    }
}

/// Returns the line that says how the program is used, with its line feed.
fn usage_line() -> &'static [u8]
    ensures { result.now ≡ codes "usage: ncgen [-b] [-o file] [-k kind] [file]\n" }
{
    b"usage: ncgen [-b] [-o file] [-k kind] [file]\n"
}

/// Returns the name that a fault line gives the text: its path, or `-` for standard input.
#[tactic(auto, unfolding(crate::specs::Faults::text_name))]
fn text_name(path: &Option<String>) -> &[u8]
    ensures { result.now ≡ text_name path.now }
{
    match path {
        Some(path) => path.as_bytes(),
        None => b"-",
    }
}

/// Writes the line that says why no file was made of a text. `name` is the text's path, or `-` for standard input. Errs if the sink fails.
#[tactic(auto, unfolding(crate::specs::Faults::input_words))]
fn put_input_fault<W: Sink>(
    sink: &mut W,
    name: &[u8],
    fault: &InputFault,
) -> Result<(), WriteFailed>
    ensures { Wrote W.view sink.old sink.new (fault_line name.now (input_words fault.now)) result }
{
    match fault {
        InputFault::CannotOpen => put_line(sink, name, b"cannot open"),
        InputFault::Text(fault) => put_line(sink, name, input_words(*fault).as_bytes()),
        InputFault::Generate(fault) => fault_line(sink, name, fault),
    }
}

/// Writes the line `ncgen: FILE: MESSAGE`, with its line feed, for the path `file` and the message `text`. Errs if the sink fails.
#[tactic(auto, using(devices::proofs::Writes::writes), unfolding(crate::specs::Faults::fault_line))]
fn put_line<W: Sink>(sink: &mut W, file: &[u8], text: &[u8]) -> Result<(), WriteFailed>
    ensures { Wrote W.view sink.old sink.new (fault_line file.now text.now) result }
{
    put(sink, program_words())?;
    put(sink, file)?;
    put(sink, b": ")?;
    put(sink, text)?;
    put(sink, b"\n")
}

/// Writes the fault line of a CDL text that gave no file: `ncgen: FILE: MESSAGE`. FILE is `file`, such as the text's path, and MESSAGE says
/// what `fault` is. For a fault of the CDL text itself, MESSAGE begins with `line N: `.
///
/// # Errors
///
/// The sink failed. It took some prefix of the line.
#[tactic(auto, using(devices::proofs::Writes::writes), unfolding(crate::specs::Faults::fault_line))]
pub fn fault_line<W: Sink>(sink: &mut W, file: &[u8], fault: &GenFault) -> Result<(), WriteFailed>
    ensures { Wrote W.view sink.old sink.new (fault_line file.now (fault_text fault.now)) result }
{
    put(sink, program_words())?;
    put(sink, file)?;
    put(sink, b": ")?;
    put_message(sink, fault)?;
    put(sink, b"\n")
}

/// Writes the message of a fault: what its line has between `ncgen: FILE: ` and the line feed. For a fault of the CDL text itself, the
/// message begins with `line N: `. Errs if the sink fails.
#[tactic(auto, unfolding(crate::specs::Faults::fault_text))]
fn put_message<W: Sink>(sink: &mut W, fault: &GenFault) -> Result<(), WriteFailed>
    ensures { Wrote W.view sink.old sink.new (fault_text fault.now) result }
{
    match fault {
        GenFault::Cdl(fault) => put_cdl_fault(sink, *fault),
        GenFault::OffsetTooLarge => put(sink, OFFSET_TOO_LARGE.as_bytes()),
        GenFault::WriteFailed => put(sink, WRITE_FAILED.as_bytes()),
    }
}

/// Writes the message of a fault of a CDL text: `line N: ` (not for `OutOfMemory`) and the words for its kind. Errs if the sink fails.
#[tactic(auto, using(devices::proofs::Writes::writes), unfolding(cdl_statements::specs::FaultWords::cdl_fault_text, crate::specs::Faults::fault_text))]
fn put_cdl_fault<W: Sink>(sink: &mut W, fault: CdlFault) -> Result<(), WriteFailed>
    ensures { Wrote W.view sink.old sink.new (fault_text (Cdl fault)) result }
{
    put_line_number(sink, fault.kind, fault.line)?;
    put(sink, fault.kind.words().as_bytes())
}

/// Writes `line N: ` for a fault in the line `line`, or nothing for `OutOfMemory`, which belongs to no line. Errs if the sink fails.
#[tactic(auto, using(devices::proofs::Writes::writes), unfolding(cdl_statements::specs::FaultWords::line_prefix))]
fn put_line_number<W: Sink>(sink: &mut W, kind: CdlKind, line: u64) -> Result<(), WriteFailed>
    ensures { Wrote W.view sink.old sink.new (line_prefix kind line) result }
{
    if let CdlKind::OutOfMemory = kind {
        return Ok(());
    }
    put(sink, b"line ")?;
    put_decimal(sink, line as u128)?;
    put(sink, b": ")
}

/// Returns the message for a text that could not be read, such as `read failed`.
#[tactic(auto, unfolding(crate::specs::Faults::input_words))]
fn input_words(fault: TextFault) -> &'static str
    ensures { result.now ≡ input_words (InputFault.Text fault) }
{
    match fault {
        TextFault::OutOfMemory => "out of memory",
        TextFault::ReadFailed => "read failed",
        TextFault::CdlTooLong => "CDL text too long",
    }
}

/// Returns the message for an output that could not be created or written: `cannot open` or `write failed`.
#[tactic(auto, unfolding(crate::specs::Faults::output_words))]
fn output_words(fault: OutputFault) -> &'static str
    ensures { result.now ≡ output_words fault }
{
    match fault {
        OutputFault::CannotOpen => "cannot open",
        OutputFault::WriteFailed => WRITE_FAILED,
    }
}

/// Returns `ncgen: `, with which each line on standard error begins, except for the usage line.
fn program_words() -> &'static [u8]
    ensures { result.now ≡ codes "ncgen: " }
{
    b"ncgen: "
}

impl fmt::Display for GenFault {
    ghost output = { λ fault. Some (fault_text fault) };

    /// Writes the message that [`fault_line`] has for the fault. Errs if `f` does.
    #[tactic(auto, unfolding(crate::specs::Faults::fault_text))]
    fn fmt<W: fmt::Write>(&self, f: &mut fmt::Formatter<W>) -> fmt::Result {
        match self {
            GenFault::Cdl(fault) => fault.fmt(f),
            GenFault::OffsetTooLarge => f.write_str(OFFSET_TOO_LARGE),
            GenFault::WriteFailed => f.write_str(WRITE_FAILED),
        }
    }
}

impl Error for GenFault {}

impl fmt::Display for TextFault {
    ghost output = { λ fault. Some (input_words (Text fault)) };

    /// Writes the message that the program has for the fault, such as `read failed`. Errs if `f` does.
    fn fmt<W: fmt::Write>(&self, f: &mut fmt::Formatter<W>) -> fmt::Result {
        f.write_str(input_words(*self))
    }
}

impl Error for TextFault {}
