//! The line of each trouble, on standard error.

ghost use Rattle.std.specs.Prelude.{◌≡◌};
ghost use Rattle.devices.specs.code.SinkWrites.{Wrote};
ghost use Rattle.check_options.specs.code.Misuses.{misuse_in, told};
ghost use Rattle.nccheck.specs.Faults.{fault_words, file_line, flush_line, memory_line, misuse_text, misuse_words, open_words, opt_fault_lines, path_words, refusal_lines, usage_lines, utf8_line};

use crate::fault::{FileFault, PathFault};
use check_lines::put_file_path;
use check_options::{CommandFault, Misuse};
use cli_base::OptFault;
use devices::{OpenFailed, Sink, WriteFailed, put};

/// Writes the line that says why a file could not be checked: `nccheck: FILE: MESSAGE`. FILE is `file`, as [`put_file_path`] shows it.
///
/// # Errors
///
/// The sink failed. It took some prefix of the line.
#[tactic(auto, using(devices::proofs::Writes::writes), unfolding(crate::specs::Faults::file_line))]
pub(crate) fn put_file_fault<W: Sink>(
    sink: &mut W,
    file: &[u8],
    fault: FileFault,
) -> Result<(), WriteFailed>
    ensures { Wrote W.view sink.old sink.new (file_line file.now fault) result }
{
    put(sink, b"nccheck: ")?;
    put_file_path(sink, file)?;
    put(sink, b": ")?;
    put(sink, fault_words(fault).as_bytes())?;
    put(sink, b"\n")
}

/// Returns the words for a fault of a file, such as `read failed`.
#[tactic(auto, unfolding(crate::specs::Faults::fault_words))]
fn fault_words(fault: FileFault) -> &'static str
    ensures { result.now ≡ fault_words fault }
{
    match fault {
        FileFault::BadPath(why) => path_words(why),
        FileFault::CannotOpen(why) => open_words(why),
        FileFault::ReadFailed => "read failed",
        FileFault::NotClassic => "not a netCDF classic file",
        FileFault::OutOfMemory => "out of memory",
        FileFault::WriteFailed => "write failed",
    }
}

/// Returns the words for a path that can't be opened, such as `cannot open: no such file`.
#[tactic(auto, unfolding(crate::specs::Faults::open_words))]
fn open_words(why: OpenFailed) -> &'static str
    ensures { result.now ≡ open_words why }
{
    match why {
        OpenFailed::NotFound => "cannot open: no such file",
        OpenFailed::PermissionDenied => "cannot open: permission denied",
        OpenFailed::NotRegular => "cannot open: not a regular file",
        OpenFailed::Other => "cannot open",
    }
}

/// Returns the words for a path that no file can have, such as `cannot open: the path is empty`.
#[tactic(auto, unfolding(crate::specs::Faults::path_words))]
fn path_words(why: PathFault) -> &'static str
    ensures { result.now ≡ path_words why }
{
    match why {
        PathFault::Empty => "cannot open: the path is empty",
        PathFault::TooLong => "cannot open: the path is too long",
        PathFault::NotUtf8 => "cannot open: the path is not UTF-8",
    }
}

/// Writes the line `nccheck: write failed`, which tells of standard output that failed apart from the lines of a file: in the line of `-s`,
/// the text of `-V` or `-h`, or a flush.
///
/// # Errors
///
/// The sink failed. It took some prefix of the line.
#[tactic(auto, unfolding(crate::specs::Faults::flush_line))]
pub(crate) fn put_flush_fault<W: Sink>(sink: &mut W) -> Result<(), WriteFailed>
    ensures { Wrote W.view sink.old sink.new flush_line result }
{
    put(sink, b"nccheck: write failed\n")
}

/// Writes the lines of a fault that comes before the words are read: `nccheck: out of memory`, or that an argument isn't UTF-8, and how the
/// program is used.
///
/// # Errors
///
/// The sink failed. It took some prefix of the lines.
#[tactic(auto, using(devices::proofs::Writes::writes), unfolding(crate::specs::Faults::opt_fault_lines))]
pub fn put_command_line_fault<W: Sink>(sink: &mut W, fault: OptFault) -> Result<(), WriteFailed>
    ensures { Wrote W.view sink.old sink.new (opt_fault_lines fault) result }
{
    match fault {
        OptFault::OutOfMemory => put(sink, memory_line()),
        OptFault::Usage => {
            put(sink, utf8_line())?;
            put(sink, usage_lines())
        }
    }
}

/// Writes the lines of a command line that is refused: how it is misused, and how the program is used; or `nccheck: out of memory`. Errs if
/// the sink fails.
#[tactic(auto, using(devices::proofs::Writes::writes), unfolding(crate::specs::Faults::refusal_lines))]
pub(crate) fn put_refusal<W: Sink>(sink: &mut W, fault: CommandFault<'_>) -> Result<(), WriteFailed>
    ensures { Wrote W.view sink.old sink.new (refusal_lines (misuse_in fault.entry)) result }
{
    match fault {
        CommandFault::OutOfMemory => put(sink, memory_line()),
        CommandFault::Misused(why) => {
            put(sink, b"nccheck: ")?;
            put_misuse(sink, why)?;
            put(sink, b"\n")?;
            put(sink, usage_lines())
        }
    }
}

/// Writes how a command line is misused, such as `no level warn`. Errs if the sink fails.
#[tactic(auto, using(devices::proofs::Writes::writes), unfolding(crate::specs::Faults::misuse_text))]
fn put_misuse<W: Sink>(sink: &mut W, why: Misuse<'_>) -> Result<(), WriteFailed>
    ensures { Wrote W.view sink.old sink.new (misuse_text (told why.entry)) result }
{
    match why {
        Misuse::NoOption(word) | Misuse::NoLevel(word) | Misuse::NoKind(word) => {
            put(sink, misuse_words(why))?;
            put_file_path(sink, word.as_bytes())
        }
        Misuse::GivenTwice(letter) => {
            put(sink, &[b'-', letter])?;
            put(sink, misuse_words(why))
        }
        _ => put(sink, misuse_words(why)),
    }
}

/// Returns what is said of a misuse, beside the word or the letter that is wrong.
#[tactic(auto, unfolding(crate::specs::Faults::misuse_words))]
fn misuse_words(why: Misuse<'_>) -> &'static [u8]
    ensures { result.now ≡ misuse_words (told why.entry) }
{
    match why {
        Misuse::NoOption(_) => b"no option ",
        Misuse::GivenTwice(_) => b" is given twice",
        Misuse::NoValue => b"an option has no value",
        Misuse::NotWithPaths => b"-p takes no -q, -s or -j beside it",
        Misuse::NotWithFormats => b"-k takes no option but -0 beside it",
        Misuse::NoLevel(_) => b"no level ",
        Misuse::NoKind(_) => b"no kind ",
        Misuse::NoFile => b"no file",
    }
}

/// Returns the line that says that a word isn't UTF-8.
#[tactic(auto, unfolding(crate::specs::Faults::utf8_line))]
fn utf8_line() -> &'static [u8]
    ensures { result.now ≡ utf8_line }
{
    b"nccheck: an argument is not UTF-8: give paths by -0\n"
}

/// Returns the line of memory that has run out, apart from any file.
#[tactic(auto, unfolding(crate::specs::Faults::memory_line))]
fn memory_line() -> &'static [u8]
    ensures { result.now ≡ memory_line }
{
    b"nccheck: out of memory\n"
}

/// Returns the lines that say how the program is used.
#[tactic(auto, unfolding(crate::specs::Faults::usage_lines))]
pub(crate) fn usage_lines() -> &'static [u8]
    ensures { result.now ≡ usage_lines }
{
    b"usage: nccheck [-q] [-s] [-j] [-0] [-l level] [-i kinds] [file ...]\n       \
    nccheck -p [-0] [-l level] [-i kinds] [file ...]\n       nccheck -k [-0] [file ...]\n"
}
