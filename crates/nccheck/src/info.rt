//! What `-V` and `-h` ask for.

ghost use Rattle.std.specs.Prelude.{◌≡◌};
ghost use Rattle.devices.specs.code.SinkWrites.{Wrote};
ghost use Rattle.cli_base.specs.Arguments.{texts_of};
ghost use Rattle.nccheck.specs.Info.{info_among, info_in, info_text, option_lines, version_line};

use crate::fault_text::usage_lines;
use devices::{Sink, WriteFailed, put};

/// What the program tells of itself.
#[derive(Clone, Copy)]
pub(crate) enum Info {
    /// The version: `-V` or `--version`.
    Version,
    /// How the program is used, with its options: `-h` or `--help`.
    Help,
}

/// Returns what the first `-V` or `-h` among the words asks for, or `None` if there is none before `--`. Doesn't look at the first word,
/// which is the program's name.
pub(crate) fn info_in(words: &[&str]) -> Option<Info>
    ensures { result ≡ info_in (texts_of words.now) }
{
    match words {
        [_name, words @ ..] => info_among(words),
        [] => None,
    }
}

/// Returns what the first `-V` or `-h` among the words asks for, or `None` if there is none before `--`. Looks at the first word too.
fn info_among(words: &[&str]) -> Option<Info>
    ensures { result ≡ info_among (texts_of words.now) }
{
    for word in words {
        if *word == "-V" || *word == "--version" {
            return Some(Info::Version);
        }
        if *word == "-h" || *word == "--help" {
            return Some(Info::Help);
        }
        if *word == "--" {
            return None;
        }
    }
    None
}

/// Writes what `info` asks for: the version, or the usage and a line for each option.
///
/// # Errors
///
/// The sink failed. It took some prefix of the text.
#[tactic(auto, using(devices::proofs::Writes::writes), unfolding(crate::specs::Info::info_text))]
pub(crate) fn put_info<W: Sink>(sink: &mut W, info: Info) -> Result<(), WriteFailed>
    ensures { Wrote W.view sink.old sink.new (info_text info) result }
{
    match info {
        Info::Version => put(sink, version_line()),
        Info::Help => {
            put(sink, usage_lines())?;
            put(sink, option_lines())
        }
    }
}

/// Returns the line that says which version this is.
#[tactic(auto, unfolding(crate::specs::Info::version_line))]
fn version_line() -> &'static [u8]
    ensures { result.now ≡ version_line }
{
    b"nccheck 0.4.0\n"
}

/// Returns the lines that say what each option does.
#[tactic(auto, unfolding(crate::specs::Info::option_lines))]
fn option_lines() -> &'static [u8]
    ensures { result.now ≡ option_lines }
{
    b"  -q        write no findings\n  \
    -s        count the files in a last line\n  \
    -j        write findings as JSON objects, one a line\n  \
    -p        write the paths of files with findings instead, each ended by a NUL\n  \
    -k        write the format of each file instead: nc3, nc6 or nc5\n  \
    -0        also check the files that standard input lists, each path ended by a NUL\n  \
    -l level  report what is at least as grave: error, violation (the default) or note\n  \
    -i kinds  ignore findings of these kinds (a comma-separated list)\n  \
    -V        print the version\n  \
    -h        print this help\nnccheck(1), its manual page, lists the kinds.\n"
}
