//! The format of a file.

ghost use Rattle.std.specs.Prelude.{◌≡◌};
ghost use Rattle.std.specs.Bool.{OnTrue};
ghost use Rattle.nc_window.specs.code.Window.{Caused};
ghost use Rattle.nccheck.specs.Formats.{format_line, format_of};
ghost use Rattle.nccheck.specs.Runs.{TellsFormat, WriteFailsOnly};
ghost use Rattle.nccheck.specs.code.OpenedFiles.{ReadsOpened, StartsWith};

use crate::fault::FileFault;
use crate::tally::Outcome;
use devices::{Sink, Source, put};
use nc_base::Version;
use nc_window::{HeadFault, Window};

/// Writes a line for the format of the file that `source` reads: `nc3`, `nc6` or `nc5`. Errs with `NotClassic` if the file doesn't begin
/// with `CDF` and 1, 2 or 5, and with `ReadFailed` if the source fails, before it has written anything; with `WriteFailed` if `out` fails.
pub(crate) fn tell_format<S: Source, O: Sink>(
    source: &mut S,
    out: &mut O,
) -> Result<Outcome, FileFault>
    ensures reads { ReadsOpened (S.view source.old).failures (S.view source.new).failures result }
    ensures writes { WriteFailsOnly (O.view out.old) (O.view out.new) result }
    ensures tells { OnTrue S.is_transparent
        (TellsFormat (S.view source.old).bytes (O.view out.old) (O.view out.new) result) }
{
    let start = first_bytes(source)?;
    let format = format_of(start).ok_or(FileFault::NotClassic)?;
    put(out, format_line(format).as_bytes())?;
    Ok(Outcome::NothingReported)
}

/// Returns the first four bytes of the file that `source` reads. Errs with a fault of the format if it has fewer, and with `ReadFailed` if
/// the source fails.
fn first_bytes<S: Source>(source: &mut S) -> Result<[u8; 4], HeadFault>
    ensures cause { Caused (S.view source.old).failures (S.view source.new) result }
    ensures bytes { OnTrue S.is_transparent (StartsWith (S.view source.old).bytes result) }
{
    let mut buf = [0u8; 4];
    Window::new(source, &mut buf).array()
}

/// Returns the format of a file that begins with these bytes, or `None` for another file.
fn format_of(start: [u8; 4]) -> Option<Version>
    ensures { result ≡ format_of start }
{
    if start.starts_with(b"CDF") {
        Version::of_byte(start[3])
    } else {
        None
    }
}

/// Returns the line of a format: the word that the option `-k` of ncgen(1) takes for it.
#[tactic(auto, unfolding(crate::specs::Formats::format_line))]
fn format_line(format: Version) -> &'static str
    ensures { result.now ≡ format_line format }
{
    match format {
        Version::Cdf1 => "nc3\n",
        Version::Cdf2 => "nc6\n",
        Version::Cdf5 => "nc5\n",
    }
}
