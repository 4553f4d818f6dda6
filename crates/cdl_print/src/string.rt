//! Strings as CDL writes them.

ghost use Rattle.std.specs.Prelude.{◌≡◌, ◌==◌, position};
ghost use Rattle.nc_base.specs.HeadText.{broken_text};
ghost use Rattle.devices.specs.code.SinkWrites.{Wrote};
ghost use Rattle.cdl_print.specs.code.Pieces.{line_len, line_text};

use crate::escaped::put_escaped;
use devices::{Sink, WriteFailed, put};
use nc_base::Quoting;

/// Writes the bytes of a string with their escapes. The string is closed and opened again (`",`, a new line, three tabs and `"`) after each
/// line feed that isn't its last byte. The string's first and last quotes are left to the caller. Errs if the sink fails.
pub fn put_broken_text<W: Sink>(sink: &mut W, bytes: &[u8]) -> Result<(), WriteFailed>
    ensures { Wrote W.view sink.old sink.new (broken_text bytes.now) result }
{
    let mut rest = bytes;
    while !rest.is_empty() {
        let (line, others) = rest.split_at(line_len(rest));
        put_line(sink, line, others.is_empty())?;
        rest = others;
    }
    Ok(())
}

/// Returns how many bytes the first line has, with its line feed: all of `bytes` if there is no line feed.
#[tactic(auto, using(crate::proofs::Runs::lines))]
fn line_len(bytes: &[u8]) -> usize
    ensures { result ≡ line_len bytes.now }
{
    match line_feed_offset(bytes) {
        Some(at) => at + 1,
        None => bytes.len(),
    }
}

/// Returns the offset of the first line feed, or `None` if there is none.
fn line_feed_offset(bytes: &[u8]) -> Option<usize>
    ensures { result ≡ position (λ b. b == 10) bytes.now }
{
    bytes.iter().position(|b| *b == b'\n')
}

/// Writes a line of a string with its escapes. Unless `is_last`, then closes the string and opens it again on the next line of the dump.
/// Errs if the sink fails.
#[tactic(auto, using(devices::proofs::Writes::writes), unfolding(crate::specs::code::Pieces::line_text, nc_types::specs::Escapes::escaped_text, nc_base::specs::HeadText::string_break))]
fn put_line<W: Sink>(sink: &mut W, line: &[u8], is_last: bool) -> Result<(), WriteFailed>
    ensures { Wrote W.view sink.old sink.new (line_text line.now is_last) result }
{
    put_escaped(sink, Quoting::InString, line)?;
    if is_last {
        return Ok(());
    }
    put(sink, b"\",\n\t\t\t\"")
}
