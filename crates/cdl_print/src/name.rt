//! Names as CDL writes them.

ghost use Rattle.std.specs.Prelude.{◌≡◌, ◌||◌};
ghost use Rattle.nc_types.specs.Escapes.{begins_with_digit_or_mark, escaped_name, is_reserved};
ghost use Rattle.devices.specs.code.SinkWrites.{Wrote};
ghost use Rattle.cdl_print.specs.code.Pieces.{prefix_escape};

use crate::escaped::put_escaped;
use devices::{Sink, WriteFailed, put};
use nc_base::{Quoting, begins_with_digit_or_mark, is_reserved};

/// Writes a name with its escapes.
///
/// A backslash stands before each byte that a name may not have as it is. One also stands before the first byte, if that is a
/// digit, `.`, `@`, `+` or `-`, or if the name is a reserved word (ncdump(1), and the chapter on CDL of the NetCDF User's Guide).
///
/// # Errors
///
/// The sink failed. It took some prefix of the text.
#[tactic(auto, using(devices::proofs::Writes::writes), unfolding(nc_types::specs::Escapes::escaped_name, crate::specs::code::Pieces::prefix_escape))]
pub fn put_name<W: Sink>(sink: &mut W, name: &[u8]) -> Result<(), WriteFailed>
    ensures { Wrote W.view sink.old sink.new (escaped_name name.now) result }
{
    put_leading_backslash(sink, name)?;
    put_escaped(sink, Quoting::InName, name)
}

/// Writes a backslash if the first byte of the name is a digit, `.`, `@`, `+` or `-`, or if the name is a reserved word. Otherwise writes
/// nothing. Errs if the sink fails.
#[tactic(auto, using(devices::proofs::Writes::writes), unfolding(crate::specs::code::Pieces::prefix_escape))]
fn put_leading_backslash<W: Sink>(sink: &mut W, name: &[u8]) -> Result<(), WriteFailed>
    ensures { Wrote W.view sink.old sink.new (prefix_escape name.now) result }
{
    if needs_leading_backslash(name) {
        return put(sink, b"\\");
    }
    Ok(())
}

/// Returns true if a backslash stands before the printed name: its first byte is a digit, `.`, `@`, `+` or `-`, or the name is a
/// reserved word.
pub fn needs_leading_backslash(name: &[u8]) -> bool
    ensures { result ≡ (begins_with_digit_or_mark name.now || is_reserved name.now) }
{
    begins_with_digit_or_mark(name) || is_reserved(name)
}
