//! Numbers in decimal.

ghost use Rattle.std.specs.Prelude.{decimal};
ghost use Rattle.devices.specs.code.SinkWrites.{Wrote};

use crate::{Sink, WriteFailed, put};
use itoa::Buffer;

/// Writes the digits of `n` in decimal to the sink, such as `42`.
///
/// # Errors
///
/// The sink failed, and took some prefix of the digits.
pub fn put_decimal<W: Sink>(sink: &mut W, n: u128) -> Result<(), WriteFailed>
    ensures { Wrote W.view sink.old sink.new (decimal n) result }
{
    let mut digits = Buffer::new();
    put(sink, digits.format(n).as_bytes())
}
