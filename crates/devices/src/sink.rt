//! Sinks of bytes, and the call that writes all of a text to one.

ghost use Rattle.std.specs.Prelude.{◌≡◌, [], Bool, IfOk, true};
ghost use Rattle.devices.specs.Sinks.{SinkView};
ghost use Rattle.devices.specs.code.SinkWrites.{Wrote, WroteSome};

use crate::{SinkFailed, WriteFailed};

/// A device that takes bytes, one after another.
///
/// A sink is transparent if a contract can name the bytes that it took, such as those of a sink in memory. Contracts see these bytes of a
/// transparent sink, and of any sink the number of its failures, which stays below 2^128.
pub trait Sink {
    // The sink as contracts see it.
    ghost view: { Self → SinkView };

    /// Takes bytes from the start of `bytes`, and returns how many: at least one, unless `bytes` is empty.
    ///
    /// # Errors
    ///
    /// The sink failed, and took none of the bytes. Empty `bytes` never fail.
    fn write_some(&mut self, bytes: &[u8]) -> Result<usize, SinkFailed>
        ensures { WroteSome (view self.old) (view self.new) bytes.now result };
}

/// A sink that may hold bytes back until it is flushed.
pub trait Flush: Sink {
    // All that it took was passed on.
    ghost is_flushed: { Self → Bool };

    /// Passes on all bytes that the sink holds back.
    ///
    /// # Errors
    ///
    /// The sink failed. It may still hold bytes back.
    fn flush(&mut self) -> Result<(), SinkFailed>
        ensures wrote { Wrote Self.view self.old self.new [] result }
        ensures flushed { IfOk result (λ _. is_flushed self.new ≡ true) };
}

/// Writes all of the bytes to the sink, in as many calls of `write_some` as it takes: none if `bytes` is empty.
///
/// # Errors
///
/// The sink failed. It took some prefix of the bytes, and is not tried again.
#[tactic(auto, using(crate::proofs::Writes::writes))]
pub fn put<W: Sink>(sink: &mut W, bytes: &[u8]) -> Result<(), WriteFailed>
    ensures { Wrote W.view sink.old sink.new bytes.now result }
{
    let mut done = 0;
    while done < bytes.len() {
        done += sink.write_some(&bytes[done..])?;
    }
    Ok(())
}
