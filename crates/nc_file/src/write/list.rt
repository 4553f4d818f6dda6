//! The parts that several lists share: a name, bytes with their padding, and what stands before the elements of a list.

ghost use Rattle.std.specs.Prelude.{◌++◌, ◌<◌, length};
ghost use Rattle.nc_types.specs.Bytes.{padding_len};
ghost use Rattle.nc_base.specs.Grammar.{ignored, list_head, name_part, strict};
ghost use Rattle.nc_base.specs.Parts.{print};
ghost use Rattle.nc_types.specs.Versions.{count_limit};
ghost use Rattle.devices.specs.code.SinkWrites.{Wrote};

use super::number::{put_count, put_u32};
use devices::{Sink, WriteFailed, put};
use nc_base::{Version, padding_len};

/// Writes a name: its length, as wide as the version's counts, its bytes, and zeros up to a multiple of four. Needs a length below 2^31, or
/// 2^63 in CDF-5; the name isn't checked. Errs if the sink fails.
#[tactic(auto, using(devices::proofs::Writes::writes), unfolding(nc_base::specs::Parts::print, nc_base::specs::Grammar::name_part))]
pub(crate) fn put_name<W: Sink>(
    sink: &mut W,
    version: Version,
    name: &[u8],
) -> Result<(), WriteFailed>
    requires { length name.now < count_limit version }
    ensures { Wrote W.view sink.old sink.new (print (name_part strict version) name.now) result }
{
    put_count(sink, version, name.len() as u64)?;
    put_padded(sink, name)
}

/// Writes bytes, and then up to three zeros, so that the number of all bytes is a multiple of four. Errs if the sink fails.
#[tactic(auto, using(devices::proofs::Writes::writes))]
pub(crate) fn put_padded<W: Sink>(sink: &mut W, bytes: &[u8]) -> Result<(), WriteFailed>
    ensures { Wrote W.view sink.old sink.new
        (bytes.now ++ print (ignored (padding_len (length bytes.now))) tt) result }
{
    put(sink, bytes)?;
    put_zeros(sink, padding_len(bytes.len() as u128))
}

/// Writes `n` zero bytes, which are padding. Needs an `n` of at most 3. Errs if the sink fails.
#[tactic(auto, unfolding(nc_base::specs::Parts::print, nc_base::specs::Grammar::ignored))]
fn put_zeros<W: Sink>(sink: &mut W, n: u64) -> Result<(), WriteFailed>
    requires { n < 4 }
    ensures { Wrote W.view sink.old sink.new (print (ignored n) tt) result }
{
    let zeros = [0; 4];
    put(sink, &zeros[..n as usize])
}

/// Writes what comes before the `n` elements of a list: the list's tag, or 0 if `n` is 0, and then `n`. Needs an `n` below 2^31, or 2^63 in
/// CDF-5. Errs if the sink fails.
#[tactic(auto, using(devices::proofs::Writes::writes), unfolding(nc_base::specs::Parts::print, nc_base::specs::Grammar::list_head))]
pub(crate) fn put_list_head<W: Sink>(
    sink: &mut W,
    version: Version,
    tag: u32,
    n: u64,
) -> Result<(), WriteFailed>
    requires { n < count_limit version }
    ensures { Wrote W.view sink.old sink.new (print (list_head version tag) n) result }
{
    put_u32(sink, if n == 0 { 0 } else { tag })?;
    put_count(sink, version, n)
}
