//! Numbers of the widths of a version.

ghost use Rattle.std.specs.Prelude.{◌+◌, ◌<◌};
ghost use Rattle.std.specs.Int.{w32, w64};
ghost use Rattle.nc_base.specs.Grammar.{count_part, number, offset_part};
ghost use Rattle.nc_base.specs.Parts.{print};
ghost use Rattle.nc_types.specs.Versions.{count_limit, count_width, offset_limit};
ghost use Rattle.devices.specs.code.SinkWrites.{Wrote};

use byteorder::{BigEndian, ByteOrder};
use devices::{Sink, WriteFailed, put};
use nc_base::Version;

/// Writes a big-endian number of 32 bits, whatever the version: a tag, or the code of a type. Errs if the sink fails.
#[tactic(auto, unfolding(nc_base::specs::Parts::print, nc_base::specs::Grammar::number))]
pub(crate) fn put_u32<W: Sink>(sink: &mut W, n: u32) -> Result<(), WriteFailed>
    ensures { Wrote W.view sink.old sink.new (print (number w32) n) result }
{
    let mut bytes = [0; 4];
    BigEndian::write_u32(&mut bytes, n);
    put(sink, &bytes)
}

/// Writes a big-endian number of 64 bits, whatever the version. Errs if the sink fails.
#[tactic(auto, unfolding(nc_base::specs::Parts::print, nc_base::specs::Grammar::number))]
fn put_u64<W: Sink>(sink: &mut W, n: u64) -> Result<(), WriteFailed>
    ensures { Wrote W.view sink.old sink.new (print (number w64) n) result }
{
    let mut bytes = [0; 8];
    BigEndian::write_u64(&mut bytes, n);
    put(sink, &bytes)
}

/// Writes a big-endian number as wide as the version's counts, eight bytes in CDF-5 and otherwise four. Needs a number that fits. Its top
/// bit may be 1, as in a `vsize`, or in the number of records if that is unknown (`STREAMING`). Errs if the sink fails.
#[tactic(auto, unfolding(nc_base::specs::Parts::print, nc_base::specs::Grammar::number))]
pub(crate) fn put_count_field<W: Sink>(
    sink: &mut W,
    version: Version,
    n: u64,
) -> Result<(), WriteFailed>
    requires { n < count_limit version + count_limit version }
    ensures { Wrote W.view sink.old sink.new (print (number (count_width version)) n) result }
{
    match version {
        Version::Cdf1 | Version::Cdf2 => put_u32(sink, n as u32),
        Version::Cdf5 => put_u64(sink, n),
    }
}

/// Writes a count, a length or a dimension id (`NON_NEG`) as a big-endian number, in eight bytes in CDF-5 and otherwise in four. Needs a
/// number below 2^31, or 2^63 in CDF-5: its top bit is 0. Errs if the sink fails.
#[tactic(auto, unfolding(nc_base::specs::Parts::print, nc_base::specs::Grammar::limited_part))]
pub(crate) fn put_count<W: Sink>(sink: &mut W, version: Version, n: u64) -> Result<(), WriteFailed>
    requires { n < count_limit version }
    ensures { Wrote W.view sink.old sink.new (print (count_part version) n) result }
{
    put_count_field(sink, version, n)
}

/// Writes an offset (`OFFSET`) as a big-endian number, in four bytes in CDF-1 and otherwise in eight. Needs an offset below 2^31 in CDF-1,
/// and otherwise below 2^63. Errs if the sink fails.
#[tactic(auto, unfolding(nc_base::specs::Parts::print, nc_base::specs::Grammar::offset_part, nc_base::specs::Grammar::number))]
pub(crate) fn put_offset<W: Sink>(
    sink: &mut W,
    version: Version,
    offset: u64,
) -> Result<(), WriteFailed>
    requires { offset < offset_limit version }
    ensures { Wrote W.view sink.old sink.new (print (offset_part version) offset) result }
{
    match version {
        Version::Cdf1 => put_u32(sink, offset as u32),
        Version::Cdf2 | Version::Cdf5 => put_u64(sink, offset),
    }
}
