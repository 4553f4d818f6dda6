//! The whole header.

ghost use Rattle.std.specs.Prelude.{◌<◌, All};
ghost use Rattle.nc_base.specs.Grammar.{header_spelling, magic_part, numrecs_part, strict};
ghost use Rattle.nc_base.specs.Headers.{IsSound, IsSoundNumRecs};
ghost use Rattle.nc_base.specs.Parts.{print};
ghost use Rattle.nc_types.specs.Versions.{offset_limit};
ghost use Rattle.devices.specs.code.SinkWrites.{Wrote};

use super::attribute::put_att_list;
use super::dimension::put_dim_list;
use super::number::{put_count, put_count_field};
use super::variable::put_var_list;
use devices::{Sink, WriteFailed, put};
use nc_base::{Header, NumRecs, Version};

/// Writes the header of a file, as the format spells it: its `vsize` fields follow from the shapes. It does not allocate, and
/// hands one field at a time to the sink.
///
/// Needs a sound header (`nc_base::Header::sound`) in which each begin fits its field, as [`with_begins`](crate::with_begins) makes sure.
///
/// # Errors
///
/// The sink failed. It took some prefix of the header.
#[tactic(auto, using(devices::proofs::Writes::writes), unfolding(nc_base::specs::Parts::print, nc_base::specs::Grammar::header_by))]
pub fn write_header<W: Sink>(sink: &mut W, header: &Header) -> Result<(), WriteFailed>
    requires sound { IsSound header.now }
    requires begins { All (λ var. var.begin_at < offset_limit header.now.version) header.now.vars }
    ensures { Wrote W.view sink.old sink.new (header_spelling header.now) result }
{
    let version = header.version;
    put_magic(sink, version)?;
    put_numrecs(sink, version, header.numrecs)?;
    put_dim_list(sink, version, header.dims.as_slice())?;
    put_att_list(sink, version, header.gatts.as_slice())?;
    put_var_list(
        sink,
        version,
        header.dims.as_slice(),
        header.vars.as_slice(),
    )
}

/// Writes `CDF` and the version byte. Errs if the sink fails.
#[tactic(auto, unfolding(nc_base::specs::Parts::print, nc_base::specs::Grammar::magic_part, nc_base::specs::Grammar::version_part))]
fn put_magic<W: Sink>(sink: &mut W, version: Version) -> Result<(), WriteFailed>
    ensures { Wrote W.view sink.old sink.new (print magic_part version) result }
{
    put(sink, &[b'C', b'D', b'F', version.byte()])
}

/// Writes the number of records, in eight bytes in CDF-5 and otherwise in four; if it is unknown (`STREAMING`), all bits are 1. Needs a
/// known number to be below 2^31, or 2^63 in CDF-5. Errs if the sink fails.
#[tactic(auto, unfolding(nc_base::specs::Parts::print, nc_base::specs::Grammar::numrecs_part, nc_base::specs::Grammar::limited_part))]
fn put_numrecs<W: Sink>(sink: &mut W, version: Version, numrecs: NumRecs) -> Result<(), WriteFailed>
    requires { IsSoundNumRecs version numrecs }
    ensures { Wrote W.view sink.old sink.new (print (numrecs_part strict version) numrecs) result }
{
    match numrecs {
        NumRecs::Known(n) => put_count(sink, version, n),
        NumRecs::Streaming => put_count_field(sink, version, version.streaming_mark()),
    }
}
