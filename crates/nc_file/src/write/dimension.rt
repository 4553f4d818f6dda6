//! The list of dimensions.

ghost use Rattle.std.specs.Prelude.{◌<◌, All, false, length};
ghost use Rattle.std.specs.List.{flat_map};
ghost use Rattle.nc_base.specs.Grammar.{dim_list, dim_part, strict};
ghost use Rattle.nc_base.specs.Parts.{print};
ghost use Rattle.nc_base.specs.Headers.{IsSoundDim};
ghost use Rattle.nc_types.specs.Versions.{count_limit};
ghost use Rattle.devices.specs.code.SinkWrites.{Wrote};

use super::list::{put_list_head, put_name};
use super::number::put_count;
use crate::tag::NC_DIMENSION;
use devices::{Sink, WriteFailed};
use nc_base::{Dim, Version};

/// Writes the list of dimensions: its tag (0 if there are none), their number and the dimensions. Needs their number, their lengths and
/// those of their names below 2^31, or 2^63 in CDF-5. Errs if the sink fails.
#[tactic(auto, using(crate::proofs::Prints::list_prints))]
pub(crate) fn put_dim_list<W: Sink>(
    sink: &mut W,
    version: Version,
    dims: &[Dim],
) -> Result<(), WriteFailed>
    requires few { length dims.now < count_limit version }
    requires sound { All (IsSoundDim version) dims.now }
    ensures { Wrote W.view sink.old sink.new (print (dim_list strict version) dims.now) result }
{
    put_list_head(sink, version, NC_DIMENSION, dims.len() as u64)?;
    put_dims(sink, version, dims)
}

/// Writes the dimensions of the list, without the tag and the number before them. Needs each as [`put_dim`] does. Errs if the sink fails.
fn put_dims<W: Sink>(sink: &mut W, version: Version, dims: &[Dim]) -> Result<(), WriteFailed>
    requires { All (IsSoundDim version) dims.now }
    ensures { Wrote W.view sink.old sink.new
        (flat_map (print (dim_part strict version false)) dims.now) result }
{
    for dim in dims {
        put_dim(sink, version, dim)?;
    }
    Ok(())
}

/// Writes a dimension: its name and its length. Needs its length and that of its name below 2^31, or 2^63 in CDF-5. Errs if the sink fails.
#[tactic(auto, using(devices::proofs::Writes::writes), unfolding(nc_base::specs::Parts::print, nc_base::specs::Grammar::dim_part))]
fn put_dim<W: Sink>(sink: &mut W, version: Version, dim: &Dim) -> Result<(), WriteFailed>
    requires { IsSoundDim version dim.now }
    ensures { Wrote W.view sink.old sink.new (print (dim_part strict version false) dim.now) result }
{
    put_name(sink, version, dim.name.as_slice())?;
    put_count(sink, version, dim.len)
}
