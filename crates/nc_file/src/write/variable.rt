//! The list of variables.

ghost use Rattle.std.specs.Prelude.{◌<◌, [], All, length};
ghost use Rattle.std.specs.List.{flat_map};
ghost use Rattle.nc_base.specs.Grammar.{number, shape_part, var_list, var_part, strict};
ghost use Rattle.nc_base.specs.Headers.{IsSoundVar};
ghost use Rattle.nc_base.specs.Parts.{print};
ghost use Rattle.nc_base.specs.Sizes.{padded_size};
ghost use Rattle.nc_types.specs.Versions.{count_limit, count_width, offset_limit, vsize_of};
ghost use Rattle.devices.specs.code.SinkWrites.{Wrote};

use super::attribute::put_att_list;
use super::list::{put_list_head, put_name};
use super::number::{put_count, put_count_field, put_offset, put_u32};
use super::slab::padded_slab_len;
use crate::tag::NC_VARIABLE;
use devices::{Sink, WriteFailed};
use nc_base::{Dim, Var, Version};

/// Writes the list of variables: its tag (0 if there are none), their number and the variables. `dims` has the header's dimensions. Needs
/// sound variables (`IsSoundVar`: counts, shape and type keep the rules of the format, and the slab has at most 2^48 bytes) with begins
/// that fit their fields, and fewer variables, and fewer dimensions, than 2^31, or 2^63 in CDF-5. Errs if the sink fails.
#[tactic(auto, using(crate::proofs::Prints::list_prints))]
pub(crate) fn put_var_list<W: Sink>(
    sink: &mut W,
    version: Version,
    dims: &[Dim],
    vars: &[Var],
) -> Result<(), WriteFailed>
    requires few { length vars.now < count_limit version }
    requires few_dims { length dims.now < count_limit version }
    requires sound { All (IsSoundVar version dims.now) vars.now }
    requires begins { All (λ var. var.begin_at < offset_limit version) vars.now }
    ensures { Wrote W.view sink.old sink.new
        (print (var_list strict version dims.now) vars.now) result }
{
    put_list_head(sink, version, NC_VARIABLE, vars.len() as u64)?;
    put_vars(sink, version, dims, vars)
}

/// Writes the variables of the list, without the tag and the number before them. Needs what [`put_var`] needs. Errs if the sink fails.
fn put_vars<W: Sink>(
    sink: &mut W,
    version: Version,
    dims: &[Dim],
    vars: &[Var],
) -> Result<(), WriteFailed>
    requires few_dims { length dims.now < count_limit version }
    requires sound { All (IsSoundVar version dims.now) vars.now }
    requires begins { All (λ var. var.begin_at < offset_limit version) vars.now }
    ensures { Wrote W.view sink.old sink.new
        (flat_map (print (var_part strict version dims.now 0)) vars.now) result }
{
    for var in vars {
        put_var(sink, version, dims, var)?;
    }
    Ok(())
}

/// Writes a variable: its name, its shape, its attributes, its type, its `vsize` and its begin. `dims` has the header's dimensions. Needs
/// fewer of them than 2^31, or 2^63 in CDF-5, and a sound variable (`IsSoundVar`: counts, shape and type keep the rules of the format, and
/// the slab has at most 2^48 bytes) with a begin that fits its field. Errs if the sink fails.
#[tactic(auto, using(crate::proofs::Prints::var_prints), unfolding(nc_base::specs::Parts::print, nc_base::specs::Grammar::var_part, nc_base::specs::Grammar::type_part))]
fn put_var<W: Sink>(
    sink: &mut W,
    version: Version,
    dims: &[Dim],
    var: &Var,
) -> Result<(), WriteFailed>
    requires few_dims { length dims.now < count_limit version }
    requires sound { IsSoundVar version dims.now var.now }
    requires begin { var.now.begin_at < offset_limit version }
    ensures { Wrote W.view sink.old sink.new
        (print (var_part strict version dims.now 0) var.now) result }
{
    put_name(sink, version, var.name.as_slice())?;
    put_shape(sink, version, var.dimids.as_slice())?;
    put_att_list(sink, version, var.atts.as_slice())?;
    put_u32(sink, var.ty.code())?;
    put_vsize(sink, version, dims, var)?;
    put_offset(sink, version, var.begin_at)
}

/// Writes a shape: its rank and `dimids`, the ids of its dimensions. Needs a rank and ids below 2^31, or 2^63 in CDF-5. Errs if the sink
/// fails.
#[tactic(auto, using(crate::proofs::Prints::var_prints))]
fn put_shape<W: Sink>(sink: &mut W, version: Version, dimids: &[u64]) -> Result<(), WriteFailed>
    requires rank { length dimids.now < count_limit version }
    requires small { All (λ id. id < count_limit version) dimids.now }
    ensures { Wrote W.view sink.old sink.new (print (shape_part version []) dimids.now) result }
{
    put_count(sink, version, dimids.len() as u64)?;
    put_dimids(sink, version, dimids)
}

/// Writes `dimids`, the ids of dimensions, each as wide as a count. Needs ids below 2^31, or 2^63 in CDF-5. Errs if the sink fails.
fn put_dimids<W: Sink>(sink: &mut W, version: Version, dimids: &[u64]) -> Result<(), WriteFailed>
    requires { All (λ id. id < count_limit version) dimids.now }
    ensures { Wrote W.view sink.old sink.new
        (flat_map (print (number (count_width version))) dimids.now) result }
{
    for id in dimids {
        put_count_field(sink, version, *id)?;
    }
    Ok(())
}

/// Writes the `vsize` of a variable, as wide as a count: the bytes of its padded slab, but at most 2^32 - 1 in CDF-1 and CDF-2
/// ([`Version::vsize_of`]). `dims` has the header's dimensions. Needs a sound variable (`IsSoundVar`). Errs if the sink fails.
fn put_vsize<W: Sink>(
    sink: &mut W,
    version: Version,
    dims: &[Dim],
    var: &Var,
) -> Result<(), WriteFailed>
    requires { IsSoundVar version dims.now var.now }
    ensures { Wrote W.view sink.old sink.new
        (print (number (count_width version)) (vsize_of version (padded_size dims.now var.now)))
        result }
{
    put_count_field(sink, version, version.vsize_of(padded_slab_len(dims, var)))
}
