//! Variables.

ghost use Rattle.std.specs.Prelude.{IfOk, ◌≡◌, [], length};
ghost use Rattle.nc_base.specs.Grammar.{checked, dimid_after, dimid_part, each, is_within_limits, offset_part, shape_part, type_part, var_after, var_list, var_part, strict};
ghost use Rattle.nc_base.specs.declared.fault.FormatFault.TheVariants.{TooLarge};
ghost use Rattle.nc_window.specs.code.SizedVars.{IsCounted, IsCountedType, type_of, var_of};
ghost use Rattle.nc_window.specs.code.Window.{Read};

use super::attribute::read_att_list;
use super::list::{read_list_len, read_name, read_type};
use crate::tag::NC_VARIABLE;
use devices::Source;
use nc_base::{Dim, FormatFault, Sequence, Var, Version};
use nc_window::{HeadFault, SizedType, SizedVar, Window, is_dimid, total_with};
use std::alloc::Global;

/// Reads a dimension id of a shape (`first`: its first one), and returns it. Errs with `BadShape` if no dimension of `dims` has this
/// id, or if it is the record dimension's and `first` is false, with `HeaderTruncated` if bytes are missing, and if the source fails.
#[tactic(auto, using(nc_window::proofs::PartRuns::part_runs), unfolding(nc_base::specs::Grammar::dimid_part, nc_base::specs::code::PartRuns::printed_len))]
fn read_dimid<S: Source>(
    window: &mut Window<'_, S>,
    version: Version,
    dims: &[Dim],
    first: bool,
) -> Result<u64, HeadFault>
    ensures { Read window.old window.new (dimid_part version dims.now first) result }
{
    let id = window.number(version)?;
    if !is_dimid(dims, first, id) {
        return Err(HeadFault::Format(FormatFault::BadShape));
    }
    Ok(id)
}

/// Reads the `n` dimension ids of a shape, and returns them. Errs with `BadShape` if one of them is the id of no dimension of `dims`,
/// or if one after the first is that of the record dimension, with `HeaderTruncated` if bytes are missing, and if the source or an
/// allocation fails.
#[tactic(auto, using(crate::proofs::Elements::each_runs))]
fn read_dimids<S: Source>(
    window: &mut Window<'_, S>,
    alloc: Global,
    version: Version,
    dims: &[Dim],
    n: u64,
) -> Result<Sequence<u64>, HeadFault>
    ensures read { Read window.old window.new (each (dimid_after version dims.now) n []) result }
    ensures count { IfOk result (λ dimids. length dimids ≡ n) }
{
    let mut dimids = Sequence::new(alloc);
    let mut first = true;
    for _ in 0..n {
        dimids.push(read_dimid(window, version, dims, first)?)?;
        first = false;
    }
    Ok(dimids)
}

/// Reads the shape of a variable: its rank and its dimension ids. Returns the ids. Errs with the fault of the first wrong field, such
/// as `BadShape` if an id is that of no dimension of `dims`, and if the source or an allocation fails.
#[tactic(auto, using(nc_window::proofs::PartRuns::part_runs), unfolding(nc_base::specs::Grammar::shape_part, nc_base::specs::Grammar::counted, nc_base::specs::code::PartRuns::printed_len))]
fn read_shape<S: Source>(
    window: &mut Window<'_, S>,
    alloc: Global,
    version: Version,
    dims: &[Dim],
) -> Result<Sequence<u64>, HeadFault>
    ensures { Read window.old window.new (shape_part version dims.now) result }
{
    let n = window.count(version)?;
    read_dimids(window, alloc, version, dims, n)
}

/// Reads a variable's begin, the offset of its first value (four bytes in CDF-1 and otherwise eight), and returns it. Errs with
/// `BadOffset` if its top bit is 1, with `HeaderTruncated` if bytes are missing, and with `ReadFailed` if the source fails.
#[tactic(auto, using(nc_window::proofs::PartRuns::part_runs), unfolding(nc_base::specs::Grammar::offset_part, nc_base::specs::code::PartRuns::printed_len))]
fn read_begin<S: Source>(window: &mut Window<'_, S>, version: Version) -> Result<u64, HeadFault>
    ensures { Read window.old window.new (offset_part version) result }
{
    let n = match version {
        Version::Cdf1 => window.read_u32_as_u64()?,
        Version::Cdf2 | Version::Cdf5 => window.read_u64()?,
    };
    if version.offset_limit() <= n {
        return Err(HeadFault::Format(FormatFault::BadOffset));
    }
    Ok(n)
}

/// Reads the type of a variable with the shape `dimids`, and returns it with the bytes of the padded slabs of the record variables up
/// to this one: `total`, those before it, plus its own if it is a record variable. Errs with `FloatingType`, `BadType` or
/// `HeaderTruncated` if the type is wrong or cut, with `TooLarge` if its slab passes 2^48 bytes or the sum 2^62, and with `ReadFailed`
/// if the source fails.
#[tactic(auto, using(crate::proofs::Elements::limit_runs), unfolding(nc_base::specs::code::PartRuns::printed_len))]
fn read_sized_type<S: Source>(
    window: &mut Window<'_, S>,
    version: Version,
    dims: &[Dim],
    dimids: &[u64],
    total: u64,
) -> Result<SizedType, HeadFault>
    ensures read { Read window.old window.new
        (checked (is_within_limits dims.now total dimids.now) TooLarge (type_part strict version))
        (type_of result) }
    ensures total { IfOk result (IsCountedType dims.now dimids.now total) }
{
    let ty = read_type(window, version)?;
    let total = total_with(dims, dimids, ty, total).ok_or(FormatFault::TooLarge)?;
    Ok(SizedType { ty, total })
}

/// Reads a variable, and returns it with the bytes of the padded slabs of the record variables up to this one: `total`, those before
/// it, plus its own if it is a record variable. Errs with the fault of the first wrong field, with `TooLarge` if its slab passes 2^48
/// bytes or the sum 2^62, and if the source or an allocation fails. Its `vsize` may be any number.
#[tactic(auto, using(nc_window::proofs::PartRuns::part_runs), unfolding(nc_base::specs::Grammar::var_part, nc_base::specs::code::PartRuns::printed_len))]
fn read_var<S: Source>(
    window: &mut Window<'_, S>,
    alloc: Global,
    version: Version,
    dims: &[Dim],
    total: u64,
) -> Result<SizedVar, HeadFault>
    ensures read { Read window.old window.new (var_part strict version dims.now total) (var_of result) }
    ensures total { IfOk result (IsCounted dims.now total) }
{
    let name = read_name(window, alloc, version)?;
    let dimids = read_shape(window, alloc, version, dims)?;
    let atts = read_att_list(window, alloc, version)?;
    let sized = read_sized_type(window, version, dims, dimids.as_slice(), total)?;
    let _vsize = window.number(version)?;
    let begin_at = read_begin(window, version)?;
    Ok(SizedVar {
        var: Var {
            name,
            dimids,
            atts,
            ty: sized.ty,
            begin_at,
        },
        total: sized.total,
    })
}

/// Reads `n` variables, one after the other, and returns them. [`read_var_list`] has read the list's tag and `n` before.
/// Allocates for the variables that it has read, and not for `n`. Errs with the fault of the first wrong field, such as `TooLarge` if a
/// slab passes 2^48 bytes, or the padded slabs of the record variables together 2^62, and if the source or an allocation fails.
#[tactic(auto, using(crate::proofs::Elements::each_runs))]
fn read_vars<S: Source>(
    window: &mut Window<'_, S>,
    alloc: Global,
    version: Version,
    dims: &[Dim],
    n: u64,
) -> Result<Sequence<Var>, HeadFault>
    ensures read { Read window.old window.new (each (var_after strict version dims.now) n []) result }
    ensures count { IfOk result (λ vars. length vars ≡ n) }
{
    let mut vars = Sequence::new(alloc);
    let mut total = 0;
    for _ in 0..n {
        let sized = read_var(window, alloc, version, dims, total)?;
        total = sized.total;
        vars.push(sized.var)?;
    }
    Ok(vars)
}

/// Reads the list of variables: its tag, their number and the variables, whose shapes it checks against `dims`. Returns the variables.
/// Errs with the fault of the first wrong field, with `ReadFailed` if the source fails, and with `OutOfMemory` if an allocation fails.
#[tactic(auto, using(nc_window::proofs::PartRuns::part_runs), unfolding(nc_base::specs::Grammar::var_list, nc_base::specs::Grammar::list_part, nc_base::specs::code::PartRuns::printed_len))]
pub(crate) fn read_var_list<S: Source>(
    window: &mut Window<'_, S>,
    alloc: Global,
    version: Version,
    dims: &[Dim],
) -> Result<Sequence<Var>, HeadFault>
    ensures { Read window.old window.new (var_list strict version dims.now) result }
{
    let n = read_list_len(window, version, NC_VARIABLE)?;
    read_vars(window, alloc, version, dims, n)
}
