//! Dimensions.

ghost use Rattle.std.specs.Prelude.{◌≡◌, [], IfOk, length};
ghost use Rattle.nc_base.specs.Grammar.{dim_after, dim_list, dim_part, each, strict};
ghost use Rattle.nc_window.specs.code.Window.{Read};

use super::list::{read_list_len, read_name};
use crate::tag::NC_DIMENSION;
use devices::Source;
use nc_base::{Dim, FormatFault, Sequence, Version};
use nc_window::{HeadFault, Window};
use std::alloc::Global;

/// Reads a dimension (its name and its length), and returns it. Errs with the fault of the first wrong field, such as `TwoRecordDims`
/// if it has length 0 and a dimension before it has, too (`has_record`), and if the source or an allocation fails.
#[tactic(auto, using(nc_window::proofs::PartRuns::part_runs), unfolding(nc_base::specs::Grammar::dim_part, nc_base::specs::code::PartRuns::printed_len))]
fn read_dim<S: Source>(
    window: &mut Window<'_, S>,
    alloc: Global,
    version: Version,
    has_record: bool,
) -> Result<Dim, HeadFault>
    ensures { Read window.old window.new (dim_part strict version has_record) result }
{
    let name = read_name(window, alloc, version)?;
    let len = window.count(version)?;
    if has_record && len == 0 {
        return Err(HeadFault::Format(FormatFault::TwoRecordDims));
    }
    Ok(Dim { name, len })
}

/// Reads `n` dimensions, and returns them. [`read_dim_list`] has read the list's tag and `n` before. Errs with the fault
/// of the first wrong field, such as `TwoRecordDims` at the second one of length 0, and if the source or an allocation fails.
#[tactic(auto, using(crate::proofs::Elements::each_runs))]
fn read_dims<S: Source>(
    window: &mut Window<'_, S>,
    alloc: Global,
    version: Version,
    n: u64,
) -> Result<Sequence<Dim>, HeadFault>
    ensures read { Read window.old window.new (each (dim_after strict version) n []) result }
    ensures count { IfOk result (λ dims. length dims ≡ n) }
{
    let mut dims = Sequence::new(alloc);
    let mut has_record = false;
    for _ in 0..n {
        let dim = read_dim(window, alloc, version, has_record)?;
        has_record = has_record || dim.len == 0;
        dims.push(dim)?;
    }
    Ok(dims)
}

/// Reads the list of dimensions: its tag, their number and the dimensions. Returns the dimensions. Errs with the fault of the first
/// wrong field, with `ReadFailed` if the source fails, and with `OutOfMemory` if an allocation fails.
#[tactic(auto, using(nc_window::proofs::PartRuns::part_runs), unfolding(nc_base::specs::Grammar::dim_list, nc_base::specs::Grammar::list_part, nc_base::specs::code::PartRuns::printed_len))]
pub(crate) fn read_dim_list<S: Source>(
    window: &mut Window<'_, S>,
    alloc: Global,
    version: Version,
) -> Result<Sequence<Dim>, HeadFault>
    ensures { Read window.old window.new (dim_list strict version) result }
{
    let n = read_list_len(window, version, NC_DIMENSION)?;
    read_dims(window, alloc, version, n)
}
