//! Attributes.

ghost use Rattle.std.specs.Prelude.{◌≡◌, [], IfOk, length};
ghost use Rattle.nc_base.specs.Grammar.{att_after, att_list, att_part, each, strict};
ghost use Rattle.nc_window.specs.code.Window.{Read};

use super::list::{read_list_len, read_name, read_type};
use crate::tag::NC_ATTRIBUTE;
use devices::Source;
use nc_base::{Att, Sequence, Version, padding_len};
use nc_window::{HeadFault, Window};
use std::alloc::Global;

/// Reads an attribute: its name, its type, the number of its values, and its values. Passes over the padding after them. Errs with the
/// fault of the first wrong field, with `ReadFailed` if the source fails, and with `OutOfMemory` if an allocation fails.
#[tactic(auto, using(nc_window::proofs::PartRuns::part_runs), unfolding(nc_base::specs::Grammar::att_part, nc_base::specs::code::PartRuns::printed_len))]
fn read_att<S: Source>(
    window: &mut Window<'_, S>,
    alloc: Global,
    version: Version,
) -> Result<Att, HeadFault>
    ensures { Read window.old window.new (att_part strict version) result }
{
    let name = read_name(window, alloc, version)?;
    let ty = read_type(window, version)?;
    let n = window.count(version)?;
    let len = n as u128 * ty.size() as u128;
    let vals = window.bytes(alloc, len)?;
    window.skip(padding_len(len))?;
    Ok(Att { name, ty, vals })
}

/// Reads `n` attributes, one after the other, and returns them. [`read_att_list`] has read the list's tag and `n` before.
/// Errs with the fault of the first wrong field, with `ReadFailed` if the source fails, and with `OutOfMemory` if an allocation fails.
#[tactic(auto, using(crate::proofs::Elements::each_runs))]
fn read_atts<S: Source>(
    window: &mut Window<'_, S>,
    alloc: Global,
    version: Version,
    n: u64,
) -> Result<Sequence<Att>, HeadFault>
    ensures read { Read window.old window.new (each (att_after strict version) n []) result }
    ensures count { IfOk result (λ atts. length atts ≡ n) }
{
    let mut atts = Sequence::new(alloc);
    for _ in 0..n {
        let att = read_att(window, alloc, version)?;
        atts.push(att)?;
    }
    Ok(atts)
}

/// Reads a list of attributes: its tag, their number and the attributes. Returns the attributes. Errs with the fault of the first wrong
/// field, with `ReadFailed` if the source fails, and with `OutOfMemory` if an allocation fails.
#[tactic(auto, using(nc_window::proofs::PartRuns::part_runs), unfolding(nc_base::specs::Grammar::att_list, nc_base::specs::Grammar::list_part, nc_base::specs::code::PartRuns::printed_len))]
pub(crate) fn read_att_list<S: Source>(
    window: &mut Window<'_, S>,
    alloc: Global,
    version: Version,
) -> Result<Sequence<Att>, HeadFault>
    ensures { Read window.old window.new (att_list strict version) result }
{
    let n = read_list_len(window, version, NC_ATTRIBUTE)?;
    read_atts(window, alloc, version, n)
}
