//! The parts that several lists share: a name, a type, and the number of elements.

ghost use Rattle.nc_base.specs.Grammar.{list_head, name_part, type_part, strict};
ghost use Rattle.nc_window.specs.code.Window.{Read};

use devices::Source;
use nc_base::{FormatFault, NcType, Sequence, Version, check_name, padding_len};
use nc_window::{HeadFault, Window, type_in};
use std::alloc::Global;

/// Reads a name: its length, its bytes and their padding. Returns the bytes. Errs with `BadCount` if the length's top bit is 1, with
/// `BadName` if the bytes aren't a valid name, with `HeaderTruncated` if bytes are missing, and if the source or an allocation fails.
#[tactic(auto, using(nc_window::proofs::PartRuns::part_runs), unfolding(nc_base::specs::Grammar::name_part, nc_base::specs::code::PartRuns::printed_len))]
pub(crate) fn read_name<S: Source>(
    window: &mut Window<'_, S>,
    alloc: Global,
    version: Version,
) -> Result<Sequence<u8>, HeadFault>
    ensures { Read window.old window.new (name_part strict version) result }
{
    let n = window.count(version)?;
    let name = window.bytes(alloc, n as u128)?;
    if !check_name(name.as_slice()) {
        return Err(HeadFault::Format(FormatFault::BadName));
    }
    window.skip(padding_len(n as u128))?;
    Ok(name)
}

/// Reads the code of a type, four bytes, and returns the type. Errs with `FloatingType` if it is `float` or `double`, with `BadType` if
/// the version has no type with this code, with `HeaderTruncated` if bytes are missing, and with `ReadFailed` if the source fails.
#[tactic(auto, using(nc_window::proofs::PartRuns::part_runs), unfolding(nc_base::specs::Grammar::type_part, nc_base::specs::code::PartRuns::printed_len))]
pub(crate) fn read_type<S: Source>(
    window: &mut Window<'_, S>,
    version: Version,
) -> Result<NcType, HeadFault>
    ensures { Read window.old window.new (type_part strict version) result }
{
    let code = window.read_u32()?;
    Ok(type_in(version, code)?)
}

/// Reads the tag of a list and the number of its elements, and returns the number. `tag` is the tag of lists of this kind; 0 may stand
/// in its place if there are no elements. Errs with `BadTag` if any other tag was read, with `BadCount` if the tag is 0 and the number
/// isn't, or if the number's top bit is 1, with `HeaderTruncated` if bytes are missing, and with `ReadFailed` if the source fails.
#[tactic(auto, using(nc_window::proofs::PartRuns::part_runs), unfolding(nc_base::specs::Grammar::list_head, nc_base::specs::code::PartRuns::printed_len))]
pub(crate) fn read_list_len<S: Source>(
    window: &mut Window<'_, S>,
    version: Version,
    tag: u32,
) -> Result<u64, HeadFault>
    ensures { Read window.old window.new (list_head version tag) result }
{
    let found = window.read_u32()?;
    if found != 0 && found != tag {
        return Err(HeadFault::Format(FormatFault::BadTag));
    }
    let n = window.count(version)?;
    if found == 0 && n != 0 {
        return Err(HeadFault::Format(FormatFault::BadCount));
    }
    Ok(n)
}
