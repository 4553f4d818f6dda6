//! The fill value of a variable.

ghost use Rattle.std.specs.Prelude.{◌≡◌, find, is_some, option_map};
ghost use Rattle.nc_base.specs.Fill.{fill_value, prints_fill, is_fill_att, has_one_value_of, own_fill};
ghost use Rattle.nc_base.specs.NumberLaws.{IsInRange};

use crate::header::{Att, Var};
use crate::number::number_of;
use nc_types::NcType;

/// Returns the fill value of a variable, as a number in the range of its type. If the variable's first attribute named `_FillValue` has the
/// variable's type and exactly one value, the result is that value (attribute conventions of the NetCDF User's Guide). Otherwise the result
/// is the default fill value of the type (`NC_FILL_BYTE` and its like in `netcdf.h`).
#[tactic(auto, unfolding(crate::specs::Fill::fill_value))]
pub fn fill_of(var: &Var) -> i128
    ensures fill { result ≡ fill_value var.now }
    ensures in_range { IsInRange var.now.ty result }
{
    match fill_att(var.atts.as_slice()) {
        Some(att) if has_one_value_of(var.ty, att) => number_of(var.ty, att.vals.as_slice()),
        _ => var.ty.default_fill(),
    }
}

/// Returns true if a dump prints a value of the variable that equals its fill value as `_`. It never does so for a character, and for a
/// number of one byte only if the variable's attribute `_FillValue` gives the fill value ([`fill_of`]). For any other number it always does
/// (ncdump(1), on `_FillValue`).
pub fn prints_fill(var: &Var) -> bool
    ensures { result ≡ prints_fill var.now.ty (is_some (own_fill var.now)) }
{
    match var.ty {
        NcType::Char => false,
        NcType::Byte | NcType::Ubyte => has_own_fill(var),
        NcType::Short | NcType::Ushort | NcType::Int | NcType::Uint => true,
        NcType::Int64 | NcType::Uint64 => true,
    }
}

/// Returns true if the variable has a fill value of its own: if its first attribute named `_FillValue` has the variable's type and exactly
/// one value.
fn has_own_fill(var: &Var) -> bool
    ensures { result ≡ is_some (own_fill var.now) }
{
    match fill_att(var.atts.as_slice()) {
        Some(att) => has_one_value_of(var.ty, att),
        None => false,
    }
}

/// Returns the first attribute named `_FillValue`, or `None` if there is none.
fn fill_att(atts: &[Att]) -> Option<&Att>
    ensures { option_map (λ att. att.now) result ≡ find is_fill_att atts.now }
{
    atts.iter().find(|att| is_fill_att(att))
}

/// Returns true if the attribute is named `_FillValue`.
fn is_fill_att(att: &Att) -> bool
    ensures { result ≡ is_fill_att att.now }
{
    att.name.as_slice() == b"_FillValue".as_slice()
}

/// Returns true if the attribute has this type and exactly one value.
fn has_one_value_of(ty: NcType, att: &Att) -> bool
    ensures { result ≡ has_one_value_of ty att.now }
{
    att.ty.code() == ty.code() && att.vals.len() as u64 == ty.size()
}
