//! The weight of a header: a measure of how much it holds.

ghost use Rattle.std.specs.Prelude.{◌≡◌, ◌+◌, min};
ghost use Rattle.std.specs.List.{sum_by};
ghost use Rattle.nc_base.specs.code.Weight.{dim_weight, att_weight, var_weight, weight_of};

use crate::header::{Att, Dim, Header, Var};

/// Returns the weight of a header: the bytes of all names and attribute values, plus one for each dimension id, each dimension,
/// each attribute (of the file and of its variables) and each variable. Returns `u128::MAX` if the weight is greater. Reading,
/// keeping and writing a header takes time and memory in proportion to its weight.
///
/// For callers of the library, such as those that bound what they keep: the programs themselves never ask for it.
pub fn weight(header: &Header) -> u128
    ensures { result ≡ min (weight_of header.now) u128.MAX }
{
    dims_weight(header.dims.as_slice())
        .saturating_add(atts_weight(header.gatts.as_slice()))
        .saturating_add(vars_weight(header.vars.as_slice()))
}

/// Returns the sum of the weights of these dimensions (for each, the bytes of its name plus 1), or `u128::MAX` if the sum is greater.
fn dims_weight(dims: &[Dim]) -> u128
    ensures { result ≡ min (sum_by dim_weight dims.now) u128.MAX }
{
    let mut total: u128 = 0;
    for dim in dims {
        total = total.saturating_add(dim_weight(dim));
    }
    total
}

/// Returns the sum of the weights of these attributes (for each, the bytes of its name and its values plus 1), or `u128::MAX` if the sum is
/// greater.
fn atts_weight(atts: &[Att]) -> u128
    ensures { result ≡ min (sum_by att_weight atts.now) u128.MAX }
{
    let mut total: u128 = 0;
    for att in atts {
        total = total.saturating_add(att_weight(att));
    }
    total
}

/// Returns the sum of the weights of these variables (how much each of them holds: [`var_weight`]), or `u128::MAX` if the sum is greater.
fn vars_weight(vars: &[Var]) -> u128
    ensures { result ≡ min (sum_by var_weight vars.now) u128.MAX }
{
    let mut total: u128 = 0;
    for var in vars {
        total = total.saturating_add(var_weight(var));
    }
    total
}

/// Returns the weight of a dimension: 1, plus the number of bytes of its name.
fn dim_weight(dim: &Dim) -> u128
    ensures { result ≡ dim_weight dim.now }
{
    dim.name.len() as u128 + 1
}

/// Returns the weight of an attribute: 1, plus the number of bytes of its name and of its values.
fn att_weight(att: &Att) -> u128
    ensures { result ≡ att_weight att.now }
{
    att.name.len() as u128 + att.vals.len() as u128 + 1
}

/// Returns the weight of a variable: 1, plus the number of bytes of its name, the number of its dimension ids, and the weights
/// of its attributes. Returns `u128::MAX` if the weight is greater.
fn var_weight(var: &Var) -> u128
    ensures { result ≡ min (var_weight var.now) u128.MAX }
{
    let own = var.name.len() as u128 + var.dimids.len() as u128 + 1;
    own.saturating_add(atts_weight(var.atts.as_slice()))
}
