//! Rules on single fields: which dimension ids may stand in a shape, which types a version has, and how large records may get.

ghost use Rattle.std.specs.Prelude.{IfSome, ◌≡◌, ◌+◌, ◌≤◌, if◌then◌else◌};
ghost use Rattle.nc_types.specs.Bytes.{padding_len};
ghost use Rattle.nc_base.specs.Grammar.{is_dimid, record_bytes, type_in};
ghost use Rattle.nc_base.specs.Sizes.{is_record_shape, slab_limit};
ghost use Rattle.nc_window.specs.code.SizedVars.{total_with};

use nc_base::{
    Dim, FormatFault, NcType, RECORD_LIMIT, Version, is_record_dim, is_record_shape, padding_len,
    slab_len,
};

/// The code of the type float (NetCDF Classic Format Specification, "Format in Detail").
const NC_FLOAT: u32 = 5;

/// The code of the type double.
const NC_DOUBLE: u32 = 6;

/// Returns the version's type with this code. Errs with `FloatingType` if the code is that of `float` (5) or `double` (6), and with
/// `BadType` if the version has no type with this code.
pub fn type_in(version: Version, code: u32) -> Result<NcType, FormatFault>
    ensures { result ≡ type_in version code }
{
    if code == NC_FLOAT || code == NC_DOUBLE {
        return Err(FormatFault::FloatingType);
    }
    match NcType::of_code(code) {
        Some(ty) if version.has_type(ty) => Ok(ty),
        _ => Err(FormatFault::BadType),
    }
}

/// Returns true if `id` may stand in a shape: a dimension of `dims` has this id, and if it is the record dimension, `id` is the shape's
/// first (`first`).
pub fn is_dimid(dims: &[Dim], first: bool, id: u64) -> bool
    ensures { result ≡ is_dimid dims.now first id }
{
    id < dims.len() as u64 && (first || !is_record_dim(dims, id))
}

/// Returns the bytes of the padded slabs of the record variables up to one of this shape and type: `total`, those before it, plus its own
/// if it is a record variable. Returns `None` if its slab passes 2^48 bytes, or if the sum passes 2^62 bytes.
#[tactic(auto, unfolding(crate::specs::code::SizedVars::total_with))]
pub fn total_with(dims: &[Dim], dimids: &[u64], ty: NcType, total: u64) -> Option<u64>
    ensures value { result ≡ total_with dims.now dimids.now ty total }
    ensures counted { IfSome result (λ sum. sum ≡ total + record_bytes dims.now dimids.now ty) }
{
    let slab = slab_len(dims, dimids, ty)?;
    let sum = total as u128 + record_bytes(dims, dimids, slab) as u128;
    if sum <= RECORD_LIMIT {
        Some(sum as u64)
    } else {
        None
    }
}

/// Returns how many bytes a slab of `slab` bytes adds to the padded slabs of the record variables: its own, up to a multiple of four, if
/// the first of `dimids` is the record dimension, otherwise 0. Needs a slab of at most 2^48 bytes.
fn record_bytes(dims: &[Dim], dimids: &[u64], slab: u64) -> u64
    requires { slab ≤ slab_limit }
    ensures { result ≡ (if is_record_shape dims.now dimids.now then slab + padding_len slab else 0) }
{
    if is_record_shape(dims, dimids) {
        slab + padding_len(slab as u128)
    } else {
        0
    }
}
