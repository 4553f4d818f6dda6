//! The bytes that a variable's slab takes in a file.

ghost use Rattle.std.specs.Prelude.{◌≡◌, ◌<◌, ◌≤◌, ◌^◌};
ghost use Rattle.nc_base.specs.Sizes.{padded_size, slab_limit, slab_size};

use nc_base::{Dim, Var, padding_len, slab_len};

/// Returns the number of bytes of a variable's slab, rounded up to a multiple of four. Needs a slab of at most 2^48 bytes. The slab of a
/// record variable is all that it has in one record, and the slab of any other variable is all that it has.
pub(crate) fn padded_slab_len(dims: &[Dim], var: &Var) -> u64
    requires { slab_size dims.now var.now ≤ slab_limit }
    ensures size { result ≡ padded_size dims.now var.now }
    ensures small { result < 2 ^ 49 }
{
    let slab = slab_len(dims, var.dimids.as_slice(), var.ty).unwrap();
    slab + padding_len(slab as u128)
}
