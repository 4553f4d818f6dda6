//! How long a slab is, and what fills it up.

ghost use Rattle.std.specs.Prelude.{◌≡◌, ◌≤◌};
ghost use Rattle.nc_base.specs.Sizes.{slab_limit, slab_size};
ghost use Rattle.nc_walk.specs.code.Filled.{slab_fill};

use super::fills::fill_unit;
use nc_base::{Dim, Var, slab_len};

/// How many bytes each slab of a variable has, and the fill value that stands for values that it lacks.
#[derive(Clone, Copy, Debug)]
pub(super) struct SlabFill {
    /// The number of bytes of a slab, without padding.
    pub(super) len: u64,
    /// Eight bytes of the variable's fill value: the value as often as it fits.
    pub(super) fill_unit: [u8; 8],
}

impl SlabFill {
    /// Returns those of a variable. `dims` has the dimensions of the header. Needs a slab of at most 2^48 bytes.
    pub(super) fn of(dims: &[Dim], var: &Var) -> SlabFill
        requires { slab_size dims.now var.now ≤ slab_limit }
        ensures { result ≡ slab_fill dims.now var.now }
    {
        SlabFill {
            len: slab_len(dims, var.dimids.as_slice(), var.ty).unwrap(),
            fill_unit: fill_unit(var),
        }
    }
}
