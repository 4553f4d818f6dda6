//! The slabs of a record, found once before the records are written.

ghost use Rattle.std.specs.Prelude.{◌≡◌, ◌<◌, IfOk, length};
ghost use Rattle.nc_base.specs.Headers.{IsSound};
ghost use Rattle.nc_walk.specs.code.RecordSlabs.{array_of, record_slabs};

use super::slab_fill::SlabFill;
use super::slab_writer::SlabWriter;
use nc_base::{Header, ListedArray, Sequence, is_record_var};
use std::alloc::{AllocError, Global};

/// The slab that a record variable has in each record: of which variable, how long, and with which fill value.
#[derive(Clone, Copy, Debug)]
pub struct RecordSlab {
    /// The index of the variable.
    var_index: usize,
    /// Its length, and what fills it up.
    slab: SlabFill,
}

/// Returns the slabs of a record, one for each record variable, in header order. Needs a sound header (`nc_base::Header::sound`).
///
/// With them [`write_data`](crate::write_data) writes a record without a look at the other variables. They take memory in
/// proportion to the number of record variables.
///
/// # Errors
///
/// An allocation failed.
pub fn record_slabs(alloc: Global, header: &Header) -> Result<Sequence<RecordSlab>, AllocError>
    requires sound { IsSound header.now }
    ensures { IfOk result (λ slabs. slabs ≡ record_slabs 0 header.now.dims header.now.vars) }
{
    let dims = header.dims.as_slice();
    let vars = header.vars.as_slice();
    let mut slabs = Sequence::new(alloc);
    for v in 0..vars.len() {
        if is_record_var(dims, &vars[v]) {
            let slab = SlabFill::of(dims, &vars[v]);
            slabs.push(RecordSlab { var_index: v, slab })?;
        }
    }
    Ok(slabs)
}

impl RecordSlab {
    /// Returns a writer of the array of the slab's variable. `arrays` has the listed values of all variables, in header order. Needs an
    /// array at the variable's index.
    pub(super) fn array_writer<'a>(&self, arrays: &'a [ListedArray]) -> SlabWriter<'a>
        requires { self.now.var_index < length arrays.now }
        ensures { result ≡ array_of arrays.now self.now }
    {
        SlabWriter {
            listed: &arrays[self.var_index],
            slab: self.slab,
        }
    }
}
