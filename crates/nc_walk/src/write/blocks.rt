//! The blocks of the variables that aren't record variables.

ghost use Rattle.std.specs.Prelude.{◌≡◌, ◌≤◌, length};
ghost use Rattle.devices.specs.code.SinkWrites.{Wrote};
ghost use Rattle.nc_base.specs.Headers.{IsSound};
ghost use Rattle.nc_base.specs.Sizes.{slab_limit, slab_size};
ghost use Rattle.nc_walk.specs.code.Filled.{block_of, blocks_of};

use super::slab_fill::SlabFill;
use super::slab_writer::SlabWriter;
use devices::{Sink, WriteFailed};
use nc_base::{Dim, Header, ListedArray, Var, is_record_var};

/// Writes the block (all values) of each variable that isn't a record variable, followed by its padding. `arrays` has the listed values of
/// each variable, in header order. The values that an array lacks at its end are written as the fill value of its variable. Needs a sound
/// header, and as many arrays as variables. Errs if the sink fails.
pub(super) fn put_blocks<W: Sink>(
    sink: &mut W,
    header: &Header,
    arrays: &[ListedArray],
) -> Result<(), WriteFailed>
    requires sound { IsSound header.now }
    requires one_each { length arrays.now ≡ length header.now.vars }
    ensures { Wrote W.view sink.old sink.new (blocks_of header.now arrays.now) result }
{
    let dims = header.dims.as_slice();
    let vars = header.vars.as_slice();
    for v in 0..vars.len() {
        put_block(sink, dims, &vars[v], &arrays[v])?;
    }
    Ok(())
}

/// Writes the block (all values) of a variable with its padding, or nothing if it is a record variable. `listed` has the variable's listed
/// values. The values that it lacks at its end are written as the fill value. Needs a slab of at most 2^48 bytes. Errs if the sink fails.
fn put_block<W: Sink>(
    sink: &mut W,
    dims: &[Dim],
    var: &Var,
    listed: &ListedArray,
) -> Result<(), WriteFailed>
    requires { slab_size dims.now var.now ≤ slab_limit }
    ensures { Wrote W.view sink.old sink.new (block_of dims.now var.now listed.now) result }
{
    if is_record_var(dims, var) {
        return Ok(());
    }
    let slab = SlabFill::of(dims, var);
    SlabWriter { listed, slab }.put_block(sink)
}
