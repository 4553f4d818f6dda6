//! The records: one after the other a slab of each record variable.

ghost use Rattle.std.specs.Prelude.{◌≡◌, ◌<◌, All, length};
ghost use Rattle.devices.specs.code.SinkWrites.{Wrote};
ghost use Rattle.nc_base.specs.Headers.{IsSound};
ghost use Rattle.nc_walk.specs.code.DataPart.{AreListedOf, whole_records};
ghost use Rattle.nc_walk.specs.code.RecordSlabs.{record_in, record_slabs, records_in};

use super::record_slab::RecordSlab;
use devices::{Sink, WriteFailed};
use nc_base::{Header, ListedArray};

/// Writes all records of the data part, or none if their number is unknown (`STREAMING`). `arrays` has an array for each variable, in
/// header order: its first values, or all of them. The values that it lacks are written as the fill value. The array of a sole record
/// variable is written in one go, since its slabs have no padding. Needs a sound header, and as `slabs` those that
/// [`record_slabs`](crate::record_slabs) returns for it. Needs whole values in each array, and no more than its variable has. Errs if the
/// sink fails.
pub(super) fn put_records<W: Sink>(
    sink: &mut W,
    header: &Header,
    slabs: &[RecordSlab],
    arrays: &[ListedArray],
) -> Result<(), WriteFailed>
    requires sound { IsSound header.now }
    requires slabs { slabs.now ≡ record_slabs 0 header.now.dims header.now.vars }
    requires listed { AreListedOf header.now arrays.now }
    ensures { Wrote W.view sink.old sink.new (whole_records header.now arrays.now) result }
{
    let records = header.numrecs.known();
    match slabs {
        [] => Ok(()),
        [slab] => slab.array_writer(arrays).put_records(sink, records),
        _ => put_padded_records(sink, slabs, arrays, records),
    }
}

/// Writes `records` records, one after the other: in each a slab of every record variable, with its padding. It isn't called for a sole
/// record variable, whose slabs have no padding. `arrays` has the listed values of all variables, in header order, and fill values stand
/// for those that an array lacks. Needs an array at the index of each slab's variable. Errs if the sink fails.
fn put_padded_records<W: Sink>(
    sink: &mut W,
    slabs: &[RecordSlab],
    arrays: &[ListedArray],
    records: u64,
) -> Result<(), WriteFailed>
    requires { All (λ slab. slab.var_index < length arrays.now) slabs.now }
    ensures { Wrote W.view sink.old sink.new (records_in slabs.now arrays.now records) result }
{
    for r in 0..records {
        put_record(sink, slabs, arrays, r)?;
    }
    Ok(())
}

/// Writes record `r`, counted from 0: a slab of each record variable, with its padding. `arrays` has the listed values of all variables, in
/// header order, and fill values stand for those that an array lacks. Needs an array at the index of each slab's variable. Errs if the sink
/// fails.
fn put_record<W: Sink>(
    sink: &mut W,
    slabs: &[RecordSlab],
    arrays: &[ListedArray],
    r: u64,
) -> Result<(), WriteFailed>
    requires { All (λ slab. slab.var_index < length arrays.now) slabs.now }
    ensures { Wrote W.view sink.old sink.new (record_in slabs.now arrays.now r) result }
{
    for slab in slabs {
        slab.array_writer(arrays).put_record(sink, r)?;
    }
    Ok(())
}
