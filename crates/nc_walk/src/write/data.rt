//! The data part of a file.

ghost use Rattle.std.specs.Prelude.{◌≡◌};
ghost use Rattle.devices.specs.code.SinkWrites.{Wrote};
ghost use Rattle.nc_base.specs.Headers.{IsSound};
ghost use Rattle.nc_walk.specs.code.DataPart.{AreListedOf, whole_data};
ghost use Rattle.nc_walk.specs.code.RecordSlabs.{record_slabs};

use super::blocks::put_blocks;
use super::record_slab::RecordSlab;
use super::records::put_records;
use devices::{Sink, WriteFailed};
use nc_base::{Header, ListedArray};

/// Writes the data part of a file: the blocks of the variables that aren't record variables, in header order, and after them one record
/// after the other (`data` of the NetCDF Classic Format Specification). Needs a sound header (`nc_base::Header::sound`), and as `slabs`
/// those that [`record_slabs`](crate::record_slabs) returns for it.
///
/// `arrays` has an array for each variable, in header order: its first values, or all of them. Needs whole values in each, and no more than
/// the variable has. The values that it lacks are written as the fill value of the variable, and so is padding. Does not allocate: listed
/// values are written straight from the arrays, a slab of numbers at once, and rows of characters one by one, each filled up.
///
/// # Errors
///
/// The sink failed. It took some prefix of the data part.
pub fn write_data<W: Sink>(
    sink: &mut W,
    header: &Header,
    slabs: &[RecordSlab],
    arrays: &[ListedArray],
) -> Result<(), WriteFailed>
    requires sound { IsSound header.now }
    requires slabs { slabs.now ≡ record_slabs 0 header.now.dims header.now.vars }
    requires listed { AreListedOf header.now arrays.now }
    ensures { Wrote W.view sink.old sink.new (whole_data header.now arrays.now) result }
{
    put_blocks(sink, header, arrays)?;
    put_records(sink, header, slabs, arrays)
}
