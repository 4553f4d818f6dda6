//! A file that stands ready to be written.

ghost use Rattle.ncgen.specs.code.Prepared.{IsReady, file_of_prepared};
ghost use Rattle.devices.specs.code.SinkWrites.{Wrote};

use devices::{Sink, WriteFailed};
use nc_base::{Header, ListedArray, Sequence};
use nc_file::write_header;
use nc_walk::{RecordSlab, write_data};

/// A file that stands ready to be written: its header, and the values that a text lists.
///
/// The values that the text doesn't list are written as fill values, and needn't be held in memory.
#[derive(Drop)]
pub struct Prepared {
    /// The header, with the begin of each variable.
    pub(crate) header: Header,
    /// For each variable the listed values, big-endian and one after the other.
    pub(crate) listed: Sequence<ListedArray>,
    /// The slab that each record variable has in a record.
    pub(crate) slabs: Sequence<RecordSlab>,
}

impl Prepared {
    /// Writes the file: the header, and after it the values, filled up with fill values (the NetCDF Classic Format Specification). It does
    /// not allocate. Needs a `Prepared` that is ready, such as [`prepare`](crate::prepare) returns.
    ///
    /// # Errors
    ///
    /// The sink failed. It took some prefix of the file.
    #[tactic(auto, using(devices::proofs::Writes::writes), unfolding(crate::specs::code::Prepared::file_of_prepared))]
    pub fn write<W: Sink>(&self, sink: &mut W) -> Result<(), WriteFailed>
        requires { IsReady self.now }
        ensures { Wrote W.view sink.old sink.new (file_of_prepared self.now) result }
    {
        write_header(sink, &self.header)?;
        write_data(
            sink,
            &self.header,
            self.slabs.as_slice(),
            self.listed.as_slice(),
        )
    }
}
