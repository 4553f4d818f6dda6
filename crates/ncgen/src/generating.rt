//! The file of a text.

ghost use Rattle.ncgen.specs.Generated.{generated};
ghost use Rattle.ncgen.specs.Generates.{Generates};
ghost use Rattle.ncgen.specs.code.Prepared.{Prepares};

use crate::fault::GenFault;
use crate::prepared::Prepared;
use cdl_parse::{Declared, declared};
use devices::Sink;
use nc_base::Version;
use nc_file::with_begins;
use nc_walk::record_slabs;
use std::alloc::Global;

/// Reads a CDL text, and returns the netCDF classic file of the dataset that the text declares, in the version `version` of the format,
/// ready to be written (ncgen(1)).
///
/// Allocates for what the text declares and for the values that it lists, not for the file.
///
/// # Errors
///
/// [`GenFault::Cdl`] with the first fault of the text. If the text has no fault, [`GenFault::OffsetTooLarge`] if a variable's values
/// would begin at an offset that is too large for the version. As soon as an allocation fails, [`GenFault::Cdl`] with the kind
/// `OutOfMemory`.
pub fn prepare(alloc: Global, text: &[u8], version: Version) -> Result<Prepared, GenFault>
    ensures { Prepares (generated text.now version) result }
{
    let Declared { header, listed } = declared(alloc, text, version)?;
    let header = with_begins(header)?;
    let slabs = record_slabs(alloc, &header)?;
    Ok(Prepared {
        header,
        listed,
        slabs,
    })
}

/// Reads a CDL text, and writes to the sink the file of the dataset that the text declares, in the version `version` of the format
/// (ncgen(1)).
///
/// Allocates for what the text declares and for the values that it lists, not for the file.
///
/// For callers of the library: the program itself calls [`prepare`] and [`Prepared::write`], and creates its output in between.
///
/// # Errors
///
/// Those of [`prepare`], with nothing written. [`GenFault::WriteFailed`] if the sink failed; it took some prefix of the file.
pub fn generate<W: Sink>(
    alloc: Global,
    text: &[u8],
    version: Version,
    sink: &mut W,
) -> Result<(), GenFault>
    ensures { Generates (generated text.now version) (W.view sink.old) (W.view sink.new) result }
{
    let prepared = prepare(alloc, text, version)?;
    prepared.write(sink)?;
    Ok(())
}
