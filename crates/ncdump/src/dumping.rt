//! The dump of a file.

ghost use Rattle.std.specs.Prelude.{◌≤◌, length};
ghost use Rattle.std.specs.Bool.{OnTrue};
ghost use Rattle.devices.specs.Uses.{use_of};
ghost use Rattle.ncdump.specs.Calls.{call_of};
ghost use Rattle.ncdump.specs.Dumps.{options_of, Dumps, ReadsForward, WriteFailsOnly};
ghost use Rattle.ncdump.specs.code.Shows.{ReadFailsOnly};

use crate::fault::DumpFault;
use crate::options::DumpOptions;
use crate::selection::select;
use crate::showing::show;
use devices::{Sink, Source};
use nc_file::read_header;
use std::alloc::Global;

/// Reads the file that the source has, and writes its dump to the sink. Reads through `buf`, which has to have at least 16 bytes, as
/// [`read_header`] and [`show`] need.
///
/// The text is that of ncdump(1): the header in CDL, and after `data:` the values of the variables that the options select
/// ([`select`]). Allocates for the header and for the selection, and not for values.
///
/// # Errors
///
/// [`DumpFault::Format`] for the first wrong field of the header, otherwise [`DumpFault::NoSuchVariable`] for the first chosen name
/// that no variable has, each with nothing written. [`DumpFault::DataTruncated`] as in [`show`].
///
/// [`DumpFault::ReadFailed`] only if the source failed, and [`DumpFault::WriteFailed`] only if the sink failed.
/// [`DumpFault::OutOfMemory`] only if an allocation failed, with nothing written.
pub fn dump<S: Source, W: Sink>(
    alloc: Global,
    source: &mut S,
    options: &DumpOptions,
    buf: &mut [u8],
    sink: &mut W,
) -> Result<(), DumpFault>
    requires { 16 ≤ length buf.old }
    ensures source { ReadFailsOnly (S.view source.old) (S.view source.new) result }
    ensures sink { WriteFailsOnly (W.view sink.old) (W.view sink.new) result }
    ensures answer { OnTrue S.is_transparent (Dumps (S.view source.old).bytes
        (options_of options.now) (W.view sink.old) (W.view sink.new) result) }
    ensures forward { OnTrue S.is_transparent (ReadsForward (options_of options.now)
        (call_of buf.old (use_of S.view source.old source.new) (use_of W.view sink.old sink.new))
        result) }
{
    let header = read_header(alloc, source, buf)?;
    let selection = select(alloc, &header, options)?;
    show(source, &header, selection.as_slice(), options, buf, sink)
}
