//! The text of a dump, written while the values are read.

ghost use Rattle.std.specs.Prelude.{◌≡◌, ◌≤◌, ◌<◌, length};
ghost use Rattle.std.specs.Bool.{OnTrue};
ghost use Rattle.nc_base.specs.Headers.{IsSound};
ghost use Rattle.nc_base.specs.Sizes.{record_size};
ghost use Rattle.nc_base.specs.Dump.{data_word};
ghost use Rattle.devices.specs.Uses.{use_of};
ghost use Rattle.ncdump.specs.Calls.{call_of};
ghost use Rattle.ncdump.specs.Dumps.{options_of};
ghost use Rattle.ncdump.specs.code.Shows.{dumped, ReadFailsOnly, SaysHasSlabs, SaysIsShown, ShowsAt, ShowsFile, ShowsOrFails, ShowsSelected, unless_head_only};

use crate::fault::DumpFault;
use crate::options::DumpOptions;
use cdl_print::{TextBuffer, ValuePrinter, put_head};
use devices::{Sink, Source, put};
use nc_base::{Header, RecordLayout, is_record_var, record_layout};
use nc_walk::{Walk, WalkFault};

/// What the text of values depends on besides the bytes of the file.
#[derive(Clone, Copy)]
struct DumpedFile<'a> {
    header: &'a Header,
    /// The number of records and the record size.
    layout: RecordLayout,
    /// The number of bytes at which lines of numbers are broken.
    width: usize,
}

/// Writes the dump of the file that the source has: the head for `header` (the text before `data:`), and after `data:` the values of each
/// variable whose item of `selection` is true. If the options ask for the header alone, no values are shown. Of the other options only the
/// name and the width count here. Needs a sound header, such as `read_header` returns, an item of `selection` for each variable, and a
/// `buf` of at least 16 bytes, through which the values are read.
///
/// Does not allocate. What stands before a variable's values is written before the first of them is read. Reading is at most one
/// buffer ahead of writing.
///
/// # Errors
///
/// [`DumpFault::WriteFailed`] if the sink failed, [`DumpFault::ReadFailed`] if the source failed, and [`DumpFault::DataTruncated`] at
/// the first value of a shown variable that isn't in the file. What was written by then is a prefix of the text.
pub fn show<S: Source, W: Sink>(
    source: &mut S,
    header: &Header,
    selection: &[bool],
    options: &DumpOptions,
    buf: &mut [u8],
    sink: &mut W,
) -> Result<(), DumpFault>
    requires sound { IsSound header.now }
    requires selection { length selection.now ≡ length header.now.vars }
    requires buffer_len { 16 ≤ length buf.old }
    ensures source { ReadFailsOnly (S.view source.old) (S.view source.new) result }
    ensures sink { ShowsOrFails (W.view sink.old) (W.view sink.new) result }
    ensures shows { OnTrue S.is_transparent (ShowsFile (options_of options.now) header.now selection.now
        (call_of buf.old (use_of S.view source.old source.new) (use_of W.view sink.old sink.new))
        result) }
{
    let layout = record_layout(header, source.len());
    put_head(sink, options.name.as_slice(), header, layout.records)?;
    put(sink, data_word(options, header))?;
    let shown = unless_head_only(options, selection);
    let file = DumpedFile {
        header,
        layout,
        width: options.width,
    };
    show_selected(source, &file, shown, buf, sink)?;
    put(sink, b"}\n")?;
    Ok(())
}

/// Returns `selection`, or an empty slice if the options ask for the header alone.
fn unless_head_only<'a>(options: &DumpOptions, selection: &'a [bool]) -> &'a [bool]
    ensures { result.now ≡ unless_head_only (options_of options.now) selection.now }
{
    if options.head_only { &[] } else { selection }
}

/// Returns what stands before the values: `data:` and a line feed, or nothing if the options ask for the header alone or there are
/// no variables.
#[tactic(auto, unfolding(nc_base::specs::Dump::data_word))]
fn data_word(options: &DumpOptions, header: &Header) -> &'static [u8]
    ensures { result.now ≡ data_word header.now (options_of options.now) }
{
    if options.head_only || header.vars.is_empty() {
        b""
    } else {
        b"data:\n"
    }
}

/// Writes the values, if any, of each variable whose item of `selection` is true; a variable without an item isn't written. Reads them
/// through `buf`. Needs a sound header with this record size, no more items than variables, and a `buf` of at least 16 bytes. Errs with
/// `ReadFailed` or `WriteFailed` if the source or the sink failed, and with `DataTruncated` at the first of these values that isn't in the
/// file.
fn show_selected<S: Source, W: Sink>(
    source: &mut S,
    file: &DumpedFile<'_>,
    selection: &[bool],
    buf: &mut [u8],
    sink: &mut W,
) -> Result<(), DumpFault>
    requires sound { IsSound file.now.header.now }
    requires selection { length selection.now ≤ length file.now.header.now.vars }
    requires record_size { file.now.layout.record_size ≡ record_size file.now.header.now }
    requires buffer_len { 16 ≤ length buf.old }
    ensures source { ReadFailsOnly (S.view source.old) (S.view source.new) result }
    ensures sink { ShowsOrFails (W.view sink.old) (W.view sink.new) result }
    ensures shows { OnTrue S.is_transparent (ShowsSelected
        (dumped file.now.header.now (S.view source.old) file.now.layout.records file.now.width) selection.now
        (call_of buf.old (use_of S.view source.old source.new) (use_of W.view sink.old sink.new))
        result) }
{
    let mut text: TextBuffer = [0; 4096];
    for v in 0..selection.len() {
        if !is_shown(file.header, v, file.layout.records, selection[v]) {
            continue;
        }
        show_variable(source, file, v, buf, &mut text, sink)?;
    }
    Ok(())
}

/// Returns true if `is_selected`, and the variable at index `v` has a value in a file of `records` records. Needs a sound header with this
/// variable: only the first dimension of a shape may have length 0 then, so it is enough to look for a slab ([`has_slabs`]).
fn is_shown(header: &Header, v: usize, records: u64, is_selected: bool) -> bool
    requires sound { IsSound header.now }
    requires there { v < length header.now.vars }
    ensures { SaysIsShown header.now v records is_selected result }
{
    is_selected && has_slabs(header, v, records)
}

/// Returns true if the variable at index `v` has a slab (its values in one record, or all values if it isn't a record variable) in a file
/// of `records` records. Only a record variable over 0 records has none. Needs a header with this variable.
fn has_slabs(header: &Header, v: usize, records: u64) -> bool
    requires { v < length header.now.vars }
    ensures { SaysHasSlabs header.now v records result }
{
    records > 0 || !is_record_var(header.dims.as_slice(), &header.vars.as_slice()[v])
}

/// Writes the variable at index `v`: what stands before its values, the values as they are read through `buf`, and what stands after them.
/// Gathers numbers in `text`, which may hold anything. Needs a sound header with this variable and record size, and a `buf` of at least 16
/// bytes. Errs with `ReadFailed` or `WriteFailed` if the source or the sink failed, and with `DataTruncated` at the first value that isn't
/// in the file.
fn show_variable<S: Source, W: Sink>(
    source: &mut S,
    file: &DumpedFile<'_>,
    v: usize,
    buf: &mut [u8],
    text: &mut TextBuffer,
    sink: &mut W,
) -> Result<(), DumpFault>
    requires sound { IsSound file.now.header.now }
    requires there { v < length file.now.header.now.vars }
    requires record_size { file.now.layout.record_size ≡ record_size file.now.header.now }
    requires buffer_len { 16 ≤ length buf.old }
    ensures source { ReadFailsOnly (S.view source.old) (S.view source.new) result }
    ensures sink { ShowsOrFails (W.view sink.old) (W.view sink.new) result }
    ensures shows { OnTrue S.is_transparent (ShowsAt
        (dumped file.now.header.now (S.view source.old) file.now.layout.records file.now.width) v
        (call_of buf.old (use_of S.view source.old source.new) (use_of W.view sink.old sink.new))
        result) }
{
    let mut walk = Walk::with_layout(file.header, v, file.layout, buf);
    let mut printer = ValuePrinter::new(file.header, v, file.layout.records, file.width);
    printer.start(sink)?;
    loop {
        match walk.next(source) {
            Ok(Some(chunk)) => printer.values(sink, text, chunk)?,
            Ok(None) => break,
            Err(WalkFault::ReadFailed) => return Err(DumpFault::ReadFailed),
            Err(WalkFault::DataTruncated(value)) => {
                return Err(DumpFault::DataTruncated { var: v, value });
            }
        }
    }
    printer.finish(sink)?;
    Ok(())
}
