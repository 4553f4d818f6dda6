//! Headers, values, and devices.

ghost use Rattle.std.specs.Prelude.{◌≡◌, ◌<◌, ◌≤◌, length};
ghost use Rattle.nc_base.specs.Headers.{IsSound};

use anyhow::Result;
use cdl_print::{ValuePrinter, put_head};
use devices::{FileSource, Flush, IoSink, Sink, Source, WriteFailed, put, put_decimal};
use nc_base::{Dim, Header, NumRecs, Sequence, Version, record_layout};
use nc_file::{read_header, with_begins, write_header};
use nc_walk::{Walk, WalkFault};
use std::alloc::{AllocError, Global};
use std::fs::File;
use std::io;
use std::io::BufWriter;
use std::rt::Files;

/// The example of `nc_base`. Returns true if a header with one dimension and nothing else keeps the format's limits. Errs only if an
/// allocation failed.
pub fn header_of_one_dimension(alloc: Global) -> Result<bool, AllocError> {
    let mut name = Sequence::new(alloc);
    name.push(b'x')?;
    let mut dims = Sequence::new(alloc);
    dims.push(Dim { name, len: 3 })?;
    let header = Header {
        version: Version::Cdf1,
        numrecs: NumRecs::Known(0),
        dims,
        gatts: Sequence::new(alloc),
        vars: Sequence::new(alloc),
    };
    let keeps_limits = header.sound();
    Ok(keeps_limits)
}

/// The example of `devices`. Prints how long the file `a.nc` is, such as `a.nc has 80 bytes`. Errs if it can't be opened, if an allocation
/// fails, or if standard output fails.
pub fn print_length<R: Files<File = File> + Print + AllocGlobal>(rt: &R) -> Result<()> {
    let source = FileSource::open(rt, "a.nc")?;
    let mut out = IoSink::new(BufWriter::new(rt.alloc(), io::writer(rt))?);
    put(&mut out, b"a.nc has ")?;
    put_decimal(&mut out, source.len() as u128)?;
    put(&mut out, b" bytes\n")?;
    out.flush()?;
    Ok(())
}

/// The example of `nc_file`. Reads the header of the source, gives each variable a new begin, and writes the header to the sink. Errs if
/// the header has a wrong field, if a begin doesn't fit its field, or if the source, the sink or an allocation fails.
pub fn copy_header<S: Source, W: Sink>(alloc: Global, source: &mut S, sink: &mut W) -> Result<()> {
    let mut buf = [0; 4096];
    let header = read_header(alloc, source, &mut buf)?;
    let placed = with_begins(header)?;
    write_header(sink, &placed)?;
    Ok(())
}

/// The example of `nc_walk`. Returns the number of bytes of the longest chunk in which the values of the variable at `var_index` come, or 0
/// if it has none. Needs a sound header, and a variable at this index. Errs if the source fails, or if a value isn't whole in it.
pub fn longest_chunk<S: Source>(
    source: &mut S,
    header: &Header,
    var_index: usize,
) -> Result<usize, WalkFault>
    requires sound { IsSound header.now }
    requires there { var_index < length header.now.vars }
{
    let mut buf = [0; 4096];
    let layout = record_layout(header, source.len());
    let mut walk = Walk::with_layout(header, var_index, layout, &mut buf);
    let mut longest = 0;
    while let Some(chunk) = walk.next(source)? {
        // whole values, big-endian, one after the other
        longest = longest.max(chunk.len());
    }
    Ok(longest)
}

/// The example of `cdl_print`. Writes the head of a dump with the name `a` over `records` records, and the text of the variable at
/// `var_index` with these values, which are big-endian, at a width of 80. Leaves the values out if they aren't whole, or more than the
/// variable has. Needs a sound header, and a variable at this index. Errs if the sink fails.
pub fn print_variable<W: Sink>(
    sink: &mut W,
    header: &Header,
    records: u64,
    var_index: usize,
    values: &[u8],
) -> Result<(), WriteFailed>
    requires sound { IsSound header.now }
    requires there { var_index < length header.now.vars }
{
    put_head(sink, b"a", header, records)?;
    let mut printer = ValuePrinter::new(header, var_index, records, 80);
    let mut text = [0; 4096];
    printer.start(sink)?;
    if printer.takes(values) {
        printer.values(sink, &mut text, values)?;
    }
    printer.finish(sink)?;
    Ok(())
}
