//! Data parts, written from arrays that are whole, and from arrays that lack values at their end.

ghost use Rattle.std.specs.Prelude.{◌<◌, IsTrue, length};
ghost use Rattle.nc_base.specs.Headers.{IsSound};
ghost use Rattle.nc_walk.specs.code.DataPart.{AreListedOf};
ghost use Rattle.test_layers.specs.code.DataParts.{IsListedAt};

use devices::{MemSource, SliceSink};
use nc_base::{Header, ListedArray, value_count};
use nc_file::read_header;
use nc_walk::{record_slabs, write_data};
use std::alloc::{AllocError, Global};
use std::process::Abort;
use test_files::{ONE_VARIABLE, cells_of, file_of, hex_bytes, patched};

/// Returns true if these bytes are the first values of a variable, or all of them.
fn is_listed(header: &Header, v: usize, listed: &ListedArray) -> bool
    requires sound { IsSound header.now }
    requires there { v < length header.now.vars }
    ensures { IsTrue result → IsListedAt header.now v listed.now }
{
    let size = header.vars.as_slice()[v].ty.size() as u128;
    let len = listed.len();
    if len % size != 0 {
        return false;
    }
    if len / size > value_count(header, v, header.numrecs.known()) {
        return false;
    }
    true
}

/// Returns true if there is one list of bytes for each variable.
fn are_listed(header: &Header, arrays: &[ListedArray]) -> bool
    requires { IsSound header.now }
    ensures { IsTrue result → AreListedOf header.now arrays.now }
{
    let vars = header.vars.as_slice();
    if arrays.len() != vars.len() {
        return false;
    }
    for v in 0..vars.len() {
        if !is_listed(header, v, &arrays[v]) {
            return false;
        }
    }
    true
}

/// An array of what is listed of a variable: rows with a comma between two. A row has bytes, and after `+` how many of them it lacks, if it
/// ends there. These are filled up with dots.
fn array_of(alloc: Global, rows: &str) -> Result<ListedArray, AllocError> {
    let mut array = ListedArray::new(alloc);
    for row in rows.split(',') {
        let (digits, lacking) = row.split_once('+').unwrap_or((row, ""));
        let listed = hex_bytes(alloc, digits)?;
        array.add(listed.as_slice())?;
        if let Ok(lacking) = lacking.parse() {
            array.end_row(lacking, b'.')?;
        }
    }
    Ok(array)
}

/// The arrays of some variables, with a semicolon between two.
fn arrays_of(alloc: Global, listed: &str) -> Result<Vec<ListedArray>, AllocError> {
    let mut arrays = Vec::new(alloc);
    for rows in listed.split(';') {
        arrays.push(array_of(alloc, rows)?)?;
    }
    Ok(arrays)
}

/// Writes the data part of these arrays under a header to a sink that takes up to `room` bytes, 3 at a time. Returns true if the arrays
/// suit the header, and the sink has taken what fits of these bytes.
fn is_written(
    alloc: Global,
    header: &Header,
    arrays: &[ListedArray],
    (data, room): (&[u8], usize),
) -> Result<bool, AllocError> {
    if !header.sound() || !are_listed(header, arrays) || room > data.len() {
        return Ok(false);
    }
    let slabs = record_slabs(alloc, header)?;
    let mut into = Vec::from_elem(alloc, 0, room)?;
    let mut sink = SliceSink::new(into.as_mut_slice(), 3);
    let is_whole = write_data(&mut sink, header, slabs.as_slice(), arrays).is_ok();
    Ok(is_whole == (room == data.len()) && sink.taken() == &data[..room])
}

/// Returns true if the data part of these arrays under the header of a file is so, as far as `room` bytes go.
fn is_part(
    alloc: Global,
    file: &[u8],
    arrays: &[ListedArray],
    part: (&[u8], usize),
) -> Result<bool, AllocError> {
    match read_header(alloc, &mut MemSource::new(file), &mut [0; 16]) {
        Ok(header) => is_written(alloc, &header, arrays, part),
        Err(_) => Ok(false),
    }
}

/// Data parts. A row has the name of a file with the header of a part, what is listed of each variable, and the bytes of the part.
const PARTS: &str = r"
# values that are all listed
ONE_VARIABLE|0001 8001 0003|0001 8001 0003 8001
RECORD_BYTES|01 02 03|01 02 03
NO_RECORDS||
PADDED_RECORDS|01 02 03;0004 0005 0006|01 818181 0004 8001 02 818181 0005 8001 03 818181 0006 8001
# blocks before records
THREE_VARIABLES|0000000a 00000014;00000001 00000002 00000003 00000004 00000005 00000006 00000007 00000008;00000007|00000007 0000000a 00000001 00000002 00000003 00000004 00000014 00000005 00000006 00000007 00000008
# values that lack at the end of a variable
ONE_VARIABLE|0001|0001 8001 8001 8001
RECORD_BYTES|01|01 81 81
PADDED_RECORDS|01;0004 0005|01 818181 0004 8001 81 818181 0005 8001 81 818181 8001 8001
RECORDS_OFF_BOUNDARY|0001 0002 0003 0004|0001 0002 0003 0004 8001 8001 8001 8001 8001
UNSIGNED_FILLS|;|ffffffff fffffffffffffffe
# rows that lack bytes
MANY_HELD_NULS|6162+8,+10|6162 2e2e2e2e2e2e2e2e 2e2e2e2e2e2e2e2e2e2e
MANY_HELD_NULS|61+4,6263646566+0,67+4|61 2e2e2e2e 6263646566 67 2e2e2e2e 0000000000
RECORD_BYTES|+1,61+0|2e 61 81
";

/// Fails unless the data part of what is listed, under the header of a file, is so, as far as a sink of each length takes it.
fn expect_data(
    rt: &impl Abort,
    alloc: Global,
    file: &[u8],
    listed: &str,
    data: &[u8],
) -> Result<(), AllocError> {
    let arrays = arrays_of(alloc, listed)?;
    for room in 0..=data.len() {
        let is_right = is_part(alloc, file, arrays.as_slice(), (data, room))?;
        assert!(rt; is_right, "{room} bytes of {listed}");
    }
    Ok(())
}

/// Fails unless the data part of a row is so.
fn expect_row(rt: &impl Abort, alloc: Global, row: &str) -> Result<(), AllocError> {
    let [name, listed, data, ..] = cells_of(row, '|');
    let file = file_of(alloc, name)?;
    let data = hex_bytes(alloc, data)?;
    expect_data(rt, alloc, file.as_slice(), listed, data.as_slice())
}

#[test]
fn lacking_values_are_filled(rt: HostRuntime) -> Result<(), AllocError> {
    for row in PARTS.split('\n') {
        if !row.is_empty() && !row.starts_with('#') {
            expect_row(&rt, rt.alloc(), row)?;
        }
    }
    Ok(())
}

/// A value, and 4,099 fill values after it.
fn many_values(alloc: Global) -> Result<Vec<u8>, AllocError> {
    let mut data = Vec::from_slice(alloc, b"\0\x01")?;
    for _ in 1..4100 {
        data.extend_from_slice(b"\x80\x01")?;
    }
    Ok(data)
}

/// 4,100 values, only one of them listed: the fill values take one buffer and six bytes more.
#[test]
fn many_lacking_values_are_filled(rt: HostRuntime) -> Result<(), AllocError> {
    let file = patched(rt.alloc(), ONE_VARIABLE, 24, b"\0\0\x10\x04")?;
    let data = many_values(rt.alloc())?;
    let arrays = arrays_of(rt.alloc(), "0001")?;
    let whole = (data.as_slice(), data.len());
    assert!(rt; is_part(rt.alloc(), file.as_slice(), arrays.as_slice(), whole)?);
    Ok(())
}
