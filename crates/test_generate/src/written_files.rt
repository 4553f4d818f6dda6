//! Files that are written into sinks with little room, and how often a writer is called.

use crate::rows::{ROWS, Row, row_of};
use devices::{IoSink, SliceSink};
use nc_base::Version;
use ncgen::{GenFault, generate};
use std::alloc::{AllocError, Global};
use std::io;
use std::io::Write;
use std::process::Abort;
use std::test::*;

/// Fails unless the file of the text, written by `step` bytes a call into a sink that has room for these bytes alone, begins with them and
/// has this outcome.
fn begins(
    rt: &impl Abort,
    alloc: Global,
    (version, text): (Version, &[u8]),
    step: usize,
    bytes: &[u8],
    want: Result<(), GenFault>,
) -> Result<(), AllocError> {
    assert!(rt; 1 <= step);
    let mut into = Vec::from_elem(alloc, 0, bytes.len())?;
    let mut sink = SliceSink::new(into.as_mut_slice(), step);
    let answer = generate(alloc, text, version, &mut sink);
    let is_right = answer == want && sink.taken() == bytes;
    assert!(rt; is_right, "{} in {version:?}", bytes.len());
    Ok(())
}

/// Fails unless sinks of every length up to that of the file, which take this many bytes a call, have what they have room for.
fn fills_each(rt: &impl Abort, alloc: Global, row: &Row, step: usize) -> Result<(), AllocError> {
    let of_row = (row.version, row.cdl.as_slice());
    let file = row.file.as_slice();
    for room in 0..file.len() {
        let cut = Err(GenFault::WriteFailed);
        begins(rt, alloc, of_row, step, &file[..room], cut)?;
    }
    begins(rt, alloc, of_row, step, file, Ok(()))
}

#[test]
fn sinks_of_every_length(rt: HostRuntime) -> Result<(), AllocError> {
    for block in ROWS.split("\n\n") {
        let row = row_of(&rt, rt.alloc(), block)?;
        fills_each(&rt, rt.alloc(), &row, 1)?;
        fills_each(&rt, rt.alloc(), &row, 7)?;
    }
    Ok(())
}

/// How a file begins with `int v(x)` of 2^32 - 4 bytes, the largest slab that fits a field of 32 bits. One value is listed.
const LARGEST: &[u8] = b"CDF\x01\0\0\0\0\
    \0\0\0\x0a\0\0\0\x01\
    \0\0\0\x01x\0\0\0\x3f\xff\xff\xff\
    \0\0\0\0\0\0\0\0\
    \0\0\0\x0b\0\0\0\x01\
    \0\0\0\x01v\0\0\0\
    \0\0\0\x01\0\0\0\0\
    \0\0\0\0\0\0\0\0\
    \0\0\0\x04\xff\xff\xff\xfc\0\0\0\x50\
    \0\0\0\x05\x80\0\0\x01\x80\0\0\x01";

/// `byte b(x, y)` of 2^32 - 1 bytes, which padded are 2^32.
const PAST_32_BITS: &[u8] =
    b"netcdf t { dimensions: x = 65535, y = 65537 ; variables: byte b(x, y) ; }";

/// Its header in CDF-1.
const PAST_32_BITS_CDF1: &[u8] = b"CDF\x01\0\0\0\0\
    \0\0\0\x0a\0\0\0\x02\
    \0\0\0\x01x\0\0\0\0\0\xff\xff\
    \0\0\0\x01y\0\0\0\0\x01\0\x01\
    \0\0\0\0\0\0\0\0\
    \0\0\0\x0b\0\0\0\x01\
    \0\0\0\x01b\0\0\0\
    \0\0\0\x02\0\0\0\0\0\0\0\x01\
    \0\0\0\0\0\0\0\0\
    \0\0\0\x01\xff\xff\xff\xff\0\0\0\x60";

/// Its header in CDF-5.
const PAST_32_BITS_CDF5: &[u8] = b"CDF\x05\0\0\0\0\0\0\0\0\
    \0\0\0\x0a\0\0\0\0\0\0\0\x02\
    \0\0\0\0\0\0\0\x01x\0\0\0\0\0\0\0\0\0\xff\xff\
    \0\0\0\0\0\0\0\x01y\0\0\0\0\0\0\0\0\x01\0\x01\
    \0\0\0\0\0\0\0\0\0\0\0\0\
    \0\0\0\x0b\0\0\0\0\0\0\0\x01\
    \0\0\0\0\0\0\0\x01b\0\0\0\
    \0\0\0\0\0\0\0\x02\0\0\0\0\0\0\0\0\0\0\0\0\0\0\0\x01\
    \0\0\0\0\0\0\0\0\0\0\0\0\
    \0\0\0\x01\0\0\0\x01\0\0\0\0\0\0\0\0\0\0\0\x9c";

/// Files of four gigabytes, as far as a sink has room for them. Unidata's ncgen 4.9.0 writes the same bytes.
#[test]
fn files_of_four_gigabytes(rt: HostRuntime) -> Result<(), AllocError> {
    const TEXT: &[u8] =
        b"netcdf t { dimensions: x = 1073741823 ; variables: int v(x) ; data: v = 5 ; }";
    static ROWS: &[((Version, &[u8]), &[u8])] = &[
        ((Version::Cdf1, TEXT), LARGEST),
        ((Version::Cdf1, PAST_32_BITS), PAST_32_BITS_CDF1),
        ((Version::Cdf5, PAST_32_BITS), PAST_32_BITS_CDF5),
    ];
    for (text, bytes) in ROWS {
        let cut = Err(GenFault::WriteFailed);
        begins(&rt, rt.alloc(), *text, 4096, *bytes, cut)?;
    }
    Ok(())
}

/// A writer that takes everything, and counts the calls and the bytes.
#[derive(Drop)]
struct Counting {
    calls: u64,
    len: u64,
}

impl Write for Counting {
    fn write(&mut self, bytes: &[u8]) -> io::Result<usize> {
        self.calls = self.calls.saturating_add(1);
        self.len = self.len.saturating_add(bytes.len() as u64);
        Ok(bytes.len())
    }

    fn flush(&mut self) -> io::Result<()> {
        Ok(())
    }
}

/// Fails unless the file of the text has `len` bytes, and is written in at most `calls` calls.
fn takes_few_writes(rt: &impl Abort, alloc: Global, text: &str, len: u64, calls: u64) {
    let mut writer = Counting { calls: 0, len: 0 };
    let mut sink = IoSink::new(&mut writer);
    let answer = generate(alloc, text.as_bytes(), Version::Cdf1, &mut sink);
    assert!(rt; answer.is_ok());
    assert!(rt; writer.len == len, "{}", writer.len);
    assert!(rt; writer.calls <= calls, "{}", writer.calls);
}

/// Files of some 100,000 bytes: about one call for each part of them.
#[test]
fn writes_of_long_files(rt: HostRuntime) -> Result<(), AllocError> {
    // 50,000 shorts and few or all of them listed; as records, which lie side by side; and a long attribute
    const FIXED: &str = "netcdf t {\ndimensions: x = 50000 ;\nvariables: short s(x) ;\ndata: s = 1";
    const RECORDS: &str =
        "netcdf t {\ndimensions: t = UNLIMITED ;\nvariables: short s(t) ;\ndata: s = 1";
    const NOTE: &str = "netcdf t {\n:note = \"";
    static ROWS: &[(&str, (&str, usize), &str, u64, u64)] = &[
        (FIXED, (", 1", 49_999), " ;\n}\n", 100_080, 40),
        (FIXED, (", 1", 2), " ;\n}\n", 100_080, 60),
        (RECORDS, (", 1", 49_999), " ;\n}\n", 100_080, 40),
        (NOTE, ("a", 100_000), "\" ;\n}\n", 100_048, 30),
    ];
    for (head, (piece, count), tail, len, calls) in ROWS {
        let pieces = piece.repeat(rt.alloc(), *count)?;
        let text = format!(in rt.alloc(); "{head}{pieces}{tail}")?;
        takes_few_writes(&rt, rt.alloc(), text.as_str(), *len, *calls);
    }
    Ok(())
}
