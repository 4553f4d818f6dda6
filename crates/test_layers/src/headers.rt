//! Headers that are read and headers that are refused, through buffers of several lengths.

use devices::{DripSource, FailWhen};
use nc_base::{Dim, FormatFault, Header, NcType, NumRecs, Var, Version};
use nc_file::{HeadFault, read_header};
use std::alloc::{AllocError, Global};
use std::process::Abort;
use test_files::{
    ESCAPED_NAMES, HOSTILE_COUNT, HOSTILE_COUNT_CDF5, LARGE_SLAB, ONE_VARIABLE, ONE_VARIABLE_CDF2,
    ONE_VARIABLE_CDF5, RECORD_DIMS_APART, RECORDS_OFF_BOUNDARY, SMALLEST, SMALLEST_CDF5,
    THREE_VARIABLES, TWO_RECORD_DIMS, patched,
};

/// Returns true if the dimension is `x`, of length 3.
fn is_x(dim: &Dim) -> bool {
    dim.name.as_slice() == b"x".as_slice() && dim.len == 3
}

/// Returns true if the variable is `short s(x)`, and begins there.
fn is_s(var: &Var, begin_at: u64) -> bool {
    var.name.as_slice() == b"s".as_slice()
        && var.dimids.as_slice() == [0].as_slice()
        && var.atts.is_empty()
        && var.ty == NcType::Short
        && var.begin_at == begin_at
}

/// Returns true if these are the only dimension and the only variable of a generated file, or if there are none, and nothing begins.
fn are_x_and_s(dims: &[Dim], vars: &[Var], begin_at: u64) -> bool {
    match (dims, vars) {
        ([], []) => begin_at == 0,
        ([dim], [var]) => is_x(dim) && is_s(var, begin_at),
        _ => false,
    }
}

/// Returns true if the header is that of a generated file: one dimension `x`, of length 3, and the variable `short s(x)`. A header without
/// both begins at 0.
fn is_generated(header: &Header, version: Version, begin_at: u64) -> bool {
    header.version == version
        && header.numrecs == NumRecs::Known(0)
        && header.gatts.is_empty()
        && are_x_and_s(header.dims.as_slice(), header.vars.as_slice(), begin_at)
}

/// What reading a header gives: that of a generated file in a version, with this begin, an empty one with 0 for it, or a fault.
type Want = Result<(Version, u64), FormatFault>;

/// Returns true if reading has given what is wanted.
fn is_wanted(answer: &Result<Header, HeadFault>, want: Want) -> bool {
    match (answer, want) {
        (Ok(header), Ok((version, begin_at))) => is_generated(header, version, begin_at),
        (Err(fault), Err(want)) => *fault == HeadFault::Format(want),
        _ => false,
    }
}

/// Returns true if reading the header through a buffer of `buffer_len` bytes, by reads that give at most 1, 3, 7 or all bytes that fit,
/// gives what is wanted.
fn is_read(rt: &impl Abort, alloc: Global, file: &[u8], buffer_len: usize, want: Want) -> bool {
    let mut space = [0; 4096];
    assert!(rt; 16 <= buffer_len && buffer_len <= 4096);
    for step in [1, 3, 7, 4096] {
        let mut source = DripSource::new(file, step, FailWhen::Never);
        let answer = read_header(alloc, &mut source, &mut space[..buffer_len]);
        if !is_wanted(&answer, want) {
            return false;
        }
    }
    true
}

/// Fails unless reading the header of the file, with these bytes in place of its own from the offset `at` on, gives what is wanted.
fn expect_header(
    rt: &impl Abort,
    alloc: Global,
    file: &[u8],
    (at, bytes): (usize, &[u8]),
    want: Want,
) -> Result<(), AllocError> {
    let changed = patched(alloc, file, at, bytes)?;
    for buffer_len in [16, 17, 31, 4096] {
        let is_right = is_read(rt, alloc, changed.as_slice(), buffer_len, want);
        assert!(rt; is_right, "not {want:?} at {at}");
    }
    Ok(())
}

/// A file, an offset in it, other bytes from there on, and the version and the begin that are read then. Padding and a vsize are free.
static READ: &[(&[u8], usize, &[u8], Version, u64)] = &[
    (SMALLEST, 0, b"", Version::Cdf1, 0),
    (SMALLEST_CDF5, 0, b"", Version::Cdf5, 0),
    (ONE_VARIABLE, 0, b"", Version::Cdf1, 80),
    (ONE_VARIABLE_CDF2, 0, b"", Version::Cdf2, 84),
    (ONE_VARIABLE_CDF5, 0, b"", Version::Cdf5, 128),
    (ONE_VARIABLE, 21, b"\xff", Version::Cdf1, 80),
    (ONE_VARIABLE, 72, b"\xff\xff\xff\xff", Version::Cdf1, 80),
];

/// A file, an offset in it, other bytes from there on, and the fault of the header then.
static REFUSED: &[(&[u8], usize, &[u8], FormatFault)] = &[
    (b"", 0, b"", FormatFault::NotNetcdf),
    (b"CDF", 0, b"", FormatFault::HeaderTruncated),
    (HOSTILE_COUNT, 0, b"", FormatFault::HeaderTruncated),
    (HOSTILE_COUNT_CDF5, 0, b"", FormatFault::HeaderTruncated),
    (TWO_RECORD_DIMS, 0, b"", FormatFault::TwoRecordDims),
    (RECORD_DIMS_APART, 0, b"", FormatFault::TwoRecordDims),
    (LARGE_SLAB, 0, b"", FormatFault::TooLarge),
    (ONE_VARIABLE, 0, b"\x44", FormatFault::NotNetcdf),
    // as CDF-5 the number of records takes the first tag, and the next is 1
    (ONE_VARIABLE, 3, b"\x05", FormatFault::BadTag),
    (ONE_VARIABLE, 3, b"\x06", FormatFault::UnknownVersion(6)),
    (ONE_VARIABLE, 3, b"\x00", FormatFault::UnknownVersion(0)),
    // the number of records, and that of dimensions, with its top bit set
    (ONE_VARIABLE, 4, b"\x80", FormatFault::BadCount),
    (SMALLEST_CDF5, 4, b"\x80", FormatFault::BadCount),
    (ONE_VARIABLE, 12, b"\x80", FormatFault::BadCount),
    // the tag of variables where dimensions are; no tag, and a count of 1
    (ONE_VARIABLE, 11, b"\x0b", FormatFault::BadTag),
    (ONE_VARIABLE, 11, b"\x00", FormatFault::BadCount),
    // a name `/`, and a name `d/ta`
    (ONE_VARIABLE, 20, b"\x2f", FormatFault::BadName),
    (ESCAPED_NAMES, 37, b"\x2f", FormatFault::BadName),
    // a length of 2^31; a second record dimension, two places after the first
    (ONE_VARIABLE, 24, b"\x80\0\0\0", FormatFault::BadCount),
    (THREE_VARIABLES, 51, b"\x00", FormatFault::TwoRecordDims),
    // dimension ids that are no dimension's; the record dimension in the second place
    (ONE_VARIABLE, 59, b"\x01", FormatFault::BadShape),
    (ONE_VARIABLE, 56, b"\x80", FormatFault::BadShape),
    (RECORDS_OFF_BOUNDARY, 75, b"\x00", FormatFault::BadShape),
    // `float`, `double`, and no type of CDF-1
    (ONE_VARIABLE, 71, b"\x05", FormatFault::FloatingType),
    (ONE_VARIABLE, 71, b"\x06", FormatFault::FloatingType),
    (ONE_VARIABLE, 71, b"\x07", FormatFault::BadType),
    // an offset with its top bit set
    (ONE_VARIABLE, 76, b"\x80", FormatFault::BadOffset),
    (
        ONE_VARIABLE_CDF2,
        76,
        b"\x80\0\0\0\0\0\0\0",
        FormatFault::BadOffset,
    ),
];

#[test]
fn headers_of_changed_files(rt: HostRuntime) -> Result<(), AllocError> {
    for (file, at, bytes, version, begin_at) in READ {
        let want = Ok((*version, *begin_at));
        expect_header(&rt, rt.alloc(), *file, (*at, *bytes), want)?;
    }
    for (file, at, bytes, fault) in REFUSED {
        let want = Err(*fault);
        expect_header(&rt, rt.alloc(), *file, (*at, *bytes), want)?;
    }
    Ok(())
}
