//! Headers read from devices that fail or end early, and long ones.

use devices::{DripSource, FailWhen, ReadAhead, Source};
use nc_base::FormatFault;
use nc_file::{HeadFault, read_header};
use std::alloc::Global;
use std::process::Abort;
use std::test::Fail;
use test_files::{ONE_VARIABLE, ONE_VARIABLE_CDF5, cut, repeated};

/// What reading a header is answered, from a source that gives up to `step` bytes a read and fails so.
fn answer_to(
    rt: &impl Abort,
    alloc: Global,
    (file, step, buffer_len): (&[u8], usize, usize),
    fail: FailWhen,
) -> Result<(), HeadFault> {
    let mut space = [0; 4096];
    assert!(rt; 1 <= step && 16 <= buffer_len && buffer_len <= 4096);
    let mut source = DripSource::new(file, step, fail);
    read_header(alloc, &mut source, &mut space[..buffer_len])?;
    Ok(())
}

/// Fails unless each failing read is answered at once, and no read begins after the header, where each would fail.
fn expect_failures(rt: &impl Abort, alloc: Global, row: (&[u8], usize, usize), header_len: u64) {
    let (_, step, _) = row;
    assert!(rt; 0 < step);
    for n in 0..header_len.div_ceil(step as u64) {
        let answer = answer_to(rt, alloc, row, FailWhen::Read(n));
        assert!(rt; answer == Err(HeadFault::ReadFailed), "read {n}");
    }
    assert!(rt; answer_to(rt, alloc, row, FailWhen::From(header_len)).is_ok());
}

#[test]
fn each_read_of_a_header_fails(rt: HostRuntime) {
    static ROWS: &[(&[u8], usize, usize, u64)] = &[
        (ONE_VARIABLE, 1, 16, 80),
        (ONE_VARIABLE, 3, 17, 80),
        (ONE_VARIABLE, 7, 31, 80),
        (ONE_VARIABLE, 1, 4096, 80),
        (ONE_VARIABLE_CDF5, 7, 31, 128),
    ];
    for (file, step, buffer_len, header_len) in ROWS {
        let row = (*file, *step, *buffer_len);
        expect_failures(&rt, rt.alloc(), row, *header_len);
    }
}

/// A header that is cut off, at any byte, is read up to the cut, and no further, where each read would fail.
#[test]
fn no_read_begins_at_the_cut(rt: HostRuntime) {
    for n in 0..80 {
        let row = (&ONE_VARIABLE[..n], 7, 16);
        let answer = answer_to(&rt, rt.alloc(), row, FailWhen::From(n as u64));
        let fault = if n < 3 {
            FormatFault::NotNetcdf
        } else {
            FormatFault::HeaderTruncated
        };
        assert!(rt; answer == Err(HeadFault::Format(fault)), "{n} bytes");
    }
}

/// Variables `byte v(t, x, x)`, all alike, each with 2^48 bytes a record, and what stands before their count.
const LARGE_RECORD: &[u8] = b"\0\0\0\x01v\0\0\0\0\0\0\x03\0\0\0\0\0\0\0\x01\0\0\0\x01\
    \0\0\0\0\0\0\0\0\0\0\0\x01\xff\xff\xff\xff\0\0\0\0";

const BEFORE_LARGE_RECORDS: &[u8] = b"CDF\x01\0\0\0\0\
    \0\0\0\x0a\0\0\0\x02\0\0\0\x01t\0\0\0\0\0\0\0\0\0\0\x01x\0\0\0\x01\0\0\0\
    \0\0\0\0\0\0\0\0\0\0\0\x0b";

/// A record may have 2^62 bytes, and no more.
#[test]
fn records_at_their_limit(rt: HostRuntime) -> Result<(), Fail> {
    const TOO_LARGE: HeadFault = HeadFault::Format(FormatFault::TooLarge);
    for (count, want) in [(16_384, Ok(())), (16_385, Err(TOO_LARGE))] {
        let bytes = repeated(rt.alloc(), BEFORE_LARGE_RECORDS, LARGE_RECORD, count)?;
        let row = (bytes.as_slice(), 4096, 4096);
        let answer = answer_to(&rt, rt.alloc(), row, FailWhen::Never);
        assert!(rt; answer == want, "{count} variables");
    }
    Ok(())
}

/// Returns true if the header that is read from this source ends too early.
fn is_cut<S: Source>(rt: &impl Abort, alloc: Global, source: &mut S, buf: &mut [u8]) -> bool {
    assert!(rt; 16 <= buf.len());
    let answer = read_header(alloc, source, buf);
    matches!(answer, Err(fault) if fault == HeadFault::Format(FormatFault::HeaderTruncated))
}

/// A header of 2,000 variables and 88,056 bytes, whose source promises them all but ends early. The longer buffer has room for a hundred
/// variables. So the bytes that it had before are those of the next variables, if any of them is taken for one that didn't come.
#[test]
fn long_headers_end_early(rt: HostRuntime) -> Result<(), Fail> {
    // 44,056 bytes end with the thousandth variable.
    const LENS: &[usize] = &[4_096, 44_056, 44_064, 65_535, 65_536, 65_537, 88_055];
    let bytes = repeated(rt.alloc(), BEFORE_LARGE_RECORDS, LARGE_RECORD, 2_000)?;
    let mut buf = [0; 4400];
    for len in LENS {
        let mut source = cut(bytes.as_slice(), *len);
        assert!(rt; is_cut(&rt, rt.alloc(), &mut source, &mut buf), "{len}");
        let mut ahead = ReadAhead::new(cut(bytes.as_slice(), *len));
        assert!(rt;
            is_cut(&rt, rt.alloc(), &mut ahead, &mut buf[..17]),
            "{len}"
        );
    }
    Ok(())
}

#[test]
fn nothing_is_read_ahead_past_the_cut(rt: HostRuntime) {
    let mut source = ReadAhead::new(cut(ONE_VARIABLE, 40));
    let mut into = [0; 16];
    assert!(rt; 40 < source.len());
    assert!(rt; source.read_at(40, &mut into) == Ok(0));
}
