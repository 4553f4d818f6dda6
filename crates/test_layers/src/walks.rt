//! Walks over the values of files that are whole, changed or cut, through buffers of every length and in reads of every length.

use devices::{DripSource, FailWhen, MemSource, Source};
use nc_base::{Header, records};
use nc_file::{HeadFault, read_header};
use nc_walk::{Walk, WalkFault, laws};
use std::alloc::Global;
use std::process::Abort;
use test_files::{
    FORTY_SHORTS, ONE_VARIABLE, PADDED_RECORDS, RECORD_BYTES, RECORDS_OFF_BOUNDARY,
    THREE_VARIABLES, cells_of, cut, file_of, hex_bytes,
};

/// What a walk over a variable, at index `v`, is to give: these values, in chunks that fill the buffer as far as there are values, and then
/// this end.
#[derive(Clone, Copy)]
struct Want<'a> {
    v: usize,
    values: &'a [u8],
    end: Result<(), WalkFault>,
}

/// Returns true if a walk through a buffer of `buffer_len` bytes, over so many records, is as wanted. It has to end so twice.
fn is_walked<S: Source>(
    rt: &impl Abort,
    header: &Header,
    source: &mut S,
    (count, buffer_len): (u64, usize),
    want: &Want<'_>,
) -> bool {
    let mut space = [0; 40];
    assert!(rt; 16 <= buffer_len && buffer_len <= 40);
    assert!(rt; header.sound() && want.v < header.vars.len());
    let size = header.vars.as_slice()[want.v].ty.size() as usize;
    let mut walk = Walk::new(header, want.v, count, &mut space[..buffer_len]);
    for chunk in want.values.chunks(buffer_len - buffer_len % size) {
        if !matches!(walk.next(source), Ok(Some(bytes)) if bytes == chunk) {
            return false;
        }
    }
    has_ended(&mut walk, source, want.end) && has_ended(&mut walk, source, want.end)
}

/// Returns true if no chunk comes, and the walk has ended so.
fn has_ended<S: Source>(walk: &mut Walk<'_>, source: &mut S, end: Result<(), WalkFault>) -> bool {
    match walk.next(source) {
        Ok(Some(_)) => false,
        Ok(None) => end.is_ok(),
        Err(fault) => end == Err(fault),
    }
}

/// How many records the header has in a file of this length.
fn records_in(rt: &impl Abort, header: &Header, len: usize) -> u64 {
    assert!(rt; header.sound());
    records(header, len as u64)
}

/// Fails unless walks over the first `len` bytes of a file are as wanted: through each buffer from 16 to 40 bytes, in reads of at most 1 to
/// 9 bytes, and from a source that ends there but promises the whole file. No more bytes are read than the values have.
fn expect_walks(
    rt: &impl Abort,
    alloc: Global,
    (file, len): (&[u8], usize),
    want: &Want<'_>,
) -> Result<(), HeadFault> {
    let header = read_header(alloc, &mut MemSource::new(file), &mut [0; 16])?;
    assert!(rt; len <= file.len());
    let count = records_in(rt, &header, len);
    for buffer_len in 16..=40 {
        for step in 1..=9 {
            let mut source = DripSource::new(&file[..len], step, FailWhen::Never);
            let is_right = is_walked(rt, &header, &mut source, (count, buffer_len), want);
            assert!(rt;
                is_right && source.handed() == want.values.len() as u128,
                "{len}"
            );
        }
        let is_right = is_walked(rt, &header, &mut cut(file, len), (count, buffer_len), want);
        assert!(rt; is_right, "cut at {len}");
    }
    Ok(())
}

/// Files of other versions, slabs beside others, and files that are changed. A row has the words of a file, how many of its bytes there
/// are, the index of the variable that is walked over, the bytes of its values, and the number of the first one that is missing, if one is.
const WALKED: &str = r"
ONE_VARIABLE_CDF2|92|0|0001 8001 0003|
ONE_VARIABLE_CDF5|136|0|0001 8001 0003|
THREE_VARIABLES|224|0|0000000a 00000014|
THREE_VARIABLES|224|1|00000001 00000002 00000003 00000004 00000005 00000006 00000007 00000008|
THREE_VARIABLES|224|2|00000007|
# streaming records
PADDED_RECORDS 4=ffffffff|139|1|0004 0005|
# more records than the file has
RECORD_BYTES 4=7fffffff|83|0|01 02 03|3
# values in the header
ONE_VARIABLE 76=00000000|88|0|4344 4601 0000|
# the greatest offset
ONE_VARIABLE_CDF2 76=7fffffffffffffff|92|0||0
";

/// Fails unless the walk of a row is so.
fn expect_row(rt: &impl Abort, alloc: Global, row: &str) -> Result<(), HeadFault> {
    let [words, len, v, values, missing, ..] = cells_of(row, '|');
    let file = file_of(alloc, words)?;
    let values = hex_bytes(alloc, values)?;
    let want = Want {
        v: v.parse().unwrap_or(0),
        values: values.as_slice(),
        end: match missing.parse() {
            Ok(value) => Err(WalkFault::DataTruncated(value)),
            Err(_) => Ok(()),
        },
    };
    let len = len.parse().unwrap_or(0);
    expect_walks(rt, alloc, (file.as_slice(), len), &want)
}

#[test]
fn values_of_whole_files(rt: HostRuntime) -> Result<(), HeadFault> {
    // the law on the bytes of values is called for its contract alone
    laws::values_are_read();
    for row in WALKED.split('\n') {
        if !row.is_empty() && !row.starts_with('#') {
            expect_row(&rt, rt.alloc(), row)?;
        }
    }
    Ok(())
}

/// A file; the length of its header, the index of a variable, the offset of its first value, the bytes of a value, and the bytes from one
/// value to the next; and all of its values.
type Strided = (&'static [u8], [usize; 5], &'static [u8]);

static STRIDED: &[Strided] = &[
    (ONE_VARIABLE, [80, 0, 80, 2, 2], b"\0\x01\x80\x01\0\x03"),
    (RECORD_BYTES, [80, 0, 80, 1, 1], b"\x01\x02\x03"),
    (PADDED_RECORDS, [116, 0, 116, 1, 8], b"\x01\x02\x03"),
    (PADDED_RECORDS, [116, 1, 120, 2, 8], b"\0\x04\0\x05\0\x06"),
    (
        RECORDS_OFF_BOUNDARY,
        [96, 0, 96, 2, 2],
        b"\0\x01\0\x02\0\x03\0\x04\0\x05\0\x06\0\x07\0\x08\0\x09",
    ),
    // a slab of more bytes than the buffers have
    (
        FORTY_SHORTS,
        [80, 0, 80, 2, 2],
        b"\0\x01\0\x02\0\x03\0\x04\0\x05\0\x06\0\x07\0\x08\0\x09\0\x0a\0\x0b\0\x0c\0\x0d\0\x0e\0\x0f\0\x10\0\x11\0\x12\0\x13\0\x14\0\x15\0\x16\0\x17\0\x18\0\x19\0\x1a\0\x1b\0\x1c\0\x1d\0\x1e\0\x1f\0\x20\0\x21\0\x22\0\x23\0\x24\0\x25\0\x26\0\x27\0\x28",
    ),
];

/// What a walk over the first `len` bytes of the file is to give: the values that are whole there, and the number of the first other one.
fn wanted_of(row: &Strided, len: usize) -> Want<'static> {
    let (_, [_, v, first, size, stride], all) = *row;
    let (mut whole, mut count) = (0usize, 0u128);
    let mut past = first.saturating_add(size);
    for value in all.chunks(size.max(1)) {
        if past <= len {
            whole = whole.saturating_add(value.len());
            count = count.saturating_add(1);
        }
        past = past.saturating_add(stride);
    }
    Want {
        v,
        values: all.get(..whole).unwrap_or(all),
        end: if whole == all.len() {
            Ok(())
        } else {
            Err(WalkFault::DataTruncated(count))
        },
    }
}

#[test]
fn values_cut_at_each_byte(rt: HostRuntime) -> Result<(), HeadFault> {
    for row in STRIDED {
        let (file, [header_len, ..], _) = *row;
        for len in header_len..=file.len() {
            let want = wanted_of(row, len);
            expect_walks(&rt, rt.alloc(), (file, len), &want)?;
        }
    }
    Ok(())
}

/// Walks from sources that fail, through a buffer of 16 bytes: a file, when reads fail, the index of a variable, and its values before that.
/// What stands in the buffer is dropped then, and no read is tried again.
static FAILING: &[(&[u8], FailWhen, usize, &[u8])] = &[
    (ONE_VARIABLE, FailWhen::From(80), 0, b""),
    (ONE_VARIABLE, FailWhen::Read(0), 0, b""),
    // in the second record
    (PADDED_RECORDS, FailWhen::From(128), 1, b""),
    // after a chunk
    (
        THREE_VARIABLES,
        FailWhen::From(208),
        1,
        b"\0\0\0\x01\0\0\0\x02\0\0\0\x03\0\0\0\x04",
    ),
];

/// Fails unless a walk over a variable of the file ends with `ReadFailed` after these values, in reads of at most 1 to 9 bytes.
fn expect_failure(
    rt: &impl Abort,
    alloc: Global,
    file: &[u8],
    fail: FailWhen,
    (v, values): (usize, &[u8]),
) -> Result<(), HeadFault> {
    let end = Err(WalkFault::ReadFailed);
    let header = read_header(alloc, &mut MemSource::new(file), &mut [0; 16])?;
    let count = records_in(rt, &header, file.len());
    for step in 1..=9 {
        let mut source = DripSource::new(file, step, fail);
        let want = Want { v, values, end };
        let is_right = is_walked(rt, &header, &mut source, (count, 16), &want);
        assert!(rt; is_right, "{values:?}");
    }
    Ok(())
}

#[test]
fn failing_sources(rt: HostRuntime) -> Result<(), HeadFault> {
    for (file, fail, v, values) in FAILING {
        expect_failure(&rt, rt.alloc(), *file, *fail, (*v, *values))?;
    }
    Ok(())
}
