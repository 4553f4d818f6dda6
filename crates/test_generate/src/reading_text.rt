//! All the bytes of a text.

use crate::readers::{FailingReader, NEVER};
use devices::CountedRead;
use ncgen::{TextFault, read_text};
use std::alloc::{AllocError, Global};
use std::test::*;

/// Returns true if the text of a reader, which gives at most `step` of these bytes a read and fails at the read of this number, is all of
/// the bytes, or if it has this fault. It may have `max` bytes.
fn gives(
    alloc: Global,
    bytes: &[u8],
    (step, fail): (usize, u64),
    max: u32,
    want: Result<(), TextFault>,
) -> bool {
    let mut input = CountedRead::new(FailingReader::new(bytes, step, fail));
    match read_text(alloc, &mut input, max as usize) {
        Ok(read) => want.is_ok() && read.as_slice() == bytes,
        Err(fault) => want == Err(fault),
    }
}

#[test]
fn bytes_up_to_the_limit_and_past_it(rt: HostRuntime) -> Result<(), AllocError> {
    static ROWS: &[(&[u8], (usize, u64), u32, Result<(), TextFault>)] = &[
        (b"0123456789", (20, NEVER), 10, Ok(())),
        (b"0123456789a", (20, NEVER), 10, Err(TextFault::CdlTooLong)),
        (b"0123456789", (20, 0), 10, Err(TextFault::ReadFailed)),
        (b"", (1, NEVER), 0, Ok(())),
        (b"a", (1, NEVER), 0, Err(TextFault::CdlTooLong)),
        // one byte too many is the last that is read
        (b"0123456789abc", (1, 11), 10, Err(TextFault::CdlTooLong)),
    ];
    for (bytes, reader, max, want) in ROWS {
        assert!(rt;
            gives(rt.alloc(), *bytes, *reader, *max, *want),
            "{bytes:?}"
        );
    }
    // two parts of at most 65,536 bytes, and the end: no other read is made
    let long = "0123456789".repeat(rt.alloc(), 10_000)?;
    assert!(rt; gives(rt.alloc(), long.as_bytes(), (100_000, 3), 100_000, Ok(())));
    Ok(())
}

#[test]
fn each_read_fails(rt: HostRuntime) {
    for fail in 0..11 {
        let failed = Err(TextFault::ReadFailed);
        assert!(rt;
            gives(rt.alloc(), b"0123456789", (1, fail), 10, failed),
            "{fail}"
        );
    }
    assert!(rt; gives(rt.alloc(), b"0123456789", (1, 11), 10, Ok(())));
}
