//! Listed arrays whose rows lack bytes at their end.

use nc_base::{ListedArray, Run};
use std::alloc::{AllocError, Global};
use std::process::Abort;
use std::test::Fail;

/// The listed bytes of a row, the number of bytes that it lacks, and its fill byte.
type Row = (&'static str, u64, u8);

/// These rows, and bytes after them.
fn array_of(alloc: Global, rows: &[Row], after: &str) -> Result<ListedArray, AllocError> {
    let mut array = ListedArray::new(alloc);
    for (listed, lacking, fill) in rows {
        array.add(listed.as_bytes())?;
        array.end_row(*lacking, *fill)?;
    }
    array.add(after.as_bytes())?;
    Ok(array)
}

/// Returns true if these bytes begin with the run, which has some of them if there are any.
fn begin_with(want: &[u8], run: Run<'_>) -> bool {
    let is_some = !run.bytes.is_empty() || run.filling > 0 || want.is_empty();
    match want.strip_prefix(run.bytes) {
        Some(rest) => match rest.get(..run.filling as usize) {
            Some(filled) => is_some && filled.iter().all(|byte| *byte == run.fill),
            None => false,
        },
        None => false,
    }
}

/// Fails unless the array has these bytes, from each offset on.
fn expect_bytes(
    rt: &impl Abort,
    alloc: Global,
    array: ListedArray,
    want: &[u8],
) -> Result<(), Fail> {
    assert!(rt; array.len() == want.len() as u128);
    for at in 0..=want.len() {
        let run = array.run_at(at as u128);
        assert!(rt; begin_with(&want[at..], run), "from {at} on");
    }
    let bytes = array.into_bytes(alloc, 7)?;
    assert!(rt; bytes.as_slice() == want && bytes.capacity() >= want.len() + 7);
    Ok(())
}

#[test]
fn rows_are_filled_up_where_they_are_read(rt: HostRuntime) -> Result<(), Fail> {
    static CASES: &[(&[Row], &str, &str)] = &[
        (&[], "abc", "abc"),
        (&[("a", 2, b'.'), ("bc", 1, b'.')], "", "a..bc."),
        (&[("a", 2, b'.'), ("b", 2, b'.')], "cd", "a..b..cd"),
        // a row of another length, and one of another fill byte
        (&[("a", 2, b'.'), ("b", 3, b'.')], "", "a..b..."),
        (&[("a", 2, b'.'), ("b", 2, b'-')], "", "a..b--"),
        (&[("", 2, 0), ("", 2, 0)], "x", "\0\0\0\0x"),
        (&[("", 0, 0), ("a", 1, b'.')], "x", "a.x"),
    ];
    for (rows, after, want) in CASES {
        let array = array_of(rt.alloc(), *rows, *after)?;
        expect_bytes(&rt, rt.alloc(), array, want.as_bytes())?;
    }
    Ok(())
}
