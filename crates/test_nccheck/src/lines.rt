//! The lines that a run writes of a file, at the level of notes.
//!
//! A table is a text: blocks with an empty line between two. A block has the words of a file (`file_of`), and the lines of all that is
//! wrong or odd in it, if its path is `f`. A line that begins with `#` is a comment.

use crate::faults::{FAULTS, HDF5, NAMES};
use crate::layouts::{BEGINS, CUT, FIELDS};
use crate::runs::{ROOM, UNREAD, ends, lines_with, words_of};
use devices::{MemFile, MemFiles};
use std::alloc::{AllocError, Global};
use std::process::Abort;
use test_files::file_of;

/// Returns true if a run over the file `f` of these bytes writes these lines to standard output, nothing to standard error, and ends with
/// the status that belongs to them.
fn has_lines(alloc: Global, bytes: &[u8], lines: &[u8]) -> bool {
    let status = if lines.is_empty() { 0 } else { 1 };
    let run = (
        ["nccheck", "-l", "note", "f"].as_slice(),
        ROOM,
        status,
        lines,
        b"".as_slice(),
    );
    let files = [MemFile { path: "f", bytes }];
    ends(alloc, &mut MemFiles::new(&files), &run, UNREAD)
}

/// Fails unless the file of this block has its lines.
fn expect_lines(rt: &impl Abort, alloc: Global, block: &str) -> Result<(), AllocError> {
    let bytes = file_of(alloc, words_of(block, "f:"))?;
    let lines = lines_with(alloc, block, "f:")?;
    let is_right = has_lines(alloc, bytes.as_slice(), lines.as_bytes());
    assert!(rt; is_right, "{block}");
    Ok(())
}

/// Fails unless the file of each block of this table has its lines.
fn expect_table(rt: &impl Abort, alloc: Global, table: &str) -> Result<(), AllocError> {
    for block in table.split("\n\n") {
        expect_lines(rt, alloc, block)?;
    }
    Ok(())
}

#[test]
fn files_have_their_lines(rt: HostRuntime) -> Result<(), AllocError> {
    expect_table(&rt, rt.alloc(), FAULTS)?;
    expect_table(&rt, rt.alloc(), HDF5)?;
    expect_table(&rt, rt.alloc(), NAMES)?;
    expect_table(&rt, rt.alloc(), FIELDS)?;
    expect_table(&rt, rt.alloc(), BEGINS)?;
    expect_table(&rt, rt.alloc(), CUT)
}
