//! Files that are dumped and generated again from their dumps: the same file, but for the NULs at the end of its attributes.

use crate::generating::{dump_of, file_of};
use nc_base::Version::{self, Cdf1, Cdf2, Cdf5};
use std::alloc::{AllocError, Global};
use std::process::Abort;
use std::test::*;

/// Files that come back as they are.
static SAME: &[(Version, &[u8])] = &[
    (Cdf1, test_files::ONE_VARIABLE),
    (Cdf2, test_files::ONE_VARIABLE_CDF2),
    (Cdf5, test_files::ONE_VARIABLE_CDF5),
    (Cdf1, test_files::NO_RECORDS),
    (Cdf1, test_files::THREE_VARIABLES),
    (Cdf1, test_files::RECORDS_OFF_BOUNDARY),
    // a line of 20 bytes, and one past that
    (Cdf1, test_files::SHORT_LINE),
    (Cdf1, test_files::LONG_LINE),
    (Cdf1, test_files::HELD_NULS),
    (Cdf1, test_files::MANY_HELD_NULS),
    (Cdf1, test_files::ALL_NULS),
    (Cdf1, test_files::ESCAPED_CHARACTERS),
    (Cdf1, test_files::ROWS_OF_NULS),
    (Cdf1, test_files::ROWS_OF_NULS_AND_FILL),
    (Cdf1, test_files::ESCAPED_NAMES),
    (Cdf1, test_files::TEXT_ATTRIBUTE),
    // bytes of -127, without a fill value and with one
    (Cdf1, test_files::LOW_BYTE),
    (Cdf1, test_files::FILL_OF_BYTES),
    (Cdf5, test_files::UNSIGNED_FILLS),
    (Cdf1, test_files::NULS_TRIMMED),
];

/// Fails unless the dump of the file, in lines of this width, gives the other file, and that file the same dump.
fn comes_back(
    rt: &impl Abort,
    alloc: Global,
    version: Version,
    (file, other): (&[u8], &[u8]),
    width: usize,
) -> Result<(), AllocError> {
    let text = dump_of(rt, alloc, file, width)?;
    let found = file_of(rt, alloc, text.as_slice(), version);
    assert!(rt; found.as_slice() == other, "{width}: {file:?}");
    let again = dump_of(rt, alloc, other, width)?;
    assert!(rt; again.as_slice() == text.as_slice(), "{width}: {file:?}");
    Ok(())
}

#[test]
fn files_come_back(rt: HostRuntime) -> Result<(), AllocError> {
    for (version, file) in SAME {
        for width in [20, 80, 1000] {
            comes_back(&rt, rt.alloc(), *version, (*file, *file), width)?;
        }
    }
    let trimmed = (test_files::NULS_IN_ATTRIBUTES, test_files::NULS_TRIMMED);
    comes_back(&rt, rt.alloc(), Cdf1, trimmed, 80)
}
