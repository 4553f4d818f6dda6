//! Sizes of small headers, worked out by hand.

use crate::header_rows::{EMPTY, HeaderRow, NamedLength, NamedShape, dims_of, header_of};
use nc_base::{Header, NcType, NumRecs, extent_end, rec_size, records, slab_len};
use std::alloc::{AllocError, Global};
use std::process::Abort;

#[test]
fn slabs_leave_out_the_record_dimension_up_to_their_limit(
    rt: HostRuntime,
) -> Result<(), AllocError> {
    // short lengths, and lengths near the limit of slabs and after it
    static DIMS: &[NamedLength<'static>] = &[
        ("", 0),
        ("", 3),
        ("", 2),
        ("", 2147483647),
        ("", 16777216),
        ("", 281474976710657),
        ("", 9223372036854775807),
    ];
    static ROWS: &[(&[u64], NcType, Option<u64>)] = &[
        (&[], NcType::Int, Some(4)),
        (&[1], NcType::Short, Some(6)),
        (&[0, 2, 2], NcType::Int, Some(16)),
        (&[3, 3], NcType::Byte, None),
        (&[4, 4], NcType::Byte, Some(281474976710656)),
        (&[5], NcType::Byte, None),
        (&[6], NcType::Int64, None),
        (&[6, 6, 0], NcType::Int64, Some(0)),
    ];
    let dims = dims_of(rt.alloc(), DIMS)?;
    for (dimids, ty, slab) in ROWS {
        let found = slab_len(dims.as_slice(), *dimids, *ty);
        assert!(rt; found == *slab, "{dimids:?} {ty:?}");
    }
    Ok(())
}

/// A header of CDF-5 whose number of records is unknown.
const STREAMING: HeaderRow<'static> = HeaderRow {
    numrecs: NumRecs::Streaming,
    dims: &[("t", 0), ("y", 2), ("x", 3)],
    ..EMPTY
};

const FIXED: NamedShape<'static> = ("f", &[2], NcType::Short, 100);

const BYTE: NamedShape<'static> = ("b", &[0], NcType::Byte, 116);

const SHORT: NamedShape<'static> = ("s", &[0], NcType::Short, 120);

const SHORTS: NamedShape<'static> = ("r", &[0, 2], NcType::Short, 0);

const INT: NamedShape<'static> = ("i", &[0], NcType::Int, 0);

const SQUARE: NamedShape<'static> = ("q", &[0, 1, 1], NcType::Int, 0);

/// Variables, the size of a record, the length of a file and its number of records, and where the values of each variable end.
static RECORDS: &[(&[NamedShape<'static>], u64, u64, u64, &[u128])] = &[
    (&[FIXED], 0, 139, 0, &[106]),
    // a sole narrow record variable is not padded
    (&[FIXED, BYTE], 1, 119, 3, &[106, 119]),
    (&[SHORTS, FIXED], 6, 20, 3, &[18, 106]),
    (&[FIXED, SHORT, BYTE], 8, 139, 2, &[106, 130, 125]),
    (&[FIXED, SHORT, BYTE], 8, 100, 0, &[106, 120, 116]),
    (&[SHORTS, SHORTS], 16, 47, 2, &[22, 22]),
    (&[INT, SQUARE], 20, 39, 1, &[4, 16]),
];

/// Fails unless the values of each variable end there over `count` records.
fn expect_ends(rt: &impl Abort, header: &Header, count: u64, ends: &[u128]) {
    assert!(rt; header.sound());
    for (v, end) in ends.iter().enumerate() {
        assert!(rt; v < header.vars.len());
        assert!(rt; extent_end(header, v, count) == *end, "variable {v}");
    }
}

/// Fails unless a header of these variables has records of `size` bytes, and `count` of them in a file of `len` bytes, and the values of
/// each variable end there.
fn expect_records(
    rt: &impl Abort,
    alloc: Global,
    vars: &[NamedShape<'_>],
    (size, len, count): (u64, u64, u64),
    ends: &[u128],
) -> Result<(), AllocError> {
    let header = header_of(alloc, &HeaderRow { vars, ..STREAMING })?;
    let is_right = rec_size(&header) == Some(size) && records(&header, len) == count;
    assert!(rt; is_right, "{size} bytes, {count} records");
    expect_ends(rt, &header, count, ends);
    Ok(())
}

#[test]
fn records_are_counted_from_the_least_begin(rt: HostRuntime) -> Result<(), AllocError> {
    for (vars, size, len, count, ends) in RECORDS {
        expect_records(&rt, rt.alloc(), *vars, (*size, *len, *count), *ends)?;
    }
    Ok(())
}

/// Returns true if a header of these dimensions and variables is sound.
fn is_sound<'a>(
    alloc: Global,
    dims: &'a [NamedLength<'a>],
    vars: &'a [NamedShape<'a>],
) -> Result<bool, AllocError> {
    let header = header_of(
        alloc,
        &HeaderRow {
            dims,
            vars,
            ..EMPTY
        },
    )?;
    Ok(header.sound())
}

#[test]
fn sound_headers_have_known_dimensions_and_records_first(
    rt: HostRuntime,
) -> Result<(), AllocError> {
    static ROWS: &[(&[NamedLength<'static>], &[NamedShape<'static>], bool)] = &[
        (
            &[("", 0), ("", 3)],
            &[("v", &[0, 1], NcType::Ubyte, 0)],
            true,
        ),
        (
            &[("", 0), ("", 3)],
            &[("v", &[1, 0], NcType::Ubyte, 0)],
            false,
        ),
        (&[("", 0), ("", 3)], &[("v", &[2], NcType::Ubyte, 0)], false),
        // two record dimensions
        (&[("", 0), ("", 0)], &[("v", &[0], NcType::Ubyte, 0)], false),
    ];
    for (dims, vars, want) in ROWS {
        let found = is_sound(rt.alloc(), *dims, *vars)?;
        assert!(rt; found == *want, "{vars:?}");
    }
    Ok(())
}
