//! Headers that are written: their begins, their bytes and their length.

ghost use Rattle.std.specs.Prelude.{◌<◌, All};
ghost use Rattle.nc_base.specs.Headers.{IsSound};
ghost use Rattle.nc_types.specs.Versions.{offset_limit};

use crate::header_rows::{EMPTY, HeaderRow, NamedLength, NamedShape, header_of};
use devices::SliceSink;
use nc_base::Version::{self, Cdf1, Cdf2, Cdf5};
use nc_base::{Header, NcType, NumRecs, Var, weight};
use nc_file::{OffsetTooLarge, header_len, with_begins, write_header};
use std::process::Abort;
use std::test::Fail;
use test_files::file_of;

/// `short s(x)`, x = 3.
const SHORTS: HeaderRow<'static> = HeaderRow {
    dims: &[("x", 3)],
    vars: &[("s", &[0], NcType::Short, 0)],
    ..EMPTY
};

/// The same over a longer dimension: a slab of 4294967294 bytes, which would be padded to 2^32.
const LONG: HeaderRow<'static> = HeaderRow {
    dims: &[("x", 2147483647)],
    ..SHORTS
};

/// A header whose number of records is unknown.
const STREAMING: HeaderRow<'static> = HeaderRow {
    numrecs: NumRecs::Streaming,
    dims: &[("t", 0)],
    ..EMPTY
};

/// A header whose attribute is padded.
const NOTED: HeaderRow<'static> = HeaderRow {
    gatts: &[("note", NcType::Char, "a\nb")],
    ..EMPTY
};

/// Headers, the words of the files that they are to be (of the two that differ, the length of the dimension and the vsize), and their
/// weights.
static ROWS: &[(Version, HeaderRow<'static>, &str, u128)] = &[
    (Cdf1, SHORTS, "ONE_VARIABLE ..80", 5),
    (Cdf2, SHORTS, "ONE_VARIABLE_CDF2 ..84", 5),
    (Cdf5, SHORTS, "ONE_VARIABLE_CDF5 ..128", 5),
    (
        Cdf2,
        LONG,
        "ONE_VARIABLE_CDF2 ..84 24=7fffffff 72=ffffffff",
        5,
    ),
    (
        Cdf5,
        LONG,
        "ONE_VARIABLE_CDF5 ..128 36=000000007fffffff 112=0000000100000000",
        5,
    ),
    (Cdf1, STREAMING, "STREAMED_RECORDS ..44", 2),
    // the length of the text, and its padding
    (Cdf1, NOTED, "TEXT_ATTRIBUTE ..52 36=00000003 43=00", 8),
];

/// The header of a row in this version.
fn of_version(version: Version, row: HeaderRow<'static>) -> HeaderRow<'static> {
    HeaderRow { version, ..row }
}

/// The header with its begins, which are to fit.
fn begun(rt: &impl Abort, header: Header) -> Header
    ensures sound { IsSound result }
    ensures begins { All (λ var. var.begin_at < offset_limit result.version) result.vars }
{
    assert!(rt; header.sound());
    match with_begins(header) {
        Ok(header) => header,
        Err(OffsetTooLarge) => panic!(rt; "an offset is too large"),
    }
}

/// Fails unless the header with its begins, which are to fit, has these bytes, of which sinks of each length take as many as fit.
fn expect_bytes(rt: &impl Abort, header: Header, want: &[u8]) {
    let header = begun(rt, header);
    assert!(rt; header_len(&header) == want.len() as u64);
    for room in 0..=want.len() {
        let mut space = [0; 128];
        assert!(rt; room <= 128);
        let mut sink = SliceSink::new(&mut space[..room], 7);
        let is_whole = write_header(&mut sink, &header).is_ok();
        assert!(rt; is_whole == (room == want.len()), "{room} bytes");
        assert!(rt; sink.taken() == &want[..room], "{room} of {}", want.len());
    }
}

#[test]
fn headers_have_their_bytes(rt: HostRuntime) -> Result<(), Fail> {
    for (version, row, words, heavy) in ROWS {
        let header = header_of(rt.alloc(), &of_version(*version, *row))?;
        assert!(rt; weight(&header) == *heavy, "{version:?}");
        let want = file_of(rt.alloc(), *words)?;
        expect_bytes(&rt, header, want.as_slice());
    }
    Ok(())
}

/// Returns true if the variables have these begins.
fn are_begins(vars: &[Var], begins: &[u64]) -> bool {
    vars.iter()
        .map(|var| var.begin_at)
        .eq(begins.iter().copied())
}

/// Fails unless the header has this number of bytes, with its begins too, and its variables begin there; or an offset of it is
/// too large, where no begins are given.
fn expect_begins(rt: &impl Abort, header: Header, len: u64, begins: Option<&[u64]>) {
    assert!(rt; header.sound() && header_len(&header) == len);
    match with_begins(header) {
        Ok(header) => {
            let begins = begins.unwrap_or(&[]);
            assert!(rt; header_len(&header) == len && are_begins(header.vars.as_slice(), begins));
        }
        Err(OffsetTooLarge) => assert!(rt; begins.is_none(), "of {len} bytes"),
    }
}

/// A version, dimensions and variables, and the length and the begins of their header, unless an offset is too large.
type Begun = (
    Version,
    &'static [NamedLength<'static>],
    &'static [NamedShape<'static>],
    u64,
    Option<&'static [u64]>,
);

#[test]
fn variables_begin_after_each_other(rt: HostRuntime) -> Result<(), Fail> {
    const BYTE: NamedShape<'static> = ("b", &[0], NcType::Byte, 0);
    const SHORT: NamedShape<'static> = ("s", &[0], NcType::Short, 0);
    const RECORDS: &[NamedShape<'static>] = &[
        ("a", &[0], NcType::Int, 0),
        ("b", &[0, 1, 2], NcType::Int, 0),
        ("c", &[], NcType::Int, 0),
    ];
    const DIMS: &[NamedLength<'static>] = &[("t", 0), ("y", 2), ("x", 2)];
    const T: &[NamedLength<'static>] = &[("t", 0)];
    const ALONE: &[NamedShape<'static>] = &[BYTE];
    const BOTH: &[NamedShape<'static>] = &[BYTE, SHORT];
    const TWO: &[NamedShape<'static>] = &[BYTE, BYTE];
    const TOO_LONG: &[NamedLength<'static>] = &[("x", 2147483647)];
    const AT_LIMIT: &[NamedLength<'static>] = &[("x", 2147483532)];
    const BELOW: &[NamedLength<'static>] = &[("x", 2147483528)];
    static ROWS: &[Begun] = &[
        // records begin after the other variables
        (Cdf1, DIMS, RECORDS, 180, Some(&[184, 188, 180])),
        // narrow records are padded in company
        (Cdf1, T, ALONE, 80, Some(&[80])),
        (Cdf1, T, BOTH, 116, Some(&[116, 120])),
        // offsets have a limit
        (Cdf1, TOO_LONG, TWO, 116, None),
        (Cdf2, TOO_LONG, TWO, 124, Some(&[124, 2147483772])),
        (Cdf1, AT_LIMIT, TWO, 116, None),
        (Cdf1, BELOW, TWO, 116, Some(&[116, 2147483644])),
    ];
    for (version, dims, vars, len, begins) in ROWS {
        let row = HeaderRow {
            version: *version,
            dims: *dims,
            vars: *vars,
            ..EMPTY
        };
        let header = header_of(rt.alloc(), &row)?;
        expect_begins(&rt, header, *len, *begins);
    }
    Ok(())
}
