//! Texts that are read, and the files that they give.

use cdl_parse::{CdlFault, CdlKind, declared, parse};
use devices::{CountedRead, SliceSink};
use nc_base::Version;
use ncgen::{GenFault, TextFault, generate, prepare, read_text};
use std::alloc::{AllocError, Global};
use std::io::Read;
use std::process::Abort;
use std::test::*;

/// The answer where an allocation failed.
const OUT_OF_MEMORY: CdlFault = CdlFault {
    line: 0,
    kind: CdlKind::OutOfMemory,
};

/// A text of one variable of three values. One of them is left to be filled.
const ONE_VARIABLE: &[u8] =
    b"netcdf t {\ndimensions:\n x = 3 ;\nvariables:\n short s(x) ;\ndata:\n s = 1, _, 3 ;\n}\n";

/// A text of one variable of forty values: more than memory is taken for at first.
const FORTY_SHORTS: &[u8] =
    b"netcdf t {\ndimensions: x = 40 ;\nvariables: short s(x) ;\ndata: s =\n\
    1, 2, 3, 4, 5, 6, 7, 8, 9, 10, 11, 12, 13, 14, 15, 16, 17, 18, 19, 20,\n\
    21, 22, 23, 24, 25, 26, 27, 28, 29, 30, 31, 32, 33, 34, 35, 36, 37, 38, 39, 40 ;\n}\n";

/// Two record variables, one of them of rank three, and a scalar after them, whose value comes before theirs.
const RANK_THREE: &[u8] = b"netcdf t {\n\
    dimensions: t = UNLIMITED, y = 2, x = 2 ;\nvariables: int a(t) ; int b(t, y, x) ; int c ;\n\
    data: a = 10, 20 ; b = 1, 2, 3, 4, 5, 6, 7, 8 ; c = 7 ;\n}\n";

/// Two record variables whose slabs are padded.
const PADDED_RECORDS: &[u8] = b"netcdf t {\ndimensions: t = UNLIMITED ;\n\
    variables: byte b(t) ; short s(t) ;\ndata: b = 1, 2, 3 ; s = 4, 5, 6 ;\n}\n";

/// Names with escapes, and attributes of the dataset and of a variable.
const NAMES_AND_ATTRIBUTES: &[u8] =
    b"netcdf t {\n:title = \"a\", \"\\x62\", \"c\" ;\nvariables:\n int \\data ; \\data:units = \"m\" ;\n\
    \\data:range = 1b, 2b, 3b ; short \\2\\ b ; :last = -1s ;\ndata:\n \\data = 5 ; \\2\\ b = 6 ;\n}\n";

/// Rows of characters over records.
const ROWS_OF_CHARACTERS: &[u8] = b"netcdf t {\ndimensions: t = UNLIMITED, y = 2, x = 3 ;\n\
    variables: char a(t), b(t, x), c(t, y, x), d(t, x) ; b:_FillValue = \"-\" ;\n\
    data: b = \"ab\" ; a = \"pq\", \"\", \"r\" ; c = \"\", \"uvw\", \"x\" ;\n}\n";

/// Types that only CDF-5 has.
const NUMBERS_OF_CDF5: &[u8] = b"netcdf t {\ndimensions: t = UNLIMITED, x = 3 ;\n\
    variables: int64 a(t, x) ; ubyte b, c(x) ; uint64 d ; a:valid = 1ull, 2ull ; c:_FillValue = 9ub ;\n\
    data: a = 1, 2, 3, 4 ; c = _, 0xff ;\n}\n";

/// Texts that give a file.
static TEXTS: &[(Version, &[u8])] = &[
    (Version::Cdf1, ONE_VARIABLE),
    (Version::Cdf5, ONE_VARIABLE),
    (Version::Cdf1, FORTY_SHORTS),
    (Version::Cdf1, RANK_THREE),
    (Version::Cdf1, PADDED_RECORDS),
    (Version::Cdf2, NAMES_AND_ATTRIBUTES),
    (Version::Cdf1, ROWS_OF_CHARACTERS),
    (Version::Cdf5, NUMBERS_OF_CDF5),
];

/// Texts with a fault in the last statement, and with an array that is too large, and their faults.
static FAULTY: &[(&[u8], CdlFault)] = &[
    (
        b"netcdf t {\n:a = 1 ;\ndimensions: x = 3, y = 2 ;\nvariables: short s(x), r(y) ; s:u = \"m\" ;\n\
        data: r = 4 ;\ns = 1, 2 ;\nr = 5 ;\n}\n",
        CdlFault {
            line: 7,
            kind: CdlKind::DuplicateData,
        },
    ),
    (
        b"netcdf t {\ndimensions: x = 2147483647 ;\nvariables: byte a, b(x, x) ;\ndata: a = 1 ;\n}",
        CdlFault {
            line: 5,
            kind: CdlKind::TooLarge,
        },
    ),
];

/// Fails if the outcome is a fault, unless that is this one, or memory that is refused.
fn ends<T: Drop>(
    rt: &impl Abort,
    outcome: Result<T, CdlFault>,
    want: Option<CdlFault>,
) -> Result<(), AllocError> {
    let fault = outcome.err();
    if fault == Some(OUT_OF_MEMORY) {
        return Err(AllocError);
    }
    assert!(rt; fault == want);
    Ok(())
}

#[test]
fn texts_are_read(rt: HostRuntime) -> Result<(), AllocError> {
    for (version, text) in TEXTS {
        ends(&rt, parse(rt.alloc(), *text, *version), None)?;
    }
    Ok(())
}

#[test]
fn texts_are_declared(rt: HostRuntime) -> Result<(), AllocError> {
    for (version, text) in TEXTS {
        ends(&rt, declared(rt.alloc(), *text, *version), None)?;
    }
    Ok(())
}

#[test]
fn texts_are_refused(rt: HostRuntime) -> Result<(), AllocError> {
    for (text, fault) in FAULTY {
        ends(&rt, parse(rt.alloc(), *text, Version::Cdf1), Some(*fault))?;
    }
    Ok(())
}

/// Fails unless the answer is success, or memory that is refused.
fn succeeds(rt: &impl Abort, answer: Result<(), GenFault>) -> Result<(), AllocError> {
    if answer == Err(GenFault::Cdl(OUT_OF_MEMORY)) {
        return Err(AllocError);
    }
    assert!(rt; answer.is_ok());
    Ok(())
}

/// Generates the text into a slice. If memory is refused, nothing is written.
fn generates(
    rt: &impl Abort,
    alloc: Global,
    version: Version,
    text: &[u8],
) -> Result<(), AllocError> {
    let mut into = [0; 512];
    let mut sink = SliceSink::new(&mut into, 7);
    let answer = generate(alloc, text, version, &mut sink);
    assert!(rt; answer.is_ok() || sink.taken().is_empty());
    succeeds(rt, answer)
}

#[test]
fn texts_are_generated(rt: HostRuntime) -> Result<(), AllocError> {
    for (version, text) in TEXTS {
        generates(&rt, rt.alloc(), *version, *text)?;
    }
    Ok(())
}

#[test]
fn texts_are_prepared(rt: HostRuntime) -> Result<(), AllocError> {
    for (version, text) in TEXTS {
        let answer = prepare(rt.alloc(), *text, *version);
        succeeds(&rt, answer.map(|_| ()))?;
    }
    Ok(())
}

#[test]
fn text_read_in_three_parts(rt: HostRuntime) -> Result<(), AllocError> {
    assert!(rt; ONE_VARIABLE.len() == 80);
    let (first, rest) = ONE_VARIABLE.split_at(11);
    let (second, third) = rest.split_at(50);
    let mut input = CountedRead::new(first.chain(second).chain(third));
    match read_text(rt.alloc(), &mut input, 1_000_000) {
        Ok(read) => assert!(rt; read.as_slice() == ONE_VARIABLE),
        Err(fault) => {
            assert!(rt; fault == TextFault::OutOfMemory);
            return Err(AllocError);
        }
    }
    Ok(())
}
