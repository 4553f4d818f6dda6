//! Whole runs on files in memory: what the words of the command line ask for, what is written to which path, and which line is printed.

use crate::rows::{REFUSED, SHORTS};
use devices::{CountedRead, MadeFile, MadeFiles, MemFile, MemFiles, SliceSink};
use nc_base::Version;
use ncgen::{command, options_of, run_with};
use std::alloc::{AllocError, Global};
use std::process::Abort;
use std::test::*;
use test_files::parts_of;

/// A text, the same at a path that begins with a dash, and one that is refused.
const TEXTS: [MemFile<'static>; 3] = [
    MemFile {
        path: "d/f.cdl",
        bytes: SHORTS,
    },
    MemFile {
        path: "-x",
        bytes: SHORTS,
    },
    MemFile {
        path: "bad.cdl",
        bytes: REFUSED,
    },
];

/// These texts, and a text on standard input.
const GIVEN: (&[MemFile<'static>], &[u8]) = (&TEXTS, SHORTS);

/// Fails unless a run on these words, texts and standard input ends with this line on standard error, and the path is given these bytes,
/// or no path any. A run without a line succeeds.
fn ends(
    rt: &impl Abort,
    alloc: Global,
    words: &[&str],
    (texts, input): (&[MemFile<'_>], &[u8]),
    line: &[u8],
    made: Option<(&str, &[u8])>,
) {
    let mut texts = MemFiles::new(texts);
    let mut outputs = MadeFiles::new(alloc);
    let mut input = CountedRead::new(input);
    let mut space = [0; 128];
    let mut err = SliceSink::new(&mut space, 5);
    let status = run_with(&mut texts, &mut outputs, alloc, words, &mut input, &mut err);
    assert!(rt; status == !line.is_empty() as u8, "{words:?}");
    assert!(rt; err.taken() == line, "the line of {words:?}");
    assert!(rt; hold(&outputs, made), "the file of {words:?}");
}

/// Returns true if the path was given nothing and then these bytes, and no other path anything.
fn hold(outputs: &MadeFiles, made: Option<(&str, &[u8])>) -> bool {
    match (outputs.given(), made) {
        ([created, closed], Some((path, bytes))) => {
            is_file(created, path, b"") && is_file(closed, path, bytes)
        }
        (given, made) => given.is_empty() && made.is_none(),
    }
}

/// Returns true if the path was given these bytes.
fn is_file(made: &MadeFile, path: &str, bytes: &[u8]) -> bool {
    made.path() == path && made.bytes() == bytes
}

/// The file of the text in this version.
fn file_in(version: Version) -> &'static [u8] {
    match version {
        Version::Cdf1 => test_files::ONE_VARIABLE,
        Version::Cdf2 => test_files::ONE_VARIABLE_CDF2,
        Version::Cdf5 => test_files::ONE_VARIABLE_CDF5,
    }
}

/// Words, and the path and the version of the file that they ask for.
static FILES: &[(&str, &str, Version)] = &[
    ("ncgen -b d/f.cdl", "f.nc", Version::Cdf1),
    ("ncgen -b -o x d/f.cdl", "x", Version::Cdf1),
    ("ncgen d/f.cdl -ox", "x", Version::Cdf1),
    ("ncgen -o x", "x", Version::Cdf1),
    ("ncgen -bo x", "x", Version::Cdf1),
    ("ncgen -b -- -x", "-x.nc", Version::Cdf1),
    // the output takes the place of the text
    ("ncgen -o d/f.cdl d/f.cdl", "d/f.cdl", Version::Cdf1),
    ("ncgen -b -k classic d/f.cdl", "f.nc", Version::Cdf1),
    ("ncgen -b -k nc3 d/f.cdl", "f.nc", Version::Cdf1),
    ("ncgen -b -k nc6 d/f.cdl", "f.nc", Version::Cdf2),
    ("ncgen -b -k nc5 d/f.cdl", "f.nc", Version::Cdf5),
];

#[test]
fn words_choose_the_output_and_its_version(rt: HostRuntime) -> Result<(), AllocError> {
    for (text, path, version) in FILES {
        let words = parts_of(rt.alloc(), *text, ' ')?;
        let made = Some((*path, file_in(*version)));
        ends(&rt, rt.alloc(), words.as_slice(), GIVEN, b"", made);
    }
    Ok(())
}

/// Versions whose names have a space.
static SPACED: &[(&str, Version)] = &[
    ("64-bit offset", Version::Cdf2),
    ("64-bit data", Version::Cdf5),
];

#[test]
fn kinds_with_a_space(rt: HostRuntime) {
    for (kind, version) in SPACED {
        let words = ["ncgen", "-o", "x", "-k", *kind];
        let made = Some(("x", file_in(*version)));
        ends(&rt, rt.alloc(), &words, GIVEN, b"", made);
    }
}

/// The version of the format, the path of the output, and that of the text.
type Asked = (Version, Option<&'static str>, Option<&'static str>);

/// Returns true if the words ask for this.
fn ask_for(alloc: Global, words: &[&str], (kind, out, file): Asked) -> Result<bool, Fail> {
    let matches = command(alloc)?.try_get_matches_from(words)?;
    let options = options_of(alloc, &matches)?;
    Ok(options.kind == kind && is_path(&options.out, out) && is_path(&options.file, file))
}

/// Returns true if this path is given, or none.
fn is_path(path: &Option<String>, want: Option<&str>) -> bool {
    match (path, want) {
        (Some(path), Some(want)) => path.as_str() == want,
        (path, want) => path.is_none() && want.is_none(),
    }
}

#[test]
fn words_ask_for_options(rt: HostRuntime) -> Result<(), Fail> {
    static ROWS: &[(&[&str], Asked)] = &[
        (
            &["ncgen", "-b", "-k", "nc6", "d/f.cdl"],
            (Version::Cdf2, Some("f.nc"), Some("d/f.cdl")),
        ),
        (&["ncgen", "-o", "x"], (Version::Cdf1, Some("x"), None)),
        (&["ncgen"], (Version::Cdf1, None, None)),
    ];
    for (words, asked) in ROWS {
        assert!(rt; ask_for(rt.alloc(), *words, *asked)?, "{words:?}");
    }
    Ok(())
}

/// How the program is used.
const USAGE: &[u8] = b"usage: ncgen [-b] [-o file] [-k kind] [file]\n";

/// A text that two variables of nearly 2^31 bytes are declared in.
const FAR: &[u8] = b"netcdf t { dimensions: x = 2147483647 ; variables: byte a(x), b(x) ; }";

/// One byte more than a text may have.
const TOO_LONG: usize = (1 << 28) + 1;

/// Words that are answered with the usage, a run a line.
const USAGE_FAULTS: &str = "ncgen -b
ncgen -k nc4 d/f.cdl
ncgen -k NC3 d/f.cdl
ncgen -k  d/f.cdl
ncgen -k
ncgen -b -b d/f.cdl
ncgen -o x -o x d/f.cdl
ncgen -k nc3 -k nc3 d/f.cdl
ncgen d/f.cdl d/f.cdl
ncgen --help
ncgen -V
ncgen -x d/f.cdl";

#[test]
fn other_words_have_the_usage(rt: HostRuntime) -> Result<(), AllocError> {
    for text in USAGE_FAULTS.split('\n') {
        let words = parts_of(rt.alloc(), text, ' ')?;
        ends(&rt, rt.alloc(), words.as_slice(), GIVEN, USAGE, None);
    }
    // no memory is lacking where there are many words
    let many = Vec::from_elem(rt.alloc(), "d/f.cdl", 100)?;
    ends(&rt, rt.alloc(), many.as_slice(), GIVEN, USAGE, None);
    Ok(())
}

/// Words, standard input, and the line; none where the text is only checked.
static LINES: &[(&str, &[u8], &[u8])] = &[
    ("ncgen", SHORTS, b""),
    ("ncgen d/f.cdl", b"", b""),
    (
        "ncgen -b bad.cdl",
        b"",
        b"ncgen: bad.cdl: line 5: number out of range\n",
    ),
    (
        "ncgen -o x",
        REFUSED,
        b"ncgen: -: line 5: number out of range\n",
    ),
    ("ncgen", b"", b"ncgen: -: line 1: syntax\n"),
    ("ncgen no.cdl", SHORTS, b"ncgen: no.cdl: cannot open\n"),
    ("ncgen -o x", FAR, b"ncgen: -: offset too large\n"),
    ("ncgen", FAR, b"ncgen: -: offset too large\n"),
    (
        "ncgen long.cdl",
        b"",
        b"ncgen: long.cdl: CDL text too long\n",
    ),
];

#[test]
fn runs_without_an_output(rt: HostRuntime) -> Result<(), AllocError> {
    let long = Vec::from_elem(rt.alloc(), b' ', TOO_LONG)?;
    let [good, _, bad] = TEXTS;
    let texts = [
        good,
        bad,
        MemFile {
            path: "long.cdl",
            bytes: long.as_slice(),
        },
    ];
    for (text, input, line) in LINES {
        let words = parts_of(rt.alloc(), *text, ' ')?;
        let given = (texts.as_slice(), *input);
        ends(&rt, rt.alloc(), words.as_slice(), given, *line, None);
    }
    Ok(())
}
