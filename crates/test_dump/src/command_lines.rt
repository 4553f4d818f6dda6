//! Runs of the program on a file in memory: what the words ask for, and what is answered.

use devices::OpenFailed::{NotFound, NotRegular, Other, PermissionDenied};
use devices::{MemFile, MemFiles, Opener, SliceSink};
use ncdump::{DumpOptions, command, options_of, run_with};
use std::alloc::{AllocError, Global};
use std::process::Abort;
use std::test::Fail;
use test_files::{
    COORDINATES, LARGE_SLAB, LONG_LINE, ONE_VARIABLE, Refusing, SMALLEST, TWO_RECORD_DIMS,
    UNSIGNED_FILLS, parts_of, patched,
};

/// A run of the program on these words, the first one its name, with a space between two. The only file is `t.nc`, which has these bytes.
/// Standard output and standard error fail after so many bytes. The run ends with this status, and writes this text to standard output and
/// this line to standard error.
#[derive(Clone, Copy)]
struct Run<'a> {
    bytes: &'a [u8],
    words: &'a str,
    room: (usize, usize),
    status: u8,
    text: &'a [u8],
    line: &'a [u8],
}

/// A run that writes a dump.
const WRITTEN: Run<'static> = Run {
    bytes: ONE_VARIABLE,
    words: "ncdump t.nc",
    room: (512, 128),
    status: 0,
    text: b"",
    line: b"",
};

/// A run that is refused.
const REFUSED: Run<'static> = Run {
    status: 1,
    ..WRITTEN
};

/// How the program is used.
const USAGE: &[u8] = b"usage: ncdump [-h] [-c] [-v names] [-n name] [-l width] file\n";

/// Returns true if the run over the files of this opener is so.
fn ends<P: Opener>(alloc: Global, files: &mut P, words: &[&str], run: &Run<'_>) -> bool {
    let (status, text, line) = (run.status, run.text, run.line);
    let (text_room, line_room) = run.room;
    let (mut text_space, mut line_space) = ([0; 512], [0; 128]);
    let mut out = SliceSink::new(&mut text_space[..text_room.min(512)], 7);
    let mut err = SliceSink::new(&mut line_space[..line_room.min(128)], 5);
    let ended = run_with(files, alloc, words, &mut out, &mut err);
    ended == status && out.taken() == text && err.taken() == line
}

/// Fails unless the run is so.
fn expect_run(rt: &impl Abort, alloc: Global, run: &Run<'_>) -> Result<(), AllocError> {
    let files = [MemFile {
        path: "t.nc",
        bytes: run.bytes,
    }];
    let words = parts_of(alloc, run.words, ' ')?;
    let is_right = ends(alloc, &mut MemFiles::new(&files), words.as_slice(), run);
    assert!(rt; is_right, "{}", run.words);
    Ok(())
}

/// Returns true if these are the same bytes.
fn is_same(bytes: &[u8], others: &[u8]) -> bool {
    bytes == others
}

/// The dump of three numbers in lines of 20 bytes, and in longer ones; without values, and its head.
const NARROW: &[u8] =
    b"netcdf other {\ndimensions:\n\tx = 3 ;\nvariables:\n\tint v(x) ;\ndata:\n\n v = 100, 200, \n    3000 ;\n}\n";

const WIDE: &[u8] =
    b"netcdf other {\ndimensions:\n\tx = 3 ;\nvariables:\n\tint v(x) ;\ndata:\n\n v = 100, 200, 3000 ;\n}\n";

const NO_VALUES: &[u8] =
    b"netcdf other {\ndimensions:\n\tx = 3 ;\nvariables:\n\tint v(x) ;\ndata:\n}\n";

const HEAD: &[u8] = b"netcdf t {\ndimensions:\n\tx = 3 ;\nvariables:\n\tint v(x) ;\n}\n";

/// The dump of two coordinate variables without their values, and its head.
const NO_COORDINATES: &[u8] =
    b"netcdf t {\ndimensions:\n\tx = 2 ;\nvariables:\n\tint x(x) ;\n\tint y(x) ;\ndata:\n}\n";

const COORDINATES_HEAD: &[u8] =
    b"netcdf t {\ndimensions:\n\tx = 2 ;\nvariables:\n\tint x(x) ;\n\tint y(x) ;\n}\n";

/// A file, words, and the text of the dump that they ask for.
static DUMPS: &[(&[u8], &str, &[u8])] = &[
    (LONG_LINE, "ncdump -n other t.nc", WIDE),
    (LONG_LINE, "ncdump -v v -n other -l 20 t.nc", NARROW),
    (LONG_LINE, "ncdump t.nc -vv -nother -l=20", NARROW),
    (
        LONG_LINE,
        "ncdump -c -n other -v v -l 20 -- t.nc",
        NO_VALUES,
    ),
    (LONG_LINE, "ncdump -nother -l0021 t.nc", WIDE),
    (LONG_LINE, "ncdump -nother -l1000 t.nc", WIDE),
    (
        LONG_LINE,
        "ncdump -nother -l 000000000000000000000000000000000000000020 t.nc",
        NARROW,
    ),
    (LONG_LINE, "ncdump -nother -v v,v -- t.nc", WIDE),
    (LONG_LINE, "ncdump -h t.nc", HEAD),
    (LONG_LINE, "ncdump t.nc -h", HEAD),
    (COORDINATES, "ncdump -c -v y t.nc", NO_COORDINATES),
    (COORDINATES, "ncdump t.nc -cv y", NO_COORDINATES),
    (COORDINATES, "ncdump -v x,y -n t -h t.nc", COORDINATES_HEAD),
];

#[test]
fn dumps_are_written(rt: HostRuntime) -> Result<(), AllocError> {
    for (bytes, words, text) in DUMPS {
        expect_text(&rt, rt.alloc(), *bytes, *words, *text)?;
    }
    Ok(())
}

/// Fails unless a run on a file of these bytes writes this text.
fn expect_text<'a>(
    rt: &impl Abort,
    alloc: Global,
    bytes: &'a [u8],
    words: &'a str,
    text: &'a [u8],
) -> Result<(), AllocError> {
    let run = Run {
        bytes,
        words,
        text,
        ..WRITTEN
    };
    expect_run(rt, alloc, &run)
}

/// Words that are answered with the usage, a run a line. The last has a word after ten that ask for a dump.
const USAGE_FAULTS: &str = "\
    ncdump\n\
    ncdump -h\n\
    ncdump -h -h t.nc\n\
    ncdump -hh t.nc\n\
    ncdump -c -h t.nc\n\
    ncdump -l 80 -l 80 t.nc\n\
    ncdump -n a -n b t.nc\n\
    ncdump t.nc -l\n\
    ncdump t.nc u.nc\n\
    ncdump --help\n\
    ncdump --version\n\
    ncdump --help t.nc\n\
    ncdump -V t.nc\n\
    ncdump -k t.nc\n\
    ncdump -v\n\
    ncdump -l 19 t.nc\n\
    ncdump -l 1001 t.nc\n\
    ncdump -l 20x t.nc\n\
    ncdump -l x20 t.nc\n\
    ncdump -l +20 t.nc\n\
    ncdump -l -20 t.nc\n\
    ncdump -l  t.nc\n\
    ncdump -l 2_0 t.nc\n\
    ncdump -l 18446744073709551696 t.nc\n\
    ncdump -c -v s -n other -l 20 -- t.nc -h";

/// The line of a name that no variable has.
const NO_SUCH_NAME: &[u8] = b"ncdump: t.nc: no such variable: item 1 of -v\n";

/// A file, words, and the line that the run ends with.
static FAULTS: &[(&[u8], &str, &[u8])] = &[
    (ONE_VARIABLE, "ncdump -v s,nope t.nc", NO_SUCH_NAME),
    (UNSIGNED_FILLS, "ncdump -v a,,b t.nc", NO_SUCH_NAME),
    (ONE_VARIABLE, "ncdump u.nc", b"ncdump: u.nc: cannot open\n"),
    (b"CDF", "ncdump t.nc", b"ncdump: t.nc: header truncated\n"),
    (
        TWO_RECORD_DIMS,
        "ncdump t.nc",
        b"ncdump: t.nc: two record dimensions\n",
    ),
    (LARGE_SLAB, "ncdump t.nc", b"ncdump: t.nc: too large\n"),
];

/// Standard output fails, and standard error.
static FAILING: &[Run<'static>] = &[
    Run {
        bytes: SMALLEST,
        room: (8, 128),
        text: b"netcdf t",
        line: b"ncdump: t.nc: write failed\n",
        ..REFUSED
    },
    Run {
        words: "ncdump",
        room: (512, 6),
        line: b"usage:",
        ..REFUSED
    },
];

/// Changes of the file with three shorts: an offset, the byte that stands there, and the line on the header.
static CHANGED: &[(usize, u8, &[u8])] = &[
    (0, b'D', b"ncdump: t.nc: not a netCDF classic file\n"),
    (3, 0x03, b"ncdump: t.nc: unknown version 3\n"),
    (3, 0x05, b"ncdump: t.nc: bad tag\n"),
    (3, 0x06, b"ncdump: t.nc: unknown version 6\n"),
    (4, 0x80, b"ncdump: t.nc: bad count\n"),
    (11, 0x0b, b"ncdump: t.nc: bad tag\n"),
    (11, 0, b"ncdump: t.nc: bad count\n"),
    (20, b'/', b"ncdump: t.nc: bad name\n"),
    (59, 0x01, b"ncdump: t.nc: bad shape\n"),
    (71, 0x05, b"ncdump: t.nc: floating type\n"),
    (71, 0x07, b"ncdump: t.nc: bad type\n"),
    (76, 0x80, b"ncdump: t.nc: bad offset\n"),
];

/// The same file, if it is cut before its second value.
const TRUNCATED: Run<'static> = Run {
    text: b"netcdf t {\ndimensions:\n\tx = 3 ;\nvariables:\n\tshort s(x) ;\ndata:\n\n s = 1",
    line: b"ncdump: t.nc: variable 0: data truncated at value 1\n",
    ..REFUSED
};

/// Fails unless a run on a file of these bytes ends with this line.
fn expect_line<'a>(
    rt: &impl Abort,
    alloc: Global,
    bytes: &'a [u8],
    words: &'a str,
    line: &'a [u8],
) -> Result<(), AllocError> {
    let run = Run {
        bytes,
        words,
        line,
        ..REFUSED
    };
    expect_run(rt, alloc, &run)
}

#[test]
fn other_words_have_the_usage(rt: HostRuntime) -> Result<(), AllocError> {
    for words in USAGE_FAULTS.split('\n') {
        expect_line(&rt, rt.alloc(), ONE_VARIABLE, words, USAGE)?;
    }
    Ok(())
}

#[test]
fn faults_have_their_lines(rt: HostRuntime) -> Result<(), AllocError> {
    for (bytes, words, line) in FAULTS {
        expect_line(&rt, rt.alloc(), *bytes, *words, *line)?;
    }
    Ok(())
}

#[test]
fn streams_that_fail(rt: HostRuntime) -> Result<(), AllocError> {
    for run in FAILING {
        expect_run(&rt, rt.alloc(), run)?;
    }
    Ok(())
}

#[test]
fn changed_headers_have_their_lines(rt: HostRuntime) -> Result<(), AllocError> {
    for (at, byte, line) in CHANGED {
        let file = patched(rt.alloc(), ONE_VARIABLE, *at, &[*byte])?;
        expect_line(&rt, rt.alloc(), file.as_slice(), "ncdump t.nc", *line)?;
    }
    Ok(())
}

#[test]
fn cut_file_has_its_line(rt: HostRuntime) -> Result<(), AllocError> {
    let bytes = &ONE_VARIABLE[..83];
    expect_run(&rt, rt.alloc(), &Run { bytes, ..TRUNCATED })
}

/// The line of a file that can't be opened.
const UNOPENED: Run<'static> = Run {
    line: b"ncdump: t.nc: cannot open\n",
    ..REFUSED
};

/// A file that can't be opened has its line, whatever the reason, and the opener is asked for it once.
#[test]
fn file_that_is_refused_has_its_line(rt: HostRuntime) {
    for why in [NotFound, PermissionDenied, NotRegular, Other] {
        let mut files = Refusing::new(why);
        let is_told = ends(rt.alloc(), &mut files, &["ncdump", "t.nc"], &UNOPENED);
        assert!(rt; is_told && files.opens() == 1, "{why:?}");
    }
}

/// With ample memory no command line is answered with out of memory, however many words or names of variables it has.
#[test]
fn long_command_lines(rt: HostRuntime) -> Result<(), AllocError> {
    let mut files = String::from_str(rt.alloc(), "ncdump t.nc")?;
    let mut names = String::from_str(rt.alloc(), "ncdump t.nc -nother -vv")?;
    for _ in 0..1100 {
        files.push_str(" t.nc")?;
        expect_line(&rt, rt.alloc(), ONE_VARIABLE, files.as_str(), USAGE)?;
        names.push_str(",v")?;
        expect_text(&rt, rt.alloc(), LONG_LINE, names.as_str(), WIDE)?;
    }
    Ok(())
}

/// Returns true if these names are chosen, or all if there are none.
fn are_chosen(options: &DumpOptions, names: &[&[u8]]) -> bool {
    match &options.chosen {
        Some(chosen) => chosen
            .as_slice()
            .iter()
            .map(|name| name.as_slice())
            .eq(names.iter().copied()),
        None => names.is_empty(),
    }
}

/// The options that a command line asks for.
fn options_of_line(alloc: Global, line: &str) -> Result<DumpOptions, Fail> {
    let words = parts_of(alloc, line, ' ')?;
    let matches = command(alloc)?.try_get_matches_from(words.as_slice())?;
    Ok(options_of(alloc, &matches)?)
}

#[test]
fn widths_and_names(rt: HostRuntime) -> Result<(), Fail> {
    // words, the width of lines, the name of the dataset, and those of variables
    static ROWS: &[(&str, usize, &[u8], &[&[u8]])] = &[
        ("ncdump -l 20 dir/a.b.nc", 20, b"a.b", &[]),
        ("ncdump -l 0080 dir/a.b.nc", 80, b"a.b", &[]),
        ("ncdump -l 1000 .nc", 1000, b".nc", &[]),
        ("ncdump dir/a.b.nc", 80, b"a.b", &[]),
        ("ncdump -n c.d.nc dir/a.b.nc", 80, b"c.d.nc", &[]),
        ("ncdump -v a,,b t.nc", 80, b"t", &[b"a", b"", b"b"]),
    ];
    for (words, width, name, chosen) in ROWS {
        let options = options_of_line(rt.alloc(), *words)?;
        let is_right = options.width == *width && is_same(options.name.as_slice(), *name);
        assert!(rt; is_right && are_chosen(&options, *chosen), "{words}");
    }
    Ok(())
}
