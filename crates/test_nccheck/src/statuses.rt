//! Runs over several files, with options and trouble.

use crate::runs::{Input, ROOM, Run, UNREAD, ends};
use devices::{CountedRead, IoSink, MemFile, MemFiles, OpenFailed, SliceSink};
use nccheck::run_with;
use std::alloc::{AllocError, Global};
use std::io;
use std::io::{ErrorKind, Write};
use std::process::Abort;
use test_files::{
    CLEAN, COORDINATES, Refusing, TWO_RECORDS, char_bytes, file_of, parts_of, patched,
};

/// How the program is used.
const USAGE: &str = "usage: nccheck [-q] [-s] [-j] [-0] [-l level] [-i kinds] [file ...]
       nccheck -p [-0] [-l level] [-i kinds] [file ...]
       nccheck -k [-0] [file ...]
";

/// The usage, with a line an option.
const HELP: &[u8] = b"usage: nccheck [-q] [-s] [-j] [-0] [-l level] [-i kinds] [file ...]\n       \
    nccheck -p [-0] [-l level] [-i kinds] [file ...]\n       nccheck -k [-0] [file ...]\n  \
    -q        write no findings\n  \
    -s        count the files in a last line\n  \
    -j        write findings as JSON objects, one a line\n  \
    -p        write the paths of files with findings instead, each ended by a NUL\n  \
    -k        write the format of each file instead: nc3, nc6 or nc5\n  \
    -0        also check the files that standard input lists, each path ended by a NUL\n  \
    -l level  report what is at least as grave: error, violation (the default) or note\n  \
    -i kinds  ignore findings of these kinds (a comma-separated list)\n  \
    -V        print the version\n  \
    -h        print this help\nnccheck(1), its manual page, lists the kinds.\n";

/// Runs over a clean file, `clean`, one with an error, `text`, one with a violation, `names`, and one with a note, `records`: blocks with
/// an empty line between two. A block has the status and the words of a run; after the marks `>` and `!` the lines that it writes to
/// standard output and to standard error; after `<` what standard input has, with `^` for a NUL, and `%` for a read that fails at last; and
/// after `=` how many bytes of its lines standard output takes.
const RUNS: &str = r#"
0 nccheck clean records

1 nccheck names clean
>names:84: violation: duplicate-name: var[1] "x" name: found the name of number 0

1 nccheck names -q

0 nccheck -l error names

2 nccheck none names
>names:84: violation: duplicate-name: var[1] "x" name: found the name of number 0
!nccheck: none: cannot open: no such file

1 nccheck names\
>names\\:84: violation: duplicate-name: var[1] "x" name: found the name of number 0

2 nccheck -s clean names none records
>names:84: violation: duplicate-name: var[1] "x" name: found the name of number 0
>3 checked: 0 with errors, 1 with violations, 0 with notes, 2 with nothing to report; 0 of other formats; 1 not checked
!nccheck: none: cannot open: no such file

1 nccheck -qs -l note records text records
>3 checked: 1 with errors, 0 with violations, 2 with notes, 0 with nothing to report; 0 of other formats; 0 not checked

0 nccheck -sql error names clean
>2 checked: 0 with errors, 0 with violations, 0 with notes, 2 with nothing to report; 0 of other formats; 0 not checked

0 nccheck -i duplicate-name names

1 nccheck -i vsize,duplicate-name,gap -s names clean text
>text:0: error: not-netcdf: magic: found 0x6e6574, expected 0x434446
>3 checked: 1 with errors, 0 with violations, 0 with notes, 2 with nothing to report; 0 of other formats; 0 not checked

# an HDF5 file that is cut has an error, though HDF5 files are ignored
1 nccheck -s -i hdf5 hdf5 cut
>cut:8: error: hdf5-truncated: data: found 8 bytes, expected at least 48
>1 checked: 1 with errors, 0 with violations, 0 with notes, 0 with nothing to report; 1 of other formats; 0 not checked

# files of other formats, by their first bytes
0 nccheck -s -i hdf5,gzip hdf5 clean gzip
>1 checked: 0 with errors, 0 with violations, 0 with notes, 1 with nothing to report; 2 of other formats; 0 not checked

1 nccheck -s -i gzip hdf5 clean gzip
>hdf5:0: error: hdf5: magic: found 0x894844460d0a1a0a
>2 checked: 1 with errors, 0 with violations, 0 with notes, 1 with nothing to report; 1 of other formats; 0 not checked

# objects in place of lines
2 nccheck -j -s text clean names none
>{"file":"text","offset":0,"severity":"error","kind":"not-netcdf","path":"magic","found":"0x6e6574","expected":"0x434446"}
>{"file":"names","offset":84,"severity":"violation","kind":"duplicate-name","path":"var[1] \"x\" name","found":"the name of number 0"}
>{"checked":3,"errors":1,"violations":1,"notes":0,"nothing_to_report":1,"other_formats":0,"not_checked":1}
!nccheck: none: cannot open: no such file

1 nccheck -jqs -l note -i hdf5 records hdf5 hdf5
>{"checked":1,"errors":0,"violations":0,"notes":1,"nothing_to_report":0,"other_formats":2,"not_checked":0}

# the formats of files
0 nccheck -k clean six five
>nc3
>nc6
>nc5

2 nccheck -k text clean four short none gzip six
>nc3
>nc6
!nccheck: text: not a netCDF classic file
!nccheck: four: not a netCDF classic file
!nccheck: short: not a netCDF classic file
!nccheck: none: cannot open: no such file
!nccheck: gzip: not a netCDF classic file

2 nccheck -k clean six five
=5
>nc3
>nc6
!nccheck: six: write failed

0 nccheck -V
>nccheck 0.4.0

0 nccheck -x none --version -h
>nccheck 0.4.0

2 nccheck -- -V -h
!nccheck: -V: cannot open: no such file
!nccheck: -h: cannot open: no such file

# a run ends if standard output fails, and the files aren't counted
2 nccheck -q -s clean
=9
>1 checked
!nccheck: write failed

2 nccheck -V
=9
>nccheck 0
!nccheck: write failed

2 nccheck -s names none
=9
>names:84:
!nccheck: names: write failed
"#;

/// Runs over lists of paths.
const LISTS: &str = r#"
0 nccheck -0
<

1 nccheck -0
<clean^names^
>names:84: violation: duplicate-name: var[1] "x" name: found the name of number 0

1 nccheck -0
<clean^names
>names:84: violation: duplicate-name: var[1] "x" name: found the name of number 0

# the words come first, and a file that is named twice counts twice
2 nccheck names -0s none
<clean^records^clean
>names:84: violation: duplicate-name: var[1] "x" name: found the name of number 0
>4 checked: 0 with errors, 1 with violations, 0 with notes, 3 with nothing to report; 0 of other formats; 1 not checked
!nccheck: none: cannot open: no such file

# paths that can't be opened
2 nccheck -0
<café.nc^^names^
>names:84: violation: duplicate-name: var[1] "x" name: found the name of number 0
!nccheck: caf\351.nc: cannot open: the path is not UTF-8
!nccheck: : cannot open: the path is empty

# a list that can't be read on
2 nccheck -0 -q -s
<names^clean%
>1 checked: 0 with errors, 1 with violations, 0 with notes, 0 with nothing to report; 0 of other formats; 1 not checked
!nccheck: -: read failed

# a run that has ended
2 nccheck -0
=9
<names^none^%
>names:84:
!nccheck: names: write failed
"#;

/// Words that are misused, a run a line: how, and the words.
const MISUSES: &str = r"no file|nccheck
no file|nccheck -qs
no level worst|nccheck -l worst clean
no level q|nccheck -lq clean
no level a\\b|nccheck -l a\b clean
-q is given twice|nccheck -q -q clean
-s is given twice|nccheck -qs -s -- clean
-i is given twice|nccheck -i gap -i vsize names
-l is given twice|nccheck -lnote clean -qlnote
no kind duplicate-nam|nccheck -i duplicate-nam,vsize names
no kind |nccheck -i duplicate-name, names
no kind |nccheck -i  names
no kind Gap|nccheck -i vsize,Gap names
no option --foo|nccheck clean --foo -q -q
no option -qx|nccheck -qx -l worst
no option -q=1|nccheck -q=1 clean
an option has no value|nccheck clean -l
an option has no value|-nccheck clean -l
-q is given twice|-- -q -q clean
an option has no value|nccheck -i -q clean
-p takes no -q, -s or -j beside it|nccheck -pq clean
-p takes no -q, -s or -j beside it|nccheck -s -p clean
-p takes no -q, -s or -j beside it|nccheck -j -l worst -p
-k takes no option but -0 beside it|nccheck -kq clean
-k takes no option but -0 beside it|nccheck -k -l worst clean
-k takes no option but -0 beside it|nccheck -i gap -k clean
-k takes no option but -0 beside it|nccheck -k -s
-k takes no option but -0 beside it|nccheck -jk clean
-k takes no option but -0 beside it|nccheck -kp clean";

/// Other runs.
static OTHERS: &[Run<'_>] = &[
    (&["nccheck", "-h"], ROOM, 0, HELP, b""),
    (&["nccheck", "--help"], ROOM, 0, HELP, b""),
    (&["nccheck", "-q", "-q", "-h", "-V"], ROOM, 0, HELP, b""),
    (
        &["nccheck", "-p", "clean", "names", "none", "records", "text"],
        ROOM,
        2,
        b"names\0text\0",
        b"nccheck: none: cannot open: no such file\n",
    ),
    (
        &["nccheck", "-pl", "error", "names", "text"],
        ROOM,
        1,
        b"text\0",
        b"",
    ),
    (
        &["nccheck", "-p", "-i", "duplicate-name", "names", "clean"],
        ROOM,
        0,
        b"",
        b"",
    ),
    (
        &["nccheck", "-p", "names"],
        5,
        2,
        b"names",
        b"nccheck: names: write failed\n",
    ),
    // a path with control characters and backslashes, which are escaped, and with quotes and letters, which are not
    (
        &["nccheck", "a\t\n\x01\x7f\\\"'\u{e9}"],
        ROOM,
        2,
        b"",
        b"nccheck: a\\t\\n\\001\\177\\\\\"'\xc3\xa9: cannot open: no such file\n",
    ),
];

/// Returns true if the run over these files ends as wanted.
fn ends_over(alloc: Global, files: &[MemFile<'_>], run: &Run<'_>, input: Input<'_>) -> bool {
    ends(alloc, &mut MemFiles::new(&*files), run, input)
}

/// The lines of a block after this mark, each with a line feed.
fn marked(alloc: Global, block: &str, mark: char) -> Result<String, AllocError> {
    let mut text = String::new(alloc);
    for line in block.split('\n') {
        if let Some(line) = line.strip_prefix(mark) {
            text.push_str(line)?;
            text.push('\n')?;
        }
    }
    Ok(text)
}

/// The bytes that a line of a block says of standard input.
fn input_bytes(alloc: Global, line: &str) -> Result<Vec<u8>, AllocError> {
    let mut bytes = char_bytes(alloc, line.trim_end_matches('%'))?;
    for byte in bytes.as_mut_slice() {
        if *byte == b'\n' {
            *byte = 0;
        }
    }
    Ok(bytes)
}

/// The first line of a block that begins with this mark, after it, or otherwise this text.
fn said_after<'a>(block: &'a str, mark: char, otherwise: &'a str) -> &'a str {
    for line in block.split('\n') {
        if let Some(said) = line.strip_prefix(mark) {
            return said;
        }
    }
    otherwise
}

/// The status and the words of a block: its first line that begins with a number.
fn status_and_words(block: &str) -> (u8, &str) {
    for line in block.split('\n') {
        if let Some((number, words)) = line.split_once(' ') {
            if let Ok(status) = number.parse() {
                return (status, words);
            }
        }
    }
    (9, "")
}

/// Returns true if the run of this block ends as the block says.
fn ends_so(alloc: Global, files: &[MemFile<'_>], block: &str) -> Result<bool, AllocError> {
    let (status, words) = status_and_words(block);
    let room = said_after(block, '=', "").parse().unwrap_or(ROOM);
    let listed = said_after(block, '<', "names^");
    let (words, bytes) = (parts_of(alloc, words, ' ')?, input_bytes(alloc, listed)?);
    let (lines, trouble) = (marked(alloc, block, '>')?, marked(alloc, block, '!')?);
    let (lines, trouble) = (lines.as_bytes(), trouble.as_bytes());
    let run = (words.as_slice(), room, status, lines, trouble);
    let (bytes, fails) = (bytes.as_slice(), listed.ends_with('%'));
    Ok(ends_over(alloc, files, &run, Input { bytes, fails }))
}

/// Returns true if these words are refused as misused in this way, with the usage.
fn ends_misused(
    alloc: Global,
    files: &[MemFile<'_>],
    how: &str,
    words: &str,
) -> Result<bool, AllocError> {
    let words = parts_of(alloc, words, ' ')?;
    let mut trouble = String::new(alloc);
    for part in ["nccheck: ", how, "\n", USAGE] {
        trouble.push_str(part)?;
    }
    let run = (
        words.as_slice(),
        ROOM,
        2,
        b"".as_slice(),
        trouble.as_bytes(),
    );
    Ok(ends_over(alloc, files, &run, UNREAD))
}

/// Fails unless the run of each block of this table ends as the block says.
fn expect_blocks(
    rt: &impl Abort,
    alloc: Global,
    files: &[MemFile<'_>],
    table: &str,
) -> Result<(), AllocError> {
    for block in table.split("\n\n") {
        assert!(rt; ends_so(alloc, files, block)?, "{block}");
    }
    Ok(())
}

/// Fails unless the words of each row are refused as misused so.
fn expect_misuses(rt: &impl Abort, alloc: Global, files: &[MemFile<'_>]) -> Result<(), AllocError> {
    for row in MISUSES.split('\n') {
        let (how, words) = row.split_once('|').unwrap_or(("", row));
        assert!(rt; ends_misused(alloc, files, how, words)?, "{row}");
    }
    Ok(())
}

/// Fails unless the other runs end as they have to.
fn expect_others(rt: &impl Abort, alloc: Global, files: &[MemFile<'_>]) {
    for run in OTHERS {
        let is_right = ends_over(alloc, files, run, UNREAD);
        assert!(rt; is_right, "{:?}", run.0);
    }
}

/// A file of these bytes at this path.
fn file<'a>(path: &'a str, bytes: &'a [u8]) -> MemFile<'a> {
    MemFile { path, bytes }
}

#[test]
fn runs_end_with_their_status(rt: HostRuntime) -> Result<(), AllocError> {
    let equal_names = patched(rt.alloc(), COORDINATES, 84, b"x")?;
    let names = equal_names.as_slice();
    let hdf5 = file_of(rt.alloc(), "0=894844460d0a1a0a0208 28=30 ..48")?;
    let files = [
        file("clean", CLEAN),
        file("text", b"netcdf t {\n}\n"),
        file("hdf5", hdf5.as_slice()),
        file("cut", b"\x89HDF\r\n\x1a\n"),
        file("gzip", b"\x1f\x8b"),
        file("six", b"CDF\x02"),
        file("five", b"CDF\x05\0\0"),
        file("four", b"CDF\x04\0\0\0\0"),
        file("short", b"CDF"),
        file("names", names),
        file("names\\", names),
        file("records", TWO_RECORDS),
    ];
    expect_blocks(&rt, rt.alloc(), &files, RUNS)?;
    expect_blocks(&rt, rt.alloc(), &files, LISTS)?;
    expect_misuses(&rt, rt.alloc(), &files)?;
    expect_others(&rt, rt.alloc(), &files);
    Ok(())
}

/// Standard output of which each write and each flush fails.
#[derive(Drop)]
struct Broken;

impl Write for Broken {
    fn write(&mut self, _bytes: &[u8]) -> io::Result<usize> {
        Err(ErrorKind::Other.into())
    }

    fn flush(&mut self) -> io::Result<()> {
        Err(ErrorKind::Other.into())
    }
}

/// Runs with a broken standard output, a run a line: the words, and what standard error gets.
const UNWRITTEN: &str = "nccheck -V|nccheck: write failed
nccheck -q -s names|nccheck: write failed
nccheck clean|nccheck: write failed
nccheck -s names clean|nccheck: names: write failed";

/// Returns true if a run with these words and a broken standard output says this alone, and has the status 2.
fn tells_alone(alloc: Global, files: &[MemFile<'_>], words: &[&str], said: &str) -> bool {
    let mut space = [0; 64];
    let mut err = SliceSink::new(&mut space, 5);
    let mut out = IoSink::new(Broken);
    let mut input = CountedRead::new(b"".as_slice());
    let mut files = MemFiles::new(&*files);
    let status = run_with(&mut files, alloc, words, &mut input, &mut out, &mut err);
    status == 2 && err.taken().strip_suffix(b"\n") == Some(said.as_bytes())
}

/// A failure of standard output is told once, though the last flush fails too.
#[test]
fn failed_output_is_told_once(rt: HostRuntime) -> Result<(), AllocError> {
    let equal_names = patched(rt.alloc(), COORDINATES, 84, b"x")?;
    let files = [file("clean", CLEAN), file("names", equal_names.as_slice())];
    for row in UNWRITTEN.split('\n') {
        let (words, said) = row.split_once('|').unwrap_or((row, ""));
        let words = parts_of(rt.alloc(), words, ' ')?;
        assert!(rt;
            tells_alone(rt.alloc(), &files, words.as_slice(), said),
            "{row}"
        );
    }
    Ok(())
}

/// Returns true if a run over a file that can't be opened for this reason says so, after it has tried once.
fn is_told(alloc: Global, why: OpenFailed, line: &[u8]) -> bool {
    let mut files = Refusing::new(why);
    let words = ["nccheck", "f"];
    let run = (words.as_slice(), ROOM, 2, b"".as_slice(), line);
    ends(alloc, &mut files, &run, UNREAD) && files.opens() == 1
}

/// A file that can't be opened has a line with the reason that its opener gave.
#[test]
fn file_that_is_refused_has_its_reason(rt: HostRuntime) {
    static ROWS: &[(OpenFailed, &[u8])] = &[
        (
            OpenFailed::NotFound,
            b"nccheck: f: cannot open: no such file\n",
        ),
        (
            OpenFailed::PermissionDenied,
            b"nccheck: f: cannot open: permission denied\n",
        ),
        (
            OpenFailed::NotRegular,
            b"nccheck: f: cannot open: not a regular file\n",
        ),
        (OpenFailed::Other, b"nccheck: f: cannot open\n"),
    ];
    for (why, line) in ROWS {
        assert!(rt; is_told(rt.alloc(), *why, *line), "{why:?}");
    }
}
