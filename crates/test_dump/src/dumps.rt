//! Dumps of whole files, and of files that are changed or cut, through buffers of every length.

use crate::dump_rows::{
    DumpRow, HELD_NULS, MANY_HELD_NULS, ONE_VARIABLE, ONE_VARIABLE_CDF5, PADDED_RECORDS,
    RECORD_BYTES, SELECTION, WHOLE, Want, expect_dump, is_dumped, is_dumped_in_steps, options_of,
    text_of,
};
use devices::{FailWhen, FileSource, Source};
use std::alloc::{AllocError, Global};
use std::fs;
use std::fs::File;
use std::process::Abort;
use std::rt::Files;
use std::test::Fail;
use test_files::{cells_of, char_bytes, file_of};

/// Files and their dumps, with all values and in lines of 80 bytes. A row of this text and of those below has the words of a file
/// (`file_of`), what is said of the dump (`say`), the words of the fault that it ends with, and its text, with `^` for a line feed and `~`
/// for a tab.
const WHOLE_FILES: &str = r#"
SMALLEST|||netcdf t {^}^
SMALLEST_CDF5|||netcdf t {^}^
TEXT_ATTRIBUTE|||netcdf t {^^// global attributes:^~~:note = "a\n",^~~~"b\n" ;^}^
TWO_RECORDS|||netcdf t {^dimensions:^~t = UNLIMITED ; // (2 currently)^}^
STREAMED_RECORDS|||netcdf t {^dimensions:^~t = UNLIMITED ; // (0 currently)^}^
NO_RECORDS|||netcdf t {^dimensions:^~t = UNLIMITED ; // (0 currently)^variables:^~int v(t) ;^data:^}^
RECORDS_OFF_BOUNDARY|||netcdf t {^dimensions:^~t = UNLIMITED ; // (3 currently)^~y = 3 ;^variables:^~short s(t, y) ;^data:^^ s =^  1, 2, 3,^  4, 5, 6,^  7, 8, 9 ;^}^
UNSIGNED_RECORDS|||netcdf t {^dimensions:^~t = UNLIMITED ; // (3 currently)^variables:^~ubyte b(t) ;^data:^^ b = 255, 254, 1 ;^}^
ESCAPED_NAMES|||netcdf t {^variables:^~int \data ;^~~\data:units = "m" ;^~short \2\ b ;^data:^^ \data = 5 ;^^ \2\ b = 6 ;^}^
LOW_BYTE|||netcdf t {^variables:^~byte b ;^data:^^ b = -127 ;^}^
FILL_OF_BYTES|||netcdf t {^variables:^~byte b ;^~~b:_FillValue = -127b ;^data:^^ b = _ ;^}^
UNSIGNED_FILLS|||netcdf t {^variables:^~ubyte a ;^~~a:_FillValue = 255UB ;^~uint64 b ;^~~b:r = 0ULL, 18446744073709551615ULL ;^data:^^ a = _ ;^^ b = _ ;^}^
ALL_NULS|||netcdf t {^dimensions:^~t = UNLIMITED ; // (2 currently)^variables:^~char c(t) ;^data:^^ c = "\000\000" ;^}^
ESCAPED_CHARACTERS|||netcdf t {^dimensions:^~x = 6 ;^variables:^~char c(x) ;^data:^^ c = "\t\"\\\177Ã©" ;^}^
ROWS_OF_NULS|||netcdf t {^dimensions:^~t = UNLIMITED ; // (2 currently)^~x = 3 ;^variables:^~char c(t, x) ;^data:^^ c =^  "a",^  "" ;^}^
ROWS_OF_NULS_AND_FILL|||netcdf t {^dimensions:^~t = UNLIMITED ; // (2 currently)^~x = 3 ;^variables:^~char c(t, x) ;^~~c:_FillValue = "x" ;^data:^^ c =^  "a\000\000",^  "\000\000\000" ;^}^
"#;

/// Dumps of the header alone, and of some of the variables.
const SELECTIONS: &str = r#"
# heads: of one variable, of escaped names, of a byte, and of a fill value of bytes
ONE_VARIABLE|head||netcdf t {^dimensions:^~x = 3 ;^variables:^~short s(x) ;^}^
ESCAPED_NAMES|head||netcdf t {^variables:^~int \data ;^~~\data:units = "m" ;^~short \2\ b ;^}^
LOW_BYTE|head||netcdf t {^variables:^~byte b ;^}^
FILL_OF_BYTES|head||netcdf t {^variables:^~byte b ;^~~b:_FillValue = -127b ;^}^
# a hostile count
HOSTILE_COUNT||header truncated|
# coordinate variables, also such that are not chosen, and no name is chosen
COORDINATES|coords||netcdf t {^dimensions:^~x = 2 ;^variables:^~int x(x) ;^~int y(x) ;^data:^^ x = 1, 2 ;^}^
COORDINATES|coords names=y||netcdf t {^dimensions:^~x = 2 ;^variables:^~int x(x) ;^~int y(x) ;^data:^}^
COORDINATES|names=||netcdf t {^dimensions:^~x = 2 ;^variables:^~int x(x) ;^~int y(x) ;^data:^}^
# an unknown name, also with the head alone
ONE_VARIABLE|names=s,nope|no such variable: item 1 of -v|
ONE_VARIABLE|head names=s,,s|no such variable: item 1 of -v|
"#;

/// Dumps that other tests have rows of.
static SHARED: &[DumpRow<'static>] = &[
    ONE_VARIABLE,
    ONE_VARIABLE_CDF5,
    RECORD_BYTES,
    PADDED_RECORDS,
    SELECTION,
    HELD_NULS,
    MANY_HELD_NULS,
];

/// Dumps of values, also in lines of 20 bytes.
const VALUES: &str = r#"
ONE_VARIABLE_CDF2|||netcdf t {^dimensions:^~x = 3 ;^variables:^~short s(x) ;^data:^^ s = 1, _, 3 ;^}^
THREE_VARIABLES|||netcdf t {^dimensions:^~t = UNLIMITED ; // (2 currently)^~y = 2 ;^~x = 2 ;^variables:^~int a(t) ;^~int b(t, y, x) ;^~int c ;^data:^^ a = 10, 20 ;^^ b =^  1, 2,^  3, 4,^  5, 6,^  7, 8 ;^^ c = 7 ;^}^
# a line of 20 bytes in full, two lines, and a row in two lines
SHORT_LINE|width=20||netcdf t {^dimensions:^~x = 3 ;^variables:^~int v(x) ;^data:^^ v = 100, 200, 300 ;^}^
LONG_LINE|width=20||netcdf t {^dimensions:^~x = 3 ;^variables:^~int v(x) ;^data:^^ v = 100, 200, ^    3000 ;^}^
LONG_ROW|width=20||netcdf t {^dimensions:^~y = 2 ;^~x = 3 ;^variables:^~short m(y, x) ;^data:^^ m =^  10000, 20000, ^    30000,^  1, 2, 3 ;^}^
"#;

/// Dumps of files that are changed where that is no fault, or the fault of a value, and of a source that fails.
const CHANGED: &str = r#"
# padding that is not 0, and a wrong vsize
ONE_VARIABLE 21=ff|||netcdf t {^dimensions:^~x = 3 ;^variables:^~short s(x) ;^data:^^ s = 1, _, 3 ;^}^
ONE_VARIABLE 72=ffffffff|||netcdf t {^dimensions:^~x = 3 ;^variables:^~short s(x) ;^data:^^ s = 1, _, 3 ;^}^
# streaming records
PADDED_RECORDS 4=ffffffff|len=139||netcdf t {^dimensions:^~t = UNLIMITED ; // (2 currently)^variables:^~byte b(t) ;^~short s(t) ;^data:^^ b = 1, 2 ;^^ s = 4, 5 ;^}^
# held back NULs before a missing value
HELD_NULS|len=83|variable 0: data truncated at value 3|netcdf t {^dimensions:^~x = 5 ;^variables:^~char c(x) ;^data:^^ c = "a
# a hostile number of records
RECORD_BYTES 4=7fffffff||variable 0: data truncated at value 3|netcdf t {^dimensions:^~t = UNLIMITED ; // (2147483647 currently)^variables:^~byte b(t) ;^data:^^ b = 1, 2, 3
# values in the header
ONE_VARIABLE 76=00000000|||netcdf t {^dimensions:^~x = 3 ;^variables:^~short s(x) ;^data:^^ s = 17220, 17921, 0 ;^}^
# the greatest offset
ONE_VARIABLE_CDF2 76=7fffffffffffffff||variable 0: data truncated at value 0|netcdf t {^dimensions:^~x = 3 ;^variables:^~short s(x) ;^data:^^ s =
# two record dimensions, a slab past its limit, and an offset with its top bit set
TWO_RECORD_DIMS||two record dimensions|
LARGE_SLAB||too large|
ONE_VARIABLE 76=80||bad offset|
# reads of values fail
ONE_VARIABLE|fails=80|read failed|netcdf t {^dimensions:^~x = 3 ;^variables:^~short s(x) ;^data:^^ s =
"#;

/// Adds to a row what a word says: `head` or `coords`, that no more is shown; `names=a,b` that are chosen; lines of `width=20` bytes;
/// `len=83` bytes of the file; and reads that fail from the offset `fails=80` on.
fn say<'a>(row: &mut DumpRow<'a>, word: &'a str) {
    let (name, value) = word.split_once('=').unwrap_or((word, ""));
    let number = value.parse().unwrap_or(0);
    match name {
        "head" => row.head_only = true,
        "coords" => row.coords = true,
        "names" => row.chosen = Some(value),
        "width" => row.width = number,
        "len" => row.len = number,
        "fails" => row.fail = FailWhen::From(number as u64),
        _ => {}
    }
}

/// Fails unless the dump is as this row of a text says.
fn expect_row(rt: &impl Abort, alloc: Global, row: &str) -> Result<(), AllocError> {
    let [words, said, fault, text, ..] = cells_of(row, '|');
    let file = file_of(alloc, words)?;
    let text = char_bytes(alloc, text)?;
    let (bytes, text) = (file.as_slice(), text.as_slice());
    expect_said(rt, alloc, row, bytes, said, fault, text)
}

/// Fails unless these bytes are dumped as these words say, with this fault and this text.
fn expect_said<'a>(
    rt: &impl Abort,
    alloc: Global,
    about: &'a str,
    bytes: &'a [u8],
    said: &'a str,
    fault: &'a str,
    text: &'a [u8],
) -> Result<(), AllocError> {
    let mut dump = DumpRow {
        about,
        bytes,
        fault,
        text,
        ..WHOLE
    };
    for word in said.split(' ') {
        say(&mut dump, word);
    }
    expect_dump(rt, alloc, &dump)
}

/// Fails unless the dumps are as the rows of a text say.
fn expect_table(rt: &impl Abort, alloc: Global, table: &str) -> Result<(), AllocError> {
    for row in table.split('\n') {
        if !row.is_empty() && !row.starts_with('#') {
            expect_row(rt, alloc, row)?;
        }
    }
    Ok(())
}

#[test]
fn dumps_of_files(rt: HostRuntime) -> Result<(), AllocError> {
    expect_table(&rt, rt.alloc(), WHOLE_FILES)?;
    expect_table(&rt, rt.alloc(), SELECTIONS)?;
    expect_table(&rt, rt.alloc(), VALUES)?;
    expect_table(&rt, rt.alloc(), CHANGED)
}

#[test]
fn dumps_that_tests_share(rt: HostRuntime) -> Result<(), AllocError> {
    for row in SHARED {
        expect_dump(&rt, rt.alloc(), row)?;
    }
    Ok(())
}

/// A selection through each buffer of 16 to 40 bytes, by reads of at most 1 to 9 bytes.
#[test]
fn selection_through_every_buffer(rt: HostRuntime) -> Result<(), Fail> {
    for buffer_len in 16..=40 {
        let is_right = is_dumped_through(&rt, rt.alloc(), &SELECTION, buffer_len)?;
        assert!(rt; is_right, "{buffer_len} bytes");
    }
    Ok(())
}

/// Returns true if the row is dumped through a buffer of so many bytes, by reads of at most 1 to 9 bytes.
fn is_dumped_through(
    rt: &impl Abort,
    alloc: Global,
    row: &DumpRow<'_>,
    buffer_len: usize,
) -> Result<bool, AllocError> {
    let options = options_of(alloc, row)?;
    let text = text_of(alloc, row)?;
    let want = Want {
        options: &options,
        fault: "",
        text: text.as_slice(),
    };
    let buffer = (buffer_len, [1, 2, 3, 4, 5, 6, 7, 8, 9].as_slice());
    Ok(is_dumped_in_steps(rt, alloc, (row.bytes, row.fail), buffer, &want))
}

/// Files that are cut after their header, or in the padding at their end: blocks with an empty line between two. The first line of a block
/// has the name of a file, the length of its header, and the text before its values; each other one the last of some lengths, which begin
/// after those before, the words of the fault, and the text after that. All prefixes of a header are refused.
const CUT_FILES: &str =
    r"ONE_VARIABLE|80|netcdf t {^dimensions:^~x = 3 ;^variables:^~short s(x) ;^data:^^ s =
81|variable 0: data truncated at value 0|
83|variable 0: data truncated at value 1| 1
85|variable 0: data truncated at value 2| 1, _
88|| 1, _, 3 ;^}^

ONE_VARIABLE_CDF5|128|netcdf t {^dimensions:^~x = 3 ;^variables:^~short s(x) ;^data:^^ s =
129|variable 0: data truncated at value 0|
131|variable 0: data truncated at value 1| 1
133|variable 0: data truncated at value 2| 1, _
136|| 1, _, 3 ;^}^

RECORD_BYTES|80|netcdf t {^dimensions:^~t = UNLIMITED ; // (3 currently)^variables:^~byte b(t) ;^data:^^ b =
80|variable 0: data truncated at value 0|
81|variable 0: data truncated at value 1| 1
82|variable 0: data truncated at value 2| 1, 2

PADDED_RECORDS|116|netcdf t {^dimensions:^~t = UNLIMITED ; // (3 currently)^variables:^~byte b(t) ;^~short s(t) ;^data:^^ b =
116|variable 0: data truncated at value 0|
124|variable 0: data truncated at value 1| 1
132|variable 0: data truncated at value 2| 1, 2
137|variable 1: data truncated at value 2| 1, 2, 3 ;^^ s = 4, 5
140|| 1, 2, 3 ;^^ s = 4, 5, 6 ;^}^";

/// Fails unless the file is dumped so if it is cut to each of these lengths.
fn expect_lens(
    rt: &impl Abort,
    alloc: Global,
    row: DumpRow<'_>,
    (from, to): (usize, usize),
) -> Result<(), AllocError> {
    for len in from..=to {
        expect_dump(rt, alloc, &DumpRow { len, ..row })?;
    }
    Ok(())
}

/// Fails unless prefixes of a file that end in its header are refused, with nothing written.
fn expect_cut_header(
    rt: &impl Abort,
    alloc: Global,
    bytes: &[u8],
    header_len: usize,
) -> Result<(), AllocError> {
    let tiny = DumpRow {
        about: "a cut header",
        bytes,
        fault: "not a netCDF classic file",
        ..WHOLE
    };
    let longer = DumpRow {
        fault: "header truncated",
        ..tiny
    };
    expect_lens(rt, alloc, tiny, (0, 2))?;
    expect_lens(rt, alloc, longer, (3, header_len.saturating_sub(1)))
}

/// Fails unless prefixes of a file are dumped as a line says, from the length `from` up to that of the line. Returns the next length.
fn expect_cut(
    rt: &impl Abort,
    alloc: Global,
    row: DumpRow<'_>,
    from: usize,
    line: &str,
) -> Result<usize, AllocError> {
    let [to, fault, text, ..] = cells_of(line, '|');
    let to = to.parse().unwrap_or(0usize);
    let text = char_bytes(alloc, text)?;
    let text = text.as_slice();
    expect_lens(rt, alloc, DumpRow { fault, text, ..row }, (from, to))?;
    Ok(to.saturating_add(1))
}

/// Fails unless prefixes of the file of this block are dumped as it says.
fn expect_cuts(rt: &impl Abort, alloc: Global, block: &str) -> Result<(), AllocError> {
    let (first, cuts) = block.split_once('\n').unwrap_or((block, ""));
    let [name, header_len, head, ..] = cells_of(first, '|');
    let file = file_of(alloc, name)?;
    let head = char_bytes(alloc, head)?;
    let (bytes, head) = (file.as_slice(), head.as_slice());
    let from = header_len.parse().unwrap_or(0);
    expect_cut_header(rt, alloc, bytes, from)?;
    expect_cut_values(rt, alloc, first, bytes, head, from, cuts)
}

/// Fails unless prefixes of these bytes, from this length on, are dumped as the lines of `cuts` say.
fn expect_cut_values<'a>(
    rt: &impl Abort,
    alloc: Global,
    about: &'a str,
    bytes: &'a [u8],
    head: &'a [u8],
    header_len: usize,
    cuts: &str,
) -> Result<(), AllocError> {
    let row = DumpRow {
        about,
        bytes,
        head,
        ..WHOLE
    };
    let mut from = header_len;
    for line in cuts.split('\n') {
        from = expect_cut(rt, alloc, row, from, line)?;
    }
    Ok(())
}

#[test]
fn dumps_of_cut_files(rt: HostRuntime) -> Result<(), AllocError> {
    for block in CUT_FILES.split("\n\n") {
        expect_cuts(&rt, rt.alloc(), block)?;
    }
    Ok(())
}

/// Returns true if the source is dumped as the row says.
fn is_dumped_as<S: Source>(
    rt: &impl Abort,
    alloc: Global,
    source: &mut S,
    row: &DumpRow<'_>,
) -> Result<bool, AllocError> {
    let options = options_of(alloc, row)?;
    let text = text_of(alloc, row)?;
    let want = Want {
        options: &options,
        fault: row.fault,
        text: text.as_slice(),
    };
    Ok(is_dumped(rt, alloc, source, 16, &want))
}

/// A file of these bytes at the path, which is open and removed.
fn removed_file<R: Files<File = File>>(
    rt: &R,
    path: &str,
    bytes: &[u8],
) -> Result<FileSource, Fail> {
    fs::write(rt, path, bytes)?;
    let source = FileSource::open(rt, path)?;
    fs::remove_file(rt, path)?;
    Ok(source)
}

#[test]
fn dump_of_a_file_of_the_system(rt: HostRuntime) -> Result<(), Fail> {
    let path = "dumped_shorts.nc";
    let mut source = removed_file(&rt, path, ONE_VARIABLE.bytes)?;
    assert!(rt; is_dumped_as(&rt, rt.alloc(), &mut source, &ONE_VARIABLE)?);
    assert!(rt; FileSource::open(&rt, path).is_err());
    Ok(())
}
