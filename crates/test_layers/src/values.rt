//! Texts of values: numbers and characters, fill values, and where lines are broken. Each is printed for several cuttings into calls, and
//! into sinks that fail after each number of bytes.

use crate::header_rows::sequence;
use cdl_print::ValuePrinter;
use devices::{Sink, SliceSink, WriteFailed};
use nc_base::{Att, Dim, Header, NcType, NumRecs, Sequence, Var, Version};
use std::alloc::{AllocError, Global};
use std::process::Abort;
use test_files::{cells_of, char_bytes};

/// A variable over dimensions of these lengths (0 stands for the record dimension, which has two records), its fill value, if it has one
/// of its own, the width of its lines, its values and the text that they are to have. Each character of the name and of the text stands for
/// a byte, as `char_bytes` says.
#[derive(Clone, Copy)]
struct Row<'a> {
    name: &'a str,
    ty: NcType,
    lens: &'a str,
    fill: Option<i128>,
    width: usize,
    values: &'a [i128],
    text: &'a str,
}

/// Numbers of few digits and of many, the least and the greatest of each type, and fill values: that of the type, which counts in types of
/// two bytes and more, or the variable's own one. A row of this text and of those below has the name of a variable, its type, the lengths
/// of its dimensions, its fill value, its values, and their text.
const NUMBERS: &str = r"
v|byte|13||-128 -127 -100 -99 -10 -9 -1 0 9 10 99 100 127|^ v = -128, -127, -100, -99, -10, -9, -1, 0, 9, 10, 99, 100, 127 ;^
v|byte|4|-127|1 -127 -128 9|^ v = 1, _, -128, 9 ;^
v|short|12||-32768 -32767 -100 -99 -10 -9 -1 0 9 10 99 100|^ v = -32768, _, -100, -99, -10, -9, -1, 0, 9, 10, 99, 100 ;^
v|int|9||-2147483648 -2147483647 -10 -1 0 9 10 99 100|^ v = -2147483648, _, -10, -1, 0, 9, 10, 99, 100 ;^
v|int64|5||-9223372036854775808 -9223372036854775806 -1 10 100|^ v = -9223372036854775808, _, -1, 10, 100 ;^
v|int64|5|-1|1 -1 99 100 9223372036854775807|^ v = 1, _, 99, 100, 9223372036854775807 ;^
v|ubyte|7||0 9 10 99 100 254 255|^ v = 0, 9, 10, 99, 100, 254, 255 ;^
v|ubyte|6|99|0 9 10 99 100 200|^ v = 0, 9, 10, _, 100, 200 ;^
v|ushort|7||0 9 10 99 100 65534 65535|^ v = 0, 9, 10, 99, 100, 65534, _ ;^
v|ushort|3|1|0 1 65535|^ v = 0, _, 65535 ;^
v|uint|8||9 10 100 9999 10000 99999999 100000000 4294967295|^ v = 9, 10, 100, 9999, 10000, 99999999, 100000000, _ ;^
v|uint|4|10|9 10 11 4294967295|^ v = 9, _, 11, 4294967295 ;^
v|uint64|3||10 18446744073709551614 18446744073709551615|^ v = 10, _, 18446744073709551615 ;^
v|uint64|3|9223372036854775808|1 9223372036854775807 9223372036854775808|^ v = 1, 9223372036854775807, _ ;^
";

/// Lines of 20 bytes that are full, and numbers that begin the next line.
const LINES: &str = r"
v|byte|11||1 2 3 4 5 6 7 8 9 10 11|^ v = 1, 2, 3, 4, 5, ^    6, 7, 8, 9, 10, ^    11 ;^
v|byte|9||1 2 3 4 50 60 70 80 9|^ v = 1, 2, 3, 4, ^    50, 60, 70, 80, ^    9 ;^
v|int|8||1 2 3 4 -2147483647 -2147483647 10 -2147483647|^ v = 1, 2, 3, 4, _, ^    _, 10, _ ;^
v|short|8||10 20 30 40 5 100 -1 -10|^ v = 10, 20, 30, ^    40, 5, 100, -1, ^    -10 ;^
# a short last number
v|int|3||1000 20000 66|^ v = 1000, 20000, ^    66 ;^
# the first number stays on the line of the name, which counts with its escapes
abcdefghijklmnopqrstuvwxy|byte|3||1 2 3|^ abcdefghijklmnopqrstuvwxy = 1, ^    2, 3 ;^
a:b:c|byte|3||10 2 3|^ a\:b\:c = 10, 2, ^    3 ;^
# a line feed in a name begins a line
a^b|int|3||1000 20000 66|^ a\^b = 1000, 20000, ^    66 ;^
";

/// Rows are those of the last dimension. NULs wait for the character after them in their row; those at its end are left out, unless the
/// variable has a fill value of its own or no other dimension than that of records.
const ROWS: &str = r#"
v|uint64|0 1 2||18446744073709551613 1 3 18446744073709551613|^ v =^  18446744073709551613, ^    1,^  3, ^    18446744073709551613 ;^
v|byte|3 1||1 -2 3|^ v =^  1,^  -2,^  3 ;^
v|short|||172|^ v = 172 ;^
v|char|6||97 0 0 98 0 0|^ v = "a\000\000b" ;^
v|char|3 2||0 97 0 0 98 0|^ v =^  "\000a",^  "",^  "b" ;^
v|char|0 2|120|97 0 0 0|^ v =^  "a\000",^  "\000\000" ;^
v|char|0||0 0|^ v = "\000\000" ;^
# a tab, a quote, a backslash, 0x7f, a letter of two bytes, and 0xff
v|char|7||9 34 92 127 195 169 255|^ v = "\t\"\\\177Ã©ÿ" ;^
"#;

/// The last bytes of these numbers, big-endian, as many as a value of the type has.
fn packed(alloc: Global, ty: NcType, values: &[i128]) -> Result<Vec<u8>, AllocError> {
    let from = 16usize.saturating_sub(ty.size() as usize);
    let mut bytes = Vec::new(alloc);
    for value in values {
        bytes.extend_from_slice(value.to_be_bytes().get(from..).unwrap_or(&[]))?;
    }
    Ok(bytes)
}

/// The fill value of a row, as the attribute of its variable, if it has one of its own.
fn atts_of_row(alloc: Global, row: &Row<'_>) -> Result<Sequence<Att>, AllocError> {
    let mut atts = Sequence::new(alloc);
    if let Some(fill) = row.fill {
        atts.push(Att {
            name: sequence(alloc, "_FillValue")?,
            ty: row.ty,
            vals: Sequence::from_vec(packed(alloc, row.ty, &[fill])?),
        })?;
    }
    Ok(atts)
}

/// The ids of as many dimensions as there are lengths.
fn ids_of(alloc: Global, lens: &str) -> Result<Sequence<u64>, AllocError> {
    let mut ids = Sequence::new(alloc);
    for (id, _) in lens.split_whitespace().enumerate() {
        ids.push(id as u64)?;
    }
    Ok(ids)
}

/// The dimensions of these lengths.
fn dims_of_lens(alloc: Global, lens: &str) -> Result<Sequence<Dim>, AllocError> {
    let mut dims = Sequence::new(alloc);
    for len in lens.split_whitespace() {
        let (name, len) = (sequence(alloc, "d")?, len.parse().unwrap_or(0));
        dims.push(Dim { name, len })?;
    }
    Ok(dims)
}

/// The variable of a row, alone.
fn vars_of_row(alloc: Global, row: &Row<'_>) -> Result<Sequence<Var>, AllocError> {
    let mut vars = Sequence::new(alloc);
    vars.push(Var {
        name: sequence(alloc, row.name)?,
        dimids: ids_of(alloc, row.lens)?,
        atts: atts_of_row(alloc, row)?,
        ty: row.ty,
        begin_at: 0,
    })?;
    Ok(vars)
}

/// A header with the variable of a row.
fn header_of_row(alloc: Global, row: &Row<'_>) -> Result<Header, AllocError> {
    Ok(Header {
        version: Version::Cdf5,
        numrecs: NumRecs::Known(2),
        dims: dims_of_lens(alloc, row.lens)?,
        gatts: Sequence::new(alloc),
        vars: vars_of_row(alloc, row)?,
    })
}

/// Prints these values, in pieces of `piece_len` bytes.
fn print<W: Sink>(
    rt: &impl Abort,
    printer: &mut ValuePrinter<'_>,
    sink: &mut W,
    bytes: &[u8],
    piece_len: usize,
) -> Result<(), WriteFailed> {
    let mut text = [0; 4096];
    printer.start(sink)?;
    assert!(rt; 0 < piece_len);
    for piece in bytes.chunks(piece_len) {
        assert!(rt; printer.takes(piece));
        printer.values(sink, &mut text, piece)?;
    }
    printer.finish(sink)
}

/// Returns true if a sink with room for `room` bytes takes as much of the text as fits, where the values come in pieces of `piece_len`
/// bytes, and if a printer that has failed fails again.
fn is_shown(
    rt: &impl Abort,
    header: &Header,
    width: usize,
    (bytes, text): (&[u8], &[u8]),
    piece_len: usize,
    room: usize,
) -> bool {
    let mut into = [0u8; 1200];
    assert!(rt; header.sound() && header.vars.len() == 1 && room <= 1200);
    let mut printer = ValuePrinter::new(header, 0, 2, width);
    let mut sink = SliceSink::new(&mut into[..room], 1 + room % 5);
    let is_whole = print(rt, &mut printer, &mut sink, bytes, piece_len).is_ok();
    let mut space = [0u8; 40];
    let mut other = SliceSink::new(&mut space, 40);
    let fails_again = is_whole || printer.start(&mut other).is_err();
    let fitting = &text[..room.min(text.len())];
    fails_again && is_whole == (text.len() <= room) && sink.taken() == fitting
}

/// Fails unless the values of the row have its text, in pieces of `count` values, into sinks of each length up to that of the text.
fn expect_pieces(
    rt: &impl Abort,
    header: &Header,
    row: &Row<'_>,
    texts: (&[u8], &[u8]),
    count: usize,
) {
    let piece_len = (row.ty.size() as usize).saturating_mul(count);
    for room in 0..=texts.1.len() {
        let is_right = is_shown(rt, header, row.width, texts, piece_len, room);
        assert!(rt; is_right, "{room} bytes of {}", row.text);
    }
}

/// Fails unless the values of the row have its text, in pieces of one, two and three values, and of all.
fn expect_values(rt: &impl Abort, alloc: Global, row: &Row<'_>) -> Result<(), AllocError> {
    let header = header_of_row(alloc, row)?;
    let bytes = packed(alloc, row.ty, row.values)?;
    let text = char_bytes(alloc, row.text)?;
    for count in [1, 2, 3, 64] {
        expect_pieces(rt, &header, row, (bytes.as_slice(), text.as_slice()), count);
    }
    Ok(())
}

/// The numbers of a text, which has a space between two.
fn numbers_of(alloc: Global, text: &str) -> Result<Vec<i128>, AllocError> {
    let mut numbers = Vec::new(alloc);
    for word in text.split(' ') {
        numbers.push(word.parse().unwrap_or(0))?;
    }
    Ok(numbers)
}

/// The type of this word, or `byte` if it is none.
fn type_of(word: &str) -> NcType {
    let mut types = NcType::ALL.iter().copied();
    let found = types.find(|ty| ty.word() == word.as_bytes());
    found.unwrap_or(NcType::Byte)
}

/// Fails unless the values of a row of a text have its text in lines of `width` bytes.
fn expect_text(rt: &impl Abort, alloc: Global, line: &str, width: usize) -> Result<(), AllocError> {
    let [name, word, lens, fill, values, text] = cells_of(line, '|');
    let values = numbers_of(alloc, values)?;
    let row = Row {
        name,
        ty: type_of(word),
        lens,
        fill: fill.parse().ok(),
        width,
        values: values.as_slice(),
        text,
    };
    expect_values(rt, alloc, &row)
}

/// Fails unless each row of a text is so.
fn expect_table(
    rt: &impl Abort,
    alloc: Global,
    table: &str,
    width: usize,
) -> Result<(), AllocError> {
    for line in table.split('\n') {
        if !line.is_empty() && !line.starts_with('#') {
            expect_text(rt, alloc, line, width)?;
        }
    }
    Ok(())
}

#[test]
fn values_have_their_text(rt: HostRuntime) -> Result<(), AllocError> {
    expect_table(&rt, rt.alloc(), NUMBERS, 80)?;
    expect_table(&rt, rt.alloc(), ROWS, 20)
}

#[test]
fn lines_are_broken(rt: HostRuntime) -> Result<(), AllocError> {
    expect_table(&rt, rt.alloc(), LINES, 20)
}
