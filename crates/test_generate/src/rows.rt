//! Texts, each with the file that it gives, and with the dump of that file.

use nc_base::Version;
use std::alloc::{AllocError, Global};
use std::process::Abort;
use test_files::{cells_of, char_bytes, file_of};

/// A text, its file in this version, and the dump of that file.
#[derive(Drop)]
pub struct Row {
    pub version: Version,
    pub cdl: Vec<u8>,
    pub file: Vec<u8>,
    pub dump: Vec<u8>,
}

/// A text of one variable of three values. One of them is left to be filled.
pub const SHORTS: &[u8] =
    b"netcdf t {\ndimensions:\n x = 3 ;\nvariables:\n short s(x) ;\ndata:\n s = 1, _, 3 ;\n}\n";

/// A text with a fault in its fifth line: a number out of range.
pub const REFUSED: &[u8] =
    b"netcdf t {\ndimensions: x = 3 ;\nvariables: short s(x) ;\ndata:\n s = 40000 ;\n}\n";

/// Blocks with an empty line between two. A block has a comment; its name, the number of a version, and the name of a file; the text that
/// gives this file; and the dump of the file. In both, the mark `^` stands for a line feed, and `~` for a tab.
pub const ROWS: &str = r#"# Nothing declared.
NOTHING 1 SMALLEST
netcdf t { }
netcdf t {^}^

# Nothing declared, in CDF-5.
NOTHING_CDF5 5 SMALLEST_CDF5
netcdf t { }
netcdf t {^}^

# One variable, with one value written as `_` in the text.
ONE_VARIABLE 1 ONE_VARIABLE
netcdf t {^dimensions:^ x = 3 ;^variables:^ short s(x) ;^data:^ s = 1, _, 3 ;^}^
netcdf t {^dimensions:^~x = 3 ;^variables:^~short s(x) ;^data:^^ s = 1, _, 3 ;^}^

# One variable in CDF-2.
ONE_VARIABLE_CDF2 2 ONE_VARIABLE_CDF2
netcdf t {^dimensions:^ x = 3 ;^variables:^ short s(x) ;^data:^ s = 1, _, 3 ;^}^
netcdf t {^dimensions:^~x = 3 ;^variables:^~short s(x) ;^data:^^ s = 1, _, 3 ;^}^

# One variable in CDF-5.
ONE_VARIABLE_CDF5 5 ONE_VARIABLE_CDF5
netcdf t {^dimensions:^ x = 3 ;^variables:^ short s(x) ;^data:^ s = 1, _, 3 ;^}^
netcdf t {^dimensions:^~x = 3 ;^variables:^~short s(x) ;^data:^^ s = 1, _, 3 ;^}^

# A record variable without records.
NO_RECORDS 1 NO_RECORDS
netcdf t { dimensions: t = UNLIMITED ; variables: int v(t) ; }
netcdf t {^dimensions:^~t = UNLIMITED ; // (0 currently)^variables:^~int v(t) ;^data:^}^

# Two record variables, one of them of rank three, and a scalar after them, whose value comes before theirs.
RANK_THREE 1 THREE_VARIABLES
netcdf t { dimensions: t = UNLIMITED, y = 2, x = 2 ; variables: int a(t) ; int b(t, y, x) ; int c ;^data: a = 10, 20 ; b = 1, 2, 3, 4, 5, 6, 7, 8 ; c = 7 ;^}^
netcdf t {^dimensions:^~t = UNLIMITED ; // (2 currently)^~y = 2 ;^~x = 2 ;^variables:^~int a(t) ;^~int b(t, y, x) ;^~int c ;^data:^^ a = 10, 20 ;^^ b =^  1, 2,^  3, 4,^  5, 6,^  7, 8 ;^^ c = 7 ;^}^

# A sole record variable of bytes, whose records aren't padded.
UNPADDED_RECORDS 1 RECORD_BYTES
netcdf t { dimensions: t = UNLIMITED ; variables: byte b(t) ; data: b = 1, 2, 3 ; }
netcdf t {^dimensions:^~t = UNLIMITED ; // (3 currently)^variables:^~byte b(t) ;^data:^^ b = 1, 2, 3 ;^}^

# The same beside a second record variable: both are padded.
PADDED_RECORDS 1 PADDED_RECORDS
netcdf t { dimensions: t = UNLIMITED ; variables: byte b(t) ; short s(t) ;^data: b = 1, 2, 3 ; s = 4, 5, 6 ;^}^
netcdf t {^dimensions:^~t = UNLIMITED ; // (3 currently)^variables:^~byte b(t) ;^~short s(t) ;^data:^^ b = 1, 2, 3 ;^^ s = 4, 5, 6 ;^}^

# A sole record variable, whose records of 6 bytes begin off the boundary of four.
RECORDS_OFF_BOUNDARY 1 RECORDS_OFF_BOUNDARY
netcdf t { dimensions: t = UNLIMITED, y = 3 ; variables: short s(t, y) ;^data: s = 1, 2, 3, 4, 5, 6, 7, 8, 9 ;^}^
netcdf t {^dimensions:^~t = UNLIMITED ; // (3 currently)^~y = 3 ;^variables:^~short s(t, y) ;^data:^^ s =^  1, 2, 3,^  4, 5, 6,^  7, 8, 9 ;^}^

# A record variable beside a longer one: the values that each lacks are filled.
LONGER_RECORDS 1 LONGER_RECORDS
netcdf t { dimensions: t = UNLIMITED, x = 2 ; variables: short a(t, x) ; byte b(t) ;^data: a = 1, 2, 3 ; b = 9 ;^}^
netcdf t {^dimensions:^~t = UNLIMITED ; // (2 currently)^~x = 2 ;^variables:^~short a(t, x) ;^~byte b(t) ;^data:^^ a =^  1, 2,^  3, _ ;^^ b = 9, -127 ;^}^

# Two rows of one character. The text lists only the first.
SECOND_ROW_LACKING 1 SECOND_ROW_LACKING
netcdf t { dimensions: x = 2, y = 1 ; variables: char c(x, y) ; data: c = "a" ; }
netcdf t {^dimensions:^~x = 2 ;^~y = 1 ;^variables:^~char c(x, y) ;^data:^^ c =^  "a",^  "" ;^}^

# A record variable of characters, and two NULs.
ALL_NULS 1 ALL_NULS
netcdf t { dimensions: t = UNLIMITED ; variables: char c(t) ; data: c = "\000\000" ; }
netcdf t {^dimensions:^~t = UNLIMITED ; // (2 currently)^variables:^~char c(t) ;^data:^^ c = "\000\000" ;^}^

# Rows of characters, and a row that the text lacks, filled with a fill value of their own.
FILLED_ROWS 1 FILLED_ROWS
netcdf t { dimensions: y = 3, x = 3 ; variables: char c(y, x) ; c:_FillValue = "-" ;^data: c = "ab", "c" ;^}^
netcdf t {^dimensions:^~y = 3 ;^~x = 3 ;^variables:^~char c(y, x) ;^~~c:_FillValue = "-" ;^data:^^ c =^  "ab-",^  "c--",^  "---" ;^}^

# Numbers that the text lacks or says by `_`, filled with a fill value of their own, and padding that is filled with it.
FILLED_SHORTS 1 FILLED_SHORTS
netcdf t { dimensions: x = 3 ; variables: short s(x) ; s:_FillValue = 9s ; data: s = 1, _ ; }
netcdf t {^dimensions:^~x = 3 ;^variables:^~short s(x) ;^~~s:_FillValue = 9s ;^data:^^ s = 1, _, _ ;^}^

# A fill value of the variable's type, which fills and pads, and one of another type, which doesn't.
FILL_OF_ANOTHER_TYPE 1 FILL_OF_ANOTHER_TYPE
netcdf t { dimensions: x = 1 ; variables: short s(x) ; s:_FillValue = 7s ; short u(x) ; u:_FillValue = 7 ; }
netcdf t {^dimensions:^~x = 1 ;^variables:^~short s(x) ;^~~s:_FillValue = 7s ;^~short u(x) ;^~~u:_FillValue = 7 ;^data:^^ s = _ ;^^ u = _ ;^}^

# A sole record variable of bytes, whose records aren't padded, and one without records, which is.
UNPADDED_BESIDE_FIXED 1 UNPADDED_BESIDE_FIXED
netcdf t { dimensions: t = UNLIMITED ; variables: byte b(t) ; byte c ; data: b = 1, 2, 3, 4, 5 ; c = 9 ; }
netcdf t {^dimensions:^~t = UNLIMITED ; // (5 currently)^variables:^~byte b(t) ;^~byte c ;^data:^^ b = 1, 2, 3, 4, 5 ;^^ c = 9 ;^}^

# Two lines of text, which a text says by two strings.
JOINED_STRINGS 1 TEXT_ATTRIBUTE
netcdf t { :note = "a\n", "b\n" ; }
netcdf t {^^// global attributes:^~~:note = "a\n",^~~~"b\n" ;^}^

# Unsigned bytes as a sole record variable, in CDF-5: no value of theirs is a fill value, and records aren't padded.
UNSIGNED_RECORDS 5 UNSIGNED_RECORDS
netcdf t { dimensions: t = UNLIMITED ; variables: ubyte b(t) ; data: b = 255, 254, 1 ; }
netcdf t {^dimensions:^~t = UNLIMITED ; // (3 currently)^variables:^~ubyte b(t) ;^data:^^ b = 255, 254, 1 ;^}^

# Unsigned scalars with their fill values, in CDF-5: the text is its own dump.
UNSIGNED_FILLS 5 UNSIGNED_FILLS
netcdf t {^variables:^~ubyte a ;^~~a:_FillValue = 255UB ;^~uint64 b ;^~~b:r = 0ULL, 18446744073709551615ULL ;^data:^^ a = _ ;^^ b = _ ;^}^
netcdf t {^variables:^~ubyte a ;^~~a:_FillValue = 255UB ;^~uint64 b ;^~~b:r = 0ULL, 18446744073709551615ULL ;^data:^^ a = _ ;^^ b = _ ;^}^"#;

/// The row of a block.
pub fn row_of(rt: &impl Abort, alloc: Global, block: &str) -> Result<Row, AllocError> {
    let [_, head, cdl, dump, ..] = cells_of(block, '\n');
    let [_, number, name, ..] = cells_of(head, ' ');
    let version = Version::of_byte(number.parse().unwrap_or(0));
    Ok(Row {
        version: version.expect(rt, "a version"),
        cdl: char_bytes(alloc, cdl)?,
        file: file_of(alloc, name)?,
        dump: char_bytes(alloc, dump)?,
    })
}
