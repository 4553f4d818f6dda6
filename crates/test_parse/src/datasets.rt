//! Texts that give a dataset.

use crate::parsing::{Texts, VERSIONS, WHOLE, check, gives_in_each};
use std::alloc::AllocError;
use std::test::*;

/// Texts in which nothing is declared.
const WITHOUT_DECLARATIONS: Texts = Texts {
    said: ("Known(0)", ""),
    given: b"\
        netcdf t {}|\n\
        netcdf{}|\n\
        netcdf^{}|\n\
        netcdf \\\\{}|\n\
        // netcdf u }^ netcdf t // {}|\n\
        netcdf t {^}^// }|\n\
        # the blanks between tokens\n\
        \x09^\x0b\x0c\x0d netcdf t {\x09^\x0b\x0c\x0d }\x09^\x0b\x0c\x0d |\n\
        netcdf t { dimensions : variables// ;^: data^: } // no end of line|\n\
        netcdf t { dimensions: data: }|\n\
        # bytes of an opening that are no characters\n\
        netcdf \"}\\{;// \x00\xff^{}|\n\
        ",
    ..WHOLE
};

/// Texts that declare something, and what is said of their datasets.
static DATASETS: &[(&[u8], &str)] = &[
    (ONE_VARIABLE, ONE_VARIABLE_SAID),
    (ESCAPED_NAMES, ESCAPED_NAMES_SAID),
    (CONSTANTS, CONSTANTS_SAID),
    (DIFFERENT_LENGTHS, DIFFERENT_LENGTHS_SAID),
    (NO_RECORDS, NO_RECORDS_SAID),
    (RECORD_OF_FILL, RECORD_OF_FILL_SAID),
    (FILL_VALUES, FILL_VALUES_SAID),
    (FILL_VALUE_AND_NUL, FILL_VALUE_AND_NUL_SAID),
    (SAME_NAMES, SAME_NAMES_SAID),
    (SAME_HASH, SAME_HASH_SAID),
    (FILLED_ROW, FILLED_ROW_SAID),
    (ALL_NULS, ALL_NULS_SAID),
    (EMPTY_STRINGS, EMPTY_STRINGS_SAID),
    (RECORDS_OF_CHARACTERS, RECORDS_OF_CHARACTERS_SAID),
    (JOINED_STRINGS, JOINED_STRINGS_SAID),
];

/// Three shorts. One of them is left to be filled.
pub const ONE_VARIABLE: &[u8] =
    b"netcdf t {\ndimensions:\n x = 3 ;\nvariables:\n short s(x) ;\ndata:\n s = 1, _, 3 ;\n}\n";

const ONE_VARIABLE_SAID: &str = r#"Known(0)
x = 3
s Short [0]
= "\x00\x01\x80\x01\x00\x03""#;

const ESCAPED_NAMES: &[u8] = b"netcdf t {\n\
    variables:\n\
    \tint \\data ;\n\
    \t\t\\data:units = \"m\" ;\n\
    \tshort \\2\\ b ;\n\
    data:\n\
    \n \\data = 5 ;\n\
    \n \\2\\ b = 6 ;\n\
    }\n";

const ESCAPED_NAMES_SAID: &str = r#"Known(0)
data Int []
data:units Char "m"
2 b Short []
= "\x00\x00\x00\x05"
= "\x00\x06""#;

const CONSTANTS: &[u8] =
    b"netcdf t {\n:a = \"x\", \"y\" ;\n:b = 0x1b ;\ndimensions: x = 0x10, y = 010 ; }";

const CONSTANTS_SAID: &str = r#"Known(0)
x = 16
y = 8
:a Char "xy"
:b Int "\x00\x00\x00\x1b""#;

/// Record variables that list values for records of different numbers.
const DIFFERENT_LENGTHS: &[u8] =
    b"netcdf t {\ndimensions: t = UNLIMITED, x = 2 ;\nvariables: short a(t, x) ; byte b(t) ;\n\
    data: a = 1, 2, 3 ; b = 9 ;\n}\n";

const DIFFERENT_LENGTHS_SAID: &str = r#"Known(2)
t = 0
x = 2
a Short [0, 1]
b Byte [0]
= "\x00\x01\x00\x02\x00\x03\x80\x01"
= "\t\x81""#;

const NO_RECORDS: &[u8] =
    b"netcdf t { dimensions: t = UNLIMITED ; variables: int v(t) ; char c(t) ; data: c = \"\" ; }";

const NO_RECORDS_SAID: &str = r#"Known(0)
t = 0
v Int [0]
c Char [0]
= ""
= """#;

/// A last record whose value is the fill value, and one that another variable lacks.
const RECORD_OF_FILL: &[u8] =
    b"netcdf t { dimensions: t = UNLIMITED ; variables: int r(t) ; char e(t) ; data: r = 1, 2, _ ; e = \"uv\" ; }";

const RECORD_OF_FILL_SAID: &str = r#"Known(3)
t = 0
r Int [0]
e Char [0]
= "\x00\x00\x00\x01\x00\x00\x00\x02\x80\x00\x00\x01"
= "uv\x00""#;

/// Fill values of variables' own. Only the first one fits its variable.
const FILL_VALUES: &[u8] =
    b"netcdf t {\ndimensions: x = 2 ;\nvariables: byte b(x), c(x), d(x) ; char e(x) ;\n\
    b:_FillValue = 5b ; c:_FillValue = 5 ; d:_FillValue = 5b, 6b ; e:_FillValue = \"xy\" ;\n\
    data: b = _ ; c = _ ; d = 1 ; e = \"e\" ; }";

const FILL_VALUES_SAID: &str = r#"Known(0)
x = 2
b Byte [0]
b:_FillValue Byte "\x05"
c Byte [0]
c:_FillValue Int "\x00\x00\x00\x05"
d Byte [0]
d:_FillValue Byte "\x05\x06"
e Char [0]
e:_FillValue Char "xy"
= "\x05\x05"
= "\x81\x81"
= "\x01\x81"
= "e\x00""#;

/// A character and a NUL, which are no fill value.
const FILL_VALUE_AND_NUL: &[u8] =
    b"netcdf t {\ndimensions:\n\tx = 3 ;\nvariables:\n\tchar c(x) ;\n\t\tc:_FillValue = \"a\\000\" ;\n\
    data:\n\n c = \"b\" ;\n}\n";

const FILL_VALUE_AND_NUL_SAID: &str = r#"Known(0)
x = 3
c Char [0]
c:_FillValue Char "a\x00"
= "b\x00\x00""#;

/// Dimensions, variables and attributes of one name, and attributes in each section before the data.
const SAME_NAMES: &[u8] =
    b"netcdf t {\n:x = 1b ;\ndimensions: x = 1 ; \\y\\ \\.z-+@ = 0x7fffffff ;\n:y = 2b ;\n\
    variables: long x(x, \\x), \\x\\x ; x:x = 3b ; xx:x = \"\" ; :z = 4s ; x:y = 5 ;\ndata: \\x = 6 ; }";

const SAME_NAMES_SAID: &str = r#"Known(0)
x = 1
y .z-+@ = 2147483647
:x Byte "\x01"
:y Byte "\x02"
:z Short "\x00\x04"
x Int [0, 0]
x:x Byte "\x03"
x:y Int "\x00\x00\x00\x05"
xx Int []
xx:x Char ""
= "\x00\x00\x00\x06"
= "\x80\x00\x00\x01""#;

/// Names that have one hash.
const SAME_HASH: &[u8] = b"netcdf t {\n\
    variables: byte hhiighglkiijhhighghl, gigggiggogggigkgggiq, jgghlidkiiknlgfbdejo ;\n\
    data: jgghlidkiiknlgfbdejo = 3 ; hhiighglkiijhhighghl = 1 ; gigggiggogggigkgggiq = 2 ;\n}\n";

const SAME_HASH_SAID: &str = r#"Known(0)
hhiighglkiijhhighghl Byte []
gigggiggogggigkgggiq Byte []
jgghlidkiiknlgfbdejo Byte []
= "\x01"
= "\x02"
= "\x03""#;

/// Two rows. The text lists only the first.
const FILLED_ROW: &[u8] =
    b"netcdf t { dimensions: x = 2, y = 1 ; variables: char c(x, y) ; data: c = \"a\" ; }";

const FILLED_ROW_SAID: &str = r#"Known(0)
x = 2
y = 1
c Char [0, 1]
= "a\x00""#;

const ALL_NULS: &[u8] =
    b"netcdf t {\ndimensions:\n\tt = UNLIMITED ; // (2 currently)\nvariables:\n\tchar c(t) ;\n\
    data:\n\n c = \"\\000\\000\" ;\n}\n";

const ALL_NULS_SAID: &str = r#"Known(2)
t = 0
c Char [0]
= "\x00\x00""#;

/// Two empty strings are two rows, and so two records.
const EMPTY_STRINGS: &[u8] =
    b"netcdf t { dimensions: t = UNLIMITED, x = 2 ; variables: char r(t, x) ; char v(t) ; \
    data: r = \"\", \"\" ; }";

const EMPTY_STRINGS_SAID: &str = r#"Known(2)
t = 0
x = 2
r Char [0, 1]
v Char [0]
= "\x00\x00\x00\x00"
= "\x00\x00""#;

/// Strings over three records: joined to one, and rows of them.
const RECORDS_OF_CHARACTERS: &[u8] = b"netcdf t {\ndimensions: t = UNLIMITED, y = 2, x = 3 ;\n\
    variables: char a(t), b(t, x), c(t, y, x), d(t, x), e(t) ; b:_FillValue = \"-\" ;\n\
    data: b = \"ab\" ; a = \"pq\", \"\", \"r\" ; c = \"\", \"uvw\", \"x\" ; e = \"\" ;\n}\n";

const RECORDS_OF_CHARACTERS_SAID: &str = r#"Known(3)
t = 0
y = 2
x = 3
a Char [0]
b Char [0, 2]
b:_FillValue Char "-"
c Char [0, 1, 2]
d Char [0, 2]
e Char [0]
= "pqr"
= "ab-------"
= "\x00\x00\x00uvwx\x00\x00\x00\x00\x00\x00\x00\x00\x00\x00\x00"
= "\x00\x00\x00\x00\x00\x00\x00\x00\x00"
= "\x00\x00\x00""#;

/// Strings of variables of rank 1 and 0, which are joined.
const JOINED_STRINGS: &[u8] =
    b"netcdf t { dimensions: x = 5 ; variables: char a(x), b(x), c, d, e ; \
    data: a = \"\", \"ab\", \"\\\"\", \"c\", \"\" ; b = \"abcde\", \"\" ; c = \"\", \"z\", \"\" ; e = \"\" ; }";

const JOINED_STRINGS_SAID: &str = r#"Known(0)
x = 5
a Char [0]
b Char [0]
c Char []
d Char []
e Char []
= "ab\"c\x00"
= "abcde"
= "z"
= "\x00"
= "\x00""#;

#[test]
fn texts_give_datasets(rt: HostRuntime) -> Result<(), AllocError> {
    static ALL: &[Texts] = &[WITHOUT_DECLARATIONS];
    check(&rt, rt.alloc(), ALL)?;
    for (text, said) in DATASETS {
        gives_in_each(&rt, rt.alloc(), VERSIONS, *text, said.as_bytes())?;
    }
    Ok(())
}
