//! Texts that are refused for a statement of their data section, or since an array is too large.

use crate::parsing::{Texts, WHOLE, check};
use std::alloc::AllocError;
use std::test::*;

/// Values of three shorts.
const SHORTS: Texts = Texts {
    around: (
        "netcdf t {\ndimensions: x = 3 ;\nvariables: short s(x) ;\ndata:\n",
        "\n}\n",
    ),
    refused: br"
 s = 1.5 ;|5 BadNumber
 s = 40000 ;|5 NumberRange
 s = 1, 2, 3, 4 ;|5 TooManyValues
",
    ..WHOLE
};

/// Values of three shorts, and rows of characters.
const SHORTS_AND_ROWS: Texts = Texts {
    around: (
        "netcdf t {\ndimensions: x = 3, t = UNLIMITED ;\nvariables: short s(x) ; char c(t, x) ;\ndata:\n",
        "\n}\n",
    ),
    refused: br#"
s = 1 2 ;|5 Syntax
s = 'a' ;|5 BadToken
s = 08 ;|5 BadNumber
q = 1 ;|5 UnknownVariable
s\/ = 1 ;|5 BadName
s = "a" ;|5 WrongKind
c = "abcd" ;|5 StringTooLong
s = 1 ; s = 1 ;|5 DuplicateData
"#,
    ..WHOLE
};

/// Values of three shorts, of rows of characters and of characters.
const VALUES: Texts = Texts {
    around: (
        "netcdf t {\ndimensions: x = 3, t = UNLIMITED ;\nvariables: short s(x) ; char c(t, x) ; char d(x) ;\ndata:\n",
        "\n}\n",
    ),
    refused: br#"
# the shape
s ;|5 Syntax
s = ;|5 Syntax
= 1 ;|5 Syntax
1 = 1 ;|5 Syntax
"s" = 1 ;|5 Syntax
s 1 ;|5 Syntax
s : 1 ;|5 Syntax
s = = ;|5 Syntax
s = x ;|5 Syntax
s = __ ;|5 Syntax
s = \_ ;|5 Syntax
s = 1, ;|5 Syntax
s = , 1 ;|5 Syntax
s = 1,, 2 ;|5 Syntax
s = 1 _ ;|5 Syntax
s = 1 = 2 ;|5 Syntax
int z ;|5 Syntax
s(0) = 1 ;|5 Syntax
s:a = 1 ;|5 Syntax
:a = 1 ;|5 Syntax
byte = 1 ;|5 Syntax
data: s = 1 ;|5 Syntax
variables: int z ;|5 Syntax
s = 1|5 Syntax
s = 1-2 ;|5 Syntax
s = (1) ;|5 Syntax
q = "a" 2 ;|5 Syntax
# tokens come before the shape
s = %, 08 ;|5 BadToken
s = 08, % ;|5 BadNumber
s = 1 % 2 ;|5 BadToken
q = 40000 08 ;|5 BadNumber
s = 1 2 ;^q = % ;|5 Syntax
s = 1 ;^q = 1 ;^s = 1 % ;|6 UnknownVariable
s = 1 }^} % ;|5 BadToken
# the variable, and then values from left to right
a\/b = "a" ;|5 BadName
q = "a", 99999 ;|5 UnknownVariable
x = 1 ;|5 UnknownVariable
s = "a" ;^q = 1 ;|5 WrongKind
s = 1 ;^s = "a" ;|6 DuplicateData
s = 40000, "a" ;|5 NumberRange
s = "a", 40000 ;|5 WrongKind
s = "_" ;|5 WrongKind
s = 1, 2, 3, "a" ;|5 WrongKind
s = 1, 2, 3, 40000 ;|5 TooManyValues
s = 1, 2, 3, _ ;|5 TooManyValues
s = 1, 2, 40000, 4 ;|5 NumberRange
s = 1 ;^s = 40000, "a", 1, 2 ;^q = 1 ;|6 DuplicateData
c = "abcd", 1 ;|5 StringTooLong
c = "abc", 1, "abcd" ;|5 WrongKind
c = _ ;|5 WrongKind
d = "ab", "cd", 1 ;|5 StringTooLong
d = "ab", "c", "", _ ;|5 WrongKind
d = "abcd" ;^d = "a" ;|5 StringTooLong
^^c = "a",^"bcde" ;^w = 1 ;|7 StringTooLong
"#,
    ..WHOLE
};

/// Rows: they are counted before they are measured.
const ROWS: Texts = Texts {
    around: (
        "netcdf t {\ndimensions: x = 2, y = 1, z = 3 ;\nvariables: char r(x, y) ; char s(x, y, z) ; char o ;\ndata: ",
        "\n}\n",
    ),
    refused: br#"
r = "a", "b", "cd" ;|4 TooManyValues
r = "a", "bc", "d" ;|4 StringTooLong
r = "", "", "" ;|4 TooManyValues
r = "a", "b", 1 ;|4 WrongKind
s = "abc", "abc", "abc" ;|4 TooManyValues
s = "abcd" ;|4 StringTooLong
o = "a", "", "b" ;|4 StringTooLong
o = 97 ;|4 WrongKind
"#,
    ..WHOLE
};

/// Lists with a fault among plain values, which are read quickly, or after others.
const LISTS: Texts = Texts {
    around: (
        "netcdf t {\ndimensions: x = 6, t = UNLIMITED, r = 4, y = 3 ;\nvariables: byte b(x) ; char c(x) ; byte r(t) ; char m(r, y) ;\ndata: ",
        "\n}\n",
    ),
    refused: br#"
b = 1, 2, 3, 4, 5, 6, 7 ;|4 TooManyValues
b = 1,^2,^3, 4, 5, 6, 7, 8 ;|4 TooManyValues
b = 1, 2, 3, 4, 5, 6, 200, 7 ;|4 TooManyValues
b = 1, 2, 3, 4, 200, 6, 7 ;|4 NumberRange
b = 1, 2, -129^, 4 ;|4 NumberRange
b = 1, 2, 18446744073709551616, 4 ;|4 NumberRange
b = 1, 2, 3, 128 ;|4 NumberRange
b = 1, 2,, 3 ;|4 Syntax
b = 1, 2, 3 4, 5 ;|4 Syntax
b = 1, 2, 3,^|4 Syntax
b = 1, 2, -, 3 ;|4 BadToken
b = 1, 2, 3, 08, 4 ;|4 BadNumber
b = 1, 2, "a", 3 ;|4 WrongKind
c = 1, 2, 3 ;|4 WrongKind
r = 1, 2, 3, 4, 5, 6, 7, 128, 9 ;|4 NumberRange
b = 0x1, 2L, 03, _, 128s, 6 ;|4 NumberRange
b = 0x1, 2L, 03, _, 08, 6 ;|4 BadNumber
b = 1, 2L, 03, _, 5, 6, _, 8 ;|4 TooManyValues
b = 1, 2, _, 4, 5, _, _, 8 ;|4 TooManyValues
b = 1, 2, 128b, 4, 5 ;|4 NumberRange
b = 1, 2, 08b, 4, 5 ;|4 BadNumber
b = 1, 2, 3x, 4, 5 ;|4 BadNumber
b = 1, 2, _3, 4, 5 ;|4 Syntax
b = 1, 2, _ _, 4, 5 ;|4 Syntax
b = 1, 2L, data, 4, 5 ;|4 Syntax
b = 1, 2L, ;, 4, 5 ;|4 Syntax
m = "abc", "abcd", "e" ;|4 StringTooLong
m = "abc", "d", "\n234", "e" ;|4 StringTooLong
m = "a", "b",^ "c", "d", "e", "f" ;|4 TooManyValues
m = "a", "b", "c", "d", "long", "f" ;|4 TooManyValues
m = "a", "b", 1, "d" ;|4 WrongKind
m = "a", "b", _, "d" ;|4 WrongKind
m = "a", "b" "c", "d" ;|4 Syntax
m = "a", "b\x", "c", "d" ;|4 BadToken
m = "a", "b", "c ;|4 BadToken
b = 1,^2,^3,^4, 5, 6 ;^r = 1,^2,^128, 4 ;|8 NumberRange
"#,
    ..WHOLE
};

/// Variables that are too large, or just not: the sizes come after all statements.
const SIZES: Texts = Texts {
    around: (
        "netcdf t {\ndimensions: x = 2147483647, t = UNLIMITED, h = 16777216, g = 16777217, e = 8388608 ;\nvariables: ",
        "\n}\n",
    ),
    refused: br"
byte b(x, x) ;|4 TooLarge
byte b(t, x, x) ;|4 TooLarge
byte b(h, g) ;|4 TooLarge
byte b(t, h, g) ;|4 TooLarge
byte b(x, x) ;^byte b ;|4 DuplicateName
byte b(x, x) ; data: b = 1 ;|4 TooLarge
byte b(x, x) ; data:^^^|7 TooLarge
byte b(x, x) ; data: q = 1 ;|3 UnknownVariable
byte b(x, x) ; data: b = 128 ;|3 NumberRange
byte b(x, x) ; data: }^q|4 Syntax
byte b(x, x) ; data: b = 1 ;^} % 08|4 BadToken
int b(x, x, x, x, x, x, x, x, x) ; data: b = 1, 2 ;|4 TooLarge
# one slab is in its limit, and two records of it aren't
byte a(t, h, h), b(t) ; data: b = 1, 2 ;|4 TooLarge
byte a(t, h, e), b(t) ; data: b = 1, 2, 3 ;|4 TooLarge
",
    ..WHOLE
};

#[test]
fn values_and_sizes_are_refused(rt: HostRuntime) -> Result<(), AllocError> {
    static ALL: &[Texts] = &[SHORTS, SHORTS_AND_ROWS, VALUES, ROWS, LISTS, SIZES];
    check(&rt, rt.alloc(), ALL)
}
