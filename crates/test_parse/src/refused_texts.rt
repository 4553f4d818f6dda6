//! Texts that are refused, each with the line and the kind of its fault: that of the first bad statement, and in it the first by the order
//! of faults. Here tokens, statements and declarations; `refused_values` has values and sizes.

use crate::parsing::{OLD_VERSIONS, Texts, WHOLE, check};
use std::alloc::AllocError;
use std::test::*;

/// Whole texts, and their openings.
const OPENINGS: Texts = Texts {
    refused: br#"
|1 Syntax
^^|3 Syntax
netcdf|1 Syntax
netcdf t|1 BadToken
^^netcdf^t|3 BadToken
netcdft {}|1 BadToken
netcdf\ {}|1 BadToken
netcdf \{}|1 BadToken
netcdf//c^ t {}|1 BadToken
\netcdf t {}|1 BadToken
NETCDF ;|1 Syntax
t netcdf t {}|1 BadToken
x ; netcdf t {}|1 Syntax
}^}|1 Syntax
dimensions: x = 3 ; }|1 Syntax
^// netcdf t {^}|3 Syntax
08 ;|1 BadNumber
netcdf t {|1 Syntax
netcdf t^{^^|4 Syntax
netcdf t { dimensions: x = 3 }|1 Syntax
netcdf t {^dimensions:^x^= 3^}|3 Syntax
netcdf t {} y|1 Syntax
netcdf t {}^}|2 Syntax
netcdf t {}^;|2 Syntax
netcdf t {^} // %^}|3 Syntax
netcdf t {} 08|1 BadNumber
netcdf t {^}^^y^%|4 BadToken
netcdf t {^dimensions: x = 0 ;^data: q = 1 ;^}^|2 ZeroDimension
netcdf t {^dimensions: t = UNLIMITED, u = UNLIMITED ;^}^|2 TwoRecordDims
netcdf t {^dimensions: x = 2147483647 ;^variables: byte b(x, x) ;^}^|4 TooLarge
netcdf t {^dimensions: x = 2, y = 1 ;^variables: char c(x, y) ;^data: c = "a", "ab" ;^}^|4 StringTooLong
"#,
    ..WHOLE
};

/// Attributes of the dataset, after an opening.
const ATTRIBUTES: Texts = Texts {
    around: ("netcdf t {\n:t = 1 ;\n", "\n}\n"),
    refused: br#"
# the shape
;|3 Syntax
y = 3 ;|3 Syntax
y:a = 1 ;|3 Syntax
=a = 1 ;|3 Syntax
int z ;|3 Syntax
netcdf ;|3 Syntax
netcdf t {}|3 BadToken
: a = 1|3 Syntax
: a = ;|3 Syntax
: a ;|3 Syntax
: ;|3 Syntax
: = 1 ;|3 Syntax
: = = 1 ;|3 Syntax
: a 1 ;|3 Syntax
: a : 1 ;|3 Syntax
: a 1 1 ;|3 Syntax
: a "=" 1 ;|3 Syntax
: a = = ;|3 Syntax
: a = 1, ;|3 Syntax
: a = , 1 ;|3 Syntax
: a = 1,, 2 ;|3 Syntax
: a = 1 : 2 ;|3 Syntax
: a = (1) ;|3 Syntax
: a = b ;|3 Syntax
: a = int ;|3 Syntax
: int = 1 ;|3 Syntax
: 1 = 1 ;|3 Syntax
: "a" = 1 ;|3 Syntax
// c^^:a = 1|5 Syntax
:a = _ ;|3 Syntax
:a = 1, _, 3, 4, 5 ;|3 Syntax
:a = 1, 2, 3, _, 5 ;|3 Syntax
:a = 1, 2, 3 4, 5 ;|3 Syntax
:a = 1, 2, t, 4, 5 ;|3 Syntax
# tokens come before the shape
:t = 1, %, 08 ;|3 BadToken
:t = 1 %|3 BadToken
:t = 1 08 ;|3 BadNumber
:a^=^1.5^;|3 BadNumber
:a = 1, 08, 3, 4 ;|3 BadNumber
:a = 1, 2s, 3, 08, 5 ;|3 BadNumber
:a = 1, 2, 3, 4, %, 6 ;|3 BadToken
# the name comes before the constants, and these come from left to right
:a\/b = 1, "x" ;|3 BadName
:t = 1, "x" ;|3 DuplicateName
:\t = 300b ;|3 DuplicateName
:t = 2 ;|3 DuplicateName
:a = "x^y" ;^:a = 1 ;|5 DuplicateName
:a = 1, 99999s ;|3 MixedConstants
:a = 1b, 300s ;|3 MixedConstants
:a = 1s, 32768s, "x" ;|3 NumberRange
:a = "x", 300b ;|3 MixedConstants
:a = 1, 2l, 3L, 4s ;|3 MixedConstants
:a = 1, 2, 3, "x", 5 ;|3 MixedConstants
:a = 1, 2, 3, 4s, 5 ;|3 MixedConstants
:a = 1, 2, 3, 2147483648, 5s ;|3 NumberRange
:a = 1s, 2s, 3s, 40000s, 5 ;|3 NumberRange
:b = 1 ;^:c = 1, 2b ;^:b = 2 ;|4 MixedConstants
"#,
    ..WHOLE
};

/// Dimensions.
const DIMENSIONS: Texts = Texts {
    around: (
        "netcdf t {\ndimensions: ",
        "\nvariables: short s(x) ; char c(t, x) ;\ndata:\n}\n",
    ),
    refused: br#"
# the shape
y ;|2 Syntax
y = ;|2 Syntax
= 3 ;|2 Syntax
1 = 3 ;|2 Syntax
"y" = 3 ;|2 Syntax
(y = 3) ;|2 Syntax
y 3 ;|2 Syntax
y : 3 ;|2 Syntax
y = z ;|2 Syntax
y = _ ;|2 Syntax
y = "3" ;|2 Syntax
y = UNLIMITED = 3 ;|2 Syntax
y = Unlimited ;|2 Syntax
y = \unlimited ;|2 Syntax
y = 3, ;|2 Syntax
y = 3, 3 ;|2 Syntax
y = 3, z ;|2 Syntax
y = 3, z = ;|2 Syntax
y = 3, z : 4 ;|2 Syntax
y = 3, "z" = 4 ;|2 Syntax
y = 3 z = 4 ;|2 Syntax
y = 3 : z = 4 ;|2 Syntax
y = 3 = z = 4 ;|2 Syntax
unlimited = 3 ;|2 Syntax
int z ;|2 Syntax
y:a = 1 ;|2 Syntax
dimensions: y = 3 ;|2 Syntax
x = 0 % ;|2 BadToken
# names and lengths from left to right
a\/b = 0, x = 1 ;|2 BadName
x = 0, a\/b = 1 ;|2 ZeroDimension
x = 3, x = 0 ;|2 DuplicateName
x = 3, \x = 3 ;|2 DuplicateName
x = 3 ;^x = 0 ;|3 DuplicateName
y = 0, z = -1 ;|2 ZeroDimension
y = -1, z = 0 ;|2 NumberRange
t = UNLIMITED, u = unlimited, z = 0 ;|2 TwoRecordDims
t = UNLIMITED, z = 0, u = UNLIMITED ;|2 ZeroDimension
t = UNLIMITED, t = UNLIMITED ;|2 DuplicateName
t = unlimited ;^u = UNLIMITED ;|3 TwoRecordDims
"#,
    ..WHOLE
};

/// Variables and their attributes.
const VARIABLES: Texts = Texts {
    around: (
        "netcdf t {\ndimensions: x = 3, t = UNLIMITED ;\nvariables: ",
        "\ndata:\n s = 1 ;\n}\n",
    ),
    refused: br#"
# the shape
;|3 Syntax
int ;|3 Syntax
z ;|3 Syntax
"int" z ;|3 Syntax
3 z ;|3 Syntax
= z ;|3 Syntax
int 3 ;|3 Syntax
int "z" ;|3 Syntax
int = 1 ;|3 Syntax
int z = 1 ;|3 Syntax
int z, ;|3 Syntax
int z(x), ;|3 Syntax
int , z ;|3 Syntax
int z,, y ;|3 Syntax
int z y ;|3 Syntax
int z(x) y ;|3 Syntax
int (x) ;|3 Syntax
int z() ;|3 Syntax
int z(x,) ;|3 Syntax
int z(,x) ;|3 Syntax
int z(x x) ;|3 Syntax
int z(x ;|3 Syntax
int z(x: ;|3 Syntax
int z(x, y ;|3 Syntax
int z(x), y(x ;|3 Syntax
int z) ;|3 Syntax
int z x) ;|3 Syntax
int z(x)) ;|3 Syntax
int z((x)) ;|3 Syntax
int z(x)(x) ;|3 Syntax
int z("x") ;|3 Syntax
int z(byte) ;|3 Syntax
int byte ;|3 Syntax
float int ;|3 Syntax
z = 3 ;|3 Syntax
z = a = 1 ;|3 Syntax
z: ;|3 Syntax
z:a ;|3 Syntax
z:a = ;|3 Syntax
z:a : 1 ;|3 Syntax
z::a = 1 ;|3 Syntax
int z:a = 1 ;|3 Syntax
z:byte = 1 ;|3 Syntax
z:1 = 1 ;|3 Syntax
z:"a" = 1 ;|3 Syntax
byte:a = 1 ;|3 Syntax
1:a = 1 ;|3 Syntax
"z":a = 1 ;|3 Syntax
z:a:b = 1 ;|3 Syntax
variables: int z ;|3 Syntax
dimensions: y = 3 ;|3 Syntax
float f(3) ;|3 Syntax
q:a = 1, "x", _ ;|3 Syntax
float f g 08 ;|3 BadNumber
# types, names and dimensions from left to right
float f ;|3 FloatingType
quad q ;|3 UnknownType
int z(q) ;|3 UnknownDimension
int z(x, t) ;|3 BadShape
int z ; int z ;|3 DuplicateName
int z ; z:a = 1, 2b ;|3 MixedConstants
float a\/b(q) ;|3 FloatingType
real s ; quad q ;|3 FloatingType
quad q ; double s ;|3 UnknownType
\float f ;|3 UnknownType
\int f ;|3 UnknownType
Int f ;|3 UnknownType
string a\/b ;|3 UnknownType
unlimited u ;|3 UnknownType
data d ;|3 UnknownType
int a\/b(q) ;|3 BadName
int z(q), a\/b ;|3 UnknownDimension
int z, z(q) ;|3 DuplicateName
int z(a\/b, q) ;|3 BadName
int z(q, t) ;|3 UnknownDimension
int z(x, t, q) ;|3 BadShape
int z(t, t) ;|3 BadShape
int z ;^float f ;^int z ;|4 FloatingType
# the variable, the name and the constants of an attribute
a\/b:c\/d = 1 ;|3 BadName
q:a\/b = 1 ;|3 UnknownVariable
x:a = 1 ;|3 UnknownVariable
z:a = 1 ; int z ;|3 UnknownVariable
int z ; z:a\/b = 300b ;|3 BadName
int z ; z:a = 1 ; z:\a = 300b ;|3 DuplicateName
int z ; z:a = 1 ; z:\a = 2 ;|3 DuplicateName
"#,
    ..WHOLE
};

/// Marks of sections, which come once each and in order, and closing braces.
const SECTIONS: Texts = Texts {
    around: ("netcdf t {\n", "\n}\n"),
    said: ("Known(0)", ""),
    given: br"
data:|
data :|
dimensions: variables: data:|
dimensions: data:|
",
    refused: br#"
data ;|2 Syntax
data = ;|2 Syntax
dimensions x = 1 ;|2 Syntax
"data": ;|2 Syntax
\data: ;|2 Syntax
data :: ;|2 Syntax
data dimensions: ;|2 Syntax
dimensions: dimensions:|2 Syntax
variables: variables:|2 Syntax
variables: dimensions:|2 Syntax
data: dimensions:|2 Syntax
data: variables:|2 Syntax
data: data:|2 Syntax
data: } ;|2 Syntax
} }|2 Syntax
} x ;|2 Syntax
"#,
    ..WHOLE
};

/// Types of CDF-5, and a suffix of a token after an error in the shape.
const OF_OLD_VERSIONS: Texts = Texts {
    versions: OLD_VERSIONS,
    around: ("netcdf t {\nvariables: ", "\n}\n"),
    refused: br"
ubyte v ;|2 UnknownType
ushort v ;|2 UnknownType
uint v ;|2 UnknownType
int64 v ;|2 UnknownType
uint64 v ;|2 UnknownType
= 3ub ;|2 BadNumber
",
    ..WHOLE
};

#[test]
fn texts_are_refused(rt: HostRuntime) -> Result<(), AllocError> {
    static ALL: &[Texts] = &[OPENINGS, ATTRIBUTES, DIMENSIONS, VARIABLES];
    static OTHERS: &[Texts] = &[SECTIONS, OF_OLD_VERSIONS];
    check(&rt, rt.alloc(), ALL)?;
    check(&rt, rt.alloc(), OTHERS)
}
