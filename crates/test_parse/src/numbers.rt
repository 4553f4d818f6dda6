//! Numbers: the ends of the ranges of types, and the numbers past them; the types of constants; and lengths of dimensions.

use crate::parsing::{CDF5, OLD_VERSIONS, Texts, WHOLE, check};
use std::alloc::AllocError;
use std::test::*;

/// What comes after the value of a variable.
const END: &str = " ; }";

/// Values of a byte.
const BYTES: Texts = Texts {
    around: ("netcdf t {\nvariables: byte v ;\ndata: v = ", END),
    said: ("Known(0)\nv Byte []\n= \"", "\""),
    given: br"
-128|\x80
127|\x7f
",
    refused: br"
-129|3 NumberRange
128|3 NumberRange
",
    ..WHOLE
};

/// Values of a short. A suffix has no meaning here.
const SHORTS: Texts = Texts {
    around: ("netcdf t {\nvariables: short v ;\ndata: v = ", END),
    said: ("Known(0)\nv Short []\n= \"", "\""),
    given: br"
-32768|\x80\x00
32767|\x7f\xff
-0100000|\x80\x00
077777|\x7f\xff
-0x8000|\x80\x00
0X7fFF|\x7f\xff
0000000000000000000000000000000000000000017|\x00\x0f
0x00000000000000000000000000000000000000017|\x00\x17
300b|\x01,
-32768B|\x80\x00
7L|\x00\x07
",
    refused: br"
-32769|3 NumberRange
32768|3 NumberRange
-0100001|3 NumberRange
0100000|3 NumberRange
-0x8001|3 NumberRange
0x8000|3 NumberRange
32768l|3 NumberRange
",
    ..WHOLE
};

/// Values of an int.
const INTS: Texts = Texts {
    around: ("netcdf t {\nvariables: int v ;\ndata: v = ", END),
    said: ("Known(0)\nv Int []\n= \"", "\""),
    given: br"
-2147483648|\x80\x00\x00\x00
2147483647|\x7f\xff\xff\xff
",
    refused: br"
-2147483649|3 NumberRange
2147483648|3 NumberRange
",
    ..WHOLE
};

/// Values of an unsigned byte.
const UBYTES: Texts = Texts {
    versions: CDF5,
    around: ("netcdf t {\nvariables: ubyte v ;\ndata: v = ", END),
    said: ("Known(0)\nv Ubyte []\n= \"", "\""),
    given: br"
-0|\x00
255|\xff
",
    refused: br"
-1|3 NumberRange
256|3 NumberRange
",
    ..WHOLE
};

/// Values of an unsigned short.
const USHORTS: Texts = Texts {
    versions: CDF5,
    around: ("netcdf t {\nvariables: ushort v ;\ndata: v = ", END),
    said: ("Known(0)\nv Ushort []\n= \"", "\""),
    given: br"
0|\x00\x00
65535|\xff\xff
",
    refused: br"
-1|3 NumberRange
65536|3 NumberRange
",
    ..WHOLE
};

/// Values of an unsigned int.
const UINTS: Texts = Texts {
    versions: CDF5,
    around: ("netcdf t {\nvariables: uint v ;\ndata: v = ", END),
    said: ("Known(0)\nv Uint []\n= \"", "\""),
    given: br"
0|\x00\x00\x00\x00
4294967295|\xff\xff\xff\xff
",
    refused: br"
-1|3 NumberRange
4294967296|3 NumberRange
",
    ..WHOLE
};

/// Values of 64 bits.
const INT64S: Texts = Texts {
    versions: CDF5,
    around: ("netcdf t {\nvariables: int64 v ;\ndata: v = ", END),
    said: ("Known(0)\nv Int64 []\n= \"", "\""),
    given: br"
-9223372036854775808|\x80\x00\x00\x00\x00\x00\x00\x00
9223372036854775807|\x7f\xff\xff\xff\xff\xff\xff\xff
",
    refused: br"
-9223372036854775809|3 NumberRange
9223372036854775808|3 NumberRange
",
    ..WHOLE
};

/// Unsigned values of 64 bits, which numbers of any length may be past.
const UINT64S: Texts = Texts {
    versions: CDF5,
    around: ("netcdf t {\nvariables: uint64 v ;\ndata: v = ", END),
    said: ("Known(0)\nv Uint64 []\n= \"", "\""),
    given: br"
0|\x00\x00\x00\x00\x00\x00\x00\x00
18446744073709551615|\xff\xff\xff\xff\xff\xff\xff\xff
01777777777777777777777|\xff\xff\xff\xff\xff\xff\xff\xff
0xffffffffffffffff|\xff\xff\xff\xff\xff\xff\xff\xff
0x0123456789abcdef|\x01#Eg\x89\xab\xcd\xef
0XFEDCBA9876543210|\xfe\xdc\xba\x98vT2\x10
",
    refused: br"
-1|3 NumberRange
18446744073709551616|3 NumberRange
02000000000000000000000|3 NumberRange
0x10000000000000000|3 NumberRange
9999999999999999999999999999999999999999|3 NumberRange
",
    ..WHOLE
};

/// Types of variables, and the values that they are filled with.
const UNSET: Texts = Texts {
    around: ("netcdf t {\nvariables: ", " v ; }"),
    said: ("Known(0)\nv ", "\""),
    given: br#"
byte|Byte []^= "\x81
char|Char []^= "\x00
short|Short []^= "\x80\x01
int|Int []^= "\x80\x00\x00\x01
long|Int []^= "\x80\x00\x00\x01
"#,
    ..WHOLE
};

/// The same of the types of CDF-5.
const UNSET_OF_CDF5: Texts = Texts {
    versions: CDF5,
    given: br#"
ubyte|Ubyte []^= "\xff
ushort|Ushort []^= "\xff\xff
uint|Uint []^= "\xff\xff\xff\xff
int64|Int64 []^= "\x80\x00\x00\x00\x00\x00\x00\x02
uint64|Uint64 []^= "\xff\xff\xff\xff\xff\xff\xff\xfe
"#,
    ..UNSET
};

/// Constants of an attribute, their type, and their bytes.
const CONSTANTS: Texts = Texts {
    around: ("netcdf t {\n:a = ", " ; }"),
    said: ("Known(0)\n:a ", ""),
    given: br#"
-0|Int "\x00\x00\x00\x00"
00B|Byte "\x00"
017S|Short "\x00\x0f"
+1l|Int "\x00\x00\x00\x01"
# in hexadecimal, `b` is a digit
0x1b|Int "\x00\x00\x00\x1b"
0x1bb|Int "\x00\x00\x01\xbb"
0X1BS|Short "\x00\x1b"
0xAbCdEfL|Int "\x00\xab\xcd\xef"
127b, -128B|Byte "\x7f\x80"
0x7fffs, -0x8000s|Short "\x7f\xff\x80\x00"
2147483647, -2147483648|Int "\x7f\xff\xff\xff\x80\x00\x00\x00"
1, 2L, 0x3, 04l|Int "\x00\x00\x00\x01\x00\x00\x00\x02\x00\x00\x00\x03\x00\x00\x00\x04"
1s, 2S,-3s ,4s , 05s, 6s|Short "\x00\x01\x00\x02\xff\xfd\x00\x04\x00\x05\x00\x06"
1b, 2b, -3B//^, 4b, 5b|Byte "\x01\x02\xfd\x04\x05"
"#,
    refused: br"
128b|2 NumberRange
-129b|2 NumberRange
32768s|2 NumberRange
-32769s|2 NumberRange
2147483648|2 NumberRange
-2147483649l|2 NumberRange
# these have no form of an integer
08|2 BadNumber
018|2 BadNumber
09b|2 BadNumber
0x|2 BadNumber
-0xg|2 BadNumber
0xs|2 BadNumber
1.|2 BadNumber
-.5|2 BadNumber
+.5e3|2 BadNumber
1.2.3|2 BadNumber
1e5|2 BadNumber
1f|2 BadNumber
1_000|2 BadNumber
1bb|2 BadNumber
1lll|2 BadNumber
1lu|2 BadNumber
1ul|2 BadNumber
1bu|2 BadNumber
0b1|2 BadNumber
0o7|2 BadNumber
12a|2 BadNumber
12c|2 BadNumber
12_|2 BadNumber
12bs|2 BadNumber
1x1|2 BadNumber
00x1|2 BadNumber
# a sign that no digit follows is no number
+|2 BadToken
+-7|2 BadToken
",
    ..WHOLE
};

/// Constants with the suffixes of CDF-5.
const CONSTANTS_OF_CDF5: Texts = Texts {
    versions: CDF5,
    given: br#"
1uB|Ubyte "\x01"
0x1ub|Ubyte "\x01"
0ub, 255UB|Ubyte "\x00\xff"
01Us, 65535us|Ushort "\x00\x01\xff\xff"
-0U, 4294967295u|Uint "\x00\x00\x00\x00\xff\xff\xff\xff"
0x1Ll|Int64 "\x00\x00\x00\x00\x00\x00\x00\x01"
-9223372036854775808ll|Int64 "\x80\x00\x00\x00\x00\x00\x00\x00"
1uLl|Uint64 "\x00\x00\x00\x00\x00\x00\x00\x01"
18446744073709551615ull|Uint64 "\xff\xff\xff\xff\xff\xff\xff\xff"
"#,
    refused: br"
256UB|2 NumberRange
65536us|2 NumberRange
-1U|2 NumberRange
4294967296u|2 NumberRange
9223372036854775808ll|2 NumberRange
18446744073709551616ull|2 NumberRange
12us1|2 BadNumber
1u, 1|2 MixedConstants
1ub, 1b|2 MixedConstants
1L, 1LL|2 MixedConstants
",
    ..CONSTANTS
};

/// The older versions don't have these suffixes.
const CONSTANTS_OF_OLD_VERSIONS: Texts = Texts {
    versions: OLD_VERSIONS,
    given: b"",
    refused: br"
256UB|2 BadNumber
0x1ub|2 BadNumber
-1U|2 BadNumber
1us|2 BadNumber
1ll|2 BadNumber
1ull|2 BadNumber
",
    ..CONSTANTS
};

/// Lengths of a dimension.
const LENGTHS: Texts = Texts {
    around: ("netcdf t {\ndimensions: x = ", " ; }"),
    said: ("Known(0)\nx = ", ""),
    given: br"
+7|7
300b|300
70000S|70000
2147483647|2147483647
017777777777|2147483647
0x0000000000000000000000007fffffffL|2147483647
UNLIMITED|0
unlimited|0
",
    refused: br"
0b|2 ZeroDimension
-0|2 ZeroDimension
0x0s|2 ZeroDimension
-1|2 NumberRange
9223372036854775808|2 NumberRange
9999999999999999999999999999999999999999|2 NumberRange
1.0|2 BadNumber
08|2 BadNumber
",
    ..WHOLE
};

/// Lengths that only CDF-5 has.
const LENGTHS_OF_CDF5: Texts = Texts {
    versions: CDF5,
    given: br"
2147483648|2147483648
9223372036854775807|9223372036854775807
",
    ..LENGTHS
};

/// The older versions don't have them.
const LENGTHS_OF_OLD_VERSIONS: Texts = Texts {
    versions: OLD_VERSIONS,
    given: b"",
    refused: br"
2147483648|2 NumberRange
9223372036854775807|2 NumberRange
0x80000000|2 NumberRange
",
    ..LENGTHS
};

#[test]
fn values_keep_to_their_ranges(rt: HostRuntime) -> Result<(), AllocError> {
    static OLD: &[Texts] = &[BYTES, SHORTS, INTS, UNSET];
    static NEW: &[Texts] = &[UBYTES, USHORTS, UINTS, INT64S, UINT64S, UNSET_OF_CDF5];
    check(&rt, rt.alloc(), OLD)?;
    check(&rt, rt.alloc(), NEW)
}

#[test]
fn constants_and_lengths_keep_to_their_ranges(rt: HostRuntime) -> Result<(), AllocError> {
    static OF_CONSTANTS: &[Texts] = &[CONSTANTS, CONSTANTS_OF_CDF5, CONSTANTS_OF_OLD_VERSIONS];
    static OF_LENGTHS: &[Texts] = &[LENGTHS, LENGTHS_OF_CDF5, LENGTHS_OF_OLD_VERSIONS];
    check(&rt, rt.alloc(), OF_CONSTANTS)?;
    check(&rt, rt.alloc(), OF_LENGTHS)
}
