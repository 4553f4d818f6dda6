//! Lists of numbers and of rows: with white space, signs, escapes and other values among plain ones, which are read quickly.

use crate::parsing::{Texts, WHOLE, check};
use std::alloc::AllocError;
use std::test::*;

/// Lists of six bytes. Those that are missing are -127.
const BYTES: Texts = Texts {
    around: (
        "netcdf t {\ndimensions: x = 6 ;\nvariables: byte b(x) ;\ndata: b = ",
        " ;\n}\n",
    ),
    said: ("Known(0)\nx = 6\nb Byte [0]\n= \"", "\""),
    given: b"\
        1|\\x01\\x81\\x81\\x81\\x81\\x81\n\
        1, 2, 3, 4|\\x01\\x02\\x03\\x04\\x81\\x81\n\
        1, 2, 3, 4, 5, 6|\\x01\\x02\\x03\\x04\\x05\\x06\n\
        1,2,3,4,5,6|\\x01\\x02\\x03\\x04\\x05\\x06\n\
        1 ,2  ,3 ,  4  ,  5 ,6|\\x01\\x02\\x03\\x04\\x05\\x06\n\
        1^,^2^^,3\x09,\x0d^4\x0b,\x0c5^ ,^ 6|\\x01\\x02\\x03\\x04\\x05\\x06\n\
        1, -2, +3, -0, +0, 6|\\x01\\xfe\\x03\\x00\\x00\\x06\n\
        1, 127, -128, 100, -99, 6|\\x01\\x7f\\x80d\\x9d\\x06\n\
        1, 010, 2, -010, 3, 00|\\x01\\x08\\x02\\xf8\\x03\\x00\n\
        1,010,2,3|\\x01\\x08\\x02\\x03\\x81\\x81\n\
        1, 0x10, 2, -0X1f, 3, 0x0|\\x01\\x10\\x02\\xe1\\x03\\x00\n\
        1, 2b, 3, 4s, 5, 6L|\\x01\\x02\\x03\\x04\\x05\\x06\n\
        1, 2, +3B, 0s, -0L, -128b|\\x01\\x02\\x03\\x00\\x00\\x80\n\
        1, 2, 3b, -4S , 5l,6|\\x01\\x02\\x03\\xfc\\x05\\x06\n\
        1, 2, _, 4, _, 6|\\x01\\x02\\x81\\x04\\x81\\x06\n\
        _, _, _,_ ,_^, _|\\x81\\x81\\x81\\x81\\x81\\x81\n\
        1, 2, _//,^, 4s//^, 5, 6|\\x01\\x02\\x81\\x04\\x05\\x06\n\
        1//,^, 2, // 3,^ 4, 5 // 6^, 7|\\x01\\x02\\x04\\x05\\x07\\x81\n\
        ",
    ..WHOLE
};

/// Lists of four rows of three characters.
const ROWS: Texts = Texts {
    around: (
        "netcdf t {\ndimensions: r = 4, x = 3 ;\nvariables: char c(r, x) ;\ndata: c = ",
        " ;\n}\n",
    ),
    said: ("Known(0)\nr = 4\nx = 3\nc Char [0, 1]\n= \"", "\""),
    given: b"\
        \"\"|\\x00\\x00\\x00\\x00\\x00\\x00\\x00\\x00\\x00\\x00\\x00\\x00\n\
        \"a\", \"bc\"|a\\x00\\x00bc\\x00\\x00\\x00\\x00\\x00\\x00\\x00\n\
        \"abc\",\"def\",\"ghi\",\"jkl\"|abcdefghijkl\n\
        \"abc\"^,\x09\"de\" ,^^  \"\", \"f\"|abcde\\x00\\x00\\x00\\x00f\\x00\\x00\n\
        \"a\", \"\\n\\x41\", \"b\", \"\\\"\\\\\"|a\\x00\\x00\\nA\\x00b\\x00\\x00\\\"\\\\\\x00\n\
        \"a\", \"b^c\", \"d\", \"e\"|a\\x00\\x00b\\ncd\\x00\\x00e\\x00\\x00\n\
        \"a\", \"\\t\", \"b\", \"c\"|a\\x00\\x00\\t\\x00\\x00b\\x00\\x00c\\x00\\x00\n\
        \"a\", // \"long\",^ \"c\" // \"d\"^, \"e\"|a\\x00\\x00c\\x00\\x00e\\x00\\x00\\x00\\x00\\x00\n\
        \"'\", \"//\", \",;}\", \"_\"|\\'\\x00\\x00//\\x00,;}_\\x00\\x00\n\
        ",
    ..WHOLE
};

#[test]
fn lists_have_their_values(rt: HostRuntime) -> Result<(), AllocError> {
    static ALL: &[Texts] = &[BYTES, ROWS];
    check(&rt, rt.alloc(), ALL)
}
