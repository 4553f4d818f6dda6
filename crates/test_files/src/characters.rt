//! Files of character variables.

/// `char c(x)`, x = 5, with NULs between two characters and after the last: 80 bytes of header and 8 of data.
pub const HELD_NULS: &[u8] = b"CDF\x01\0\0\0\0\
    \0\0\0\x0a\0\0\0\x01\
    \0\0\0\x01x\0\0\0\0\0\0\x05\
    \0\0\0\0\0\0\0\0\
    \0\0\0\x0b\0\0\0\x01\
    \0\0\0\x01c\0\0\0\
    \0\0\0\x01\0\0\0\0\
    \0\0\0\0\0\0\0\0\
    \0\0\0\x02\0\0\0\x08\0\0\0\x50\
    a\0\0b\0\0\0\0";

/// The same with x = 20 and 18 NULs between the characters.
pub const MANY_HELD_NULS: &[u8] = b"CDF\x01\0\0\0\0\
    \0\0\0\x0a\0\0\0\x01\
    \0\0\0\x01x\0\0\0\0\0\0\x14\
    \0\0\0\0\0\0\0\0\
    \0\0\0\x0b\0\0\0\x01\
    \0\0\0\x01c\0\0\0\
    \0\0\0\x01\0\0\0\0\
    \0\0\0\0\0\0\0\0\
    \0\0\0\x02\0\0\0\x14\0\0\0\x50\
    a\0\0\0\0\0\0\0\0\0\0\0\0\0\0\0\0\0\0b";

/// `t = UNLIMITED`, `char c(t)` with two records of NULs: a record variable of rank 1, whose NULs are all printed.
pub const ALL_NULS: &[u8] = b"CDF\x01\0\0\0\x02\
    \0\0\0\x0a\0\0\0\x01\
    \0\0\0\x01t\0\0\0\0\0\0\0\
    \0\0\0\0\0\0\0\0\
    \0\0\0\x0b\0\0\0\x01\
    \0\0\0\x01c\0\0\0\
    \0\0\0\x01\0\0\0\0\
    \0\0\0\0\0\0\0\0\
    \0\0\0\x02\0\0\0\x04\0\0\0\x50\
    \0\0";

/// `char c(x)`, x = 6, with a tab, a quote, a backslash, 0x7f, and a letter of two bytes.
pub const ESCAPED_CHARACTERS: &[u8] = b"CDF\x01\0\0\0\0\
    \0\0\0\x0a\0\0\0\x01\
    \0\0\0\x01x\0\0\0\0\0\0\x06\
    \0\0\0\0\0\0\0\0\
    \0\0\0\x0b\0\0\0\x01\
    \0\0\0\x01c\0\0\0\
    \0\0\0\x01\0\0\0\0\
    \0\0\0\0\0\0\0\0\
    \0\0\0\x02\0\0\0\x08\0\0\0\x50\
    \x09\x22\x5c\x7f\xc3\xa9\0\0";

/// `char c(t, x)`, x = 3, and two records: a letter with two NULs, and three NULs.
pub const ROWS_OF_NULS: &[u8] = b"CDF\x01\0\0\0\x02\
    \0\0\0\x0a\0\0\0\x02\
    \0\0\0\x01t\0\0\0\0\0\0\0\
    \0\0\0\x01x\0\0\0\0\0\0\x03\
    \0\0\0\0\0\0\0\0\
    \0\0\0\x0b\0\0\0\x01\
    \0\0\0\x01c\0\0\0\
    \0\0\0\x02\0\0\0\0\0\0\0\x01\
    \0\0\0\0\0\0\0\0\
    \0\0\0\x02\0\0\0\x04\0\0\0\x60\
    a\0\0\
    \0\0\0";

/// The same, whose `_FillValue` is `x`.
pub const ROWS_OF_NULS_AND_FILL: &[u8] = b"CDF\x01\0\0\0\x02\
    \0\0\0\x0a\0\0\0\x02\
    \0\0\0\x01t\0\0\0\0\0\0\0\
    \0\0\0\x01x\0\0\0\0\0\0\x03\
    \0\0\0\0\0\0\0\0\
    \0\0\0\x0b\0\0\0\x01\
    \0\0\0\x01c\0\0\0\
    \0\0\0\x02\0\0\0\0\0\0\0\x01\
    \0\0\0\x0c\0\0\0\x01\
    \0\0\0\x0a_FillValue\0\0\0\0\0\x02\0\0\0\x01x\0\0\0\
    \0\0\0\x02\0\0\0\x04\0\0\0\x7c\
    a\0\0\
    \0\0\0";

/// `char c(y, x)`, y = 3, x = 3, whose `_FillValue` is `-`, with `ab` and `c`: what rows lack, a row and the padding
/// are filled with it.
pub const FILLED_ROWS: &[u8] = b"CDF\x01\0\0\0\0\
    \0\0\0\x0a\0\0\0\x02\
    \0\0\0\x01y\0\0\0\0\0\0\x03\
    \0\0\0\x01x\0\0\0\0\0\0\x03\
    \0\0\0\0\0\0\0\0\
    \0\0\0\x0b\0\0\0\x01\
    \0\0\0\x01c\0\0\0\
    \0\0\0\x02\0\0\0\0\0\0\0\x01\
    \0\0\0\x0c\0\0\0\x01\
    \0\0\0\x0a_FillValue\0\0\0\0\0\x02\0\0\0\x01-\0\0\0\
    \0\0\0\x02\0\0\0\x0c\0\0\0\x7c\
    ab-c--------";

/// `char c(x, y)`, x = 2, y = 1, with one string: the second row is a NUL, and so is the padding.
pub const SECOND_ROW_LACKING: &[u8] = b"CDF\x01\0\0\0\0\
    \0\0\0\x0a\0\0\0\x02\
    \0\0\0\x01x\0\0\0\0\0\0\x02\
    \0\0\0\x01y\0\0\0\0\0\0\x01\
    \0\0\0\0\0\0\0\0\
    \0\0\0\x0b\0\0\0\x01\
    \0\0\0\x01c\0\0\0\
    \0\0\0\x02\0\0\0\0\0\0\0\x01\
    \0\0\0\0\0\0\0\0\
    \0\0\0\x02\0\0\0\x04\0\0\0\x60\
    a\0\0\0";
