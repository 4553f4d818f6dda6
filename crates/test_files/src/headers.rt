//! Files whose header is what is tried.

/// CDF-1 without anything: magic, no records, three absent lists.
pub const SMALLEST: &[u8] = b"CDF\x01\0\0\0\0\
    \0\0\0\0\0\0\0\0\
    \0\0\0\0\0\0\0\0\
    \0\0\0\0\0\0\0\0";

/// CDF-5 without anything: all counts have eight bytes.
pub const SMALLEST_CDF5: &[u8] = b"CDF\x05\0\0\0\0\0\0\0\0\
    \0\0\0\0\0\0\0\0\0\0\0\0\
    \0\0\0\0\0\0\0\0\0\0\0\0\
    \0\0\0\0\0\0\0\0\0\0\0\0";

/// The record dimension `t` and two records.
pub const TWO_RECORDS: &[u8] = b"CDF\x01\0\0\0\x02\
    \0\0\0\x0a\0\0\0\x01\
    \0\0\0\x01t\0\0\0\0\0\0\0\
    \0\0\0\0\0\0\0\0\
    \0\0\0\0\0\0\0\0";

/// The same with the streaming mark for the number of records, which without record variables means none.
pub const STREAMED_RECORDS: &[u8] = b"CDF\x01\xff\xff\xff\xff\
    \0\0\0\x0a\0\0\0\x01\
    \0\0\0\x01t\0\0\0\0\0\0\0\
    \0\0\0\0\0\0\0\0\
    \0\0\0\0\0\0\0\0";

/// The global attribute `note`: two lines of text.
pub const TEXT_ATTRIBUTE: &[u8] = b"CDF\x01\0\0\0\0\
    \0\0\0\0\0\0\0\0\
    \0\0\0\x0c\0\0\0\x01\
    \0\0\0\x04note\0\0\0\x02\0\0\0\x04a\nb\n\
    \0\0\0\0\0\0\0\0";

/// A list of 2147483647 dimensions. The file has two of them.
pub const HOSTILE_COUNT: &[u8] = b"CDF\x01\0\0\0\0\
    \0\0\0\x0a\x7f\xff\xff\xff\
    \0\0\0\x01x\0\0\0\0\0\0\x01\
    \0\0\0\x01y\0\0\0\0\0\0\x01";

/// A list of 2^63 - 1 dimensions, and the file's end.
pub const HOSTILE_COUNT_CDF5: &[u8] =
    b"CDF\x05\0\0\0\0\0\0\0\0\0\0\0\x0a\x7f\xff\xff\xff\xff\xff\xff\xff";

/// Two dimensions of length 0.
pub const TWO_RECORD_DIMS: &[u8] = b"CDF\x01\0\0\0\0\
    \0\0\0\x0a\0\0\0\x02\
    \0\0\0\x01x\0\0\0\0\0\0\0\
    \0\0\0\x01y\0\0\0\0\0\0\0";

/// Another dimension between them.
pub const RECORD_DIMS_APART: &[u8] = b"CDF\x01\0\0\0\0\
    \0\0\0\x0a\0\0\0\x03\
    \0\0\0\x01x\0\0\0\0\0\0\0\
    \0\0\0\x01y\0\0\0\0\0\0\x03\
    \0\0\0\x01z\0\0\0\0\0\0\0";

/// `byte b(x, x)`, x = 2147483647: a slab of nearly 2^62 bytes.
pub const LARGE_SLAB: &[u8] = b"CDF\x01\0\0\0\0\
    \0\0\0\x0a\0\0\0\x01\
    \0\0\0\x01x\0\0\0\x7f\xff\xff\xff\
    \0\0\0\0\0\0\0\0\
    \0\0\0\x0b\0\0\0\x01\
    \0\0\0\x01b\0\0\0\
    \0\0\0\x02\0\0\0\0\0\0\0\0\
    \0\0\0\0\0\0\0\0\
    \0\0\0\x01\xff\xff\xff\xff\0\0\0\x54";

/// `t = UNLIMITED`, `int v(t)`, and no records: the header alone.
pub const NO_RECORDS: &[u8] = b"CDF\x01\0\0\0\0\
    \0\0\0\x0a\0\0\0\x01\
    \0\0\0\x01t\0\0\0\0\0\0\0\
    \0\0\0\0\0\0\0\0\
    \0\0\0\x0b\0\0\0\x01\
    \0\0\0\x01v\0\0\0\
    \0\0\0\x01\0\0\0\0\
    \0\0\0\0\0\0\0\0\
    \0\0\0\x04\0\0\0\x04\0\0\0\x50";

/// The scalars `int data` = 5 with `units` = `m`, and `short 2 b` = 6: a reserved word, and a digit and a space in a name.
pub const ESCAPED_NAMES: &[u8] = b"CDF\x01\0\0\0\0\
    \0\0\0\0\0\0\0\0\
    \0\0\0\0\0\0\0\0\
    \0\0\0\x0b\0\0\0\x02\
    \0\0\0\x04data\
    \0\0\0\0\
    \0\0\0\x0c\0\0\0\x01\
    \0\0\0\x05units\0\0\0\0\0\0\x02\0\0\0\x01m\0\0\0\
    \0\0\0\x04\0\0\0\x04\0\0\0\x78\
    \0\0\0\x032 b\0\
    \0\0\0\0\
    \0\0\0\0\0\0\0\0\
    \0\0\0\x03\0\0\0\x04\0\0\0\x7c\
    \0\0\0\x05\
    \0\x06\x80\x01";

/// `a` and a NUL, `b` and two NULs as global attribute `note`, and two NULs as `units` of the scalar `byte b` = 1.
pub const NULS_IN_ATTRIBUTES: &[u8] = b"CDF\x01\0\0\0\0\
    \0\0\0\0\0\0\0\0\
    \0\0\0\x0c\0\0\0\x01\
    \0\0\0\x04note\0\0\0\x02\0\0\0\x05a\0b\0\0\0\0\0\
    \0\0\0\x0b\0\0\0\x01\
    \0\0\0\x01b\0\0\0\
    \0\0\0\0\
    \0\0\0\x0c\0\0\0\x01\
    \0\0\0\x05units\0\0\0\0\0\0\x02\0\0\0\x02\0\0\0\0\
    \0\0\0\x01\0\0\0\x04\0\0\0\x70\
    \x01\x81\x81\x81";

/// The same without the NULs at the end of each attribute.
pub const NULS_TRIMMED: &[u8] = b"CDF\x01\0\0\0\0\
    \0\0\0\0\0\0\0\0\
    \0\0\0\x0c\0\0\0\x01\
    \0\0\0\x04note\0\0\0\x02\0\0\0\x03a\0b\0\
    \0\0\0\x0b\0\0\0\x01\
    \0\0\0\x01b\0\0\0\
    \0\0\0\0\
    \0\0\0\x0c\0\0\0\x01\
    \0\0\0\x05units\0\0\0\0\0\0\x02\0\0\0\0\
    \0\0\0\x01\0\0\0\x04\0\0\0\x68\
    \x01\x81\x81\x81";
