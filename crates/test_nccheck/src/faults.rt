//! Faults of headers, and their lines. A check of a header ends at its first error.

/// Faults of fields that are whole, in the order of the header.
pub const FAULTS: &str = r#"
# the signature of HDF5 with another byte at its end, and seven bytes of it; those of gzip, with others and alone
0=894844460d0a1a0d00
f:0: error: not-netcdf: magic: found 0x894844, expected 0x434446

0=894844460d0a1a
f:0: error: not-netcdf: magic: found 0x894844, expected 0x434446

0=1f8b0800
f:0: error: gzip: magic: found 0x1f8b

0=1f8b
f:0: error: gzip: magic: found 0x1f8b

ONE_VARIABLE 3=03
f:3: error: unknown-version: version: found 3, expected 1, 2 or 5

# the least number of records with its top bit, the greatest one that isn't the streaming mark, and one of a file with records
ONE_VARIABLE 4=80
f:4: violation: large-count: numrecs: found 2147483648, expected below 2147483648
f:4: note: unused-records: numrecs: found 2147483648, expected 0

ONE_VARIABLE_CDF2 4=fffffffe
f:4: violation: large-count: numrecs: found 4294967294, expected below 2147483648
f:4: note: unused-records: numrecs: found 4294967294, expected 0

CLEAN 4=80
f:4: violation: large-count: numrecs: found 2147483651, expected below 2147483648
f:416: error: missing: var[2] "t" record 3: found 416 bytes, expected at least 34359738781

SMALLEST_CDF5 4=80
f:4: error: bad-count: numrecs: found 9223372036854775808, expected below 9223372036854775808

# no tag, and elements
ONE_VARIABLE 11=00
f:12: error: bad-count: dims count: found 1, expected 0

CLEAN 11=0080
f:12: error: bad-count: dims count: found 2147483650, expected 0

ONE_VARIABLE 12=80
f:12: error: bad-count: dims count: found 2147483649, expected below 2147483648

# a name of 2^31 - 1 bytes
ONE_VARIABLE 16=7fffffff
f:16: violation: long-name: dim[0] name length: found 2147483647, expected at most 256
f:20: error: header-truncated: dim[0] name: found 68, expected 2147483647 bytes

CLEAN 36=80000000
f:36: violation: large-count: dim[1] "x" length: found 2147483648, expected below 2147483648
f:140: note: odd-vsize: var[0] "x" vsize: found 12, expected 4294967295
f:140: error: large-variable: var[0] "x": found a slab of 8589934592 bytes, expected at most 2147483644
f:180: note: odd-vsize: var[1] "depth" vsize: found 8, expected 4294967295
f:180: error: large-variable: var[1] "depth": found a slab of 4294967296 bytes, expected at most 2147483644
f:184: error: overlap: var[1] "depth" begin: found 360, expected at least 8589934940, the end of var[0] "x"
f:244: error: overlap: var[2] "t" begin: found 368, expected at least 8589934940, the end of var[0] "x"
f:304: note: odd-vsize: var[3] "h" vsize: found 8, expected 4294967295
f:304: error: large-variable: var[3] "h": found a slab of 4294967296 bytes, expected at most 2147483644
f:344: error: record-place: var[4] "q" begin: found 380, expected 4294967668
f:416: error: missing: var[0] "x": found 416 bytes, expected at least 12884902276

RECORD_DIMS_APART
f:48: error: two-record-dims: dim[2] "z" length: found 0, expected at least 1

TEXT_ATTRIBUTE 35=00
f:32: error: bad-type: gatt[0] "note" type: found 0, expected 1 to 6

TEXT_ATTRIBUTE 35=07
f:32: error: bad-type: gatt[0] "note" type: found 7 (ubyte), expected 1 to 6

UNSIGNED_FILLS 103=0c
f:100: error: bad-type: var[0] "a" att[0] "_FillValue" type: found 12, expected 1 to 11

# 2^63 - 1 values of 8 bytes
UNSIGNED_FILLS 184=7fffffffffffffff
f:192: error: header-truncated: var[1] "b" att[0] "r" values: found 48, expected 73786976294838206456 bytes

# the tag of dimensions before variables
CLEAN 83=0a
f:80: error: bad-tag: vars tag: found 10, expected 0 or 11

# the id of no dimension, and that of the record dimension in second place
ONE_VARIABLE 59=01
f:56: error: bad-shape: var[0] "s" dimid[0]: found 1, expected below 1

CLEAN 263=0100000000
f:264: error: bad-shape: var[3] "h" dimid[1]: found 0, expected no record dimension here

# a type that is none, of a variable whose fill value has another one
FILLED_SHORTS 99=0c
f:96: error: bad-type: var[0] "s" type: found 12, expected 1 to 6

# 2^23 by 2^23 and by 2^22 values of 8 bytes: 2^49 bytes, and 2^48
SECOND_ROW_LACKING 24=00800000 36=00800000 87=06
f:84: note: floating-type: var[0] "c" type: found 6 (double)
f:84: error: too-large: var[0] "c" type

SECOND_ROW_LACKING 24=00800000 36=00400000 87=06ffffffff
f:84: note: floating-type: var[0] "c" type: found 6 (double)
f:100: error: missing: var[0] "c": found 100 bytes, expected at least 281474976710752

# begins with their top bit, of 4 and of 8 bytes
ONE_VARIABLE 76=80
f:76: error: bad-offset: var[0] "s" begin: found 2147483728, expected below 2147483648

ONE_VARIABLE_CDF2 76=80
f:76: error: bad-offset: var[0] "s" begin: found 9223372036854775892, expected below 9223372036854775808
"#;

/// Names of dimensions, variables and attributes. Of a header that is read to its end, the number of records without a record variable is
/// found too.
pub const NAMES: &str = r#"
# a space inside, a slash, a space at the end, and NULs at the end
TWO_RECORDS 19=0361206200
f:4: note: unused-records: numrecs: found 2, expected 0

TWO_RECORDS 19=03612f6200
f:4: note: unused-records: numrecs: found 2, expected 0
f:20: violation: name-characters: dim[0] "a/b" name

TWO_RECORDS 19=0261200000
f:4: note: unused-records: numrecs: found 2, expected 0
f:20: violation: name-characters: dim[0] "a " name

TWO_RECORDS 19=04
f:4: note: unused-records: numrecs: found 2, expected 0
f:20: violation: name-characters: dim[0] "t\000\000\000" name

# an e with an acute accent, in UTF-8 and in Latin-1
TWO_RECORDS 19=02c3a90000
f:4: note: unused-records: numrecs: found 2, expected 0

TWO_RECORDS 19=026de92121
f:4: note: unused-records: numrecs: found 2, expected 0
f:20: violation: name-characters: dim[0] "m\351" name
f:22: violation: padding: dim[0] "m\351" name padding: found 0x2121, expected 0x0000

# names at which reading stops: of no bytes, with control characters, with NULs inside, and a NUL alone
TWO_RECORDS 19=00
f:20: error: bad-name: dim[0] "" name

TWO_RECORDS 19=02610a
f:20: error: bad-name: dim[0] "a\n" name

TWO_RECORDS 19=02617f
f:20: error: bad-name: dim[0] "a\177" name

TWO_RECORDS 19=020061
f:20: error: bad-name: dim[0] "\000a" name

TWO_RECORDS 19=0461000062
f:20: error: bad-name: dim[0] "a\000\000b" name

TWO_RECORDS 19=0100
f:20: error: bad-name: dim[0] "\000" name

ESCAPED_NAMES 37=2f
f:36: violation: name-characters: var[0] "d/ta" name

# accents after their letters
ONE_VARIABLE 47=0365cc81
f:48: violation: not-nfc: var[0] "é" name

COORDINATES 84=78
f:84: violation: duplicate-name: var[1] "x" name: found the name of number 0

CLEAN 158=01
f:157: violation: padding: var[1] "depth" name padding: found 0x000100, expected 0x000000
"#;

/// HDF5 files, by their superblocks.
pub const HDF5: &str = r#"
# shorter than any superblock: the signature alone, and 47 bytes
0=894844460d0a1a0a
f:0: error: hdf5: magic: found 0x894844460d0a1a0a
f:8: error: hdf5-truncated: data: found 8 bytes, expected at least 48

0=894844460d0a1a0a ..47
f:0: error: hdf5: magic: found 0x894844460d0a1a0a
f:47: error: hdf5-truncated: data: found 47 bytes, expected at least 48

# version 0: a file that is its superblock, one with 200 bytes, and one that lacks the last of them
0=894844460d0a1a0a 13=08 40=30 ..48
f:0: error: hdf5: magic: found 0x894844460d0a1a0a

0=894844460d0a1a0a 13=08 40=c8 ..200
f:0: error: hdf5: magic: found 0x894844460d0a1a0a

0=894844460d0a1a0a 13=08 40=c8 ..199
f:0: error: hdf5: magic: found 0x894844460d0a1a0a
f:199: error: hdf5-truncated: data: found 199 bytes, expected at least 200

# version 1: the end stands four bytes later, and the file may end inside of it
0=894844460d0a1a0a01 13=08 ..48
f:0: error: hdf5: magic: found 0x894844460d0a1a0a
f:48: error: hdf5-truncated: data: found 48 bytes, expected at least 52

0=894844460d0a1a0a01 13=08 ..51
f:0: error: hdf5: magic: found 0x894844460d0a1a0a
f:51: error: hdf5-truncated: data: found 51 bytes, expected at least 52

0=894844460d0a1a0a01 13=08 40=ffffffff34 ..52
f:0: error: hdf5: magic: found 0x894844460d0a1a0a

0=894844460d0a1a0a01 13=08 40=ffffffff35 ..52
f:0: error: hdf5: magic: found 0x894844460d0a1a0a
f:52: error: hdf5-truncated: data: found 52 bytes, expected at least 53

# versions 2 and 3
0=894844460d0a1a0a0208 28=64 ..100
f:0: error: hdf5: magic: found 0x894844460d0a1a0a

0=894844460d0a1a0a0208 28=64 ..99
f:0: error: hdf5: magic: found 0x894844460d0a1a0a
f:99: error: hdf5-truncated: data: found 99 bytes, expected at least 100

0=894844460d0a1a0a0308 28=0001 ..256
f:0: error: hdf5: magic: found 0x894844460d0a1a0a

0=894844460d0a1a0a0308 28=0001 ..255
f:0: error: hdf5: magic: found 0x894844460d0a1a0a
f:255: error: hdf5-truncated: data: found 255 bytes, expected at least 256

# another version, and offsets of four bytes
0=894844460d0a1a0a0408 13=08 28=ff 40=ff ..48
f:0: error: hdf5: magic: found 0x894844460d0a1a0a

0=894844460d0a1a0a 13=04 40=ff ..48
f:0: error: hdf5: magic: found 0x894844460d0a1a0a

0=894844460d0a1a0a0204 28=ff ..48
f:0: error: hdf5: magic: found 0x894844460d0a1a0a

# 2^64 - 1, which stands for no end, and the greatest end
0=894844460d0a1a0a 13=08 40=ffffffffffffffff ..60
f:0: error: hdf5: magic: found 0x894844460d0a1a0a

0=894844460d0a1a0a 13=08 40=feffffffffffffff ..60
f:0: error: hdf5: magic: found 0x894844460d0a1a0a
f:60: error: hdf5-truncated: data: found 60 bytes, expected at least 18446744073709551614
"#;
