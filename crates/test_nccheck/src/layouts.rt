//! What is wrong or odd in files whose header is whole, and in files that are cut.

/// Types, sizes and attributes, in headers that are read to their end.
pub const FIELDS: &str = r#"
CLEAN

RECORD_BYTES

UNSIGNED_FILLS

# padding, a float, and a NUL at the end of a text, before missing values
ODD_HEADER
f:21: violation: padding: dim[0] "x" name padding: found 0x000700, expected 0x000000
f:44: note: floating-type: gatt[0] "f" type: found 5 (float)
f:72: note: trailing-nul: gatt[1] "nt" values
f:75: violation: padding: gatt[1] "nt" padding: found 0xff, expected 0x00
f:128: error: missing: var[0] "depth": found 128 bytes, expected at least 140

EMPTY_LISTS
f:4: note: unused-records: numrecs: found 3, expected 0
f:8: note: empty-list: dims tag: found 10, expected 0
f:16: note: empty-list: gatts tag: found 12, expected 0
f:24: note: empty-list: vars tag: found 11, expected 0

STREAMED_HEADER
f:4: violation: streaming: numrecs: found the streaming mark, for 0
f:64: note: empty-list: gatts tag: found 12, expected 0
f:180: note: floating-type: var[0] "v" att[1] "b" type: found 6 (double)
f:184: note: empty-attribute: var[0] "v" att[1] "b" count: found 0, expected at least 1
f:264: error: missing: var[1] "w": found 264 bytes, expected at least 268
f:268: note: gap: data: found 4294967028 unused bytes before the records

# two floats, and three doubles in the place of three shorts
ONE_VARIABLE 27=02 71=05
f:68: note: floating-type: var[0] "s" type: found 5 (float)

ONE_VARIABLE 71=06
f:68: note: floating-type: var[0] "s" type: found 6 (double)
f:72: violation: vsize: var[0] "s" vsize: found 8, expected 24
f:88: error: missing: var[0] "s": found 88 bytes, expected at least 104

# 1025 dimensions: the header is longer than the buffer that it is read through
ONE_VARIABLE 27=01 52=00000401 ..56 ..4164 4164=00000003000000040000105000000000
f:52: violation: high-rank: var[0] "s" rank: found 1025, expected at most 1024

# a fill value of another type than its variable, and two of the right one
FILLED_SHORTS

FILLED_SHORTS 87=04
f:84: violation: fill-value: var[0] "s" att[0] "_FillValue" type: found 4 (int), expected 3 (short), the variable's type

FILLED_SHORTS 91=02
f:88: violation: fill-value: var[0] "s" att[0] "_FillValue" count: found 2, expected 1

CLEAN 142=1000
f:140: violation: vsize: var[0] "x" vsize: found 4096, expected 12

# the size of a sole record variable of bytes, without its padding, 0, and any other
RECORD_BYTES 75=01
f:72: note: odd-vsize: var[0] "b" vsize: found 1, expected 4

RECORD_BYTES 75=00
f:72: note: odd-vsize: var[0] "b" vsize: found 0, expected 4

RECORD_BYTES 75=03
f:72: violation: vsize: var[0] "b" vsize: found 3, expected 4
"#;

/// The number of records, and where variables begin.
pub const BEGINS: &str = r#"
TWO_RECORDS
f:4: note: unused-records: numrecs: found 2, expected 0

CLEAN 4=ffffffff
f:4: violation: streaming: numrecs: found the streaming mark, for 3

CLEAN 4=ffffffff 142=1000
f:4: violation: streaming: numrecs: found the streaming mark, for 3
f:140: violation: vsize: var[0] "x" vsize: found 4096, expected 12

CLEAN 146=0008
f:144: error: begin-in-header: var[0] "x" begin: found 8, expected at least 348, the end of the header
f:348: note: gap: data: found 12 unused bytes before var[1] "depth"

CLEAN 147=64 187=5c
f:184: error: order: var[1] "depth" begin: found 348, expected at least 356, the begin of var[0] "x"

CLEAN 187=64
f:184: error: overlap: var[1] "depth" begin: found 356, expected at least 360, the end of var[0] "x"
f:364: note: gap: data: found 4 unused bytes before the records

CLEAN 186=01a0 423=00
f:184: error: after-records: var[1] "depth" begin: found 416, expected at most 368, the begin of the records
f:360: note: gap: data: found 8 unused bytes before the records

# the records begin in the padding
CLEAN 247=6e 311=72 347=7a
f:244: error: unpadded: var[2] "t" begin: found 366, expected at least 368, the padded end of var[1] "depth"
f:414: violation: trailing: data: found 416 bytes, expected 414

# two variables of three bytes, the second one in the padding of the first
ONE_VARIABLE 43=02 48=61 71=010000000400000074 80=000000016200000000000001 92=000000000000000000000000 104=000000010000000400000077 116=00000000000000
f:112: error: unpadded: var[1] "b" begin: found 119, expected at least 120, the padded end of var[0] "a"

# one record of four bytes, in a file whose length was set before
RECORD_BYTES 7=01 71=04 ..80 ..8188
f:84: violation: trailing: data: found 8188 bytes, expected 84, or numrecs 2027

# the slabs of two record variables change places
CLEAN 247=78 311=70
f:244: error: record-place: var[2] "t" begin: found 376, expected 368
f:308: error: record-place: var[3] "h" begin: found 368, expected 372

# all begins are 512 bytes later
CLEAN 146=03 186=03 246=03 310=03 346=03 927=00
f:348: note: gap: data: found 512 unused bytes before var[0] "x"

# 2^31 - 4 bytes, and 2^31, before another variable
COORDINATES 24=1fffffff 72=7ffffffc 108=7ffffffc
f:112: error: overlap: var[1] "y" begin: found 124, expected at least 2147483760, the end of var[0] "x"
f:132: error: missing: var[0] "x": found 132 bytes, expected at least 2147483768

COORDINATES 24=20000000 72=80000000 108=80000000
f:72: error: large-variable: var[0] "x": found a slab of 2147483648 bytes, expected at most 2147483644
f:112: error: overlap: var[1] "y" begin: found 124, expected at least 2147483764, the end of var[0] "x"
f:132: error: missing: var[0] "x": found 132 bytes, expected at least 2147483772

# 2^32 - 4 bytes in CDF-2, and 2^32, before another variable
ONE_VARIABLE_CDF2 24=3fffffff 43=02 71=04fffffffc 83=7c 84=000000017900000000000001 96=000000000000000000000000 108=00000004fffffffc0000000100000078
f:124: error: missing: var[0] "s": found 124 bytes, expected at least 8589934708

ONE_VARIABLE_CDF2 24=40000000 43=02 71=04ffffffff 83=7c 84=000000017900000000000001 96=000000000000000000000000 108=00000004ffffffff000000010000007c
f:72: error: large-variable: var[0] "s": found a slab of 4294967296 bytes, expected at most 4294967292
f:124: error: missing: var[0] "s": found 124 bytes, expected at least 8589934716
"#;

/// Files that are cut, or have zeros after them.
pub const CUT: &str = r#"
CLEAN ..0
f:0: error: empty-file: magic: found 0 bytes

CLEAN ..2
f:0: error: not-netcdf: magic: found 0x4344, expected 0x434446

CLEAN ..3
f:3: error: header-truncated: version: found 0, expected 1 bytes

CLEAN ..7
f:4: error: header-truncated: numrecs: found 3, expected 4 bytes

UNSIGNED_RECORDS ..11
f:4: error: header-truncated: numrecs: found 7, expected 8 bytes

ONE_VARIABLE ..22
f:21: error: header-truncated: dim[0] "x" name padding: found 1, expected 3 bytes

ONE_VARIABLE ..28
f:28: error: header-truncated: gatts tag: found 0, expected 4 bytes

ONE_VARIABLE_CDF2 ..79
f:76: error: header-truncated: var[0] "s" begin: found 3, expected 8 bytes

CLEAN ..344
f:344: error: header-truncated: var[4] "q" begin: found 0, expected 4 bytes

CLEAN ..404
f:404: error: missing: var[3] "h" record 2: found 404 bytes, expected at least 413

CLEAN ..415
f:415: note: end-padding: data: found 415 bytes, expected 416

# padding after the last of three records of a byte, as netCDF-C leaves it, and one byte more
RECORD_BYTES ..86
f:83: note: end-padding: data: found 86 bytes, expected 83

RECORD_BYTES ..87
f:83: violation: trailing: data: found 87 bytes, expected 83, or numrecs 7

# no records, and so no padding
RECORD_BYTES 4=00000000 ..81
f:80: violation: trailing: data: found 81 bytes, expected 80, or numrecs 1

CLEAN ..420
f:416: violation: trailing: data: found 420 bytes, expected 416

CLEAN ..432
f:416: violation: trailing: data: found 432 bytes, expected 416, or numrecs 4
"#;
