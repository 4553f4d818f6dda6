//! What the crates of tests share: files, byte by byte, and the words by which the rows of a text say them, a source that is cut, and
//! paths that can't be opened. Each file stands here once.
#![tactic(auto)]

mod characters;
mod checked;
mod cut_source;
mod headers;
mod made;
mod records;
mod refusing;
mod said;
mod values;
mod words;

pub use characters::{
    ALL_NULS, ESCAPED_CHARACTERS, HELD_NULS, MANY_HELD_NULS, ROWS_OF_NULS, ROWS_OF_NULS_AND_FILL,
};
pub use checked::{CLEAN, EMPTY_LISTS, ODD_HEADER, STREAMED_HEADER};
pub use cut_source::{CutSource, cut};
pub use headers::{
    ESCAPED_NAMES, HOSTILE_COUNT, HOSTILE_COUNT_CDF5, LARGE_SLAB, NO_RECORDS, NULS_IN_ATTRIBUTES,
    NULS_TRIMMED, RECORD_DIMS_APART, SMALLEST, SMALLEST_CDF5, TEXT_ATTRIBUTE, TWO_RECORD_DIMS,
    TWO_RECORDS,
};
pub use made::{patched, repeated};
pub use records::{
    NAMES_AND_STRINGS, PADDED_RECORDS, RECORD_BYTES, RECORDS_OFF_BOUNDARY, THREE_PADDED_RECORDS,
    THREE_VARIABLES,
};
pub use refusing::Refusing;
pub use said::{char_bytes, file_of, hex_bytes};
pub use values::{
    COORDINATES, FILL_OF_BYTES, FORTY_SHORTS, LONG_LINE, LOW_BYTE, ONE_VARIABLE, ONE_VARIABLE_CDF2,
    ONE_VARIABLE_CDF5, SHORT_LINE, UNSIGNED_FILLS,
};
pub use words::{cells_of, parts_of};
