//! What the layout of a file depends on: some numbers of its header, and a slot (begin, size and kind) for each variable.

use nc_base::{NumRecs, Sequence, Version};

/// The slot of a variable: what the rules on the layout look at in it, which is its begin, the size of its slab, and its kind.
#[derive(Clone, Copy, Debug, PartialEq, Eq)]
pub struct Slot {
    /// The offset in the file at which the first slab of the variable begins (`begin` of the NetCDF Classic Format Specification).
    pub begin: u64,
    /// The bytes of a slab, without padding: the values in one record for a record variable, and all values for any other one.
    pub slab: u64,
    /// The variable is a record variable.
    pub is_record: bool,
    /// Each of its values has less than four bytes.
    pub is_narrow: bool,
}

/// What the rules on the layout of a file depend on.
#[derive(Debug, Drop)]
pub struct FileLayout {
    /// The version of the format.
    pub version: Version,
    /// The number of records, as the header has it.
    pub numrecs: NumRecs,
    /// A slot for each variable, in the order of the header.
    pub slots: Sequence<Slot>,
    /// The offset at which the header ends.
    pub header_end: u64,
    /// The length of the file in bytes.
    pub file_len: u64,
}
