//! What can be found about the layout of a file.

/// Where in the file a finding lies.
#[derive(Clone, Copy, Debug, PartialEq, Eq)]
pub enum LayoutPlace {
    /// At the number of records in the header.
    NumRecs,
    /// At the field `vsize` of the variable with this index.
    Vsize(u64),
    /// At the field `begin` of the variable with this index.
    Begin(u64),
    /// At this offset, in the data after the header.
    Data(u64),
}

/// Which block of the data it is: the values of a variable that isn't a record variable, or all records together.
#[derive(Clone, Copy, Debug, PartialEq, Eq, PartialOrd, Ord)]
pub enum Block {
    /// The values of the variable with this index, which isn't a record variable.
    Var(u64),
    /// The values of all record variables, in all records.
    Records,
}

/// Which slab it is: the values of a record variable in one record, or all values of another variable.
#[derive(Clone, Copy, Debug, PartialEq, Eq, PartialOrd, Ord)]
pub enum Slab {
    /// The values of the variable with this index, which isn't a record variable.
    Var(u64),
    /// The values of a record variable in one record.
    Record {
        /// The index of the variable.
        var: u64,
        /// The number of the record, from 0.
        record: u64,
    },
}

/// What is found, with the numbers that show it.
#[derive(Clone, Copy, Debug, PartialEq, Eq, PartialOrd, Ord)]
pub enum LayoutFact {
    /// The header has the streaming mark in place of a number of records.
    Streaming {
        /// The number of whole records in the file.
        records: u64,
    },
    /// There are records, but no record variable.
    UnusedRecords {
        /// The number of records.
        records: u64,
    },
    /// The slab is greater than the version allows for a variable that isn't the last.
    LargeVariable {
        /// The index of the variable.
        var: u64,
        /// The bytes of the slab.
        bytes: u64,
        /// The greatest number of bytes that the version allows here.
        limit: u64,
    },
    /// The variable begins inside of the header.
    BeginInHeader {
        /// The begin of the variable.
        begin: u64,
        /// The end of the header.
        header_end: u64,
    },
    /// The block begins before the values of an earlier block end.
    Overlap {
        /// The begin of the block.
        begin: u64,
        /// The greatest end of the values of the blocks before it.
        end: u128,
        /// The first block that ends there.
        of: Block,
    },
    /// The block begins before the padding of an earlier block ends, but not before the values of any earlier block end.
    Unpadded {
        /// The begin of the block.
        begin: u64,
        /// The greatest end of the blocks before it, with their padding.
        end: u128,
        /// The first block that ends there.
        of: Block,
    },
    /// The variable begins before one that comes earlier in the header; neither is a record variable.
    Order {
        /// The begin of the variable.
        begin: u64,
        /// The greatest begin of the earlier variables that aren't record variables.
        least: u64,
        /// The index of the first variable that begins there.
        of: u64,
    },
    /// The variable isn't a record variable, but begins after the records do.
    AfterRecords {
        /// The begin of the variable.
        begin: u64,
        /// The begin of the records.
        most: u64,
    },
    /// The slab of the record variable isn't in its place in the first record, after those that come earlier in the header.
    RecordPlace {
        /// The begin of the variable.
        begin: u64,
        /// The begin that puts the slab in its place.
        expected: u64,
    },
    /// There are unused bytes before a block.
    Gap {
        /// The number of unused bytes.
        bytes: u64,
        /// The block that begins after them.
        before: Block,
    },
    /// The file ends before the values do.
    Missing {
        /// The bytes of the file.
        file_len: u64,
        /// The end of the values.
        end: u128,
        /// The first slab that isn't whole.
        slab: Slab,
    },
    /// The file has all values, but ends before their padding does; or the last record of a sole record variable of narrow values has padding,
    /// where none belongs.
    EndPadding {
        /// The bytes of the file.
        file_len: u64,
        /// The end of the values with their padding.
        end: u128,
    },
    /// The file has bytes after the values and any padding.
    Trailing {
        /// The bytes of the file.
        file_len: u64,
        /// The end of the values with their padding.
        end: u64,
        /// The number of whole records that fit into the file, if the header counts fewer.
        records: Option<u64>,
    },
}

/// A finding about the layout of a file.
#[derive(Clone, Copy, Debug, PartialEq, Eq)]
pub struct LayoutFinding {
    /// Where it lies.
    pub place: LayoutPlace,
    /// What is found.
    pub fact: LayoutFact,
}
