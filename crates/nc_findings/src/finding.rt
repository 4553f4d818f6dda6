//! What can be found in a file.

use crate::layout_fact::LayoutFact;
use nc_base::FormatFault;

/// What is wrong or odd. A fact has what is expected, unless the field alone tells it. What is found there is the content of the field.
#[derive(Clone, Copy, Debug, PartialEq, Eq, PartialOrd, Ord)]
pub enum Fact {
    /// The programs that read values stop at this field with this fault.
    Fault(FormatFault),
    /// The file is one of HDF5, as netCDF-4 writes them. The programs that read values stop there with `NotNetcdf`, as at `Gzip` and
    /// `EmptyFile`.
    Hdf5,
    /// The file is one of HDF5, and ends before its data do, by its superblock. It comes with `Hdf5`.
    Hdf5Truncated {
        /// The bytes of the file.
        file_len: u64,
        /// The least number of bytes that it should have.
        end: u64,
    },
    /// The file is packed by gzip.
    Gzip,
    /// The file has no byte.
    EmptyFile,
    /// A name isn't valid, but shows that the fields are in step. The programs that read values stop there with `BadName`.
    NameCharacters,
    /// A dimension's length, or the number of records, is 2^31 or more in CDF-1 or CDF-2: its top bit is 1. The programs that read values stop
    /// there with `BadCount`.
    LargeCount,
    /// A list has its own tag, but no elements. (The tag of an empty list is written as 0.)
    EmptyList,
    /// A name has more bytes than netCDF-C takes ([`LONGEST_NAME`](crate::LONGEST_NAME)).
    LongName,
    /// An earlier dimension, variable or attribute of the same list has this name.
    DuplicateName {
        /// The index of the first of the header's fields that is this name.
        first: u64,
    },
    /// A name is valid UTF-8, but not in normal form NFC.
    NotNfc,
    /// A byte that fills a field up isn't 0.
    Padding,
    /// An attribute of a type other than `char` has no values, which no CDL text can say.
    EmptyAttribute,
    /// An attribute of type `char` ends with a NUL, which no CDL text shows.
    TrailingNul,
    /// An attribute `_FillValue` hasn't the type of its variable.
    FillType {
        /// The type code of the variable.
        expected: u64,
    },
    /// An attribute `_FillValue` hasn't one value.
    FillCount,
    /// A variable has more dimensions than netCDF-C takes ([`HIGHEST_RANK`](crate::HIGHEST_RANK)).
    HighRank,
    /// The size of a variable contradicts its type and shape.
    Vsize {
        /// The size that belongs there.
        expected: u64,
    },
    /// The size of a variable is that of its slab without padding, or 0, or any number if that of the padded slab doesn't fit the field.
    OddVsize {
        /// The size that is written there.
        expected: u64,
    },
    /// Something about the layout of the file.
    Layout(LayoutFact),
}

/// Something that is wrong or odd in a file.
#[derive(Clone, Copy, Debug, PartialEq, Eq)]
pub struct Finding {
    /// The offset in the file at which it lies.
    pub offset: u64,
    /// The index of the field among the header's fields, or `None` if it lies in the data after the header.
    pub field: Option<u64>,
    /// What is found.
    pub fact: Fact,
}
