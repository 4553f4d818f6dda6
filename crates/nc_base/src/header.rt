//! The header of a file: its dimensions, attributes and variables.

use nc_types::{NcType, Sequence, Version};

/// A dimension (`dim` of the NetCDF Classic Format Specification).
#[derive(Debug, Drop)]
pub struct Dim {
    /// The name, in UTF-8.
    pub name: Sequence<u8>,
    /// The length; 0 marks the record dimension.
    pub len: u64,
}

/// An attribute (`attr` of the specification).
#[derive(Debug, Drop)]
pub struct Att {
    /// The name, in UTF-8.
    pub name: Sequence<u8>,
    /// The type of its values.
    pub ty: NcType,
    /// The values as the file has them, big-endian and one after the other, without padding.
    pub vals: Sequence<u8>,
}

/// A variable (`var` of the specification). Its `vsize` isn't kept, since it follows from the shape and the type.
#[derive(Debug, Drop)]
pub struct Var {
    /// The name, in UTF-8.
    pub name: Sequence<u8>,
    /// The ids of the dimensions, the slowest first. An id is an index into the `dims` of the header, counted from 0.
    pub dimids: Sequence<u64>,
    /// The attributes.
    pub atts: Sequence<Att>,
    /// The type of its values.
    pub ty: NcType,
    /// The begin (`begin`): the offset of the first value, in bytes from the file's start.
    pub begin_at: u64,
}

/// The number of records (`numrecs` of the specification).
#[derive(Clone, Copy, Debug, PartialEq, Eq)]
pub enum NumRecs {
    /// There are this many records.
    Known(u64),
    /// The number is unknown (`STREAMING`): there are as many records as the file has room for.
    Streaming,
}

/// A header (`header` of the specification).
#[derive(Debug, Drop)]
pub struct Header {
    /// The version of the format.
    pub version: Version,
    /// The number of records.
    pub numrecs: NumRecs,
    /// The dimensions.
    pub dims: Sequence<Dim>,
    /// The global attributes.
    pub gatts: Sequence<Att>,
    /// The variables.
    pub vars: Sequence<Var>,
}
