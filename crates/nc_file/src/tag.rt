//! The tags of the lists in a header (NetCDF Classic Format Specification, "Format in Detail").

/// The tag of a list of dimensions.
pub(crate) const NC_DIMENSION: u32 = 10;

/// The tag of a list of variables.
pub(crate) const NC_VARIABLE: u32 = 11;

/// The tag of a list of attributes.
pub(crate) const NC_ATTRIBUTE: u32 = 12;
