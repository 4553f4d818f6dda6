//! The limits of netCDF-C and of the format that rules and their messages name, and the signature of HDF5.

/// The most bytes that a name of netCDF-C may have (`NC_MAX_NAME`).
pub const LONGEST_NAME: u64 = 256;

/// The most dimensions that a variable of netCDF-C may have (`NC_MAX_VAR_DIMS`).
pub const HIGHEST_RANK: u64 = 1024;

/// What a dimension's length and the number of records are below in CDF-1 and CDF-2, by the NetCDF Classic Format Specification: 2^31.
pub const LARGE_COUNT: u64 = 1 << 31;

/// The first eight bytes of an HDF5 file, such as one of netCDF-4.
pub const HDF5_SIGNATURE: [u8; 8] = *b"\x89HDF\r\n\x1a\n";
