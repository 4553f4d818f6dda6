//! The versions of the classic format, and what differs between them.

ghost use Rattle.std.specs.Prelude.{◌≡◌};

use crate::nc_type::NcType;

/// A version of the classic format: the byte after `CDF` at a file's start.
#[derive(Clone, Copy, Debug, PartialEq, Eq)]
pub enum Version {
    /// CDF-1, the classic format: all counts and offsets have 32 bits.
    Cdf1,
    /// CDF-2, the 64-bit offset format: a variable's offset has 64 bits.
    Cdf2,
    /// CDF-5, the 64-bit data format: counts and offsets have 64 bits, and there are five more types.
    Cdf5,
}

impl Version {
    ghost use Rattle.nc_types.specs.Versions.{version_byte, count_limit, offset_limit, streaming_mark, has_type, version_of_byte, vsize_of};

    /// Returns the version with the version byte `b` (1, 2 or 5), which comes after `CDF` at a file's start, or `None` for any other byte.
    pub fn of_byte(b: u8) -> Option<Version>
        ensures { result ≡ version_of_byte b }
    {
        match b {
            1 => Some(Version::Cdf1),
            2 => Some(Version::Cdf2),
            5 => Some(Version::Cdf5),
            _ => None,
        }
    }

    /// Returns the version byte, which comes after `CDF` at a file's start: 1, 2 or 5.
    pub fn byte(self) -> u8
        ensures { result ≡ version_byte self }
    {
        match self {
            Version::Cdf1 => 1,
            Version::Cdf2 => 2,
            Version::Cdf5 => 5,
        }
    }

    /// Returns the least number that is too great for a count, a length or the number of records (`NON_NEG`, whose top bit is 0): 2^31, or
    /// 2^63 in CDF-5.
    pub fn count_limit(self) -> u64
        ensures { result ≡ count_limit self }
    {
        match self {
            Version::Cdf1 | Version::Cdf2 => 1 << 31,
            Version::Cdf5 => 1 << 63,
        }
    }

    /// Returns the least number that is too great for an offset (`OFFSET`, whose top bit is 0): 2^31 in CDF-1, otherwise 2^63.
    pub fn offset_limit(self) -> u64
        ensures { result ≡ offset_limit self }
    {
        match self {
            Version::Cdf1 => 1 << 31,
            Version::Cdf2 | Version::Cdf5 => 1 << 63,
        }
    }

    /// Returns the number that a file has in place of an unknown number of records (`STREAMING`): 2^32 - 1, or 2^64 - 1 in CDF-5. All bits
    /// of the field are 1.
    pub fn streaming_mark(self) -> u64
        ensures { result ≡ streaming_mark self }
    {
        match self {
            Version::Cdf1 | Version::Cdf2 => u32::MAX as u64,
            Version::Cdf5 => u64::MAX,
        }
    }

    /// Returns the `vsize` that a header is written with for a variable whose slab has `padded` bytes with its padding: `padded` itself,
    /// but in CDF-1 and CDF-2 at most 2^32 - 1, the greatest number of 32 bits.
    pub fn vsize_of(self, padded: u64) -> u64
        ensures { result ≡ vsize_of self padded }
    {
        match self {
            Version::Cdf1 | Version::Cdf2 => padded.min(u32::MAX as u64),
            Version::Cdf5 => padded,
        }
    }

    /// Returns true if files of the version may have values of the type: any in CDF-5, otherwise byte, char, short and int.
    pub fn has_type(self, ty: NcType) -> bool
        ensures { result ≡ has_type self ty }
    {
        match (self, ty) {
            (Version::Cdf5, _) => true,
            (_, NcType::Byte | NcType::Char | NcType::Short | NcType::Int) => true,
            _ => false,
        }
    }
}
