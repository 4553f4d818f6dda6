//! The types of values.

ghost use Rattle.std.specs.Prelude.{◌≡◌};

/// A type of values (`nc_type` of the NetCDF Classic Format Specification), without the floating types.
#[derive(Clone, Copy, Debug, PartialEq, Eq)]
pub enum NcType {
    /// `NC_BYTE`: a signed number of 8 bits.
    Byte,
    /// `NC_CHAR`: a character, which is a byte.
    Char,
    /// `NC_SHORT`: a signed number of 16 bits.
    Short,
    /// `NC_INT`: a signed number of 32 bits.
    Int,
    /// `NC_UBYTE`: a number of 8 bits without a sign, in CDF-5 alone.
    Ubyte,
    /// `NC_USHORT`: a number of 16 bits without a sign, in CDF-5 alone.
    Ushort,
    /// `NC_UINT`: a number of 32 bits without a sign, in CDF-5 alone.
    Uint,
    /// `NC_INT64`: a signed number of 64 bits, in CDF-5 alone.
    Int64,
    /// `NC_UINT64`: a number of 64 bits without a sign, in CDF-5 alone.
    Uint64,
}

impl NcType {
    ghost use Rattle.nc_types.specs.Types.{size_of, code_of, default_fill_of, type_word, number_suffix, type_of_code};

    /// All types, in the order of their codes.
    pub const ALL: [NcType; 9] = [
        NcType::Byte,
        NcType::Char,
        NcType::Short,
        NcType::Int,
        NcType::Ubyte,
        NcType::Ushort,
        NcType::Uint,
        NcType::Int64,
        NcType::Uint64,
    ];

    /// Returns the size of a value in bytes: 1, 2, 4 or 8.
    pub fn size(self) -> u64
        ensures { result ≡ size_of self }
    {
        match self {
            NcType::Byte | NcType::Char | NcType::Ubyte => 1,
            NcType::Short | NcType::Ushort => 2,
            NcType::Int | NcType::Uint => 4,
            NcType::Int64 | NcType::Uint64 => 8,
        }
    }

    /// Returns the number that stands for the type in a file: 1 to 4, or 7 to 11 for the types that only CDF-5 has.
    pub fn code(self) -> u32
        ensures { result ≡ code_of self }
    {
        match self {
            NcType::Byte => 1,
            NcType::Char => 2,
            NcType::Short => 3,
            NcType::Int => 4,
            NcType::Ubyte => 7,
            NcType::Ushort => 8,
            NcType::Uint => 9,
            NcType::Int64 => 10,
            NcType::Uint64 => 11,
        }
    }

    /// Returns the type with this code in a file, even if only CDF-5 has the type. Returns `None` for the floating types 5 and 6, and for
    /// any other code without a type.
    pub fn of_code(code: u32) -> Option<NcType>
        ensures { result ≡ type_of_code code }
    {
        match code {
            1 => Some(NcType::Byte),
            2 => Some(NcType::Char),
            3 => Some(NcType::Short),
            4 => Some(NcType::Int),
            7 => Some(NcType::Ubyte),
            8 => Some(NcType::Ushort),
            9 => Some(NcType::Uint),
            10 => Some(NcType::Int64),
            11 => Some(NcType::Uint64),
            _ => None,
        }
    }

    /// Returns the default fill value of the type (`NC_FILL_BYTE` and its like in Unidata's `netcdf.h`).
    pub fn default_fill(self) -> i128
        ensures { result ≡ default_fill_of self }
    {
        match self {
            NcType::Byte => -127,
            NcType::Char => 0,
            NcType::Short => -32767,
            NcType::Int => -2147483647,
            NcType::Ubyte => 255,
            NcType::Ushort => 65535,
            NcType::Uint => 4294967295,
            NcType::Int64 => -9223372036854775806,
            NcType::Uint64 => 18446744073709551614,
        }
    }

    /// Returns the name of the type in CDL, such as `int`.
    pub fn word(self) -> &'static [u8]
        ensures { result.now ≡ type_word self }
    {
        match self {
            NcType::Byte => b"byte",
            NcType::Char => b"char",
            NcType::Short => b"short",
            NcType::Int => b"int",
            NcType::Ubyte => b"ubyte",
            NcType::Ushort => b"ushort",
            NcType::Uint => b"uint",
            NcType::Int64 => b"int64",
            NcType::Uint64 => b"uint64",
        }
    }

    /// Returns the suffix of the type's numbers in an attribute in CDL, such as `LL`. It is empty for int, and for characters, which stand
    /// in strings.
    pub fn suffix(self) -> &'static [u8]
        ensures { result.now ≡ number_suffix self }
    {
        match self {
            NcType::Char | NcType::Int => b"",
            NcType::Byte => b"b",
            NcType::Short => b"s",
            NcType::Ubyte => b"UB",
            NcType::Ushort => b"US",
            NcType::Uint => b"U",
            NcType::Int64 => b"LL",
            NcType::Uint64 => b"ULL",
        }
    }
}
