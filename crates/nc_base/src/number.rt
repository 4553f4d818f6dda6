//! Values as numbers.

ghost use Rattle.std.specs.Prelude.{◌≡◌, length};
ghost use Rattle.nc_base.specs.NumberLaws.{IsInRange};
ghost use Rattle.nc_base.specs.Numbers.{number_of};
ghost use Rattle.nc_types.specs.Types.{size_of};

use nc_types::NcType;

/// Returns the number that `bytes` spell: big-endian, and in two's complement if the type `ty` has a sign (NetCDF Classic Format
/// Specification). It is in the range of the type, for a character 0 to 255. Needs exactly the bytes of one value of this type.
pub fn number_of(ty: NcType, bytes: &[u8]) -> i128
    requires { length bytes.now ≡ size_of ty }
    ensures number { result ≡ number_of ty bytes.now }
    ensures in_range { IsInRange ty result }
{
    match ty {
        NcType::Byte => i8::from_be_bytes([bytes[0]]) as i128,
        NcType::Char | NcType::Ubyte => bytes[0] as i128,
        NcType::Short => i16::from_be_bytes(two_bytes(bytes)) as i128,
        NcType::Ushort => u16::from_be_bytes(two_bytes(bytes)) as i128,
        NcType::Int => i32::from_be_bytes(four_bytes(bytes)) as i128,
        NcType::Uint => u32::from_be_bytes(four_bytes(bytes)) as i128,
        NcType::Int64 => i64::from_be_bytes(eight_bytes(bytes)) as i128,
        NcType::Uint64 => u64::from_be_bytes(eight_bytes(bytes)) as i128,
    }
}

/// Copies a slice into an array, for `from_be_bytes`. Needs exactly two bytes.
fn two_bytes(bytes: &[u8]) -> [u8; 2]
    requires { length bytes.now ≡ 2 }
    ensures { result ≡ bytes.now }
{
    [bytes[0], bytes[1]]
}

/// Copies a slice into an array, for `from_be_bytes`. Needs exactly four bytes.
fn four_bytes(bytes: &[u8]) -> [u8; 4]
    requires { length bytes.now ≡ 4 }
    ensures { result ≡ bytes.now }
{
    [bytes[0], bytes[1], bytes[2], bytes[3]]
}

/// Copies a slice into an array, for `from_be_bytes`. Needs exactly eight bytes.
fn eight_bytes(bytes: &[u8]) -> [u8; 8]
    requires { length bytes.now ≡ 8 }
    ensures { result ≡ bytes.now }
{
    [
        bytes[0], bytes[1], bytes[2], bytes[3], bytes[4], bytes[5], bytes[6], bytes[7],
    ]
}
