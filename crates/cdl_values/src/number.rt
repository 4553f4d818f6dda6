//! Numbers of a text, and their bytes in a file.

ghost use Rattle.std.specs.Prelude.{◌≡◌, ◌++◌, OnOk, nat_le};
ghost use Rattle.nc_base.specs.NumberLaws.{IsInRange};
ghost use Rattle.nc_base.specs.Numbers.{bytes_of_number};
ghost use Rattle.cdl_statements.specs.code.Contents.{parts_or_zero};
ghost use Rattle.cdl_tokens.specs.code.Magnitudes.{held};
ghost use Rattle.cdl_tokens.specs.Numerals.{parts, signed};
ghost use Rattle.cdl_values.specs.code.Answers.{Adds, RefusesValue};
ghost use Rattle.cdl_values.specs.code.PackedValues.{greatest, held_bytes};

use crate::read_error::ReadError;
use cdl_statements::CdlKind;
use cdl_tokens::{Numeral, number_of_token};
use nc_base::{ListedArray, NcType, Version};
use std::alloc::AllocError;

/// Returns the number that a number token says. Its magnitude is `None` if that takes more than 64 bits. Returns 0, of the type int, if the
/// bytes are no number or the version lacks their suffix: such a token has a fault of its own, which is found where tokens are checked.
pub fn number_or_zero(version: Version, bytes: &[u8]) -> Numeral
    ensures { result ≡ held (parts_or_zero (parts version bytes.now)) }
{
    number_of_token(version, bytes).unwrap_or(Numeral {
        minus: false,
        magnitude: Some(0),
        ty: NcType::Int,
    })
}

/// Appends to `array` the bytes of a number, big-endian, in the width of `ty`. The type of the number's suffix is ignored. Errs with
/// `NumberRange` exactly if the number is out of the range of `ty`, and with `OutOfMemory` if an allocation failed. After any error nothing
/// is appended, but no clause says so.
#[inline(never)]
pub fn put_numeral(array: &mut ListedArray, ty: NcType, n: Numeral) -> Result<(), ReadError>
    ensures adds { Adds array.old array.new result (held_bytes ty n.minus n.magnitude) }
    ensures refuses { RefusesValue result (held_bytes ty n.minus n.magnitude) }
{
    put_numeral_inline(array, ty, n)
}

/// Appends to `array` the bytes of a number, big-endian, in the width of `ty`. It is [`put_numeral`] for a loop over numbers of one type,
/// into which it is inlined. Errs with `NumberRange` exactly if the number is out of the range of `ty`, and with `OutOfMemory` if an
/// allocation failed. After any error nothing is appended, but no clause says so.
#[inline(always)]
pub fn put_numeral_inline(array: &mut ListedArray, ty: NcType, n: Numeral) -> Result<(), ReadError>
    ensures adds { Adds array.old array.new result (held_bytes ty n.minus n.magnitude) }
    ensures refuses { RefusesValue result (held_bytes ty n.minus n.magnitude) }
{
    match n.magnitude {
        Some(magnitude) if is_in_range(ty, n.minus, magnitude) => {
            Ok(pack_number_inline(array, ty, signed(n.minus, magnitude))?)
        }
        Some(_) | None => Err(ReadError::Fault(CdlKind::NumberRange)),
    }
}

/// Appends to `array` the number, big-endian, in the width of `ty`. Needs a number in the range of `ty`: unlike [`put_numeral`], it doesn't
/// check the range. Errs only if an allocation failed.
#[inline(never)]
pub fn pack_number(array: &mut ListedArray, ty: NcType, number: i128) -> Result<(), AllocError>
    requires { IsInRange ty number }
    ensures { OnOk result (array.new ≡ array.old ++ bytes_of_number ty number) }
{
    pack_number_inline(array, ty, number)
}

/// Appends to `array` the number, big-endian, in the width of `ty`. Unlike [`pack_number`], it is inlined into its caller. Needs a number
/// in the range of `ty`. Errs only if an allocation failed.
#[inline(always)]
fn pack_number_inline(array: &mut ListedArray, ty: NcType, number: i128) -> Result<(), AllocError>
    requires { IsInRange ty number }
    ensures { OnOk result (array.new ≡ array.old ++ bytes_of_number ty number) }
{
    match ty {
        NcType::Byte => array.add(&(number as i8).to_be_bytes()),
        NcType::Char | NcType::Ubyte => array.add(&(number as u8).to_be_bytes()),
        NcType::Short => array.add(&(number as i16).to_be_bytes()),
        NcType::Ushort => array.add(&(number as u16).to_be_bytes()),
        NcType::Int => array.add(&(number as i32).to_be_bytes()),
        NcType::Uint => array.add(&(number as u32).to_be_bytes()),
        NcType::Int64 => array.add(&(number as i64).to_be_bytes()),
        NcType::Uint64 => array.add(&(number as u64).to_be_bytes()),
    }
}

/// Returns true if the number of this sign and magnitude is in the range of the type. `minus` is true if the sign is a minus.
#[inline(always)]
fn is_in_range(ty: NcType, minus: bool, magnitude: u64) -> bool
    ensures { result ≡ nat_le magnitude (greatest ty minus) }
{
    magnitude <= greatest(ty, minus)
}

/// Returns the greatest magnitude of a number of the type, with a minus if `minus` is true, otherwise without one. With a minus it is 0 for
/// char and the unsigned types.
fn greatest(ty: NcType, minus: bool) -> u64
    ensures { result ≡ greatest ty minus }
{
    match ty {
        NcType::Byte => if minus { 128 } else { 127 },
        NcType::Char | NcType::Ubyte => if minus { 0 } else { 255 },
        NcType::Short => if minus { 32768 } else { 32767 },
        NcType::Int => if minus { 2147483648 } else { 2147483647 },
        NcType::Ushort => if minus { 0 } else { 65535 },
        NcType::Uint => if minus { 0 } else { 4294967295 },
        NcType::Int64 => if minus {
            9223372036854775808
        } else {
            9223372036854775807
        },
        NcType::Uint64 => if minus { 0 } else { 18446744073709551615 },
    }
}

/// Returns the number of this magnitude, negated if `minus` is true.
fn signed(minus: bool, magnitude: u64) -> i128
    ensures { result ≡ signed minus magnitude }
{
    if minus {
        -(magnitude as i128)
    } else {
        magnitude as i128
    }
}
