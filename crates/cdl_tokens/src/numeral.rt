//! What number tokens of any length say.

ghost use Rattle.std.specs.Char.{to_ascii_lowercase};
ghost use Rattle.std.specs.Prelude.{◌≡◌, ◌≤◌, length, map, option_map, slice_index};
ghost use Rattle.cdl_tokens.specs.code.Magnitudes.{ReadsDigits, held, in_decimal};
ghost use Rattle.cdl_tokens.specs.Numerals.{has_suffix, in_base, parts, type_of_suffix, with_sign};

use crate::bytes::{byte_at, is_digit, is_sign};
use crate::digits::{digit_len, hex_len, number_in, octal_len};
use nc_types::{NcType, Version};

/// What a number token says: a sign, a magnitude and a type.
#[derive(Clone, Copy, Debug, PartialEq, Eq)]
pub struct Numeral {
    /// True if a minus stands before the digits.
    pub minus: bool,
    /// The value of the digits, or `None` if it takes more than 64 bits.
    pub magnitude: Option<u64>,
    /// The type that the suffix says, or int if there is no suffix.
    pub ty: NcType,
}

/// Returns what the number token of these bytes says: its sign, magnitude and type. Returns `None` if the token is no well-formed integer,
/// such as `1.5` or `08`, or if files of the `version` can't have the type of its suffix (`U`, for example, is of CDF-5 alone). A magnitude
/// above 64 bits is `None` in the result.
///
/// A number is an optional sign, then digits, then an optional suffix. The digits are `0x` or `0X` and hexadecimal digits, or octal digits
/// from a `0` on, or decimal digits (the CDL chapter of the NetCDF User's Guide, "CDL Notation for Data Constants").
#[tactic(auto, unfolding(crate::specs::Numerals::parts))]
#[inline(always)]
pub fn number_of_token(version: Version, bytes: &[u8]) -> Option<Numeral>
    ensures { result ≡ option_map held (parts version bytes.now) }
{
    let sign = byte_at(bytes, 0);
    if is_sign(sign) {
        let (_, rest) = bytes.split_at(1);
        numeral_after_sign(version, sign == b'-', rest)
    } else {
        numeral_after_sign(version, false, bytes)
    }
}

/// Returns what a number says: its sign, magnitude and type. `bytes` is the number without its sign, and `minus` is true if the sign is a
/// minus. Returns `None` if `bytes` is no such number, or if the version doesn't have its suffix. A magnitude above 64 bits is `None` in
/// the result.
#[inline(always)]
fn numeral_after_sign(version: Version, minus: bool, bytes: &[u8]) -> Option<Numeral>
    ensures { result ≡ option_map held (with_sign version minus bytes.now) }
{
    if byte_at(bytes, 0) == b'0' {
        octal_or_hex(version, minus, bytes)
    } else {
        decimal(version, minus, bytes)
    }
}

/// A number of at most this many decimal digits fits in 64 bits.
const SHORT: usize = 19;

/// Returns what a decimal number says: its sign, magnitude and type. `bytes` is the number without its sign: decimal digits, and then an
/// optional suffix. `minus` is true if the sign is a minus. Returns `None` if there are no digits, or if what comes after them is no suffix
/// of the version. A magnitude above 64 bits is `None` in the result.
#[inline(always)]
#[tactic(auto, using(crate::proofs::Decimals::all_read, crate::proofs::Decimals::said))]
fn decimal(version: Version, minus: bool, bytes: &[u8]) -> Option<Numeral>
    ensures { result ≡ option_map held (in_decimal version minus bytes.now) }
{
    let (n, value) = first_digits(bytes);
    let (_, rest) = bytes.split_at(n);
    if is_digit(byte_at(rest, 0)) {
        return in_base(version, minus, 10, digit_len(bytes), bytes);
    }
    if n == 0 {
        return None;
    }
    Some(Numeral {
        minus,
        magnitude: Some(value),
        ty: suffix(version, rest)?,
    })
}

/// Reads the decimal digits at the start of the bytes, at most 19 of them, since the value of 20 may not fit in 64 bits. Returns how many
/// digits it read, and their value. No clause says that it reads as many as it can.
#[inline(always)]
pub fn first_digits(bytes: &[u8]) -> (usize, u64)
    ensures { ReadsDigits bytes.now result.0 result.1 }
{
    // Except at the end of a text, the bound is a constant, so that the compiler unrolls the loop: each digit then has a branch of its own,
    // and the bound none.
    if bytes.len() >= SHORT {
        digits_up_to(bytes, SHORT)
    } else {
        digits_up_to(bytes, bytes.len())
    }
}

/// Reads the decimal digits at the start of the bytes, at most `most` of them, and returns how many it read, and their value. No clause
/// says that it reads as many as it can. Needs `most` bytes, and a `most` of at most 19.
#[inline(always)]
fn digits_up_to(bytes: &[u8], most: usize) -> (usize, u64)
    requires within { most ≤ length bytes.now }
    requires short { most ≤ 19 }
    ensures { ReadsDigits bytes.now result.0 result.1 }
{
    let mut value = 0;
    let mut at = 0;
    'digits: while at < most {
        let b = bytes[at];
        if !is_digit(b) {
            return (at, value);
        }
        value = 10 * value + (b - b'0') as u64;
        at += 1;
    }
    (at, value)
}

/// Returns what an octal or hexadecimal number says: its sign, magnitude and type. `bytes` is the number without its sign, and has to begin
/// with `0`. If `x` or `X` comes next, the number is hexadecimal; otherwise it is octal. `minus` is true if the sign is a minus. Returns
/// `None` if no hexadecimal digit comes after the `x`, or if what comes after the digits is no suffix of the version. A magnitude above 64
/// bits is `None` in the result.
#[inline(never)]
fn octal_or_hex(version: Version, minus: bool, bytes: &[u8]) -> Option<Numeral>
    requires { slice_index bytes.now 0 ≡ 0x30 }
    ensures { result ≡ option_map held (with_sign version minus bytes.now) }
{
    if byte_at(bytes, 1).to_ascii_lowercase() == b'x' {
        let (_, rest) = bytes.split_at(2);
        in_base(version, minus, 16, hex_len(rest), rest)
    } else {
        in_base(version, minus, 8, octal_len(bytes), bytes)
    }
}

/// Returns what a number says: its sign, magnitude and type. `bytes` is the number without its sign and `0x`: `n` digits of the base `base`
/// and an optional suffix. `minus` is true if the sign is a minus. Returns `None` if `n` is 0 or the version lacks the suffix. A magnitude
/// above 64 bits is `None` in the result. Needs a base from 1 to 16, and `n` bytes.
fn in_base(version: Version, minus: bool, base: u64, n: usize, bytes: &[u8]) -> Option<Numeral>
    requires some { 1 ≤ base }
    requires small { base ≤ 16 }
    requires within { n ≤ length bytes.now }
    ensures { result ≡ option_map held (in_base version minus base n bytes.now) }
{
    if n == 0 {
        return None;
    }
    let (digits, rest) = bytes.split_at(n);
    let ty = suffix(version, rest)?;
    Some(Numeral {
        minus,
        magnitude: number_in(base, digits),
        ty,
    })
}

/// Returns the type that the suffix `bytes` stands for, each of its letters in upper or lower case. An empty suffix stands for int. Returns
/// `None` if the version doesn't have the suffix.
#[tactic(auto, using(crate::proofs::Suffixes::no_suffix))]
fn suffix(version: Version, bytes: &[u8]) -> Option<NcType>
    ensures { result ≡ type_of_suffix version bytes.now }
{
    // Most numbers have none, and every version has int.
    if bytes.is_empty() {
        return Some(NcType::Int);
    }
    find_suffix(version, bytes)
}

/// Searches all types for the one that the suffix `bytes` stands for, and returns it, or `None` if the version doesn't have the suffix.
/// [`suffix`] calls it for a suffix that isn't empty.
#[tactic(auto, unfolding(crate::specs::Numerals::type_of_suffix))]
#[inline(never)]
fn find_suffix(version: Version, bytes: &[u8]) -> Option<NcType>
    ensures { result ≡ type_of_suffix version bytes.now }
{
    NcType::ALL
        .iter()
        .copied()
        .find(|ty| has_suffix(bytes, *ty) && version.has_type(*ty))
}

/// Returns true if a number of the type may have this suffix, in either case. For int it is empty or `l`; for char the result is false.
#[tactic(auto, using(crate::proofs::Suffixes::same_suffix))]
fn has_suffix(suffix: &[u8], ty: NcType) -> bool
    ensures { result ≡ has_suffix (map to_ascii_lowercase suffix.now) ty }
{
    match ty {
        NcType::Char => false,
        NcType::Int => suffix.eq_ignore_ascii_case(b"") || suffix.eq_ignore_ascii_case(b"l"),
        _ => suffix.eq_ignore_ascii_case(ty.suffix()),
    }
}
