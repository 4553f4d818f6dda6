//! Digits, and the number that they spell in a base.

ghost use Rattle.std.specs.Prelude.{◌≡◌, ◌≤◌, ◌+◌, ◌*◌, length};
ghost use Rattle.std.specs.List.{prefix_len};
ghost use Rattle.cdl_tokens.specs.Bytes.{digit_value, is_digit, is_hex, is_octal, number_in};
ghost use Rattle.cdl_tokens.specs.code.Magnitudes.{word};

use crate::bytes::{is_digit, is_hex, is_octal};

/// A number below this bound still fits in 64 bits after one more digit is appended, in any base up to 16.
const SMALL: u64 = 1 << 59;

/// Returns the value of an octal, decimal or hexadecimal digit, in either case. For any other byte the result means nothing.
fn digit_value(b: u8) -> u8
    ensures { result ≡ digit_value b }
{
    if is_digit(b) {
        b - b'0'
    } else {
        b.to_ascii_lowercase().saturating_sub(b'a') + 10
    }
}

/// Returns how many decimal digits the bytes begin with.
pub fn digit_len(bytes: &[u8]) -> usize
    ensures len { result ≡ prefix_len is_digit bytes.now }
    ensures within { result ≤ length bytes.now }
{
    bytes.iter().take_while(|b| is_digit(**b)).count()
}

/// Returns how many octal digits the bytes begin with.
pub fn octal_len(bytes: &[u8]) -> usize
    ensures len { result ≡ prefix_len is_octal bytes.now }
    ensures within { result ≤ length bytes.now }
{
    bytes.iter().take_while(|b| is_octal(**b)).count()
}

/// Returns how many hexadecimal digits the bytes begin with.
pub fn hex_len(bytes: &[u8]) -> usize
    ensures len { result ≡ prefix_len is_hex bytes.now }
    ensures within { result ≤ length bytes.now }
{
    bytes.iter().take_while(|b| is_hex(**b)).count()
}

/// Returns the value of `digits` in the base `base`, or `None` if the value takes more than 64 bits. The value of no digits is 0. If a byte
/// is no digit of the base, the result means nothing. Needs a base from 1 to 16.
#[tactic(auto, using(crate::proofs::Sizes::past_word))]
pub fn number_in(base: u64, digits: &[u8]) -> Option<u64>
    requires some { 1 ≤ base }
    requires small { base ≤ 16 }
    ensures { result ≡ word (number_in base 0 digits.now) }
{
    let mut value = 0;
    for b in digits {
        value = with_digit(base, value, *b)?;
    }
    Some(value)
}

/// Returns the number that `value` becomes if the digit `b` is appended in the base `base`: `base * value` plus the digit's value. Returns
/// `None` if this number takes more than 64 bits. Needs a base of at most 16.
#[tactic(auto, using(crate::proofs::Sizes::small_product))]
fn with_digit(base: u64, value: u64, b: u8) -> Option<u64>
    requires { base ≤ 16 }
    ensures { result ≡ word (base * value + digit_value b) }
{
    // For most numbers, neither the product nor the sum can be too large.
    if value < SMALL {
        return Some(base * value + digit_value(b) as u64);
    }
    base.checked_mul(value)?.checked_add(digit_value(b) as u64)
}
