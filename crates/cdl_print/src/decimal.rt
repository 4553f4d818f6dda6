//! Numbers in decimal.

ghost use Rattle.std.specs.Prelude.{◌≡◌, ◌+◌, ◌<◌, ◌≤◌, ◌^◌, ◌++◌, unsigned_abs, length, take};
ghost use Rattle.std.specs.Fmt.{decimal, signed_decimal};
ghost use Rattle.cdl_print.specs.code.NumberTexts.{text_of};

use itoa::write_digits;

/// Returns how many bytes `number` has in decimal, with a minus if it is negative: at most 21. Needs an absolute value below 2^64.
#[inline(always)]
pub fn decimal_len(number: i128) -> usize
    requires { unsigned_abs number < 2 ^ 64 }
    ensures len { result ≡ length (signed_decimal number) }
    ensures short { result ≤ 21 }
{
    let digits = digit_count(number.unsigned_abs() as u64);
    if number < 0 { digits + 1 } else { digits }
}

/// Returns how many digits `n` has in decimal, from 1 to 20.
#[tactic(auto, using(itoa::proofs::Decimal::length_four, crate::proofs::Digits::length_eight, crate::proofs::Digits::length_twelve, crate::proofs::Digits::length_sixteen))]
#[inline(always)]
fn digit_count(n: u64) -> usize
    ensures len { result ≡ length (decimal n) }
    ensures short { result ≤ 20 }
{
    if n < 10_000 {
        few_digit_count(n)
    } else if n < 100_000_000 {
        4 + few_digit_count(n / 10_000)
    } else if n < 1_000_000_000_000 {
        8 + few_digit_count(n / 100_000_000)
    } else if n < 10_000_000_000_000_000 {
        12 + few_digit_count(n / 1_000_000_000_000)
    } else {
        16 + few_digit_count(n / 10_000_000_000_000_000)
    }
}

/// Returns how many digits `n` has in decimal, as [`digit_count`] does for any number, without a branch: numbers of a list often differ in
/// their number of digits. Needs a number below 10,000.
#[tactic(auto, using(crate::proofs::Digits::few_count))]
#[inline(always)]
fn few_digit_count(n: u64) -> usize
    requires { n < 10000 }
    ensures len { result ≡ length (decimal n) }
    ensures short { result ≤ 4 }
{
    1 + (n >= 10) as usize + (n >= 100) as usize + (n >= 1_000) as usize
}

/// Writes `number` in decimal, with a minus if it is negative, at the offset `at` of `text`. Needs an absolute value below 2^64, the number
/// of bytes to write as `len` ([`decimal_len`]), and room for them. The bytes after them may change.
#[tactic(auto, using(crate::proofs::Digits::some_byte))]
#[inline(always)]
pub fn put_decimal(text: &mut [u8], at: usize, len: usize, number: i128)
    requires short { unsigned_abs number < 2 ^ 64 }
    requires len { len ≡ length (signed_decimal number) }
    requires fits { at + len ≤ length text.old }
    ensures { take (at + len) text.new ≡ take at text.old ++ signed_decimal number }
{
    let start = put_sign(text, at, number);
    put_digits(text, start, at + len - start, number.unsigned_abs() as u64);
}

/// Returns how many bytes [`put_text`] writes: 1 for `_` if `is_fill`, otherwise as many as `number` has in decimal. Needs an absolute
/// value below 2^64.
#[inline(always)]
pub fn text_len(is_fill: bool, number: i128) -> usize
    requires { unsigned_abs number < 2 ^ 64 }
    ensures len { result ≡ length (text_of is_fill number) }
    ensures short { result ≤ 21 }
{
    if is_fill { 1 } else { decimal_len(number) }
}

/// Writes a variable's number, as a dump prints it, at the offset `at` of `text`: `_` if `is_fill`, otherwise `number` in decimal. Needs an
/// absolute value below 2^64, the number of bytes to write as `len` ([`text_len`]), and room for them. The bytes after them may change.
#[inline(always)]
pub fn put_text(text: &mut [u8], at: usize, len: usize, is_fill: bool, number: i128)
    requires short { unsigned_abs number < 2 ^ 64 }
    requires len { len ≡ length (text_of is_fill number) }
    requires fits { at + len ≤ length text.old }
    ensures { take (at + len) text.new ≡ take at text.old ++ text_of is_fill number }
{
    if is_fill {
        text[at] = b'_';
    } else {
        put_decimal(text, at, len, number);
    }
}

/// Writes the decimal digits of `n` at the offset `at` of `text`. Needs the number of these digits as `len`, and room for them. The bytes
/// after them may change.
#[inline(always)]
pub fn put_digits(text: &mut [u8], at: usize, len: usize, n: u64)
    requires len { len ≡ length (decimal n) }
    requires fits { at + len ≤ length text.old }
    ensures { take (at + len) text.new ≡ take at text.old ++ decimal n }
{
    write_digits(n, text, at + len);
}

/// Writes a minus at the offset `at` of `text`, and returns the offset of the first digit: the one after the minus if `number` is negative,
/// otherwise `at` again, so that the digits are written over the minus. Needs room for a byte.
#[inline(always)]
fn put_sign(text: &mut [u8], at: usize, number: i128) -> usize
    requires { at + 1 ≤ length text.old }
    ensures end { result + length (decimal (unsigned_abs number))
        ≡ at + length (signed_decimal number) }
    ensures written { take result text.new ++ decimal (unsigned_abs number)
        ≡ take at text.old ++ signed_decimal number }
{
    text[at] = b'-';
    at + (number < 0) as usize
}
