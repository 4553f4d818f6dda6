//! The bytes that strings stand for, in attributes and in the data section.

ghost use Rattle.std.specs.Prelude.{◌≡◌, ◌++◌, ◌≤◌, ◌<◌, Err, IfOk, OnOk, length, false, true};
ghost use Rattle.cdl_tokens.specs.Escapes.{inner, string_value};
ghost use Rattle.cdl_statements.specs.Shapes.{Characters};
ghost use Rattle.cdl_statements.specs.declared.fault.CdlKind.TheVariants.{TooManyValues};
ghost use Rattle.cdl_values.specs.code.Answers.{Adds};
ghost use Rattle.cdl_values.specs.code.PackedValues.{char_bytes, row_bytes, text_bytes};
ghost use Rattle.cdl_values.specs.code.TokenValues.{text_said};
ghost use Rattle.cdl_values.specs.code.Unescaping.{with_rest};
ghost use Rattle.cdl_values.specs.declared.read_error.ReadError.TheVariants.{Fault};

use crate::capacity::Capacity;
use crate::read_error::ReadError;
use cdl_statements::CdlKind;
use cdl_tokens::{first_bytes, gather_unescaped, len_before_escape};
use nc_base::ListedArray;
use std::alloc::AllocError;

/// How many bytes of a string with escapes are appended at once.
const BYTES_AT_ONCE: usize = 256;

/// Appends to `array` the bytes that a string stands for, so that strings are joined: unlike [`put_row`], it fills up no row. `bytes` is
/// the string with its quotes, and `capacity` is how many more bytes the variable takes. Errs with `StringTooLong` if the string stands for
/// more bytes than that, and with `OutOfMemory` if an allocation failed. No clause says what `array` has after an error.
#[tactic(auto, using(crate::proofs::PackedTokens::chars_len, std::proofs::lemmas::Grind::common_steps))]
pub fn put_joined_string(
    array: &mut ListedArray,
    capacity: Capacity,
    bytes: &[u8],
) -> Result<(), ReadError>
    ensures { Adds array.old array.new result (text_bytes capacity (text_said bytes.now)) }
{
    let before = array.len();
    put_string(array, inner(bytes))?;
    if capacity.is_exceeded_by(array.len().saturating_sub(before)) {
        return Err(ReadError::Fault(CdlKind::StringTooLong));
    }
    Ok(())
}

/// Appends to `array` a row of `len` bytes: the bytes that a string stands for, filled up with `fill`. `bytes` is the string with its
/// quotes, and `full` is true if the variable takes no more rows. Errs with `TooManyValues` if `full`, with `StringTooLong` if the string
/// stands for more than `len` bytes, and with `OutOfMemory` if an allocation failed. No clause says what `array` has after an error.
#[tactic(auto, using(crate::proofs::PackedTokens::chars_len, std::proofs::lemmas::Grind::common_steps))]
pub fn put_row(
    array: &mut ListedArray,
    len: u64,
    fill: u8,
    full: bool,
    bytes: &[u8],
) -> Result<(), ReadError>
    ensures adds { Adds array.old array.new result (row_bytes len fill full (text_said bytes.now)) }
    ensures full { full ≡ true → result ≡ Err (Fault TooManyValues) }
{
    if full {
        return Err(ReadError::Fault(CdlKind::TooManyValues));
    }
    let before = array.len();
    put_string(array, inner(bytes))?;
    let n = array.len().saturating_sub(before);
    if (len as u128) < n {
        return Err(ReadError::Fault(CdlKind::StringTooLong));
    }
    array.end_row(len - n as u64, fill)?;
    Ok(())
}

/// Appends to `array` a row of `len` bytes: `characters`, filled up with `fill`. It is [`put_row`] for a string in which each byte between
/// the quotes stands for itself, and a variable that takes one more row. Errs with `StringTooLong` if there are more than `len` characters,
/// and with `OutOfMemory` if an allocation failed. No clause says what `array` has after an error.
#[tactic(auto, using(std::proofs::lemmas::Grind::common_steps))]
pub fn put_plain_row(
    array: &mut ListedArray,
    len: u64,
    fill: u8,
    characters: &[u8],
) -> Result<(), ReadError>
    ensures { Adds array.old array.new result (row_bytes len fill false (Characters characters.now)) }
{
    let n = characters.len() as u64;
    if len < n {
        return Err(ReadError::Fault(CdlKind::StringTooLong));
    }
    put_bytes(array, characters)?;
    array.end_row(len - n, fill)?;
    Ok(())
}

/// Appends to `array` the bytes that a string stands for. `raw` is what the string has between its quotes. An escape that stands for no
/// byte gives a 0 byte. Errs only if an allocation failed; some of the bytes may be appended then.
fn put_string(array: &mut ListedArray, raw: &[u8]) -> Result<(), AllocError>
    ensures { OnOk result (array.new ≡ array.old ++ char_bytes (string_value raw.now)) }
{
    let mut rest = raw;
    'escapes: loop {
        let escape = put_unescaped(array, rest)?;
        if escape.is_empty() {
            return Ok(());
        }
        rest = put_gathered(array, escape)?;
    }
}

/// Appends to `array` the bytes of a string before the first backslash, or all if there is none, and returns those from it on. Errs only if
/// an allocation failed; nothing is appended then, but no clause says so.
#[tactic(auto, using(cdl_tokens::proofs::Strings::stands_run, crate::proofs::ConstantBytes::put_on))]
fn put_unescaped<'a>(array: &mut ListedArray, bytes: &'a [u8]) -> Result<&'a [u8], AllocError>
    ensures put { IfOk result (λ r. with_rest array.new r.now ≡ with_rest array.old bytes.now) }
    ensures shorter { IfOk result (λ r. length r.now ≤ length bytes.now) }
{
    let (first, rest) = bytes.split_at(len_before_escape(bytes));
    put_bytes(array, first)?;
    Ok(rest)
}

/// Appends to `array` the bytes that the first characters of a string stand for, all in one piece, and returns the string's bytes after
/// these characters. Needs a string that isn't empty. Errs only if an allocation failed; nothing is appended then, but no clause says so.
#[tactic(auto, using(crate::proofs::ConstantBytes::put_on))]
fn put_gathered<'a>(array: &mut ListedArray, bytes: &'a [u8]) -> Result<&'a [u8], AllocError>
    requires { 0 < length bytes.now }
    ensures put { IfOk result (λ r. with_rest array.new r.now ≡ with_rest array.old bytes.now) }
    ensures shorter { IfOk result (λ r. length r.now < length bytes.now) }
{
    let mut text = [0; BYTES_AT_ONCE];
    let gathered = gather_unescaped(&mut text, bytes);
    put_bytes(array, &text[..gathered.end])?;
    Ok(gathered.rest)
}

/// Appends to `array` these characters. Errs only if an allocation failed; nothing is appended then, but no clause says so.
#[inline(always)]
#[tactic(auto, using(crate::proofs::ConstantBytes::bytes_stay))]
fn put_bytes(array: &mut ListedArray, characters: &[u8]) -> Result<(), AllocError>
    ensures { OnOk result (array.new ≡ array.old ++ char_bytes characters.now) }
{
    array.add(characters)
}

/// Returns the bytes between the quotes of the string `bytes`, or an empty slice if `bytes` is too short to have two quotes.
fn inner(bytes: &[u8]) -> &[u8]
    ensures { result.now ≡ inner bytes.now }
{
    if bytes.len() < 2 {
        return &[];
    }
    let (_, rest) = bytes.split_at(1);
    first_bytes(rest, bytes.len() - 2)
}
