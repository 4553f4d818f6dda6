//! The numbers of an attribute as CDL writes them.

ghost use Rattle.std.specs.Prelude.{◌≡◌, ◌+◌, ◌++◌, ◌<◌, ◌≤◌, length, take};
ghost use Rattle.nc_base.specs.HeadText.{numbers_text};
ghost use Rattle.nc_types.specs.Types.{size_of};
ghost use Rattle.devices.specs.code.SinkWrites.{Wrote};
ghost use Rattle.cdl_print.specs.code.Pieces.{number_text};

use crate::decimal::{decimal_len, put_decimal};
use crate::put::{put_byte, put_bytes, put_comma};
use devices::{Sink, WriteFailed, put};
use nc_base::{NcType, number_of};

/// The most bytes that a number takes: 21 in decimal, 3 of its suffix, and 2 of a comma and a space.
const MOST: usize = 26;

/// Writes the numbers of an attribute of the type `ty`, each with the suffix of the type, joined by `, `. `vals` has the numbers,
/// big-endian. Bytes at the end that are no whole number are left out. Errs if the sink fails.
pub fn put_numbers<W: Sink>(sink: &mut W, ty: NcType, vals: &[u8]) -> Result<(), WriteFailed>
    ensures { Wrote W.view sink.old sink.new (numbers_text ty vals.now) result }
{
    let size = ty.size() as usize;
    let mut text = [0; 1024];
    let mut rest = vals;
    while size <= rest.len() {
        let (end, others) = gather_numbers(&mut text, ty, rest);
        put(sink, &text[..end])?;
        rest = others;
    }
    Ok(())
}

/// Puts numbers of the type `ty` at the start of `text`, as many of the first numbers of `vals` as surely fit, and at least one. Each has
/// the suffix of the type, and a comma and a space after it unless it is the last of `vals`. Returns the offset at which they end, and the
/// bytes of the other numbers. Needs at least one number in `vals`, big-endian, and room for 26 bytes in `text` ([`MOST`]).
fn gather_numbers<'a>(text: &mut [u8], ty: NcType, vals: &'a [u8]) -> (usize, &'a [u8])
    requires some { size_of ty ≤ length vals.now }
    requires fits { 26 ≤ length text.old }
    ensures text { numbers_text ty vals.now ≡ take result.0 text.new ++ numbers_text ty result.1.now }
    ensures inside { result.0 ≤ length text.new }
    ensures fewer { length result.1.now < length vals.now }
{
    let size = ty.size() as usize;
    let (value, mut rest) = vals.split_at(size);
    let mut end = put_suffixed_number(text, 0, ty, value, rest.len() < size);
    while size <= rest.len() && text.len() - end >= MOST {
        let (value, others) = rest.split_at(size);
        end = put_suffixed_number(text, end, ty, value, others.len() < size);
        rest = others;
    }
    (end, rest)
}

/// Puts the number of the type `ty` that has the big-endian bytes `value` at the offset `at` of `text`, with the suffix of the type, and
/// then a comma and a space unless `is_last`. Returns the offset at which they end. Needs a whole number in `value`, and room for 26 bytes
/// in `text` ([`MOST`]).
#[tactic(auto, unfolding(crate::specs::code::Pieces::number_text, nc_types::specs::Bytes::concat_parts))]
#[inline(always)]
fn put_suffixed_number(text: &mut [u8], at: usize, ty: NcType, value: &[u8], is_last: bool) -> usize
    requires whole { length value.now ≡ size_of ty }
    requires fits { at + 26 ≤ length text.old }
    ensures text { take result text.new ≡ take at text.old ++ number_text ty value.now is_last }
    ensures short { result ≤ at + 26 }
{
    let number = number_of(ty, value);
    let len = decimal_len(number);
    put_decimal(text, at, len, number);
    let end = put_suffix(text, at + len, ty.suffix());
    if is_last { end } else { put_comma(text, end) }
}

/// Puts a suffix at the offset `at` of `text`, and returns the offset at which it ends. Needs room for it. The suffixes of most types, of
/// one letter or none, need no call that copies them.
#[inline(always)]
fn put_suffix(text: &mut [u8], at: usize, suffix: &[u8]) -> usize
    requires { at + length suffix.now ≤ length text.old }
    ensures end { result ≡ at + length suffix.now }
    ensures written { take result text.new ≡ take at text.old ++ suffix.now }
{
    match suffix {
        [] => at,
        [letter] => put_byte(text, at, *letter),
        _ => put_bytes(text, at, suffix),
    }
}
