//! The bytes that strings stand for.

ghost use Rattle.std.specs.Prelude.{◌≡◌, ◌+◌, ◌≤◌, ◌<◌, length};
ghost use Rattle.cdl_tokens.specs.Escapes.{string_value};
ghost use Rattle.cdl_tokens.specs.code.Unescaping.{then_rest};

use crate::escape::character;
use crate::search::{LANES, Stops, near_len};
use std::simd::prelude::*;

/// What [`gather_unescaped`] has put, and what it has left.
#[derive(Clone, Copy)]
pub struct Unescaped<'a> {
    /// The offset at which the bytes that were put end.
    pub end: usize,
    /// The bytes of the string after the characters that stand for them.
    pub rest: &'a [u8],
}

/// Puts at the start of `text` the bytes that the first characters of a string stand for: those of all its characters, or of as many, one at
/// least, as leave fewer than 17 bytes of `text` free. `bytes` are those of the string without its quotes. An escape that stands for no
/// byte gives a 0 byte. What stands in `text` after the bytes may be anything then. Needs a `text` of at least 17 bytes, and a string that
/// isn't empty.
pub fn gather_unescaped<'a>(text: &mut [u8], bytes: &'a [u8]) -> Unescaped<'a>
    requires room { 17 ≤ length text.old }
    requires some { 0 < length bytes.now }
    ensures value { then_rest text.new result.end result.rest.now ≡ string_value bytes.now }
    ensures within { result.end ≤ length text.new }
    ensures shorter { length result.rest.now < length bytes.now }
    ensures full { 0 < length result.rest.now → length text.new < result.end + 17 }
{
    let mut end = 0;
    let mut rest = bytes;
    'characters: while !rest.is_empty() && end + LANES < text.len() {
        let after = put_character(text, end, rest);
        Unescaped { end, rest } = put_run(text, end + 1, after);
    }
    Unescaped { end, rest }
}

/// Puts at the offset `at` of `text` the byte that the first character of a string stands for, or 0 if it is an escape that stands for
/// none. Returns the bytes after this character.
#[inline(always)]
fn put_character<'a>(text: &mut [u8], at: usize, bytes: &'a [u8]) -> &'a [u8]
    requires room { at + 1 ≤ length text.old }
    requires some { 0 < length bytes.now }
    ensures value { then_rest text.new (at + 1) result.now ≡ then_rest text.old at bytes.now }
    ensures shorter { length result.now < length bytes.now }
{
    let found = character(bytes);
    text[at] = found.value.unwrap_or(0);
    let (_, rest) = bytes.split_at(found.len.min(bytes.len()));
    rest
}

/// Puts at the offset `at` of `text` those of the first 16 bytes of a string that come before a backslash, or none if the string has fewer
/// than 16 bytes. It copies the 16 bytes before it looks for the backslash.
#[inline(always)]
fn put_run<'a>(text: &mut [u8], at: usize, bytes: &'a [u8]) -> Unescaped<'a>
    requires { at + 16 ≤ length text.old }
    ensures value { then_rest text.new result.end result.rest.now ≡ then_rest text.old at bytes.now }
    ensures on { at ≤ result.end }
    ensures within { result.end ≤ at + 16 }
    ensures short { result.end + length result.rest.now ≡ at + length bytes.now }
{
    if bytes.len() < LANES {
        return Unescaped {
            end: at,
            rest: bytes,
        };
    }
    u8x16::from_slice(bytes).copy_to_slice(&mut text[at..]);
    let (first, _) = bytes.split_at(LANES);
    let run = near_len(first, Stops::At(b'\\'));
    let (_, rest) = bytes.split_at(run);
    Unescaped {
        end: at + run,
        rest,
    }
}
