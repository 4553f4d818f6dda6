//! The escapes of strings.

ghost use Rattle.std.specs.Prelude.{◌≡◌, ◌≤◌, ◌<◌, length};
ghost use Rattle.std.specs.List.{prefix_len};
ghost use Rattle.cdl_tokens.specs.Bytes.{number_in};
ghost use Rattle.cdl_tokens.specs.Escapes.{up_to_255, character, escaped_character, number_escape, plain_escape};
ghost use Rattle.cdl_tokens.specs.code.Scanners.{is_unescaped};

use crate::bytes::{byte_at, first_bytes, is_octal};
use crate::digits::{hex_len, number_in, octal_len};
use crate::scan::Character;
use crate::search::{Stops, far_len};

/// Returns the number as a byte, or `None` if it is greater than 255.
fn byte(n: u64) -> Option<u8>
    ensures { result ≡ up_to_255 n }
{
    if n > 255 { None } else { Some(n as u8) }
}

/// Returns the escape of `mark` bytes (1 for a backslash, 2 for a backslash and `x`) and then these digits of the base `base`. Its value is
/// the byte that the digits say, or `None` if there are no digits, or if they say more than 255. Its length counts the `mark`. Needs a
/// `mark` of 1 or 2, and a base from 1 to 16.
fn number_escape(mark: usize, base: u64, digits: &[u8]) -> Character
    requires some { 0 < mark }
    requires short { mark ≤ 2 }
    requires base { 1 ≤ base }
    requires small { base ≤ 16 }
    ensures escape { result ≡ number_escape mark base digits.now }
    ensures some { 0 < result.len }
{
    Character {
        value: if digits.is_empty() {
            None
        } else {
            byte_in(base, digits)
        },
        len: mark + digits.len(),
    }
}

/// Returns the value of these octal (`base` 8) or hexadecimal (`base` 16) digits as a byte, or `None` if it is greater than 255. Needs a
/// base from 1 to 16.
fn byte_in(base: u64, digits: &[u8]) -> Option<u8>
    requires some { 1 ≤ base }
    requires small { base ≤ 16 }
    ensures { result ≡ up_to_255 (number_in base 0 digits.now) }
{
    byte(number_in(base, digits)?)
}

/// Returns the byte that a backslash and then `b` stand for, if `b` is neither an octal digit nor `x`: these begin an escape by number.
fn plain_escape(b: u8) -> u8
    ensures { result ≡ plain_escape b }
{
    match b {
        b'a' => 0x07,
        b'b' => 0x08,
        b'f' => 0x0c,
        b'n' => b'\n',
        b'r' => b'\r',
        b't' => b'\t',
        b'v' => 0x0b,
        _ => b,
    }
}

/// Returns the escape that a backslash begins; `bytes` are those after the backslash. It takes up to three octal digits, or `x` and up to
/// two hexadecimal digits, or one other byte. The length counts the backslash. The value is `None` if `x` has no digit, or if octal digits
/// say more than 255. If `bytes` is empty, the value is 0 and the length is 2, as if a 0 byte came next.
#[inline(always)]
fn escape(bytes: &[u8]) -> Character
    ensures escape { result ≡ escaped_character bytes.now }
    ensures some { 0 < result.len }
{
    let b = byte_at(bytes, 0);
    if is_octal(b) {
        let first = first_bytes(bytes, 3);
        let (digits, _) = first.split_at(octal_len(first));
        number_escape(1, 8, digits)
    } else if b == b'x' && !bytes.is_empty() {
        let first = first_bytes(&bytes[1..], 2);
        let (digits, _) = first.split_at(hex_len(first));
        number_escape(2, 16, digits)
    } else {
        Character {
            value: Some(plain_escape(b)),
            len: 2,
        }
    }
}

/// Returns the first character of these bytes: an escape, or a byte that stands for itself. The value of an escape that stands for no byte,
/// such as `\400`, is `None`. If the bytes are a backslash alone, the length of the character is 2, more than there are bytes. Needs one
/// byte or more.
#[tactic(auto, unfolding(crate::specs::Escapes::character))]
#[inline(always)]
pub fn character(bytes: &[u8]) -> Character
    requires { 0 < length bytes.now }
    ensures character { result ≡ character bytes.now }
    ensures some { 0 < result.len }
{
    if bytes[0] == b'\\' {
        escape(&bytes[1..])
    } else {
        Character {
            value: Some(bytes[0]),
            len: 1,
        }
    }
}

/// Returns how many bytes come before the first backslash. If there is none, returns the number of all bytes.
pub fn len_before_escape(bytes: &[u8]) -> usize
    ensures len { result ≡ prefix_len is_unescaped bytes.now }
    ensures within { result ≤ length bytes.now }
{
    far_len(bytes, Stops::At(b'\\'))
}
