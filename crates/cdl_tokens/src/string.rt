//! Strings: how far they go, and whether each of their escapes stands for a byte.

ghost use Rattle.std.specs.Prelude.{◌≡◌, ◌≤◌, is_some, length, take};
ghost use Rattle.std.specs.List.{list_all};
ghost use Rattle.cdl_tokens.specs.Escapes.{unescape};
ghost use Rattle.cdl_tokens.specs.Scan.{len_until};

use crate::bytes::byte_at;
use crate::escape::character;
use crate::scan::ordinary_len;

/// What a string has between its quotes.
#[derive(Clone, Copy)]
pub struct StringContents {
    /// The number of bytes before the closing quote, which is the first that isn't escaped, or of all bytes if there is none.
    pub len: usize,
    /// True if each character among these bytes stands for a byte.
    pub has_valid_escapes: bool,
}

/// Returns how many bytes a string has between its quotes, and whether each of its escapes stands for a byte; `bytes` is what comes after
/// the opening quote. It goes over the string once: from one escape to the next, or to the closing quote. It isn't inlined, so that its
/// loop has all registers.
#[inline(never)]
pub fn string_contents(bytes: &[u8]) -> StringContents
    ensures len { result.len ≡ len_until 0x22 bytes.now }
    ensures within { result.len ≤ length bytes.now }
    ensures good { result.has_valid_escapes ≡ list_all is_some (unescape (take result.len bytes.now)) }
{
    let mut rest = bytes;
    let mut len = 0;
    let mut has_valid_escapes = true;
    'escapes: loop {
        let n = ordinary_len(rest, b'"');
        let (_, escape) = rest.split_at(n);
        len += n;
        if byte_at(escape, 0) != b'\\' {
            return StringContents {
                len,
                has_valid_escapes,
            };
        }
        has_valid_escapes = has_valid_escapes & character(escape).value.is_some();
        // The byte after the backslash is no closing quote, and neither is any digit of an escape by number.
        let (escaped, after) = escape.split_at(escape.len().min(2));
        len += escaped.len();
        rest = after;
    }
}
