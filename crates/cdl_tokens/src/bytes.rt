//! The classes of bytes.

ghost use Rattle.std.specs.Prelude.{◌≡◌, ◌≤◌, length, slice_index, take};
ghost use Rattle.cdl_tokens.specs.Bytes.{may_begin_word, goes_on_number, goes_on_word, is_blank, is_digit, is_escape, is_hex, is_letter, is_mark_byte, is_octal, is_sign};
ghost use Rattle.cdl_tokens.specs.code.PlainTokens.{ends_value};

/// Returns the byte at the offset `at`, or 0 if the bytes end before it.
pub fn byte_at(bytes: &[u8], at: usize) -> u8
    ensures { result ≡ slice_index bytes.now at }
{
    if at < bytes.len() { bytes[at] } else { 0 }
}

/// Returns the first `n` bytes, or all if there are fewer.
pub fn first_bytes(bytes: &[u8], n: usize) -> &[u8]
    ensures first { result.now ≡ take n bytes.now }
    ensures len { length result.now ≤ n }
{
    if n < bytes.len() {
        let (first, _) = bytes.split_at(n);
        first
    } else {
        bytes
    }
}

/// Returns true if the byte is an ASCII letter.
pub fn is_letter(b: u8) -> bool
    ensures { result ≡ is_letter b }
{
    b.is_ascii_alphabetic()
}

/// Returns true if the byte is a decimal digit.
pub fn is_digit(b: u8) -> bool
    ensures { result ≡ is_digit b }
{
    b.is_ascii_digit()
}

/// Returns true if the byte is an octal digit.
pub fn is_octal(b: u8) -> bool
    ensures { result ≡ is_octal b }
{
    b >= b'0' && b <= b'7'
}

/// Returns true if the byte is a hexadecimal digit, in either case.
pub fn is_hex(b: u8) -> bool
    ensures { result ≡ is_hex b }
{
    let lower = b.to_ascii_lowercase();
    is_digit(b) || lower >= b'a' && lower <= b'f'
}

/// Returns true if the byte is white space: one of 0x09 to 0x0d, or a space.
pub fn is_blank(b: u8) -> bool
    ensures { result ≡ is_blank b }
{
    b >= 0x09 && b <= 0x0d || b == b' '
}

/// Returns true for a comma and for white space, which end a number and a word. Other bytes that end one, such as `;`, give false.
pub fn ends_value(b: u8) -> bool
    ensures { result ≡ ends_value b }
{
    b == b',' || is_blank(b)
}

/// Returns true if the byte is a sign of a number.
pub fn is_sign(b: u8) -> bool
    ensures { result ≡ is_sign b }
{
    b == b'+' || b == b'-'
}

/// Returns true if the byte is a token by itself: one of `: ; = , ( ) }`.
pub fn is_mark(b: u8) -> bool
    ensures { result ≡ is_mark_byte b }
{
    matches!(b, b':' | b';' | b'=' | b',' | b'(' | b')' | b'}')
}

/// Returns true if a word may begin with the byte: a letter, `_` or a byte from 0x80. A word may also begin with an escape, for which
/// `begins_a_word` of the module `scan` looks at two bytes.
pub fn may_begin_word(b: u8) -> bool
    ensures { result ≡ may_begin_word b }
{
    is_letter(b) || b == b'_' || b >= 0x80
}

/// Returns true if the byte may stand unescaped in a word, after its first byte: a letter, a digit, one of `_ . @ + -` or a byte from 0x80.
pub fn goes_on_word(b: u8) -> bool
    ensures { result ≡ goes_on_word b }
{
    b.is_ascii_alphanumeric() || matches!(b, b'_' | b'.' | b'@' | b'+' | b'-') || b >= 0x80
}

/// Returns true if a number token goes on with the byte: a letter, a digit, `_` or `.`.
pub fn goes_on_number(b: u8) -> bool
    ensures { result ≡ goes_on_number b }
{
    is_letter(b) || is_digit(b) || b == b'_' || b == b'.'
}

/// Returns true if `b` and `c` are an escape of a word (strings have others): a backslash, and a byte from 0x20 to 0x7e or from 0x80.
pub fn is_escape(b: u8, c: u8) -> bool
    ensures { result ≡ is_escape b c }
{
    b == b'\\' && (c >= 0x20 && c <= 0x7e || c >= 0x80)
}
