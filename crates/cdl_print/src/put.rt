//! Writing bytes into a slice.

ghost use Rattle.std.specs.Prelude.{◌≡◌, ◌+◌, ◌≤◌, ◌++◌, ◌∷◌, [], codes, length, take};

/// Writes `bytes` at the offset `at` of `text`, and returns the offset of their end. Needs room for them.
#[inline(always)]
pub fn put_bytes(text: &mut [u8], at: usize, bytes: &[u8]) -> usize
    requires { at + length bytes.now ≤ length text.old }
    ensures end { result ≡ at + length bytes.now }
    ensures written { take result text.new ≡ take at text.old ++ bytes.now }
{
    let end = at + bytes.len();
    text[at..end].copy_from_slice(bytes);
    end
}

/// Writes a comma and a space at the offset `at` of `text`, and returns the offset of their end. Needs room for both.
#[inline(always)]
pub fn put_comma(text: &mut [u8], at: usize) -> usize
    requires { at + 2 ≤ length text.old }
    ensures end { result ≡ at + 2 }
    ensures written { take result text.new ≡ take at text.old ++ codes ", " }
{
    let next = put_byte(text, at, b',');
    put_byte(text, next, b' ')
}

/// Writes `byte` at the offset `at` of `text`, and returns the offset after it. Needs room for it.
#[inline(always)]
pub fn put_byte(text: &mut [u8], at: usize, byte: u8) -> usize
    requires { at + 1 ≤ length text.old }
    ensures end { result ≡ at + 1 }
    ensures written { take result text.new ≡ take at text.old ++ byte ∷ [] }
{
    text[at] = byte;
    at + 1
}
