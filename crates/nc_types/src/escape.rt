//! How names and strings are written in CDL: their bytes, each with its escape, and the reserved words.

ghost use Rattle.std.specs.Prelude.{◌≡◌};
ghost use Rattle.std.specs.List.{list_any};
ghost use Rattle.std.specs.Str.{bytes_eq};
ghost use Rattle.nc_types.specs.Escapes.{begins_with_digit_or_mark, escaped_in_name, escaped_in_string, is_name_mark, is_plain, is_reserved};
ghost use Rattle.nc_types.specs.code.Quoted.{is_literal, written};

/// The reserved words of CDL. None of them is a name unless it is escaped.
const RESERVED_WORDS: [&[u8]; 20] = [
    b"netcdf",
    b"dimensions",
    b"variables",
    b"data",
    b"byte",
    b"char",
    b"short",
    b"int",
    b"long",
    b"float",
    b"real",
    b"double",
    b"ubyte",
    b"ushort",
    b"uint",
    b"int64",
    b"uint64",
    b"string",
    b"unlimited",
    b"UNLIMITED",
];

/// Where bytes stand in CDL, which decides on their escapes.
#[derive(Clone, Copy, Debug, PartialEq, Eq)]
pub enum Quoting {
    /// In a name, which stands without quotes.
    InName,
    /// In a string, between two double quotes.
    InString,
}

/// How a byte is written.
#[derive(Clone, Copy, Debug, PartialEq, Eq)]
pub enum Escape {
    /// As it is.
    Plain,
    /// As a backslash and this byte.
    Backslash(u8),
    /// As a backslash and three octal digits.
    Octal,
}

impl Quoting {
    ghost use Rattle.nc_types.specs.code.Quoted.{escaped_in, stands_for_itself, written};

    /// Returns true if the byte needs no escape in a name or in a string, whichever this is. The first byte of a name may need one all the
    /// same: see [`begins_with_digit_or_mark`] and [`is_reserved`].
    pub fn is_plain(self, b: u8) -> bool
        ensures { result ≡ stands_for_itself self b }
    {
        match self {
            Quoting::InName => is_plain_in_name(b),
            Quoting::InString => is_plain_in_string(b),
        }
    }

    /// Returns how the byte is written in a name or in a string, whichever this is (ncdump(1), and the chapter on CDL of the NetCDF User's
    /// Guide). The first byte of a name may get a backslash even if this returns [`Escape::Plain`] for it: see
    /// [`begins_with_digit_or_mark`] and [`is_reserved`].
    pub fn escape(self, b: u8) -> Escape
        ensures { written result b ≡ escaped_in self b }
    {
        match self {
            Quoting::InName => escape_in_name(b),
            Quoting::InString => escape_in_string(b),
        }
    }
}

/// Returns how a byte is written in a name: as it is if [`is_plain_in_name`] is true of it, otherwise after a backslash. The first byte of
/// a name may need a backslash all the same ([`Quoting::escape`]).
fn escape_in_name(b: u8) -> Escape
    ensures { written result b ≡ escaped_in_name b }
{
    if is_plain_in_name(b) {
        Escape::Plain
    } else {
        Escape::Backslash(b)
    }
}

/// Returns how a byte is written in a string. A quote (`"` or `'`) or a backslash gets a backslash before it. A control character becomes a
/// backslash and a letter if its code is 8 to 13, otherwise a backslash and three octal digits. Any other byte is written as it is.
fn escape_in_string(b: u8) -> Escape
    ensures { written result b ≡ escaped_in_string b }
{
    match b {
        0x08 => Escape::Backslash(b'b'),
        b'\t' => Escape::Backslash(b't'),
        b'\n' => Escape::Backslash(b'n'),
        0x0b => Escape::Backslash(b'v'),
        0x0c => Escape::Backslash(b'f'),
        b'\r' => Escape::Backslash(b'r'),
        b'"' | b'\'' | b'\\' => Escape::Backslash(b),
        _ if b.is_ascii_control() => Escape::Octal,
        _ => Escape::Plain,
    }
}

/// Returns true if the byte stands for itself in a name, after the first byte: if it is a letter, a digit, `_`, `.`, `@`, `+`, `-` or a
/// byte from 0x80.
fn is_plain_in_name(b: u8) -> bool
    ensures { result ≡ is_plain b }
{
    b.is_ascii_alphanumeric() || b == b'_' || is_name_mark(b) || b >= 0x80
}

/// Returns true if the byte stands for itself in a string: if it is neither a control character nor `"`, `'` or a backslash.
fn is_plain_in_string(b: u8) -> bool
    ensures { result ≡ is_literal b }
{
    !(b.is_ascii_control() || matches!(b, b'"' | b'\'' | b'\\'))
}

/// Returns true if the byte is `.`, `@`, `+` or `-`. A name may have these bytes unescaped, but not as its first byte.
fn is_name_mark(b: u8) -> bool
    ensures { result ≡ is_name_mark b }
{
    matches!(b, b'.' | b'@' | b'+' | b'-')
}

/// Returns true if the first byte of the name is a digit, `.`, `@`, `+` or `-`. Such a first byte is written after a backslash. Returns
/// false for an empty name.
pub fn begins_with_digit_or_mark(name: &[u8]) -> bool
    ensures { result ≡ begins_with_digit_or_mark name.now }
{
    match name.first() {
        Some(&b) => b.is_ascii_digit() || is_name_mark(b),
        None => false,
    }
}

/// Returns true if the bytes are a reserved word of CDL, such as `int` or `data`, which names nothing unless it is escaped.
#[tactic(auto, unfolding(crate::specs::Escapes::is_reserved))]
pub fn is_reserved(name: &[u8]) -> bool
    ensures { result ≡ is_reserved name.now }
{
    is_one_of(name, &RESERVED_WORDS)
}

/// Returns true if the bytes equal one of the words.
fn is_one_of(bytes: &[u8], words: &[&[u8]]) -> bool
    ensures { result ≡ list_any (λ word. bytes_eq bytes.now word.now) words.now }
{
    words.iter().any(|word| bytes == *word)
}
