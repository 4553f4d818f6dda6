//! The rule on names.

ghost use Rattle.std.specs.Prelude.{◌≡◌, ◌<◌, length};
ghost use Rattle.std.specs.List.{list_all};
ghost use Rattle.std.specs.Str.{is_utf8};
ghost use Rattle.nc_types.specs.Names.{is_name, has_name_bytes, ends_with_space, may_begin_name, may_follow_in_name};

/// Returns true if the bytes are a name that a dimension, a variable or an attribute may have (`name` of the NetCDF Classic Format
/// Specification). Such a name is UTF-8, isn't empty, and doesn't end with a space. It begins with a letter, a digit, `_` or a character
/// beyond ASCII; after that come printing ASCII characters other than `/`, or characters beyond ASCII.
pub fn check_name(name: &[u8]) -> bool
    ensures { result ≡ is_name name.now }
{
    has_name_bytes(name) && !ends_with_space(name) && is_utf8(name)
}

/// Returns true if `name` isn't empty, its first byte may begin a name, and each other byte may follow in one. This is the part of
/// [`check_name`] that looks at each byte by itself.
fn has_name_bytes(name: &[u8]) -> bool
    ensures { result ≡ has_name_bytes name.now }
{
    match name {
        [] => false,
        [first, others @ ..] => may_begin(*first) && may_all_follow(others),
    }
}

/// Returns true if each of these bytes may stand in a name after its first byte.
fn may_all_follow(others: &[u8]) -> bool
    ensures { result ≡ list_all may_follow_in_name others.now }
{
    others.iter().all(|b| may_follow(*b))
}

/// Returns true if the last byte of `name` is a space. Needs a name of at least one byte.
fn ends_with_space(name: &[u8]) -> bool
    requires { 0 < length name.now }
    ensures { result ≡ ends_with_space name.now }
{
    name[name.len() - 1] == b' '
}

/// Returns true if the bytes are UTF-8.
fn is_utf8(bytes: &[u8]) -> bool
    ensures { result ≡ is_utf8 bytes.now }
{
    str::from_utf8(bytes).is_ok()
}

/// Returns true if a name may begin with this byte: if it is a letter, a digit, `_` or a byte from 0x80.
fn may_begin(b: u8) -> bool
    ensures { result ≡ may_begin_name b }
{
    b.is_ascii_alphabetic() || b.is_ascii_digit() || b == b'_' || b >= 0x80
}

/// Returns true if this byte may stand in a name after its first byte: if it is an ASCII character from space to `~` other than `/`, or a
/// byte from 0x80.
fn may_follow(b: u8) -> bool
    ensures { result ≡ may_follow_in_name b }
{
    (b >= b' ' && b <= b'~' && b != b'/') || b >= 0x80
}
