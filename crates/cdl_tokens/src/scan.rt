//! What bytes begin with.

ghost use Rattle.std.specs.Prelude.{◌≡◌, ◌+◌, ◌≤◌, ◌<◌, ◌==◌, ◌^◌, ◌&&◌, IsTrue, drop, length, not, true, nat_lt, slice_index};
ghost use Rattle.std.specs.List.{prefix_len};
ghost use Rattle.cdl_tokens.specs.Bytes.{goes_on_number};
ghost use Rattle.cdl_tokens.specs.Scan.{begins_a_word, begins_comment, begins_number, begins_opening, gap, scan, scan_opening, scan_text, token, len_until, word_len};
ghost use Rattle.cdl_tokens.specs.code.Scanners.{is_ordinary, is_token};

use crate::bytes::{
    byte_at, goes_on_number, goes_on_word, is_blank, is_digit, is_escape, is_mark, is_sign,
    may_begin_word,
};
use crate::search::{Stops, far_len};
use crate::string::string_contents;
use crate::token::TokenKind;

/// The length of the word that opens a text, `netcdf`.
const OPENING_LEN: usize = 6;

/// What bytes begin with: a token, or a gap between tokens (white space or a comment).
#[derive(Clone, Copy, Debug, PartialEq, Eq)]
pub struct Scanned {
    /// The token's kind, or `None` for a gap.
    pub kind: Option<TokenKind>,
    /// The number of its bytes.
    pub len: usize,
}

/// A character of a string: a byte that stands for itself, or an escape.
#[derive(Clone, Copy, Debug, PartialEq, Eq)]
pub struct Character {
    /// The byte that it stands for, or `None` if it is an escape that stands for no byte.
    pub value: Option<u8>,
    /// The number of its bytes.
    pub len: usize,
}

/// Returns what the bytes begin with: the longest token, which may be of the kind `Bad`, or a gap, which is one byte of white space or a
/// comment without its line feed. `at_start` is true if no token comes before the bytes: only the first token of a text can be an opening,
/// which begins with `netcdf` and ends with the first unescaped `{`. Needs one byte or more.
#[tactic(auto, unfolding(crate::specs::Scan::scan))]
pub fn scan(at_start: bool, bytes: &[u8]) -> Scanned
    requires { 0 < length bytes.now }
    ensures scan { result ≡ scan at_start bytes.now }
    ensures some { 0 < result.len }
    ensures kind { is_token result.kind ≡ true }
    ensures within { result.len ≤ length bytes.now }
{
    let b = bytes[0];
    if at_start && begins_opening(bytes) {
        let (_, rest) = bytes.split_at(OPENING_LEN);
        scan_opening(rest)
    } else if begins_a_word(bytes) {
        token(TokenKind::Word, word_len(bytes))
    } else if begins_number(bytes) {
        token(TokenKind::Number, number_len(bytes))
    } else if is_blank(b) {
        gap(1)
    } else if begins_comment(bytes) {
        gap(line_len(bytes))
    } else if b == b'"' {
        scan_text(&bytes[1..])
    } else if is_mark(b) {
        token(TokenKind::Mark, 1)
    } else {
        token(TokenKind::Bad, 1)
    }
}

/// Returns a gap (white space or a comment) of `len` bytes.
fn gap(len: usize) -> Scanned
    ensures { result ≡ gap len }
{
    Scanned { kind: None, len }
}

/// Returns a token of this kind and of `len` bytes.
fn token(kind: TokenKind, len: usize) -> Scanned
    ensures { result ≡ token kind len }
{
    Scanned {
        kind: Some(kind),
        len,
    }
}

/// Returns the kind and the length of the token that begins with `netcdf`; `bytes` is what comes after `netcdf`. The token is an opening
/// that ends with the first `{` that isn't escaped. If there is no such `{`, it is a bad token that goes on to the end of the bytes. The
/// length counts `netcdf`, and needs to fit in 64 bits.
fn scan_opening(bytes: &[u8]) -> Scanned
    requires { length bytes.now + 6 < 2 ^ 64 }
    ensures scan { result ≡ scan_opening bytes.now (len_until 0x7b bytes.now) }
    ensures within { result.len ≤ length bytes.now + 6 }
{
    let n = len_until(bytes, b'{');
    if n < bytes.len() {
        token(TokenKind::Opening, OPENING_LEN + n + 1)
    } else {
        token(TokenKind::Bad, OPENING_LEN + bytes.len())
    }
}

/// Returns the kind and the length of the token that begins with a quote; `bytes` is what comes after the quote. The token is a string that
/// ends with the first quote that isn't escaped. If there is no such quote, it is a bad token that goes on to the end of the bytes. If an
/// escape of the string stands for no byte (`\400`, for example, is above 255), it is a bad token, too. The length counts the quotes, and
/// needs to fit in 64 bits.
fn scan_text(bytes: &[u8]) -> Scanned
    requires { length bytes.now + 1 < 2 ^ 64 }
    ensures scan { result ≡ scan_text bytes.now (len_until 0x22 bytes.now) }
    ensures within { result.len ≤ length bytes.now + 1 }
{
    let found = string_contents(bytes);
    if found.len == bytes.len() {
        token(TokenKind::Bad, 1 + found.len)
    } else if found.has_valid_escapes {
        token(TokenKind::Text, found.len + 2)
    } else {
        token(TokenKind::Bad, found.len + 2)
    }
}

/// Returns true if the bytes begin as a word does: with a letter, `_`, a byte from 0x80 or an escape of a word ([`is_escape`]).
fn begins_a_word(bytes: &[u8]) -> bool
    ensures { result ≡ begins_a_word bytes.now }
{
    let b = byte_at(bytes, 0);
    may_begin_word(b) || is_escape(b, byte_at(bytes, 1))
}

/// Returns true if the bytes begin as a number does: with an optional sign, an optional point and then a digit, such as `-.5`.
pub fn begins_number(bytes: &[u8]) -> bool
    ensures { result ≡ begins_number bytes.now }
{
    let a = byte_at(bytes, 0);
    let b = byte_at(bytes, 1);
    is_digit(a)
        || a == b'.' && is_digit(b)
        || is_sign(a) && is_digit(b)
        || is_sign(a) && b == b'.' && is_digit(byte_at(bytes, 2))
}

/// Returns true if the bytes begin with two slashes.
fn begins_comment(bytes: &[u8]) -> bool
    ensures { result ≡ begins_comment bytes.now }
{
    byte_at(bytes, 0) == b'/' && byte_at(bytes, 1) == b'/'
}

/// Returns true if the bytes begin with `netcdf` and then white space or a `{`.
fn begins_opening(bytes: &[u8]) -> bool
    ensures begins { result ≡ begins_opening bytes.now }
    ensures len { IsTrue result → 6 ≤ length bytes.now }
{
    let b = byte_at(bytes, OPENING_LEN);
    bytes.starts_with(b"netcdf") && (is_blank(b) || b == b'{')
}

/// Returns the length in bytes of the number token that the bytes begin with. Needs bytes for which [`begins_number`] returns true.
pub fn number_len(bytes: &[u8]) -> usize
    requires { begins_number bytes.now ≡ true }
    ensures len { result ≡ 1 + prefix_len goes_on_number (drop 1 bytes.now) }
    ensures within { result ≤ length bytes.now }
{
    let (_, rest) = bytes.split_at(1);
    1 + continuation_len(rest)
}

/// Returns how many bytes at the start can continue a number token: letters, digits, `_` and `.`.
fn continuation_len(bytes: &[u8]) -> usize
    ensures len { result ≡ prefix_len goes_on_number bytes.now }
    ensures within { result ≤ length bytes.now }
{
    bytes.iter().take_while(|b| goes_on_number(**b)).count()
}

/// Returns how many bytes come before the first line feed. If there is none, returns the number of all bytes.
fn line_len(bytes: &[u8]) -> usize
    ensures len { result ≡ prefix_len (λ b. not (b == 0x0a)) bytes.now }
    ensures within { result ≤ length bytes.now }
{
    far_len(bytes, Stops::At(b'\n'))
}

/// Returns how many bytes at the start belong to a word: escapes, letters, digits, `_`, `.`, `@`, `+`, `-` and bytes from 0x80. Returns at
/// least 1 if a word begins there.
#[tactic(auto, using(crate::proofs::Words::word_at, crate::proofs::Words::word_past, crate::proofs::Words::escape_inside, crate::proofs::Words::word_some))]
fn word_len(bytes: &[u8]) -> usize
    ensures len { result ≡ word_len bytes.now }
    ensures within { result ≤ length bytes.now }
    ensures some { 0 < length bytes.now → begins_a_word bytes.now ≡ true → 0 < result }
{
    let mut at = 0;
    while at < bytes.len() {
        if is_escape(bytes[at], byte_at(bytes, at + 1)) {
            at += 2;
        } else if goes_on_word(bytes[at]) {
            at += 1;
        } else {
            break;
        }
    }
    at
}

/// Returns true if a backslash stands at the offset `at`, and a byte comes after it. It is for strings and for the opening, in which a
/// backslash escapes any byte; [`is_escape`] is for words. Needs an `at` below the number of bytes.
fn is_escaping(bytes: &[u8], at: usize) -> bool
    requires { at < length bytes.now }
    ensures { result ≡ (slice_index bytes.now at == 0x5c && nat_lt (at + 1) (length bytes.now)) }
{
    bytes[at] == b'\\' && at + 1 < bytes.len()
}

/// Returns how many bytes come before the first backslash or `close`. If there is none, returns the number of all bytes.
#[tactic(auto, using(crate::proofs::Searches::before_ordinary))]
#[inline(always)]
pub fn ordinary_len(bytes: &[u8], close: u8) -> usize
    ensures len { result ≡ prefix_len (is_ordinary close) bytes.now }
    ensures within { result ≤ length bytes.now }
{
    far_len(bytes, Stops::AtEscapeOr(close))
}

/// Returns how many bytes come before the first `close` that no backslash escapes. If there is none, returns the number of all bytes.
#[tactic(auto, using(crate::proofs::Words::until_at, crate::proofs::Words::until_past, crate::proofs::Words::until_run))]
fn len_until(bytes: &[u8], close: u8) -> usize
    ensures len { result ≡ len_until close bytes.now }
    ensures within { result ≤ length bytes.now }
{
    let mut at = 0;
    while at < bytes.len() {
        if is_escaping(bytes, at) {
            at += 2;
        } else if bytes[at] == close {
            return at;
        } else {
            let (_, rest) = bytes.split_at(at + 1);
            at += 1 + ordinary_len(rest, close);
        }
    }
    at
}
