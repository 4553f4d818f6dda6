//! The bytes of names and strings, each with its escape.

ghost use Rattle.std.specs.Prelude.{◌≡◌, ◌+◌, ◌*◌, ◌≤◌, length, take, true, ◌++◌};
ghost use Rattle.std.specs.List.{flat_map, list_all};
ghost use Rattle.nc_types.specs.code.Quoted.{escaped_in, is_literal, stands_for_itself, written};
ghost use Rattle.devices.specs.code.SinkWrites.{Wrote};

use crate::literal::{BLOCK, LANES, is_literal_block, literal_run};
use crate::put::{put_byte, put_bytes};
use devices::{Sink, WriteFailed, put};
use nc_base::{Escape, Quoting};
use std::simd::prelude::*;

/// How many bytes are written at once. Each takes at most four bytes with its escape.
const BYTES_AT_ONCE: usize = 128;

/// Writes bytes of a name or of a string, each with its escape if it needs one. `quoting` says which of the two they are in. The backslash
/// before the first byte of some names is left to [`put_name`](crate::put_name), and quotes to the caller. Errs if the sink fails.
pub fn put_escaped<W: Sink>(sink: &mut W, quoting: Quoting, bytes: &[u8]) -> Result<(), WriteFailed>
    ensures { Wrote W.view sink.old sink.new (flat_map (escaped_in quoting) bytes.now) result }
{
    let mut rest = bytes;
    while !rest.is_empty() {
        let (plain, others) = rest.split_at(plain_len(quoting, rest));
        put(sink, plain)?;
        let (few, more) = others.split_at(others.len().min(BYTES_AT_ONCE));
        put_few_escaped(sink, quoting, few)?;
        rest = more;
    }
    Ok(())
}

/// Returns a length, in bytes, up to which the beginning of a name or of a string (`quoting`) needs no escape. It may not be the greatest:
/// it tests 128 bytes at a time ([`BYTES_AT_ONCE`]), and leaves all of them out if one needs an escape.
fn plain_len(quoting: Quoting, bytes: &[u8]) -> usize
    ensures within { result ≤ length bytes.now }
    ensures plain { list_all (stands_for_itself quoting) (take result bytes.now) ≡ true }
{
    let mut len = 0;
    while len < bytes.len() {
        let (_, others) = bytes.split_at(len);
        let (few, _) = others.split_at(others.len().min(BYTES_AT_ONCE));
        if !are_plain(quoting, few) {
            break;
        }
        len += few.len();
    }
    len
}

/// Returns true if none of the bytes needs an escape in a name or in a string (`quoting`). It tests all of them, so that the compiler can
/// use vector instructions.
fn are_plain(quoting: Quoting, bytes: &[u8]) -> bool
    ensures { result ≡ list_all (stands_for_itself quoting) bytes.now }
{
    let mut all = true;
    for b in bytes {
        all = all & is_plain(quoting, *b);
    }
    all
}

/// Returns true if the byte needs no escape in a name or in a string (`quoting`). Returns what [`Quoting::is_plain`] does, but has no
/// branch for bytes of a string, as [`are_plain`] needs it.
#[inline(always)]
fn is_plain(quoting: Quoting, b: u8) -> bool
    ensures { result ≡ stands_for_itself quoting b }
{
    match quoting {
        Quoting::InName => quoting.is_plain(b),
        Quoting::InString => {
            (b >= b' ') & (b != 0x7f) & (b != b'"') & (b != b'\'') & (b != b'\\')
        }
    }
}

/// Writes bytes of a name or of a string (`quoting`) in one piece, each with its escape if it needs one. Needs at most 128 bytes
/// ([`BYTES_AT_ONCE`]). Errs if the sink fails.
fn put_few_escaped<W: Sink>(sink: &mut W, quoting: Quoting, bytes: &[u8]) -> Result<(), WriteFailed>
    requires { length bytes.now ≤ 128 }
    ensures { Wrote W.view sink.old sink.new (flat_map (escaped_in quoting) bytes.now) result }
{
    if bytes.is_empty() {
        return Ok(());
    }
    let mut text = [0; 4 * BYTES_AT_ONCE + LANES];
    let end = gather_escaped(&mut text, 0, quoting, bytes);
    put(sink, &text[..end])
}

/// Puts bytes of a name or of a string (`quoting`) at the offset `at` of `text`, each with its escape if it needs one, and returns the
/// offset at which they end. Needs room for four bytes each, and for 16 more ([`put_plain_run`]). What stands after them may change.
pub fn gather_escaped(text: &mut [u8], at: usize, quoting: Quoting, bytes: &[u8]) -> usize
    requires { at + 4 * length bytes.now + 16 ≤ length text.old }
    ensures text { take result text.new ≡ take at text.old ++ flat_map (escaped_in quoting) bytes.now }
    ensures short { result ≤ at + 4 * length bytes.now }
{
    let mut end = at;
    let mut rest = bytes;
    while !rest.is_empty() {
        let run = put_plain_run(text, end, quoting, rest);
        end += run;
        (_, rest) = rest.split_at(run);
        if run < LANES && !rest.is_empty() {
            end = put_escape(text, end, quoting.escape(rest[0]), rest[0]);
            (_, rest) = rest.split_at(1);
        }
    }
    end
}

/// Puts some of the first bytes of a name or of a string (`quoting`), of which none needs an escape, at the offset `at` of `text`, and
/// returns how many: none in a name, and in a string what [`put_literal_run`] puts. What stands after them in `text` may be anything then.
/// Needs room for the bytes, and for 16 more.
#[inline(always)]
fn put_plain_run(text: &mut [u8], at: usize, quoting: Quoting, bytes: &[u8]) -> usize
    requires { at + length bytes.now + 16 ≤ length text.old }
    ensures within { result ≤ length bytes.now }
    ensures plain { list_all (stands_for_itself quoting) (take result bytes.now) ≡ true }
    ensures text { take (at + result) text.new ≡ take at text.old ++ take result bytes.now }
{
    match quoting {
        Quoting::InName => 0,
        Quoting::InString => put_literal_run(text, at, bytes),
    }
}

/// Puts at the offset `at` of `text` the bytes of a string that come before the first one that needs an escape, and returns how many it has
/// put: at most 16, or 80 if none of the first 80 bytes needs an escape. What stands after them in `text` may be anything then, since it
/// copies 16 bytes before it tests them. Needs room for all of `bytes`, and for 16 more.
#[inline(always)]
fn put_literal_run(text: &mut [u8], at: usize, bytes: &[u8]) -> usize
    requires { at + length bytes.now + 16 ≤ length text.old }
    ensures within { result ≤ length bytes.now }
    ensures literal { list_all is_literal (take result bytes.now) ≡ true }
    ensures text { take (at + result) text.new ≡ take at text.old ++ take result bytes.now }
{
    if bytes.len() < LANES {
        put_bytes(text, at, bytes);
        return literal_run(u8x16::from_slice(&text[at..])).min(bytes.len());
    }
    let vector = u8x16::from_slice(bytes);
    vector.copy_to_slice(&mut text[at..]);
    let run = literal_run(vector);
    if run == LANES && bytes.len() >= LANES + BLOCK && is_literal_block(&bytes[LANES..]) {
        u8x64::from_slice(&bytes[LANES..]).copy_to_slice(&mut text[at + LANES..]);
        return LANES + BLOCK;
    }
    run
}

/// Puts the byte `b` at the offset `at` of `text`, written as `escape` says: as it is, as a backslash and a byte (`\n`), or in octal
/// (`\001`). Returns the offset at which it ends. Needs room for four bytes in `text`.
fn put_escape(text: &mut [u8], at: usize, escape: Escape, b: u8) -> usize
    requires { at + 4 ≤ length text.old }
    ensures written { take result text.new ≡ take at text.old ++ written escape b }
    ensures short { result ≤ at + 4 }
{
    match escape {
        Escape::Plain => put_byte(text, at, b),
        Escape::Backslash(c) => put_bytes(text, at, &[b'\\', c]),
        Escape::Octal => put_bytes(
            text,
            at,
            &[b'\\', b'0' + b / 64, b'0' + b / 8 % 8, b'0' + b % 8],
        ),
    }
}
