//! Searches that look at many bytes at once, by vectors.

ghost use Rattle.std.specs.Prelude.{◌≡◌, ◌+◌, ◌≤◌, ◌==◌, count_by, drop, length, map, true};
ghost use Rattle.std.specs.List.{prefix_len};
ghost use Rattle.std.specs.Simd.Lanes.{mask_l};
ghost use Rattle.cdl_tokens.specs.code.Scanners.{goes_on, is_stop};

use std::simd::prelude::*;

/// The number of bytes that [`near_len`] tests at once.
pub const LANES: usize = 16;

/// The number of bytes that [`far_len`] and [`count_of`] test at once.
const BLOCK: usize = 64;

/// The bytes that end a plain string, each at the index that its lower four bits give. Any other index holds a byte whose lower four bits
/// give another index, so that no byte equals what it finds there.
const STRING_ENDS: [u8; 16] = [1, 0, b'"', 0, 0, 0, 0, 0, 0, 0, b'\n', 0, b'\\', 0, 0, 0];

/// The bytes at which a search stops.
#[derive(Clone, Copy)]
pub enum Stops {
    /// This byte.
    At(u8),
    /// A backslash, and this byte.
    AtEscapeOr(u8),
    /// The bytes of [`STRING_ENDS`]: a backslash, a double quote, and a line feed.
    AtStringEnd,
}

/// Returns how many bytes come before the first stop, which is a byte that `stops` names. If there is none, returns the number of all
/// bytes. This search suits a stop that is likely to be less than a hundred bytes away, such as the end of a row. It is inlined, so that
/// `stops` costs no branch.
#[inline(always)]
pub fn near_len(bytes: &[u8], stops: Stops) -> usize
    ensures len { result ≡ prefix_len (goes_on stops) bytes.now }
    ensures within { result ≤ length bytes.now }
{
    let mut at = 0;
    while bytes.len() - at >= LANES {
        let found = stops_in(u8x16::from_slice(&bytes[at..]), stops);
        if found != 0 {
            return at + found.trailing_zeros() as usize;
        }
        at += LANES;
    }
    at + len_one_by_one(&bytes[at..], stops)
}

/// Returns how many bytes come before the first byte that `stops` names, or the number of all bytes, as [`near_len`] does. It suits a stop
/// that may be far away, such as the end of a comment: after the first 16 bytes, in which escapes often follow one another, it tests 64
/// bytes at once.
#[inline(always)]
pub fn far_len(bytes: &[u8], stops: Stops) -> usize
    ensures len { result ≡ prefix_len (goes_on stops) bytes.now }
    ensures within { result ≤ length bytes.now }
{
    if bytes.len() >= LANES {
        let found = stops_in(u8x16::from_slice(bytes), stops);
        if found != 0 {
            return found.trailing_zeros() as usize;
        }
    }
    let mut at = 0;
    while bytes.len() - at >= BLOCK {
        if !is_passed(bytes, at, stops) {
            break;
        }
        at += BLOCK;
    }
    at + near_len(&bytes[at..], stops)
}

/// Returns true only if `stops` names none of the 64 bytes from the offset `at` on. Needs 64 bytes there.
#[inline(always)]
fn is_passed(bytes: &[u8], at: usize, stops: Stops) -> bool
    requires { at + 64 ≤ length bytes.now }
    ensures { result ≡ true → prefix_len (goes_on stops) (drop at bytes.now)
        ≡ 64 + prefix_len (goes_on stops) (drop (at + 64) bytes.now) }
{
    let first = stops_in(u8x16::from_slice(&bytes[at..]), stops);
    let second = stops_in(u8x16::from_slice(&bytes[at + 16..]), stops);
    let third = stops_in(u8x16::from_slice(&bytes[at + 32..]), stops);
    let fourth = stops_in(u8x16::from_slice(&bytes[at + 48..]), stops);
    (first == 0) & (second == 0) & (third == 0) & (fourth == 0)
}

/// Returns a mask with a bit for each byte of the vector, the lowest for the first byte. A bit is set if `stops` names the byte.
#[inline(always)]
fn stops_in(vector: u8x16, stops: Stops) -> u64
    ensures { result ≡ mask_l (map (is_stop stops) vector) }
{
    match stops {
        Stops::At(b) => vector.simd_eq(u8x16::splat(b)).to_bitmask(),
        Stops::AtEscapeOr(b) => {
            (vector.simd_eq(u8x16::splat(b'\\')) | vector.simd_eq(u8x16::splat(b))).to_bitmask()
        }
        Stops::AtStringEnd => {
            let low = vector & u8x16::splat(15);
            let listed = u8x16::from_array(STRING_ENDS).swizzle_dyn_within::<16>(low);
            listed.simd_eq(vector).to_bitmask()
        }
    }
}

/// Returns how many bytes come before the first byte that `stops` names, or the number of all bytes. It tests one byte after the other:
/// [`near_len`] calls it for the bytes that fill no vector.
#[inline(always)]
fn len_one_by_one(bytes: &[u8], stops: Stops) -> usize
    ensures len { result ≡ prefix_len (goes_on stops) bytes.now }
    ensures within { result ≤ length bytes.now }
{
    bytes.iter().take_while(|b| goes_on(stops, **b)).count()
}

/// Returns true if a search goes on at the byte `b`, since `stops` doesn't name it.
#[inline(always)]
fn goes_on(stops: Stops, b: u8) -> bool
    ensures { result ≡ goes_on stops b }
{
    match stops {
        Stops::At(stop) => b != stop,
        Stops::AtEscapeOr(stop) => b != b'\\' && b != stop,
        Stops::AtStringEnd => b != b'\\' && b != b'"' && b != b'\n',
    }
}

/// Returns how many of the bytes are `byte`.
#[tactic(auto, using(crate::proofs::Masks::counted_more))]
pub fn count_of(bytes: &[u8], byte: u8) -> usize
    ensures { result ≡ count_by (λ b. b == byte) bytes.now }
{
    let mut count = 0;
    let mut at = 0;
    while bytes.len() - at >= BLOCK {
        count += equal_in(u8x64::from_slice(&bytes[at..]), byte);
        at += BLOCK;
    }
    let (_, rest) = bytes.split_at(at);
    count + rest.iter().filter(|b| **b == byte).count()
}

/// Returns how many bytes of the vector are `byte`.
#[inline(always)]
fn equal_in(vector: u8x64, byte: u8) -> usize
    ensures value { result ≡ count_by (λ b. b == byte) vector }
    ensures few { result ≤ 64 }
{
    vector.simd_eq(u8x64::splat(byte)).to_bitmask().count_ones() as usize
}
