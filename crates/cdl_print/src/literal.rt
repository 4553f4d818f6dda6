//! Searches for bytes that need an escape in a string, by vectors.

ghost use Rattle.std.specs.Prelude.{◌≡◌, ◌≤◌, length, map, take, true};
ghost use Rattle.std.specs.List.{list_all, prefix_len};
ghost use Rattle.std.specs.Simd.Lanes.{mask_l};
ghost use Rattle.nc_types.specs.code.Quoted.{is_literal};
ghost use Rattle.cdl_print.specs.code.Pieces.{needs_escape};

use std::simd::prelude::*;

/// The number of bytes that are tested at once.
pub const LANES: usize = 16;

/// The number of bytes that [`is_literal_block`] tests.
pub const BLOCK: usize = 64;

/// The bytes from 0x20 on that need an escape, each at the index that its lower four bits give. Any other index holds a byte whose lower
/// four bits give another index, so that no byte equals what it finds there.
const ESCAPED: [u8; 16] = [1, 0, b'"', 0, 0, 0, 0, b'\'', 0, 0, 0, 0, b'\\', 0, 0, 0x7f];

/// Returns how many bytes of the vector come before the first one that needs an escape in a string, or 16 if none needs one.
#[inline(always)]
pub fn literal_run(vector: u8x16) -> usize
    ensures len { result ≡ prefix_len is_literal vector }
    ensures within { result ≤ 16 }
{
    let found = escape_mask(vector);
    if found == 0 {
        LANES
    } else {
        found.trailing_zeros() as usize
    }
}

/// Returns true if none of the first 64 bytes ([`BLOCK`]) needs an escape in a string. Needs at least 64 bytes. The clauses promise only
/// that none needs one if it returns true.
#[inline(always)]
pub fn is_literal_block(bytes: &[u8]) -> bool
    requires { 64 ≤ length bytes.now }
    ensures { result ≡ true → list_all is_literal (take 64 bytes.now) ≡ true }
{
    let first = escape_mask(u8x16::from_slice(bytes));
    let second = escape_mask(u8x16::from_slice(&bytes[16..]));
    let third = escape_mask(u8x16::from_slice(&bytes[32..]));
    let fourth = escape_mask(u8x16::from_slice(&bytes[48..]));
    (first == 0) & (second == 0) & (third == 0) & (fourth == 0)
}

/// Returns a mask with a bit for each byte of the vector, the lowest for the first byte, set if the byte needs an escape in a string. A
/// byte from 0x20 on needs one if [`ESCAPED`] has it at its lower four bits.
#[inline(always)]
fn escape_mask(vector: u8x16) -> u64
    ensures { result ≡ mask_l (map needs_escape vector) }
{
    let listed = u8x16::from_array(ESCAPED).swizzle_dyn_within::<16>(vector & u8x16::splat(15));
    (listed.simd_eq(vector) | vector.simd_lt(u8x16::splat(0x20))).to_bitmask()
}
