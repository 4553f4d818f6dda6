//! Reading on until a slice is full.

ghost use Rattle.std.specs.Prelude.{◌+◌, ◌<◌, ◌≤◌, ◌^◌, length};
ghost use Rattle.nc_walk.specs.code.FullReads.{ReadsInFull};

use devices::{Source, SourceFailed};

/// Reads the bytes from the offset `at` on until the slice is full, or a read gets no byte because the source has ended. Returns how many
/// bytes were read. Needs a slice that isn't empty, and that `at` plus the slice's length is below 2^64 and no more than the length that
/// the source states. A transparent source fills the slice, and an opaque one may end before its length ([`Source`] explains the two
/// words).
///
/// # Errors
///
/// The source failed. The slice may hold anything.
// Most slices are filled by one read. So this function is inlined, and the loop over more reads is in `read_on`.
#[inline(always)]
pub(crate) fn read_full<S: Source>(
    source: &mut S,
    at: u64,
    into: &mut [u8],
) -> Result<usize, SourceFailed>
    requires some { 0 < length into.old }
    requires fits { at + length into.old < 2 ^ 64 }
    requires there { at + length into.old ≤ length (S.view source.old).bytes }
    ensures { ReadsInFull S.is_transparent (S.view source.old) (S.view source.new) at into.new result }
{
    let got = source.read_at(at, into)?;
    if got == into.len() || got == 0 {
        return Ok(got);
    }
    let more = read_on(source, at + got as u64, &mut into[got..])?;
    Ok(got + more)
}

/// Reads the bytes from the offset `at` on until the slice is full, or a read gets no byte because the source has ended. Returns how many
/// bytes were read. [`read_full`] calls it for the bytes that its one read didn't get. The slice may be empty. Needs that `at` plus the
/// slice's length is below 2^64 and no more than the length that the source states.
///
/// # Errors
///
/// The source failed. The slice may hold anything.
#[inline(never)]
fn read_on<S: Source>(source: &mut S, at: u64, into: &mut [u8]) -> Result<usize, SourceFailed>
    requires fits { at + length into.old < 2 ^ 64 }
    requires there { at + length into.old ≤ length (S.view source.old).bytes }
    ensures { ReadsInFull S.is_transparent (S.view source.old) (S.view source.new) at into.new result }
{
    let mut got = 0;
    while got < into.len() {
        match source.read_at(at + got as u64, &mut into[got..]) {
            Ok(0) => return Ok(got),
            Ok(n) => got += n,
            Err(failure) => return Err(failure),
        }
    }
    Ok(got)
}
