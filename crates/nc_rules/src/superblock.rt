//! Where an HDF5 file ends, as the superblock at its start says: HDF5 File Format Specification, section II.A.

ghost use Rattle.std.specs.Prelude.{◌≡◌, ◌+◌, ◌≤◌, length, take, drop, IfSome};
ghost use Rattle.std.specs.Int.{w64, from_le_bytes};
ghost use Rattle.nc_rules.specs.Superblocks.{cut_before, defined_address, end_address_at, end_by, hdf5_truncated, is_hdf5, least_length};

use nc_findings::{Fact, Finding, HDF5_SIGNATURE};

/// How many bytes the shortest superblocks have: those of the versions 2 and 3, with addresses of eight bytes.
const LEAST_SUPERBLOCK: usize = 48;

/// Returns the finding that an HDF5 file is too short, or `None` if it isn't, if its superblock doesn't tell, or if the file isn't HDF5.
/// `start` is the first 52 bytes of the file (or all if there are fewer), and `file_len` is its length.
pub(crate) fn hdf5_truncated(start: &[u8], file_len: u64) -> Option<Finding>
    ensures { result ≡ hdf5_truncated start.now file_len }
{
    if !is_hdf5(start) {
        return None;
    }
    cut_before(file_len, least_length(start)?)
}

/// Returns true if a file that begins so has the signature of HDF5.
pub(crate) fn is_hdf5(start: &[u8]) -> bool
    ensures { result ≡ is_hdf5 start.now }
{
    start.starts_with(&HDF5_SIGNATURE)
}

/// Returns the finding that a file of `file_len` bytes ends before the offset `end`, or `None` if it doesn't.
fn cut_before(file_len: u64, end: u64) -> Option<Finding>
    ensures { result ≡ cut_before file_len end }
{
    (file_len < end).then_some(Finding {
        offset: file_len,
        field: None,
        fact: Fact::Hdf5Truncated { file_len, end },
    })
}

/// Returns the least length of an HDF5 file with this start: that of the shortest superblock, if the start has fewer bytes, or else what the
/// superblock says. Returns `None` if the superblock doesn't tell.
fn least_length(start: &[u8]) -> Option<u64>
    ensures { result ≡ least_length start.now }
{
    if start.len() < LEAST_SUPERBLOCK {
        return Some(LEAST_SUPERBLOCK as u64);
    }
    end_by(start, end_address_at(start)?)
}

/// Returns the offset of "End of File Address" in a superblock, or `None` if its version isn't one of 0 to 3, or if addresses haven't eight
/// bytes. Needs a start of at least 14 bytes.
fn end_address_at(start: &[u8]) -> Option<usize>
    requires { 14 ≤ length start.now }
    ensures place { result ≡ end_address_at start.now }
    ensures within { IfSome result (λ place. place ≤ 44) }
{
    let version = start[8];
    if version <= 1 {
        (start[13] == 8).then_some(40 + 4 * version as usize)
    } else if version <= 3 {
        (start[9] == 8).then_some(28)
    } else {
        None
    }
}

/// Returns the address at this place in the start of a file, or `None` if it is undefined. If the file ends inside of the address, returns
/// the end of the address.
fn end_by(start: &[u8], place: usize) -> Option<u64>
    requires { place ≤ 44 }
    ensures { result ≡ end_by start.now place }
{
    let end = place + 8;
    if start.len() < end {
        return Some(end as u64);
    }
    defined_address(address_at(start, place))
}

/// Returns the address, or `None` if it is undefined: all of its bits are 1.
fn defined_address(n: u64) -> Option<u64>
    ensures { result ≡ defined_address n }
{
    if n == u64::MAX { None } else { Some(n) }
}

/// Returns the little-endian number of eight bytes at this place. Needs a start with these bytes.
fn address_at(start: &[u8], place: usize) -> u64
    requires { place + 8 ≤ length start.now }
    ensures { result ≡ from_le_bytes w64 (take 8 (drop place start.now)) }
{
    let mut bytes = [0; 8];
    bytes.copy_from_slice(&start[place..place + 8]);
    u64::from_le_bytes(bytes)
}
