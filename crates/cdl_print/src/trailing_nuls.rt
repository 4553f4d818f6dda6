//! The NULs at the end of characters.

ghost use Rattle.std.specs.Prelude.{◌≡◌, ◌==◌, ◌+◌, ◌≤◌, length, take};
ghost use Rattle.std.specs.List.{list_all, suffix_len};
ghost use Rattle.nc_base.specs.HeadText.{without_trailing_nuls};

/// The number of bytes that are tested at once.
const BLOCK: usize = 16;

/// Returns the bytes without the NULs at their end.
pub fn without_trailing_nuls(bytes: &[u8]) -> &[u8]
    ensures { result.now ≡ without_trailing_nuls bytes.now }
{
    let mut len = len_without_nul_blocks(bytes);
    while 0 < len && bytes[len - 1] == 0 {
        len -= 1;
    }
    &bytes[..len]
}

/// Returns the length of the bytes without the blocks of 16 NULs ([`BLOCK`]) at their end. Fewer than 16 of the NULs at their end are left
/// then, but no clause says so: only that what is left out is NULs.
fn len_without_nul_blocks(bytes: &[u8]) -> usize
    ensures within { result ≤ length bytes.now }
    ensures only_nuls { result + suffix_len (λ b. b == 0) bytes.now
        ≡ length bytes.now + suffix_len (λ b. b == 0) (take result bytes.now) }
{
    let mut rest = bytes;
    while rest.len() >= BLOCK {
        let (others, block) = rest.split_at(rest.len() - BLOCK);
        if !are_nuls(block) {
            break;
        }
        rest = others;
    }
    rest.len()
}

/// Returns true if all bytes of a block are NULs. It tests all of them, even after it has found another byte, so that the compiler can use
/// vector instructions.
fn are_nuls(block: &[u8]) -> bool
    ensures { result ≡ list_all (λ b. b == 0) block.now }
{
    let mut all = true;
    for b in block {
        all = all & (*b == 0);
    }
    all
}
