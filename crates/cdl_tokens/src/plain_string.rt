//! Plain strings: strings without an escape or a line feed.

ghost use Rattle.std.specs.Prelude.{IfSome};
ghost use Rattle.cdl_tokens.specs.code.PlainTokens.{BeginsString};

use crate::bytes::byte_at;
use crate::search::{Stops, far_len, near_len};

/// Returns the length in bytes, with both quotes, of the plain string that the bytes begin with. A plain string has no escape and no line
/// feed. Otherwise returns `None`. No clause says when: the caller then reads the bytes by [`scan`](crate::scan::scan). `is_long` is true
/// if the string may have thousands of bytes: it changes only how they are searched.
#[inline(always)]
#[tactic(auto, using(crate::proofs::PlainStrings::begins_string))]
pub fn plain_string_len(bytes: &[u8], is_long: bool) -> Option<usize>
    ensures { IfSome result (λ len. BeginsString bytes.now len) }
{
    if byte_at(bytes, 0) != b'"' {
        return None;
    }
    let (_, rest) = bytes.split_at(1);
    let n = if is_long {
        far_len(rest, Stops::AtStringEnd)
    } else {
        near_len(rest, Stops::AtStringEnd)
    };
    if byte_at(rest, n) == b'"' {
        Some(n + 2)
    } else {
        None
    }
}
