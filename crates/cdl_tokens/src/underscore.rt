//! The underscore, which stands for the fill value.

ghost use Rattle.std.specs.Prelude.{◌≡◌, true};
ghost use Rattle.cdl_tokens.specs.code.PlainTokens.{BeginsUnderscore};

use crate::bytes::{byte_at, ends_value};

/// Returns true only if the bytes begin with a `_` that a comma or white space follows, so that it is a word by itself.
#[inline(always)]
#[tactic(auto, using(crate::proofs::Underscores::begins_underscore, std::proofs::lemmas::Grind::common_steps))]
pub fn begins_underscore(bytes: &[u8]) -> bool
    ensures { result ≡ true → BeginsUnderscore bytes.now }
{
    byte_at(bytes, 0) == b'_' && ends_value(byte_at(bytes, 1))
}
