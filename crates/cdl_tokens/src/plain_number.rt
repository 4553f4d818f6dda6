//! Plain numbers: an optional minus and at most 19 decimal digits, with no suffix or one of the suffixes that every version has.

ghost use Rattle.std.specs.Prelude.{IfSome};
ghost use Rattle.cdl_tokens.specs.code.PlainTokens.{Begins, BeginsDecimal, BeginsUnsigned, IsLetterOf};

use crate::bytes::{byte_at, ends_value};
use crate::numeral::{Numeral, first_digits};
use nc_types::NcType;

/// A plain number at the start of bytes.
#[derive(Clone, Copy)]
pub struct PlainNumber {
    pub numeral: Numeral,
    /// The number of its bytes.
    pub len: usize,
    /// True if a comma comes right after it.
    pub at_comma: bool,
}

/// The digits and the suffix of a plain number, at the start of bytes.
#[derive(Clone, Copy)]
struct PlainMagnitude {
    /// The number of its bytes.
    len: usize,
    /// The value of its digits.
    value: u64,
    /// The type that its suffix says, or int if it has none.
    ty: NcType,
    /// True if a comma comes right after it.
    at_comma: bool,
}

/// Returns the plain number that the bytes begin with, if a comma or white space follows it: an optional minus, at most 19 decimal digits,
/// and nothing or one letter, `b`, `s` or `l` in either case, which says the type. Otherwise returns `None`, also for a number with a plus,
/// and for an octal one, such as `017`. No clause says when: the caller then reads the bytes as any other token. It needs no version, since
/// every version has these suffixes.
#[inline(always)]
pub fn plain_number(bytes: &[u8]) -> Option<PlainNumber>
    ensures { IfSome result (λ p. Begins bytes.now p) }
{
    // No branch depends on the minus, which in many lists is as often there as not.
    let minus = byte_at(bytes, 0) == b'-';
    let (_, rest) = bytes.split_at(minus as usize);
    let n = unsigned_plain_number(rest)?;
    Some(PlainNumber {
        numeral: Numeral {
            minus,
            magnitude: Some(n.value),
            ty: n.ty,
        },
        len: minus as usize + n.len,
        at_comma: n.at_comma,
    })
}

/// Returns the plain number that the bytes begin with, if it has no sign, and a comma or white space follows it: at most 19 decimal digits,
/// and then nothing or a suffix `b`, `s` or `l`, in either case. Otherwise returns `None`, also if a zero before other digits makes the
/// number octal. No clause says when: a caller then reads the bytes as any other token.
#[inline(always)]
fn unsigned_plain_number(bytes: &[u8]) -> Option<PlainMagnitude>
    ensures { IfSome result (λ n. BeginsUnsigned bytes.now n) }
{
    let (len, value) = decimal_digits(bytes)?;
    let (_, rest) = bytes.split_at(len);
    let next = byte_at(rest, 0);
    if !ends_value(next) {
        return with_suffix(bytes, len, value);
    }
    Some(PlainMagnitude {
        len,
        value,
        ty: NcType::Int,
        at_comma: next == b',',
    })
}

/// Returns the plain number that the bytes begin with, if a suffix of one letter, `b`, `s` or `l` in either case, follows its digits, and a
/// comma or white space follows the suffix. Otherwise returns `None`; no clause says when. Needs bytes that begin with `len` decimal digits
/// whose value is `value`; if there are more than one, the first is no zero.
#[inline(always)]
fn with_suffix(bytes: &[u8], len: usize, value: u64) -> Option<PlainMagnitude>
    requires { BeginsDecimal bytes.now len value }
    ensures { IfSome result (λ n. BeginsUnsigned bytes.now n) }
{
    let (_, rest) = bytes.split_at(len);
    let ty = type_of_letter(byte_at(rest, 0))?;
    let after = byte_at(rest, 1);
    if !ends_value(after) {
        return None;
    }
    Some(PlainMagnitude {
        len: len + 1,
        value,
        ty,
        at_comma: after == b',',
    })
}

/// Returns how many decimal digits the bytes begin with, at most 19, and their value. Returns `None` if there are none, or if a zero before
/// other digits makes them octal; no clause says when.
#[inline(always)]
fn decimal_digits(bytes: &[u8]) -> Option<(usize, u64)>
    ensures { IfSome result (λ r. BeginsDecimal bytes.now r.0 r.1) }
{
    let (len, value) = first_digits(bytes);
    if len == 0 {
        return None;
    }
    if bytes[0] == b'0' && len > 1 {
        return None;
    }
    Some((len, value))
}

/// Returns the type whose suffix this letter is in every version: byte for `b`, short for `s` and int for `l`, in either case. Returns
/// `None` for any other byte; no clause says when.
#[tactic(auto, unfolding(crate::specs::Numerals::type_of_suffix))]
fn type_of_letter(letter: u8) -> Option<NcType>
    ensures { IfSome result (λ ty. IsLetterOf ty letter) }
{
    match letter {
        b'b' | b'B' => Some(NcType::Byte),
        b's' | b'S' => Some(NcType::Short),
        b'l' | b'L' => Some(NcType::Int),
        _ => None,
    }
}
