//! The constants of an attribute.

ghost use Rattle.std.specs.Prelude.{◌≡◌, IfOk, false};
ghost use Rattle.cdl_statements.specs.code.Cutters.{is_done};
ghost use Rattle.cdl_statements.specs.code.ListedTokens.{EndsAtScanner, IsAtComma};
ghost use Rattle.cdl_statements.specs.State.{add_constant, type_said};
ghost use Rattle.cdl_values.specs.code.Answers.{GivesRead, Leaves};
ghost use Rattle.cdl_values.specs.code.TokenValues.{AddsNumber, AddsToken, MovesOn, TakesConstants, text_said, constants_read, value_said};

use crate::capacity::Capacity;
use crate::number::{number_or_zero, put_numeral};
use crate::read_error::ReadError;
use crate::string::put_joined_string;
use cdl_statements::{CdlKind, Cutter, Lexeme, ValueList};
use cdl_tokens::{Numeral, TokenKind};
use nc_base::{ListedArray, NcType, Version};
use std::alloc::Global;

/// Returns the type that a constant says: that of a number's suffix, int for a number without one, and char for a string (the CDL
/// chapter of the NetCDF User's Guide, "CDL Notation for Data Constants"). A number token that is no number of the version gives
/// int, and any other token gives char.
pub fn type_said(version: Version, token: Lexeme<'_>) -> NcType
    ensures { result ≡ type_said (value_said version token.entry) }
{
    match token.kind {
        TokenKind::Number => number_or_zero(version, token.bytes).ty,
        _ => NcType::Char,
    }
}

/// Reads the constants of an attribute, from the next token of `start` to the end of the statement, and returns their bytes, big-endian and
/// one after the other. Each constant has to be of the type `ty`. The order of the tokens isn't checked. Needs a token that is left.
///
/// # Errors
///
/// The fault of the first constant that has one: `MixedConstants` if its type isn't `ty`, otherwise `NumberRange` if its number is out of
/// the range of `ty`. Or `OutOfMemory` if an allocation failed.
#[tactic(auto, using(cdl_statements::proofs::ShapeChecks::ending, crate::proofs::ConstantBytes::none_left, cdl_statements::proofs::ShapeChecks::going))]
pub fn read_constants(
    alloc: Global,
    ty: NcType,
    start: Cutter<'_>,
) -> Result<ListedArray, ReadError>
    requires { is_done start ≡ false }
    ensures { GivesRead (λ vals. vals) result (constants_read ty start.entry) }
{
    let version = start.version();
    let mut cutter = start;
    let mut vals = ListedArray::new(alloc);
    'tokens: loop {
        let token = cutter.lexeme();
        let ends = cutter.advance();
        put_token(&mut vals, version, ty, token)?;
        if ends {
            return Ok(vals);
        }
        cutter = take_constants(&mut vals, ty, cutter)?;
    }
}

/// Appends to `vals` the bytes of the constant that comes next, if a comma stands before and after it, and then those of the plain numbers
/// after it ([`take_plain_constants`]). Returns the cutter at the last of these commas, or `start` if there is no such constant. Each has
/// to be of the type `ty`. Needs a token that is left. Errs with the first fault of a constant (`MixedConstants`, `NumberRange`), and with
/// `OutOfMemory` if an allocation failed; either way, bytes of constants may be appended.
#[inline(always)]
fn take_constants<'a>(
    vals: &mut ListedArray,
    ty: NcType,
    start: Cutter<'a>,
) -> Result<Cutter<'a>, ReadError>
    requires { is_done start ≡ false }
    ensures adds { TakesConstants ty start.entry vals.old vals.new result }
    ensures moves { IfOk result (λ rest. MovesOn start.entry rest) }
{
    if !start.is_at_comma() {
        return Ok(start);
    }
    let mut cutter = start;
    let Some(token) = cutter.token_and_comma() else {
        return Ok(start);
    };
    put_token(vals, start.version(), ty, token)?;
    if !token.may_precede_plain() {
        return Ok(cutter);
    }
    take_plain_constants(vals, ty, cutter)
}

/// Appends to `vals` the bytes of the plain numbers (decimal, at most 19 digits, no suffix but `b`, `s` or `l`) that come next, each with a
/// comma before and after it, and returns the cutter at the last of these commas. Each has to be of the type `ty`. Needs a cutter at a
/// comma inside of a statement, with its scanner just after this comma. Errs with the first fault of a number (`MixedConstants`,
/// `NumberRange`), and with `OutOfMemory` if an allocation failed; either way, the numbers before may be appended.
#[inline(never)]
fn take_plain_constants<'a>(
    vals: &mut ListedArray,
    ty: NcType,
    start: Cutter<'a>,
) -> Result<Cutter<'a>, ReadError>
    requires at { IsAtComma start }
    requires ends { EndsAtScanner start }
    ensures adds { TakesConstants ty start.entry vals.old vals.new result }
    ensures moves { IfOk result (λ rest. MovesOn start.entry rest) }
{
    let mut list = ValueList::new(start);
    'numbers: while let Some(n) = list.number_and_comma() {
        put_number_constant(vals, ty, n)?;
    }
    Ok(list.cutter())
}

/// Appends to `vals` the bytes of the token's constant, or nothing if the token is a mark. `version` decides which suffixes a number may
/// have. Errs with `MixedConstants` if any other token is no number or string of the type `ty`, with `NumberRange` if a number is out of
/// the range of `ty`, and with `OutOfMemory` if an allocation failed. Only with `OutOfMemory` some bytes of a string may be appended; no
/// clause says what `vals` has after an error.
#[tactic(auto, using(crate::proofs::ConstantBytes::turn_on, crate::proofs::PackedTokens::over_value, crate::proofs::PackedTokens::no_mark, cdl_statements::proofs::Listing::past_mark))]
fn put_token(
    vals: &mut ListedArray,
    version: Version,
    ty: NcType,
    token: Lexeme<'_>,
) -> Result<(), ReadError>
    ensures { AddsToken version ty token.entry vals.old vals.new result }
{
    match token.kind {
        TokenKind::Mark => Ok(()),
        _ => put_constant(vals, version, ty, token),
    }
}

/// Appends to `vals` the bytes of the constant `token`, a number or a string. A number has the type of its suffix, and counts as the int 0
/// if `version` has no such suffix: other code finds that fault. Errs with `MixedConstants` if the token is no number or string of the type
/// `ty`, with `NumberRange` if a number is out of the range of `ty`, and with `OutOfMemory` if an allocation failed. Only with
/// `OutOfMemory` some bytes of a string may be appended; no clause says what `vals` has after an error.
#[tactic(auto, unfolding(cdl_statements::specs::code::Contents::value_of))]
fn put_constant(
    vals: &mut ListedArray,
    version: Version,
    ty: NcType,
    token: Lexeme<'_>,
) -> Result<(), ReadError>
    ensures { Leaves vals.new result (add_constant ty vals.old (value_said version token.entry)) }
{
    match token.kind {
        TokenKind::Number => put_number_constant(vals, ty, number_or_zero(version, token.bytes)),
        TokenKind::Text => put_characters(vals, ty, token.bytes),
        _ => Err(ReadError::Fault(CdlKind::MixedConstants)),
    }
}

/// Appends to `vals` the bytes of a number, big-endian. Unlike [`put_numeral`], it checks the type, which comes from the number's suffix.
/// Errs with `MixedConstants` if this type isn't `ty`, with `NumberRange` if the number is out of the range of `ty`, and with `OutOfMemory`
/// if an allocation failed. After any error nothing is appended, but no clause says so.
#[tactic(auto, using(crate::proofs::ConstantBytes::number_left))]
fn put_number_constant(vals: &mut ListedArray, ty: NcType, n: Numeral) -> Result<(), ReadError>
    ensures { AddsNumber ty n vals.old vals.new result }
{
    if n.ty.code() != ty.code() {
        return Err(ReadError::Fault(CdlKind::MixedConstants));
    }
    put_numeral(vals, ty, n)
}

/// Appends to `vals` the bytes that a string stands for. `bytes` is the string with its quotes. Errs with `MixedConstants` if `ty` isn't
/// char, and with `OutOfMemory` if an allocation failed. Only with `OutOfMemory` some of the bytes may be appended.
#[tactic(auto, using(crate::proofs::ConstantBytes::characters_left))]
fn put_characters(vals: &mut ListedArray, ty: NcType, bytes: &[u8]) -> Result<(), ReadError>
    ensures { Leaves vals.new result (add_constant ty vals.old (text_said bytes.now)) }
{
    if ty.code() != NcType::Char.code() {
        return Err(ReadError::Fault(CdlKind::MixedConstants));
    }
    put_joined_string(vals, Capacity::Unlimited, bytes)
}
