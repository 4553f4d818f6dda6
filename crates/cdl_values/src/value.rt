//! The values of the data section, one at a time. `form` is the form in which the variable takes values, and `capacity` is how many more
//! it takes.

ghost use Rattle.std.specs.Prelude.{◌≡◌, None, OnOk};
ghost use Rattle.cdl_statements.specs.Shapes.{token_fault};
ghost use Rattle.cdl_statements.specs.declared.fault.CdlKind.{CdlKind};
ghost use Rattle.cdl_values.specs.code.Answers.{Adds, RefusesValue};
ghost use Rattle.cdl_values.specs.code.TokenValues.{Appends, AppendsNumber, CountsOne, PacksGood, PacksToken, at, number_token_bytes, token_bytes};

use crate::capacity::Capacity;
use crate::fill::Fill;
use crate::form::ValueForm;
use crate::number::{number_or_zero, pack_number, put_numeral};
use crate::read_error::ReadError;
use crate::string::{put_joined_string, put_row};
use cdl_statements::{CdlKind, Lexeme};
use cdl_tokens::{TokenKind, number_of_token};
use nc_base::{ListedArray, Version};

/// Why the quick pass, which reads and checks a statement at once, stops. It doesn't name the fault of the statement: the caller reads the
/// statement again for that.
#[derive(Clone, Copy)]
pub enum QuickPassFault {
    /// An allocation failed.
    OutOfMemory,
    /// The statement has some fault.
    Unnamed,
}

impl From<ReadError> for QuickPassFault {
    ghost use Rattle.cdl_values.specs.declared.read_error.ReadError.{ReadError};
    ghost use Rattle.cdl_values.specs.declared.value.QuickPassFault.{QuickPassFault};

    ghost from_gives = { λ error stop. (error ≡ ReadError.OutOfMemory → stop ≡ QuickPassFault.OutOfMemory) × ((kind : CdlKind) → error ≡ ReadError.Fault kind → stop ≡ QuickPassFault.Unnamed) };

    /// Returns `OutOfMemory` for `OutOfMemory`, and `Unnamed` for a fault of any kind, for `?` in the quick pass over a statement.
    fn from(error: ReadError) -> QuickPassFault {
        match error {
            ReadError::OutOfMemory => QuickPassFault::OutOfMemory,
            ReadError::Fault(_) => QuickPassFault::Unnamed,
        }
    }
}

/// Appends to `array` the bytes of the token's value, or nothing if the token is a mark. Returns what is left of `capacity`, which is how
/// many more values the variable takes in the form `form`. `version` decides which suffixes a number may have. Unlike
/// [`put_checked_token`], it doesn't check the token. Errs with `WrongKind`, `TooManyValues`, `NumberRange` or `StringTooLong` if the value
/// has that fault, and with `OutOfMemory` if an allocation failed. After `StringTooLong` or `OutOfMemory`, bytes of a string may be
/// appended.
pub fn put_token(
    array: &mut ListedArray,
    version: Version,
    form: ValueForm,
    capacity: Capacity,
    token: Lexeme<'_>,
) -> Result<Capacity, ReadError>
    ensures { PacksToken version form token.entry (at array.old capacity) array.new result }
{
    match token.kind {
        TokenKind::Mark => Ok(capacity),
        _ => {
            let before = array.len();
            put_token_value(array, version, form, capacity, token)?;
            Ok(form.capacity_after(array.len().saturating_sub(before), capacity))
        }
    }
}

/// Appends to `array` the bytes of the token's value, or nothing if the token is a mark, and checks the token, unlike [`put_token`].
/// Returns what is left of `capacity` (how many more values the variable takes in the form `form`). Errs with `Unnamed` if the token has a
/// fault, such as a suffix that `version` doesn't have, or if its value has one, and with `OutOfMemory` if an allocation failed; either
/// way, bytes of the value may be appended.
#[inline]
#[tactic(auto, using(cdl_statements::proofs::Listing::past_mark))]
pub fn put_checked_token(
    array: &mut ListedArray,
    version: Version,
    form: ValueForm,
    capacity: Capacity,
    token: Lexeme<'_>,
) -> Result<Capacity, QuickPassFault>
    ensures good { OnOk result (token_fault version token.entry.kind token.entry.bytes.now ≡ None) }
    ensures packs { PacksGood version form token.entry (at array.old capacity) array.new result }
{
    match token.kind {
        TokenKind::Mark => Ok(capacity),
        _ => put_checked_value(array, version, form, capacity, token),
    }
}

/// Appends to `array` the bytes of a token's value, and returns what is left of `capacity`, which is how many more values the variable
/// takes in the form `form`. Needs a token that is no mark. Errs with `Unnamed` if the token has a fault, such as a suffix that `version`
/// doesn't have, or if its value has one, and with `OutOfMemory` if an allocation failed; either way, bytes of the value may be appended.
pub fn put_checked_value(
    array: &mut ListedArray,
    version: Version,
    form: ValueForm,
    capacity: Capacity,
    token: Lexeme<'_>,
) -> Result<Capacity, QuickPassFault>
    requires { token.kind ≡ TokenKind.Mark → ⊥ }
    ensures good { OnOk result (token_fault version token.entry.kind token.entry.bytes.now ≡ None) }
    ensures packs { PacksGood version form token.entry (at array.old capacity) array.new result }
{
    match token.kind {
        // A number is one value, so that its bytes needn't be counted.
        TokenKind::Number => {
            put_checked_number(array, version, form, capacity, token.bytes)?;
            Ok(capacity.minus(1))
        }
        _ => {
            let before = array.len();
            put_non_number(array, version, form, capacity, token)?;
            let added = array.len().saturating_sub(before);
            Ok(form.capacity_after(added, capacity))
        }
    }
}

/// Appends to `array` the bytes of the value of a token that is no number: those of a string, or of the fill value for `_` or any other
/// token. `capacity` is how many more values the variable takes in the form `form`. `version` is only handed on. Needs a token that is no
/// number. Errs with `Unnamed` if the token is bad or its value has a fault, and with `OutOfMemory` if an allocation failed; either way,
/// bytes of the value may be appended.
#[inline(never)]
fn put_non_number(
    array: &mut ListedArray,
    version: Version,
    form: ValueForm,
    capacity: Capacity,
    token: Lexeme<'_>,
) -> Result<(), QuickPassFault>
    requires { token.kind ≡ TokenKind.Number → ⊥ }
    ensures good { OnOk result (token_fault version token.entry.kind token.entry.bytes.now ≡ None) }
    ensures adds { Appends version form token.entry (at array.old capacity) array.new result }
{
    match token.kind {
        TokenKind::Bad => Err(QuickPassFault::Unnamed),
        _ => Ok(put_token_value(array, version, form, capacity, token)?),
    }
}

/// Appends to `array` the bytes of a number. `bytes` is its token, and `capacity` is how many more values the variable takes in the form
/// `form`. Errs with `Unnamed` if the form isn't `Numbers`, if the capacity is 0, if the token is no number of `version`, or if the number
/// is out of the type's range. Errs with `OutOfMemory` if an allocation failed. After any error nothing is appended, but no clause says so.
#[tactic(auto, unfolding(cdl_statements::specs::code::Contents::value_of), using(crate::proofs::Ranges::number_added, cdl_statements::proofs::PassedValues::good_number))]
fn put_checked_number(
    array: &mut ListedArray,
    version: Version,
    form: ValueForm,
    capacity: Capacity,
    bytes: &[u8],
) -> Result<(), QuickPassFault>
    ensures good { OnOk result (token_fault version TokenKind.Number bytes.now ≡ None) }
    ensures counts { OnOk result (CountsOne form capacity) }
    ensures adds { AppendsNumber version form bytes.now (at array.old capacity) array.new result }
{
    let ValueForm::Numbers(fill) = form else {
        return Err(QuickPassFault::Unnamed);
    };
    if capacity.is_full() {
        return Err(QuickPassFault::Unnamed);
    }
    let n = number_of_token(version, bytes).ok_or(QuickPassFault::Unnamed)?;
    Ok(put_numeral(array, fill.ty, n)?)
}

/// Appends to `array` the bytes of the value that `token` says. `capacity` is how many more values the variable takes in the form `form`,
/// and `version` decides which suffixes a number may have. Don't call it for a mark: any token that is neither a number nor a string counts
/// as `_`. Errs with `WrongKind`, `TooManyValues`, `NumberRange` or `StringTooLong` if the value has that fault, and with `OutOfMemory` if
/// an allocation failed. After `StringTooLong` or `OutOfMemory`, bytes of a string may be appended.
#[tactic(auto, unfolding(cdl_statements::specs::code::Contents::value_of))]
fn put_token_value(
    array: &mut ListedArray,
    version: Version,
    form: ValueForm,
    capacity: Capacity,
    token: Lexeme<'_>,
) -> Result<(), ReadError>
    ensures { Adds array.old array.new result (token_bytes form capacity version token.entry) }
{
    let full = capacity.is_full();
    match form {
        ValueForm::Numbers(fill) => put_number_or_fill(array, version, fill, full, token),
        ValueForm::Joined => match token.kind {
            TokenKind::Text => put_joined_string(array, capacity, token.bytes),
            _ => Err(ReadError::Fault(CdlKind::WrongKind)),
        },
        ValueForm::Rows { len, fill } => match token.kind {
            TokenKind::Text => put_row(array, len, fill, full, token.bytes),
            _ => Err(ReadError::Fault(CdlKind::WrongKind)),
        },
    }
}

/// Appends to `array` the bytes of the number that `token` says, or those of the fill value if the token is neither a string nor a number.
/// `version` decides which suffixes a number may have. `full` is true if the variable takes no more values. Errs with `WrongKind` if the
/// token is a string, with `TooManyValues` if `full`, with `NumberRange` if the number is out of the type's range, and with `OutOfMemory`
/// if an allocation failed. After any error nothing is appended, but no clause says so.
#[tactic(auto, unfolding(cdl_statements::specs::code::Contents::value_of), using(crate::proofs::Ranges::held_is, cdl_statements::proofs::InRange::has_it))]
fn put_number_or_fill(
    array: &mut ListedArray,
    version: Version,
    fill: Fill,
    full: bool,
    token: Lexeme<'_>,
) -> Result<(), ReadError>
    ensures adds { Adds array.old array.new result (number_token_bytes fill full version token.entry) }
    ensures refuses { RefusesValue result (number_token_bytes fill full version token.entry) }
{
    match token.kind {
        TokenKind::Text => Err(ReadError::Fault(CdlKind::WrongKind)),
        _ if full => Err(ReadError::Fault(CdlKind::TooManyValues)),
        TokenKind::Number => put_numeral(array, fill.ty, number_or_zero(version, token.bytes)),
        _ => Ok(pack_number(array, fill.ty, fill.value)?),
    }
}
