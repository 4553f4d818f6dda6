//! Runs of values of a statement. A comma stands before and after each value of a run.

ghost use Rattle.std.specs.Prelude.{◌≡◌, IfOk, false};
ghost use Rattle.cdl_statements.specs.code.Cutters.{is_done};
ghost use Rattle.cdl_statements.specs.code.ListedTokens.{EndsAtScanner, IsAtComma};
ghost use Rattle.cdl_values.specs.code.PackedValues.{capacity_minus};
ghost use Rattle.cdl_statements.specs.code.ValueLists.{reached};
ghost use Rattle.cdl_values.specs.code.ValueRuns.{GoesTo, IfTaken, TakesOne, TakesRows, TakesTo, list_place, place};

use crate::capacity::Capacity;
use crate::fill::Fill;
use crate::form::ValueForm;
use crate::number::{pack_number, put_numeral_inline};
use crate::read_error::ReadError;
use crate::string::put_plain_row;
use crate::value::{QuickPassFault, put_checked_value};
use cdl_statements::{Cutter, Due, ValueList};
use nc_base::{ListedArray, NcType};

/// The values of a statement that are still to be read, and how many more values the variable takes.
#[derive(Clone, Copy)]
pub struct UnreadValues<'a> {
    /// The cutter at the next token.
    pub cutter: Cutter<'a>,
    /// How many more numbers, bytes or rows the variable takes.
    pub capacity: Capacity,
}

/// Appends to `array` the values that come next, as long as a comma stands before and after each, and returns what is unread after them.
/// `due` says which token has to come next at `start`. If that isn't a separator, or if no comma comes next, appends nothing and returns
/// `start`.
///
/// # Errors
///
/// `Unnamed` if the statement has some fault; `OutOfMemory` if an allocation failed. Either way, no clause says what `array` has then.
#[inline(always)]
pub fn take_run<'a>(
    array: &mut ListedArray,
    start: UnreadValues<'a>,
    form: ValueForm,
    due: Due,
) -> Result<UnreadValues<'a>, QuickPassFault>
    requires { is_done start.cutter ≡ false }
    ensures { GoesTo due form (place start.entry array.old) array.new result }
{
    match due {
        Due::Separator { takes_fill: true } if start.cutter.is_at_comma() => {
            take_values(array, start, form)
        }
        _ => Ok(start),
    }
}

/// Appends to `array` the values that come next, each with a comma before and after it, and returns what is unread after them. `_` counts
/// as a value. Needs a cutter at the first comma. Errs with `Unnamed` if a token between two commas is no value or the value has a fault,
/// and with `OutOfMemory` if an allocation failed. No clause says what `array` has after an error.
#[inline(never)]
fn take_values<'a>(
    array: &mut ListedArray,
    start: UnreadValues<'a>,
    form: ValueForm,
) -> Result<UnreadValues<'a>, QuickPassFault>
    requires { IsAtComma start.cutter }
    ensures { TakesTo form (place start.entry array.old) array.new result }
{
    let version = start.cutter.version();
    let mut unread = start;
    'values: loop {
        let Some(token) = unread.cutter.token_and_comma() else {
            return Ok(unread);
        };
        if !token.is_value(true) {
            return Err(QuickPassFault::Unnamed);
        }
        unread.capacity = put_checked_value(array, version, form, unread.capacity, token)?;
        if token.may_precede_plain() {
            unread = take_plain_values(array, unread, form)?;
        }
    }
}

/// Appends to `array` the plain values that come next, and returns what is unread after them: plain numbers and `_`, or plain strings.
/// Returns `start` if the form is `Joined`, which has no loop for plain strings. Needs a cutter at a comma, with its scanner just after
/// this comma. Errs with `Unnamed` if a value has a fault, and with `OutOfMemory` if an allocation failed. No clause says what `array` has
/// after an error.
fn take_plain_values<'a>(
    array: &mut ListedArray,
    start: UnreadValues<'a>,
    form: ValueForm,
) -> Result<UnreadValues<'a>, QuickPassFault>
    requires at { IsAtComma start.cutter }
    requires ends { EndsAtScanner start.cutter }
    ensures { TakesTo form (place start.entry array.old) array.new result }
{
    match form {
        ValueForm::Numbers(fill) => take_numbers(array, start, fill),
        ValueForm::Rows { len, fill } => take_rows(array, start, len, fill),
        ValueForm::Joined => Ok(start),
    }
}

/// Appends to `array` the plain numbers that come next, and the fill value for each `_` among them. Returns what is unread after them.
/// Stops before the first other value, before one without a comma after it, and when the capacity is used up. Needs a cutter at a comma,
/// with its scanner just after this comma. Errs with `Unnamed` if a number is out of the type's range, and with `OutOfMemory` if an
/// allocation failed. No clause says what `array` has after an error.
#[inline(never)]
fn take_numbers<'a>(
    array: &mut ListedArray,
    start: UnreadValues<'a>,
    fill: Fill,
) -> Result<UnreadValues<'a>, QuickPassFault>
    requires at { IsAtComma start.cutter }
    requires ends { EndsAtScanner start.cutter }
    ensures { TakesTo (ValueForm.Numbers fill) (place start.entry array.old)
        array.new result }
{
    // A loop for each type, so that the loop itself doesn't ask for it.
    match fill.ty {
        NcType::Byte => take_numbers_of_type(array, start, fill, NcType::Byte),
        NcType::Char => take_numbers_of_type(array, start, fill, NcType::Char),
        NcType::Short => take_numbers_of_type(array, start, fill, NcType::Short),
        NcType::Int => take_numbers_of_type(array, start, fill, NcType::Int),
        NcType::Ubyte => take_numbers_of_type(array, start, fill, NcType::Ubyte),
        NcType::Ushort => take_numbers_of_type(array, start, fill, NcType::Ushort),
        NcType::Uint => take_numbers_of_type(array, start, fill, NcType::Uint),
        NcType::Int64 => take_numbers_of_type(array, start, fill, NcType::Int64),
        NcType::Uint64 => take_numbers_of_type(array, start, fill, NcType::Uint64),
    }
}

/// Appends to `array` the values that [`take_numbers`] does, with the same needs, result and errors. `ty` is the type of `fill`, given as a
/// constant, so that the loop doesn't ask for it.
#[inline(always)]
fn take_numbers_of_type<'a>(
    array: &mut ListedArray,
    start: UnreadValues<'a>,
    fill: Fill,
    ty: NcType,
) -> Result<UnreadValues<'a>, QuickPassFault>
    requires at { IsAtComma start.cutter }
    requires ends { EndsAtScanner start.cutter }
    requires ty { ty ≡ fill.ty }
    ensures { TakesTo (ValueForm.Numbers fill) (place start.entry array.old)
        array.new result }
{
    let room = start.capacity.limit();
    let mut list = ValueList::new(start.cutter);
    let mut left = room;
    'numbers: while left > 0 {
        if !put_next_number(array, &mut list, fill, ty)? {
            break;
        }
        left -= 1;
    }
    Ok(after_values(list.cutter(), room - left, start.capacity))
}

/// Appends to `array` the next value of `list`, and returns true. If a plain number with a comma after it comes next, the value is this
/// number; if a `_` with a comma comes next, it is the fill value. Otherwise appends nothing, and returns false; `list` stays where it is.
/// `ty` is the type of `fill`. Needs a list that began at a comma inside of a statement. Errs with `NumberRange` if the number is out of
/// the type's range, and with `OutOfMemory` if an allocation failed.
#[inline(always)]
fn put_next_number(
    array: &mut ListedArray,
    list: &mut ValueList<'_>,
    fill: Fill,
    ty: NcType,
) -> Result<bool, ReadError>
    requires at { IsAtComma (reached list.old) }
    requires ty { ty ≡ fill.ty }
    ensures more { IfTaken (TakesOne fill list.old list.new array.old array.new) result }
    ensures same_list { IfOk result (λ more. more ≡ false → list.new ≡ list.old) }
    ensures same_array { IfOk result (λ more. more ≡ false → array.new ≡ array.old) }
{
    if let Some(n) = list.number_and_comma() {
        put_numeral_inline(array, ty, n)?;
        return Ok(true);
    }
    if list.underscore_and_comma() {
        pack_number(array, ty, fill.value)?;
        return Ok(true);
    }
    Ok(false)
}

/// Appends to `array` the plain strings (no escape, no line feed) that come next, each as a row of `len` bytes filled up with `fill`, and
/// returns what is unread after them. Stops before the first value that isn't a plain string with a comma after it, and when the capacity
/// is used up. Needs a cutter at a comma, with its scanner just after this comma. Errs with `Unnamed` if a string has more than `len`
/// bytes, and with `OutOfMemory` if an allocation failed. No clause says what `array` has after an error.
#[inline(never)]
fn take_rows<'a>(
    array: &mut ListedArray,
    start: UnreadValues<'a>,
    len: u64,
    fill: u8,
) -> Result<UnreadValues<'a>, QuickPassFault>
    requires at { IsAtComma start.cutter }
    requires ends { EndsAtScanner start.cutter }
    ensures { TakesTo (ValueForm.Rows len fill) (place start.entry array.old) array.new result }
{
    let mut list = ValueList::new(start.cutter);
    let count = put_rows(array, &mut list, start.capacity.limit(), len, fill)?;
    Ok(after_values(list.cutter(), count, start.capacity))
}

/// Appends to `array` the plain strings that come next in `list`, at most `room` of them, each as a row of `len` bytes filled up with
/// `fill`, and returns how many there were. Stops before the first value that isn't a plain string with a comma after it. Needs a list that
/// began at a comma inside of a statement. Errs with `StringTooLong` if a string has more than `len` bytes, and with `OutOfMemory` if an
/// allocation failed. No clause says what `array` has after an error.
// A call, so that the loop keeps nothing of its caller's in registers.
#[inline(never)]
fn put_rows(
    array: &mut ListedArray,
    list: &mut ValueList<'_>,
    room: u64,
    len: u64,
    fill: u8,
) -> Result<u64, ReadError>
    requires { IsAtComma (reached list.old) }
    ensures { IfOk result (TakesRows room (ValueForm.Rows len fill) (list_place list.old array.old)
        (list_place list.new array.new)) }
{
    let mut count = 0;
    'rows: while count < room {
        let Some(characters) = list.string_and_comma() else {
            break;
        };
        put_plain_row(array, len, fill, characters)?;
        count += 1;
    }
    Ok(count)
}

/// Returns what is unread from `cutter` on, after `count` values that each take 1 of `capacity`.
#[inline(always)]
fn after_values<'a>(cutter: Cutter<'a>, count: u64, capacity: Capacity) -> UnreadValues<'a>
    ensures cutter { result.cutter ≡ cutter.entry }
    ensures capacity { result.capacity ≡ capacity_minus count capacity }
{
    UnreadValues {
        cutter,
        capacity: capacity.minus(count as u128),
    }
}
