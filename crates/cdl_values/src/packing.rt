//! The values of a statement of the data section, packed.

ghost use Rattle.std.specs.Prelude.{◌≡◌, None, Ok, OnOk, IfOk, false, true};
ghost use Rattle.cdl_statements.specs.code.Cutters.{Follows, is_done, version_of, words};
ghost use Rattle.cdl_statements.specs.code.DueTokens.{completes};
ghost use Rattle.cdl_statements.specs.Shapes.{first_bad};
ghost use Rattle.cdl_values.specs.code.Answers.{GivesRead};
ghost use Rattle.cdl_values.specs.code.TokenValues.{packed_from};

use crate::capacity::Capacity;
use crate::form::ValueForm;
use crate::read_error::ReadError;
use crate::value::{QuickPassFault, put_checked_token, put_token};
use crate::value_run::{UnreadValues, take_run};
use cdl_statements::{Cutter, Due};
use nc_base::ListedArray;
use std::alloc::Global;

/// What [`pack_and_check`] reads in a statement.
#[derive(Drop)]
pub struct Packed<'a> {
    /// The bytes of the listed values.
    pub array: ListedArray,
    /// The cutter after the statement.
    pub rest: Cutter<'a>,
}

/// Reads the values of a statement of the data section, from the next token of `start` to the end of the statement, and returns their
/// bytes, big-endian and one after the other; a row of characters is filled up. `form` is the form in which the variable takes values, and
/// `capacity` is how many it takes: numbers in the form `Numbers`, bytes in `Joined`, rows in `Rows`. Unlike [`pack_and_check`], it checks
/// neither the tokens nor their order. Needs a token that is left.
///
/// # Errors
///
/// The fault of the first value that has one (`WrongKind`, `TooManyValues`, `NumberRange`, `StringTooLong`), or `OutOfMemory` if an
/// allocation failed.
#[inline(never)]
#[tactic(auto, using(cdl_statements::proofs::ShapeChecks::first_words, crate::proofs::PackedTokens::none_packed, crate::proofs::AllowedNames::refused))]
pub fn pack(
    alloc: Global,
    start: Cutter<'_>,
    form: ValueForm,
    capacity: Capacity,
) -> Result<ListedArray, ReadError>
    requires { is_done start ≡ false }
    ensures { GivesRead (λ a. a) result (packed_from form capacity start.entry) }
{
    let version = start.version();
    let mut cutter = start;
    let mut left = capacity;
    let mut array = ListedArray::new(alloc);
    'tokens: loop {
        let token = cutter.lexeme();
        let ends = cutter.advance();
        left = put_token(&mut array, version, form, left, token)?;
        if ends {
            return Ok(array);
        }
    }
}

/// Reads the values of a statement of the data section, from the next token of `start` to the end of the statement, and checks the tokens
/// and their order in the same pass. Returns the bytes of the values, big-endian and one after the other, and the cutter after the
/// statement. `form` is the form in which the variable takes values, and `capacity` is how many it takes: numbers in the form `Numbers`,
/// bytes in `Joined`, rows in `Rows`. Unlike [`pack`], it doesn't say which fault it finds. Needs a token that is left.
///
/// # Errors
///
/// `Unnamed` if a token, a value or the order has a fault. The caller then reads the statement again for the fault, so no clause says that
/// it is only then. `OutOfMemory` if an allocation failed.
#[inline(never)]
#[tactic(auto, using(cdl_statements::proofs::ShapeChecks::shape_checks, crate::proofs::PackedTokens::none_packed), unfolding(cdl_statements::specs::code::DueTokens::completes))]
pub fn pack_and_check<'a>(
    alloc: Global,
    start: Cutter<'a>,
    form: ValueForm,
    capacity: Capacity,
) -> Result<Packed<'a>, QuickPassFault>
    requires { is_done start ≡ false }
    ensures bad { OnOk result (first_bad (version_of start.entry) (words start.entry) ≡ None) }
    ensures shaped { OnOk result (completes (Due.Value true) (words start.entry) ≡ true) }
    ensures packs { IfOk result (λ p. packed_from form capacity start.entry ≡ Ok p.array) }
    ensures rest { IfOk result (λ p. Follows start.entry p.rest) }
{
    let version = start.version();
    let mut unread = UnreadValues {
        cutter: start,
        capacity,
    };
    let mut due = Due::Value { takes_fill: true };
    let mut array = ListedArray::new(alloc);
    'tokens: loop {
        let token = unread.cutter.lexeme();
        let ends = unread.cutter.advance();
        due = due.after(token);
        unread.capacity = put_checked_token(&mut array, version, form, unread.capacity, token)?;
        if ends {
            if due.is_whole() {
                return Ok(Packed {
                    array,
                    rest: unread.cutter,
                });
            }
            return Err(QuickPassFault::Unnamed);
        }
        unread = take_run(&mut array, unread, form, due)?;
    }
}
