//! The statements of the data section.

ghost use Rattle.std.specs.Prelude.{◌≡◌, Ok, IfOk, false, option_map};
ghost use Rattle.cdl_statements.specs.code.Cutters.{Follows, is_done};
ghost use Rattle.cdl_tokens.specs.Escapes.{word_value};
ghost use Rattle.cdl_values.specs.code.Answers.{GivesRead};
ghost use Rattle.cdl_values.specs.code.DataRead.{unless_given, statement_read, target_said};
ghost use Rattle.cdl_values.specs.code.Meant.{MeansWhatIsGiven, name_said};
ghost use Rattle.cdl_values.specs.code.NameIndices.{IsPosition};

use crate::capacity::Capacity;
use crate::form::ValueForm;
use crate::name::read_name;
use crate::packing::{pack, pack_and_check};
use crate::read_error::ReadError;
use crate::value::QuickPassFault;
use crate::variable_names::VariableNames;
use cdl_statements::{CdlKind, Cutter, Due, pass_statement};
use nc_base::ListedArray;
use std::alloc::Global;

/// What a variable takes from the data section.
#[derive(Clone, Copy)]
pub struct Target {
    /// The form in which it takes values.
    pub form: ValueForm,
    /// How many numbers, bytes or rows it takes, as `form` counts them.
    pub capacity: Capacity,
    /// True if an earlier statement gave its values.
    pub given: bool,
}

/// What a variable takes, and the variable's position.
#[derive(Clone, Copy)]
struct FoundTarget {
    /// The position of the variable among the names.
    position: u64,
    target: Target,
}

/// What a statement of the data section gives to its variable.
#[derive(Drop)]
pub struct StatementValues<'a> {
    /// The variable's position, from 0 on, among the names.
    pub position: u64,
    /// The bytes of the values that the statement lists.
    pub array: ListedArray,
    /// The cutter after the statement.
    pub rest: Cutter<'a>,
}

/// Reads the next statement of `start`, which lists values in the data section. Returns the position of the variable that the statement
/// names, the bytes of the values that the statement lists, and the cutter (the cursor in the text) after the statement. Needs a statement
/// that is left. The contract leaves out the closing brace, which is no such statement.
///
/// `names` are the names of the variables, and `targets` has what each variable takes, in the same order. If the statement has no fault,
/// the caller has to set `given` of its variable's target afterwards.
///
/// # Errors
///
/// The statement's first fault: one of its tokens (`BadToken`, `BadNumber`) or of their order (`Syntax`), otherwise one of the variable
/// (`BadName`, `UnknownVariable`, `DuplicateData`), otherwise one of a value (`WrongKind`, `TooManyValues`, `NumberRange`,
/// `StringTooLong`). Or `OutOfMemory` if an allocation failed.
#[tactic(auto, using(crate::proofs::Counts::words_len, crate::proofs::Joins::reads_statement))]
pub fn read_data_statement<'a>(
    alloc: Global,
    names: &VariableNames<'_>,
    targets: &[Target],
    start: Cutter<'a>,
) -> Result<StatementValues<'a>, ReadError>
    requires { is_done start ≡ false }
    ensures means { MeansWhatIsGiven start.entry names.now targets.now result }
    ensures position { IfOk result (λ g. IsPosition names.now (name_said start.entry) g.position) }
    ensures rest { IfOk result (λ g. Follows start.entry g.rest) }
{
    read_quickly_or_slowly(alloc, names, targets, start)
}

/// Reads the next statement, with the arguments and the result of [`read_data_statement`]: by [`read_quickly`], and if this finds some
/// fault in the statement, again by [`read_slowly`]. Errs with the statement's first fault, or if an allocation failed. Its contract is
/// about the tokens of the statement; from it follows that of [`read_data_statement`], which is about the dataset.
fn read_quickly_or_slowly<'a>(
    alloc: Global,
    names: &VariableNames<'_>,
    targets: &[Target],
    start: Cutter<'a>,
) -> Result<StatementValues<'a>, ReadError>
    requires { is_done start ≡ false }
    ensures read { GivesRead (λ g. g.array) result (statement_read start.entry names.now targets.now) }
    ensures position { IfOk result (λ g. IsPosition names.now (name_said start.entry) g.position) }
    ensures rest { IfOk result (λ g. Follows start.entry g.rest) }
{
    match read_quickly(alloc, names, targets, start) {
        Ok(given) => Ok(given),
        Err(QuickPassFault::OutOfMemory) => Err(ReadError::OutOfMemory),
        Err(QuickPassFault::Unnamed) => read_slowly(alloc, names, targets, start),
    }
}

/// Reads the next statement of `start` in one pass, if it has no fault. Arguments and result are those of [`read_data_statement`]. Errs
/// with `Unnamed` if it has some fault, which [`read_slowly`] names; no clause says that it is only then. Errs with `OutOfMemory` if an
/// allocation failed.
fn read_quickly<'a>(
    alloc: Global,
    names: &VariableNames<'_>,
    targets: &[Target],
    start: Cutter<'a>,
) -> Result<StatementValues<'a>, QuickPassFault>
    requires { is_done start ≡ false }
    ensures read { IfOk result (λ g. statement_read start.entry names.now targets.now ≡ Ok g.array) }
    ensures position { IfOk result (λ g. IsPosition names.now (name_said start.entry) g.position) }
    ensures rest { IfOk result (λ g. Follows start.entry g.rest) }
{
    let name = start.lexeme();
    let equals_due = Due::DataName.after(name);
    let (equals, name_ends) = start.advanced();
    if name_ends {
        return Err(QuickPassFault::Unnamed);
    }
    let sign = equals.lexeme();
    let value_due = equals_due.after(sign);
    let (value, sign_ends) = equals.advanced();
    if sign_ends {
        return Err(QuickPassFault::Unnamed);
    }
    let Due::Value { takes_fill: true } = value_due else {
        return Err(QuickPassFault::Unnamed);
    };
    let FoundTarget { position, target } = target_of(alloc, names, targets, name.bytes)?;
    let packed = pack_and_check(alloc, value, target.form, target.capacity)?;
    Ok(StatementValues {
        position,
        array: packed.array,
        rest: packed.rest,
    })
}

/// Reads the next statement of `start` in two passes, so that it can name the first fault, which [`read_quickly`] doesn't: the first pass
/// finds a bad token, a bad number or a wrong order of the tokens, and the second reads the values. Arguments and result are those of
/// [`read_data_statement`]. Errs with the statement's first fault, or if an allocation failed.
fn read_slowly<'a>(
    alloc: Global,
    names: &VariableNames<'_>,
    targets: &[Target],
    start: Cutter<'a>,
) -> Result<StatementValues<'a>, ReadError>
    requires { is_done start ≡ false }
    ensures read { GivesRead (λ g. g.array) result (statement_read start.entry names.now targets.now) }
    ensures position { IfOk result (λ g. IsPosition names.now (name_said start.entry) g.position) }
    ensures rest { IfOk result (λ g. Follows start.entry g.rest) }
{
    let rest = pass_statement(start, Due::DataName)?;
    let name = start.lexeme();
    let (equals, _) = start.advanced();
    let (value, _) = equals.advanced();
    let FoundTarget { position, target } = target_of(alloc, names, targets, name.bytes)?;
    let array = pack(alloc, value, target.form, target.capacity)?;
    Ok(StatementValues {
        position,
        array,
        rest,
    })
}

/// Returns what the variable that `word` names takes (its target), and the variable's position among `names`. Errs with `BadName` if the
/// format doesn't allow the name, with `UnknownVariable` if `names` or `targets` doesn't have the variable, with `DuplicateData` if an
/// earlier statement gave its values, or if an allocation failed.
fn target_of(
    alloc: Global,
    names: &VariableNames<'_>,
    targets: &[Target],
    word: &[u8],
) -> Result<FoundTarget, ReadError>
    ensures target { GivesRead (λ p. p.target) result (target_said names.now targets.now word.now) }
    ensures position { IfOk result (λ p. IsPosition names.now (word_value word.now) p.position) }
{
    let name = read_name(alloc, word)?;
    let position = names.find(name.as_slice()).ok_or(CdlKind::UnknownVariable)?;
    let target = unless_given(targets.get(position as usize))?;
    Ok(FoundTarget { position, target })
}

/// Returns `target`, what a variable takes, if no statement has given the variable's values yet. Errs with `DuplicateData` if an earlier
/// statement gave them, and with `UnknownVariable` if `target` is `None`, since the caller's list has no target for the variable.
fn unless_given(target: Option<&Target>) -> Result<Target, CdlKind>
    ensures { result ≡ unless_given (option_map (λ t. t.now) target.entry) }
{
    match target {
        Some(target) if target.given => Err(CdlKind::DuplicateData),
        Some(target) => Ok(*target),
        None => Err(CdlKind::UnknownVariable),
    }
}
