//! The data section.

ghost use Rattle.std.specs.Prelude.{◌≡◌, [], IfOk, true, false, replicate, slice_set};
ghost use Rattle.cdl_statements.specs.code.Cutters.{Follows, SameText, is_done, words};
ghost use Rattle.cdl_statements.specs.State.{State};
ghost use Rattle.cdl_values.specs.code.Meant.{begins_brace};
ghost use Rattle.cdl_parse.specs.code.ClosingLines.{closing_of};
ghost use Rattle.cdl_parse.specs.code.DataSections.{Closes, ReadsDataSection, ReadsNextStatement, given_at};
ghost use Rattle.cdl_parse.specs.code.Defined.{is_over};

use crate::closing::Unread;
use crate::parse_error::ParseError;
use cdl_statements::{Cutter, Section, check_statement};
use cdl_values::{ReadError, Target, VariableNames, read_data_statement};
use nc_base::ListedArray;
use std::alloc::{AllocError, Global};

/// What the data section lists, if the text has one, and what comes after it.
#[derive(Drop)]
pub struct Values<'a> {
    /// For each variable the listed values.
    pub listed: Vec<ListedArray>,
    /// The section that the next statement stands in.
    pub section: Section,
    pub rest: Unread<'a>,
}

/// The variables while the data section is read: what each may take, and what was listed of it so far. Both lists have one element for each
/// variable.
#[derive(Drop)]
struct Listings {
    /// What each variable may take, and whether a statement has given its values.
    targets: Vec<Target>,
    /// The listed values of each variable.
    arrays: Vec<ListedArray>,
}

/// What was read of one statement of the data section, but for the listed values, which are put into [`Listings`].
#[derive(Clone, Copy)]
struct DataStatement<'a> {
    /// True if the statement was the closing brace. If false, it listed the values of a variable.
    is_brace: bool,
    /// The statements after this one.
    rest: Cutter<'a>,
}

/// Reads the statements of the data section up to and including the closing brace. Returns what they list, and the statements after the
/// brace, where the section is `Closed`. If no statement is left in `start`, reads nothing, and the section is `Values`.
///
/// Each statement lists the values of the variable that it names, and no two of them may name the same variable (the CDL chapter of the
/// NetCDF User's Guide, and ncgen(1)). `names` are the names of the variables, and `targets` what each may take (none is given values yet),
/// in the same order. A text that ends before the closing brace has a fault at its end, since the end is no statement of this section.
///
/// # Errors
///
/// The fault of the first bad statement, with its line; or an allocation failed.
pub fn read_data<'a>(
    alloc: Global,
    names: &VariableNames<'_>,
    targets: Vec<Target>,
    start: Unread<'a>,
) -> Result<Values<'a>, ParseError>
    ensures reads { ReadsDataSection start.entry.cutter names.now targets.items result }
    ensures past { IfOk result (λ v. is_done v.rest.cutter ≡ false → is_over v.section ≡ true) }
    ensures same { IfOk result (λ values. SameText start.entry.cutter values.rest.cutter) }
    ensures line { IfOk result (λ values. closing_of values.rest ≡ closing_of start.entry) }
{
    let arrays = empty_arrays(alloc, targets.len())?;
    let mut listings = Listings { targets, arrays };
    let mut rest = start;
    'statements: loop {
        if rest.cutter.is_done() {
            return Ok(Values {
                listed: listings.arrays,
                section: Section::Values,
                rest,
            });
        }
        match read_next_statement(alloc, names, &mut listings, rest.cutter) {
            Ok(passed) => {
                rest = rest.past(passed.rest);
                if passed.is_brace {
                    return Ok(Values {
                        listed: listings.arrays,
                        section: Section::Closed,
                        rest,
                    });
                }
            }
            Err(e) => return Err(ParseError::at_line(rest.cutter.line(), e)),
        }
    }
}

/// Returns `count` arrays without values: one for each variable, before a statement lists any. Errs only if an allocation failed.
pub fn empty_arrays(alloc: Global, count: usize) -> Result<Vec<ListedArray>, AllocError>
    ensures { IfOk result (λ arrays. arrays.items ≡ replicate count []) }
{
    let mut arrays = Vec::new(alloc);
    for _ in 0..count {
        arrays.push(ListedArray::new(alloc))?;
    }
    Ok(arrays)
}

/// Reads the next statement of the data section. If it lists values, puts them into `listings`, and sets `given` of their variable there,
/// so that no later statement may list values of it. If it is the closing brace, changes nothing in `listings`, and `is_brace` of the
/// result is true. `names` are the names of the variables. Needs a statement that is left. Errs with the statement's first fault, or if an
/// allocation failed. In both cases `listings` is what it was, but no clause says so.
fn read_next_statement<'a>(
    alloc: Global,
    names: &VariableNames<'_>,
    listings: &mut Listings,
    start: Cutter<'a>,
) -> Result<DataStatement<'a>, ReadError>
    requires { is_done start ≡ false }
    ensures reads { ReadsNextStatement start.entry names.now listings.old listings.new result }
    ensures rest { IfOk result (λ passed. Follows start.entry passed.rest) }
{
    if start.lexeme().is_mark(b'}') {
        return pass_closing_brace(start);
    }
    let given = read_data_statement(alloc, names, &listings.targets, start)?;
    replace_array(&mut listings.arrays, given.position, given.array);
    mark_given(&mut listings.targets, given.position);
    Ok(DataStatement {
        is_brace: false,
        rest: given.rest,
    })
}

/// Passes the closing brace, and returns a cutter after it, with `is_brace` true. Needs the brace as the next statement. Errs if
/// [`check_statement`] finds a fault, which it never does in a closing brace.
fn pass_closing_brace(start: Cutter<'_>) -> Result<DataStatement<'_>, ReadError>
    requires more { is_done start ≡ false }
    requires brace { begins_brace (words start) ≡ true }
    ensures reads { (s : State) → s.section ≡ Section.Values → Closes start.entry s result }
    ensures rest { IfOk result (λ passed. Follows start.entry passed.rest) }
{
    let rest = check_statement(start, Section::Values)?;
    Ok(DataStatement {
        is_brace: true,
        rest,
    })
}

/// Replaces the array at `position` (from 0 on) with `array`. Changes nothing if there is no array at that position.
fn replace_array(arrays: &mut Vec<ListedArray>, position: u64, array: ListedArray)
    ensures { arrays.new.items ≡ slice_set arrays.old.items position array }
{
    let at = position as usize;
    if at < arrays.len() {
        arrays[at] = array;
    }
}

/// Sets `given` of the target (what a variable may take) at `position`, since a statement has listed values of its variable. Changes
/// nothing if there is no such target.
#[tactic(auto, using(crate::proofs::DataStates::given_is, crate::proofs::DataStates::none_given))]
fn mark_given(targets: &mut Vec<Target>, position: u64)
    ensures { targets.new.items ≡ given_at position targets.old.items }
{
    let at = position as usize;
    if at < targets.len() {
        targets[at].given = true;
    }
}
