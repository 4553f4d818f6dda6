//! A whole text.

ghost use Rattle.std.specs.Prelude.{◌≡◌, ◌<◌, ◌^◌, IfOk, Ok, false, length, true};
ghost use Rattle.cdl_statements.specs.code.Cutters.{SameText, is_done, pieces_left, text_of};
ghost use Rattle.cdl_statements.specs.Meaning.{closing_line, empty, meaning};
ghost use Rattle.cdl_parse.specs.code.ClosingLines.{closing_of};
ghost use Rattle.cdl_parse.specs.code.Defined.{is_before_data, is_over};
ghost use Rattle.cdl_parse.specs.code.DeclaredDatasets.{dataset_of_declared};
ghost use Rattle.cdl_parse.specs.code.Parsing.{MeansOrOutOfMemory, ReadsAll, ReadsAsDefined, as_dataset, fault_of};
ghost use Rattle.cdl_parse.specs.code.Runs.{GivesOrOutOfMemory, run_from};

use crate::closing::Unread;
use crate::data_section::{Values, empty_arrays, read_data};
use crate::declared_values::Declared;
use crate::definition_sections::{Defined, read_definitions};
use crate::definitions::Definitions;
use crate::finishing::finish;
use crate::parse_error::ParseError;
use crate::text_end::check_end;
use cdl_statements::{CdlFault, CdlKind, Cutter, Section};
use cdl_values::{VariableNames, targets_of};
use nc_base::{Att, Dataset, Dim, ListedArray, Sequence, Var, Version};
use std::alloc::Global;

/// Returns the dataset that a CDL text means (the CDL chapter of the NetCDF User's Guide, and ncgen(1)).
///
/// `version` is that of the format. It decides which types variables and which suffixes numbers may have, and how long a dimension may be.
///
/// For callers of the library: `ncgen` itself calls [`declared`].
///
/// # Errors
///
/// The fault of the first bad statement, with the line of its first token. [`TooLarge`](CdlKind::TooLarge), with the line of the closing
/// brace, if no statement is bad, but an array has more than 2^48 bytes or the header isn't sound
/// ([`Header::sound`](nc_base::Header::sound)). [`OutOfMemory`](CdlKind::OutOfMemory), with line 0, as soon as an allocation failed, or if
/// memory can't hold a variable's values.
pub fn parse(alloc: Global, text: &[u8], version: Version) -> Result<Dataset, CdlFault>
    ensures { MeansOrOutOfMemory result (meaning text.now version) }
{
    let declared = declared(alloc, text, version)?;
    match declared.into_dataset(alloc) {
        Ok(dataset) => Ok(dataset),
        Err(refusal) => Err(ParseError::from(refusal).fault()),
    }
}

/// Returns what a CDL text declares: the dataset that [`parse`] returns, but with no more of each variable's values than the text lists.
/// `version` is that of the format. `ncgen` calls it, so that memory needn't hold the values that the text doesn't list.
///
/// # Errors
///
/// Those of [`parse`], but `OutOfMemory` only if an allocation failed.
pub fn declared(alloc: Global, text: &[u8], version: Version) -> Result<Declared, CdlFault>
    ensures declares { MeansOrOutOfMemory (as_dataset result) (meaning text.now version) }
    ensures one_each { IfOk result (λ d. length d.listed ≡ length d.header.vars) }
{
    match read_declared(alloc, text, version) {
        Ok(declared) => Ok(declared),
        Err(e) => Err(e.fault()),
    }
}

impl ParseError {
    /// Returns this error as a [`CdlFault`]: its fault with its line, or a fault of the kind `OutOfMemory` with line 0.
    fn fault(self) -> CdlFault
        ensures { result ≡ fault_of self }
    {
        match self {
            ParseError::OutOfMemory => CdlFault {
                line: 0,
                kind: CdlKind::OutOfMemory,
            },
            ParseError::Fault(fault) => fault,
        }
    }
}

/// Reads a CDL text, and returns what it declares. [`declared`] calls it, and turns its error into a [`CdlFault`]. Errs with the fault of
/// the first bad statement; with `TooLarge`, on the closing brace's line, if no statement is bad, but an array is too large or the header
/// isn't sound; and with `OutOfMemory` if an allocation failed.
fn read_declared(alloc: Global, text: &[u8], version: Version) -> Result<Declared, ParseError>
    ensures reads { GivesOrOutOfMemory (λ d. Ok (dataset_of_declared d)) result
        (meaning text.now version) }
    ensures one_each { IfOk result (λ d. length d.listed ≡ length d.header.vars) }
{
    let Contents {
        dims,
        gatts,
        vars,
        listed,
        closing_line,
    } = read_contents(alloc, Cutter::new(text, version))?;
    match finish(version, dims, gatts, vars, listed) {
        Some(declared) => Ok(declared),
        None => Err(ParseError::Fault(CdlFault {
            line: closing_line,
            kind: CdlKind::TooLarge,
        })),
    }
}

/// What the statements of a text declare, and what they list in the data section.
#[derive(Drop)]
struct Contents {
    dims: Sequence<Dim>,
    /// The attributes of the dataset.
    gatts: Sequence<Att>,
    vars: Sequence<Var>,
    /// The listed values of each variable, in the order of `vars`.
    listed: Vec<ListedArray>,
    /// The line of the closing brace.
    closing_line: u64,
}

/// Reads all statements of a text, and returns what they declare and list, and the line of the closing brace. `start` is a cutter (a cursor
/// that goes from statement to statement) at the text's start. The sizes of arrays and the header aren't checked: [`finish`] does that.
/// Errs with the fault of the first bad statement, or if an allocation failed. The contract leaves out texts of 2^63 bytes or more, which
/// no slice has.
fn read_contents(alloc: Global, start: Cutter<'_>) -> Result<Contents, ParseError>
    ensures reads { length (text_of start.entry) < 2 ^ 63
        → ReadsAll result (run_from start.entry empty) }
    ensures line { IfOk result (λ c. c.closing_line ≡ closing_line (pieces_left start.entry)) }
{
    let Defined { definitions, rest } = read_definitions(alloc, start)?;
    let Definitions {
        section,
        dims,
        gatts,
        variables,
    } = definitions;
    let (vars, names) = variables.into_parts(alloc)?;
    let dims = dims.into_sequence();
    let values = read_values(
        alloc,
        dims.as_slice(),
        vars.as_slice(),
        &VariableNames::new(vars.as_slice(), &names),
        rest,
        section,
    )?;
    let closing_line = check_end(values.rest, values.section)?;
    Ok(Contents {
        dims,
        gatts: gatts.into_sequence(),
        vars,
        listed: values.listed,
        closing_line,
    })
}

/// Reads the data section, if the text has one: if `section`, the section of the next statement, is `Values`. Finds out by `dims` how many
/// values each of `vars` may take ([`targets_of`]), and reads the statements by [`read_data`]. Returns the values that the section lists of
/// each variable, and what comes after it. Without a data section, it reads nothing, and returns an array without values for each
/// variable, and `section` and `start` as they are. `dims` and `vars` are those of the text, and `names` are the names of `vars`. If a
/// statement is left, needs a `section` that is none of those before the data section. Errs with the fault of the first bad statement, or
/// if an allocation failed.
fn read_values<'a>(
    alloc: Global,
    dims: &[Dim],
    vars: &[Var],
    names: &VariableNames<'_>,
    start: Unread<'a>,
    section: Section,
) -> Result<Values<'a>, ParseError>
    requires { is_done start.cutter ≡ false → is_before_data section ≡ false }
    ensures reads { ReadsAsDefined start.entry.cutter dims.now vars.now names.now section result }
    ensures past { IfOk result (λ v. is_done v.rest.cutter ≡ false → is_over v.section ≡ true) }
    ensures same { IfOk result (λ values. SameText start.entry.cutter values.rest.cutter) }
    ensures line { IfOk result (λ values. closing_of values.rest ≡ closing_of start.entry) }
{
    match section {
        Section::Values => {
            let targets = targets_of(alloc, dims, vars)?;
            read_data(alloc, names, targets, start)
        }
        _ => Ok(Values {
            listed: empty_arrays(alloc, vars.len())?,
            section,
            rest: start,
        }),
    }
}
