//! The sections before the data section.

ghost use Rattle.std.specs.Prelude.{◌≡◌, IfOk, false};
ghost use Rattle.cdl_statements.specs.code.Cutters.{SameText, is_done, pieces_left};
ghost use Rattle.cdl_statements.specs.Meaning.{closing_line, empty};
ghost use Rattle.cdl_values.specs.code.Listed.{AreShaped};
ghost use Rattle.cdl_parse.specs.code.ClosingLines.{closing_of};
ghost use Rattle.cdl_parse.specs.code.Defined.{is_before_data, run_past};
ghost use Rattle.cdl_parse.specs.code.Runs.{GivesOrOutOfMemory, run_from};

use crate::closing::Unread;
use crate::definitions::Definitions;
use crate::parse_error::ParseError;
use cdl_statements::{Cutter, Section};
use std::alloc::Global;

/// What the sections before the data section declare, and what comes after them.
#[derive(Drop)]
pub struct Defined<'a> {
    pub definitions: Definitions,
    /// The statements after these sections.
    pub rest: Unread<'a>,
}

/// Reads the statements of a text up to and including `data:` or the closing brace, and returns what they declare, and a cutter (a cursor
/// in the text) after them. If `start` has no statement, reads nothing. If the text ends too early, its end counts as a bad statement.
///
/// # Errors
///
/// The fault of the first bad statement, with its line; or an allocation failed.
pub fn read_definitions<'a>(alloc: Global, start: Cutter<'a>) -> Result<Defined<'a>, ParseError>
    ensures reads { GivesOrOutOfMemory (run_past start.entry) result (run_from start.entry empty) }
    ensures shaped { IfOk result (λ d. AreShaped d.definitions.dims d.definitions.variables) }
    ensures ends { IfOk result (λ d. is_done d.rest.cutter ≡ false
        → is_before_data d.definitions.section ≡ false) }
    ensures same { IfOk result (λ d. SameText start.entry d.rest.cutter) }
    ensures line { IfOk result (λ d. closing_of d.rest ≡ closing_line (pieces_left start.entry)) }
{
    let mut definitions = Definitions::new(alloc);
    let mut rest = Unread::all(start);
    'statements: loop {
        if rest.cutter.is_done() || !is_before_data(definitions.section) {
            return Ok(Defined { definitions, rest });
        }
        match definitions.read_statement(alloc, rest.cutter) {
            Ok(after) => rest = rest.past(after),
            Err(e) => return Err(ParseError::at_line(rest.cutter.line(), e)),
        }
    }
}

/// Returns true if the section comes before the data section: for all sections up to `Variables`.
fn is_before_data(section: Section) -> bool
    ensures { result ≡ is_before_data section }
{
    match section {
        Section::Unopened | Section::Globals | Section::Dimensions | Section::Variables => true,
        Section::Values | Section::Closed | Section::Ended => false,
    }
}
