//! The end of a text.

ghost use Rattle.std.specs.Prelude.{◌≡◌, IfOk, false, true};
ghost use Rattle.cdl_statements.specs.code.Cutters.{is_done};
ghost use Rattle.cdl_statements.specs.State.{State};
ghost use Rattle.cdl_parse.specs.code.ClosingLines.{closing_of};
ghost use Rattle.cdl_parse.specs.code.Defined.{EndsAs, is_over};
ghost use Rattle.cdl_parse.specs.code.Runs.{run_from};

use crate::closing::Unread;
use cdl_statements::{CdlFault, Section, check_statement};

/// Checks that after the closing brace only the end of the text comes, and returns the line of the brace. `start` has the statements after
/// the brace. `section` is that of the next one, `Closed` if the end is still to come; needs `Closed` or `Ended`, unless no statement is
/// left. Does not allocate.
///
/// # Errors
///
/// The fault of the first bad statement (`BadToken`, `BadNumber` or `Syntax`), with its line.
pub fn check_end(start: Unread<'_>, section: Section) -> Result<u64, CdlFault>
    requires { is_done start.cutter ≡ false → is_over section ≡ true }
    ensures ends { (s : State) → s.section ≡ section → EndsAs s result (run_from start.entry.cutter s) }
    ensures line { IfOk result (λ line. line ≡ closing_of start.entry) }
{
    let mut rest = start;
    let mut here = section;
    'statements: loop {
        if rest.cutter.is_done() {
            return Ok(rest.closing_line());
        }
        match check_statement(rest.cutter, here) {
            Ok(after) => {
                rest = rest.past(after);
                here = Section::Ended;
            }
            Err(kind) => {
                return Err(CdlFault {
                    line: rest.cutter.line(),
                    kind,
                });
            }
        }
    }
}
