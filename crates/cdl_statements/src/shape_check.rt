//! The check of a statement's shape: its first bad token, and whether its tokens are in the order that is asked for.

ghost use Rattle.std.specs.Prelude.{◌≡◌, IfErr, IfOk, None, OnOk, Some, false, true};
ghost use Rattle.cdl_statements.specs.code.Cutters.{Follows, is_done, version_of, words};
ghost use Rattle.cdl_statements.specs.code.DueTokens.{completes};
ghost use Rattle.cdl_statements.specs.State.{State};
ghost use Rattle.cdl_statements.specs.code.ShapeFaults.{ActsAsSaid, shape_fault_of};
ghost use Rattle.cdl_statements.specs.Shapes.{first_bad, token_fault};

use crate::cutter::Cutter;
use crate::due::Due;
use crate::fault::CdlKind;
use crate::lexeme::Lexeme;
use crate::passing::pass_values;
use crate::section::Section;
use cdl_tokens::{TokenKind, number_of_token};
use nc_base::Version;

/// Passes the next statement of `start` if its tokens are good ones, in the order that is asked for, and returns the cutter after it.
/// `first` says which token has to come first, and [`Due::after`] which one after each token. If `first` is `First` of a section, the
/// statement has to have a shape of this section (an order of tokens that the section allows); if it is `DataName`, the statement has to
/// list the values of a variable. Needs a statement that is left. Does not allocate.
///
/// # Errors
///
/// The fault of the statement's first bad token (`BadToken`) or bad number (`BadNumber`); or `Syntax` if its tokens are in another order.
#[tactic(auto, using(crate::proofs::ShapeChecks::shape_checks), unfolding(crate::specs::code::DueTokens::completes))]
pub fn pass_statement(start: Cutter<'_>, first: Due) -> Result<Cutter<'_>, CdlKind>
    requires { is_done start ≡ false }
    ensures good { OnOk result (first_bad (version_of start.entry) (words start.entry) ≡ None) }
    ensures shaped { OnOk result (completes first (words start.entry) ≡ true) }
    ensures fault { IfErr result (λ kind. shape_fault_of first start.entry ≡ Some kind) }
    ensures rest { IfOk result (λ c. Follows start.entry c) }
{
    let version = start.version();
    let mut cutter = start;
    let mut due = first;
    'tokens: loop {
        let token = cutter.lexeme();
        if let Some(kind) = token_fault(version, token) {
            return Err(kind);
        }
        due = due.after(token);
        let ends = cutter.advance();
        if ends {
            if due.is_whole() {
                return Ok(cutter);
            }
            return Err(CdlKind::Syntax);
        }
        pass_values(&mut cutter, due);
    }
}

/// Checks that the tokens of the next statement are good ones, in an order that `section` allows (the shape of a statement). Returns a
/// cutter (a cursor in the text) at the statement after it. What the statement says, such as its names, isn't checked. Needs a statement
/// that is left. Does not allocate.
///
/// # Errors
///
/// The fault of the statement's first bad token (`BadToken`) or bad number (`BadNumber`); or `Syntax` if the statement has no shape of this
/// section.
pub fn check_statement(start: Cutter<'_>, section: Section) -> Result<Cutter<'_>, CdlKind>
    requires { is_done start ≡ false }
    ensures passes { (s : State) → s.section ≡ section → ActsAsSaid start.entry s result }
    ensures whole { IfOk result (λ c. completes (Due.First section) (words start.entry) ≡ true) }
    ensures rest { IfOk result (λ c. Follows start.entry c) }
{
    pass_statement(start, Due::First(section))
}

/// Returns the fault that a token has by itself, wherever it stands: `BadToken` for a bad token, `BadNumber` for a number token that is no
/// number or whose suffix `version` doesn't have, otherwise `None`.
pub fn token_fault(version: Version, token: Lexeme<'_>) -> Option<CdlKind>
    ensures { result ≡ token_fault version token.entry.kind token.entry.bytes.now }
{
    match token.kind {
        TokenKind::Bad => Some(CdlKind::BadToken),
        TokenKind::Number => number_fault(version, token.bytes),
        _ => None,
    }
}

/// Returns `BadNumber` if the number token of these bytes is no number, or if the version lacks its suffix; otherwise `None`.
fn number_fault(version: Version, bytes: &[u8]) -> Option<CdlKind>
    ensures { result ≡ token_fault version TokenKind.Number bytes.now }
{
    if number_of_token(version, bytes).is_none() {
        Some(CdlKind::BadNumber)
    } else {
        None
    }
}
