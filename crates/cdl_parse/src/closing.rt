//! The statements that are left, and the line of the closing brace.

ghost use Rattle.std.specs.Prelude.{◌≡◌, false, true};
ghost use Rattle.cdl_statements.specs.code.Cutters.{after, is_done, pieces_left};
ghost use Rattle.cdl_statements.specs.Meaning.{closing_line};
ghost use Rattle.cdl_parse.specs.code.ClosingLines.{closing_of};

use cdl_statements::Cutter;

/// The statements of a text that are left, and the lines on which the last two statements before them begin. At the end of a text the last
/// but one of these is the closing brace, so that the text needn't be searched for the brace.
#[derive(Clone, Copy)]
pub struct Unread<'a> {
    /// The cutter (the cursor in the text) at the next statement.
    pub cutter: Cutter<'a>,
    /// The line of the last statement but one, or 0 if fewer than two were read.
    before: u64,
    /// The line of the last statement, or 0 if none was read.
    last: u64,
}

impl<'a> Unread<'a> {
    /// Returns the statements from `start` on, at the start of a text: none has been read.
    #[tactic(auto, using(crate::proofs::Closings::from_start))]
    pub fn all(start: Cutter<'a>) -> Unread<'a>
        ensures cutter { result.cutter ≡ start.entry }
        ensures line { closing_of result ≡ closing_line (pieces_left start.entry) }
    {
        Unread {
            cutter: start,
            before: 0,
            last: 0,
        }
    }

    /// Returns the statements that are left after the next one, which has been read. Needs a next one, and the cutter after it as `rest`.
    #[tactic(auto, using(crate::proofs::Closings::closing_on))]
    pub fn past(self, rest: Cutter<'a>) -> Unread<'a>
        requires more { is_done self.cutter ≡ false }
        requires next { pieces_left rest ≡ after self.cutter }
        ensures cutter { result.cutter ≡ rest.entry }
        ensures line { closing_of result ≡ closing_of self.entry }
    {
        Unread {
            cutter: rest,
            before: self.last,
            last: self.cutter.line(),
        }
    }

    /// Returns the line of the last statement but one, or 0 if fewer than two were read. At the end of a text without a fault this is the
    /// line of the closing brace, since the end of the text counts as the last statement. The contract leaves out a statement that is left.
    #[tactic(auto, using(crate::proofs::Closings::closing_end))]
    pub fn closing_line(self) -> u64
        ensures { is_done self.entry.cutter ≡ true → result ≡ closing_of self.entry }
    {
        self.before
    }
}
