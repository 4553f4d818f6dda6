//! How a list of tokens is cut into statements.

ghost use Rattle.std.specs.Prelude.{◌≡◌, true, if◌then◌else◌};
ghost use Rattle.cdl_statements.specs.Pieces.{step_at_end, step_within, is_section, mark_role};

use cdl_tokens::{Token, TokenKind, byte_at};

/// The role of a token when tokens are cut into statements.
#[derive(Clone, Copy, Debug, PartialEq, Eq)]
pub enum Role {
    Opening,
    /// An unescaped `dimensions`, `variables` or `data`.
    Section,
    Colon,
    Semicolon,
    /// A closing brace.
    Brace,
    /// The end of the text.
    End,
    /// Any other token.
    Other,
}

impl Role {
    ghost use Rattle.cdl_statements.specs.Pieces.{role_in};

    /// Returns the role that `token` has when tokens are cut into statements. `text` has to be the text that the token was read from.
    #[inline]
    pub fn of(token: Token, text: &[u8]) -> Role
        ensures { result ≡ role_in text.now token }
    {
        match token.kind {
            TokenKind::Word => word_role(token.bytes(text)),
            TokenKind::Mark => mark_role(byte_at(token.bytes(text), 0)),
            TokenKind::Opening => Role::Opening,
            TokenKind::End => Role::End,
            TokenKind::Number | TokenKind::Text | TokenKind::Bad => Role::Other,
        }
    }
}

/// Returns the role of a word: `Section` for an unescaped `dimensions`, `variables` or `data`, otherwise `Other`.
#[tactic(auto, unfolding(crate::specs::Pieces::is_section))]
#[inline(never)]
fn word_role(word: &[u8]) -> Role
    ensures { result ≡ (if is_section word.now then Role.Section else Role.Other) }
{
    let is_section = word == b"dimensions".as_slice()
        || word == b"variables".as_slice()
        || word == b"data".as_slice();
    if is_section {
        Role::Section
    } else {
        Role::Other
    }
}

/// Returns the role of a mark: `Colon` for `:`, `Semicolon` for `;`, `Brace` for `}`, otherwise `Other`.
fn mark_role(mark: u8) -> Role
    ensures { result ≡ mark_role mark }
{
    match mark {
        b':' => Role::Colon,
        b';' => Role::Semicolon,
        b'}' => Role::Brace,
        _ => Role::Other,
    }
}

/// Where the cut of a text stands: what comes before the next token.
#[derive(Clone, Copy, Debug, PartialEq, Eq)]
pub enum CutState {
    /// A whole statement, or nothing: the next token begins a statement.
    Begins,
    /// One or more tokens of a statement that isn't whole yet.
    Inside,
    /// The word of a section: the next token is the colon of its section mark.
    Marked,
    /// The closing brace, and perhaps tokens after it.
    Closed,
}

/// What a token does to the statement that it stands in.
#[derive(Clone, Copy, Debug, PartialEq, Eq)]
pub struct Step {
    /// True if the token is the last of its statement.
    pub ends: bool,
    /// The state before the token that comes next.
    pub state: CutState,
}

impl CutState {
    ghost use Rattle.cdl_statements.specs.code.Cutters.{is_end_role};
    ghost use Rattle.cdl_statements.specs.Pieces.{step};

    /// Returns whether a token is the last of its statement, and the state before the token after it. `self` is the state before the token,
    /// `role` is its role, and `next` is the role of the token after it. For example, the colon of `data:` ends its statement, and so does
    /// a semicolon unless the closing brace came before it. The end of the text (`End`) always ends one.
    pub fn step(self, role: Role, next: Role) -> Step
        ensures step { result ≡ step self role next }
        ensures last { is_end_role role ≡ true → result.ends ≡ true }
    {
        match (self, role, next) {
            (CutState::Marked, _, _) | (_, Role::End, _) => step_at_end(CutState::Begins),
            (CutState::Inside | CutState::Begins, Role::Semicolon, _) => step_at_end(
                CutState::Begins,
            ),
            (CutState::Begins, Role::Opening, _) => step_at_end(CutState::Begins),
            (CutState::Begins, Role::Brace, _) => step_at_end(CutState::Closed),
            (CutState::Begins, Role::Section, Role::Colon) => step_within(CutState::Marked),
            (_, _, Role::End) => step_at_end(CutState::Begins),
            (CutState::Closed, _, _) => step_within(CutState::Closed),
            _ => step_within(CutState::Inside),
        }
    }
}

/// Returns the step of a token that is the last of its statement. `state` is the state in which the cutter meets the next token.
fn step_at_end(state: CutState) -> Step
    ensures { result ≡ step_at_end state }
{
    Step { ends: true, state }
}

/// Returns the step of a token that isn't the last of its statement. `state` is the state in which the cutter meets the next token.
fn step_within(state: CutState) -> Step
    ensures { result ≡ step_within state }
{
    Step { ends: false, state }
}
