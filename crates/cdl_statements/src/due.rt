//! The shapes of statements, token by token.

ghost use Rattle.std.specs.Prelude.{◌≡◌};
ghost use Rattle.cdl_statements.specs.Lexemes.{is_opening_kind};

use crate::lexeme::Lexeme;
use crate::section::Section;
use cdl_tokens::TokenKind;

/// Which token is due: which one has to come next, for a statement to have its shape (an order of tokens that its section allows).
#[derive(Clone, Copy, Debug, PartialEq, Eq)]
pub enum Due {
    /// The first token of a statement in this section.
    First(Section),
    /// The name that begins a statement of the data section.
    DataName,
    /// The colon of a section mark, such as `data:`.
    Colon,
    /// An attribute's name.
    AttributeName,
    /// The `=` before constants. `takes_fill` is true if a constant may be `_`.
    Equals { takes_fill: bool },
    /// A constant: a number, a string or, if `takes_fill`, `_`.
    Value { takes_fill: bool },
    /// The comma or the semicolon after a constant.
    Separator { takes_fill: bool },
    DimensionName,
    /// The `=` before a dimension's length.
    LengthEquals,
    /// A dimension's length.
    Length,
    /// The comma or the semicolon after a dimension's length.
    LengthSeparator,
    /// The second token of a statement in the variables section, after a word. `is_name` is true if this word may be the name of a
    /// variable, and `is_section` if it is the word of a later section.
    AfterWord { is_name: bool, is_section: bool },
    /// A variable's name.
    VariableName,
    /// A parenthesis, comma or semicolon after a variable's name.
    AfterVariable,
    /// The name of one of a variable's dimensions.
    VariableDimension,
    /// The comma or the closing parenthesis after the name of a variable's dimension.
    AfterVariableDimension,
    /// The comma or the semicolon after the closing parenthesis of a variable's dimensions.
    AfterShape,
    /// No token: the statement is whole.
    Nothing,
    /// No token: the statement has lost its shape.
    Never,
}

impl Due {
    ghost use Rattle.cdl_statements.specs.code.DueTokens.{is_whole, next, next_first, next_if, separator};
    ghost use Rattle.cdl_statements.specs.code.Views.{lexeme_of};

    /// Returns which token is due (has to come next) after `token`; `self` is what was due at `token` itself. Returns `Nothing` if the
    /// statement is whole with `token`, and `Never` if `token` isn't what was due (the CDL chapter of the NetCDF User's Guide, "CDL
    /// Syntax").
    #[inline]
    #[tactic(auto, unfolding(crate::specs::code::DueTokens::next))]
    pub fn after(self, token: Lexeme<'_>) -> Due
        ensures { result ≡ next self (lexeme_of token.entry) }
    {
        match self {
            // A list of constants, which may be long, doesn't go through the table.
            Due::Value { takes_fill } => {
                Due::next_if(token.is_value(takes_fill), Due::Separator { takes_fill })
            }
            Due::Separator { takes_fill } => Due::separator(Due::Value { takes_fill }, token),
            _ => self.after_in_table(token),
        }
    }

    /// Returns which token is due after `token`, by a table of all tokens that may be due; `self` is what was due at `token` itself.
    /// Returns `Nothing` if the statement is whole with `token`, and `Never` if `token` isn't what was due. [`after`](Due::after) calls it
    /// unless a constant or the separator after one was due.
    #[inline(never)]
    #[tactic(auto, unfolding(crate::specs::code::DueTokens::next))]
    fn after_in_table(self, token: Lexeme<'_>) -> Due
        ensures { result ≡ next self (lexeme_of token.entry) }
    {
        match self {
            Due::First(section) => Due::after_first(section, token),
            Due::DataName => Due::next_if(token.is_name(), Due::Equals { takes_fill: true }),
            Due::Colon => Due::next_if(token.is_mark(b':'), Due::Nothing),
            Due::AttributeName => Due::next_if(token.is_name(), Due::Equals { takes_fill: false }),
            Due::Equals { takes_fill } => Due::next_if(
                token.is_mark(b'='),
                Due::Value { takes_fill },
            ),
            Due::Value { takes_fill } => {
                Due::next_if(token.is_value(takes_fill), Due::Separator { takes_fill })
            }
            Due::Separator { takes_fill } => Due::separator(Due::Value { takes_fill }, token),
            Due::DimensionName => Due::next_if(token.is_name(), Due::LengthEquals),
            Due::LengthEquals => Due::next_if(token.is_mark(b'='), Due::Length),
            Due::Length => Due::next_if(token.is_length(), Due::LengthSeparator),
            Due::LengthSeparator => Due::separator(Due::DimensionName, token),
            Due::AfterWord {
                is_name,
                is_section,
            } => Due::after_second(is_name, is_section, token),
            Due::VariableName => Due::next_if(token.is_name(), Due::AfterVariable),
            Due::AfterVariable => Due::after_variable(token),
            Due::VariableDimension => Due::next_if(token.is_name(), Due::AfterVariableDimension),
            Due::AfterVariableDimension => Due::after_variable_dimension(token),
            Due::AfterShape => Due::separator(Due::VariableName, token),
            Due::Nothing | Due::Never => Due::Never,
        }
    }

    /// Returns which token is due after `token`, the first token of a statement in this section. Returns `Nothing` if the statement is
    /// whole with `token`, and `Never` if no statement of the section begins with `token`.
    fn after_first(section: Section, token: Lexeme<'_>) -> Due
        ensures { result ≡ next_first section (lexeme_of token.entry) }
    {
        match section {
            Section::Unopened => Due::next_if(is_opening(token.kind), Due::Nothing),
            Section::Closed => Due::next_if(token.kind.is_end(), Due::Nothing),
            Section::Ended => Due::Never,
            _ if token.is_mark(b'}') => Due::Nothing,
            Section::Values => Due::next_if(token.is_name(), Due::Equals { takes_fill: true }),
            _ if token.is_mark(b':') => Due::AttributeName,
            Section::Globals => Due::next_if(token.opens_section_after(section), Due::Colon),
            Section::Dimensions if token.opens_section_after(section) => Due::Colon,
            Section::Dimensions => Due::next_if(token.is_name(), Due::LengthEquals),
            Section::Variables => Due::next_if(
                token.is_any_word(),
                Due::AfterWord {
                    is_name: token.is_name(),
                    is_section: token.opens_section_after(section),
                },
            ),
        }
    }

    /// Returns which token is due after `token`, the second token of a statement in the variables section, after a word. `is_name` is true
    /// if this word may be the name of a variable, and `is_section` if it is the word of a later section. Returns `Nothing` after the colon
    /// of a section mark, and `Never` if no such statement goes on with `token`.
    #[tactic(auto, unfolding(crate::specs::code::DueTokens::next))]
    fn after_second(is_name: bool, is_section: bool, token: Lexeme<'_>) -> Due
        ensures { result ≡ next (Due.AfterWord is_name is_section) (lexeme_of token.entry) }
    {
        if !token.is_mark(b':') {
            Due::next_if(token.is_name(), Due::AfterVariable)
        } else if is_name {
            Due::AttributeName
        } else {
            Due::next_if(is_section, Due::Nothing)
        }
    }

    /// Returns which token is due after `token`, which comes after a variable's name. After an opening parenthesis this is a dimension's
    /// name, and after a comma the next variable's name. Returns `Nothing` after a semicolon, and `Never` after any other token.
    #[tactic(auto, unfolding(crate::specs::code::DueTokens::next))]
    fn after_variable(token: Lexeme<'_>) -> Due
        ensures { result ≡ next Due.AfterVariable (lexeme_of token.entry) }
    {
        if token.is_mark(b'(') {
            Due::VariableDimension
        } else {
            Due::separator(Due::VariableName, token)
        }
    }

    /// Returns which token is due after `token`, which comes after the name of one of a variable's dimensions. After a comma this is the
    /// next dimension's name, and after a closing parenthesis a comma or a semicolon. Returns `Never` after any other token.
    #[tactic(auto, unfolding(crate::specs::code::DueTokens::next))]
    fn after_variable_dimension(token: Lexeme<'_>) -> Due
        ensures { result ≡ next Due.AfterVariableDimension (lexeme_of token.entry) }
    {
        if token.is_mark(b',') {
            Due::VariableDimension
        } else {
            Due::next_if(token.is_mark(b')'), Due::AfterShape)
        }
    }

    /// Returns which token is due after `token`, the separator of a list: `due` after a comma, since the list goes on, and `Nothing` after
    /// a semicolon, since the statement is whole. Returns `Never` if `token` is neither.
    fn separator(due: Due, token: Lexeme<'_>) -> Due
        ensures { result ≡ separator due (lexeme_of token.entry) }
    {
        if token.is_mark(b',') {
            due
        } else {
            Due::next_if(token.is_mark(b';'), Due::Nothing)
        }
    }

    /// Returns `due` (what has to come next) if `is_allowed` is true: the token that was just read is one that the shape allows in its
    /// place. Otherwise returns `Never`.
    fn next_if(is_allowed: bool, due: Due) -> Due
        ensures { result ≡ next_if is_allowed due }
    {
        if is_allowed { due } else { Due::Never }
    }

    /// Returns true for `Nothing`: the statement is whole. Returns false for `Never`, although then no token is due either.
    pub fn is_whole(self) -> bool
        ensures { result ≡ is_whole self }
    {
        matches!(self, Due::Nothing)
    }
}

/// Returns true if a token of this kind is an opening.
fn is_opening(kind: TokenKind) -> bool
    ensures { result ≡ is_opening_kind kind }
{
    matches!(kind, TokenKind::Opening)
}
