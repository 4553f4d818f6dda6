//! The statements of a text, one at a time.

ghost use Rattle.std.specs.Prelude.{◌≡◌, [], None, OnErr, IfOk, IfSome, IsErr, true, false, ◌<◌, if◌then◌else◌};
ghost use Rattle.cdl_statements.specs.Pieces.{role_in, statements};
ghost use Rattle.cdl_statements.specs.Lexemes.{lexeme};
ghost use Rattle.cdl_tokens.specs.code.Scanners as scanners;

use crate::lexeme::Lexeme;
use crate::piece::{CutState, Role};
use cdl_tokens::{Scanner, Token};
use nc_base::Version;
use std::alloc::AllocError;

/// Cuts a text into its statements (the CDL chapter of the NetCDF User's Guide, "CDL Syntax"). It is a cursor: it stands before a token,
/// the next one.
///
/// [`next`](Cutter::next) returns a whole statement. [`advance`](Cutter::advance) passes one token and does not allocate.
#[derive(Clone, Copy)]
pub struct Cutter<'a> {
    /// The scanner, just after the next token.
    scanner: Scanner<'a>,
    /// The version that the text is read for: it decides which suffixes a number may have.
    version: Version,
    /// The next token.
    next: Token,
    /// The role of the next token.
    next_role: Role,
    /// What comes before the next token.
    state: CutState,
    /// True if no statement is left.
    done: bool,
    ghost known: { next_role ≡ role_in (scanners.text_of scanner) next },
}

impl<'a> Cutter<'a> {
    ghost use Rattle.cdl_statements.specs.code.Cutters.{BeginsWith, HandsOut, PassesToken, PassesWord, SameText, after, first_line, is_done, next_token, offset_of, pieces_left, text_of, version_of};
    ghost use Rattle.cdl_statements.specs.code.ListedTokens.{EndsAtScanner, IsAtComma, Passes};
    ghost use Rattle.cdl_statements.specs.code.Views.{lexeme_of};

    /// Creates a cutter at the start of a text, which is read for this version of the format.
    pub fn new(text: &'a [u8], version: Version) -> Cutter<'a>
        ensures pieces { pieces_left result ≡ statements text.now }
        ensures text { text_of result ≡ text.now }
        ensures version { version_of result ≡ version }
        ensures more { is_done result ≡ false }
    {
        let mut scanner = Scanner::new(text);
        let next = scanner.token();
        Cutter {
            scanner,
            version,
            next,
            next_role: Role::of(next, text),
            state: CutState::Begins,
            done: false,
        }
    }

    /// Returns the version that the text is read for.
    pub fn version(&self) -> Version
        ensures { result ≡ version_of self.now }
    {
        self.version
    }

    /// Returns true if no statement is left.
    pub fn is_done(&self) -> bool
        ensures { result ≡ is_done self.now }
    {
        self.done
    }

    /// Returns the kind and the bytes of the next token, the first that is left of its statement. The cutter doesn't move.
    #[inline]
    #[tactic(auto, using(crate::proofs::Cuts::begins), unfolding(crate::specs::code::Cutters::words, crate::specs::code::Cutters::pieces_left))]
    pub fn lexeme(&self) -> Lexeme<'a>
        ensures lexeme { lexeme_of result ≡ lexeme (text_of self.now) (next_token self.now) }
        ensures first { is_done self.now ≡ false → BeginsWith (lexeme_of result) self.now }
    {
        Lexeme::of(self.next, self.scanner.text())
    }

    /// Returns the line of the next token, from 1 on. Between two statements this is the line where the second one begins. The contract
    /// leaves out a cutter that has no statement left.
    #[tactic(auto, using(crate::proofs::Cuts::line_first), unfolding(crate::specs::code::Cutters::pieces_left))]
    pub fn line(&self) -> u64
        ensures { is_done self.now ≡ false → result ≡ first_line (pieces_left self.now) }
    {
        self.next.line
    }

    /// Replaces what `into` has by the tokens of the next statement, and returns true. After the last statement it returns
    /// false, and `into` is empty.
    ///
    /// For callers of the library: `ncgen` itself goes on token by token, by [`advance`](Cutter::advance).
    ///
    /// # Errors
    ///
    /// An allocation failed. Then `into` is empty, and the cutter is where it was.
    pub fn next(&mut self, into: &mut Vec<Token>) -> Result<bool, AllocError>
        ensures ok { IfOk result (λ more. HandsOut more self.old self.new into.new.items) }
        ensures err_same { OnErr result (self.new ≡ self.old) }
        ensures err_empty { OnErr result (into.new.items ≡ []) }
    {
        into.clear();
        if self.done {
            return Ok(false);
        }
        let mut cutter = *self;
        'piece: loop {
            let token = cutter.next;
            let (after, ends) = cutter.advanced();
            if let Err(refused) = into.push(token) {
                return clear_and_fail(into, refused.into());
            }
            cutter = after;
            if ends {
                *self = cutter;
                return Ok(true);
            }
        }
    }

    /// Passes the next token, and returns true if it is the last of its statement. Needs a statement that is left. Does not allocate.
    #[inline]
    pub fn advance(&mut self) -> bool
        requires { is_done self.old ≡ false }
        ensures same { SameText self.old self.new }
        ensures pieces { PassesToken result self.old self.new }
        ensures words { PassesWord result self.old self.new }
        ensures after { after self.old ≡ (if result then pieces_left self.new else after self.new) }
        ensures moves { result ≡ false → offset_of self.old < offset_of self.new }
        ensures goes { result ≡ false → is_done self.new ≡ false }
    {
        let following = self.scanner.token();
        let following_role = Role::of(following, self.scanner.text());
        let found = self.state.step(self.next_role, following_role);
        self.done = self.next.kind.is_end();
        self.state = found.state;
        self.next = following;
        self.next_role = following_role;
        found.ends
    }

    /// Returns true only if the next token is a comma inside of a statement: neither its first token nor after the closing brace. Then
    /// [`token_and_comma`](Cutter::token_and_comma) may be called.
    pub fn is_at_comma(&self) -> bool
        ensures { result ≡ true → IsAtComma self.now }
    {
        !self.done && is_inside(self.state) && self.lexeme().is_mark(b',')
    }

    /// Looks, after the comma that the cutter is at, for a token of the role `Other` (no opening, no word of a section, none of `: ; }`)
    /// and then a second comma, with only white space before it. If they are there, moves to the second comma, and returns the token.
    /// Otherwise returns `None` (no clause says when), and the cutter stays where it is. Needs a cutter at a comma
    /// ([`is_at_comma`](Cutter::is_at_comma)). Does not allocate.
    #[inline(always)]
    pub fn token_and_comma(&mut self) -> Option<Lexeme<'a>>
        requires { IsAtComma self.old }
        ensures passes { IfSome result (λ token. Passes self.old self.new (lexeme_of token)) }
        ensures ends { IfSome result (λ token. EndsAtScanner self.new) }
        ensures stays { result ≡ None → self.new ≡ self.old }
    {
        let mut scanner = self.scanner;
        let listed = scanner.token_and_comma()?;
        let text = self.scanner.text();
        if !is_other(Role::of(listed.token, text)) {
            return None;
        }
        self.move_to_comma(listed.comma, scanner);
        Some(Lexeme::of(listed.token, text))
    }

    /// Returns a copy of the scanner, which stands after the next token. A [`ValueList`](crate::ValueList) reads on with it.
    #[inline(always)]
    pub(crate) fn scanner(&self) -> Scanner<'a>
        ensures { result ≡ self.now.scanner }
    {
        self.scanner
    }

    /// Makes `comma` the next token, and `scanner` the scanner after it. Needs a token of the role `Other`. It has to be a comma of the
    /// same statement, and `scanner` has to stand just after it, but no clause says so.
    #[inline(always)]
    pub(crate) fn move_to_comma(&mut self, comma: Token, scanner: Scanner<'a>)
        requires { role_in (scanners.text_of scanner) comma ≡ Role.Other }
        ensures scanner { self.new.scanner ≡ scanner.entry }
        ensures comma { next_token self.new ≡ comma }
        ensures state { self.new.state ≡ self.old.state }
        ensures version { version_of self.new ≡ version_of self.old }
        ensures done { is_done self.new ≡ is_done self.old }
    {
        self.scanner = scanner;
        self.next = comma;
        self.next_role = Role::Other;
    }

    /// Returns the cutter after the next token, and true if this token is the last of its statement. It is [`advance`](Cutter::advance) on
    /// a copy of the cutter. Needs a statement that is left. Does not allocate.
    pub fn advanced(self) -> (Cutter<'a>, bool)
        requires { is_done self ≡ false }
        ensures same { SameText self.entry result.0 }
        ensures pieces { PassesToken result.1 self.entry result.0 }
        ensures words { PassesWord result.1 self.entry result.0 }
        ensures after { after self.entry ≡ (if result.1 then pieces_left result.0 else after result.0) }
        ensures moves { result.1 ≡ false → offset_of self.entry < offset_of result.0 }
        ensures goes { result.1 ≡ false → is_done result.0 ≡ false }
    {
        let mut cutter = self;
        let ends = cutter.advance();
        (cutter, ends)
    }
}

/// Returns true only for the state `Inside`: tokens of a statement that isn't whole yet come before the next token.
fn is_inside(state: CutState) -> bool
    ensures { result ≡ true → state ≡ CutState.Inside }
{
    matches!(state, CutState::Inside)
}

/// Returns true only for `Other`, the role of a token that is no opening, no word of a section, none of `: ; }` and not the end of the
/// text.
fn is_other(role: Role) -> bool
    ensures { result ≡ true → role ≡ Role.Other }
{
    matches!(role, Role::Other)
}

/// Empties `into`, and returns `refusal`, the error of a failed `push`, as the error.
fn clear_and_fail(into: &mut Vec<Token>, refusal: AllocError) -> Result<bool, AllocError>
    ensures empty { into.new.items ≡ [] }
    ensures err { IsErr result }
{
    into.clear();
    Err(refusal)
}
