//! Tokens without their places.

ghost use Rattle.std.specs.Prelude.{◌≡◌};
ghost use Rattle.cdl_statements.specs.code.DueTokens.{is_number};
ghost use Rattle.cdl_statements.specs.Lexemes.{is_mark_kind, is_word_kind};

use crate::section::Section;
use cdl_tokens::{Token, TokenKind, byte_at};
use nc_base::is_reserved;

/// A token without its line and its offsets: its kind and its bytes.
#[derive(Clone, Copy, Debug)]
pub struct Lexeme<'a> {
    pub kind: TokenKind,
    pub bytes: &'a [u8],
}

impl<'a> Lexeme<'a> {
    ghost use Rattle.cdl_statements.specs.code.DueTokens.{is_length, is_name, is_value_of, opens_section_after};
    ghost use Rattle.cdl_statements.specs.Lexemes.{is_mark, is_word, lexeme};
    ghost use Rattle.cdl_statements.specs.Pieces.{section_of};
    ghost use Rattle.cdl_statements.specs.code.Views.{lexeme_of};

    /// Returns the kind and the bytes of `token`. `text` has to be the text that the token was read from.
    #[inline]
    pub fn of(token: Token, text: &'a [u8]) -> Lexeme<'a>
        ensures { lexeme_of result ≡ lexeme text.now token }
    {
        Lexeme {
            kind: token.kind,
            bytes: token.bytes(text),
        }
    }

    /// Returns true if the token is the mark `mark`, one of `: ; = , ( ) }`.
    pub fn is_mark(self, mark: u8) -> bool
        ensures { result ≡ is_mark mark (lexeme_of self.entry) }
    {
        is_mark_kind(self.kind) && byte_at(self.bytes, 0) == mark
    }

    /// Returns true if the token is the word `word`, none of its bytes escaped.
    pub fn is_word(self, word: &[u8]) -> bool
        ensures { result ≡ is_word word.now (lexeme_of self.entry) }
    {
        self.is_any_word() && self.bytes == word
    }

    /// Returns true if the token is any word. Unlike [`is_name`](Lexeme::is_name), it counts reserved words, too.
    pub fn is_any_word(self) -> bool
        ensures { result ≡ is_word_kind self.entry.kind }
    {
        matches!(self.kind, TokenKind::Word)
    }

    /// Returns true if the token is a name: a word that isn't an unescaped reserved word, such as `dimensions` or `int`.
    pub fn is_name(self) -> bool
        ensures { result ≡ is_name (lexeme_of self.entry) }
    {
        self.is_any_word() && !is_reserved(self.bytes)
    }

    /// Returns true if the token is a constant: a number, which may be a bad one, a string or, if `takes_fill`, an unescaped `_`, which
    /// stands for the fill value.
    pub fn is_value(self, takes_fill: bool) -> bool
        ensures { result ≡ is_value_of takes_fill (lexeme_of self.entry) self.entry.kind }
    {
        match self.kind {
            TokenKind::Number | TokenKind::Text => true,
            _ => takes_fill && self.is_word(b"_"),
        }
    }

    /// Guesses whether plain values come after this value of a list: decimal numbers with no suffix but `b`, `s` or `l`, or strings without
    /// an escape. Returns false for a number that begins with `0` and goes on, as octal and hexadecimal ones do, and for a number with a
    /// suffix of two letters or more. A wrong guess costs time, but changes no result.
    pub fn may_precede_plain(self) -> bool {
        match (self.kind, self.bytes) {
            (TokenKind::Number, [b'0', _, ..]) => false,
            (TokenKind::Number, [.., before, last]) => {
                before.is_ascii_digit() || last.is_ascii_digit()
            }
            _ => true,
        }
    }

    /// Returns true if the token is the length of a dimension: a number, or an unescaped `unlimited` or `UNLIMITED`.
    pub fn is_length(self) -> bool
        ensures { result ≡ is_length (lexeme_of self.entry) }
    {
        self.is_word(b"unlimited") || self.is_word(b"UNLIMITED") || is_number(self.kind)
    }

    /// If the token is the unescaped word `dimensions`, `variables` or `data`, returns the section whose mark begins with this word.
    /// Otherwise returns `None`.
    pub fn section(self) -> Option<Section>
        ensures { result ≡ section_of (lexeme_of self.entry) }
    {
        if self.is_word(b"dimensions") {
            Some(Section::Dimensions)
        } else if self.is_word(b"variables") {
            Some(Section::Variables)
        } else if self.is_word(b"data") {
            Some(Section::Values)
        } else {
            None
        }
    }

    /// Returns true if the token is the unescaped word of a section that comes after the section `before`, such as `data` after
    /// `Variables`.
    pub fn opens_section_after(self, before: Section) -> bool
        ensures { result ≡ opens_section_after before (lexeme_of self.entry) }
    {
        self.section()
            .is_some_and(|section| before.number() < section.number())
    }
}

/// Returns true if a token of this kind is a mark: one of `: ; = , ( ) }`.
fn is_mark_kind(kind: TokenKind) -> bool
    ensures { result ≡ is_mark_kind kind }
{
    matches!(kind, TokenKind::Mark)
}

/// Returns true if a token of this kind is a number, good or bad.
fn is_number(kind: TokenKind) -> bool
    ensures { result ≡ is_number kind }
{
    matches!(kind, TokenKind::Number)
}
