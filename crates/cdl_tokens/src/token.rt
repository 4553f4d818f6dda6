//! Tokens.

ghost use Rattle.std.specs.Prelude.{◌≡◌};
ghost use Rattle.cdl_tokens.specs.Tokens.{is_end, raw};

use crate::bytes::first_bytes;

/// What a token is.
#[derive(Clone, Copy, Debug, PartialEq, Eq)]
pub enum TokenKind {
    /// `netcdf`, the dataset's name and the opening brace.
    Opening,
    /// A name, a type, the word of a section, `unlimited` or `_`.
    Word,
    /// A token that begins as a number does. It may be no well-formed integer, such as `1.5` or `08`.
    Number,
    /// A string with its quotes, each of whose characters stands for a byte.
    Text,
    /// One of `: ; = , ( ) }`.
    Mark,
    /// Bytes that are no token: an opening without `{`, a string without an end or with a bad escape, or any other byte.
    Bad,
    /// The end of the text.
    End,
}

impl TokenKind {
    /// Returns true for the kind `End`, that of the token at the end of the text.
    pub fn is_end(self) -> bool
        ensures { result ≡ is_end self }
    {
        matches!(self, TokenKind::End)
    }
}

/// A token of a text.
#[derive(Clone, Copy, Debug, PartialEq, Eq)]
pub struct Token {
    pub kind: TokenKind,
    /// Its line: 1 plus the number of line feeds before it.
    pub line: u64,
    /// The offset of its first byte in the text.
    pub first: usize,
    /// The offset of the first byte after it.
    pub past: usize,
}

impl Token {
    /// Returns the token's bytes, as far as they lie in `text`: all of them if it is the text that the token was read from.
    #[inline(always)]
    pub fn bytes(self, text: &[u8]) -> &[u8]
        ensures { result.now ≡ raw text.now self }
    {
        if self.first <= self.past && self.past <= text.len() {
            return &text[self.first..self.past];
        }
        self.clipped_bytes(text)
    }

    /// Returns those of the token's bytes that `text` has. [`bytes`](Token::bytes) calls it if the token doesn't lie within
    /// `text`, which then isn't the text that the token was read from.
    #[inline(never)]
    fn clipped_bytes(self, text: &[u8]) -> &[u8]
        ensures { result.now ≡ raw text.now self }
    {
        let rest = if self.first < text.len() {
            &text[self.first..]
        } else {
            &[]
        };
        first_bytes(rest, self.past.saturating_sub(self.first))
    }
}
