//! The tokens of a text, one at a time.

ghost use Rattle.std.specs.Prelude.{◌≡◌, ◌+◌, ◌≤◌, ◌<◌, ◌==◌, length, IfSome, count_by, drop, slice_index, take, nat_lt, false, true, Some, None};
ghost use Rattle.cdl_tokens.specs.code.PlainTokens.{IsComma, IsListed, IsPlainString, IsUnderscore};
ghost use Rattle.cdl_tokens.specs.Scan.{gap, scan, token};
ghost use Rattle.cdl_tokens.specs.Tokens.{is_end, line_at, raw, tokens};

use crate::bytes::{byte_at, is_blank, is_digit, is_mark};
use crate::numeral::Numeral;
use crate::plain_number::plain_number;
use crate::plain_string::plain_string_len;
use crate::scan::{begins_number, number_len, scan};
use crate::search::count_of;
use crate::token::{Token, TokenKind};
use crate::underscore::begins_underscore;

/// Reads the tokens of a text one after the other. It stands at an offset, that of the next byte to read.
#[derive(Clone, Copy)]
pub struct Scanner<'a> {
    text: &'a [u8],
    /// The offset of the next byte to read.
    at: usize,
    /// The line of the next byte, from 1 on.
    line: u64,
    /// True if no token has been read.
    at_start: bool,
    ghost inside: { at ≤ length text.now },
    ghost on_line: { line ≡ line_at text.now at },
}

/// A token of a list, and the comma after it.
#[derive(Clone, Copy)]
pub struct ListedToken {
    pub token: Token,
    pub comma: Token,
}

/// A plain number of a list, and the comma after it.
#[derive(Clone, Copy)]
pub struct ListedNumber {
    pub numeral: Numeral,
    /// The token of the number. It is for contracts: no caller reads it.
    pub number: Token,
    pub comma: Token,
}

impl<'a> Scanner<'a> {
    ghost use Rattle.std.specs.Prelude.{◌∷◌};
    ghost use Rattle.cdl_tokens.specs.code.Scanners.{comma_before, followed, is_token, left, offset_of, text_of, token_before};

    /// Creates a scanner at the start of a text.
    pub fn new(text: &'a [u8]) -> Scanner<'a>
        ensures left { left result ≡ tokens text.now }
        ensures text { text_of result ≡ text.now }
    {
        Scanner {
            text,
            at: 0,
            line: 1,
            at_start: true,
        }
    }

    /// Returns the whole text, also the part that has been read.
    pub fn text(&self) -> &'a [u8]
        ensures { result.now ≡ text_of self.now }
    {
        self.text
    }

    /// Skips white space and comments, and reads the next token. Bytes that are no token give one of the kind `Bad`, and the end of the
    /// text gives one of the kind `End`, each time.
    ///
    /// White space, marks and numbers, which long lists consist of, are read here; [`other_token`](Scanner::other_token) reads the others.
    #[inline(always)]
    pub fn token(&mut self) -> Token
        ensures token { left self.old ≡ followed result result.kind (left self.new) }
        ensures text { text_of self.new ≡ text_of self.old }
        ensures moves { is_end result.kind ≡ false → offset_of self.old < offset_of self.new }
        ensures stays { is_end result.kind ≡ true → left self.new ≡ left self.old }
    {
        self.skip_blanks();
        let (_, rest) = self.text.split_at(self.at);
        let b = byte_at(rest, 0);
        if is_digit(b) {
            self.take(TokenKind::Number, number_len(rest))
        } else if is_mark(b) {
            self.take(TokenKind::Mark, 1)
        } else if begins_number(rest) {
            self.take(TokenKind::Number, number_len(rest))
        } else {
            self.other_token()
        }
    }

    /// Reads a plain number (decimal, at most 19 digits after an optional minus, with no suffix but `b`, `s` or `l`) and the comma after
    /// it, if they come next with only white space before each. Otherwise returns `None`, and the scanner stays where it is. No clause says
    /// when: a caller then reads the token in another way.
    #[inline(always)]
    #[tactic(auto, using(crate::proofs::PlainTokens::scan_number, crate::proofs::PlainTokens::number_flat))]
    pub fn number_and_comma(&mut self) -> Option<ListedNumber>
        ensures tokens { IfSome result (λ l. left self.old ≡ l.number ∷ l.comma ∷ left self.new) }
        ensures listed { IfSome result (λ l. IsListed (text_of self.old) l) }
        ensures before { IfSome result (λ l. l.comma ≡ comma_before self.new) }
        ensures text { text_of self.new ≡ text_of self.old }
        ensures moves { IfSome result (λ l. offset_of self.old < offset_of self.new) }
        ensures stays { result ≡ None → self.new ≡ self.old }
    {
        let mut scanner = *self;
        scanner.skip_to_number();
        let (_, rest) = scanner.text.split_at(scanner.at);
        let plain = plain_number(rest)?;
        let number = scanner.take(TokenKind::Number, plain.len);
        let comma = scanner.take_or_find_comma(plain.at_comma)?;
        *self = scanner;
        Some(ListedNumber {
            numeral: plain.numeral,
            number,
            comma,
        })
    }

    /// Reads a string without an escape or a line feed and the comma after it, if they come next with only white space before each.
    /// Otherwise returns `None` (no clause says when), and the scanner stays where it is. It suits short strings, such as rows of
    /// characters.
    #[inline(always)]
    pub fn string_and_comma(&mut self) -> Option<ListedToken>
        ensures tokens { IfSome result (λ l. left self.old ≡ l.token ∷ l.comma ∷ left self.new) }
        ensures plain { IfSome result (λ l. IsPlainString (text_of self.old) l.token) }
        ensures quoted { IfSome result (λ l. l.token.first + 2 ≤ l.token.past) }
        ensures within { IfSome result (λ l. l.token.past ≤ length (text_of self.old)) }
        ensures comma { IfSome result (λ l. IsComma (text_of self.old) l.comma) }
        ensures before { IfSome result (λ l. l.comma ≡ comma_before self.new) }
        ensures text { text_of self.new ≡ text_of self.old }
        ensures moves { IfSome result (λ l. offset_of self.old < offset_of self.new) }
        ensures stays { result ≡ None → self.new ≡ self.old }
    {
        let mut scanner = *self;
        scanner.skip_blanks();
        let token = scanner.plain_string(false)?;
        let comma = scanner.comma()?;
        *self = scanner;
        Some(ListedToken { token, comma })
    }

    /// Reads a `_` and the comma after it, if they come next with only white space before each. Otherwise returns `None` (no clause says
    /// when), and the scanner stays where it is.
    #[inline(always)]
    pub fn underscore_and_comma(&mut self) -> Option<ListedToken>
        ensures tokens { IfSome result (λ l. left self.old ≡ l.token ∷ l.comma ∷ left self.new) }
        ensures underscore { IfSome result (λ l. IsUnderscore (text_of self.old) l.token) }
        ensures comma { IfSome result (λ l. IsComma (text_of self.old) l.comma) }
        ensures before { IfSome result (λ l. l.comma ≡ comma_before self.new) }
        ensures text { text_of self.new ≡ text_of self.old }
        ensures moves { IfSome result (λ l. offset_of self.old < offset_of self.new) }
        ensures stays { result ≡ None → self.new ≡ self.old }
    {
        let mut scanner = *self;
        scanner.skip_to_number();
        let (_, rest) = scanner.text.split_at(scanner.at);
        if !begins_underscore(rest) {
            return None;
        }
        let token = scanner.take(TokenKind::Word, 1);
        let comma = scanner.comma()?;
        *self = scanner;
        Some(ListedToken { token, comma })
    }

    /// Skips white space and comments, and reads the next token, of any kind, and the comma after it, if only white space stands between
    /// the two. Otherwise, and at the end of the text, returns `None` (no clause says when), and the scanner stays where it is.
    #[inline(always)]
    pub fn token_and_comma(&mut self) -> Option<ListedToken>
        ensures tokens { IfSome result (λ l. left self.old ≡ l.token ∷ l.comma ∷ left self.new) }
        ensures comma { IfSome result (λ l. IsComma (text_of self.old) l.comma) }
        ensures before { IfSome result (λ l. l.comma ≡ comma_before self.new) }
        ensures text { text_of self.new ≡ text_of self.old }
        ensures moves { IfSome result (λ l. offset_of self.old < offset_of self.new) }
        ensures stays { result ≡ None → self.new ≡ self.old }
    {
        let mut scanner = *self;
        let token = scanner.token();
        if token.kind.is_end() {
            return None;
        }
        let comma = scanner.comma()?;
        *self = scanner;
        Some(ListedToken { token, comma })
    }

    /// Returns the token of the comma that the scanner has just passed: the byte before the one where it stands. Call it only after a call
    /// that passed a comma: the byte isn't checked.
    #[inline(always)]
    pub fn comma_before(&self) -> Token
        ensures { result ≡ comma_before self.now }
    {
        Token {
            kind: TokenKind::Mark,
            line: self.line,
            first: self.at.saturating_sub(1),
            past: self.at,
        }
    }

    /// Skips white space. If a comma comes next, passes it and returns its token. Otherwise returns `None`, and the white space stays
    /// skipped.
    #[inline(always)]
    fn comma(&mut self) -> Option<Token>
        ensures token { IfSome result (λ c. left self.old ≡ c ∷ left self.new) }
        ensures comma { IfSome result (λ c. IsComma (text_of self.old) c) }
        ensures before { IfSome result (λ c. c ≡ comma_before self.new) }
        ensures text { text_of self.new ≡ text_of self.old }
        ensures on { offset_of self.old ≤ offset_of self.new }
    {
        if self.skip_to_comma() {
            Some(self.take_comma())
        } else {
            None
        }
    }

    /// Passes the comma that comes next, and returns its token. If `at_comma` is true, the next byte is the comma, and isn't looked at.
    /// Otherwise skips the white space before the comma by [`comma`](Scanner::comma); if no comma comes then, returns `None`, and the white
    /// space stays skipped. Needs an `at_comma` that is true only if the next byte is a comma.
    #[inline(always)]
    fn take_or_find_comma(&mut self, at_comma: bool) -> Option<Token>
        requires { at_comma ≡ true → slice_index (text_of self.old) (offset_of self.old) ≡ 0x2c }
        ensures token { IfSome result (λ c. left self.old ≡ c ∷ left self.new) }
        ensures comma { IfSome result (λ c. IsComma (text_of self.old) c) }
        ensures before { IfSome result (λ c. c ≡ comma_before self.new) }
        ensures text { text_of self.new ≡ text_of self.old }
        ensures on { offset_of self.old ≤ offset_of self.new }
    {
        if at_comma {
            Some(self.take_comma())
        } else {
            self.comma()
        }
    }

    /// Passes the next byte, and returns its token. Needs a comma there: the byte isn't looked at.
    #[inline(always)]
    #[tactic(auto, using(crate::proofs::PlainTokens::comma_at))]
    fn take_comma(&mut self) -> Token
        requires { slice_index (text_of self.old) (offset_of self.old) ≡ 0x2c }
        ensures token { left self.old ≡ result ∷ left self.new }
        ensures comma { IsComma (text_of self.old) result }
        ensures before { result ≡ comma_before self.new }
        ensures text { text_of self.new ≡ text_of self.old }
        ensures moves { offset_of self.old < offset_of self.new }
    {
        self.take(TokenKind::Mark, 1)
    }

    /// Skips white space, but no comment.
    fn skip_blanks(&mut self)
        ensures left { left self.new ≡ left self.old }
        ensures text { text_of self.new ≡ text_of self.old }
        ensures on { offset_of self.old ≤ offset_of self.new }
    {
        while self.skip_space() || self.skip_blank() {}
    }

    /// Skips the next byte if it is white space, and returns true if it was.
    #[inline(always)]
    #[tactic(auto, using(crate::proofs::PlainTokens::blank_at, crate::proofs::Scans::left_of, crate::proofs::PlainTokens::past_blank))]
    fn skip_blank(&mut self) -> bool
        ensures left { left self.new ≡ left self.old }
        ensures text { text_of self.new ≡ text_of self.old }
        ensures on { offset_of self.old ≤ offset_of self.new }
        ensures moves { result ≡ true → offset_of self.old < offset_of self.new }
    {
        if self.at < self.text.len() && is_blank(self.text[self.at]) {
            *self = self.after_gap(1);
            return true;
        }
        false
    }

    /// Skips white space as [`skip_blanks`](Scanner::skip_blanks) does, but is quicker if there is one space or nothing, as mostly before a
    /// number of a list.
    #[inline(always)]
    fn skip_to_number(&mut self)
        ensures left { left self.new ≡ left self.old }
        ensures text { text_of self.new ≡ text_of self.old }
        ensures on { offset_of self.old ≤ offset_of self.new }
    {
        if self.stands_at_token() || self.skip_space() && self.stands_at_token() {
            return;
        }
        self.skip_blanks();
    }

    /// Returns true if the next byte is greater than a space, as the first byte of every good token is. At the end of the text returns
    /// false.
    #[inline(always)]
    fn stands_at_token(&self) -> bool
        ensures { result ≡ nat_lt 0x20 (slice_index (text_of self.now) (offset_of self.now)) }
    {
        self.at < self.text.len() && self.text[self.at] > b' '
    }

    /// Skips the next byte if it is a space, and returns true if it was one.
    #[inline(always)]
    #[tactic(auto, using(crate::proofs::PlainTokens::blank_at, crate::proofs::Scans::left_of, crate::proofs::PlainTokens::past_blank))]
    fn skip_space(&mut self) -> bool
        ensures left { left self.new ≡ left self.old }
        ensures text { text_of self.new ≡ text_of self.old }
        ensures on { offset_of self.old ≤ offset_of self.new }
        ensures moves { result ≡ true → offset_of self.old < offset_of self.new }
    {
        if self.at < self.text.len() && self.text[self.at] == b' ' {
            *self = self.after_gap(1);
            return true;
        }
        false
    }

    /// Skips white space, but no comment, and returns true only if a comma comes next. The comma isn't passed. It is quick if there is no
    /// white space.
    #[inline(always)]
    fn skip_to_comma(&mut self) -> bool
        ensures left { left self.new ≡ left self.old }
        ensures text { text_of self.new ≡ text_of self.old }
        ensures on { offset_of self.old ≤ offset_of self.new }
        ensures inside { result ≡ true → offset_of self.new < length (text_of self.new) }
        ensures comma { result ≡ true → slice_index (text_of self.new) (offset_of self.new) ≡ 0x2c }
    {
        if self.is_at_comma() {
            return true;
        }
        self.skip_blanks();
        self.is_at_comma()
    }

    /// Returns true only if the next byte is a comma.
    #[inline(always)]
    fn is_at_comma(&self) -> bool
        ensures inside { result ≡ true → offset_of self.now < length (text_of self.now) }
        ensures comma { result ≡ true → slice_index (text_of self.now) (offset_of self.now) ≡ 0x2c }
    {
        self.at < self.text.len() && self.text[self.at] == b','
    }

    /// Passes the token of this kind and of `len` bytes that begins at the next byte, and returns it. Needs the kind and the length that
    /// [`scan`] would find there, and a token without a line feed: the bytes aren't looked at, and the line stays the same.
    #[inline]
    #[tactic(auto, using(crate::proofs::PlainTokens::same_line, crate::proofs::PlainTokens::past_token))]
    fn take(&mut self, kind: TokenKind, len: usize) -> Token
        requires here { scan self.old.at_start (drop self.old.at self.old.text.now) ≡ token kind len }
        requires some { 0 < len }
        requires within { self.old.at + len ≤ length self.old.text.now }
        requires kind { is_token (Some kind) ≡ true }
        requires flat { count_by (λ b. b == 0x0a) (take len (drop self.old.at self.old.text.now)) ≡ 0 }
        ensures kind { result.kind ≡ kind }
        ensures token { left self.old ≡ followed result result.kind (left self.new) }
        ensures before { result ≡ token_before kind len self.new }
        ensures at { offset_of self.new ≡ offset_of self.old + len }
        ensures bytes { raw self.old.text.now result ≡ take len (drop self.old.at self.old.text.now) }
        ensures text { text_of self.new ≡ text_of self.old }
        ensures moves { offset_of self.old < offset_of self.new }
    {
        let (first, past) = (self.at, self.at + len);
        let line = self.line;
        *self = Scanner {
            text: self.text,
            at: past,
            line,
            at_start: false,
        };
        Token {
            kind,
            line,
            first,
            past,
        }
    }

    /// Reads the next token, of any kind, and skips the white space and comments before it. [`token`](Scanner::token) calls it for each
    /// token that it doesn't read itself. At the end of the text it returns a token of the kind `End`.
    #[inline(never)]
    fn other_token(&mut self) -> Token
        ensures token { left self.old ≡ followed result result.kind (left self.new) }
        ensures text { text_of self.new ≡ text_of self.old }
        ensures moves { is_end result.kind ≡ false → offset_of self.old < offset_of self.new }
        ensures stays { is_end result.kind ≡ true → left self.new ≡ left self.old }
    {
        match self.plain_string(true) {
            Some(token) => token,
            None => self.scanned_token(),
        }
    }

    /// Reads a string without an escape or a line feed, if it begins at the next byte. Otherwise returns `None` (no clause says when), and
    /// the scanner stays where it is. `is_long` is true if the string may have thousands of bytes: it changes only how they are searched.
    #[inline(always)]
    fn plain_string(&mut self, is_long: bool) -> Option<Token>
        ensures token { IfSome result (λ t. left self.old ≡ t ∷ left self.new) }
        ensures plain { IfSome result (λ t. IsPlainString (text_of self.old) t) }
        ensures quoted { IfSome result (λ t. t.first + 2 ≤ t.past) }
        ensures within { IfSome result (λ t. t.past ≤ length (text_of self.old)) }
        ensures text { text_of self.new ≡ text_of self.old }
        ensures moves { IfSome result (λ t. offset_of self.old < offset_of self.new) }
        ensures stays { result ≡ None → self.new ≡ self.old }
    {
        let (_, rest) = self.text.split_at(self.at);
        let len = plain_string_len(rest, is_long)?;
        Some(self.take(TokenKind::Text, len))
    }

    /// Skips white space and comments, and reads the next token, of any kind, by [`scan`]. At the end of the text it returns a token of the
    /// kind `End`.
    #[tactic(auto, using(crate::proofs::Scans::step_token, crate::proofs::Scans::left_of, crate::proofs::Scans::step_gap, crate::proofs::Scans::step_end))]
    fn scanned_token(&mut self) -> Token
        ensures token { left self.old ≡ followed result result.kind (left self.new) }
        ensures text { text_of self.new ≡ text_of self.old }
        ensures moves { is_end result.kind ≡ false → offset_of self.old < offset_of self.new }
        ensures stays { is_end result.kind ≡ true → left self.new ≡ left self.old }
    {
        while self.at < self.text.len() {
            let (_, rest) = self.text.split_at(self.at);
            let found = scan(self.at_start, rest);
            let (first, line) = (self.at, self.line);
            match found.kind {
                Some(kind) => {
                    *self = self.after_token(found.len);
                    return Token {
                        kind,
                        line,
                        first,
                        past: self.at,
                    };
                }
                None => *self = self.after_gap(found.len),
            }
        }
        Token {
            kind: TokenKind::End,
            line: self.line,
            first: self.at,
            past: self.at,
        }
    }

    /// Returns the scanner after the gap that comes next, of `len` bytes: one of white space, or a comment, which has no line feed. So the
    /// line is one more only if the first byte is a line feed. Needs a gap of this length there, as [`scan`] finds it.
    fn after_gap(self, len: usize) -> Scanner<'a>
        requires gap { scan self.at_start (drop self.at self.text.now) ≡ gap len }
        requires some { self.at < length self.text.now }
        requires within { self.at + len ≤ length self.text.now }
        ensures text { result.text.now ≡ self.entry.text.now }
        ensures at { result.at ≡ self.entry.at + len }
        ensures at_start { result.at_start ≡ self.entry.at_start }
    {
        let is_feed = self.text[self.at] == b'\n';
        Scanner {
            text: self.text,
            at: self.at + len,
            line: self.line + is_feed as u64,
            at_start: self.at_start,
        }
    }

    /// Returns the scanner after the next `len` bytes, which are a token. Each line feed among them adds one to its line. Needs so many
    /// bytes.
    fn after_token(self, len: usize) -> Scanner<'a>
        requires { self.at + len ≤ length self.text.now }
        ensures text { result.text.now ≡ self.entry.text.now }
        ensures at { result.at ≡ self.entry.at + len }
        ensures at_start { result.at_start ≡ false }
    {
        let (_, rest) = self.text.split_at(self.at);
        let (passed, _) = rest.split_at(len);
        Scanner {
            text: self.text,
            at: self.at + len,
            line: self.line + count_of(passed, b'\n') as u64,
            at_start: false,
        }
    }
}
