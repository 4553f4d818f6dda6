//! The tokens of a text: what each of them is, and which bytes it takes.

use crate::parsing::{between, halves, push_word};
use cdl_tokens::{Scanner, Token, TokenKind};
use std::alloc::{AllocError, Global};
use std::test::*;

/// Texts, and their tokens: the kind of each, and the offsets at which it begins and ends.
const TOKENS: &[u8] = b"\
    |\n\
    # only the first token can be an opening\n\
    netcdf{|Opening 0-7\n\
    netcdf {}|Opening 0-8 Mark 8-9\n\
    netcdf a {^ x^;} ^|Opening 0-10 Word 12-13 Mark 14-15 Mark 15-16\n\
    netcdf^ a\\{b { x|Opening 0-14 Word 15-16\n\
    \x20//^netcdf{|Opening 4-11\n\
    netcdf|Word 0-6\n\
    netcdfx {|Word 0-7 Bad 8-9\n\
    Netcdf {|Word 0-6 Bad 7-8\n\
    netcdf x|Bad 0-8\n\
    netcdf \\|Bad 0-8\n\
    a netcdf{|Word 0-1 Word 2-8 Bad 8-9\n\
    ;netcdf {|Mark 0-1 Word 1-7 Bad 8-9\n\
    # words\n\
    a|Word 0-1\n\
    a b|Word 0-1 Word 2-3\n\
    _;|Word 0-1 Mark 1-2\n\
    a1|Word 0-2\n\
    a+|Word 0-2\n\
    a,|Word 0-1 Mark 1-2\n\
    a/b|Word 0-1 Bad 1-2 Word 2-3\n\
    a.b@c+d-e_1 |Word 0-11\n\
    \xc3\xa9 |Word 0-2\n\
    \\a|Word 0-2\n\
    \\1\\ b|Word 0-5\n\
    a\\\\|Word 0-3\n\
    a\\|Word 0-1 Bad 1-2\n\
    a\\^|Word 0-1 Bad 1-2\n\
    \\|Bad 0-1\n\
    \\^|Bad 0-1\n\
    # numbers\n\
    1|Number 0-1\n\
    -1|Number 0-2\n\
    +1|Number 0-2\n\
    .5|Number 0-2\n\
    -.9|Number 0-3\n\
    +.5;|Number 0-3 Mark 3-4\n\
    1.5e3_x|Number 0-7\n\
    -0x1F,|Number 0-5 Mark 5-6\n\
    1e+5|Number 0-2 Number 2-4\n\
    1a-b|Number 0-2 Bad 2-3 Word 3-4\n\
    1@|Number 0-1 Bad 1-2\n\
    # a sign or a point that no digit follows\n\
    .|Bad 0-1\n\
    -|Bad 0-1\n\
    -.|Bad 0-1 Bad 1-2\n\
    .a|Bad 0-1 Word 1-2\n\
    -a|Bad 0-1 Word 1-2\n\
    -a1|Bad 0-1 Word 1-3\n\
    -.a|Bad 0-1 Bad 1-2 Word 2-3\n\
    .-1|Bad 0-1 Number 1-3\n\
    ..1|Bad 0-1 Number 1-3\n\
    --1|Bad 0-1 Number 1-3\n\
    +-.1|Bad 0-1 Number 1-4\n\
    ,.1|Mark 0-1 Number 1-3\n\
    # gaps\n\
    \x20a|Word 1-2\n\
    \x09|\n\
    ^^|\n\
    //|\n\
    // c^x|Word 5-6\n\
    //\x0d^x|Word 4-5\n\
    a//|Word 0-1\n\
    ;//|Mark 0-1\n\
    /|Bad 0-1\n\
    / /|Bad 0-1 Bad 2-3\n\
    x/|Word 0-1 Bad 1-2\n\
    {/|Bad 0-1 Bad 1-2\n\
    # strings\n\
    \"\"|Text 0-2\n\
    \"a\"b\"|Text 0-3 Word 3-4 Bad 4-5\n\
    \"a\\\"b\" c|Text 0-6 Word 7-8\n\
    \"\\\\\"x|Text 0-4 Word 4-5\n\
    \"a^b\"|Text 0-5\n\
    \"|Bad 0-1\n\
    \"a|Bad 0-2\n\
    \"a\\|Bad 0-3\n\
    \"a\\\"|Bad 0-4\n\
    \"\\x\"|Bad 0-4\n\
    \"\\400\"x|Bad 0-6 Word 6-7\n\
    # other bytes\n\
    'a'|Bad 0-1 Word 1-2 Bad 2-3\n\
    [#|Bad 0-1 Bad 1-2\n\
    \x00\x7f|Bad 0-1 Bad 1-2\n\
    ";

/// The tokens of the text before its end.
fn tokens_said(alloc: Global, text: &[u8]) -> Result<String, AllocError> {
    let mut said = String::new(alloc);
    let mut scanner = Scanner::new(text);
    for _ in 0..text.len() {
        let token = scanner.token();
        if token.kind.is_end() {
            break;
        }
        let one = format!(in alloc; "{:?} {}-{}", token.kind, token.first, token.past)?;
        push_word(&mut said, one.as_str())?;
    }
    Ok(said)
}

#[test]
fn texts_have_their_tokens(rt: HostRuntime) -> Result<(), AllocError> {
    for row in TOKENS.split(|byte| *byte == b'\n') {
        if let Some((part, want)) = halves(&rt, row) {
            let text = between(rt.alloc(), ("", ""), part)?;
            let found = tokens_said(rt.alloc(), text.as_slice())?;
            assert!(rt; found.as_bytes() == want, "{found}: {row:?}");
        }
    }
    Ok(())
}

/// What stands before a byte and after it, the kind of the first token there and how many bytes it has, and the bytes for which it is so:
/// ranges, one after the other, the first byte of each and the last.
static CLASSES: &[(&str, &str, TokenKind, usize, &[u8])] = &[
    ("", "", TokenKind::End, 0, b"\x09\x0d  "),
    ("", "", TokenKind::Number, 1, b"09"),
    ("", "1", TokenKind::Number, 2, b"++-.09"),
    ("1", "", TokenKind::Number, 2, b"..09AZ__az"),
    ("", "", TokenKind::Word, 1, b"AZ__az\x80\xff"),
    ("a", "", TokenKind::Word, 2, b"++-.09@Z__az\x80\xff"),
    ("\\", "", TokenKind::Word, 2, b" ~\x80\xff"),
    ("", "", TokenKind::Mark, 1, b"(),,:;==}}"),
    // hexadecimal digits; and octal ones, after which the number is too great (after a backslash, the string has no end)
    ("\"\\x", "\"", TokenKind::Text, 5, b"09AFaf"),
    ("\"\\40", "\"", TokenKind::Bad, 6, b"07\\\\"),
];

/// The first token of a text of a byte between two parts.
fn first_token(alloc: Global, before: &str, byte: u8, after: &str) -> Result<Token, AllocError> {
    let mut text = Vec::from_slice(alloc, before.as_bytes())?;
    text.push(byte)?;
    text.extend_from_slice(after.as_bytes())?;
    Ok(Scanner::new(text.as_slice()).token())
}

/// Returns true if the byte is in one of the ranges.
fn is_in(ranges: &[u8], byte: u8) -> bool {
    let mut pairs = ranges.chunks(2);
    pairs.any(|pair| matches!(pair, [first, last] if *first <= byte && byte <= *last))
}

#[test]
fn each_byte_is_in_its_classes(rt: HostRuntime) -> Result<(), AllocError> {
    for (before, after, kind, len, ranges) in CLASSES {
        for byte in 0..=255 {
            let token = first_token(rt.alloc(), *before, byte, *after)?;
            let found_len = token.past.saturating_sub(token.first);
            let is_found = token.kind == *kind && found_len == *len;
            assert!(rt; is_found == is_in(*ranges, byte), "{byte}: {token:?}");
        }
    }
    Ok(())
}
