//! The statements and the tokens of a text.

use crate::parsing::{halves, push_word};
use cdl_statements::{CdlKind, Cutter};
use cdl_tokens::{Scanner, Token, TokenKind};
use cdl_values::ReadError;
use nc_base::Version;
use std::alloc::{AllocError, Global};
use std::test::*;

/// Texts, and how many tokens each of their statements has.
const STATEMENTS: &[u8] = br#"
|1
netcdf t|1 1
netcdf t {|1 1
netcdf t { x|1 1 1
netcdf t { x }|1 2 1
netcdf t {} y|1 1 1 1
netcdf t { } }|1 1 1 1
netcdf t { x = 3 ; } y|1 4 1 1 1
netcdf t { ; ; }|1 1 1 1 1
netcdf t { ; x ; }|1 1 2 1 1
netcdf t { } a ; } b|1 1 4 1
x ; netcdf t {|2 3 1
# the mark of a section stands by itself where a statement may begin
netcdf t { dimensions: x = 3 }|1 2 4 1
netcdf t {dimensions: x = 3 ; variables:data:}|1 2 4 2 2 1 1
netcdf t {dimensions x ; data }|1 3 2 1
netcdf t { data|1 1 1
netcdf t { data:|1 2 1
netcdf t { \data : x ;|1 4 1
netcdf t { x data : ;|1 4 1
netcdf t { dimension : ;|1 3 1
netcdf t { : data = 1 ; a : b|1 5 3 1
netcdf t { data ; x|1 2 1 1
netcdf t { data data : x ;|1 5 1
netcdf t { data } x ;|1 4 1
data: x = 1, 2; ; }}|2 6 1 1 1 1
# tokens of no other kind end a statement, or stand by themselves
netcdf t { = x ; y ;|1 3 2 1
netcdf t { ( x ; y ;|1 3 2 1
netcdf t { = : x ;|1 4 1
netcdf t { data 5 : x ;|1 5 1
netcdf t { 5 : x ;|1 4 1
netcdf t { "data" : x ;|1 4 1
netcdf t { @ : x ;|1 4 1
netcdf t { data @ : x ;|1 5 1
"#;

/// How many tokens each statement of the text has, and `more` if one comes after the last.
fn statements_said(alloc: Global, text: &[u8]) -> Result<String, AllocError> {
    let mut cutter = Cutter::new(text, Version::Cdf1);
    let mut tokens = Vec::new(alloc);
    let mut said = String::new(alloc);
    // each has a byte, but for the end of the text
    for _ in 0..=text.len() {
        if !cutter.next(&mut tokens)? {
            break;
        }
        let len = format!(in alloc; "{}", tokens.len())?;
        push_word(&mut said, len.as_str())?;
    }
    if cutter.next(&mut tokens)? || cutter.next(&mut tokens)? || !tokens.is_empty() {
        push_word(&mut said, "more")?;
    }
    Ok(said)
}

#[test]
fn texts_are_cut_into_statements(rt: HostRuntime) -> Result<(), AllocError> {
    for row in STATEMENTS.split(|byte| *byte == b'\n') {
        if let Some((text, want)) = halves(&rt, row) {
            let found = statements_said(rt.alloc(), text)?;
            assert!(rt; found.as_bytes() == want, "{found}: {row:?}");
        }
    }
    Ok(())
}

#[test]
fn advancing_ends_where_statements_end(rt: HostRuntime) {
    // an opening, `x = 3 ;`, the brace and the end
    const ENDS: &[bool] = &[true, false, false, false, true, true, true];
    let mut cutter = Cutter::new(b"netcdf t { x = 3 ; }", Version::Cdf1);
    for ends in ENDS {
        assert!(rt; !cutter.is_done() && cutter.advance() == *ends);
    }
    assert!(rt; cutter.is_done());
}

#[test]
fn tokens_have_kinds_places_and_lines(rt: HostRuntime) {
    const TEXT: &str = "netcdf t\n{ // a comment\n\\data=\"b\n\",-0x1f;\"";
    // the kind of each token, its line, and the offsets at which it begins and ends
    static TOKENS: &[(TokenKind, u64, usize, usize)] = &[
        (TokenKind::Opening, 1, 0, 10),
        (TokenKind::Word, 3, 24, 29),
        (TokenKind::Mark, 3, 29, 30),
        (TokenKind::Text, 3, 30, 34),
        (TokenKind::Mark, 4, 34, 35),
        (TokenKind::Number, 4, 35, 40),
        (TokenKind::Mark, 4, 40, 41),
        (TokenKind::Bad, 4, 41, 42),
        (TokenKind::End, 4, 42, 42),
        (TokenKind::End, 4, 42, 42),
    ];
    let mut scanner = Scanner::new(TEXT.as_bytes());
    for (kind, line, first, past) in TOKENS {
        let want = Token {
            kind: *kind,
            line: *line,
            first: *first,
            past: *past,
        };
        let found = scanner.token();
        assert!(rt; found == want, "{found:?}");
    }
}

/// Returns true if these are the words of the error.
fn has_words(alloc: Global, error: ReadError, words: &str) -> Result<bool, AllocError> {
    Ok(format!(in alloc; "{error}")?.as_str() == words)
}

/// The words stand in a contract, but it allows a call that errs.
#[test]
fn errors_of_statements_are_displayed(rt: HostRuntime) -> Result<(), AllocError> {
    let fault = ReadError::Fault(CdlKind::BadNumber);
    assert!(rt; has_words(rt.alloc(), fault, "bad number")?);
    assert!(rt; has_words(rt.alloc(), ReadError::OutOfMemory, "out of memory")?);
    Ok(())
}
