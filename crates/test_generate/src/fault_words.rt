//! The words of faults: those of their lines, and what `Display` writes.

use cdl_parse::{CdlFault, CdlKind};
use devices::{MemSink, Sink};
use ncgen::{GenFault, TextFault, fault_line};
use std::alloc::{AllocError, Global};
use std::test::*;

/// The kinds of faults of a CDL text, and their words.
static KINDS: &[(CdlKind, &str)] = &[
    (CdlKind::BadToken, "bad token"),
    (CdlKind::BadNumber, "bad number"),
    (CdlKind::Syntax, "syntax"),
    (CdlKind::BadName, "bad name"),
    (CdlKind::DuplicateName, "duplicate name"),
    (CdlKind::UnknownDimension, "unknown dimension"),
    (CdlKind::UnknownVariable, "unknown variable"),
    (CdlKind::FloatingType, "floating type"),
    (CdlKind::UnknownType, "unknown type"),
    (CdlKind::ZeroDimension, "zero dimension"),
    (CdlKind::TwoRecordDims, "two record dimensions"),
    (CdlKind::BadShape, "bad shape"),
    (CdlKind::MixedConstants, "mixed constants"),
    (CdlKind::NumberRange, "number out of range"),
    (CdlKind::WrongKind, "wrong kind of value"),
    (CdlKind::TooManyValues, "too many values"),
    (CdlKind::StringTooLong, "string too long"),
    (CdlKind::DuplicateData, "duplicate data"),
    (CdlKind::TooLarge, "too large"),
];

/// Returns true if the fault is displayed as these words, and its line for the text `a` has them.
fn has_words(alloc: Global, fault: GenFault, words: &str) -> Result<bool, AllocError> {
    let mut line = MemSink::new(alloc);
    let written = fault_line(&mut line, b"a", &fault).is_ok();
    let want = format!(in alloc; "ncgen: a: {words}\n")?;
    let said = format!(in alloc; "{fault}")?;
    Ok(written && line.as_slice() == want.as_bytes() && said.as_str() == words)
}

#[test]
fn faults_have_words(rt: HostRuntime) -> Result<(), AllocError> {
    for (kind, words) in KINDS {
        let fault = CdlFault {
            line: 12,
            kind: *kind,
        };
        let words = format!(in rt.alloc(); "line 12: {words}")?;
        assert!(rt;
            has_words(rt.alloc(), GenFault::Cdl(fault), words.as_str())?,
            "{words}"
        );
    }
    let alloc = rt.alloc();
    let lacking = CdlFault {
        line: 0,
        kind: CdlKind::OutOfMemory,
    };
    assert!(rt; has_words(alloc, GenFault::Cdl(lacking), "out of memory")?);
    assert!(rt; has_words(alloc, GenFault::OffsetTooLarge, "offset too large")?);
    assert!(rt; has_words(alloc, GenFault::WriteFailed, "write failed")?);
    let found = format!(in alloc; "{}, {}", TextFault::ReadFailed, TextFault::CdlTooLong)?;
    assert!(rt; found.as_str() == "read failed, CDL text too long");
    let found = format!(in alloc; "{}, {}", TextFault::OutOfMemory, CdlKind::OutOfMemory)?;
    assert!(rt; found.as_str() == "out of memory, out of memory");
    Ok(())
}
