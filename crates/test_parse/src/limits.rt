//! Long texts, the prefixes of a text, and datasets at the limits of sizes.

use crate::datasets::ONE_VARIABLE;
use crate::parsing::{fault_said, gives, joined};
use cdl_parse::{CdlFault, CdlKind, declared, parse};
use nc_base::{ListedArray, Version};
use std::alloc::{AllocError, Global};
use std::test::*;

/// The fault of the text in CDF-1 if its missing values are not filled in, or none.
fn declared_fault(alloc: Global, text: &[u8]) -> Option<CdlFault> {
    match declared(alloc, text, Version::Cdf1) {
        Ok(_) => None,
        Err(fault) => Some(fault),
    }
}

/// The number of line feeds in the bytes.
fn line_feeds(bytes: &[u8]) -> u64 {
    bytes.iter().filter(|byte| **byte == b'\n').count() as u64
}

/// The fault of the first `len` bytes of a text that begins with `netcdf t {`, and lacks its closing brace.
fn fault_of_prefix(len: usize) -> CdlKind {
    match len {
        7..=9 => CdlKind::BadToken,
        _ => CdlKind::Syntax,
    }
}

#[test]
fn each_prefix_of_a_text(rt: HostRuntime) -> Result<(), AllocError> {
    assert!(rt; ONE_VARIABLE.len() == 80);
    for len in 0..79 {
        let prefix = &ONE_VARIABLE[..len];
        let line = line_feeds(prefix).saturating_add(1);
        let want = fault_said(rt.alloc(), line, fault_of_prefix(len))?;
        gives(&rt, rt.alloc(), Version::Cdf1, prefix, want.as_bytes())?;
    }
    // all but the line feed at the end
    assert!(rt; parse(rt.alloc(), &ONE_VARIABLE[..79], Version::Cdf1).is_ok());
    Ok(())
}

#[test]
fn a_long_name(rt: HostRuntime) -> Result<(), AllocError> {
    let name = "n".repeat(rt.alloc(), 65536)?;
    let text = format!(in rt.alloc(); "netcdf t {{ dimensions: {name} = 3 ; }}")?;
    let want = format!(in rt.alloc(); "Known(0)\n{name} = 3")?;
    let (text, want) = (text.as_bytes(), want.as_bytes());
    gives(&rt, rt.alloc(), Version::Cdf1, text, want)
}

/// A list of 10,000 bytes and one of strings, with forty thousand line feeds in them, between them and after them, and then this list.
fn long_lists(alloc: Global, last: &str) -> Result<String, AllocError> {
    let feeds = "\n".repeat(alloc, 10000)?;
    let ones = "1, ".repeat(alloc, 10000)?;
    let letters = "a".repeat(alloc, 100)?;
    let (feeds, letters) = (feeds.as_str(), letters.as_str());
    let parts = [
        "netcdf t {\ndimensions: t = UNLIMITED, x = 6, y = 10000 ;\nvariables: byte b(t), c(x) ; char m(x, y), s(y) ;\ndata: b = ",
        ones.as_str(),
        feeds,
        "1 ",
        feeds,
        "; m = \"ab\", \"c\", ",
        feeds,
        "\"d\ne\", \"",
        letters,
        "\n",
        letters,
        "\", \"f\" ; s = \"",
        feeds,
        "\" ; c = ",
        last,
        " ;\n}\n",
    ];
    joined(alloc, &parts)
}

#[test]
fn faults_after_long_lists(rt: HostRuntime) -> Result<(), AllocError> {
    static ROWS: &[(&str, &str)] = &[
        ("1, 128, 3", "40006 NumberRange"),
        ("1, 2, 3, 4, 5, 6, 7, 8", "40006 TooManyValues"),
        ("1, 2, 3 4", "40006 Syntax"),
    ];
    for (last, want) in ROWS {
        let text = long_lists(rt.alloc(), *last)?;
        let (text, want) = (text.as_bytes(), want.as_bytes());
        gives(&rt, rt.alloc(), Version::Cdf1, text, want)?;
    }
    Ok(())
}

/// Returns true if this array lists these bytes.
fn lists(alloc: Global, array: ListedArray, want: &[u8]) -> Result<bool, AllocError> {
    Ok(array.into_bytes(alloc, 0)?.as_slice() == want)
}

#[test]
fn missing_values_are_not_declared(rt: HostRuntime) -> Result<(), AllocError> {
    const TEXT: &[u8] =
        b"netcdf t { dimensions: t = UNLIMITED, x = 2147483647 ; variables: short a(x), b(t, x), c(t) ; \
        data: b = 1 ; c = 2, 3 ; }";
    static WANT: &[&[u8]] = &[b"", b"\0\x01", b"\0\x02\0\x03"];
    let found = declared(rt.alloc(), TEXT, Version::Cdf1).map_err(|_| AllocError)?;
    for (array, want) in found.listed.into_vec().into_iter().zip(WANT) {
        assert!(rt; lists(rt.alloc(), array, *want)?, "{want:?}");
    }
    Ok(())
}

/// Arrays of 2^48 bytes, which are declared, but which memory can't hold.
#[test]
fn arrays_at_their_limit(rt: HostRuntime) {
    static TEXTS: &[&[u8]] = &[
        b"netcdf t { dimensions: x = 16777216 ; variables: byte b(x, x) ; }",
        b"netcdf t { dimensions: t = UNLIMITED, x = 16777216 ; variables: byte b(t, x, x), c(t) ; data: c = 1 ; }",
        // two records of half as many
        b"netcdf t { dimensions: t = UNLIMITED, x = 16777216, y = 8388608 ; variables: byte b(t, x, y), c(t) ; data: c = 1, 2 ; }",
    ];
    for text in TEXTS {
        assert!(rt; declared_fault(rt.alloc(), *text).is_none());
        let fault = parse(rt.alloc(), *text, Version::Cdf1).err();
        assert!(rt; matches!(fault, Some(found) if found.kind == CdlKind::OutOfMemory));
    }
}

/// This many record variables with different names, each of 2^48 bytes a record.
fn large_records(alloc: Global, count: u16) -> Result<String, AllocError> {
    const BEFORE: &str = "netcdf t { dimensions: t = UNLIMITED, x = 16777216 ; variables:";
    let mut text = String::from_str(alloc, BEFORE)?;
    for i in 0..count {
        let one = format!(in alloc; " byte v{i}(t, x, x) ;")?;
        text.push_str(one.as_str())?;
    }
    text.push_str(" }")?;
    Ok(text)
}

/// A record may have 2^62 bytes, and no more.
#[test]
fn records_at_their_limit(rt: HostRuntime) -> Result<(), AllocError> {
    const TOO_LARGE: CdlFault = CdlFault {
        line: 1,
        kind: CdlKind::TooLarge,
    };
    let most = large_records(rt.alloc(), 16_384)?;
    assert!(rt; declared_fault(rt.alloc(), most.as_bytes()).is_none());
    let more = large_records(rt.alloc(), 16_385)?;
    assert!(rt; declared_fault(rt.alloc(), more.as_bytes()) == Some(TOO_LARGE));
    Ok(())
}
