//! Names, and the heads of dumps.

use crate::header_rows::{EMPTY, HeaderRow, NamedValues, att_of, header_of, var_of};
use cdl_print::{put_head, put_name};
use devices::MemSink;
use nc_base::Header;
use nc_base::NcType::{self, Byte, Char, Int, Int64, Short, Ubyte, Uint, Uint64, Ushort};
use std::alloc::{AllocError, Global};
use std::process::Abort;
use test_files::char_bytes;

#[test]
fn names_are_escaped(rt: HostRuntime) {
    static ROWS: &[(&str, &str)] = &[
        ("data", "\\data"),
        ("2 b", "\\2\\ b"),
        ("x", "x"),
        ("a.b", "a.b"),
        ("-x", "\\-x"),
        (".x", "\\.x"),
        ("@x", "\\@x"),
        ("+x", "\\+x"),
        ("naïve", "naïve"),
        ("int64", "\\int64"),
        ("", ""),
    ];
    for (name, want) in ROWS {
        let mut sink = MemSink::new(rt.alloc());
        let is_put = put_name(&mut sink, name.as_bytes()).is_ok();
        assert!(rt; is_put && sink.as_slice() == want.as_bytes(), "{name}");
    }
}

/// Fails unless this is the head of a dump without records.
fn expect_head(rt: &impl Abort, alloc: Global, header: &Header, want: &[u8]) {
    let mut sink = MemSink::new(alloc);
    let is_put = put_head(&mut sink, b"t", header, 0).is_ok();
    assert!(rt; is_put && sink.as_slice() == want);
}

/// A header of two dimensions and two variables, the second of them with attributes.
fn declared(alloc: Global) -> Result<Header, AllocError> {
    const ROW: HeaderRow<'static> = HeaderRow {
        dims: &[("t", 0), ("x", 3)],
        vars: &[("s", &[], NcType::Int64, 0)],
        ..EMPTY
    };
    static ATTS: &[NamedValues<'static>] = &[
        ("units", NcType::Char, "m"),
        ("valid_range", NcType::Short, "\u{ff}\u{fe}\x01\x00"),
    ];
    let mut header = header_of(alloc, &ROW)?;
    let noted = ("2 v", [0, 1].as_slice(), NcType::Ushort, 0);
    header.vars.push(var_of(alloc, noted, ATTS)?)?;
    Ok(header)
}

#[test]
fn dimensions_and_variables_are_declared(rt: HostRuntime) -> Result<(), AllocError> {
    const TEXT: &[u8] =
        b"netcdf t {\ndimensions:\n\tt = UNLIMITED ; // (0 currently)\n\tx = 3 ;\nvariables:\n\tint64 s ;\n\tushort \\2\\ v(t, x) ;\n\t\t\\2\\ v:units = \"m\" ;\n\t\t\\2\\ v:valid_range = -2s, 256s ;\n";
    let header = declared(rt.alloc())?;
    expect_head(&rt, rt.alloc(), &header, TEXT);
    Ok(())
}

/// The head with the only attribute `note`, whose values are listed so. Each character stands for a byte.
fn note_text(alloc: Global, want: &str) -> Result<Vec<u8>, AllocError> {
    let before = "netcdf t {\n\n// global attributes:\n\t\t:note = ";
    let text = format!(in alloc; "{before}{want} ;\n")?;
    char_bytes(alloc, text.as_str())
}

#[test]
fn values_of_attributes_are_listed(rt: HostRuntime) -> Result<(), AllocError> {
    static ROWS: &[(NcType, &str, &str)] = &[
        (Char, "a\nb\n", "\"a\\n\",\n\t\t\t\"b\\n\""),
        (
            Char,
            "\t\"\\\x7f\u{c3}\u{a9}\0\0",
            "\"\\t\\\"\\\\\\177\u{c3}\u{a9}\"",
        ),
        (
            Char,
            "\x08\x0c\r\t\x0b\\'\"\x01\x1f\x7f",
            "\"\\b\\f\\r\\t\\v\\\\\\'\\\"\\001\\037\\177\"",
        ),
        // more plain characters than are written at once, and one that is escaped
        (
            Char,
            "aaaaaaaaaaaaaaaaaaaaaaaaaaaaaaaaaaaaaaaaaaaaaaaaaaaaaaaaaaaaaaaaaaaaaaaaaaaaaaaaaaaaaaaaaaaaaaaaaaaaaaaaaaaaaaaaaaaaaaaaaaaaaaaaaa\tb",
            "\"aaaaaaaaaaaaaaaaaaaaaaaaaaaaaaaaaaaaaaaaaaaaaaaaaaaaaaaaaaaaaaaaaaaaaaaaaaaaaaaaaaaaaaaaaaaaaaaaaaaaaaaaaaaaaaaaaaaaaaaaaaaaaaaaaa\\tb\"",
        ),
        (Char, "", "\"\""),
        (Byte, "\u{ff}\x01", "-1b, 1b"),
        (Short, "\u{80}\0", "-32768s"),
        (Int, "\0\0\x01\0\u{ff}\u{ff}\u{ff}\u{ff}", "256, -1"),
        (Int, "", ""),
        (Ubyte, "\u{ff}", "255UB"),
        (Ushort, "\u{ff}\u{ff}", "65535US"),
        (Uint, "\u{ff}\u{ff}\u{ff}\u{ff}", "4294967295U"),
        (Int64, "\u{80}\0\0\0\0\0\0\0", "-9223372036854775808LL"),
        (
            Uint64,
            "\u{ff}\u{ff}\u{ff}\u{ff}\u{ff}\u{ff}\u{ff}\u{ff}",
            "18446744073709551615ULL",
        ),
    ];
    for (ty, vals, want) in ROWS {
        let header = noted(rt.alloc(), *ty, *vals)?;
        let text = note_text(rt.alloc(), *want)?;
        expect_head(&rt, rt.alloc(), &header, text.as_slice());
    }
    Ok(())
}

/// A header with the only attribute `note`, which has these values.
fn noted(alloc: Global, ty: NcType, vals: &str) -> Result<Header, AllocError> {
    let mut header = header_of(alloc, &EMPTY)?;
    header.gatts.push(att_of(alloc, "note", ty, vals)?)?;
    Ok(header)
}
