//! What `Display` writes of an error: the words that its fault line has.

use cli_base::OptFault;
use devices::{
    CloseFailed, CreateFailed, MemSink, OpenFailed, Sink, SinkFailed, SourceFailed, WriteFailed,
};
use nc_base::FormatFault;
use nc_file::{HeadFault, OffsetTooLarge};
use nc_walk::WalkFault;
use ncdump::DumpFault::{self, DataTruncated, Format, NoSuchVariable};
use ncdump::fault_line;
use std::alloc::Global;
use std::error::Error;
use std::test::Fail;

/// All faults of a dump, the format's with each of its kinds, and their words.
static FAULTS: &[(DumpFault, &str)] = &[
    (DumpFault::OutOfMemory, "out of memory"),
    (DumpFault::ReadFailed, "read failed"),
    (DumpFault::WriteFailed, "write failed"),
    (Format(FormatFault::NotNetcdf), "not a netCDF classic file"),
    (Format(FormatFault::UnknownVersion(7)), "unknown version 7"),
    (Format(FormatFault::HeaderTruncated), "header truncated"),
    (Format(FormatFault::BadTag), "bad tag"),
    (Format(FormatFault::BadCount), "bad count"),
    (Format(FormatFault::BadName), "bad name"),
    (Format(FormatFault::FloatingType), "floating type"),
    (Format(FormatFault::BadType), "bad type"),
    (Format(FormatFault::BadShape), "bad shape"),
    (Format(FormatFault::TwoRecordDims), "two record dimensions"),
    (Format(FormatFault::BadOffset), "bad offset"),
    (Format(FormatFault::TooLarge), "too large"),
    (NoSuchVariable(3), "no such variable: item 3 of -v"),
    (
        DataTruncated { var: 2, value: 700 },
        "variable 2: data truncated at value 700",
    ),
];

/// Returns true if the fault is displayed as these words, and its line for the file `a` has them.
fn has_words(alloc: Global, fault: &DumpFault, words: &str) -> Result<bool, Fail> {
    let mut line = MemSink::new(alloc);
    let written = fault_line(&mut line, b"a", fault).is_ok();
    let want = format!(in alloc; "ncdump: a: {words}\n")?;
    let said = format!(in alloc; "{fault}")?;
    Ok(written && line.as_slice() == want.as_bytes() && said.as_str() == words)
}

/// Returns true if the error is displayed as `words`.
fn says<E: Error>(alloc: Global, error: E, words: &str) -> bool {
    format!(in alloc; "{error}").is_ok_and(|said| said.as_str() == words)
}

#[test]
fn faults_have_the_words_of_their_lines(rt: HostRuntime) -> Result<(), Fail> {
    for (fault, words) in FAULTS {
        assert!(rt; has_words(rt.alloc(), fault, *words)?, "{words}");
    }
    Ok(())
}

#[test]
fn errors_have_the_words_of_their_lines(rt: HostRuntime) {
    let alloc = rt.alloc();
    assert!(rt; says(alloc, SourceFailed, "read failed"));
    assert!(rt; says(alloc, SinkFailed, "write failed"));
    assert!(rt; says(alloc, WriteFailed, "write failed"));
    assert!(rt; says(alloc, CloseFailed, "write failed"));
    assert!(rt; says(alloc, OpenFailed::NotFound, "cannot open"));
    assert!(rt; says(alloc, CreateFailed, "cannot open"));
    assert!(rt; says(alloc, OptFault::OutOfMemory, "out of memory"));
    assert!(rt; says(alloc, OptFault::Usage, "bad command line"));
    assert!(rt; says(alloc, HeadFault::ReadFailed, "read failed"));
    assert!(rt; says(alloc, HeadFault::OutOfMemory, "out of memory"));
    assert!(rt; says(alloc, HeadFault::Format(FormatFault::BadTag), "bad tag"));
    assert!(rt; says(alloc, OffsetTooLarge, "offset too large"));
    assert!(rt; says(alloc, WalkFault::ReadFailed, "read failed"));
    let truncated = WalkFault::DataTruncated(12);
    assert!(rt; says(alloc, truncated, "data truncated at value 12"));
}
