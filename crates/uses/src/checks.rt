//! Checks of files.

use check_lines::put_lines;
use devices::{CountedRead, Flush, MemSink, Opener, Sink, Source, WriteFailed};
use nc_base::{Header, Sequence};
use nc_fields::{ListFault, list_fields};
use nc_findings::Filter;
use nc_layout::{layout_findings, sound_layout};
use nc_report::{Report, Severity, check};
use nccheck::run_with;
use std::alloc::{AllocError, Global};

/// The example of `nc_fields`. Returns how many fields the header of the source has, up to the first wrong one. Errs if the source or an
/// allocation fails.
pub fn count_fields<S: Source>(alloc: Global, source: &mut S) -> Result<usize, ListFault> {
    let mut buf = [0; 4096];
    let listing = list_fields(alloc, source, &mut buf)?;
    Ok(listing.entries.len())
}

/// The example of `nc_layout`. Returns how many findings about the layout there are in a file of `file_len` bytes with this header, which
/// ends at the offset `header_end`, or 0 if the layout isn't sound. Errs if an allocation fails.
pub fn count_layout_findings(
    alloc: Global,
    header: &Header,
    header_end: u64,
    file_len: u64,
) -> Result<usize, AllocError> {
    match sound_layout(alloc, header, header_end, file_len)? {
        Some(layout) => Ok(layout_findings(alloc, &layout)?.as_slice().len()),
        None => Ok(0),
    }
}

/// The example of `nc_report`. Returns how many errors are found in the file that the source holds. Errs if the source or an allocation
/// fails.
pub fn count_errors<S: Source>(alloc: Global, source: &mut S) -> Result<usize, ListFault> {
    let mut buf = [0; 4096];
    let report = check(alloc, source, &mut buf)?;
    let findings = report.findings.as_slice().iter();
    let severities = findings.map(|finding| finding.fact.kind().severity());
    Ok(severities.filter(|it| *it == Severity::Error).count())
}

/// The example of `check_lines`. Writes a line for each finding of a report of the file `a.nc`. Errs if the sink fails.
pub fn print_all<W: Sink>(sink: &mut W, alloc: Global, report: &Report) -> Result<(), WriteFailed> {
    let filter = Filter {
        level: Severity::Note,
        ignored: Sequence::new(alloc),
    };
    put_lines(sink, b"a.nc", report, &filter)
}

/// The example of `nccheck`. Checks the file `a.nc`, writes the lines of `nccheck -s` to `out`, and returns the exit status.
pub fn status_of_file<P: Opener, W: Flush>(opener: &mut P, alloc: Global, out: &mut W) -> u8 {
    let words = ["nccheck", "-s", "a.nc"];
    let mut input = CountedRead::new(b"".as_slice());
    let mut err = MemSink::new(alloc);
    run_with(opener, alloc, &words, &mut input, out, &mut err)
}
