//! Whole runs on readers and outputs that fail.

use crate::full_disks::FullDisk;
use crate::readers::{FailingReader, NEVER, WatchedTexts};
use crate::rows::SHORTS;
use devices::OpenFailed::{NotFound, NotRegular, Other, PermissionDenied};
use devices::{CountedRead, SliceSink};
use ncgen::run_with;
use std::alloc::Global;
use std::process::Abort;
use std::test::*;
use test_files::Refusing;

/// A run, the devices that it is given, and how it ends.
#[derive(Clone, Copy)]
struct Run {
    words: &'static [&'static str],
    /// The read of standard input that fails, and that of a path's text.
    fails: (u64, u64),
    /// How many files the disk takes, and of how many bytes together.
    disk: (u64, usize),
    /// The line on standard error; none if the run succeeds.
    line: &'static [u8],
    /// How often a text was opened, and how often one was given back.
    opened: (u128, u128),
    /// How many bytes of the file the disk holds.
    held: usize,
}

/// A run that writes the file of a path's text.
const WRITES: Run = Run {
    words: &["ncgen", "-b", "t.cdl"],
    fails: (NEVER, NEVER),
    disk: (1, FILE.len()),
    line: b"",
    opened: (1, 1),
    held: FILE.len(),
};

/// The file.
const FILE: &[u8] = test_files::ONE_VARIABLE;

/// Fails unless the run ends as it is to.
fn ends(rt: &impl Abort, alloc: Global, run: &Run) {
    let mut texts = WatchedTexts::new(SHORTS, run.fails.1);
    let mut input = CountedRead::new(FailingReader::new(SHORTS, 7, run.fails.0));
    let mut disk = FullDisk::new(alloc, run.disk.0, run.disk.1);
    let mut space = [0; 64];
    let mut err = SliceSink::new(&mut space, 1);
    let words = run.words;
    let status = run_with(&mut texts, &mut disk, alloc, words, &mut input, &mut err);
    let (held, _) = FILE.split_at(run.held.min(FILE.len()));
    assert!(rt; status == !run.line.is_empty() as u8, "{words:?}");
    assert!(rt; is_same(err.taken(), run.line), "the line of {words:?}");
    assert!(rt; is_same(disk.held(), held), "the file of {words:?}");
    assert!(rt; texts.counts() == run.opened, "the text of {words:?}");
}

/// Returns true if these are the same bytes.
fn is_same(bytes: &[u8], others: &[u8]) -> bool {
    bytes == others
}

/// A text that can't be opened has its line, whatever the reason, and no output is created.
#[test]
fn text_that_is_refused_has_its_line(rt: HostRuntime) {
    let alloc = rt.alloc();
    for why in [NotFound, PermissionDenied, NotRegular, Other] {
        let mut texts = Refusing::new(why);
        let mut input = CountedRead::new(FailingReader::new(b"", 7, NEVER));
        let mut disk = FullDisk::new(alloc, 0, 0);
        let mut space = [0; 64];
        let mut err = SliceSink::new(&mut space, 1);
        let words = ["ncgen", "-b", "t.cdl"];
        let status = run_with(&mut texts, &mut disk, alloc, &words, &mut input, &mut err);
        let is_told = is_same(err.taken(), b"ncgen: t.cdl: cannot open\n");
        assert!(rt; status == 1 && texts.opens() == 1 && is_told, "{why:?}");
    }
}

#[test]
fn devices_that_fail(rt: HostRuntime) {
    const NONE_WRITTEN: Run = Run {
        disk: (1, 0),
        line: b"ncgen: t.nc: write failed\n",
        held: 0,
        ..WRITES
    };
    static RUNS: &[Run] = &[
        WRITES,
        NONE_WRITTEN,
        Run {
            disk: (1, 83),
            held: 83,
            ..NONE_WRITTEN
        },
        Run {
            disk: (1, 87),
            held: 87,
            ..NONE_WRITTEN
        },
        Run {
            disk: (0, 88),
            line: b"ncgen: t.nc: cannot open\n",
            ..NONE_WRITTEN
        },
        Run {
            fails: (NEVER, 3),
            line: b"ncgen: t.cdl: read failed\n",
            ..NONE_WRITTEN
        },
        Run {
            words: &["ncgen", "-o", "x"],
            fails: (3, NEVER),
            line: b"ncgen: -: read failed\n",
            opened: (0, 0),
            ..NONE_WRITTEN
        },
    ];
    for run in RUNS {
        ends(&rt, rt.alloc(), run);
    }
}
