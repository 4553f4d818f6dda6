//! How often a dump and a whole run call their devices, on files of some 100,000 bytes: about once for each buffer of the file, and for
//! each stretch of the text.

ghost use Rattle.std.specs.Prelude.{true};

use crate::dump_rows::{WHOLE, options_of};
use devices::{
    DripSource, FailWhen, IoSink, MemFile, MemFiles, MemSource, OpenFailed, Opener, SliceSink,
    Source, SourceFailed,
};
use ncdump::{DumpOptions, dump, run_with};
use std::alloc::{AllocError, Global};
use std::io;
use std::io::Write;

/// A writer that takes everything, and counts its writes and its flushes.
#[derive(Drop)]
struct Counting {
    writes: u64,
    flushes: u64,
}

/// A writer that hasn't been called.
fn uncalled() -> Counting {
    Counting {
        writes: 0,
        flushes: 0,
    }
}

impl Write for Counting {
    fn write(&mut self, bytes: &[u8]) -> io::Result<usize> {
        self.writes = self.writes.saturating_add(1);
        Ok(bytes.len())
    }

    fn flush(&mut self) -> io::Result<()> {
        self.flushes = self.flushes.saturating_add(1);
        Ok(())
    }
}

/// How many bytes of values or of text each file has.
const COUNT: usize = 100_000;

/// A file of many bytes that are alike: the words of the file before them, the byte that they are, how many zeros come after them, and how
/// many reads and writes a dump takes.
type Long = (&'static str, u8, usize, u64, u64);

/// The values of a sole record variable, which lie side by side, so that a read takes many of them.
const LONG_RECORDS: Long = ("RECORD_BYTES 4=000186a0 ..80", 7, 0, 30, 6_000);

/// Files of many numbers, records and characters, of a long attribute and of a long name.
static FILES: &[Long] = &[
    LONG_RECORDS,
    ("ONE_VARIABLE 24=0000c350 ..80", 7, 0, 30, 3_000),
    // values of two record variables lie apart, so that each takes a read of its own, and none takes two
    ("PADDED_RECORDS 4=000030d4 ..116", 7, 0, 25_030, 3_000),
    ("HELD_NULS 24=000186a0 ..80", b'a', 0, 30, 80),
    ("TEXT_ATTRIBUTE 36=000186a0 ..40", b'a', 8, 30, 30),
    ("TWO_RECORDS 16=000186a0 ..20", b'n', 20, 30, 40),
];

/// The bytes of a long file.
fn long_file(alloc: Global, (words, many, zeros, _, _): Long) -> Result<Vec<u8>, AllocError> {
    let mut file = test_files::file_of(alloc, words)?;
    file.resize(file.len().saturating_add(COUNT), many)?;
    file.resize(file.len().saturating_add(zeros), 0)?;
    Ok(file)
}

/// Returns true if a dump through a buffer of 4,096 bytes takes less than so many reads and at most so many writes, and reads the file once,
/// but for what it holds at the end of the header.
fn is_read_once(
    alloc: Global,
    options: &DumpOptions,
    file: &[u8],
    reads: u64,
    writes: u64,
) -> bool {
    let mut source = DripSource::new(file, COUNT, FailWhen::Read(reads));
    let mut writer = uncalled();
    let mut sink = IoSink::new(&mut writer);
    let is_whole = dump(alloc, &mut source, options, &mut [0; 4096], &mut sink).is_ok();
    is_whole && source.handed() <= file.len() as u128 + 4096 && writer.writes <= writes
}

#[test]
fn dumps_of_long_files(rt: HostRuntime) -> Result<(), AllocError> {
    let options = options_of(rt.alloc(), &WHOLE)?;
    for long in FILES {
        let (_, _, _, reads, writes) = *long;
        let file = long_file(rt.alloc(), *long)?;
        let is_right = is_read_once(rt.alloc(), &options, file.as_slice(), reads, writes);
        assert!(rt; is_right, "{reads} reads, {writes} writes");
    }
    Ok(())
}

/// A source in memory, with a count of its reads.
#[derive(Drop)]
struct CountedSource<'a> {
    source: MemSource<'a>,
    reads: u64,
}

impl Source for CountedSource<'_> {
    ghost is_transparent = { true };

    ghost view = { λ counted. ⟦<MemSource<'static> as Source>⟧.view counted.source };

    fn len(&self) -> u64 {
        self.source.len()
    }

    fn read_at(&mut self, at: u64, into: &mut [u8]) -> Result<usize, SourceFailed> {
        self.reads = self.reads.saturating_add(1);
        self.source.read_at(at, into)
    }
}

/// Files in memory, with counts of how often one was opened and given back, and of the reads from those that were given back.
#[derive(Drop)]
struct CountedFiles<'a> {
    files: MemFiles<'a>,
    opens: u64,
    closings: u64,
    reads: u64,
}

impl<'a> Opener for CountedFiles<'a> {
    type Source = CountedSource<'a>;

    ghost named = { λ counted path. ⟦<MemFiles<'static> as Opener>⟧.named counted.files path };

    ghost view = { λ counted. ⟦<MemFiles<'static> as Opener>⟧.view counted.files };

    fn open(&mut self, path: &str) -> Result<CountedSource<'a>, OpenFailed> {
        self.opens = self.opens.saturating_add(1);
        let source = Opener::open(&mut self.files, path)?;
        Ok(CountedSource { source, reads: 0 })
    }

    fn close(&mut self, source: CountedSource<'a>) {
        self.closings = self.closings.saturating_add(1);
        self.reads = self.reads.saturating_add(source.reads);
        self.files.close(source.source);
    }
}

#[test]
fn run_opens_its_file_once_and_reads_it_in_few_calls(rt: HostRuntime) -> Result<(), AllocError> {
    let file = long_file(rt.alloc(), LONG_RECORDS)?;
    let listed = [MemFile {
        path: "t.nc",
        bytes: file.as_slice(),
    }];
    let mut files = CountedFiles {
        files: MemFiles::new(&listed),
        opens: 0,
        closings: 0,
        reads: 0,
    };
    let mut writer = uncalled();
    let mut out = IoSink::new(&mut writer);
    let mut err = SliceSink::new(&mut [], 1);
    let words = ["ncdump", "t.nc"];
    let status = run_with(&mut files, rt.alloc(), &words, &mut out, &mut err);
    assert!(rt; status == 0 && files.opens == 1 && files.closings == 1);
    assert!(rt; files.reads <= 30, "{}", files.reads);
    Ok(())
}

/// A run flushes no standard stream, after success or failure: its caller does.
#[test]
fn run_leaves_the_flush_to_its_caller(rt: HostRuntime) {
    const ROWS: &[(&str, u8, &[u8])] = &[
        ("t.nc", 0, b""),
        ("u.nc", 1, b"ncdump: u.nc: cannot open\n"),
    ];
    for (path, ends_with, line) in ROWS {
        let files = [MemFile {
            path: "t.nc",
            bytes: test_files::ONE_VARIABLE,
        }];
        let mut writer = uncalled();
        let mut out = IoSink::new(&mut writer);
        let mut space = [0; 32];
        let mut err = SliceSink::new(&mut space, 5);
        let mut opener = MemFiles::new(&files);
        let words = ["ncdump", *path];
        let status = run_with(&mut opener, rt.alloc(), &words, &mut out, &mut err);
        assert!(rt; status == *ends_with && err.taken() == *line && writer.flushes == 0);
    }
}
