//! The readers and writers that devices call, sinks in memory, and how often each of them is called.

use devices::{CountedRead, Flush, IoSink, MemSink, Sink, SinkFailed, SliceSink, put};
use std::alloc::Global;
use std::io;
use std::io::ErrorKind::*;
use std::io::{ErrorKind, Read, Write};
use std::process::Abort;
use std::test::Fail;

/// All kinds of errors but those that only the standard library makes.
static KINDS: &[&[ErrorKind]] = &[
    &[NotFound, PermissionDenied, AlreadyExists],
    &[ConnectionRefused, ConnectionReset, ConnectionAborted],
    &[HostUnreachable, NetworkUnreachable, NetworkDown],
    &[NotConnected, AddrInUse, AddrNotAvailable, BrokenPipe],
    &[WouldBlock, TimedOut, Interrupted, Deadlock, WriteZero],
    &[NotADirectory, IsADirectory, DirectoryNotEmpty],
    &[ReadOnlyFilesystem, StaleNetworkFileHandle, StorageFull],
    &[InvalidInput, InvalidData, InvalidFilename],
    &[NotSeekable, QuotaExceeded, FileTooLarge, CrossesDevices],
    &[ResourceBusy, ExecutableFileBusy, TooManyLinks],
    &[ArgumentListTooLong, Unsupported, UnexpectedEof],
    &[OutOfMemory, Other],
];

/// A reader whose calls fail with a kind of error, or have nothing to give. It counts them.
#[derive(Drop)]
struct Empty {
    fails: Option<ErrorKind>,
    calls: u32,
}

impl Read for Empty {
    fn read(&mut self, _into: &mut [u8]) -> io::Result<usize> {
        self.calls = self.calls.saturating_add(1);
        match self.fails {
            Some(kind) => Err(kind.into()),
            None => Ok(0),
        }
    }
}

/// A writer that takes two bytes a call, up to eight in all, or whose calls fail with a kind of error. It counts them.
#[derive(Drop)]
struct TwoByTwo {
    write: Option<ErrorKind>,
    flush: Option<ErrorKind>,
    taken: usize,
    writes: u32,
    flushes: u32,
}

/// A writer that fails so, and hasn't been called.
fn writer_failing(write: Option<ErrorKind>, flush: Option<ErrorKind>) -> TwoByTwo {
    TwoByTwo {
        write,
        flush,
        taken: 0,
        writes: 0,
        flushes: 0,
    }
}

impl Write for TwoByTwo {
    fn write(&mut self, bytes: &[u8]) -> io::Result<usize> {
        self.writes = self.writes.saturating_add(1);
        if let Some(kind) = self.write {
            return Err(kind.into());
        }
        let n = bytes.len().min(2).min(8usize.saturating_sub(self.taken));
        self.taken = self.taken.saturating_add(n);
        Ok(n)
    }

    fn flush(&mut self) -> io::Result<()> {
        self.flushes = self.flushes.saturating_add(1);
        match self.flush {
            Some(kind) => Err(kind.into()),
            None => Ok(()),
        }
    }
}

/// Returns true if five reads of a reader that fails with this kind of error fail, each by one call, and are counted.
fn reads_fail(kind: ErrorKind) -> bool {
    let mut reader = Empty {
        fails: Some(kind),
        calls: 0,
    };
    let mut counted = CountedRead::new(&mut reader);
    for n in 1..=5u64 {
        if counted.read_some(&mut [0; 4]).is_ok() || counted.failures() != n as u128 {
            return false;
        }
    }
    reader.calls == 5
}

/// Returns true if a write and a flush of a writer that fails with this kind of error fail, each by one call.
fn writes_fail(kind: ErrorKind) -> bool {
    let mut writer = writer_failing(Some(kind), Some(kind));
    let mut sink = IoSink::new(&mut writer);
    let is_failed = sink.write_some(b"ab") == Err(SinkFailed) && sink.flush() == Err(SinkFailed);
    is_failed && writer.writes == 1 && writer.flushes == 1
}

#[test]
fn error_of_each_kind_is_a_failure_and_not_tried_again(rt: HostRuntime) {
    for kinds in KINDS {
        for kind in *kinds {
            assert!(rt; reads_fail(*kind) && writes_fail(*kind), "{kind:?}");
        }
    }
}

/// A read without room is no end, and is passed on; one with room that gives nothing is, and no later read is passed on.
#[test]
fn ended_reader_is_not_read_again(rt: HostRuntime) {
    let mut reader = Empty {
        fails: None,
        calls: 0,
    };
    let mut counted = CountedRead::new(&mut reader);
    for len in [0, 4, 4, 1, 7, 0, 4] {
        let mut into = [0; 8];
        assert!(rt; len <= 8 && counted.read_some(&mut into[..len]) == Ok(0));
    }
    assert!(rt; reader.calls == 2);
}

/// Returns true if these bytes are put into a sink over the writer, or not, by `writes` calls that take `taken` bytes, and two flushes
/// after that succeed, by two calls.
fn is_put(writer: &mut TwoByTwo, bytes: &[u8], is_whole: bool, writes: u32, taken: usize) -> bool {
    let mut sink = IoSink::new(&mut *writer);
    let is_so = put(&mut sink, bytes).is_ok() == is_whole;
    let is_flushed = sink.flush().is_ok() && sink.flush().is_ok();
    is_so && is_flushed && (writer.writes, writer.taken, writer.flushes) == (writes, taken, 2)
}

#[test]
fn failed_write_is_not_tried_again_and_each_flush_is_passed_on(rt: HostRuntime) {
    static ROWS: &[(Option<ErrorKind>, &[u8], bool, u32, usize)] = &[
        (None, b"", true, 0, 0),
        (None, b"abcde", true, 3, 5),
        (None, b"abcdefghij", false, 5, 8),
        (Some(StorageFull), b"abcde", false, 1, 0),
    ];
    for (fails, bytes, is_whole, writes, taken) in ROWS {
        let mut writer = writer_failing(*fails, None);
        let is_right = is_put(&mut writer, *bytes, *is_whole, *writes, *taken);
        assert!(rt; is_right, "{writes} writes");
    }
}

/// How many bytes a call is tried with at most, but for a large write.
const MOST: usize = 1000;

/// 32 MiB: more than the large parts of all others.
const LARGE: usize = 33_554_432;

/// Fails unless a write of these bytes to an empty sink of each kind takes all of them, and hands them on unchanged.
fn expect_taken(rt: &impl Abort, alloc: Global, bytes: &[u8]) {
    let mut kept = MemSink::new(alloc);
    assert!(rt; kept.write_some(bytes) == Ok(bytes.len()));
    let mut written = Vec::new(alloc);
    let mut sink = IoSink::new(&mut written);
    assert!(rt; sink.write_some(bytes) == Ok(bytes.len()) && sink.flush() == Ok(()));
    assert!(rt; kept.as_slice() == bytes && written.as_slice() == bytes);
}

#[test]
fn sinks_take_writes_of_every_length(rt: HostRuntime) -> Result<(), Fail> {
    let large = Vec::from_elem(rt.alloc(), b'a', LARGE)?;
    expect_taken(&rt, rt.alloc(), large.as_slice());
    let bytes = [b'b'; MOST];
    for len in 0..=MOST {
        expect_taken(&rt, rt.alloc(), &bytes[..len]);
    }
    let mut space = [0; 10];
    let mut slice = SliceSink::new(&mut space, 7);
    assert!(rt; slice.write_some(b"abcdefgh") == Ok(7) && slice.write_some(b"hijkl") == Ok(3));
    assert!(rt; slice.taken() == b"abcdefghij".as_slice());
    Ok(())
}

/// Returns true if reads with room for `room` bytes give these bytes, each as many as it has room for, and then none.
fn are_read(bytes: &[u8], room: usize) -> bool {
    let mut space = [0; MOST];
    let room = room.min(MOST).max(1);
    let mut reader = CountedRead::new(bytes);
    for piece in bytes.chunks(room) {
        let found = reader.read_some(&mut space[..room]);
        if found != Ok(piece.len()) || !space.starts_with(piece) {
            return false;
        }
    }
    reader.read_some(&mut space[..room]) == Ok(0) && reader.failures() == 0
}

#[test]
fn reads_of_every_length_give_the_next_bytes(rt: HostRuntime) {
    let mut bytes = [0; MOST];
    for (i, byte) in bytes.iter_mut().enumerate() {
        *byte = (i % 251) as u8 + 1;
    }
    for room in 1..=MOST {
        let is_right = are_read(&bytes[..room], room.min(64)) && are_read(&bytes, room);
        assert!(rt; is_right, "{room}");
    }
}
