//! Dumps from sources and into sinks that fail at each place in turn.

use crate::dump_rows::{
    DumpRow, HELD_NULS, MANY_HELD_NULS, ONE_VARIABLE, ONE_VARIABLE_CDF5, PADDED_RECORDS, SELECTION,
    options_of, text_of,
};
use devices::{DripSource, FailWhen, SliceSink};
use ncdump::{DumpFault, DumpOptions, dump};
use std::alloc::Global;
use std::process::Abort;
use std::test::Fail;

/// Where a dump is between two values, or before or after all of a variable: the text that is still to come, and how many bytes of values
/// have been read. NULs that wait for the character after them have been read.
type Stop = (&'static [u8], u128);

/// A dump, how many bytes its header has, and its stops on the way to its end.
type Row = (DumpRow<'static>, u128, &'static [Stop]);

/// The stops in a list of three shorts.
const SHORTS: &[Stop] = &[
    (b" 1, _, 3 ;\n}\n", 0),
    (b", _, 3 ;\n}\n", 2),
    (b", 3 ;\n}\n", 4),
    (b" ;\n}\n", 6),
];

/// The stops in rows of eight ints.
const INTS: &[Stop] = &[
    (b"\n  1, 2,\n  3, 4,\n  5, 6,\n  7, 8 ;\n}\n", 0),
    (b", 2,\n  3, 4,\n  5, 6,\n  7, 8 ;\n}\n", 4),
    (b",\n  3, 4,\n  5, 6,\n  7, 8 ;\n}\n", 8),
    (b", 4,\n  5, 6,\n  7, 8 ;\n}\n", 12),
    (b",\n  5, 6,\n  7, 8 ;\n}\n", 16),
    (b", 6,\n  7, 8 ;\n}\n", 20),
    (b",\n  7, 8 ;\n}\n", 24),
    (b", 8 ;\n}\n", 28),
    (b" ;\n}\n", 32),
];

/// The stops in a list of three bytes, and in one of three shorts after it.
const RECORDS: &[Stop] = &[
    (b" 1, 2, 3 ;\n\n s = 4, 5, 6 ;\n}\n", 0),
    (b", 2, 3 ;\n\n s = 4, 5, 6 ;\n}\n", 1),
    (b", 3 ;\n\n s = 4, 5, 6 ;\n}\n", 2),
    (b" ;\n\n s = 4, 5, 6 ;\n}\n", 3),
    (b" 4, 5, 6 ;\n}\n", 3),
    (b", 5, 6 ;\n}\n", 5),
    (b", 6 ;\n}\n", 7),
    (b" ;\n}\n", 9),
];

/// The stops in five characters, the third and fourth of them NULs.
const NULS: &[Stop] = &[
    (b" \"a\\000\\000b\" ;\n}\n", 0),
    (b"\\000\\000b\" ;\n}\n", 3),
    (b"\" ;\n}\n", 5),
];

/// The stops in twenty characters, all NULs but the first and the last.
const MANY_NULS: &[Stop] = &[
    (
        b" \"a\\000\\000\\000\\000\\000\\000\\000\\000\\000\\000\\000\\000\\000\\000\\000\\000\\000\\000b\" ;\n}\n",
        0,
    ),
    (
        b"\\000\\000\\000\\000\\000\\000\\000\\000\\000\\000\\000\\000\\000\\000\\000\\000\\000\\000b\" ;\n}\n",
        19,
    ),
    (b"\" ;\n}\n", 20),
];

/// Dumps whose every call fails in turn.
static ROWS: &[Row] = &[
    (ONE_VARIABLE, 80, SHORTS),
    (ONE_VARIABLE_CDF5, 128, SHORTS),
    (SELECTION, 180, INTS),
    (PADDED_RECORDS, 116, RECORDS),
    (HELD_NULS, 80, NULS),
    (MANY_HELD_NULS, 80, MANY_NULS),
];

/// A row with its options and its text, and how many bytes each call of a device takes or gives at most.
#[derive(Clone, Copy)]
struct Tried<'a> {
    row: Row,
    options: &'a DumpOptions,
    text: &'a [u8],
    step: usize,
}

impl Tried<'_> {
    /// How many bytes a header takes at most through a buffer of 16 bytes.
    fn header_read(&self) -> u128 {
        self.row.1.saturating_add(16)
    }

    /// How many bytes a dump reads at most: the header, a buffer, and the values.
    fn most_read(&self) -> u128 {
        let values = self.row.2.last().map_or(0, |stop| stop.1);
        self.header_read().saturating_add(values)
    }

    /// Returns true if reading may fail after `written` bytes of the text: before the first of them, or at a stop, with no more read than
    /// the values before it and another buffer.
    fn may_stop_reading(&self, written: usize, handed: u128) -> bool {
        let most = self.header_read().saturating_add(16);
        let is_here = |stop: &Stop| {
            self.text.len() == written.saturating_add(stop.0.len())
                && handed <= most.saturating_add(stop.1)
        };
        (written == 0 && handed <= self.header_read()) || self.row.2.iter().any(is_here)
    }

    /// Returns true if writing may fail after `written` bytes of the text: with no more read than the header, or than the values before a
    /// stop that has been passed, and another buffer.
    fn may_stop_writing(&self, written: usize, handed: u128) -> bool {
        let most = self.header_read().saturating_add(16);
        let is_passed = |stop: &Stop| {
            self.text.len() <= written.saturating_add(stop.0.len())
                && handed <= most.saturating_add(stop.1)
        };
        handed <= self.header_read() || self.row.2.iter().any(is_passed)
    }
}

/// Returns true if a dump into a slice with room for `room` bytes may end so: with the whole text; or with a prefix of it, where reading
/// may fail, or which fills the slice.
fn may_end(
    tried: &Tried<'_>,
    room: usize,
    answer: Result<(), DumpFault>,
    written: &[u8],
    handed: u128,
) -> bool {
    let is_so = match answer {
        Ok(()) => written.len() == tried.text.len(),
        Err(DumpFault::ReadFailed) => tried.may_stop_reading(written.len(), handed),
        Err(DumpFault::WriteFailed) => {
            written.len() == room && tried.may_stop_writing(room, handed)
        }
        Err(_) => false,
    };
    is_so && handed <= tried.most_read() && tried.text.starts_with(written)
}

/// Dumps from a source that fails so into a slice with room for `room` bytes, and fails unless the dump may end so, with success or with
/// `fault`. Returns true if it ends with success.
fn ends_well(
    rt: &impl Abort,
    alloc: Global,
    tried: &Tried<'_>,
    fail: FailWhen,
    room: usize,
    fault: DumpFault,
) -> bool {
    let (about, bytes) = (tried.row.0.about, tried.row.0.bytes);
    let mut space = [0; 512];
    assert!(rt; 1 <= tried.step && room <= 512);
    let mut sink = SliceSink::new(&mut space[..room], tried.step);
    let mut source = DripSource::new(bytes, tried.step, fail);
    let answer = dump(alloc, &mut source, tried.options, &mut [0; 16], &mut sink);
    let written = sink.taken();
    let is_right = may_end(tried, room, answer, written, source.handed());
    assert!(rt; is_right, "{about}, {} bytes", written.len());
    assert!(rt; answer.is_ok() || answer == Err(fault), "{about}");
    answer.is_ok()
}

/// Fails each read in turn, until none is left.
fn each_read_fails(rt: &impl Abort, alloc: Global, tried: &Tried<'_>) {
    for n in 0..1000 {
        let fail = FailWhen::Read(n);
        if ends_well(rt, alloc, tried, fail, 512, DumpFault::ReadFailed) {
            assert!(rt; n > 0);
            return;
        }
    }
    assert!(rt; false);
}

/// Dumps into slices of each length up to that of the text. They are filled.
fn each_write_fails(rt: &impl Abort, alloc: Global, tried: &Tried<'_>) {
    for room in 0..=tried.text.len() {
        let (never, fault) = (FailWhen::Never, DumpFault::WriteFailed);
        let is_whole = ends_well(rt, alloc, tried, never, room, fault);
        let is_right = is_whole == (room == tried.text.len());
        assert!(rt; is_right, "room for {room} bytes");
    }
}

#[test]
fn each_call_of_a_dump_fails(rt: HostRuntime) -> Result<(), Fail> {
    for row in ROWS {
        let options = options_of(rt.alloc(), &row.0)?;
        let text = text_of(rt.alloc(), &row.0)?;
        for step in [1, 7] {
            let tried = Tried {
                row: *row,
                options: &options,
                text: text.as_slice(),
                step,
            };
            each_read_fails(&rt, rt.alloc(), &tried);
            each_write_fails(&rt, rt.alloc(), &tried);
        }
    }
    Ok(())
}
