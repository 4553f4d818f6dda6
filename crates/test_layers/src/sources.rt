//! Sources: what their reads give, and how often reading ahead reads the source under it.

ghost use Rattle.std.specs.Prelude.{false, replicate};

use devices::{DripSource, FailWhen, MemSource, ReadAhead, Source, SourceFailed};
use std::process::Abort;

/// A read at an offset: what it answers, and the bytes that it gives.
type Read = (u64, Result<usize, SourceFailed>, &'static [u8]);

/// Fails unless reads with room for `room` bytes, one after the other, give these answers and bytes.
fn expect_reads<S: Source>(rt: &impl Abort, source: &mut S, room: usize, reads: &[Read]) {
    let mut space = [0; 10];
    assert!(rt; 0 < room && room <= 10);
    for (at, answer, want) in reads {
        assert!(rt; *at < source.len());
        let found = source.read_at(*at, &mut space[..room]);
        assert!(rt; found == *answer && space.starts_with(*want), "at {at}");
    }
}

/// Ten bytes, one unlike the other.
const TEXT: &[u8] = b"abcdefghij";

/// How many bytes a drip gives a read, when it fails, and reads with room for ten bytes.
static DRIPS: &[(usize, FailWhen, &[Read])] = &[
    (1, FailWhen::Never, &[(0, Ok(1), b"a"), (7, Ok(1), b"h")]),
    (3, FailWhen::Never, &[(7, Ok(3), b"hij"), (9, Ok(1), b"j")]),
    (
        3,
        FailWhen::From(4),
        &[
            (3, Ok(3), b"def"),
            (4, Err(SourceFailed), b""),
            (9, Err(SourceFailed), b""),
            (0, Ok(3), b"abc"),
        ],
    ),
    (
        3,
        FailWhen::Read(1),
        &[
            (0, Ok(3), b"abc"),
            (3, Err(SourceFailed), b""),
            (3, Ok(3), b"def"),
        ],
    ),
];

#[test]
fn reads_give_the_bytes_at_their_offset(rt: HostRuntime) {
    static OF_MEMORY: &[Read] = &[(0, Ok(4), b"abcd"), (2, Ok(4), b"cdef"), (9, Ok(1), b"j")];
    // stretches of three bytes, the second of which fails and is read again
    static AHEAD: &[Read] = &[
        (1, Ok(2), b"bc"),
        (2, Ok(2), b"cd"),
        (0, Err(SourceFailed), b""),
        (0, Ok(2), b"ab"),
        (2, Ok(1), b"c"),
        (6, Ok(2), b"gh"),
    ];
    expect_reads(&rt, &mut MemSource::new(TEXT), 4, OF_MEMORY);
    for (step, fail, reads) in DRIPS {
        assert!(rt; 1 <= *step);
        let mut source = DripSource::new(TEXT, *step, *fail);
        expect_reads(&rt, &mut source, 10, *reads);
    }
    let mut ahead = ReadAhead::new(DripSource::new(TEXT, 3, FailWhen::Read(1)));
    expect_reads(&rt, &mut ahead, 2, AHEAD);
}

/// How often a source was read, and how many bytes it has given.
#[derive(Clone, Copy, PartialEq, Eq)]
struct Given {
    reads: u64,
    bytes: u64,
}

/// A source of zeros that fills each read as far as it has bytes, and counts what it gives.
#[derive(Drop)]
struct Zeros<'a> {
    len: u64,
    given: &'a mut Given,
    handed: u128,
    failures: u128,
}

impl Source for Zeros<'_> {
    ghost is_transparent = { false };

    ghost view = { λ s. record { bytes = replicate s.len 0; failures = s.failures; handed = s.handed } };

    fn len(&self) -> u64 {
        self.len
    }

    #[tactic(auto, unfolding(devices::specs::Failures::HasFailed))]
    fn read_at(&mut self, at: u64, into: &mut [u8]) -> Result<usize, SourceFailed> {
        if u128::MAX - self.handed < into.len() as u128 {
            self.failures = self.failures.saturating_add(1);
            return Err(SourceFailed);
        }
        let n = into.len().min(self.len.saturating_sub(at) as usize);
        self.given.reads = self.given.reads.saturating_add(1);
        self.given.bytes = self.given.bytes.saturating_add(n as u64);
        self.handed += n as u128;
        Ok(n)
    }
}

/// How many bytes the source has.
const LEN: u64 = 40_000_000;

/// The length of the longest read.
const MOST: usize = 70_000;

/// Reads: the offset of the first, the bytes from one to the next, how many there are, and how many bytes each has room for.
type Reads = (u64, u64, u64, usize);

/// Makes these reads. Each has to give a byte at least.
fn make_reads(rt: &impl Abort, source: &mut ReadAhead<Zeros<'_>>, reads: Reads, into: &mut [u8]) {
    let (first, stride, count, room) = reads;
    assert!(rt; 0 < room && room <= into.len());
    for i in 0..count {
        let at = first.saturating_add(stride.saturating_mul(i));
        assert!(rt; at < source.len());
        let answer = source.read_at(at, &mut into[..room]);
        assert!(rt; matches!(answer, Ok(n) if 0 < n), "at {at}");
    }
}

/// Returns what the source gives if these reads are made through a new `ReadAhead`.
fn given_for(rt: &impl Abort, all: &[Reads]) -> Given {
    let mut given = Given { reads: 0, bytes: 0 };
    let mut source = ReadAhead::new(Zeros {
        len: LEN,
        given: &mut given,
        handed: 0,
        failures: 0,
    });
    let mut space = [0; MOST];
    for reads in all {
        make_reads(rt, &mut source, *reads, &mut space);
    }
    given
}

/// Reads, how often the source is read for them, and how many bytes it gives. Near reads take stretches that grow from 4 to 64 KiB, and
/// each far one takes 4 KiB. A big read takes what it has room for. A read of a byte that the stretch has takes nothing, even if it has
/// room for more than the stretch has left.
static AHEAD: &[(&[Reads], u64, u64)] = &[
    // a value; values side by side; one in each 40 bytes; the same one again
    (&[(0, 0, 1, 4)], 1, 4_096),
    (&[(0, 4, 50_000, 4)], 7, 258_048),
    (&[(0, 40, 5_000, 4)], 7, 258_048),
    (&[(5, 0, 1_000, 4)], 1, 4_096),
    // values far apart; 8 KiB apart
    (&[(0, 1_000_000, 40, 4)], 40, 163_840),
    (&[(0, 8_192, 1_000, 4)], 1_000, 4_096_000),
    // a value before the last one; less than two stretches after it; two stretches after it; far after near ones
    (&[(9_000, 0, 1, 4), (0, 0, 1, 4)], 2, 8_192),
    (&[(0, 0, 1, 4), (8_191, 0, 1, 4)], 2, 12_288),
    (&[(0, 0, 1, 4), (8_192, 0, 1, 4)], 2, 8_192),
    (&[(0, 4, 50_000, 4), (9_000_000, 0, 1, 4)], 8, 262_144),
    // the rest of a stretch
    (&[(0, 0, 1, 4), (4_090, 0, 1, 1_000)], 1, 4_096),
    // reads of 64 KiB; of one byte less; a value after a big read
    (&[(0, 65_536, 100, 65_536)], 100, 6_553_600),
    (&[(0, 65_535, 4, 65_535)], 4, 16_384),
    (
        &[(0, 0, 1, 4), (100_000, 0, 1, 70_000), (8, 0, 1, 4)],
        2,
        74_096,
    ),
    // the last bytes
    (&[(LEN - 10, 0, 1, 16), (LEN - 3, 1, 3, 16)], 1, 10),
];

#[test]
fn reading_ahead_takes_few_reads(rt: HostRuntime) {
    for (all, reads, bytes) in AHEAD {
        let given = given_for(&rt, *all);
        assert!(rt; given.reads == *reads && given.bytes == *bytes, "{all:?}");
    }
}
