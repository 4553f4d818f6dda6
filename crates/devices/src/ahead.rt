//! Reading ahead.

ghost use Rattle.std.specs.Prelude.{◌≡◌, ◌<◌, ◌≤◌, ◌⊎◌, ◌+◌, ◌*◌, IfOk, OnErr, true, length};
ghost use Rattle.devices.specs.code.SourceReads.{ReadSome, AreFrom, CantCount, CanCount, unread};

use crate::{Source, SourceFailed};

/// The length of the longest stretch that is read ahead: 64 KiB.
const MOST_AHEAD: usize = 65536;

/// The length of the shortest stretch that is read ahead, as after a jump: 4 KiB.
const LEAST_AHEAD: usize = 4096;

/// A source of the bytes of another source. It asks that source for stretches, each some 4 to 64 KiB that lie side by side, and keeps the
/// last one. A read is answered from this stretch if the stretch has the byte at its offset. So reads that lie near each other take few
/// reads of the other source.
///
/// Stretches grow as long as each begins near the end of the one before. If the stretch doesn't have the byte, a read with room for 64 KiB
/// or more goes straight to the other source. A read that fails is not tried again.
#[derive(Drop)]
pub struct ReadAhead<S: Source> {
    source: S,
    /// The stretch that was read last, in the first `len` bytes.
    stretch: [u8; 65536],
    /// The offset of the stretch in the source.
    at: u64,
    /// The number of bytes of the stretch, or 0 if there is none.
    len: usize,
    /// How often a read has failed, at most `u128::MAX`.
    failures: u128,
    /// How many bytes were handed to the caller.
    handed: u128,
    ghost within: { len ≤ 65536 },
    // If the source is transparent, the stretch has its bytes from `at` on.
    ghost stands: { S.is_transparent ≡ true → AreFrom at len (S.view source).bytes stretch },
}

impl<S: Source> ReadAhead<S> {
    ghost use Rattle.devices.specs.code.Ahead.{Answers, IsFar, IsInStretch, ReadNoMore, ReadsAhead, SameCounts, SourceFails, bytes_of, taken, view_of};

    /// Creates a source of the bytes of `source` that has read nothing ahead yet. Its own counts, of bytes and of failures, start at 0.
    pub fn new(source: S) -> ReadAhead<S>
        ensures { view_of result ≡ unread (S.view source).bytes }
    {
        ReadAhead {
            source,
            stretch: [0; 65536],
            at: 0,
            len: 0,
            failures: 0,
            handed: 0,
        }
    }

    /// Copies bytes of the stretch (the bytes that were read ahead last), from the offset `at` of the source on, to the start of `into`: as
    /// many as the stretch has from there on, but no more than fit. Returns how many: 0 if `into` is empty or (no clause says so) if the
    /// byte at this offset isn't in the stretch.
    fn copy_from_stretch(&self, at: u64, into: &mut [u8]) -> usize
        ensures within { result ≤ length into.old }
        ensures held { result ≤ self.now.len }
        ensures bytes { S.is_transparent ≡ true → AreFrom at result (bytes_of self.now) into.new }
        ensures some { 0 < length into.old → IsInStretch self.now at → 0 < result }
    {
        if at < self.at || self.len as u64 <= at - self.at {
            return 0;
        }
        let from = (at - self.at) as usize;
        let n = into.len().min(self.len - from);
        copy_bytes(&mut into[..n], &self.stretch[from..from + n]);
        n
    }

    /// Returns how many bytes to read ahead as the next stretch, which begins at the offset `at`: twice as many as the last stretch has,
    /// but at least 4 KiB and at most 64 KiB. If `at` is before the last stretch, or past its start by twice its length or more, as after a
    /// jump, returns 4 KiB. Clauses give only these upper limits, and that the result isn't 0.
    fn next_stretch_len(&self, at: u64) -> usize
        ensures some { 0 < result }
        ensures within { result ≤ 65536 }
        ensures far { IsFar self.now at → result ≤ 4096 }
    {
        let is_near = self.at <= at && at - self.at < 2 * self.len as u64;
        if is_near {
            (2 * self.len).clamp(LEAST_AHEAD, MOST_AHEAD)
        } else {
            LEAST_AHEAD
        }
    }

    /// Reads ahead a stretch, as many bytes as [`next_stretch_len`](ReadAhead::next_stretch_len) returns or fewer, from the offset `at` on,
    /// and keeps it in place of the last one. If the source fails, it errs, and there is no stretch any more. Needs an offset before the
    /// source's end.
    fn read_stretch(&mut self, at: u64) -> Result<(), SourceFailed>
        requires { at < length (bytes_of self.old) }
        ensures bytes { bytes_of self.new ≡ bytes_of self.old }
        ensures counts { SameCounts self.old self.new }
        ensures place { self.new.at ≡ at }
        ensures some { S.is_transparent ≡ true → IfOk result (λ _. 0 < self.new.len) }
        ensures held { IfOk result (λ _. taken self.old + self.new.len ≡ taken self.new) }
        ensures no_more { taken self.new ≤ taken self.old + 65536 }
        ensures far { IsFar self.old at → taken self.new ≤ taken self.old + 4096 }
        ensures blame { OnErr result (SourceFails self.old self.new) }
    {
        let wanted = self.next_stretch_len(at);
        self.len = 0;
        self.at = at;
        self.len = read_at_most(&mut self.source, at, wanted, &mut self.stretch)?;
        Ok(())
    }

    /// Reads bytes, from the offset `at` on, to the start of `into`, and returns how many. It doesn't look into the stretch that was read
    /// last: if `into` has fewer than 64 KiB, it reads a new one and copies the first bytes of it, otherwise it reads directly into `into`.
    /// If the source fails, it errs, and `into` may hold anything. It counts neither bytes nor failures:
    /// [`read_and_count`](ReadAhead::read_and_count) does. Needs an `into` that isn't empty, and an offset before the source's end.
    fn read_uncounted(&mut self, at: u64, into: &mut [u8]) -> Result<usize, SourceFailed>
        requires room { 0 < length into.old }
        requires inside { at < length (bytes_of self.old) }
        ensures bytes { bytes_of self.new ≡ bytes_of self.old }
        ensures counts { SameCounts self.old self.new }
        ensures answers { IfOk result (Answers S.is_transparent (bytes_of self.old) at into.new) }
        ensures given { IfOk result (λ n. taken self.old + n ≤ taken self.new) }
        ensures no_more { ReadNoMore self.old self.new into.old 65536 }
        ensures far { IsFar self.old at → ReadNoMore self.old self.new into.old 4096 }
        ensures blame { OnErr result (SourceFails self.old self.new) }
    {
        if MOST_AHEAD <= into.len() {
            return self.source.read_at(at, into);
        }
        self.read_stretch(at)?;
        Ok(self.copy_from_stretch(at, into))
    }

    /// Reads bytes, from the offset `at` on, to the start of `into`, as [`read_uncounted`](ReadAhead::read_uncounted) does, and adds their
    /// number to `handed`. If the source fails, it errs, and adds 1 to `failures`, which stops at `u128::MAX`. Needs an `into` that isn't
    /// empty, an offset before the source's end, and a `handed` that stays below 2^128 even if `into` is filled.
    #[inline(never)]
    #[tactic(auto, unfolding(crate::specs::Failures::HasFailed))]
    fn read_and_count(&mut self, at: u64, into: &mut [u8]) -> Result<usize, SourceFailed>
        requires room { 0 < length into.old }
        requires inside { at < length (bytes_of self.old) }
        requires counted { CanCount self.old.handed into.old }
        ensures read { ReadsAhead self.old self.new at into.new result }
        ensures given { IfOk result (λ n. taken self.old + n ≤ taken self.new) }
        ensures no_more { ReadNoMore self.old self.new into.old 65536 }
        ensures far { IsFar self.old at → ReadNoMore self.old self.new into.old 4096 }
        ensures blame { OnErr result (SourceFails self.old self.new) }
    {
        match self.read_uncounted(at, into) {
            Ok(n) => {
                self.handed += n as u128;
                Ok(n)
            }
            Err(failure) => {
                self.failures = self.failures.saturating_add(1);
                Err(failure)
            }
        }
    }

    /// Returns how many reads of this source have failed, at most `u128::MAX`.
    pub(crate) fn failures(&self) -> u128
        ensures { result ≡ self.now.failures }
    {
        self.failures
    }
}

/// Copies the bytes of `from` over those of `into`. Needs slices of the same length.
// Most values have four bytes, and values of interleaved variables are read one by one: these bytes are moved by one load and one
// store, and without a call.
#[inline(always)]
fn copy_bytes(into: &mut [u8], from: &[u8])
    requires { length into.old ≡ length from.now }
    ensures { into.new ≡ from.now }
{
    if from.len() == 4 {
        copy_four(into, from);
    } else {
        copy_many(into, from);
    }
}

/// Copies the bytes of `from` over those of `into`, without a call. Needs slices of exactly four bytes.
#[inline(always)]
fn copy_four(into: &mut [u8], from: &[u8])
    requires into { length into.old ≡ 4 }
    requires from { length from.now ≡ 4 }
    ensures { into.new ≡ from.now }
{
    let [a, b, c, d] = [from[0], from[1], from[2], from[3]];
    into[0] = a;
    into[1] = b;
    into[2] = c;
    into[3] = d;
}

/// Copies the bytes of `from` over those of `into`, by one call of `copy_from_slice`. [`copy_bytes`] calls this function unless there are
/// four bytes. Needs slices of the same length.
// It isn't inlined: in a caller's loop, the test for slices that overlap would be prepared anew for each read.
#[inline(never)]
fn copy_many(into: &mut [u8], from: &[u8])
    requires { length into.old ≡ length from.now }
    ensures { into.new ≡ from.now }
{
    into.copy_from_slice(from);
}

/// Reads at most `wanted` bytes of the source `from`, from the offset `at` on, to the start of `to`, and returns how many. If the source
/// fails, it errs, and `to` may hold anything. Needs a `wanted` from 1 to the length of `to`, and an offset before the source's end.
fn read_at_most<S: Source>(
    from: &mut S,
    at: u64,
    wanted: usize,
    to: &mut [u8],
) -> Result<usize, SourceFailed>
    requires some { 0 < wanted }
    requires within { wanted ≤ length to.old }
    requires inside { at < length (S.view from.old).bytes }
    ensures read { ReadSome S.is_transparent (S.view from.old) (S.view from.new) at to.new result }
    ensures no_more { (S.view from.new).handed ≤ (S.view from.old).handed + wanted }
{
    from.read_at(at, &mut to[..wanted])
}

impl<S: Source> Source for ReadAhead<S> {
    ghost use Rattle.devices.specs.code.Ahead.{IsFar, IsInStretch, ReadNoMore, ReadsAhead, SourceFails, bytes_of, taken, view_of};

    ghost is_transparent = { S.is_transparent };

    ghost view = { view_of };

    /// Returns the number of the other source's bytes.
    fn len(&self) -> u64 {
        self.source.len()
    }

    /// Reads bytes from the offset `at` on to the start of `into`, and returns how many: out of the stretch that was read ahead last, if
    /// that has the byte at `at`, otherwise from the other source. Errs, and counts one failure, if the other source fails, or if the
    /// number of bytes handed over could reach 2^128. After an error no byte is handed over, and `into` may hold anything. Needs an `into`
    /// that isn't empty, and an offset before the source's end.
    #[tactic(auto, unfolding(crate::specs::Failures::HasFailed))]
    fn read_at(&mut self, at: u64, into: &mut [u8]) -> Result<usize, SourceFailed>
        requires room { 0 < length into.old }
        requires inside { at < length (bytes_of self.old) }
        ensures read { ReadsAhead self.old self.new at into.new result }

        // It hands over no more bytes than this call reads and the stretch had. It errs only if its source fails, or if it can't count.
        ensures given { IfOk result (λ n. taken self.old + n ≤ taken self.new + self.old.len) }
        ensures blame { OnErr result (SourceFails self.old self.new ⊎ CantCount self.old.handed into.old) }

        // It reads no more of its source than there is room for, or than its longest stretch has; after a jump, than its shortest one has;
        // and nothing if the stretch has the byte.
        ensures no_more { ReadNoMore self.old self.new into.old 65536 }
        ensures far { IsFar self.old at → ReadNoMore self.old self.new into.old 4096 }
        ensures near { IsInStretch self.old at → self.new.source ≡ self.old.source }
    {
        if u128::MAX - self.handed < into.len() as u128 {
            self.failures = self.failures.saturating_add(1);
            return Err(SourceFailed);
        }
        let n = self.copy_from_stretch(at, into);
        if 0 < n {
            self.handed += n as u128;
            return Ok(n);
        }
        self.read_and_count(at, into)
    }
}
