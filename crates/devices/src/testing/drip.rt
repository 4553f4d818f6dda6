//! A source that gives few bytes a read, and fails on request.

ghost use Rattle.std.specs.Prelude.{◌≡◌, ◌↔◌, ◌≤◌, ◌<◌, ◌⊎◌, IfOk, IsErr, IsTrue, true, length};
ghost use Rattle.devices.specs.code.SourceReads.{ReadSome, CantCount, CanCount, unread};

use crate::memory::length_of;
use crate::{Source, SourceFailed};

/// When a [`DripSource`] fails.
#[derive(Clone, Copy, Debug, PartialEq, Eq)]
pub enum FailWhen {
    /// At no read.
    Never,
    /// At each read that begins at this offset or later.
    From(u64),
    /// At the read of this number, counted from 0, and at no other.
    Read(u64),
}

impl FailWhen {
    ghost use Rattle.devices.specs.code.Drip.{IsDue};

    /// Returns true if a read at the offset `at` is to fail. `reads` is the number of the read, counted from 0: how many came before it.
    fn is_due(self, at: u64, reads: u128) -> bool
        ensures { IsTrue result ↔ IsDue self at reads }
    {
        match self {
            FailWhen::Never => false,
            FailWhen::From(from) => from <= at,
            FailWhen::Read(read) => read as u128 == reads,
        }
    }
}

/// A source of the bytes of a slice. A read gives at most `step` of them.
///
/// A read fails if `fail` asks for it, or if the number of bytes that were read would reach 2^128.
#[derive(Drop)]
pub struct DripSource<'a> {
    bytes: &'a [u8],
    step: usize,
    fail: FailWhen,
    reads: u128,
    failures: u128,
    handed: u128,
    ghost steps: { 1 ≤ step },
}

impl<'a> DripSource<'a> {
    ghost use Rattle.devices.specs.code.Drip.{view_of, step_of, fail_of, reads_of};

    /// Creates a source of these bytes. None of them has been read. A read gives at most `step` bytes, and fails if `fail` asks for it.
    /// Needs a `step` of at least 1.
    pub fn new(bytes: &'a [u8], step: usize, fail: FailWhen) -> DripSource<'a>
        requires { 1 ≤ step }
        ensures view { view_of result ≡ unread bytes.now }
        ensures step { step_of result ≡ step }
        ensures fail { fail_of result ≡ fail }
        ensures reads { reads_of result ≡ 0 }
    {
        DripSource {
            bytes,
            step,
            fail,
            reads: 0,
            failures: 0,
            handed: 0,
        }
    }

    /// Returns how many bytes all reads have given together.
    pub fn handed(&self) -> u128
        ensures { result ≡ (view_of self.now).handed }
    {
        self.handed
    }
}

impl Source for DripSource<'_> {
    ghost use Rattle.devices.specs.code.Drip.{IsDueNow, view_of, step_of, fail_of, reads_of, reads_after};

    ghost is_transparent = { true };

    ghost view = { view_of };

    /// Returns the number of the slice's bytes.
    fn len(&self) -> u64 {
        length_of(self.bytes)
    }

    /// Copies bytes of the slice, from the offset `at` on, to the start of `into`: as many as there are and fit, but at most `step`.
    /// Returns how many. Errs, and counts one failure, if `fail` asks for it, or if the number of bytes read would reach 2^128: nothing is
    /// copied then. A read that `fail` asks to fail counts as a read too. Needs an `into` that isn't empty, and an offset before the
    /// slice's end.
    #[tactic(auto, unfolding(crate::specs::Failures::HasFailed))]
    fn read_at(&mut self, at: u64, into: &mut [u8]) -> Result<usize, SourceFailed>
        requires room { 0 < length into.old }
        requires inside { at < length (view_of self.old).bytes }
        ensures read { ReadSome true (view_of self.old) (view_of self.new) at into.new result }
        ensures few { IfOk result (λ n. n ≤ step_of self.old) }

        // It stays as it is, but counts its reads.
        ensures step { step_of self.new ≡ step_of self.old }
        ensures fail { fail_of self.new ≡ fail_of self.old }
        ensures reads { CanCount self.old.handed into.old → reads_of self.new ≡ reads_after self.old }

        // It fails on request, and if it cannot count.
        ensures due { IsDueNow self.old at → IsErr result }
        ensures only_due { IsErr result → IsDueNow self.old at ⊎ CantCount self.old.handed into.old }
    {
        let from = at as usize;
        let n = into.len().min(self.bytes.len() - from).min(self.step);
        if u128::MAX - self.handed < n as u128 {
            self.failures = self.failures.saturating_add(1);
            return Err(SourceFailed);
        }
        let is_due = self.fail.is_due(at, self.reads);
        self.reads = self.reads.saturating_add(1);
        if is_due {
            self.failures = self.failures.saturating_add(1);
            return Err(SourceFailed);
        }
        into[..n].copy_from_slice(&self.bytes[from..from + n]);
        self.handed += n as u128;
        Ok(n)
    }
}
