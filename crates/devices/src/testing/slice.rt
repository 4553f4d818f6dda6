//! A sink over a slice.

ghost use Rattle.std.specs.Prelude.{◌≡◌, ◌↔◌, ◌<◌, ◌≤◌, ◌+◌, ◌-◌, [], Some, length, take, true, IsErr, IfOk, OnErr};
ghost use Rattle.devices.specs.code.SinkWrites.{WroteSome, unfailed};

use crate::{Flush, Sink, SinkFailed};

/// A transparent sink that keeps the bytes that it takes at the start of a slice. It takes at most `step` of them a call.
///
/// It fails once the slice is full.
#[derive(Drop)]
pub struct SliceSink<'a> {
    into: &'a mut [u8],
    step: usize,
    len: usize,
    failures: u128,
    ghost steps: { 1 ≤ step },
    ghost within: { len ≤ length into.now },
}

impl<'a> SliceSink<'a> {
    ghost use Rattle.devices.specs.code.Slice.{view_of, capacity_left, step_of};

    /// Creates an empty sink that will keep its bytes in the slice `into`. It takes at most `step` bytes a call. Needs a `step` of at least
    /// 1.
    pub fn new(into: &'a mut [u8], step: usize) -> SliceSink<'a>
        requires { 1 ≤ step }
        ensures view { view_of result ≡ unfailed (Some []) }
        ensures buffer_len { capacity_left result ≡ length into.old }
        ensures step { step_of result ≡ step }
    {
        SliceSink {
            into,
            step,
            len: 0,
            failures: 0,
        }
    }

    /// Returns all bytes that the sink has taken.
    pub fn taken(&self) -> &[u8]
        ensures { (view_of self.now).taken ≡ Some result.now }
    {
        &self.into[..self.len]
    }
}

impl Sink for SliceSink<'_> {
    ghost use Rattle.devices.specs.code.Slice.{view_of, capacity_left, step_of};

    ghost view = { view_of };

    /// Takes bytes from the start of `bytes`, at most `step` and no more than the slice has room for, and returns how many. Errs, and
    /// counts one failure, if the slice is full and `bytes` isn't empty.
    #[tactic(auto, using(crate::proofs::Writes::devices), unfolding(crate::specs::Sinks::append, crate::specs::Sinks::taken_len, crate::specs::Sinks::IsCut, crate::specs::Sinks::is_transparent, crate::specs::Failures::HasFailed))]
    fn write_some(&mut self, bytes: &[u8]) -> Result<usize, SinkFailed>
        ensures wrote { WroteSome (view_of self.old) (view_of self.new) bytes.now result }
        ensures few { IfOk result (λ n. n ≤ step_of self.old) }
        ensures step { step_of self.new ≡ step_of self.old }

        // It fails once it has no room.
        ensures full { IsErr result ↔ (0 < length bytes.now) × (capacity_left self.old ≡ 0) }
        ensures buffer_len { IfOk result (λ n. capacity_left self.new + n ≡ capacity_left self.old) }
        ensures same_buffer_len { OnErr result (capacity_left self.new ≡ capacity_left self.old) }
    {
        if bytes.is_empty() {
            return Ok(0);
        }
        let left = self.into.len() - self.len;
        if left == 0 {
            self.failures = self.failures.saturating_add(1);
            return Err(SinkFailed);
        }
        let n = bytes.len().min(left).min(self.step);
        self.into[self.len..self.len + n].copy_from_slice(&bytes[..n]);
        self.len += n;
        Ok(n)
    }
}

impl Flush for SliceSink<'_> {
    // It holds nothing back.
    ghost is_flushed = { λ _. true };

    /// Does nothing, since the sink holds nothing back, and never errs.
    #[tactic(auto, using(crate::proofs::Writes::writes))]
    fn flush(&mut self) -> Result<(), SinkFailed> {
        Ok(())
    }
}
