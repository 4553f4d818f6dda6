//! Devices in memory.

ghost use Rattle.std.specs.Prelude.{◌≡◌, ◌<◌, [], IsErr, Some, true, length};
ghost use Rattle.nc_types.specs.Bytes.{AreBytes};
ghost use Rattle.devices.specs.code.SinkWrites.{unfailed};
ghost use Rattle.devices.specs.code.SourceReads.{ReadSome, CantCount, unread};

use crate::{Sink, SinkFailed, Source, SourceFailed};
use std::alloc::Global;

/// A transparent source: contracts know its bytes, which are those of a slice.
///
/// It fails only if the number of bytes that were read would reach 2^128.
#[derive(Drop)]
pub struct MemSource<'a> {
    bytes: &'a [u8],
    failures: u128,
    handed: u128,
}

impl<'a> MemSource<'a> {
    ghost use Rattle.devices.specs.code.Memory.{view_of};

    /// Creates a source of these bytes. None of them has been read.
    pub fn new(bytes: &'a [u8]) -> MemSource<'a>
        ensures { view_of result ≡ unread bytes.now }
    {
        MemSource {
            bytes,
            failures: 0,
            handed: 0,
        }
    }

    /// Returns how many reads of the source have failed, at most `u128::MAX`.
    pub(crate) fn failures(&self) -> u128
        ensures { result ≡ (view_of self.now).failures }
    {
        self.failures
    }
}

impl Source for MemSource<'_> {
    ghost use Rattle.devices.specs.code.Memory.{view_of};

    ghost is_transparent = { true };

    ghost view = { view_of };

    /// Returns the number of the slice's bytes.
    fn len(&self) -> u64 {
        length_of(self.bytes)
    }

    /// Copies bytes of the slice, from the offset `at` on, to the start of `into`, as many as there are and fit. Returns how many. Errs,
    /// and counts one failure, only if the number of bytes read would reach 2^128: nothing is copied then. Needs an `into` that isn't
    /// empty, and an offset before the slice's end.
    #[tactic(auto, unfolding(crate::specs::Failures::HasFailed))]
    fn read_at(&mut self, at: u64, into: &mut [u8]) -> Result<usize, SourceFailed>
        requires room { 0 < length into.old }
        requires inside { at < length (view_of self.old).bytes }
        ensures read { ReadSome true (view_of self.old) (view_of self.new) at into.new result }
        ensures only_full { IsErr result → CantCount self.old.handed into.old }
    {
        let from = at as usize;
        let n = into.len().min(self.bytes.len() - from);
        if u128::MAX - self.handed < n as u128 {
            self.failures = self.failures.saturating_add(1);
            return Err(SourceFailed);
        }
        into[..n].copy_from_slice(&self.bytes[from..from + n]);
        self.handed += n as u128;
        Ok(n)
    }
}

/// Returns the number of the bytes. It is for the `len` of a transparent source, since its contract also states that each byte is below
/// 256.
pub(crate) fn length_of(bytes: &[u8]) -> u64
    ensures length { result ≡ length bytes.now }
    ensures bytes { AreBytes bytes.now }
{
    bytes.len() as u64
}

/// A transparent sink: contracts know the bytes that it has taken, all of which it keeps in memory.
///
/// It fails only if an allocation fails.
#[derive(Drop)]
pub struct MemSink {
    bytes: Vec<u8>,
    failures: u128,
}

impl MemSink {
    ghost use Rattle.devices.specs.code.Memory.{sink_view_of};

    /// Creates an empty sink. It allocates from `alloc` only if it takes bytes.
    pub fn new(alloc: Global) -> MemSink
        ensures { sink_view_of result ≡ unfailed (Some []) }
    {
        MemSink {
            bytes: Vec::new(alloc),
            failures: 0,
        }
    }

    /// Returns all bytes that the sink has taken.
    pub fn as_slice(&self) -> &[u8]
        ensures { (sink_view_of self.now).taken ≡ Some result.now }
    {
        self.bytes.as_slice()
    }

    /// Returns how many writes to the sink have failed, at most `u128::MAX`.
    pub(crate) fn failures(&self) -> u128
        ensures { result ≡ (sink_view_of self.now).failures }
    {
        self.failures
    }
}

impl Sink for MemSink {
    ghost use Rattle.devices.specs.code.Memory.{sink_view_of};

    ghost view = { sink_view_of };

    /// Takes all of the bytes, and returns how many they are. Errs, and counts one failure, if an allocation fails: it takes none of them
    /// then.
    #[tactic(auto, using(crate::proofs::Writes::devices), unfolding(crate::specs::Sinks::append, crate::specs::Sinks::taken_len, crate::specs::Sinks::IsCut, crate::specs::Sinks::is_transparent, crate::specs::Failures::HasFailed))]
    fn write_some(&mut self, bytes: &[u8]) -> Result<usize, SinkFailed> {
        if bytes.is_empty() {
            return Ok(0);
        }
        if self.bytes.extend_from_slice(bytes).is_err() {
            self.failures = self.failures.saturating_add(1);
            return Err(SinkFailed);
        }
        Ok(bytes.len())
    }
}
