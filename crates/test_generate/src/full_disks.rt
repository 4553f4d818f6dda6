//! Outputs with little space.

ghost use Rattle.std.specs.Prelude.{[], ◌≡◌, None, false};

use devices::{CloseFailed, CreateFailed, Creator, Sink, SinkFailed};
use std::alloc::Global;

/// Outputs on a full disk: only a few can be created, and together they take only a few bytes.
#[derive(Drop)]
pub struct FullDisk {
    alloc: Global,
    files_left: u64,
    space: usize,
    held: Vec<u8>,
    creations: u128,
    failures: u128,
}

impl FullDisk {
    /// A disk for this number of files, with space for this number of bytes.
    pub fn new(alloc: Global, files_left: u64, space: usize) -> FullDisk {
        FullDisk {
            alloc,
            files_left,
            space,
            held: Vec::new(alloc),
            creations: 0,
            failures: 0,
        }
    }

    /// What the outputs hold.
    pub fn held(&self) -> &[u8] {
        self.held.as_slice()
    }
}

/// An output on a disk. It takes at most seven bytes a call.
#[derive(Drop)]
pub struct SmallSink {
    bytes: Vec<u8>,
    space: usize,
    failures: u128,
}

impl SmallSink {
    /// Takes these bytes, if there is space and memory.
    fn take(&mut self, bytes: &[u8]) -> bool
        ensures { self.new.failures ≡ self.old.failures }
    {
        if self.space < bytes.len() {
            return false;
        }
        self.space -= bytes.len();
        self.bytes.extend_from_slice(bytes).is_ok()
    }
}

impl Sink for SmallSink {
    ghost view = { λ s. record { taken = None; failures = s.failures } };

    #[tactic(auto, unfolding(devices::specs::Sinks::is_transparent, devices::specs::Failures::HasFailed))]
    fn write_some(&mut self, bytes: &[u8]) -> Result<usize, SinkFailed> {
        if bytes.is_empty() {
            return Ok(0);
        }
        let n = bytes.len().min(7).min(self.space.max(1));
        if !self.take(&bytes[..n]) {
            self.failures = self.failures.saturating_add(1);
            return Err(SinkFailed);
        }
        Ok(n)
    }
}

impl Creator for FullDisk {
    type Output = SmallSink;

    ghost is_transparent = { false };

    ghost view = { λ s. record { given = []; creations = s.creations; failures = s.failures } };

    #[tactic(auto, unfolding(devices::specs::Failures::HasFailed))]
    fn create(&mut self, _path: &str) -> Result<SmallSink, CreateFailed> {
        if self.files_left == 0 || self.creations == u128::MAX {
            self.failures = self.failures.saturating_add(1);
            return Err(CreateFailed);
        }
        self.files_left -= 1;
        self.creations += 1;
        Ok(SmallSink {
            bytes: Vec::new(self.alloc),
            space: self.space,
            failures: 0,
        })
    }

    #[tactic(auto, unfolding(devices::specs::Failures::HasFailed))]
    fn close(&mut self, _path: &str, output: SmallSink) -> Result<(), CloseFailed> {
        let SmallSink {
            bytes,
            space: _,
            failures,
        } = output;
        self.held = bytes;
        self.failures = self.failures.saturating_add(failures);
        Ok(())
    }
}
