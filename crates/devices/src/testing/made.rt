//! Outputs in memory.

ghost use Rattle.std.specs.Prelude.{◌≡◌, Some, true};
ghost use Rattle.devices.specs.code.Creations.{uncreated};
ghost use Rattle.devices.specs.code.Made.{Gave, given_of, output_of, view_of};

use crate::{CloseFailed, CreateFailed, Creator, MemSink};
use std::alloc::{AllocError, Global};

/// A path, and the bytes that it was given when an output was created or closed there.
#[derive(Drop)]
pub struct MadeFile {
    path: String,
    bytes: MemSink,
}

impl MadeFile {
    /// Returns the path at which the output was created or closed.
    pub fn path(&self) -> &str
        ensures { result.now ≡ (output_of self.now).path }
    {
        self.path.as_str()
    }

    /// Returns the bytes that the path was given: none when the output was created, all that were written to it when it was closed.
    pub fn bytes(&self) -> &[u8]
        ensures { (output_of self.now).bytes ≡ Some result.now }
    {
        self.bytes.as_slice()
    }
}

/// What creates outputs in memory, whose bytes contracts know (they are transparent).
#[derive(Drop)]
pub struct MadeFiles {
    alloc: Global,
    made: Vec<MadeFile>,
    creations: u128,
    failures: u128,
}

impl MadeFiles {
    /// Creates `MadeFiles` without outputs. Their paths and bytes will take memory from `alloc`.
    pub fn new(alloc: Global) -> MadeFiles
        ensures { view_of result ≡ uncreated }
    {
        MadeFiles {
            alloc,
            made: Vec::new(alloc),
            creations: 0,
            failures: 0,
        }
    }

    /// Returns what was given to paths, in order: an item without bytes for each output that was created, and a second one, with the bytes
    /// that were written, for each output that was closed.
    pub fn given(&self) -> &[MadeFile]
        ensures { given_of result.now ≡ (view_of self.now).given }
    {
        self.made.as_slice()
    }

    /// Appends an item of this path and these bytes to what [`given`](MadeFiles::given) returns. If an allocation fails, it errs, and
    /// nothing is appended.
    fn add_file(&mut self, path: &str, bytes: MemSink) -> Result<(), AllocError>
        ensures { Gave self.old self.new path.now bytes result }
    {
        let path = String::from_str(self.alloc, path)?;
        self.made.push(MadeFile { path, bytes })?;
        Ok(())
    }
}

impl Creator for MadeFiles {
    type Output = MemSink;

    ghost is_transparent = { true };

    ghost view = { view_of };

    /// Appends an item without bytes to what [`given`](MadeFiles::given) returns, and returns an empty sink. Errs, and counts one failure,
    /// if an allocation fails or 2^128 - 1 outputs were created before: nothing is appended then.
    #[tactic(auto, unfolding(crate::specs::Failures::HasFailed))]
    fn create(&mut self, path: &str) -> Result<MemSink, CreateFailed> {
        let is_given = self.creations < u128::MAX
            && self.add_file(path, MemSink::new(self.alloc)).is_ok();
        if !is_given {
            self.failures = self.failures.saturating_add(1);
            return Err(CreateFailed);
        }
        self.creations += 1;
        Ok(MemSink::new(self.alloc))
    }

    /// Appends an item with the bytes of `output` to what [`given`](MadeFiles::given) returns, and adds the failures of `output` to its
    /// own, up to `u128::MAX`. Errs if an allocation fails: then it appends nothing, and counts one failure in place of those of `output`.
    #[tactic(auto, unfolding(crate::specs::Failures::HasFailed))]
    fn close(&mut self, path: &str, output: MemSink) -> Result<(), CloseFailed> {
        let failures = output.failures();
        if self.add_file(path, output).is_err() {
            self.failures = self.failures.saturating_add(1);
            return Err(CloseFailed);
        }
        self.failures = self.failures.saturating_add(failures);
        Ok(())
    }
}
