//! The bytes of a field.

ghost use Rattle.std.specs.Prelude.{◌≡◌, ◌≤◌, length, IsOk, IfOk};

use smallvec::SmallVec;
use std::alloc::{AllocError, Global};
use std::marker::Model;

/// The bytes of a field, which contracts see as a list. Up to 16 of them take no allocation: most names have no more, and what fills a
/// field up never has.
#[derive(Debug, Drop)]
pub struct FieldBytes {
    bytes: SmallVec<u8, 16>,
}

impl Model for FieldBytes {
    ghost use Rattle.std.specs.Prelude.{List, ℕ};

    ghost Value = { List ℕ };

    ghost view = { λ field. field.bytes.items };
}

impl FieldBytes {
    /// Returns a copy of the bytes. Errs only if there are more than 16 and an allocation fails.
    pub fn from_slice(alloc: Global, bytes: &[u8]) -> Result<FieldBytes, AllocError>
        ensures copy { IfOk result (λ field. field ≡ bytes.now) }
        ensures few { length bytes.now ≤ 16 → IsOk result }
    {
        Ok(FieldBytes {
            bytes: SmallVec::from_slice(alloc, bytes)?,
        })
    }

    /// Returns the bytes as a slice.
    pub fn as_slice(&self) -> &[u8]
        ensures { result.now ≡ self.now }
    {
        self.bytes.as_slice()
    }
}
