//! Devices that stand in for those of the system in tests.

mod drip;
mod made;
mod mem_files;
mod slice;

pub use drip::{DripSource, FailWhen};
pub use made::{MadeFile, MadeFiles};
pub use mem_files::{MemFile, MemFiles};
pub use slice::SliceSink;
