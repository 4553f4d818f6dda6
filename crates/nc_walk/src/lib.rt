//! Reads the values of one variable out of a file, and writes the values of all variables into a file.
//!
//! A [`Walk`] hands out the values of a variable in row-major order, as the file has them, in chunks that it lends out of a
//! caller's buffer. It reads no byte that isn't a byte of a value, and none twice for the same value, and it does not allocate.
//!
//! [`write_data`] writes the data part of a file straight from the arrays of its variables, whose last values may be lacking. It does not
//! allocate either: [`record_slabs`], called before it, collects what it has to know of each record variable.
//!
//! ```
//! let mut buf = [0; 4096];
//! let layout = record_layout(header, source.len());
//! let mut walk = Walk::with_layout(header, var_index, layout, &mut buf);
//! let mut longest = 0;
//! while let Some(chunk) = walk.next(source)? {
//!     // whole values, big-endian, one after the other
//!     longest = longest.max(chunk.len());
//! }
//! Ok(longest)
//! ```
//!
//! The crate `example` is a whole program.
#![tactic(auto)]

mod chunk;
mod cursor;
mod fault;
pub mod laws;
mod read_full;
mod slabs;
mod walk;
mod write;

pub use fault::WalkFault;
pub use walk::Walk;
pub use write::{RecordSlab, record_slabs, write_data};
