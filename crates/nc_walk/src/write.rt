//! Writing the data part of a file: a module for each of its parts.
//!
//! Each function that writes errs only if the sink failed. The sink has then taken some prefix of what the function writes.

mod blocks;
mod data;
mod fills;
mod part;
mod record_slab;
mod records;
mod slab_fill;
mod slab_writer;

pub use data::write_data;
pub use record_slab::{RecordSlab, record_slabs};
