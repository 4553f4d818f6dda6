//! The rules on the layout of a netCDF classic file.
//!
//! Everything here is about numbers: the begins and slabs of the variables, the number of records, the end of the header and the length of
//! the file. [`sound_layout`] takes them from a header. Nothing reads a device, and no byte of a header or of a value is looked at.
//! `specs/` has the definitions.
//!
//! ```
//! match sound_layout(alloc, header, header_end, file_len)? {
//!     Some(layout) => Ok(layout_findings(alloc, &layout)?.as_slice().len()),
//!     None => Ok(0),
//! }
//! ```
#![tactic(auto)]

mod block_rules;
mod blocks;
mod file_end;
mod finding;
mod findings;
mod header_layout;
mod numrecs_rules;
mod records;
mod slot;
mod slot_rules;
mod sound;

pub use blocks::Extent;
pub use file_end::SlabPlace;
pub use findings::layout_findings;
pub use header_layout::sound_layout;
pub use nc_findings::{Block, LayoutFact, LayoutFinding, LayoutPlace, Slab};
pub use records::padded_slab_len;
pub use slot::{FileLayout, Slot};
