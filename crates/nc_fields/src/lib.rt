//! The fields of the header of a netCDF classic file.
//!
//! [`list_fields`] reads a header from any source, through a caller's buffer, and lists its fields: each with its place, its offset, its
//! size and what matters of its content. If the header is wrong, the list ends with the first wrong field and its fault. Files with floats
//! and doubles are taken, since no value is read. If a file doesn't begin with `CDF`, the listing has its first 52 bytes. A check of a file
//! looks at the listing; the rules on begins, sizes and the length of a file are in the crate `nc_layout`.
//!
//! ```
//! let mut buf = [0; 4096];
//! let listing = list_fields(alloc, source, &mut buf)?;
//! Ok(listing.entries.len())
//! ```
#![tactic(auto)]

mod attribute;
mod dimension;
mod fields;
mod header;
mod list;
mod list_name;
mod name;
mod number;
mod start;
mod variable;

pub use header::list_fields;
pub use nc_findings::{
    Content, Entry, FieldBytes, FieldKind, HDF5_SIGNATURE, ListFault, Listing, Owner, Place,
};
