//! What can be found in a netCDF classic file, and the fields of a header at which it is found.
//!
//! A [`Listing`] has the fields of a header ([`Entry`]), each in its [`Place`]. A [`Report`] has a listing and all findings
//! ([`Finding`]); each is a [`Fact`] of a [`Kind`], which has a [`Severity`]. A [`Filter`] says which of them to report. The crates of the
//! rules make findings, `check_lines` writes them, and `check_options` reads a filter. The last two need these types alone, and so don't
//! depend on the crates of the rules.
#![tactic(auto)]

mod entry;
mod field_bytes;
mod filter;
mod finding;
mod kind;
mod layout_fact;
mod limits;
mod list_fault;
mod listing;
mod place;
mod report;

pub use entry::{Content, Entry};
pub use field_bytes::FieldBytes;
pub use filter::Filter;
pub use finding::{Fact, Finding};
pub use kind::{Kind, Severity};
pub use layout_fact::{Block, LayoutFact, LayoutFinding, LayoutPlace, Slab};
pub use limits::{HDF5_SIGNATURE, HIGHEST_RANK, LARGE_COUNT, LONGEST_NAME};
pub use list_fault::ListFault;
pub use listing::Listing;
pub use place::{FieldKind, Owner, Place};
pub use report::Report;
