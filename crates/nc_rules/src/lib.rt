//! The rules on the fields of a header, and all findings of a file.
//!
//! [`findings_of`] returns all that is wrong or odd in a file whose fields were listed, in one order. The rules look at the listing
//! (crate `nc_findings`); those on begins, sizes and the length of the file are those of `nc_layout`. Nothing here reads a device.
//! `specs/` has the definitions.
#![tactic(auto)]

mod ahead;
mod attribute_rules;
mod field_rules;
mod finding;
mod findings;
mod header_rules;
mod name_rules;
mod names;
mod number_fields;
mod superblock;
mod whole_header;

pub use ahead::{Ahead, NumberField, ValuesAt};
pub use findings::findings_of;
