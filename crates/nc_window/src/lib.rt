//! The bytes and numbers of a header, read one after the other through a caller's buffer, and the rules on single fields.
//!
//! A [`Window`] reads on from a source only when all bytes that it holds have been used. Its readers err with a [`HeadFault`].
//! [`type_in`], [`is_dimid`] and [`total_with`] are the rules that hold of a field whatever is made of it: `nc_file` makes a
//! header of the fields, and `nc_fields` a list.
#![tactic(auto)]

mod field_rules;
mod head_fault;
mod sized_var;
mod window;

pub use field_rules::{is_dimid, total_with, type_in};
pub use head_fault::HeadFault;
pub use sized_var::{SizedType, SizedVar};
pub use window::Window;
