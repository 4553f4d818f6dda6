//! Reading a header: a file for each of its parts.

mod attribute;
mod dimension;
mod header;
mod list;
mod variable;

pub use header::read_header;
