//! Writing a header: a file for each of its parts, its length, and the begins of its variables. Each function that writes errs only if the
//! sink fails. The sink has then taken some prefix of what the function writes.

mod attribute;
mod begins;
mod dimension;
mod header;
mod length;
mod list;
mod number;
mod slab;
mod variable;

pub use begins::{OffsetTooLarge, with_begins};
pub use header::write_header;
pub use length::header_len;
