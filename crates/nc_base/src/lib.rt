//! What a netCDF classic file, a dataset and its CDL text are.
//!
//! This crate has headers and datasets, and what follows from them alone: sizes, the rule on names, the fill value of a
//! variable and the stem of a path. It passes on the types and versions of `nc_types`. `specs/` has the definitions that the
//! contracts of all crates above cite: the grammar of a header, its first wrong field, sizes, fill values and the text of a
//! dump. Nothing in it reads or writes a device.
//!
//! ```
//! let mut name = Sequence::new(alloc);
//! name.push(b'x')?;
//! let mut dims = Sequence::new(alloc);
//! dims.push(Dim { name, len: 3 })?;
//! let header = Header {
//!     version: Version::Cdf1,
//!     numrecs: NumRecs::Known(0),
//!     dims,
//!     gatts: Sequence::new(alloc),
//!     vars: Sequence::new(alloc),
//! };
//! let keeps_limits = header.sound();
//! Ok(keeps_limits)
//! ```
#![tactic(auto)]

mod dataset;
mod fault;
mod fill;
mod header;
pub mod laws;
mod listed_array;
mod name;
mod named;
mod number;
mod path;
mod sizes;
mod sound;
mod weights;

pub use dataset::Dataset;
pub use fault::FormatFault;
pub use fill::{fill_of, prints_fill};
pub use header::{Att, Dim, Header, NumRecs, Var};
pub use listed_array::{ListedArray, Run};
pub use name::check_name;
pub use named::Named;
pub use nc_types::{
    Escape, NcType, Quoting, Sequence, Version, begins_with_digit_or_mark, is_reserved,
};
pub use number::number_of;
pub use path::stem;
pub use sizes::{
    RECORD_LIMIT, RecordLayout, SLAB_LIMIT, dim_len, extent_end, is_narrow, is_record_dim,
    is_record_shape, is_record_var, padding_len, rec_size, record_layout, records, slab_bytes,
    slab_len, sound_record_size, value_count,
};
pub use weights::weight;
