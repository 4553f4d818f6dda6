//! The types of values, the versions of the format, and how names and strings are written in CDL.
//!
//! [`NcType`] is a row of the type table, and [`Version`] what differs between CDF-1, CDF-2 and CDF-5. [`Quoting`] says how a
//! byte of a name or of a string is written. A [`Sequence`] is a growable array that contracts see as a list. This is the lowest
//! crate: devices, the tokens of a text and headers all stand on it, and `nc_base` passes its items on.
#![tactic(auto)]

mod escape;
mod nc_type;
mod sequence;
mod version;

pub use escape::{Escape, Quoting, begins_with_digit_or_mark, is_reserved};
pub use nc_type::NcType;
pub use sequence::Sequence;
pub use version::Version;
