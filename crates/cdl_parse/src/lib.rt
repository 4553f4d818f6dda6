//! The parser of CDL texts: the dataset that a text means, or its first fault with its line (the CDL chapter of the NetCDF
//! User's Guide, and ncgen(1)).
//!
//! What a text means is defined in `cdl_statements`; the values of a statement are read by `cdl_values`.
//!
//! ```
//! const TEXT: &[u8] = b"netcdf a { dimensions: x = 3 ; variables: byte v(x) ; data: v = 1, 2 ; }";
//! match parse(alloc, TEXT, Version::Cdf1) {
//!     Ok(dataset) => {
//!         for array in dataset.arrays.as_slice() {
//!             // the values of a variable, big-endian: 01 02 81, the last of them the fill value
//!             println!(rt; "{} bytes", array.len())?;
//!         }
//!     }
//!     Err(fault) => println!(rt; "{fault}")?,
//! }
//! ```
#![tactic(auto)]

mod attribute;
mod attributes;
mod closing;
mod data_section;
mod declaration;
mod declared_values;
mod definition_sections;
mod definitions;
mod dimension;
mod dimension_list;
mod dimensions;
mod finishing;
mod parse_error;
mod records;
mod taken_name;
mod text;
mod text_end;
mod variable_lookup;
mod variables;

pub use cdl_statements::{CdlFault, CdlKind, Cutter};
pub use cdl_tokens::{Token, TokenKind};
pub use declared_values::Declared;
pub use text::{declared, parse};
