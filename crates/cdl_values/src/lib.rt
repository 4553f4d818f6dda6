//! The values of CDL text, as a file has them: the constants of an attribute, and what a statement of the data section lists.
//!
//! What a statement means is defined in `cdl_statements`. This crate is internal: `cdl_parse` alone calls it.
//!
//! ```
//! // the next token of `first` is the first constant of an attribute
//! let ty = type_said(first.version(), first.lexeme());
//! let bytes = read_constants(alloc, ty, first)?;
//! Ok(bytes)
//! ```
#![tactic(auto)]

mod capacity;
mod constant;
mod data;
mod fill;
mod form;
mod name;
mod name_index;
mod number;
mod packing;
mod read_error;
mod string;
mod targets;
mod value;
mod value_run;
mod variable_names;

pub use capacity::Capacity;
pub use constant::{read_constants, type_said};
pub use data::{StatementValues, Target, read_data_statement};
pub use fill::Fill;
pub use form::ValueForm;
pub use name::{name_of_word, read_name};
pub use name_index::NameIndex;
pub use number::{number_or_zero, pack_number};
pub use read_error::ReadError;
pub use targets::targets_of;
pub use variable_names::VariableNames;
