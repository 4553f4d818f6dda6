//! The statements of a CDL text (the CDL chapter of the NetCDF User's Guide, and ncgen(1)).
//!
//! `specs/` has the definitions, from tokens to a dataset: the cut of the tokens into statements, the shapes of these, what each of them
//! adds to the dataset so far (`State`), and what all of them mean (`Meaning`). The code has the types that the definitions and their
//! readers share. The reader of a text, `cdl_parse`, and the laws of its meaning, `cdl_laws`, both stand on this crate, and not on each
//! other.
//!
//! ```
//! let mut cutter = Cutter::new(text, Version::Cdf1);
//! let mut tokens = Vec::new(alloc);
//! let mut line = cutter.line();
//! while cutter.next(&mut tokens)? {
//!     println!(rt; "line {line}: {} tokens", tokens.len())?;
//!     line = cutter.line();
//! }
//! ```
#![tactic(auto)]

mod cutter;
mod due;
mod fault;
mod lexeme;
mod passing;
mod piece;
mod section;
mod shape_check;
mod value_list;

pub use cutter::Cutter;
pub use due::Due;
pub use fault::{CdlFault, CdlKind};
pub use lexeme::Lexeme;
pub use piece::{CutState, Role, Step};
pub use section::Section;
pub use shape_check::{check_statement, pass_statement, token_fault};
pub use value_list::ValueList;
