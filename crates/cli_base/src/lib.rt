//! What the command lines of the programs have in common: options of one letter, the values that clap's matches have for them,
//! and the fault of a command line.
//!
//! ```
//! let command = Command::new(alloc, "show")
//!     .arg(flag(alloc, "header", 'h'))?
//!     .arg(option(alloc, "width", 'l'))?
//!     .arg(Arg::new(alloc, "file"))?;
//! let matches = command.try_get_matches_from(words)?;
//! let header_only = is_given(&matches, "header");
//! let width = value_of(&matches, "width");
//! Ok(header_only || width.is_some())
//! ```
//!
//! This crate is internal: `ncdump`, `ncgen`, `check_options`, `nccheck` and the programs alone call it.
#![tactic(auto)]

mod arguments;
mod fault;

pub use arguments::{copy_bytes, flag, is_given, option, value_of};
pub use fault::OptFault;
