//! The netCDF classic file of a CDL text, and the command line of the program `ncgen`.
//!
//! [`generate`] reads a CDL text and writes its file. [`prepare`] only reads the text, and returns the file ready to be written.
//! [`read_text`] gets the bytes of a text from a reader. [`GenOptions`] says which text to read and where to write its file;
//! [`options_of`] makes these options from the matches of [`command`]. If there is no file, [`fault_line`] writes why. [`run`] is the
//! whole program, but its caller gives it the standard streams, and flushes standard error; [`run_with`] is the same over any opener of
//! texts and creator of outputs.
//!
//! ```
//! const TEXT: &[u8] =
//!     b"netcdf a { dimensions: x = 3 ; variables: int v(x) ; data: v = 1, 2, 3 ; }";
//! let mut file = MemSink::new(alloc);
//! generate(alloc, TEXT, Version::Cdf1, &mut file)?;
//! println!(rt; "{} bytes", file.as_slice().len())?;
//! ```
#![tactic(auto)]

mod command_line;
mod failure;
mod fault;
mod fault_text;
mod generating;
mod input;
mod options;
mod output;
mod prepared;
mod reading;
mod running;

pub use cli_base::OptFault;
pub use command_line::{command, options_of};
pub use fault::{GenFault, TextFault};
pub use fault_text::{fault_line, put_command_line_fault};
pub use generating::{generate, prepare};
pub use options::GenOptions;
pub use prepared::Prepared;
pub use reading::read_text;
pub use running::{run, run_with};
