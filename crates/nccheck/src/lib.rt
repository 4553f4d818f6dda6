//! The program `nccheck`, which says what is wrong or odd in netCDF classic files: its whole run.
//!
//! [`run_with`] is the whole program, but its caller gives it the opener of files and the standard streams, and flushes standard error. The
//! lines of a report are those of the crate `check_lines`, and the options are those of `check_options`, which this crate passes on.
//!
//! ```
//! let words = ["nccheck", "-s", "a.nc"];
//! let mut input = CountedRead::new(b"".as_slice());
//! let mut err = MemSink::new(alloc);
//! run_with(opener, alloc, &words, &mut input, out, &mut err)
//! ```
#![tactic(auto)]

mod checking;
mod counting;
mod fault;
mod fault_text;
mod format;
mod info;
mod path_list;
mod running;
mod tally;

pub use check_options::{CheckOptions, CommandFault, Form, Misuse, command, options_of};
pub use cli_base::OptFault;
pub use fault_text::put_command_line_fault;
pub use running::run_with;
