//! The dump of a netCDF classic file as CDL text, and the command line of the program `ncdump`.
//!
//! [`dump`] reads a file and writes its text. If `dump` fails, [`fault_line`] writes why. [`DumpOptions`] says what is shown, and under
//! which name; [`options_of`] makes these options from the matches of [`command`]. [`run`] is the whole program, but its caller gives
//! it the standard streams and flushes them; [`run_with`] is the same over any opener of files.
//!
//! ```
//! let options = DumpOptions {
//!     file: String::from_str(alloc, "a.nc")?,
//!     name: Sequence::from_vec(Vec::from_slice(alloc, b"a")?),
//!     head_only: false,
//!     coords: false,
//!     chosen: None,
//!     width: 80,
//! };
//! let mut source = FileSource::open(rt, "a.nc")?;
//! let mut buf = [0; 4096];
//! dump(alloc, &mut source, &options, &mut buf, out)?;
//! ```
#![tactic(auto)]

mod command_line;
mod dumping;
mod fault;
mod fault_text;
pub mod laws;
mod names;
mod options;
mod running;
mod selection;
mod showing;

pub use cli_base::OptFault;
pub use command_line::{command, options_of};
pub use dumping::dump;
pub use fault::DumpFault;
pub use fault_text::{fault_line, put_command_line_fault};
pub use options::DumpOptions;
pub use running::{run, run_with};
pub use selection::select;
pub use showing::show;
