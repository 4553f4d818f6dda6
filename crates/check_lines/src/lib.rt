//! The lines that tell what is wrong or odd in a netCDF classic file: one for each finding of a report.
//!
//! [`put_lines`] writes a line for each finding of a report that is to be reported, and [`gravest`] says how grave the gravest of them is;
//! a [`Filter`](nc_findings::Filter) says which are. [`put_json_lines`] writes a JSON object in place of each line (RFC 8259).
//! [`put_file_path`] gives a path as it stands in a line.
//!
//! Each function that takes a [`Sink`](devices::Sink) writes its text from beginning to end, and does not allocate. It errs only if the
//! sink fails, and writes nothing after that.
//!
//! ```
//! let filter = Filter {
//!     level: Severity::Note,
//!     ignored: Sequence::new(alloc),
//! };
//! put_lines(sink, b"a.nc", report, &filter)
//! ```
#![tactic(auto)]

mod content;
mod details;
mod fault_message;
mod field_path;
mod known_names;
mod layout_message;
mod line;
mod message;
mod object;
mod passed;
mod report_lines;
mod shown;
mod style;

pub use report_lines::{gravest, put_json_lines, put_lines};
pub use shown::{LONGEST_PATH, put_file_path};
