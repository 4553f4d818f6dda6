//! The header of a netCDF classic file.
//!
//! [`read_header`] reads the header of a file from any source, through a caller's buffer, or errs with a [`HeadFault`]. A header
//! is written in two steps: [`with_begins`] gives each variable its begin, or errs with [`OffsetTooLarge`], and [`write_header`]
//! writes the header to any sink. [`header_len`] returns the number of bytes that it writes. Devices of the crate `devices` are
//! passed on, so that a program can name them by this crate. The crates here take them from `devices`.
//!
//! ```
//! let mut buf = [0; 4096];
//! let header = read_header(alloc, source, &mut buf)?;
//! let placed = with_begins(header)?;
//! write_header(sink, &placed)?;
//! ```
//!
//! The crate `example` is a whole program.
#![tactic(auto)]

pub mod laws;
mod read;
mod tag;
mod write;

pub use devices::{
    CountedRead, DripSource, FailWhen, FileSource, Flush, IoSink, MemFile, MemFiles, MemSink,
    MemSource, OpenFailed, Opener, Sink, SinkFailed, SliceSink, Source, SourceFailed, SystemFiles,
    WriteFailed, put,
};
pub use nc_window::HeadFault;
pub use read::read_header;
pub use write::{OffsetTooLarge, header_len, with_begins, write_header};
