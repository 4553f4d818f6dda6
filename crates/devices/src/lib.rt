//! Devices: what bytes are read from, and what they are written to.
//!
//! A [`Source`] gives bytes from any offset, and a [`Sink`] takes bytes one after another. Each counts its failures and says
//! nothing of their cause. [`MemSource`] and [`MemSink`] are in memory, [`FileSource`] is a file of the system, and [`IoSink`]
//! writes to any writer of the standard library. [`put`] writes all of the bytes that it is given, and [`put_decimal`] a number.
//!
//! An [`Opener`] opens paths as sources, and [`TextOpener`] opens them as readers; [`OpenCounts`] is what both count.
//! [`SystemFiles`] opens the files of the system in both ways, and [`DirectFiles`] as sources that don't read ahead. A
//! [`CountedRead`] counts what a reader does. A [`Creator`] creates outputs at paths: [`SystemOutputs`] in the files of the system.
//!
//! For tests, [`DripSource`] gives few bytes a read and fails on request, and [`SliceSink`] fills a slice, a few bytes a call.
//! [`MemFiles`] opens files of a list in memory, and [`MadeFiles`] creates outputs in memory.
//!
//! ```
//! let source = FileSource::open(rt, "a.nc")?;
//! let mut out = IoSink::new(BufWriter::new(rt.alloc(), io::writer(rt))?);
//! put(&mut out, b"a.nc has ")?;
//! put_decimal(&mut out, source.len() as u128)?;
//! put(&mut out, b" bytes\n")?;
//! out.flush()?;
//! ```
#![tactic(auto)]

mod ahead;
mod creator;
mod decimal;
mod fault;
mod file;
mod memory;
mod open_counts;
mod opener;
mod output;
mod reader;
mod sink;
mod source;
mod system;
mod testing;
mod text_opener;

pub use ahead::ReadAhead;
pub use creator::Creator;
pub use decimal::put_decimal;
pub use fault::{CloseFailed, CreateFailed, OpenFailed, SinkFailed, SourceFailed, WriteFailed};
pub use file::{FileSource, IoSink, OpenFile};
pub use memory::{MemSink, MemSource};
pub use open_counts::OpenCounts;
pub use opener::Opener;
pub use output::SystemOutputs;
pub use reader::CountedRead;
pub use sink::{Flush, Sink, put};
pub use source::Source;
pub use system::{DirectFiles, SystemFiles};
pub use testing::{DripSource, FailWhen, MadeFile, MadeFiles, MemFile, MemFiles, SliceSink};
pub use text_opener::TextOpener;
