//! What the tests have in common: texts that are generated, and files that are dumped again.

use devices::{MemSink, MemSource};
use nc_base::{Sequence, Version};
use ncdump::{DumpOptions, dump};
use ncgen::generate;
use std::alloc::{AllocError, Global};
use std::process::Abort;

/// The file of the text.
pub fn file_of(rt: &impl Abort, alloc: Global, text: &[u8], version: Version) -> MemSink {
    let mut sink = MemSink::new(alloc);
    let answer = generate(alloc, text, version, &mut sink);
    assert!(rt; answer.is_ok());
    sink
}

/// The options of a dump of everything with the name `t`, in lines of this width.
pub fn whole(alloc: Global, width: usize) -> Result<DumpOptions, AllocError> {
    Ok(DumpOptions {
        file: String::new(alloc),
        name: Sequence::from_vec(Vec::from_slice(alloc, b"t")?),
        head_only: false,
        coords: false,
        chosen: None,
        width,
    })
}

/// The dump of everything in the file with the name `t`, in lines of this width.
pub fn dump_of(
    rt: &impl Abort,
    alloc: Global,
    file: &[u8],
    width: usize,
) -> Result<MemSink, AllocError> {
    let options = whole(alloc, width)?;
    let mut source = MemSource::new(file);
    let mut sink = MemSink::new(alloc);
    let answer = dump(alloc, &mut source, &options, &mut [0; 16], &mut sink);
    assert!(rt; answer.is_ok());
    Ok(sink)
}
