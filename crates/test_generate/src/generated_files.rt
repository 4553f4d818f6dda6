//! The files of texts, byte for byte, and their dumps.

use crate::generating::{dump_of, file_of, whole};
use crate::rows::{ROWS, Row, SHORTS, row_of};
use cdl_parse::declared;
use devices::{MemSink, MemSource};
use nc_base::{Version, slab_bytes};
use nc_file::read_header;
use ncdump::show;
use std::alloc::{AllocError, Global};
use std::process::Abort;
use std::test::*;

/// Fails unless the text gives its file, and the file its dump.
fn gives_its_file(rt: &impl Abort, alloc: Global, row: &Row) -> Result<(), AllocError> {
    let file = file_of(rt, alloc, row.cdl.as_slice(), row.version);
    assert!(rt; file.as_slice() == row.file.as_slice(), "{:?}", row.cdl);
    let dump = dump_of(rt, alloc, row.file.as_slice(), 80)?;
    assert!(rt; dump.as_slice() == row.dump.as_slice(), "{:?}", row.cdl);
    Ok(())
}

#[test]
fn texts_give_their_files(rt: HostRuntime) -> Result<(), AllocError> {
    for block in ROWS.split("\n\n") {
        let row = row_of(&rt, rt.alloc(), block)?;
        gives_its_file(&rt, rt.alloc(), &row)?;
    }
    Ok(())
}

/// The parts of the way from a text to a dump, each called by itself: the array that a text declares is filled up, and `show` writes what a
/// dump writes once it has the header.
#[test]
fn declared_values_are_filled_up_and_shown(rt: HostRuntime) -> Result<(), Fail> {
    let alloc = rt.alloc();
    const DUMP: &[u8] =
        b"netcdf t {\ndimensions:\n\tx = 3 ;\nvariables:\n\tshort s(x) ;\ndata:\n\n s = 1, _, 3 ;\n}\n";
    let dataset = declared(alloc, SHORTS, Version::Cdf1)?.into_dataset(alloc)?;
    let array = dataset.arrays.as_slice().first().ok_or("no array")?;
    assert!(rt; array.as_slice() == b"\0\x01\x80\x01\0\x03".as_slice());
    let mut buf = [0; 16];
    let mut source = MemSource::new(test_files::ONE_VARIABLE);
    let header = read_header(alloc, &mut source, &mut buf)?;
    assert_eq!(rt; header.vars.len(), 1);
    assert!(rt; slab_bytes(&header, 0) == Some(6));
    let mut sink = MemSink::new(alloc);
    let options = whole(alloc, 80)?;
    show(&mut source, &header, &[true], &options, &mut buf, &mut sink)?;
    assert!(rt; sink.as_slice() == DUMP);
    Ok(())
}
