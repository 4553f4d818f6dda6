//! Dumps, and the headers and selections that they begin with.

use devices::{DripSource, FailWhen, SliceSink};
use nc_base::{Header, Sequence};
use nc_file::{HeadFault, read_header};
use ncdump::{DumpFault, DumpOptions, dump, select};
use std::alloc::{AllocError, Global};
use std::process::Abort;
use std::test::*;
use test_files::{
    COORDINATES, HELD_NULS, MANY_HELD_NULS, NAMES_AND_STRINGS, ONE_VARIABLE, ONE_VARIABLE_CDF5,
    PADDED_RECORDS, THREE_PADDED_RECORDS, THREE_VARIABLES,
};

/// A dump with the name `t`: the file; the name of the variable whose values alone are shown, if it isn't those of all; if only those of
/// coordinate variables are; and how many bytes of the file may be read through a buffer of 16 bytes: the header, the buffer and the
/// values.
type Dump = (&'static [u8], Option<&'static [u8]>, bool, u128);

/// The dumps.
static DUMPS: &[Dump] = &[
    (ONE_VARIABLE, None, false, 80 + 16 + 6),
    (ONE_VARIABLE_CDF5, None, false, 128 + 16 + 6),
    (PADDED_RECORDS, None, false, 116 + 16 + 9),
    (THREE_PADDED_RECORDS, None, false, 172 + 16 + 20),
    (HELD_NULS, None, false, 80 + 16 + 5),
    (MANY_HELD_NULS, None, false, 80 + 16 + 20),
    (NAMES_AND_STRINGS, None, false, 204 + 16 + 10),
    // one of three variables, with the records of another between its own
    (THREE_VARIABLES, Some(b"b"), false, 180 + 16 + 32),
    // a variable that isn't shown, since it is no coordinate variable
    (COORDINATES, Some(b"y"), true, 116 + 16),
];

/// The options of the dump.
fn options_of(alloc: Global, row: Dump) -> Result<DumpOptions, AllocError> {
    let (_, chosen, coords, _) = row;
    let mut options = DumpOptions {
        file: String::new(alloc),
        name: Sequence::from_vec(Vec::from_slice(alloc, b"t")?),
        head_only: false,
        coords,
        chosen: None,
        width: 80,
    };
    if let Some(name) = chosen {
        let mut names = Sequence::new(alloc);
        names.push(Sequence::from_vec(Vec::from_slice(alloc, name)?))?;
        options.chosen = Some(names);
    }
    Ok(options)
}

/// Dumps through a buffer of 16 bytes. If memory is refused, nothing is written.
fn dumps(rt: &impl Abort, alloc: Global, row: Dump) -> Result<(), AllocError> {
    let (file, _, _, most_read) = row;
    let options = options_of(alloc, row)?;
    let mut into = [0; 256];
    let mut sink = SliceSink::new(&mut into, 7);
    let mut source = DripSource::new(file, 7, FailWhen::Never);
    let answer = dump(alloc, &mut source, &options, &mut [0; 16], &mut sink);
    assert!(rt; source.handed() <= most_read);
    if answer == Err(DumpFault::OutOfMemory) {
        assert!(rt; sink.taken().is_empty());
        return Err(AllocError);
    }
    assert!(rt; answer == Ok(()));
    Ok(())
}

/// Reads a header through a buffer of 16 bytes.
fn header_of(rt: &impl Abort, alloc: Global, file: &[u8]) -> Result<Header, AllocError> {
    let mut source = DripSource::new(file, 7, FailWhen::Never);
    match read_header(alloc, &mut source, &mut [0; 16]) {
        Ok(header) => Ok(header),
        Err(fault) => {
            assert!(rt; fault == HeadFault::OutOfMemory);
            Err(AllocError)
        }
    }
}

/// Reads the header and selects the variables, as a dump does before it writes.
fn reads_and_selects(rt: &impl Abort, alloc: Global, row: Dump) -> Result<(), AllocError> {
    let options = options_of(alloc, row)?;
    let header = header_of(rt, alloc, row.0)?;
    match select(alloc, &header, &options) {
        Ok(_) => Ok(()),
        Err(fault) => {
            assert!(rt; fault == DumpFault::OutOfMemory);
            Err(AllocError)
        }
    }
}

#[test]
fn whole_dumps(rt: HostRuntime) -> Result<(), AllocError> {
    for row in DUMPS {
        dumps(&rt, rt.alloc(), *row)?;
    }
    Ok(())
}

#[test]
fn headers_and_selections(rt: HostRuntime) -> Result<(), AllocError> {
    for row in DUMPS {
        reads_and_selects(&rt, rt.alloc(), *row)?;
    }
    Ok(())
}
