//! Which variables are selected, also by many names and from headers of many variables.

use crate::dump_rows::{DumpRow, WHOLE, options_of};
use devices::MemSource;
use nc_base::Sequence;
use nc_file::read_header;
use ncdump::DumpFault::{self, NoSuchVariable};
use ncdump::{DumpOptions, select};
use std::alloc::{AllocError, Global};
use std::test::Fail;
use test_files::{COORDINATES, ONE_VARIABLE, THREE_VARIABLES, repeated};

/// Returns true if the options of a row select these of the variables of its file, or name a variable that isn't there.
fn selects(
    alloc: Global,
    row: &DumpRow<'_>,
    want: Result<&[bool], DumpFault>,
) -> Result<bool, DumpFault> {
    let mut source = MemSource::new(row.bytes);
    let header = read_header(alloc, &mut source, &mut [0; 16])?;
    let options = options_of(alloc, row)?;
    Ok(match (select(alloc, &header, &options), want) {
        (Ok(found), Ok(want)) => found.as_slice() == want,
        (Err(found), Err(want)) => found == want,
        _ => false,
    })
}

#[test]
fn selected_variables(rt: HostRuntime) -> Result<(), Fail> {
    static ROWS: &[(&[u8], bool, Option<&str>, Result<&[bool], DumpFault>)] = &[
        // the variables x and y
        (COORDINATES, false, None, Ok(&[true, true])),
        (COORDINATES, true, None, Ok(&[true, false])),
        (COORDINATES, false, Some("y,y"), Ok(&[false, true])),
        (COORDINATES, true, Some("y,y"), Ok(&[false, false])),
        (COORDINATES, false, Some("y,z,a"), Err(NoSuchVariable(1))),
        (COORDINATES, true, Some("z,x,a"), Err(NoSuchVariable(0))),
        (COORDINATES, false, Some("x,x,"), Err(NoSuchVariable(2))),
        // a, b and c; and s alone
        (THREE_VARIABLES, false, Some("b"), Ok(&[false, true, false])),
        (ONE_VARIABLE, false, Some("s,nope"), Err(NoSuchVariable(1))),
    ];
    for (bytes, coords, chosen, want) in ROWS {
        let row = DumpRow {
            bytes: *bytes,
            coords: *coords,
            chosen: *chosen,
            ..WHOLE
        };
        assert!(rt; selects(rt.alloc(), &row, *want)?, "{want:?}");
    }
    Ok(())
}

/// Variables `int v`, all alike, and what stands before their count.
const SCALAR: &[u8] = b"\0\0\0\x01v\0\0\0\0\0\0\0\0\0\0\0\0\0\0\0\0\0\0\x04\0\0\0\x04\0\0\0\0";

const BEFORE_SCALARS: &[u8] = b"CDF\x01\0\0\0\0\0\0\0\0\0\0\0\0\0\0\0\0\0\0\0\0\0\0\0\x0b";

/// The options of a dump of coordinate variables that have one of so many names, all of them `v`.
fn with_names(alloc: Global, count: u32) -> Result<DumpOptions, AllocError> {
    let mut names = Sequence::new(alloc);
    for _ in 0..count {
        names.push(Sequence::from_vec(Vec::from_slice(alloc, b"v")?))?;
    }
    let mut options = options_of(alloc, &WHOLE)?;
    options.coords = true;
    options.chosen = Some(names);
    Ok(options)
}

/// Reads a header of this many variables, selects from them by as many names, and returns true if there is an answer for each.
fn is_selected(alloc: Global, count: u32) -> Result<bool, DumpFault> {
    let bytes = repeated(alloc, BEFORE_SCALARS, SCALAR, count)?;
    let mut source = MemSource::new(bytes.as_slice());
    let header = read_header(alloc, &mut source, &mut [0; 4096])?;
    let selection = select(alloc, &header, &with_names(alloc, count)?)?;
    Ok(header.vars.len() == count as usize && selection.len() == count as usize)
}

/// With ample memory neither a header nor a selection is answered with out of memory, whatever their size. Many names are looked up in less
/// time than each against each would take.
#[test]
fn every_number_of_variables_and_names(rt: HostRuntime) -> Result<(), Fail> {
    for count in 1..200 {
        assert!(rt; is_selected(rt.alloc(), count)?, "{count}");
    }
    assert!(rt; is_selected(rt.alloc(), 20_000)?);
    Ok(())
}
