//! The program `example [file name]`: prints the values of a variable of a netCDF file, each on a line. Without arguments it makes a file
//! in memory first, and reads that.
//!
//! It shows how a file is written (`writing`: describe the header, let `with_begins` say where the values of each variable begin, and write
//! the header and the values to a sink) and how one is read (`reading`: open a variable by its name, and walk over its values in chunks
//! that are lent out of one buffer). `open` and `variable` find a variable in a header, and are proved to find the right one.
#![tactic(auto)]

mod failure;
mod open;
mod reading;
#[cfg(test)]
mod tests;
mod variable;
mod variable_fault;
mod writing;

use crate::failure::Failure;
use crate::reading::print_values;
use crate::writing::write_file;
use devices::{FileSource, MemSink, MemSource};
use std::io::{BufWriter, Write};
use std::{env, io};

/// Prints the values of a variable. The command line has the path of a file and the name of the variable. If there are no arguments, it is
/// the variable `v` of a file that is made in memory. Errs if no name comes after a path, or for any other reason that [`Failure`] has.
fn main(rt: HostRuntime) -> Result<(), Failure> {
    let alloc = rt.alloc();
    let mut out = BufWriter::new(alloc, io::writer(&rt))?;
    let mut words = env::args(&rt)?.skip(1);
    match (words.next(), words.next()) {
        (Some(path), Some(name)) => {
            let mut file = FileSource::open(&rt, path.as_str()).map_err(Failure::Open)?;
            print_values(alloc, &mut file, name.as_bytes(), &mut out)?;
        }
        (Some(_), None) => return Err(Failure::NoName),
        (None, _) => {
            let mut file = MemSink::new(alloc);
            write_file(alloc, &mut file)?;
            print_values(alloc, &mut MemSource::new(file.as_slice()), b"v", &mut out)?;
        }
    }
    out.flush()?;
    Ok(())
}
