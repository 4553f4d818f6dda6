//! A variable of a file, read.

use crate::failure::Failure;
use crate::open::open_variable;
use devices::Source;
use nc_base::{NcType, number_of};
use std::alloc::Global;
use std::io::{self, Write};

/// Writes the values of the variable of this name in the file that the source has, each as a number on a line. Errs if the source, the
/// writer or an allocation fails, if the header has a wrong field or no such variable, or if a value isn't whole in the file.
pub fn print_values<S: Source, W: Write>(
    alloc: Global,
    source: &mut S,
    name: &[u8],
    out: &mut W,
) -> Result<(), Failure> {
    let mut buf = [0; 4096];
    let variable = open_variable(alloc, source, &mut buf, name).map_err(Failure::Variable)?;
    let ty = variable.var().ty;
    let mut walk = variable.walk(source.len(), &mut buf);
    for _ in 0..u64::MAX {
        match walk.next(source).map_err(Failure::Values)? {
            Some(chunk) => print_chunk(ty, chunk, out)?,
            None => break,
        }
    }
    Ok(())
}

/// Writes the values of a chunk, which are big-endian and one after the other, each as a number on a line. Errs if the writer fails.
fn print_chunk<W: Write>(ty: NcType, chunk: &[u8], out: &mut W) -> io::Result<()> {
    for value in chunk.chunks_exact(ty.size() as usize) {
        writeln!(out, "{}", number_of(ty, value))?;
    }
    Ok(())
}
