//! The programs, as libraries.

use anyhow::Result;
use clap::{Arg, Command};
use cli_base::{OptFault, flag, is_given, option, value_of};
use devices::{FileSource, MemSink, Sink};
use nc_base::{Sequence, Version};
use ncdump::{DumpOptions, dump};
use ncgen::generate;
use std::alloc::Global;
use std::fs::File;
use std::rt::Files;

/// The example of `cli_base`. Returns true if the words of a command line, the first of which names the program, have the option `-h` or a
/// value of `-l`. Errs with `Usage` if they are no command line of this command, and with `OutOfMemory` if an allocation failed.
pub fn has_option(alloc: Global, words: &[&str]) -> Result<bool, OptFault> {
    let command = Command::new(alloc, "show")
        .arg(flag(alloc, "header", 'h'))?
        .arg(option(alloc, "width", 'l'))?
        .arg(Arg::new(alloc, "file"))?;
    let matches = command.try_get_matches_from(words)?;
    let header_only = is_given(&matches, "header");
    let width = value_of(&matches, "width");
    Ok(header_only || width.is_some())
}

/// The example of `ncdump`. Writes the text of the file `a.nc` to `out`. Errs if the file can't be opened, if its header has a wrong field,
/// if a value isn't whole in it, or if reading, writing or an allocation fails.
pub fn dump_file<R: Files<File = File>, W: Sink>(rt: &R, alloc: Global, out: &mut W) -> Result<()> {
    let options = DumpOptions {
        file: String::from_str(alloc, "a.nc")?,
        name: Sequence::from_vec(Vec::from_slice(alloc, b"a")?),
        head_only: false,
        coords: false,
        chosen: None,
        width: 80,
    };
    let mut source = FileSource::open(rt, "a.nc")?;
    let mut buf = [0; 4096];
    dump(alloc, &mut source, &options, &mut buf, out)?;
    Ok(())
}

/// The example of `ncgen`. Makes the file of the CDL text `TEXT` in memory, and prints how many bytes it has. Errs if `generate` does, such
/// as for want of memory, or if standard output fails.
pub fn print_file_length(rt: &impl Print, alloc: Global) -> Result<()> {
    const TEXT: &[u8] =
        b"netcdf a { dimensions: x = 3 ; variables: int v(x) ; data: v = 1, 2, 3 ; }";
    let mut file = MemSink::new(alloc);
    generate(alloc, TEXT, Version::Cdf1, &mut file)?;
    println!(rt; "{} bytes", file.as_slice().len())?;
    Ok(())
}
