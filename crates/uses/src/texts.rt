//! CDL texts.

ghost use Rattle.std.specs.Prelude.{◌≡◌, ◌<◌, ◌^◌, false, length};
ghost use Rattle.cdl_statements.specs.code.Cutters.{is_done};

use anyhow::Result;
use cdl_parse::parse;
use cdl_statements::Cutter;
use cdl_tokens::Scanner;
use cdl_values::{ReadError, read_constants, type_said};
use nc_base::{ListedArray, Version};
use std::alloc::Global;

/// The example of `cdl_tokens`. Prints for each token of a text but its end the line, the kind and the number of bytes. Errs if standard
/// output fails.
pub fn print_tokens(rt: &impl Print, text: &[u8]) -> Result<()> {
    let mut scanner = Scanner::new(text);
    let mut token = scanner.token();
    while !token.kind.is_end() {
        println!(rt;
            "line {}: {:?}, {} bytes",
            token.line,
            token.kind,
            token.bytes(text).len()
        )?;
        token = scanner.token();
    }
    Ok(())
}

/// The example of `cdl_statements`. Prints for each statement of a text the line and the number of tokens. Errs if an allocation or
/// standard output fails.
pub fn print_statements(rt: &impl Print, alloc: Global, text: &[u8]) -> Result<()> {
    let mut cutter = Cutter::new(text, Version::Cdf1);
    let mut tokens = Vec::new(alloc);
    let mut line = cutter.line();
    while cutter.next(&mut tokens)? {
        println!(rt; "line {line}: {} tokens", tokens.len())?;
        line = cutter.line();
    }
    Ok(())
}

/// The example of `cdl_values`. Returns the bytes of the values of an attribute, whose first constant is the next token of `first`. Needs a
/// `first` that hasn't handed out its last statement. Errs with the fault of the first constant that has one, or if an allocation failed.
pub fn attribute_values(alloc: Global, first: Cutter<'_>) -> Result<ListedArray, ReadError>
    requires { is_done first ≡ false }
{
    // the next token of `first` is the first constant of an attribute
    let ty = type_said(first.version(), first.lexeme());
    let bytes = read_constants(alloc, ty, first)?;
    Ok(bytes)
}

/// The example of `cdl_parse`. Prints the number of bytes of each array that a text declares, or the fault of [`parse`], such as a failed
/// allocation. Errs if standard output fails.
pub fn print_arrays(rt: &impl Print, alloc: Global) -> Result<()> {
    const TEXT: &[u8] = b"netcdf a { dimensions: x = 3 ; variables: byte v(x) ; data: v = 1, 2 ; }";
    match parse(alloc, TEXT, Version::Cdf1) {
        Ok(dataset) => {
            for array in dataset.arrays.as_slice() {
                // the values of a variable, big-endian: 01 02 81, the last of them the fill value
                println!(rt; "{} bytes", array.len())?;
            }
        }
        Err(fault) => println!(rt; "{fault}")?,
    }
    Ok(())
}
