//! Opening a variable by its name.

ghost use Rattle.std.specs.Prelude.{◌≡◌, ◌≤◌, IfOk, length};
ghost use Rattle.std.specs.Bool.{OnTrue};
ghost use Rattle.example.specs.Opened.{FailsOnly, IsReady, Opens, index_of};

use crate::variable::OpenVariable;
use crate::variable_fault::VariableFault;
use devices::Source;
use nc_base::Header;
use nc_file::read_header;
use std::alloc::Global;

/// Reads the header at the start of a source, through a caller's buffer, and returns its first variable of this name. The bytes of a name
/// are compared as they are. The header is kept in memory, as [`read_header`] reads it. Needs a buffer of at least 16 bytes.
///
/// # Errors
///
/// [`VariableFault::Header`] if the header has a wrong field, the source fails or an allocation fails ([`HeadFault`](nc_file::HeadFault)),
/// and [`VariableFault::NoSuchVariable`] if the header has no variable of this name.
pub fn open_variable<S: Source>(
    alloc: Global,
    source: &mut S,
    buf: &mut [u8],
    name: &[u8],
) -> Result<OpenVariable, VariableFault>
    requires { 16 ≤ length buf.old }
    ensures bytes { (S.view source.new).bytes ≡ (S.view source.old).bytes }
    ensures cause { FailsOnly (S.view source.old).failures (S.view source.new).failures result }
    ensures ready { IfOk result IsReady }
    ensures opened { OnTrue S.is_transparent (Opens (S.view source.old).bytes name.now result) }
{
    let header = read_header(alloc, source, buf)?;
    let index = index_of(&header, name).ok_or(VariableFault::NoSuchVariable)?;
    Ok(OpenVariable { header, index })
}

/// Returns the index of the header's first variable of this name, or `None` if there is none.
fn index_of(header: &Header, name: &[u8]) -> Option<usize>
    ensures { result ≡ index_of header.now name.now }
{
    let vars = header.vars.as_slice();
    vars.iter().position(|var| var.name.as_slice() == name)
}
