//! A file with the dimension `x` of length 3 and the variable `int v(x)`, written.

ghost use Rattle.std.specs.Prelude.{◌≡◌, ◌*◌, [], ◌∷◌, IfOk, length};
ghost use Rattle.example.specs.Headers.{int_header};

use crate::failure::Failure;
use devices::Sink;
use nc_base::{Dim, Header, ListedArray, NcType, NumRecs, Sequence, Var, Version};
use nc_file::{with_begins, write_header};
use nc_walk::{record_slabs, write_data};
use std::alloc::{AllocError, Global};

/// The values of the variable.
const VALUES: [i32; 3] = [100, 200, 300];

/// Writes the file to the sink: its header, and then the values of `v`. Errs if an allocation or the sink fails, or if a begin doesn't fit
/// its field.
pub fn write_file<W: Sink>(alloc: Global, sink: &mut W) -> Result<(), Failure> {
    let header = with_begins(int_header(alloc)?)?;
    let slabs = record_slabs(alloc, &header)?;
    let arrays = [listed(alloc, &VALUES)?];
    write_header(sink, &header)?;
    write_data(sink, &header, slabs.as_slice(), &arrays)?;
    Ok(())
}

/// Returns the header of a file with `int v(x)`, x = 3. The begin of `v` is 0 until `with_begins` sets it. Errs only if an allocation
/// failed.
fn int_header(alloc: Global) -> Result<Header, AllocError>
    ensures { IfOk result (λ header. header ≡ int_header) }
{
    let x = Dim {
        name: one(alloc, b'x')?,
        len: 3,
    };
    let v = Var {
        name: one(alloc, b'v')?,
        dimids: one(alloc, 0)?,
        atts: Sequence::new(alloc),
        ty: NcType::Int,
        begin_at: 0,
    };
    Ok(Header {
        version: Version::Cdf1,
        numrecs: NumRecs::Known(0),
        dims: one(alloc, x)?,
        gatts: Sequence::new(alloc),
        vars: one(alloc, v)?,
    })
}

/// Returns a sequence of one item. Errs only if an allocation failed.
fn one<T: Drop>(alloc: Global, item: T) -> Result<Sequence<T>, AllocError>
    ensures { IfOk result (λ items. items ≡ item ∷ []) }
{
    let mut items = Sequence::new(alloc);
    items.push(item)?;
    Ok(items)
}

/// Returns the values as the file has them: big-endian, in four bytes each, and one after the other. Errs only if an allocation failed.
fn listed(alloc: Global, values: &[i32]) -> Result<ListedArray, AllocError>
    ensures { IfOk result (λ bytes. length bytes ≡ length values.now * 4) }
{
    let mut bytes = ListedArray::new(alloc);
    for value in values {
        bytes.add(&value.to_be_bytes())?;
    }
    Ok(bytes)
}
