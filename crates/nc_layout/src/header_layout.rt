//! The layout of a file whose header has been read.

ghost use Rattle.std.specs.Prelude.{◌≤◌, All, IfOk, SomeIff, map};
ghost use Rattle.nc_base.specs.Sizes.{slab_size, slab_limit};
ghost use Rattle.nc_layout.specs.Findings.{IsSoundLayout};
ghost use Rattle.nc_layout.specs.HeaderLayout.{slot_of, layout_of};

use crate::slot::{FileLayout, Slot};
use nc_base::{Dim, Header, Sequence, Var, is_narrow, is_record_var, slab_len};
use std::alloc::{AllocError, Global};

/// Returns the layout of a file of `file_len` bytes with this header, which ends at the offset `header_end`. Returns `None` if the layout
/// isn't sound ([`FileLayout::is_sound`]), as the rules need it. Errs only if an allocation fails.
///
/// If the bytes of the file spell the header, its layout is sound (`nccheck_laws::laws::spelled_headers_have_sound_layouts`).
pub fn sound_layout(
    alloc: Global,
    header: &Header,
    header_end: u64,
    file_len: u64,
) -> Result<Option<FileLayout>, AllocError>
    ensures { let layout = layout_of header.now header_end file_len in
        IfOk result (λ found. SomeIff found (IsSoundLayout layout) layout) }
{
    match slots_of(alloc, header)? {
        Some(slots) => {
            let layout = FileLayout {
                version: header.version,
                numrecs: header.numrecs,
                slots,
                header_end,
                file_len,
            };
            let is_sound = layout.is_sound();
            Ok(is_sound.then_some(layout))
        }
        None => Ok(None),
    }
}

/// Returns the slot (begin, slab and kind) of each variable, in order, or `None` if a slab passes 2^48 bytes. Errs if an allocation fails.
fn slots_of(alloc: Global, header: &Header) -> Result<Option<Sequence<Slot>>, AllocError>
    ensures { let dims = header.now.dims in IfOk result (λ found.
        SomeIff found (All (λ var. slab_size dims var ≤ slab_limit) header.now.vars) (map (slot_of dims) header.now.vars)) }
{
    let dims = header.dims.as_slice();
    let mut slots = Sequence::new(alloc);
    for var in header.vars.as_slice() {
        match slot_of(dims, var) {
            Some(slot) => slots.push(slot)?,
            None => return Ok(None),
        }
    }
    Ok(Some(slots))
}

/// Returns the slot of the variable (its begin, the size of its slab and its kind), or `None` if the slab passes 2^48 bytes.
fn slot_of(dims: &[Dim], var: &Var) -> Option<Slot>
    ensures { SomeIff result (slab_size dims.now var.now ≤ slab_limit) (slot_of dims.now var.now) }
{
    let slab = slab_len(dims, var.dimids.as_slice(), var.ty)?;
    Some(Slot {
        begin: var.begin_at,
        slab,
        is_record: is_record_var(dims, var),
        is_narrow: is_narrow(var),
    })
}
