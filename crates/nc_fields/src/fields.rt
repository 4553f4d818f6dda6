//! The fields of a header, as they are listed while it is read.

ghost use Rattle.std.specs.Prelude.{◌≡◌, ◌++◌, ◌∷◌, [], OnOk};
ghost use Rattle.nc_fields.specs.code.Checks.{IsStart};

use devices::Source;
use nc_base::Sequence;
use nc_findings::{Content, Entry, Place};
use nc_window::{HeadFault, Window};
use std::alloc::{AllocError, Global};

/// The field list: the fields of a header that were read so far, each with its place, its offset and what is kept of its content.
///
/// Each function that reads a field through a window adds it to the list, also if it is wrong or if the source ends inside of it, and then
/// errs with its fault. Since reading stops there, the fault is that of the last field, and is put there at the end. It errs with
/// `ReadFailed` if the source fails, and with `OutOfMemory` if an allocation fails; then the list means nothing.
#[derive(Drop)]
pub(crate) struct FieldReader {
    /// What takes memory for the list and for what is returned.
    pub(crate) alloc: Global,
    pub(crate) entries: Sequence<Entry>,
}

/// A field that is to be read: its place, its offset, and how many bytes it has to have.
#[derive(Clone, Copy)]
pub(crate) struct PendingField {
    pub(crate) place: Place,
    pub(crate) offset: u64,
    pub(crate) size: u128,
}

impl PendingField {
    ghost use Rattle.nc_fields.specs.code.Checks.{entry_of, ListsCut};

    /// Appends this field to `entries`, with this content and without a fault. Errs if an allocation fails.
    pub(crate) fn list(
        self,
        entries: &mut Sequence<Entry>,
        content: Content,
    ) -> Result<(), AllocError>
        ensures { OnOk result (entries.new ≡ entries.old ++ entry_of self content ∷ []) }
    {
        entries.push(Entry {
            place: self.place,
            offset: self.offset,
            size: self.size,
            content,
            fault: None,
        })
    }

    /// Returns `answer`, which the call that read this field gave. If it is a fault of the bytes, the source has ended inside of the field:
    /// then it first appends the field to `entries`, as [`Content::Cut`]. Errs with `OutOfMemory` if the allocation for that fails.
    pub(crate) fn list_if_cut<T: Drop>(
        self,
        entries: &mut Sequence<Entry>,
        answer: Result<T, HeadFault>,
    ) -> Result<T, HeadFault>
        ensures { ListsCut entries.old entries.new self answer result }
    {
        if let Err(HeadFault::Format(_)) = &answer {
            self.list(entries, Content::Cut)?;
        }
        answer
    }
}

/// Returns the field that is to be read next: it begins at the next byte of the window, has this place, and has to have `size` bytes.
pub(crate) fn pending_field<S: Source>(
    window: &Window<'_, S>,
    place: Place,
    size: u128,
) -> PendingField
    ensures { IsStart window.now place size result }
{
    PendingField {
        place,
        offset: window.offset_of_next(),
        size,
    }
}
