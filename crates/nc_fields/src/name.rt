//! Names, and the bytes that fill a field up.

ghost use Rattle.std.specs.Prelude.{◌≡◌, ◌≤◌, ◌∷◌, ◌==◌, length};
ghost use Rattle.std.specs.List.{list_all};
ghost use Rattle.nc_base.specs.Grammar.{checked, ignored, name_part};
ghost use Rattle.nc_base.specs.Parts.{Name, Text, bytes};
ghost use Rattle.nc_base.specs.declared.fault.FormatFault.TheVariants.{BadName, HeaderTruncated};
ghost use Rattle.nc_window.specs.code.Window.{Read};
ghost use Rattle.nc_fields.specs.code.Checks.{IsHeld};
ghost use Rattle.nc_fields.specs.Lenient.{is_no_control, len_before_nul, lenient, may_be_name};

use crate::fields::{FieldReader, pending_field};
use devices::Source;
use nc_base::{FormatFault, Sequence, Version, padding_len};
use nc_findings::{Content, FieldBytes, FieldKind, Owner, Place};
use nc_window::{HeadFault, Window};
use std::alloc::Global;

impl FieldReader {
    ghost use Rattle.nc_fields.specs.Entries.{owner_steps, steps_of};
    ghost use Rattle.nc_fields.specs.code.Checks.{at, Checked, IsFilling};

    /// Reads `n` bytes, which may be any, adds them to the field list, and returns them. Needs a `place` that is that of a name or of
    /// padding. Errs with `HeaderTruncated` if bytes are missing, and if the source or an allocation fails.
    fn text<S: Source>(
        &mut self,
        window: &mut Window<'_, S>,
        place: Place,
        n: u64,
    ) -> Result<Sequence<u8>, HeadFault>
        requires { IsFilling place }
        ensures { Checked (at window.old self.old) (at window.new self.new)
            (steps_of place) (bytes n HeaderTruncated) result }
    {
        let start = pending_field(window, place, n as u128);
        let text = start.list_if_cut(&mut self.entries, window.bytes(self.alloc, n as u128))?;
        let copy = FieldBytes::from_slice(self.alloc, text.as_slice())?;
        start.list(&mut self.entries, Content::Bytes(copy))?;
        Ok(text)
    }

    /// Reads the `n` bytes of a name of `owner`, adds them to the field list, and returns them. Errs with `BadName` if they are empty,
    /// begin with a NUL, or have a control character (but NULs may end them), with `HeaderTruncated` if bytes are missing, and if the
    /// source or an allocation fails.
    #[tactic(auto, using(crate::proofs::Checks::part_lists), unfolding(nc_base::specs::Grammar::number))]
    fn name_text<S: Source>(
        &mut self,
        window: &mut Window<'_, S>,
        owner: Owner,
        n: u64,
    ) -> Result<Sequence<u8>, HeadFault>
        ensures { Checked (at window.old self.old) (at window.new self.new)
            (Text ∷ Name ∷ owner_steps owner)
            (checked may_be_name BadName (bytes n HeaderTruncated)) result }
    {
        let place = owner.field(FieldKind::Name);
        let text = self.text(window, place, n)?;
        if !may_be_name(text.as_slice()) {
            return Err(HeadFault::Format(FormatFault::BadName));
        }
        Ok(text)
    }

    /// Reads the `n` bytes of padding, which may be any, and adds them to the field list. Needs a `place` that is that of padding or of a
    /// name. Errs with `HeaderTruncated` if bytes are missing, and if the source or an allocation fails.
    pub(crate) fn filling<S: Source>(
        &mut self,
        window: &mut Window<'_, S>,
        place: Place,
        n: u64,
    ) -> Result<(), HeadFault>
        requires { IsFilling place }
        ensures { Checked (at window.old self.old) (at window.new self.new)
            (steps_of place) (ignored n) result }
    {
        let start = pending_field(window, place, n as u128);
        let filling = start.list_if_cut(&mut self.entries, filling_bytes(window, self.alloc, n))?;
        start.list(&mut self.entries, Content::Bytes(filling))?;
        Ok(())
    }

    /// Reads the name of `owner` (length, bytes and padding), adds these three fields to the field list, and returns the bytes. Errs with
    /// the fault of the first wrong field, and if the source or an allocation fails.
    #[tactic(auto, using(crate::proofs::Checks::chain_lists), unfolding(nc_base::specs::Grammar::name_part))]
    pub(crate) fn name<S: Source>(
        &mut self,
        window: &mut Window<'_, S>,
        version: Version,
        owner: Owner,
    ) -> Result<Sequence<u8>, HeadFault>
        ensures { Checked (at window.old self.old) (at window.new self.new)
            (Name ∷ owner_steps owner) (name_part lenient version) result }
    {
        let length = owner.field(FieldKind::NameLength);
        let padding = owner.field(FieldKind::NamePadding);
        let n = self.count(window, version, length)?;
        let text = self.name_text(window, owner, n)?;
        self.filling(window, padding, padding_len(n as u128))?;
        Ok(text)
    }
}

/// Reads `n` bytes through the window, and returns them. Up to three, such as padding, take no allocation. Errs with `HeaderTruncated` if
/// bytes are missing, and if the source or an allocation fails.
pub(crate) fn filling_bytes<S: Source>(
    window: &mut Window<'_, S>,
    alloc: Global,
    n: u64,
) -> Result<FieldBytes, HeadFault>
    ensures { Read window.old window.new (bytes n HeaderTruncated) result }
{
    match n {
        1 => held(alloc, &window.array::<1>()?),
        2 => held(alloc, &window.array::<2>()?),
        3 => held(alloc, &window.array::<3>()?),
        _ => held(alloc, window.bytes(alloc, n as u128)?.as_slice()),
    }
}

/// Returns a copy of the bytes. Errs with `OutOfMemory` if an allocation fails.
fn held(alloc: Global, bytes: &[u8]) -> Result<FieldBytes, HeadFault>
    ensures { IsHeld bytes.now result }
{
    Ok(FieldBytes::from_slice(alloc, bytes)?)
}

/// Returns true if the bytes may be a name, valid or not, where the reader expects one: at least one byte that is no control character, and
/// after such bytes nothing but NULs.
fn may_be_name(name: &[u8]) -> bool
    ensures { result ≡ may_be_name name.now }
{
    let len = len_before_nul(name);
    0 < len && has_no_control(&name[..len]) && are_nuls(&name[len..])
}

/// Returns how many bytes come before the first NUL: all, if there is none.
fn len_before_nul(name: &[u8]) -> usize
    ensures value { result ≡ len_before_nul name.now }
    ensures within { result ≤ length name.now }
{
    name.iter().take_while(|b| **b != 0).count()
}

/// Returns true if none of the bytes is a control character of ASCII: a byte below 32, or 127.
fn has_no_control(text: &[u8]) -> bool
    ensures { result ≡ list_all is_no_control text.now }
{
    text.iter().all(|b| 32 <= *b && *b != 127)
}

/// Returns true if each of the bytes is a NUL.
fn are_nuls(bytes: &[u8]) -> bool
    ensures { result ≡ list_all (λ b. b == 0) bytes.now }
{
    bytes.iter().all(|b| *b == 0)
}
