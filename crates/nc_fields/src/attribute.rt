//! Attributes.

ghost use Rattle.std.specs.Prelude.{◌≡◌, ◌∷◌, []};
ghost use Rattle.nc_base.specs.Grammar.{att_after, att_list, att_part, each};
ghost use Rattle.nc_base.specs.Parts.{Values};
ghost use Rattle.nc_fields.specs.Entries.{ends_with_nul};
ghost use Rattle.nc_fields.specs.Lenient.{lenient};
ghost use Rattle.nc_fields.specs.code.Lists.{list_steps};
ghost use Rattle.nc_fields.specs.code.PassedValues.{ChecksValues, PassesValues};

use crate::fields::{FieldReader, pending_field};
use crate::list_name::HeaderList;
use devices::Source;
use nc_base::{Att, Sequence, Version, padding_len};
use nc_findings::{Content, FieldKind, Owner};
use nc_window::{HeadFault, Window};

/// The tag of a list of attributes (`NC_ATTRIBUTE`).
const NC_ATTRIBUTE: u64 = 12;

impl FieldReader {
    ghost use Rattle.nc_fields.specs.Entries.{owner_steps};
    ghost use Rattle.nc_fields.specs.code.Checks.{at, Checked};

    /// Passes over the `len` bytes of the values of an attribute (`owner`), and adds them to the field list as one field, of which it keeps
    /// only whether the last byte is a NUL. Errs with `HeaderTruncated` if bytes are missing, and if the source or an allocation fails.
    fn values<S: Source>(
        &mut self,
        window: &mut Window<'_, S>,
        owner: Owner,
        len: u128,
    ) -> Result<(), HeadFault>
        ensures { ChecksValues (at window.old self.old) (at window.new self.new)
            (Values ∷ owner_steps owner) len result }
    {
        let place = owner.field(FieldKind::Values);
        let start = pending_field(window, place, len);
        let passed = pass_values(window, len);
        let ends_with_nul = start.list_if_cut(&mut self.entries, passed)?;
        let content = Content::Values { ends_with_nul };
        start.list(&mut self.entries, content)?;
        Ok(())
    }

    /// Reads an attribute (`owner`), adds its fields to the field list, and returns it without its values. Errs with the fault of the first
    /// wrong field, and if the source or an allocation fails.
    fn att<S: Source>(
        &mut self,
        window: &mut Window<'_, S>,
        version: Version,
        owner: Owner,
    ) -> Result<Att, HeadFault>
        ensures { Checked (at window.old self.old) (at window.new self.new)
            (owner_steps owner) (att_part lenient version) result }
    {
        let count = owner.field(FieldKind::Count);
        let padding = owner.field(FieldKind::Padding);
        let name = self.name(window, version, owner)?;
        let ty = self.nc_type(window, version, owner)?;
        let n = self.count(window, version, count)?;
        let len = n as u128 * ty.size() as u128;
        self.values(window, owner, len)?;
        self.filling(window, padding, padding_len(len))?;
        Ok(Att {
            name,
            ty,
            vals: Sequence::new(self.alloc),
        })
    }

    /// Reads the `n` attributes of `list`, adds their fields to the field list, and returns them without their values. Errs with the fault
    /// of the first wrong field, and if the source or an allocation fails.
    fn atts<S: Source>(
        &mut self,
        window: &mut Window<'_, S>,
        version: Version,
        list: HeaderList,
        n: u64,
    ) -> Result<Sequence<Att>, HeadFault>
        ensures { Checked (at window.old self.old) (at window.new self.new)
            (list_steps list) (each (att_after lenient version) n []) result }
    {
        let mut atts = Sequence::new(self.alloc);
        for i in 0..n {
            let att = self.att(window, version, list.item(i))?;
            atts.push(att)?;
        }
        Ok(atts)
    }

    /// Reads a list of attributes (tag, number and attributes), adds its fields to the field list, and returns the attributes without their
    /// values. Errs with the fault of the first wrong field, and if the source or an allocation fails.
    #[tactic(auto, using(crate::proofs::Checks::chain_lists), unfolding(nc_base::specs::Grammar::att_list, nc_base::specs::Grammar::list_part))]
    pub(crate) fn att_list<S: Source>(
        &mut self,
        window: &mut Window<'_, S>,
        version: Version,
        list: HeaderList,
    ) -> Result<Sequence<Att>, HeadFault>
        ensures { Checked (at window.old self.old) (at window.new self.new)
            (list_steps list) (att_list lenient version) result }
    {
        let n = self.list_len(window, version, list, NC_ATTRIBUTE)?;
        self.atts(window, version, list, n)
    }
}

/// Passes over `n` bytes, and returns true if the last of them is a NUL. Looks at what the window holds of them, and copies nothing. Errs
/// with `HeaderTruncated` if fewer bytes are left, and with `ReadFailed` if the source fails.
fn pass_values<S: Source>(window: &mut Window<'_, S>, n: u128) -> Result<bool, HeadFault>
    ensures { PassesValues window.old window.new n result }
{
    let mut missing = n;
    let mut last_is_nul = false;
    while 0 < missing {
        window.ensure_byte()?;
        let piece = window.ready(missing);
        let len = piece.len();
        last_is_nul = ends_with_nul(piece);
        window.pass(len);
        missing -= len as u128;
    }
    Ok(last_is_nul)
}

/// Returns true if there are bytes, and the last of them is a NUL.
fn ends_with_nul(bytes: &[u8]) -> bool
    ensures { result ≡ ends_with_nul bytes.now }
{
    0 < bytes.len() && bytes[bytes.len() - 1] == 0
}
