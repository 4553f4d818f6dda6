//! The lists of a header.

use nc_findings::{FieldKind, Owner, Place};

/// A list of a header.
#[derive(Clone, Copy)]
pub(crate) enum HeaderList {
    /// The dimensions.
    Dims,
    /// The global attributes.
    GlobalAtts,
    /// The variables.
    Vars,
    /// The attributes of the variable of this number, from 0.
    Atts(u64),
}

impl HeaderList {
    ghost use Rattle.std.specs.Prelude.{◌≡◌, ◌∷◌};
    ghost use Rattle.nc_base.specs.Parts.{Count, Item, Tag};
    ghost use Rattle.nc_fields.specs.Entries.{owner_steps, steps_of};
    ghost use Rattle.nc_fields.specs.code.Checks.{IsNumeric};
    ghost use Rattle.nc_fields.specs.code.Lists.{list_steps};

    /// Returns the place of the list's tag (a field that is a number): its owner is the header, or the variable whose attributes these are.
    pub(crate) fn tag(self) -> Place
        ensures steps { steps_of result ≡ Tag ∷ list_steps self }
        ensures numeric { IsNumeric result }
    {
        match self {
            HeaderList::Dims => Owner::Header.field(FieldKind::DimsTag),
            HeaderList::GlobalAtts => Owner::Header.field(FieldKind::GlobalAttsTag),
            HeaderList::Vars => Owner::Header.field(FieldKind::VarsTag),
            HeaderList::Atts(var) => Owner::Var(var).field(FieldKind::AttsTag),
        }
    }

    /// Returns the place of the number of the list's elements: its owner is the header, or the variable whose attributes these are.
    pub(crate) fn count(self) -> Place
        ensures steps { steps_of result ≡ Count ∷ list_steps self }
        ensures numeric { IsNumeric result }
    {
        match self {
            HeaderList::Dims => Owner::Header.field(FieldKind::DimsCount),
            HeaderList::GlobalAtts => Owner::Header.field(FieldKind::GlobalAttsCount),
            HeaderList::Vars => Owner::Header.field(FieldKind::VarsCount),
            HeaderList::Atts(var) => Owner::Var(var).field(FieldKind::AttsCount),
        }
    }

    /// Returns the list's element of this number, from 0, as the owner of its fields, such as `Owner::Dim(number)`.
    pub(crate) fn item(self, number: u64) -> Owner
        ensures { owner_steps result ≡ Item number ∷ list_steps self }
    {
        match self {
            HeaderList::Dims => Owner::Dim(number),
            HeaderList::GlobalAtts => Owner::GlobalAtt(number),
            HeaderList::Vars => Owner::Var(number),
            HeaderList::Atts(var) => Owner::VarAtt { var, att: number },
        }
    }
}
