//! What lies ahead of a field of a header: the next fields that the rules on lists and attributes look at.

ghost use Rattle.std.specs.Prelude.{◌≡◌, []};
ghost use Rattle.nc_rules.specs.Indexed.{field_at};
ghost use Rattle.nc_rules.specs.Ahead.{ahead_of, var_type_at, number_at, values_at};
ghost use Rattle.nc_rules.specs.code.Passes.{ahead_with};

use nc_base::FormatFault;
use nc_findings::{Content, Entry, FieldKind, Owner};

/// A field of a header that is a number.
#[derive(Clone, Copy, Debug, PartialEq, Eq)]
pub struct NumberField {
    /// The index of the field among the header's fields.
    pub index: u64,
    /// The offset of the field in the file.
    pub offset: u64,
    /// The number.
    pub number: u64,
}

/// A field of a header that is the values of an attribute.
#[derive(Clone, Copy, Debug, PartialEq, Eq)]
pub struct ValuesAt {
    /// The index of the field among the header's fields.
    pub index: u64,
    /// The offset of the field in the file.
    pub offset: u64,
    /// The last byte is a NUL.
    pub ends_with_nul: bool,
}

/// What lies ahead of a field of a header: the next field of each kind that the rules on lists and attributes look at. A part is `None` if
/// no such field follows, or only one that the end of the file cuts.
#[derive(Clone, Copy, Debug, PartialEq, Eq)]
pub struct Ahead {
    /// The next field, if it is a number.
    pub next: Option<NumberField>,
    /// The next type code, of an attribute or a variable.
    pub type_code: Option<NumberField>,
    /// The next number of an attribute's values (`nelems`).
    pub count: Option<NumberField>,
    /// The next values of an attribute.
    pub values: Option<ValuesAt>,
    /// The next type code of a variable, if the version has this type.
    pub var_type: Option<NumberField>,
}

/// Returns what lies ahead of the last field of a header: nothing, so that each part is `None`.
pub(crate) fn nothing_ahead() -> Ahead
    ensures { result ≡ ahead_of [] }
{
    Ahead {
        next: None,
        type_code: None,
        count: None,
        values: None,
        var_type: None,
    }
}

impl Ahead {
    /// Steps back by one field: what lay ahead of `entry`, the header's field at the index `i`, becomes what lies ahead of the field before
    /// it, which has `entry` next.
    pub(crate) fn put_before(&mut self, i: u64, entry: &Entry)
        ensures { self.new ≡ ahead_with (field_at i entry.now) self.old }
    {
        let number = number_at(i, entry);
        self.next = number;
        match entry.place.field {
            FieldKind::Type => {
                self.type_code = number;
                if matches!(entry.place.owner, Owner::Var(_)) {
                    self.var_type = var_type_at(i, entry);
                }
            }
            FieldKind::Count => self.count = number,
            FieldKind::Values => self.values = values_at(i, entry),
            _ => {}
        }
    }
}

/// Returns the index `i`, the offset and the number of `entry`, the header's field at this index, or `None` if the field isn't a number.
fn number_at(i: u64, entry: &Entry) -> Option<NumberField>
    ensures { result ≡ number_at (field_at i entry.now) }
{
    match entry.content {
        Content::Number(number) => Some(NumberField {
            index: i,
            offset: entry.offset,
            number,
        }),
        _ => None,
    }
}

/// Returns the index `i`, the offset and the number of `entry`, the header's field at this index and the type code of a variable, or `None`
/// if the version lacks the type or the file ends inside the field.
fn var_type_at(i: u64, entry: &Entry) -> Option<NumberField>
    ensures { result ≡ var_type_at (field_at i entry.now) }
{
    match entry.fault {
        Some(FormatFault::BadType) => None,
        _ => number_at(i, entry),
    }
}

/// Returns `entry`, the header's field at the index `i`, if it is the values of an attribute, or `None`, also if the file ends inside them.
fn values_at(i: u64, entry: &Entry) -> Option<ValuesAt>
    ensures { result ≡ values_at (field_at i entry.now) }
{
    match entry.content {
        Content::Values { ends_with_nul } => Some(ValuesAt {
            index: i,
            offset: entry.offset,
            ends_with_nul,
        }),
        _ => None,
    }
}
