//! The fields of a header at which findings about sizes and the layout lie.

ghost use Rattle.std.specs.Prelude.{◌≡◌, IfOk};
ghost use Rattle.nc_rules.specs.Indexed.{field_at, indexed};
ghost use Rattle.nc_rules.specs.code.WholeHeaders.{HoldsNumbers, number_field};

use crate::ahead::NumberField;
use nc_base::Sequence;
use nc_findings::{Entry, FieldKind};
use std::alloc::{AllocError, Global};

/// The fields of a header that are the number of records, the sizes (`vsize`) and the begins of the variables, in its order.
#[derive(Drop)]
pub(crate) struct NumberFields {
    pub(crate) numrecs: Sequence<NumberField>,
    pub(crate) vsizes: Sequence<NumberField>,
    pub(crate) begins: Sequence<NumberField>,
}

/// Returns the fields `numrecs`, `vsize` and `begin` of a header, in its order. Errs only if an allocation fails.
pub(crate) fn number_fields(alloc: Global, entries: &[Entry]) -> Result<NumberFields, AllocError>
    ensures { IfOk result (HoldsNumbers (indexed entries.now)) }
{
    let mut fields = NumberFields {
        numrecs: Sequence::new(alloc),
        vsizes: Sequence::new(alloc),
        begins: Sequence::new(alloc),
    };
    for (index, entry) in entries.iter().enumerate() {
        let index = index as u64;
        match entry.place.field {
            FieldKind::NumRecs => fields.numrecs.push(number_field(index, entry))?,
            FieldKind::Vsize => fields.vsizes.push(number_field(index, entry))?,
            FieldKind::Begin => fields.begins.push(number_field(index, entry))?,
            _ => {}
        }
    }
    Ok(fields)
}

/// Returns the index, the offset and the number of `entry`, the header's field at this index. If the field isn't a number, the number is 0.
fn number_field(index: u64, entry: &Entry) -> NumberField
    ensures { result ≡ number_field (field_at index entry.now) }
{
    NumberField {
        index,
        offset: entry.offset,
        number: entry.content.number(),
    }
}
