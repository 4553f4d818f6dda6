//! The statement of an attribute.

ghost use Rattle.std.specs.Prelude.{◌≡◌, OnErr, false, true};
ghost use Rattle.cdl_statements.specs.code.Cutters.{is_done, words};
ghost use Rattle.cdl_statements.specs.code.DueTokens.{completes};
ghost use Rattle.cdl_statements.specs.declared.due.Due.TheVariants.{AttributeName};
ghost use Rattle.cdl_values.specs.code.Answers.{Leaves};
ghost use Rattle.cdl_parse.specs.code.AttributeNames.{with_new_att};
ghost use Rattle.cdl_parse.specs.code.AttributeRead.{att_read};

use crate::attributes::Attributes;
use crate::taken_name::duplicate_name_or;
use cdl_statements::{CdlKind, Cutter};
use cdl_values::{ReadError, read_constants, read_name, type_said};
use nc_base::{Att, ListedArray, NcType, Sequence};
use std::alloc::Global;

/// Reads an attribute and adds it to `attributes`, the attributes of its variable or of the dataset. `start` is at the attribute's name:
/// the colon before it, and the name of a variable before the colon, have been passed. Needs tokens in the order of such a statement, which
/// isn't checked here.
///
/// After the name come `=` and the constants, joined by commas. All have one type, that of the first; strings are put one after the other
/// (the CDL chapter of the NetCDF User's Guide, and ncgen(1)).
///
/// # Errors
///
/// The first of these faults: a name that the format doesn't allow (`BadName`); the name of another attribute in `attributes`
/// (`DuplicateName`); the fault of the first constant that has one (`MixedConstants`, `NumberRange`). Or an allocation failed. In each case
/// `attributes` is what it was.
pub fn read_attribute(
    alloc: Global,
    attributes: &mut Attributes,
    start: Cutter<'_>,
) -> Result<(), ReadError>
    requires more { is_done start ≡ false }
    requires shaped { completes AttributeName (words start) ≡ true }
    ensures reads { Leaves attributes.new result (att_read start.entry attributes.old) }
    ensures unchanged { OnErr result (attributes.new ≡ attributes.old) }
{
    let name = read_name(alloc, start.lexeme().bytes)?;
    let (equals, _) = start.advanced();
    let (first, _) = equals.advanced();
    let ty = type_said(first.version(), first.lexeme());
    match read_constants(alloc, ty, first) {
        Ok(vals) => add_attribute(alloc, attributes, name, ty, vals),
        Err(e) => Err(duplicate_name_or(attributes.has_name(name.as_slice()), e)),
    }
}

/// Adds the attribute of this name and type at the end of `attributes`. `vals` has the bytes of its values, big-endian.
///
/// # Errors
///
/// Another attribute has the name (`DuplicateName`), or an allocation failed. In both cases `attributes` is what it was.
fn add_attribute(
    alloc: Global,
    attributes: &mut Attributes,
    name: Vec<u8>,
    ty: NcType,
    vals: ListedArray,
) -> Result<(), ReadError>
    ensures adds { Leaves attributes.new result (with_new_att attributes.old name.items ty vals) }
    ensures unchanged { OnErr result (attributes.new ≡ attributes.old) }
{
    let vals = Sequence::from_vec(vals.into_bytes(alloc, 0)?);
    let att = Att {
        name: Sequence::from_vec(name),
        ty,
        vals,
    };
    if !attributes.add(alloc, att)? {
        return Err(ReadError::Fault(CdlKind::DuplicateName));
    }
    Ok(())
}
