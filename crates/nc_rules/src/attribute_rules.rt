//! Findings about an empty list and about an attribute.

ghost use Rattle.std.specs.Prelude.{◌≡◌, ◌++◌, OnOk};
ghost use Rattle.std.specs.Option.{option_to_list};
ghost use Rattle.nc_rules.specs.Indexed.{field_at, indexed};
ghost use Rattle.nc_rules.specs.AttributeRules.{attribute_findings, empty_attribute, empty_list, fill_count, fill_finding, finding_by_kind, is_attribute, is_fill_name, is_var_attribute, name_finding, trailing_nul, type_finding};
ghost use Rattle.nc_rules.specs.code.FirstNames.{HasFirst, is_first_of};
ghost use Rattle.nc_rules.specs.code.Passes.{Appended};

use crate::ahead::{Ahead, NumberField, ValuesAt, nothing_ahead};
use crate::finding::{finding_at, push_some};
use crate::name_rules::is_first;
use crate::names::FirstNames;
use nc_base::Sequence;
use nc_findings::{Content, Entry, Fact, FieldKind, Finding, Owner};
use std::alloc::AllocError;

/// The type code of `char`.
const CHAR: u64 = 2;

/// Appends the findings about empty lists and about attributes, in no order that is promised. `entries` are the fields of a header. Needs
/// `names` that have the index of the first field of each name in them. Errs only if an allocation fails.
pub(crate) fn push_attribute_findings<'a>(
    found: &mut Sequence<Finding>,
    entries: &'a [Entry],
    names: &FirstNames<'a>,
) -> Result<(), AllocError>
    requires { HasFirst names.now (indexed entries.now) }
    ensures { OnOk result (Appended (attribute_findings (indexed entries.now)) found.old found.new) }
{
    let mut ahead = nothing_ahead();
    for i in (0..entries.len()).rev() {
        let entry = &entries[i];
        push_attribute_finding(found, i as u64, entry, names, &ahead)?;
        ahead.put_before(i as u64, entry);
    }
    Ok(())
}

/// Appends what is odd about a list, if this field is its tag, or about an attribute, if it is its type, or its name in a variable. `entry`
/// is the header's field at the index `i`, `ahead` has the fields after it that the rules look at, and `names` has the first field of each
/// name. Errs only if an allocation fails.
fn push_attribute_finding<'a>(
    found: &mut Sequence<Finding>,
    i: u64,
    entry: &'a Entry,
    names: &FirstNames<'a>,
    ahead: &Ahead,
) -> Result<(), AllocError>
    ensures { OnOk result (found.new ≡ found.old ++ option_to_list (finding_by_kind
        (is_first_of names.now (field_at i entry.now)) entry.now.place.field (field_at i entry.now) ahead.now)) }
{
    match entry.place.field {
        FieldKind::DimsTag | FieldKind::GlobalAttsTag | FieldKind::VarsTag | FieldKind::AttsTag => {
            push_some(found, empty_list(i, entry, ahead.next))
        }
        FieldKind::Type if is_attribute(entry.place.owner) => {
            push_some(found, type_finding(&entry.content, ahead))
        }
        FieldKind::Name if is_var_attribute(entry.place.owner) => {
            push_some(found, name_finding(i, entry, names, ahead))
        }
        _ => Ok(()),
    }
}

/// Returns true if the owner of a field is an attribute, a global one or one of a variable.
fn is_attribute(owner: Owner) -> bool
    ensures { result ≡ is_attribute owner }
{
    matches!(owner, Owner::GlobalAtt(_) | Owner::VarAtt { .. })
}

/// Returns true if the owner of a field is an attribute of a variable.
fn is_var_attribute(owner: Owner) -> bool
    ensures { result ≡ is_var_attribute owner }
{
    matches!(owner, Owner::VarAtt { .. })
}

/// Returns the finding that a list has its own tag, but no elements: such a list should have the tag 0 (`ABSENT` of the NetCDF Classic
/// Format Specification). `entry` is the tag, the header's field at the index `i`, and `next` is the field after it, the number of
/// elements. Returns `None` if the tag is 0 or the list has elements, and if one of the two numbers wasn't read.
fn empty_list(i: u64, entry: &Entry, next: Option<NumberField>) -> Option<Finding>
    ensures { result ≡ empty_list (field_at i entry.now) entry.now.content next }
{
    let Content::Number(tag) = entry.content else {
        return None;
    };
    let count = next?;
    (tag != 0 && count.number == 0).then_some(finding_at(i, entry.offset, Fact::EmptyList))
}

/// Returns the finding about the values of an attribute with this type code: that they end with a NUL if it is `char`, or that there are
/// none if it is another type. `ahead` has their field and their number. Returns `None` if neither is so, or if the file ends too early.
fn type_finding(code: &Content, ahead: &Ahead) -> Option<Finding>
    ensures { result ≡ type_finding code.now ahead.now }
{
    match code {
        Content::Number(CHAR) => trailing_nul(ahead.values?),
        Content::Number(_) => empty_attribute(ahead.count?),
        _ => None,
    }
}

/// Returns the finding that an attribute has no values, at the field `count`, which is their number, or `None` if it has some.
fn empty_attribute(count: NumberField) -> Option<Finding>
    ensures { result ≡ empty_attribute count }
{
    (count.number == 0).then_some(finding_at(count.index, count.offset, Fact::EmptyAttribute))
}

/// Returns the finding that the values of an attribute end with a NUL, at the field of the values, or `None` if they don't.
fn trailing_nul(values: ValuesAt) -> Option<Finding>
    ensures { result ≡ trailing_nul values }
{
    values
        .ends_with_nul
        .then_some(finding_at(values.index, values.offset, Fact::TrailingNul))
}

/// Returns the finding that an attribute is the first `_FillValue` of its variable (by `names`), but not one value of the variable's type,
/// or `None`. `entry` is its name, the header's field at the index `i`, and `ahead` has the fields after it.
fn name_finding<'a>(
    i: u64,
    entry: &'a Entry,
    names: &FirstNames<'a>,
    ahead: &Ahead,
) -> Option<Finding>
    ensures { result ≡ name_finding (is_first_of names.now (field_at i entry.now))
        entry.now.content ahead.now }
{
    if is_fill_name(&entry.content) && is_first(names, i, entry) {
        fill_finding(ahead)
    } else {
        None
    }
}

/// Returns true if the content of a field is the bytes `_FillValue`.
fn is_fill_name(name: &Content) -> bool
    ensures { result ≡ is_fill_name name.now }
{
    matches!(name, Content::Bytes(name) if name.as_slice() == b"_FillValue".as_slice())
}

/// Returns the finding that a `_FillValue` hasn't the type of its variable or, if it has, not exactly one value. `ahead` has the fields
/// after its name. Returns `None` if both are right, or if one of these fields isn't there.
fn fill_finding(ahead: &Ahead) -> Option<Finding>
    ensures { result ≡ fill_finding ahead.now.type_code ahead.now.var_type ahead.now.count }
{
    let type_code = ahead.type_code?;
    let expected = ahead.var_type?.number;
    if type_code.number == expected {
        fill_count(ahead.count?)
    } else {
        Some(finding_at(
            type_code.index,
            type_code.offset,
            Fact::FillType { expected },
        ))
    }
}

/// Returns the finding that a `_FillValue` hasn't exactly one value, at the field `count`, their number, or `None` if it has one.
fn fill_count(count: NumberField) -> Option<Finding>
    ensures { result ≡ fill_count count }
{
    (count.number != 1).then_some(finding_at(count.index, count.offset, Fact::FillCount))
}
