//! Findings at a name that two elements of a list have.

ghost use Rattle.std.specs.Prelude.{◌≡◌, ◌∷◌, ◌++◌, [], List, IfOk, OnOk};
ghost use Rattle.std.specs.Option.{option_map};
ghost use Rattle.nc_rules.specs.Indexed.{Indexed, field_at, indexed};
ghost use Rattle.nc_rules.specs.NameRules.{duplicate_name, key_of, name_findings};
ghost use Rattle.nc_rules.specs.code.FirstNames.{HasFirst, is_first_of};

use crate::finding::{finding_at, push_some};
use crate::names::{FirstNames, NameScope, list_of};
use nc_base::Sequence;
use nc_findings::{Content, Entry, Fact, FieldKind, Finding};
use std::alloc::{AllocError, Global};

/// Appends a finding at each name that an earlier element of the same list has, such as a second variable `x`. `entries` are the fields of
/// a header. Returns the names of each list, each with the index of the first field that is this name. Errs only if an allocation fails.
#[tactic(auto, unfolding(crate::specs::NameRules::name_findings))]
pub(crate) fn push_name_findings<'a>(
    found: &mut Sequence<Finding>,
    alloc: Global,
    entries: &'a [Entry],
) -> Result<FirstNames<'a>, AllocError>
    ensures found { OnOk result (found.new ≡ found.old ++ name_findings (indexed entries.now)) }
    ensures names { IfOk result (λ names. HasFirst names (indexed entries.now)) }
{
    let mut names = FirstNames::new(alloc);
    for (i, entry) in entries.iter().enumerate() {
        let duplicate = add_name(&mut names, i as u64, entry)?;
        push_some(found, duplicate)?;
    }
    Ok(names)
}

/// Adds the name in `entry`, the header's field at the index `i`, to `names`, and returns `None`. If an earlier element of the same list
/// has this name, adds nothing, and returns the finding that says so. A field that isn't a name, or has a fault, changes nothing, and the
/// result is `None`. Errs only if an allocation fails.
fn add_name<'a>(
    names: &mut FirstNames<'a>,
    i: u64,
    entry: &'a Entry,
) -> Result<Option<Finding>, AllocError>
    ensures finding { IfOk result (λ found. (earlier : List Indexed) → HasFirst names.old earlier
        → found ≡ duplicate_name earlier (field_at i entry.now)) }
    ensures names { OnOk result ((earlier : List Indexed) → HasFirst names.old earlier
        → HasFirst names.new (earlier ++ field_at i entry.now ∷ [])) }
{
    let Some((list, name)) = key_of(entry) else {
        return Ok(None);
    };
    let first = names.add(list, name, i)?;
    Ok(first.map(|first| finding_at(i, entry.offset, Fact::DuplicateName { first })))
}

/// Returns true if `entry`, the header's field at the index `i`, is a name without a fault, and the first such name in its list: `names`
/// has this index for it.
pub(crate) fn is_first<'a>(names: &FirstNames<'a>, i: u64, entry: &'a Entry) -> bool
    ensures { result ≡ is_first_of names.now (field_at i entry.now) }
{
    let Some((list, name)) = key_of(entry) else {
        return false;
    };
    names.is_first(list, name, i)
}

/// Returns the list that the name in this field belongs to, and the name, or `None` if the field isn't a name or has a fault.
fn key_of(entry: &Entry) -> Option<(NameScope, &[u8])>
    ensures { option_map (λ key. (key.0, key.1.now)) result ≡ key_of entry.now }
{
    if !matches!(entry.place.field, FieldKind::Name) || entry.fault.is_some() {
        return None;
    }
    let Content::Bytes(name) = &entry.content else {
        return None;
    };
    let list = list_of(entry.place.owner)?;
    Some((list, name.as_slice()))
}
