//! Fields that are passed on the way through a listing.

ghost use Rattle.std.specs.Prelude.{◌≡◌, ◌+◌, ◌≤◌, [], length, take};
ghost use Rattle.check_lines.specs.Lines.{names_at};
ghost use Rattle.check_lines.specs.Paths.{names_after};
ghost use Rattle.check_lines.specs.code.Names.{IsPassed, known};

use crate::known_names::{Names, no_names, with_field};
use nc_findings::Entry;

/// How many fields of a listing were passed, and the names that are known after them.
#[derive(Clone, Copy)]
pub(crate) struct Passed<'a> {
    /// How many fields were passed.
    pub count: usize,
    /// The names that are known after them.
    pub names: Names<'a>,
}

/// Returns what is known before the first field: no field was passed, and no name is known.
pub(crate) fn nothing_passed<'a>() -> Passed<'a>
    ensures count { result.count ≡ 0 }
    ensures names { known result.names ≡ names_after [] }
{
    Passed {
        count: 0,
        names: no_names(),
    }
}

/// Returns how many fields of the listing there are up to and including the one at the index `field`, and the names that are known after
/// them. With `None`, for a finding in the data, returns no field and no name. Needs a `passed` of the same listing, from which it goes on,
/// or begins again at the first field if `passed` is already past `field`. (In a report it never begins again: the findings are in the
/// order of their fields, and those in the data come last.)
pub(crate) fn passed_up_to<'a>(
    passed: Passed<'a>,
    entries: &'a [Entry],
    field: Option<u64>,
) -> Passed<'a>
    requires { IsPassed entries.now passed }
    ensures passed { IsPassed entries.entry.now result }
    ensures names { known result.names ≡ names_at entries.entry.now field }
{
    match field {
        Some(i) => {
            let end = end_after(entries, i);
            let before = if passed.count <= end {
                passed
            } else {
                nothing_passed()
            };
            pass_fields(before, entries, end)
        }
        None => nothing_passed(),
    }
}

/// Returns how many fields the listing has up to and including the one at the index `i`: all of them if it has no such field.
#[tactic(auto, using(std::proofs::lemmas::List::take_all))]
fn end_after(entries: &[Entry], i: u64) -> usize
    ensures within { result ≤ length entries.now }
    ensures end { take result entries.now ≡ take (i + 1) entries.now }
{
    let len = entries.len();
    if i < len as u64 { i as usize + 1 } else { len }
}

/// Goes on from `passed` through the fields before the index `end`. Returns how many fields have now been passed, and the names that are
/// known after them. Needs a `passed` of the same listing, which isn't past `end`, and an `end` within the listing.
#[tactic(auto, using(std::proofs::lemmas::List::Sums::fold_more))]
fn pass_fields<'a>(passed: Passed<'a>, entries: &'a [Entry], end: usize) -> Passed<'a>
    requires passed { IsPassed entries.now passed }
    requires before { passed.count ≤ end }
    requires within { end ≤ length entries.now }
    ensures count { result.count ≡ end }
    ensures names { known result.names ≡ names_after (take end entries.entry.now) }
{
    let mut names = passed.names;
    for i in passed.count..end {
        names = with_field(names, &entries[i]);
    }
    Passed { count: end, names }
}
