//! What is said of a field at which reading stops.

ghost use Rattle.std.specs.Prelude.{◌≡◌};
ghost use Rattle.check_lines.specs.Details.{fault_message, is_after_zero_tag, is_list_count, last_type, number_of_field, tag_of, top_bit_limit};
ghost use Rattle.check_lines.specs.code.Written.{message_of};

use crate::message::Message::{Found, Instead, Nothing};
use crate::message::Part::{FieldType, Long, Number};
use crate::message::Said::{With, Words};
use crate::message::{CONTENT, Message};
use nc_base::FormatFault;
use nc_findings::{Entry, FieldKind, Listing};

/// The index of the version among the fields of a header, of which `CDF` is the first.
const VERSION_FIELD: usize = 1;

/// The index of the number of dimensions: the number of records and the tag of the dimensions come between the version and it.
const DIMS_COUNT_FIELD: usize = 4;

/// Returns the message for the field `entry`, at which reading the header stopped with `fault`: what is found there, and what is expected,
/// if `fault` says it. This is the last field of the listing, but no clause says so.
pub(crate) fn fault_message(listing: &Listing, entry: &Entry, fault: FormatFault) -> Message
    ensures { message_of result ≡ fault_message listing.now entry.now fault }
{
    let entries = listing.entries.as_slice();
    match fault {
        FormatFault::NotNetcdf => Instead(CONTENT, Words("0x434446")),
        FormatFault::UnknownVersion(_) => Instead(CONTENT, Words("1, 2 or 5")),
        FormatFault::HeaderTruncated => {
            let bytes_left = listing.file_len.saturating_sub(entry.offset);
            Instead(
                With("_", Number(bytes_left)),
                With("_ bytes", Long(entry.size)),
            )
        }
        FormatFault::BadTag => Instead(CONTENT, With("0 or _", Number(tag_of(entry.place.field)))),
        FormatFault::BadCount if is_after_zero_tag(entries, entry.place.field) => {
            Instead(CONTENT, Words("0"))
        }
        FormatFault::BadShape
            if entry.content.number() < number_of_field(entries, DIMS_COUNT_FIELD) => {
            Instead(CONTENT, Words("no record dimension here"))
        }
        FormatFault::BadCount | FormatFault::BadOffset => {
            Instead(CONTENT, With("below _", Number(top_bit_limit(entry.size))))
        }
        FormatFault::BadShape => {
            let dims = number_of_field(entries, DIMS_COUNT_FIELD);
            Instead(CONTENT, With("below _", Number(dims)))
        }
        FormatFault::BadName | FormatFault::TooLarge => Nothing,
        FormatFault::FloatingType => Found(With("_", FieldType)),
        FormatFault::BadType => Instead(
            With("_", FieldType),
            With("1 to _", Number(last_type(entries))),
        ),
        FormatFault::TwoRecordDims => Instead(CONTENT, Words("at least 1")),
    }
}

/// Returns true if a field of the kind `field` is the number of elements of a list, and the number in the last field but one of `entries` is
/// 0. Reading stops at the last field, that number, so the one before it is the tag of the list.
fn is_after_zero_tag(entries: &[Entry], field: FieldKind) -> bool
    ensures { result ≡ is_after_zero_tag entries.now field }
{
    is_list_count(field) && number_of_field(entries, entries.len().saturating_sub(2)) == 0
}

/// Returns true if a field of this kind is the number of elements of a list: of dimensions, attributes or variables.
fn is_list_count(field: FieldKind) -> bool
    ensures { result ≡ is_list_count field }
{
    matches!(
        field,
        FieldKind::DimsCount
            | FieldKind::GlobalAttsCount
            | FieldKind::VarsCount
            | FieldKind::AttsCount
    )
}

/// Returns the tag that a list with elements has in a file: 10 for dimensions, 11 for variables, and 12 for attributes. `field` is the field
/// of the list's tag. Any other field gives 12.
fn tag_of(field: FieldKind) -> u64
    ensures { result ≡ tag_of field }
{
    match field {
        FieldKind::DimsTag => 10,
        FieldKind::VarsTag => 11,
        _ => 12,
    }
}

/// Returns the limit below which the top bit of a number is 0: 2^63 for a number of 8 bytes, and otherwise 2^31. `size` is in bytes.
fn top_bit_limit(size: u128) -> u64
    ensures { result ≡ top_bit_limit size }
{
    if size == 8 { 1 << 63 } else { 1 << 31 }
}

/// Returns the greatest type code of the file's version: 11 for CDF-5, otherwise 6. The version is the second field of the listing.
fn last_type(entries: &[Entry]) -> u64
    ensures { result ≡ last_type entries.now }
{
    if number_of_field(entries, VERSION_FIELD) == 5 {
        11
    } else {
        6
    }
}

/// Returns the number that is the content of the field at the index `i`, or 0 if there is no such field, or its content isn't a number.
fn number_of_field(entries: &[Entry], i: usize) -> u64
    ensures { result ≡ number_of_field entries.now i }
{
    entries.get(i).map_or(0, |entry| entry.content.number())
}
