//! What is said of what is found, and of what is expected in its place.

ghost use Rattle.std.specs.Prelude.{◌≡◌};
ghost use Rattle.devices.specs.code.SinkWrites.{Wrote};
ghost use Rattle.check_lines.specs.Details.{data_message, details, field_message, owner_number, owner_number_at};
ghost use Rattle.check_lines.specs.Messages.{expected_text, found_text};
ghost use Rattle.check_lines.specs.code.Names.{entry_in};
ghost use Rattle.check_lines.specs.code.Styles.{end_in};
ghost use Rattle.check_lines.specs.code.Written.{message_of};

use crate::fault_message::fault_message;
use crate::layout_message::layout_message;
use crate::message::Message::{Found, Instead, Nothing};
use crate::message::Part::{FieldType, FieldZeros, Number, TypeCode};
use crate::message::Said::{With, Words};
use crate::message::{CONTENT, Message, put_message};
use crate::style::Style;
use devices::{Sink, WriteFailed};
use nc_findings::{Content, Entry, Fact, HIGHEST_RANK, LARGE_COUNT, LONGEST_NAME, Listing, Owner};

/// Writes what is found and what is expected: the end of a finding's line, such as `: found 3, expected 0`, or members of its object.
/// Nothing if the fact says no more. `listing` has the header's fields, and `entry` is the finding's field, or `None` for a finding in the
/// data. Errs if the sink fails.
#[tactic(auto, using(crate::proofs::Styled::styled), unfolding(crate::specs::Details::details, crate::specs::code::Styles::end_in))]
pub(crate) fn put_details<W: Sink>(
    sink: &mut W,
    style: Style,
    listing: &Listing,
    entry: Option<&Entry>,
    fact: Fact,
) -> Result<(), WriteFailed>
    ensures { Wrote W.view sink.old sink.new (end_in style
        (details found_text listing.now (entry_in entry.entry) fact)
        (details expected_text listing.now (entry_in entry.entry) fact)) result }
{
    let header = &listing.header;
    match entry {
        Some(entry) => {
            let message = field_message(listing, entry, fact);
            put_message(sink, style, header, &entry.content, message)
        }
        None => put_message(sink, style, header, &Content::Cut, data_message(fact)),
    }
}

/// Returns the message for a fact at the field `entry` of the listing.
fn field_message(listing: &Listing, entry: &Entry, fact: Fact) -> Message
    ensures { message_of result ≡ field_message listing.now entry.now fact }
{
    match fact {
        Fact::Fault(fault) => fault_message(listing, entry, fault),
        Fact::Hdf5 => Found(Words("0x894844460d0a1a0a")),
        Fact::Hdf5Truncated { .. } | Fact::Layout(_) => data_message(fact),
        Fact::Gzip => Found(Words("0x1f8b")),
        Fact::EmptyFile => Found(Words("0 bytes")),
        Fact::NameCharacters | Fact::NotNfc | Fact::TrailingNul => Nothing,
        Fact::LargeCount => Instead(CONTENT, With("below _", Number(LARGE_COUNT))),
        Fact::EmptyList => Instead(CONTENT, Words("0")),
        Fact::LongName => Instead(CONTENT, With("at most _", Number(LONGEST_NAME))),
        Fact::DuplicateName { first } => {
            let number = owner_number_at(listing.entries.as_slice(), first);
            Found(With("the name of number _", Number(number)))
        }
        Fact::Padding => Instead(CONTENT, With("_", FieldZeros)),
        Fact::EmptyAttribute => Instead(CONTENT, Words("at least 1")),
        Fact::FillType { expected } => Instead(
            With("_", FieldType),
            With("_, the variable's type", TypeCode(expected)),
        ),
        Fact::FillCount => Instead(CONTENT, Words("1")),
        Fact::HighRank => Instead(CONTENT, With("at most _", Number(HIGHEST_RANK))),
        Fact::Vsize { expected } | Fact::OddVsize { expected } => {
            Instead(CONTENT, With("_", Number(expected)))
        }
    }
}

/// Returns the message for a fact in the data: about the layout, or that an HDF5 file ends too early.
fn data_message(fact: Fact) -> Message
    ensures { message_of result ≡ data_message fact }
{
    match fact {
        Fact::Layout(fact) => layout_message(fact),
        Fact::Hdf5Truncated { file_len, end } => Instead(
            With("_ bytes", Number(file_len)),
            With("at least _", Number(end)),
        ),
        _ => Nothing,
    }
}

/// Returns the number, from 0 in its list, of the dimension, attribute or variable to which the field at the index `i` belongs. Returns 0
/// if there is no such field, or if it belongs to the header itself.
fn owner_number_at(entries: &[Entry], i: u64) -> u64
    ensures { result ≡ owner_number_at entries.now i }
{
    entries
        .get(i as usize)
        .map_or(0, |entry| owner_number(entry.place.owner))
}

/// Returns the number of a dimension, an attribute or a variable in its list, from 0. For the header itself, returns 0.
fn owner_number(owner: Owner) -> u64
    ensures { result ≡ owner_number owner }
{
    match owner {
        Owner::Header => 0,
        Owner::Dim(i) | Owner::GlobalAtt(i) | Owner::Var(i) => i,
        Owner::VarAtt { att, .. } => att,
    }
}
