//! What is found in small listings, by the rules of `nc_report` on fields and attributes.

use nc_base::{FormatFault, Sequence};
use nc_fields::FieldKind::{
    AttsCount, AttsTag, Count, DimsCount, DimsTag, Name, NameLength, NamePadding, Padding, Rank,
    Type, Values, VarsCount, VarsTag,
};
use nc_fields::Owner::{Dim, GlobalAtt, Header, Var, VarAtt};
use nc_fields::{Content, Entry, FieldBytes, FieldKind, Listing, Owner, Place};
use nc_report::{Fact, Finding, findings_of};
use std::alloc::{AllocError, Global};
use std::process::Abort;

/// What is in a field.
#[derive(Clone, Copy)]
enum Given {
    Number(u64),
    Bytes(&'static [u8]),
    EndsWithNul(bool),
    Cut,
}

use Given::{Bytes, Cut, EndsWithNul, Number};

/// A field: what it belongs to, its name, and what is in it.
type Field = (Owner, FieldKind, Given);

/// The fields of a listing, what is wrong with the last one, and what is found, with the indices of the fields.
type Row = (
    &'static [Field],
    Option<FormatFault>,
    &'static [(u64, Fact)],
);

/// An attribute of the first variable, and one of the second.
const ATT: Owner = VarAtt { var: 0, att: 0 };

const OTHER: Owner = VarAtt { var: 1, att: 0 };

/// Further attributes of these.
const ATT_AFTER: Owner = VarAtt { var: 0, att: 1 };

const OTHER_AFTER: Owner = VarAtt { var: 1, att: 1 };

/// The name of a fill value.
const FILL: Given = Bytes(b"_FillValue");

/// Fields by themselves, and those that stand beside each other.
static FIELDS: &[Row] = &[
    // the longest names, and the highest ranks
    (
        &[
            (Dim(0), NameLength, Number(256)),
            (Dim(1), NameLength, Number(257)),
            (Var(0), Rank, Number(1024)),
            (Var(1), Rank, Number(1025)),
        ],
        None,
        &[(1, Fact::LongName), (3, Fact::HighRank)],
    ),
    // a name with a slash, one that isn't in normal form NFC, one that is, and one that isn't UTF-8
    (
        &[
            (Var(0), Name, Bytes(b"a/b")),
            (Var(1), Name, Bytes(b"e\xcc\x81t\xc3\xa9")),
            (Var(2), Name, Bytes(b"\xc3\xa9t\xc3\xa9")),
            (Var(3), Name, Bytes(b"e\xcc\x81t\xe9")),
        ],
        None,
        &[
            (0, Fact::NameCharacters),
            (1, Fact::NotNfc),
            (3, Fact::NameCharacters),
        ],
    ),
    // spaces and zeros that fill a name and an attribute up
    (
        &[
            (Var(0), NamePadding, Bytes(b"  ")),
            (Var(1), NamePadding, Bytes(b"\0\0\0")),
            (GlobalAtt(0), Padding, Bytes(b"\0\x01")),
            (GlobalAtt(1), Padding, Bytes(b"")),
        ],
        None,
        &[(0, Fact::Padding), (2, Fact::Padding)],
    ),
    // only the fault of a field that has one
    (
        &[
            (Dim(0), Name, Bytes(b"x")),
            (Dim(1), NameLength, Number(257)),
            (Dim(1), Name, Bytes(b"x")),
        ],
        Some(FormatFault::BadName),
        &[(1, Fact::LongName), (2, Fact::Fault(FormatFault::BadName))],
    ),
    // the first of two floating types
    (
        &[
            (Var(0), Type, Number(4)),
            (Var(1), Type, Number(6)),
            (Var(2), Type, Number(5)),
        ],
        Some(FormatFault::TooLarge),
        &[
            (1, Fact::Fault(FormatFault::FloatingType)),
            (2, Fact::Fault(FormatFault::TooLarge)),
        ],
    ),
    // lists with their own tags, with and without elements, and one without a tag
    (
        &[
            (Header, DimsTag, Number(10)),
            (Header, DimsCount, Number(0)),
            (Header, VarsTag, Number(11)),
            (Header, VarsCount, Number(1)),
            (Var(0), AttsTag, Number(0)),
            (Var(0), AttsCount, Number(0)),
        ],
        None,
        &[(0, Fact::EmptyList)],
    ),
];

/// Attributes, and fill values of variables.
static ATTRIBUTES: &[Row] = &[
    // attributes without values, of the types short and char
    (
        &[
            (GlobalAtt(0), Type, Number(3)),
            (GlobalAtt(0), Count, Number(0)),
            (GlobalAtt(0), Values, EndsWithNul(false)),
            (GlobalAtt(1), Type, Number(2)),
            (GlobalAtt(1), Count, Number(0)),
            (GlobalAtt(1), Values, EndsWithNul(false)),
        ],
        None,
        &[(1, Fact::EmptyAttribute)],
    ),
    // values that end with a NUL, of the types byte and char
    (
        &[
            (ATT, Type, Number(1)),
            (ATT, Count, Number(4)),
            (ATT, Values, EndsWithNul(true)),
            (ATT, Type, Number(2)),
            (ATT, Count, Number(4)),
            (ATT, Values, EndsWithNul(true)),
        ],
        None,
        &[(5, Fact::TrailingNul)],
    ),
    // a fill value of another type than its variable, of which it has two
    (
        &[
            (Var(0), Name, Bytes(b"v")),
            (ATT, Name, FILL),
            (ATT, Type, Number(4)),
            (ATT, Count, Number(2)),
            (ATT, Values, EndsWithNul(false)),
            (Var(0), Type, Number(3)),
        ],
        None,
        &[(2, Fact::FillType { expected: 3 })],
    ),
    // a fill value of a global attribute, a right one, and one of a variable whose type is cut off
    (
        &[
            (GlobalAtt(0), Name, FILL),
            (GlobalAtt(0), Type, Number(1)),
            (GlobalAtt(0), Count, Number(2)),
            (ATT, Name, FILL),
            (ATT, Type, Number(3)),
            (ATT, Count, Number(1)),
            (Var(0), Type, Number(3)),
            (OTHER, Name, FILL),
            (OTHER, Type, Number(3)),
            (OTHER, Count, Number(2)),
            (Var(1), Type, Cut),
        ],
        Some(FormatFault::HeaderTruncated),
        &[(10, Fact::Fault(FormatFault::HeaderTruncated))],
    ),
    // two fill values of a variable, of which the second is wrong, and of another one, whose first is
    (
        &[
            (ATT, Name, FILL),
            (ATT, Type, Number(3)),
            (ATT, Count, Number(1)),
            (ATT_AFTER, Name, FILL),
            (ATT_AFTER, Type, Number(4)),
            (ATT_AFTER, Count, Number(2)),
            (Var(0), Type, Number(3)),
            (OTHER, Name, FILL),
            (OTHER, Type, Number(3)),
            (OTHER, Count, Number(2)),
            (OTHER_AFTER, Name, FILL),
            (OTHER_AFTER, Type, Number(3)),
            (OTHER_AFTER, Count, Number(1)),
            (Var(1), Type, Number(3)),
        ],
        None,
        &[
            (3, Fact::DuplicateName { first: 0 }),
            (9, Fact::FillCount),
            (10, Fact::DuplicateName { first: 7 }),
        ],
    ),
    // a fill value of another type than its variable, which is too large
    (
        &[
            (ATT, Name, FILL),
            (ATT, Type, Number(3)),
            (ATT, Count, Number(1)),
            (Var(0), Type, Number(4)),
        ],
        Some(FormatFault::TooLarge),
        &[
            (1, Fact::FillType { expected: 4 }),
            (3, Fact::Fault(FormatFault::TooLarge)),
        ],
    ),
];

/// Names that stand more than once.
static EQUAL_NAMES: &[Row] = &[
    // one name in several lists, twice and three times in one
    (
        &[
            (Dim(0), Name, Bytes(b"x")),
            (GlobalAtt(0), Name, Bytes(b"x")),
            (Var(0), Name, Bytes(b"x")),
            (ATT, Name, Bytes(b"x")),
            (ATT_AFTER, Name, Bytes(b"x")),
            (Var(1), Name, Bytes(b"x")),
            (OTHER, Name, Bytes(b"x")),
            (Var(2), Name, Bytes(b"x")),
        ],
        None,
        &[
            (4, Fact::DuplicateName { first: 3 }),
            (5, Fact::DuplicateName { first: 2 }),
            (7, Fact::DuplicateName { first: 2 }),
        ],
    ),
];

/// Returns the listing of these fields, each at ten times its index, the last one with this fault.
fn listed(
    alloc: Global,
    fields: &[Field],
    fault: Option<FormatFault>,
) -> Result<Sequence<Entry>, AllocError> {
    let mut entries = Sequence::new(alloc);
    for (i, field) in fields.iter().enumerate() {
        entries.push(Entry {
            place: Place {
                owner: field.0,
                field: field.1,
            },
            offset: (i as u64).wrapping_mul(10),
            size: 0,
            content: content_of(alloc, field.2)?,
            fault: if i < fields.len() - 1 { None } else { fault },
        })?;
    }
    Ok(entries)
}

/// Returns this content.
fn content_of(alloc: Global, given: Given) -> Result<Content, AllocError> {
    Ok(match given {
        Number(n) => Content::Number(n),
        Bytes(bytes) => Content::Bytes(FieldBytes::from_slice(alloc, bytes)?),
        EndsWithNul(ends_with_nul) => Content::Values { ends_with_nul },
        Cut => Content::Cut,
    })
}

/// Returns true if one of the findings is this fact at the field of this index.
fn has(found: &[Finding], (index, fact): (u64, Fact)) -> bool {
    found.contains(&Finding {
        offset: index.wrapping_mul(10),
        field: Some(index),
        fact,
    })
}

/// A listing of these fields. The header stands for none: of one that isn't whole, nothing is found about the layout.
fn listing_of(
    alloc: Global,
    fields: &[Field],
    fault: Option<FormatFault>,
) -> Result<Listing, AllocError> {
    Ok(Listing {
        entries: listed(alloc, fields, fault)?,
        header: Err(FormatFault::HeaderTruncated),
        start: Sequence::new(alloc),
        end: 0,
        file_len: 0,
    })
}

/// Returns true if these facts are found in the listing, and no others.
fn are_found(alloc: Global, listing: &Listing, wanted: &[(u64, Fact)]) -> Result<bool, AllocError> {
    let found = findings_of(alloc, listing)?;
    Ok(found.len() == wanted.len() && wanted.iter().all(|it| has(found.as_slice(), *it)))
}

/// Fails unless the findings of each row are found in the listing of its fields.
fn expect_findings(rt: &impl Abort, alloc: Global, rows: &[Row]) -> Result<(), AllocError> {
    for (fields, fault, wanted) in rows {
        let listing = listing_of(alloc, *fields, *fault)?;
        let is_right = are_found(alloc, &listing, *wanted)?;
        assert!(rt; is_right, "{wanted:?}");
    }
    Ok(())
}

#[test]
fn fields_have_their_findings(rt: HostRuntime) -> Result<(), AllocError> {
    expect_findings(&rt, rt.alloc(), FIELDS)
}

#[test]
fn attributes_have_their_findings(rt: HostRuntime) -> Result<(), AllocError> {
    expect_findings(&rt, rt.alloc(), ATTRIBUTES)
}

#[test]
fn equal_names_are_found(rt: HostRuntime) -> Result<(), AllocError> {
    expect_findings(&rt, rt.alloc(), EQUAL_NAMES)
}
