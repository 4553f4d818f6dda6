//! The fields that are listed of headers that are right, and of such headers whose source ends early or fails.

use devices::{DripSource, FailWhen};
use nc_base::{FormatFault, NumRecs, Version};
use nc_fields::FieldKind::{
    AttsCount, AttsTag, Begin, Count, DimId, DimsCount, DimsTag, GlobalAttsCount, GlobalAttsTag,
    Length, Magic, Name, NameLength, NamePadding, NumRecs as Records, Padding, Rank, Type, Values,
    VarsCount, VarsTag, Version as VersionByte, Vsize,
};
use nc_fields::Owner::{Dim, GlobalAtt, Header, Var, VarAtt};
use nc_fields::{Content, Entry, FieldKind, ListFault, Listing, Owner, Place, list_fields};
use nc_report::check;
use std::alloc::{AllocError, Global};
use std::process::Abort;
use test_files::{EMPTY_LISTS, ODD_HEADER, STREAMED_HEADER, cut};

/// What the content of a field has to be, as [`Content`].
#[derive(Clone, Copy, PartialEq, Eq)]
enum Want {
    Number(u64),
    Bytes(&'static [u8]),
    EndsWithNul(bool),
}

use Want::{Bytes, EndsWithNul, Number};

/// A field: what it belongs to, which one it is, its offset, how many bytes it has, and its content.
type Field = (Owner, FieldKind, u64, u128, Want);

/// The attributes of the first variable.
const FIRST_ATT: Owner = VarAtt { var: 0, att: 0 };

const SECOND_ATT: Owner = VarAtt { var: 0, att: 1 };

/// The fields of [`ODD_HEADER`].
const ODD_FIELDS: &[Field] = &[
    (Header, Magic, 0, 3, Bytes(b"CDF")),
    (Header, VersionByte, 3, 1, Number(1)),
    (Header, Records, 4, 4, Number(0)),
    (Header, DimsTag, 8, 4, Number(10)),
    (Header, DimsCount, 12, 4, Number(1)),
    // the dimension x = 2
    (Dim(0), NameLength, 16, 4, Number(1)),
    (Dim(0), Name, 20, 1, Bytes(b"x")),
    (Dim(0), NamePadding, 21, 3, Bytes(b"\0\x07\0")),
    (Dim(0), Length, 24, 4, Number(2)),
    (Header, GlobalAttsTag, 28, 4, Number(12)),
    (Header, GlobalAttsCount, 32, 4, Number(2)),
    // the attribute f, one number of type float
    (GlobalAtt(0), NameLength, 36, 4, Number(1)),
    (GlobalAtt(0), Name, 40, 1, Bytes(b"f")),
    (GlobalAtt(0), NamePadding, 41, 3, Bytes(b"\0\0\0")),
    (GlobalAtt(0), Type, 44, 4, Number(5)),
    (GlobalAtt(0), Count, 48, 4, Number(1)),
    (GlobalAtt(0), Values, 52, 4, EndsWithNul(true)),
    (GlobalAtt(0), Padding, 56, 0, Bytes(b"")),
    // the attribute nt, three characters
    (GlobalAtt(1), NameLength, 56, 4, Number(2)),
    (GlobalAtt(1), Name, 60, 2, Bytes(b"nt")),
    (GlobalAtt(1), NamePadding, 62, 2, Bytes(b"\0\0")),
    (GlobalAtt(1), Type, 64, 4, Number(2)),
    (GlobalAtt(1), Count, 68, 4, Number(3)),
    (GlobalAtt(1), Values, 72, 3, EndsWithNul(true)),
    (GlobalAtt(1), Padding, 75, 1, Bytes(b"\xff")),
    (Header, VarsTag, 76, 4, Number(11)),
    (Header, VarsCount, 80, 4, Number(1)),
    // the variable double depth(x)
    (Var(0), NameLength, 84, 4, Number(5)),
    (Var(0), Name, 88, 5, Bytes(b"depth")),
    (Var(0), NamePadding, 93, 3, Bytes(b"\0\0\0")),
    (Var(0), Rank, 96, 4, Number(1)),
    (Var(0), DimId(0), 100, 4, Number(0)),
    (Var(0), AttsTag, 104, 4, Number(0)),
    (Var(0), AttsCount, 108, 4, Number(0)),
    (Var(0), Type, 112, 4, Number(6)),
    (Var(0), Vsize, 116, 4, Number(16)),
    (Var(0), Begin, 120, 4, Number(124)),
];

/// The fields of [`EMPTY_LISTS`].
const FIELDS_OF_LISTS: &[Field] = &[
    (Header, Magic, 0, 3, Bytes(b"CDF")),
    (Header, VersionByte, 3, 1, Number(2)),
    (Header, Records, 4, 4, Number(3)),
    (Header, DimsTag, 8, 4, Number(10)),
    (Header, DimsCount, 12, 4, Number(0)),
    (Header, GlobalAttsTag, 16, 4, Number(12)),
    (Header, GlobalAttsCount, 20, 4, Number(0)),
    (Header, VarsTag, 24, 4, Number(11)),
    (Header, VarsCount, 28, 4, Number(0)),
];

/// The fields of [`STREAMED_HEADER`].
const STREAMED_FIELDS: &[Field] = &[
    (Header, Magic, 0, 3, Bytes(b"CDF")),
    (Header, VersionByte, 3, 1, Number(5)),
    (Header, Records, 4, 8, Number(u64::MAX)),
    (Header, DimsTag, 12, 4, Number(10)),
    (Header, DimsCount, 16, 8, Number(2)),
    // the record dimension t
    (Dim(0), NameLength, 24, 8, Number(1)),
    (Dim(0), Name, 32, 1, Bytes(b"t")),
    (Dim(0), NamePadding, 33, 3, Bytes(b"\0\0\0")),
    (Dim(0), Length, 36, 8, Number(0)),
    // the dimension four = 4
    (Dim(1), NameLength, 44, 8, Number(4)),
    (Dim(1), Name, 52, 4, Bytes(b"four")),
    (Dim(1), NamePadding, 56, 0, Bytes(b"")),
    (Dim(1), Length, 56, 8, Number(4)),
    (Header, GlobalAttsTag, 64, 4, Number(12)),
    (Header, GlobalAttsCount, 68, 8, Number(0)),
    (Header, VarsTag, 76, 4, Number(11)),
    (Header, VarsCount, 80, 8, Number(2)),
    // the variable ubyte v(t, four)
    (Var(0), NameLength, 88, 8, Number(1)),
    (Var(0), Name, 96, 1, Bytes(b"v")),
    (Var(0), NamePadding, 97, 3, Bytes(b"\0\0\0")),
    (Var(0), Rank, 100, 8, Number(2)),
    (Var(0), DimId(0), 108, 8, Number(0)),
    (Var(0), DimId(1), 116, 8, Number(1)),
    (Var(0), AttsTag, 124, 4, Number(12)),
    (Var(0), AttsCount, 128, 8, Number(2)),
    // its attribute a, one number of type uint64
    (FIRST_ATT, NameLength, 136, 8, Number(1)),
    (FIRST_ATT, Name, 144, 1, Bytes(b"a")),
    (FIRST_ATT, NamePadding, 145, 3, Bytes(b"\0\0\0")),
    (FIRST_ATT, Type, 148, 4, Number(11)),
    (FIRST_ATT, Count, 152, 8, Number(1)),
    (FIRST_ATT, Values, 160, 8, EndsWithNul(false)),
    (FIRST_ATT, Padding, 168, 0, Bytes(b"")),
    // its attribute b, no numbers of type double
    (SECOND_ATT, NameLength, 168, 8, Number(1)),
    (SECOND_ATT, Name, 176, 1, Bytes(b"b")),
    (SECOND_ATT, NamePadding, 177, 3, Bytes(b"\0\0\0")),
    (SECOND_ATT, Type, 180, 4, Number(6)),
    (SECOND_ATT, Count, 184, 8, Number(0)),
    (SECOND_ATT, Values, 192, 0, EndsWithNul(false)),
    (SECOND_ATT, Padding, 192, 0, Bytes(b"")),
    (Var(0), Type, 192, 4, Number(7)),
    (Var(0), Vsize, 196, 8, Number(4)),
    (Var(0), Begin, 204, 8, Number(4_294_967_296)),
    // the variable float w
    (Var(1), NameLength, 212, 8, Number(1)),
    (Var(1), Name, 220, 1, Bytes(b"w")),
    (Var(1), NamePadding, 221, 3, Bytes(b"\0\0\0")),
    (Var(1), Rank, 224, 8, Number(0)),
    (Var(1), AttsTag, 232, 4, Number(0)),
    (Var(1), AttsCount, 236, 8, Number(0)),
    (Var(1), Type, 244, 4, Number(5)),
    (Var(1), Vsize, 248, 8, Number(4)),
    (Var(1), Begin, 256, 8, Number(264)),
];

/// A header: the bytes of its file, how many of them it has, its version and number of records, how many dimensions, global attributes and
/// variables it has, and its fields.
struct Row {
    bytes: &'static [u8],
    end: u64,
    version: Version,
    numrecs: NumRecs,
    counts: [usize; 3],
    fields: &'static [Field],
}

static HEADERS: &[Row] = &[
    Row {
        bytes: ODD_HEADER,
        end: 124,
        version: Version::Cdf1,
        numrecs: NumRecs::Known(0),
        counts: [1, 2, 1],
        fields: ODD_FIELDS,
    },
    Row {
        bytes: EMPTY_LISTS,
        end: 32,
        version: Version::Cdf2,
        numrecs: NumRecs::Known(3),
        counts: [0, 0, 0],
        fields: FIELDS_OF_LISTS,
    },
    Row {
        bytes: STREAMED_HEADER,
        end: 264,
        version: Version::Cdf5,
        numrecs: NumRecs::Streaming,
        counts: [2, 0, 2],
        fields: STREAMED_FIELDS,
    },
];

/// Returns true if the content is as wanted.
fn is_content(content: &Content, want: Want) -> bool {
    match content {
        Content::Number(n) => want == Number(*n),
        Content::Bytes(bytes) => match want {
            Bytes(want) => bytes.as_slice() == want,
            _ => false,
        },
        Content::Values { ends_with_nul } => want == EndsWithNul(*ends_with_nul),
        Content::Cut => false,
    }
}

/// Returns true if the entry is this field, and isn't wrong.
fn is_entry(entry: &Entry, field: &Field) -> bool {
    let (owner, kind, offset, size, want) = *field;
    entry.place == (Place { owner, field: kind })
        && entry.offset == offset
        && entry.size == size
        && is_content(&entry.content, want)
        && entry.fault.is_none()
}

/// Returns true if the entries are these fields, and none of them is wrong.
fn are_entries(entries: &[Entry], fields: &[Field]) -> bool {
    entries.len() == fields.len()
        && entries
            .iter()
            .zip(fields.iter())
            .all(|(entry, field)| is_entry(entry, field))
}

/// Returns true if the header has this version and number of records, and this many dimensions, global attributes and variables.
fn is_header(header: &nc_base::Header, row: &Row) -> bool {
    header.version == row.version
        && header.numrecs == row.numrecs
        && header.dims.len() == row.counts[0]
        && header.gatts.len() == row.counts[1]
        && header.vars.len() == row.counts[2]
}

/// Returns true if the listing is that of the header.
fn is_listing_of(listing: &Listing, row: &Row) -> bool {
    match &listing.header {
        Ok(header) => {
            listing.end == row.end
                && listing.file_len == row.bytes.len() as u64
                && is_header(header, row)
                && are_entries(listing.entries.as_slice(), row.fields)
        }
        Err(_) => false,
    }
}

/// Returns true if the fields of the header are listed, where each read gives a byte, and a read after the header would fail.
fn has_fields(alloc: Global, row: &Row) -> bool {
    let mut source = DripSource::new(row.bytes, 1, FailWhen::From(row.end));
    match list_fields(alloc, &mut source, &mut [0xff; 16]) {
        Ok(listing) => is_listing_of(&listing, row),
        Err(_) => false,
    }
}

/// Returns true if the field ends at the offset `at` or before.
fn ends_by(field: &Field, at: u64) -> bool {
    let (_, _, offset, size, _) = *field;
    size.saturating_add(offset as u128) <= at as u128
}

/// Returns true if the entry is this field, in a file that ends at the offset `at`: whole, or without its content and with the fault.
fn is_entry_up_to(entry: &Entry, field: &Field, at: u64) -> bool {
    if ends_by(field, at) {
        return is_entry(entry, field);
    }
    let (owner, kind, offset, size, _) = *field;
    entry.place == (Place { owner, field: kind })
        && entry.offset == offset
        && entry.size == size
        && matches!(&entry.content, Content::Cut)
        && entry.fault == Some(FormatFault::HeaderTruncated)
}

/// Returns true if the listing is that of the header, in a file that ends at the offset `at`, before the header does: the whole fields, and
/// the one that is cut. The file's length is still the one that the source gave.
fn is_listing_up_to(listing: &Listing, row: &Row, at: u64) -> bool {
    let entries = listing.entries.as_slice();
    let whole = row.fields.iter().filter(|it| ends_by(*it, at)).count();
    matches!(&listing.header, Err(FormatFault::HeaderTruncated))
        && listing.file_len == row.bytes.len() as u64
        && entries.len() == whole.wrapping_add(1)
        && entries
            .iter()
            .zip(row.fields.iter())
            .all(|(entry, field)| is_entry_up_to(entry, field, at))
}

/// Returns true if the fields of the header are listed up to the offset `at`, if the source ends there.
fn has_fields_up_to(alloc: Global, row: &Row, at: u64) -> bool {
    let mut source = cut(row.bytes, at as usize);
    match list_fields(alloc, &mut source, &mut [0; 16]) {
        Ok(listing) => is_listing_up_to(&listing, row, at),
        Err(_) => false,
    }
}

/// Fails unless the fields of a header are listed, also where the source ends at each offset in turn, though it promises all bytes: what
/// doesn't come is taken for no zeros.
fn expect_fields(rt: &impl Abort, alloc: Global, row: &Row) {
    assert!(rt; has_fields(alloc, row), "{}", row.end);
    for at in 0..row.end {
        assert!(rt; has_fields_up_to(alloc, row, at), "{at}");
    }
}

#[test]
fn headers_have_their_fields(rt: HostRuntime) {
    for row in HEADERS {
        expect_fields(&rt, rt.alloc(), row);
    }
}

/// A read in mid-header fails, and so does the check.
#[test]
fn failing_read(rt: HostRuntime) {
    let mut source = DripSource::new(ODD_HEADER, 1, FailWhen::Read(50));
    let answer = check(rt.alloc(), &mut source, &mut [0; 16]);
    assert!(rt; matches!(answer, Err(ListFault::ReadFailed)));
}

/// The words of the faults stand in a contract, but it allows a display that errs.
#[test]
fn faults_have_their_words(rt: HostRuntime) -> Result<(), AllocError> {
    assert!(rt; has_words(rt.alloc(), ListFault::OutOfMemory, "out of memory")?);
    assert!(rt; has_words(rt.alloc(), ListFault::ReadFailed, "read failed")?);
    Ok(())
}

/// Returns true if these are the words of the fault.
fn has_words(alloc: Global, fault: ListFault, words: &str) -> Result<bool, AllocError> {
    Ok(format!(in alloc; "{fault}")?.as_str() == words)
}
