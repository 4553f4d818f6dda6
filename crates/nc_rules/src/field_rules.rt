//! Findings that a field shows by itself, whatever the other fields are.

ghost use Rattle.std.specs.Prelude.{◌≡◌, ◌++◌, OnOk, IfOk, map};
ghost use Rattle.std.specs.Option.{option_to_list};
ghost use Rattle.nc_rules.specs.Indexed.{field_at, finding, finding_at, indexed};
ghost use Rattle.nc_rules.specs.FieldRules.{bytes_fact, content_facts, fault_fact, field_findings, findings_at, floating_finding, floating_findings, form_fact, has_nonzero, is_floating_in, is_large_count, is_not_nfc, magic_fact, number_fact};

use crate::finding::{finding_at, push_some};
use crate::superblock::is_hdf5;
use nc_base::{FormatFault, Sequence, check_name};
use nc_findings::{
    Content, Entry, Fact, FieldKind, Finding, HIGHEST_RANK, LARGE_COUNT, LONGEST_NAME,
};
use std::alloc::{AllocError, Global};
use unicode_normalization::is_nfc;

/// The first bytes of a file that gzip has packed.
const GZIP_SIGNATURE: [u8; 2] = *b"\x1f\x8b";

/// The streaming mark of CDF-1 and CDF-2, which stands in place of the number of records.
const STREAMING: u64 = (1 << 32) - 1;

/// Appends the findings that each field of a header shows by itself: its fault, or else what is odd in its content. `start` is the start of
/// a file that isn't netCDF. Errs only if an allocation fails.
#[tactic(auto, unfolding(crate::specs::FieldRules::field_findings))]
pub(crate) fn push_field_findings(
    found: &mut Sequence<Finding>,
    alloc: Global,
    start: &[u8],
    entries: &[Entry],
) -> Result<(), AllocError>
    ensures { OnOk result (found.new ≡ found.old ++ field_findings start.now (indexed entries.now)) }
{
    for (i, entry) in entries.iter().enumerate() {
        push_findings_at(found, alloc, start, i as u64, entry)?;
    }
    Ok(())
}

/// Appends the findings that `entry`, the header's field at the index `i`, shows by itself: its fault, or, if it has none, what is odd in
/// its content. `start` is the start of a file that isn't netCDF. Errs only if an allocation fails.
fn push_findings_at(
    found: &mut Sequence<Finding>,
    alloc: Global,
    start: &[u8],
    i: u64,
    entry: &Entry,
) -> Result<(), AllocError>
    ensures { OnOk result (found.new ≡ found.old ++ findings_at start.now (field_at i entry.now)) }
{
    match entry.fault {
        Some(fault) => found.push(finding_at(i, entry.offset, fault_fact(start, fault))),
        None => push_content_findings(found, alloc, i, entry),
    }
}

/// Returns the fact for this fault of a field: for `NotNetcdf` what the start of the file shows ([`magic_fact`]), or the fault itself.
fn fault_fact(start: &[u8], fault: FormatFault) -> Fact
    ensures { result ≡ fault_fact start.now fault }
{
    match fault {
        FormatFault::NotNetcdf => magic_fact(start),
        _ => Fact::Fault(fault),
    }
}

/// Returns what the first bytes of a file that doesn't begin with `CDF` show: `Hdf5`, `Gzip`, `EmptyFile` (no bytes), or the fault
/// `NotNetcdf`.
fn magic_fact(start: &[u8]) -> Fact
    ensures { result ≡ magic_fact start.now }
{
    if is_hdf5(start) {
        Fact::Hdf5
    } else if start.starts_with(&GZIP_SIGNATURE) {
        Fact::Gzip
    } else if start.is_empty() {
        Fact::EmptyFile
    } else {
        Fact::Fault(FormatFault::NotNetcdf)
    }
}

/// Appends what is odd in the content of `entry`, the header's field at the index `i`, as if it has no fault. Errs if an allocation fails.
fn push_content_findings(
    found: &mut Sequence<Finding>,
    alloc: Global,
    i: u64,
    entry: &Entry,
) -> Result<(), AllocError>
    ensures { OnOk result (found.new ≡ found.old
        ++ map (finding (field_at i entry.now)) (content_facts entry.now.place.field entry.now.size entry.now.content)) }
{
    let field = entry.place.field;
    match &entry.content {
        Content::Number(n) => {
            push_fact(found, i, entry.offset, number_fact(field, entry.size, *n))
        }
        Content::Bytes(bytes) => {
            let bytes = bytes.as_slice();
            push_fact(found, i, entry.offset, bytes_fact(field, bytes))?;
            push_fact(found, i, entry.offset, form_fact(alloc, field, bytes)?)
        }
        Content::Values { .. } | Content::Cut => Ok(()),
    }
}

/// Appends the finding of this fact at the header's field that has the index `i` and this offset in the file, or nothing if the fact is
/// `None`. Errs only if an allocation fails.
fn push_fact(
    found: &mut Sequence<Finding>,
    i: u64,
    offset: u64,
    fact: Option<Fact>,
) -> Result<(), AllocError>
    ensures { OnOk result (found.new ≡ found.old ++ map (finding_at i offset) (option_to_list fact)) }
{
    push_some(found, fact.map(|fact| finding_at(i, offset, fact)))
}

/// Returns what is odd in the number `n`, of `size` bytes, as the field of this kind: `LargeCount`, `LongName`, `HighRank` or `None`.
fn number_fact(field: FieldKind, size: u128, n: u64) -> Option<Fact>
    ensures { result ≡ number_fact field size n }
{
    match field {
        FieldKind::NumRecs => (is_large_count(size, n) && n != STREAMING).then_some(
            Fact::LargeCount,
        ),
        FieldKind::Length => is_large_count(size, n).then_some(Fact::LargeCount),
        FieldKind::NameLength => (n > LONGEST_NAME).then_some(Fact::LongName),
        FieldKind::Rank => (n > HIGHEST_RANK).then_some(Fact::HighRank),
        _ => None,
    }
}

/// Returns true if the number `n` has four bytes (`size`) and is 2^31 or more: its top bit is 1.
fn is_large_count(size: u128, n: u64) -> bool
    ensures { result ≡ is_large_count size n }
{
    size == 4 && LARGE_COUNT <= n
}

/// Returns `NameCharacters` if the field of this kind is a name and the bytes aren't a valid one, `Padding` if it is padding and they
/// aren't all 0, or else `None`.
fn bytes_fact(field: FieldKind, bytes: &[u8]) -> Option<Fact>
    ensures { result ≡ bytes_fact field bytes.now }
{
    match field {
        FieldKind::Name => (!check_name(bytes)).then_some(Fact::NameCharacters),
        FieldKind::NamePadding | FieldKind::Padding => {
            has_nonzero(bytes).then_some(Fact::Padding)
        }
        _ => None,
    }
}

/// Returns `NotNfc` if the field of this kind is a name, and its bytes are valid UTF-8 that isn't in normal form NFC, or else `None`. Errs
/// only if an allocation fails.
fn form_fact(alloc: Global, field: FieldKind, bytes: &[u8]) -> Result<Option<Fact>, AllocError>
    ensures { IfOk result (λ fact. fact ≡ form_fact field bytes.now) }
{
    match field {
        FieldKind::Name => Ok(is_not_nfc(alloc, bytes)?.then_some(Fact::NotNfc)),
        _ => Ok(None),
    }
}

/// Returns true if one of the bytes isn't 0.
fn has_nonzero(bytes: &[u8]) -> bool
    ensures { result ≡ has_nonzero bytes.now }
{
    bytes.iter().any(|b| *b != 0)
}

/// Returns true if the bytes are valid UTF-8, of a text that isn't in normal form NFC. Errs only if an allocation fails.
fn is_not_nfc(alloc: Global, bytes: &[u8]) -> Result<bool, AllocError>
    ensures { IfOk result (λ b. b ≡ is_not_nfc bytes.now) }
{
    match str::from_utf8(bytes) {
        Ok(text) => Ok(!is_nfc(alloc, text)?),
        Err(_) => Ok(false),
    }
}

/// Appends a finding at the header's first type code that is `float` or `double`, or nothing if none is. Errs if an allocation fails.
#[tactic(auto, unfolding(crate::specs::FieldRules::floating_findings))]
pub(crate) fn push_floating_finding(
    found: &mut Sequence<Finding>,
    entries: &[Entry],
) -> Result<(), AllocError>
    ensures { OnOk result (found.new ≡ found.old ++ floating_findings (indexed entries.now)) }
{
    push_some(found, floating_finding(entries))
}

/// Returns the finding at the first type code of the header that is `float` or `double`, or `None` if none is.
fn floating_finding(entries: &[Entry]) -> Option<Finding>
    ensures { result ≡ floating_finding (indexed entries.now) }
{
    for (i, entry) in entries.iter().enumerate() {
        if is_floating(entry) {
            let fact = Fact::Fault(FormatFault::FloatingType);
            return Some(finding_at(i as u64, entry.offset, fact));
        }
    }
    None
}

/// Returns true if the field is a type code, and that of `float` (5) or `double` (6).
fn is_floating(entry: &Entry) -> bool
    ensures { result ≡ is_floating_in entry.now.place.field entry.now.content }
{
    matches!(
        (entry.place.field, &entry.content),
        (FieldKind::Type, Content::Number(5 | 6))
    )
}
