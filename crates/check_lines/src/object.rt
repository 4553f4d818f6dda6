//! The JSON object of a finding.

ghost use Rattle.std.specs.Prelude.{codes};
ghost use Rattle.devices.specs.code.SinkWrites.{Wrote};
ghost use Rattle.check_lines.specs.Json.{kind_members, member, number_member, object_text, position_members};
ghost use Rattle.check_lines.specs.Lines.{path, told_with};
ghost use Rattle.check_lines.specs.code.Names.{entry_in, known};

use crate::details::put_details;
use crate::known_names::Names;
use crate::line::{entry_of, put_finding_path};
use crate::style::{Style, put_text};
use devices::{Sink, WriteFailed, put, put_decimal};
use nc_findings::{Entry, Fact, Finding, Kind, Listing};

/// Writes the object of a finding and a line feed: `{"file":FILE,"offset":OFFSET,"severity":SEVERITY,"kind":KIND,"path":PATH}`, with the
/// members `found` and `expected` at its end where the finding says more. FILE is the path `file`, `listing` has the header's fields, and
/// `names` are the names of what the finding's field belongs to, as far as they are known. Errs if the sink fails.
#[tactic(auto, using(devices::proofs::Writes::writes), unfolding(crate::specs::Json::object_text, crate::specs::code::Styles::said_in, crate::specs::code::Styles::end_in))]
pub(crate) fn put_object<W: Sink>(
    sink: &mut W,
    file: &[u8],
    listing: &Listing,
    names: Names<'_>,
    finding: &Finding,
) -> Result<(), WriteFailed>
    ensures { Wrote W.view sink.old sink.new
        (object_text (told_with file.now listing.now (known names.entry) finding.now)) result }
{
    let entry = entry_of(listing, finding);
    put_position(sink, file, finding.offset)?;
    put_kind(sink, finding.fact.kind())?;
    put_path_member(sink, listing, names, entry, finding.fact)?;
    put_details(sink, Style::Json, listing, entry, finding.fact)?;
    put(sink, b"}\n")
}

/// Writes the first members of an object, its file and its offset: `{"file":"a.nc","offset":8`. Errs if the sink fails.
#[tactic(auto, using(devices::proofs::Writes::writes), unfolding(crate::specs::Json::position_members))]
fn put_position<W: Sink>(sink: &mut W, file: &[u8], offset: u64) -> Result<(), WriteFailed>
    ensures { Wrote W.view sink.old sink.new (position_members file.now offset) result }
{
    put_member(sink, b"{\"file\":\"", file)?;
    put_number_member(sink, b",\"offset\":", offset)
}

/// Writes the members of a kind of findings: `,"severity":"error","kind":"bad-tag"`. Errs if the sink fails.
#[tactic(auto, using(devices::proofs::Writes::writes), unfolding(crate::specs::Json::kind_members))]
fn put_kind<W: Sink>(sink: &mut W, kind: Kind) -> Result<(), WriteFailed>
    ensures { Wrote W.view sink.old sink.new (kind_members kind) result }
{
    let severity = kind.severity().word();
    put_member(sink, b",\"severity\":\"", severity.as_bytes())?;
    put_member(sink, b",\"kind\":\"", kind.word().as_bytes())
}

/// Writes a member of an object: `name`, its name with what stands around it (`,"offset":`), and the number. Errs if the sink fails.
#[tactic(auto, using(devices::proofs::Writes::writes), unfolding(crate::specs::Json::number_member))]
fn put_number_member<W: Sink>(sink: &mut W, name: &[u8], n: u64) -> Result<(), WriteFailed>
    ensures { Wrote W.view sink.old sink.new (number_member name.now n) result }
{
    put(sink, name)?;
    put_decimal(sink, n as u128)
}

/// Writes a member of an object: `name`, its name with what stands around it (`,"kind":"`), the text, and a quote. Errs if the sink fails.
#[tactic(auto, using(devices::proofs::Writes::writes), unfolding(crate::specs::Json::member, crate::specs::code::Styles::in_style))]
fn put_member<W: Sink>(sink: &mut W, name: &[u8], text: &[u8]) -> Result<(), WriteFailed>
    ensures { Wrote W.view sink.old sink.new (member name.now text.now) result }
{
    put(sink, name)?;
    put_text(sink, Style::Json, text)?;
    put(sink, b"\"")
}

/// Writes the member `path` of an object: where the finding lies, as [`put_finding_path`] tells it. Errs if the sink fails.
#[tactic(auto, using(devices::proofs::Writes::writes), unfolding(crate::specs::Json::member, crate::specs::code::Styles::in_style))]
fn put_path_member<W: Sink>(
    sink: &mut W,
    listing: &Listing,
    names: Names<'_>,
    entry: Option<&Entry>,
    fact: Fact,
) -> Result<(), WriteFailed>
    ensures { Wrote W.view sink.old sink.new (member (codes ",\"path\":\"")
        (path listing.now (known names.entry) (entry_in entry.entry) fact)) result }
{
    put(sink, b",\"path\":\"")?;
    put_finding_path(sink, Style::Json, listing, names, entry, fact)?;
    put(sink, b"\"")
}
