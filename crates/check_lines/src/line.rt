//! The line of a finding.

ghost use Rattle.std.specs.Prelude.{◌≡◌};
ghost use Rattle.devices.specs.code.SinkWrites.{Wrote};
ghost use Rattle.check_lines.specs.Lines.{entry_of, kind_text, line_text, path, position_text, told_with};
ghost use Rattle.check_lines.specs.code.Names.{entry_in, known};
ghost use Rattle.check_lines.specs.code.Styles.{in_style};

use crate::details::put_details;
use crate::field_path::{put_field_path, put_slab_path, put_var_path};
use crate::known_names::Names;
use crate::shown::put_file_path;
use crate::style::{Style, put_text};
use devices::{Sink, WriteFailed, put, put_decimal};
use nc_findings::{Entry, Fact, Finding, Kind, LayoutFact, Listing};

/// Writes the line of a finding: `FILE:OFFSET: SEVERITY: KIND: PATH`, what is found and expected, and a line feed. FILE is the path `file`,
/// `listing` has the header's fields, and `names` are the names of what the finding's field belongs to, as far as they are known. Errs if
/// the sink fails.
#[tactic(auto, using(devices::proofs::Writes::writes), unfolding(crate::specs::Lines::line_text, crate::specs::code::Styles::in_style, crate::specs::code::Styles::said_in, crate::specs::code::Styles::end_in))]
pub(crate) fn put_line<W: Sink>(
    sink: &mut W,
    file: &[u8],
    listing: &Listing,
    names: Names<'_>,
    finding: &Finding,
) -> Result<(), WriteFailed>
    ensures { Wrote W.view sink.old sink.new
        (line_text (told_with file.now listing.now (known names.entry) finding.now)) result }
{
    let entry = entry_of(listing, finding);
    put_position(sink, file, finding.offset)?;
    put_kind(sink, finding.fact.kind())?;
    put_finding_path(sink, Style::Line, listing, names, entry, finding.fact)?;
    put_details(sink, Style::Line, listing, entry, finding.fact)?;
    put(sink, b"\n")
}

/// Writes the path `file`, as [`put_file_path`] does, and the offset of the finding, such as `a.nc:132: `. Errs if the sink fails.
#[tactic(auto, using(devices::proofs::Writes::writes), unfolding(crate::specs::Lines::position_text))]
fn put_position<W: Sink>(sink: &mut W, file: &[u8], offset: u64) -> Result<(), WriteFailed>
    ensures { Wrote W.view sink.old sink.new (position_text file.now offset) result }
{
    put_file_path(sink, file)?;
    put(sink, b":")?;
    put_decimal(sink, offset as u128)?;
    put(sink, b": ")
}

/// Writes the severity of a kind of findings, and the word of the kind, such as `note: gap: `. Errs if the sink fails.
#[tactic(auto, using(devices::proofs::Writes::writes), unfolding(crate::specs::Lines::kind_text))]
fn put_kind<W: Sink>(sink: &mut W, kind: Kind) -> Result<(), WriteFailed>
    ensures { Wrote W.view sink.old sink.new (kind_text kind) result }
{
    put(sink, kind.severity().word().as_bytes())?;
    put(sink, b": ")?;
    put(sink, kind.word().as_bytes())?;
    put(sink, b": ")
}

/// Returns the field of the listing at which a finding lies, or `None` if it lies in the data, or if the listing has no such field.
pub(crate) fn entry_of<'a>(listing: &'a Listing, finding: &Finding) -> Option<&'a Entry>
    ensures { entry_in result ≡ entry_of listing.entry.now finding.now }
{
    let i = finding.field?;
    listing.entries.as_slice().get(i as usize)
}

/// Writes where a finding lies: the path of its field `entry`, in which `names` are the known names, or of the variable whose slab is too
/// large, if `fact` says so. With `None`, the finding lies in the data. Then it writes the path of the first slab that isn't whole, if
/// `fact` is that the file ends before its values do, otherwise `data`. Errs if the sink fails.
#[tactic(auto, unfolding(crate::specs::Lines::path))]
pub(crate) fn put_finding_path<W: Sink>(
    sink: &mut W,
    style: Style,
    listing: &Listing,
    names: Names<'_>,
    entry: Option<&Entry>,
    fact: Fact,
) -> Result<(), WriteFailed>
    ensures { Wrote W.view sink.old sink.new
        (in_style style (path listing.now (known names.entry) (entry_in entry.entry) fact)) result }
{
    match (entry, fact) {
        (Some(_), Fact::Layout(LayoutFact::LargeVariable { var, .. })) => {
            put_var_path(sink, style, &listing.header, var)
        }
        (Some(entry), _) => put_field_path(sink, style, names, entry.place),
        (None, Fact::Layout(LayoutFact::Missing { slab, .. })) => {
            put_slab_path(sink, style, &listing.header, slab)
        }
        (None, _) => put_text(sink, style, b"data"),
    }
}
