//! Paths: the words that say where a finding lies. The functions write them in a style: as they stand in a line, or in a string of JSON.

ghost use Rattle.std.specs.Prelude.{◌≡◌};
ghost use Rattle.devices.specs.code.SinkWrites.{Wrote};
ghost use Rattle.check_lines.specs.Paths.{block_path, element, element_part, field_path, field_words, owner_path, quoted, slab_path, var_name, var_path};
ghost use Rattle.check_lines.specs.code.Names.{bytes_of, known};
ghost use Rattle.check_lines.specs.code.Styles.{in_style};

use crate::known_names::Names;
use crate::shown::put_name;
use crate::style::{Style, put_text};
use devices::{Sink, WriteFailed, put_decimal};
use nc_base::{FormatFault, Header};
use nc_findings::{Block, FieldKind, Owner, Place, Slab};

/// Writes the path of a field, such as `var[2] "temperature" vsize`: what it belongs to, and which of its fields it is. `names` are the
/// names that are known at the field. Errs if the sink fails.
#[tactic(auto, using(crate::proofs::Styled::styled), unfolding(crate::specs::Paths::field_path))]
pub(crate) fn put_field_path<W: Sink>(
    sink: &mut W,
    style: Style,
    names: Names<'_>,
    place: Place,
) -> Result<(), WriteFailed>
    ensures { Wrote W.view sink.old sink.new
        (in_style style (field_path (known names.entry) place)) result }
{
    put_owner(sink, style, names, place.owner)?;
    put_field_words(sink, style, place.field)
}

/// Writes the dimension, attribute or variable that a field belongs to, such as `var[2] "temperature"`, and a space after it. Of an
/// attribute of a variable, it writes both (`var[2] "temperature" att[0] "units"`); of the header itself, nothing. A name that `names`
/// doesn't have is left out. Errs if the sink fails.
#[tactic(auto, using(crate::proofs::Styled::styled), unfolding(crate::specs::Paths::owner_path))]
fn put_owner<W: Sink>(
    sink: &mut W,
    style: Style,
    names: Names<'_>,
    owner: Owner,
) -> Result<(), WriteFailed>
    ensures { Wrote W.view sink.old sink.new
        (in_style style (owner_path (known names.entry) owner)) result }
{
    match owner {
        Owner::Header => Ok(()),
        Owner::Dim(i) => put_element_part(sink, style, b"dim[", i, names.element),
        Owner::GlobalAtt(i) => put_element_part(sink, style, b"gatt[", i, names.element),
        Owner::Var(i) => put_element_part(sink, style, b"var[", i, names.element),
        Owner::VarAtt { var, att } => {
            put_element_part(sink, style, b"var[", var, names.element)?;
            put_element_part(sink, style, b"att[", att, names.att)
        }
    }
}

/// Writes an element of a list, its `word`, its number `i` and its name as [`put_element`] does (`var[2] "temperature"`), and a space after
/// it. Errs if the sink fails.
#[tactic(auto, using(crate::proofs::Styled::styled), unfolding(crate::specs::Paths::element_part))]
fn put_element_part<W: Sink>(
    sink: &mut W,
    style: Style,
    word: &[u8],
    i: u64,
    name: Option<&[u8]>,
) -> Result<(), WriteFailed>
    ensures { Wrote W.view sink.old sink.new
        (in_style style (element_part word.now i (bytes_of name.entry))) result }
{
    put_element(sink, style, word, i, name)?;
    put_text(sink, style, b" ")
}

/// Writes an element of a list, such as `var[2] "temperature"`: `word`, which is `var[` there, the number `i`, a closing bracket, and the
/// name in quotes after a space, if there is one. Errs if the sink fails.
#[tactic(auto, using(crate::proofs::Styled::styled), unfolding(crate::specs::Paths::element))]
fn put_element<W: Sink>(
    sink: &mut W,
    style: Style,
    word: &[u8],
    i: u64,
    name: Option<&[u8]>,
) -> Result<(), WriteFailed>
    ensures { Wrote W.view sink.old sink.new
        (in_style style (element word.now i (bytes_of name.entry))) result }
{
    put_text(sink, style, word)?;
    put_decimal(sink, i as u128)?;
    put_text(sink, style, b"]")?;
    put_quoted(sink, style, name)
}

/// Writes a name between quotes after a space, as [`put_name`] shows it, or nothing if there is no name. Errs if the sink fails.
#[tactic(auto, using(crate::proofs::Styled::styled), unfolding(crate::specs::Paths::quoted))]
fn put_quoted<W: Sink>(sink: &mut W, style: Style, name: Option<&[u8]>) -> Result<(), WriteFailed>
    ensures { Wrote W.view sink.old sink.new
        (in_style style (quoted (bytes_of name.entry))) result }
{
    let Some(name) = name else {
        return Ok(());
    };
    put_text(sink, style, b" ")?;
    put_name(sink, style, name)
}

/// Writes the words for a field that end its path, such as `vsize`, `dims tag` or `dimid[2]`, without the dimension, attribute or variable
/// that the field belongs to. Errs if the sink fails.
#[tactic(auto, unfolding(crate::specs::Paths::field_words))]
fn put_field_words<W: Sink>(sink: &mut W, style: Style, field: FieldKind) -> Result<(), WriteFailed>
    ensures { Wrote W.view sink.old sink.new (in_style style (field_words field)) result }
{
    match field {
        FieldKind::Magic => put_text(sink, style, b"magic"),
        FieldKind::Version => put_text(sink, style, b"version"),
        FieldKind::NumRecs => put_text(sink, style, b"numrecs"),
        FieldKind::DimsTag => put_text(sink, style, b"dims tag"),
        FieldKind::DimsCount => put_text(sink, style, b"dims count"),
        FieldKind::GlobalAttsTag => put_text(sink, style, b"gatts tag"),
        FieldKind::GlobalAttsCount => put_text(sink, style, b"gatts count"),
        FieldKind::VarsTag => put_text(sink, style, b"vars tag"),
        FieldKind::VarsCount => put_text(sink, style, b"vars count"),
        FieldKind::NameLength => put_text(sink, style, b"name length"),
        FieldKind::Name => put_text(sink, style, b"name"),
        FieldKind::NamePadding => put_text(sink, style, b"name padding"),
        FieldKind::Length => put_text(sink, style, b"length"),
        FieldKind::Type => put_text(sink, style, b"type"),
        FieldKind::Count => put_text(sink, style, b"count"),
        FieldKind::Values => put_text(sink, style, b"values"),
        FieldKind::Padding => put_text(sink, style, b"padding"),
        FieldKind::Rank => put_text(sink, style, b"rank"),
        FieldKind::DimId(k) => put_element(sink, style, b"dimid[", k, None),
        FieldKind::AttsTag => put_text(sink, style, b"atts tag"),
        FieldKind::AttsCount => put_text(sink, style, b"atts count"),
        FieldKind::Vsize => put_text(sink, style, b"vsize"),
        FieldKind::Begin => put_text(sink, style, b"begin"),
    }
}

/// Writes the path of the variable with the index `i`, such as `var[2] "temperature"`. The name is left out if the header isn't whole, or
/// has no such variable. Errs if the sink fails.
#[tactic(auto, unfolding(crate::specs::Paths::var_path))]
pub(crate) fn put_var_path<W: Sink>(
    sink: &mut W,
    style: Style,
    header: &Result<Header, FormatFault>,
    i: u64,
) -> Result<(), WriteFailed>
    ensures { Wrote W.view sink.old sink.new (in_style style (var_path header.now i)) result }
{
    put_element(sink, style, b"var[", i, var_name(header, i))
}

/// Returns the name of the variable with the index `i`, or `None` if the header isn't whole (`Err`), or has no such variable.
fn var_name<'a>(header: &'a Result<Header, FormatFault>, i: u64) -> Option<&'a [u8]>
    ensures { bytes_of result ≡ var_name header.entry.now i }
{
    match header {
        Ok(header) => {
            let var = header.vars.as_slice().get(i as usize)?;
            Some(var.name.as_slice())
        }
        Err(_) => None,
    }
}

/// Writes the path of a block, that is, of the values of one variable (`var[2] "rain"`, as [`put_var_path`] writes it) or of all record
/// variables (`the records`). Errs if the sink fails.
#[tactic(auto, unfolding(crate::specs::Paths::block_path))]
pub(crate) fn put_block_path<W: Sink>(
    sink: &mut W,
    style: Style,
    header: &Result<Header, FormatFault>,
    block: Block,
) -> Result<(), WriteFailed>
    ensures { Wrote W.view sink.old sink.new (in_style style (block_path header.now block)) result }
{
    match block {
        Block::Var(i) => put_var_path(sink, style, header, i),
        Block::Records => put_text(sink, style, b"the records"),
    }
}

/// Writes the path of a slab, such as `var[2] "temperature"`, as [`put_var_path`] does; of a record variable also the number of the record,
/// from 0: `var[2] "rain" record 7`. Errs if the sink fails.
#[tactic(auto, using(crate::proofs::Styled::styled), unfolding(crate::specs::Paths::slab_path))]
pub(crate) fn put_slab_path<W: Sink>(
    sink: &mut W,
    style: Style,
    header: &Result<Header, FormatFault>,
    slab: Slab,
) -> Result<(), WriteFailed>
    ensures { Wrote W.view sink.old sink.new (in_style style (slab_path header.now slab)) result }
{
    match slab {
        Slab::Var(i) => put_var_path(sink, style, header, i),
        Slab::Record { var, record } => {
            put_var_path(sink, style, header, var)?;
            put_text(sink, style, b" record ")?;
            put_decimal(sink, record as u128)
        }
    }
}
