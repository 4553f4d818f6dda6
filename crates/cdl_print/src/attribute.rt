//! Attributes as CDL writes them.

ghost use Rattle.nc_types.specs.Escapes.{escaped_name};
ghost use Rattle.nc_base.specs.HeadText.{att_line, att_lines, att_text, chars_text};
ghost use Rattle.devices.specs.code.SinkWrites.{Wrote};
ghost use Rattle.cdl_print.specs.code.Pieces.{att_prefix};

use crate::name::put_name;
use crate::number::put_numbers;
use crate::string::put_broken_text;
use crate::trailing_nuls::without_trailing_nuls;
use devices::{Sink, WriteFailed, put};
use nc_base::{Att, NcType};

/// Writes a line for each attribute in `atts`, such as `x:units = "m" ;` after two tabs. `owner` is the name of their variable, or empty if
/// they are global attributes. Errs if the sink fails.
#[tactic(auto, using(devices::proofs::Writes::writes), unfolding(nc_base::specs::HeadText::att_lines))]
pub fn put_att_lines<W: Sink>(sink: &mut W, owner: &[u8], atts: &[Att]) -> Result<(), WriteFailed>
    ensures { Wrote W.view sink.old sink.new (att_lines (escaped_name owner.now) atts.now) result }
{
    for att in atts {
        put_att_line(sink, owner, att)?;
    }
    Ok(())
}

/// Writes the line of an attribute, such as `x:units = "m" ;` after two tabs. `owner` is the name of its variable, or empty for a global
/// attribute. Errs if the sink fails.
#[tactic(auto, using(devices::proofs::Writes::writes), unfolding(nc_base::specs::HeadText::att_line))]
fn put_att_line<W: Sink>(sink: &mut W, owner: &[u8], att: &Att) -> Result<(), WriteFailed>
    ensures { Wrote W.view sink.old sink.new (att_line (escaped_name owner.now) att.now) result }
{
    put_owner_and_name(sink, owner, att.name.as_slice())?;
    put(sink, b" = ")?;
    put_att_values(sink, att)?;
    put(sink, b" ;\n")
}

/// Writes two tabs, `owner`, `:` and `name`, the name of the attribute, both names with their escapes. `owner` is the name of its variable,
/// or empty for a global attribute. Errs if the sink fails.
#[tactic(auto, using(devices::proofs::Writes::writes))]
fn put_owner_and_name<W: Sink>(sink: &mut W, owner: &[u8], name: &[u8]) -> Result<(), WriteFailed>
    ensures { Wrote W.view sink.old sink.new (att_prefix owner.now name.now) result }
{
    put(sink, b"\t\t")?;
    put_name(sink, owner)?;
    put(sink, b":")?;
    put_name(sink, name)
}

/// Writes the values of an attribute. Characters are a string in quotes, without the NULs at their end, and the string is closed and opened
/// again after each line feed but one at its end. Other values are numbers with the suffix of their type, joined by `, ` (`1b, 2b`). Errs
/// if the sink fails.
fn put_att_values<W: Sink>(sink: &mut W, att: &Att) -> Result<(), WriteFailed>
    ensures { Wrote W.view sink.old sink.new (att_text att.now.ty att.now.vals) result }
{
    match att.ty {
        NcType::Char => put_quoted_chars(sink, att.vals.as_slice()),
        ty => put_numbers(sink, ty, att.vals.as_slice()),
    }
}

/// Writes the characters of an attribute as a string in quotes, with their escapes and without the NULs at their end. The string is closed
/// and opened again after each line feed that isn't its last byte. Errs if the sink fails.
#[tactic(auto, using(devices::proofs::Writes::writes), unfolding(nc_base::specs::HeadText::chars_text))]
fn put_quoted_chars<W: Sink>(sink: &mut W, vals: &[u8]) -> Result<(), WriteFailed>
    ensures { Wrote W.view sink.old sink.new (chars_text vals.now) result }
{
    put(sink, b"\"")?;
    put_broken_text(sink, without_trailing_nuls(vals))?;
    put(sink, b"\"")
}
