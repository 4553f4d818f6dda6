//! Lists of attributes.

ghost use Rattle.std.specs.Prelude.{◌<◌, All, length};
ghost use Rattle.std.specs.List.{flat_map};
ghost use Rattle.nc_base.specs.Grammar.{att_list, att_part, strict};
ghost use Rattle.nc_base.specs.Headers.{IsSoundAtt};
ghost use Rattle.nc_base.specs.Parts.{print};
ghost use Rattle.nc_types.specs.Versions.{count_limit};
ghost use Rattle.devices.specs.code.SinkWrites.{Wrote};

use super::list::{put_list_head, put_name, put_padded};
use super::number::{put_count, put_u32};
use crate::tag::NC_ATTRIBUTE;
use devices::{Sink, WriteFailed};
use nc_base::{Att, Version};

/// Writes a list of attributes: its tag (0 if there are none), their number and the attributes. Needs fewer of them than 2^31, or 2^63 in
/// CDF-5, each sound as [`put_att`] says (`IsSoundAtt`). Errs if the sink fails.
#[tactic(auto, using(crate::proofs::Prints::list_prints))]
pub(crate) fn put_att_list<W: Sink>(
    sink: &mut W,
    version: Version,
    atts: &[Att],
) -> Result<(), WriteFailed>
    requires few { length atts.now < count_limit version }
    requires sound { All (IsSoundAtt version) atts.now }
    ensures { Wrote W.view sink.old sink.new (print (att_list strict version) atts.now) result }
{
    put_list_head(sink, version, NC_ATTRIBUTE, atts.len() as u64)?;
    put_atts(sink, version, atts)
}

/// Writes the attributes of a list, without the tag and the number before them. Needs each as [`put_att`] does. Errs if the sink fails.
fn put_atts<W: Sink>(sink: &mut W, version: Version, atts: &[Att]) -> Result<(), WriteFailed>
    requires { All (IsSoundAtt version) atts.now }
    ensures { Wrote W.view sink.old sink.new
        (flat_map (print (att_part strict version)) atts.now) result }
{
    for att in atts {
        put_att(sink, version, att)?;
    }
    Ok(())
}

/// Writes an attribute: its name, its type code, the number of its values, and the values with their padding. Needs a type that the version
/// has, whole values, and fewer than 2^31 values and bytes of the name, or 2^63 in CDF-5. Errs if the sink fails.
#[tactic(auto, using(devices::proofs::Writes::writes), unfolding(nc_base::specs::Parts::print, nc_base::specs::Grammar::att_part, nc_base::specs::Grammar::type_part))]
fn put_att<W: Sink>(sink: &mut W, version: Version, att: &Att) -> Result<(), WriteFailed>
    requires { IsSoundAtt version att.now }
    ensures { Wrote W.view sink.old sink.new (print (att_part strict version) att.now) result }
{
    put_name(sink, version, att.name.as_slice())?;
    put_u32(sink, att.ty.code())?;
    put_count(sink, version, att.vals.len() as u64 / att.ty.size())?;
    put_padded(sink, att.vals.as_slice())
}
