//! The head of a dump.

ghost use Rattle.std.specs.Prelude.{[], ◌∷◌, codes, decimal};
ghost use Rattle.nc_types.specs.Bytes.{concat_parts};
ghost use Rattle.nc_base.specs.HeadText.{dim_len_text, dim_line, dim_lines, dims_text, gatts_text, head_text};
ghost use Rattle.devices.specs.code.SinkWrites.{Wrote};
ghost use Rattle.cdl_print.specs.code.Pieces.{dims_part, gatts_part};

use crate::attribute::put_att_lines;
use crate::fixed_text::FixedText;
use crate::name::put_name;
use crate::variable::put_vars;
use devices::{Sink, WriteFailed, put, put_decimal};
use nc_base::{Att, Dim, Header};

/// Writes the head of a dump, all that stands before `data:`: `netcdf ` and `name`, the dataset's name, with its escapes, and then the
/// dimensions, the variables and the global attributes.
///
/// `records` is the number of records, which the line of the record dimension shows. The layout is that of ncdump(1).
///
/// # Errors
///
/// The sink failed. It took some prefix of the text.
#[tactic(auto, using(devices::proofs::Writes::writes), unfolding(nc_base::specs::HeadText::head_text, nc_base::specs::HeadText::netcdf_word))]
pub fn put_head<W: Sink>(
    sink: &mut W,
    name: &[u8],
    header: &Header,
    records: u64,
) -> Result<(), WriteFailed>
    ensures { Wrote W.view sink.old sink.new (head_text name.now header.now records) result }
{
    put(sink, b"netcdf ")?;
    put_name(sink, name)?;
    put(sink, b" {\n")?;
    put_dims(sink, header.dims.as_slice(), records)?;
    put_vars(sink, header.dims.as_slice(), header.vars.as_slice())?;
    put_gatts(sink, header.gatts.as_slice())
}

/// Writes the heading `dimensions:` and a line for each dimension, or nothing if there are none. `records` is the number of records, which
/// the line of the record dimension shows. Errs if the sink fails.
#[tactic(auto, using(devices::proofs::Writes::writes), unfolding(nc_base::specs::HeadText::dims_text))]
fn put_dims<W: Sink>(sink: &mut W, dims: &[Dim], records: u64) -> Result<(), WriteFailed>
    ensures { Wrote W.view sink.old sink.new (dims_text records dims.now) result }
{
    if dims.is_empty() {
        return Ok(());
    }
    put_dims_section(sink, dims, records)
}

/// Writes the heading `dimensions:` and the lines of all dimensions. It is called only if there are some. `records` is the number of
/// records, which the line of the record dimension shows. Errs if the sink fails.
#[tactic(auto, using(devices::proofs::Writes::writes))]
fn put_dims_section<W: Sink>(sink: &mut W, dims: &[Dim], records: u64) -> Result<(), WriteFailed>
    ensures { Wrote W.view sink.old sink.new (dims_part records dims.now) result }
{
    put(sink, FixedText::Dimensions.bytes())?;
    put_dim_lines(sink, dims, records)
}

/// Writes a line for each dimension, without a heading. That of the record dimension shows the number of `records`. Errs if the sink fails.
#[tactic(auto, using(devices::proofs::Writes::writes), unfolding(nc_base::specs::HeadText::dim_lines))]
fn put_dim_lines<W: Sink>(sink: &mut W, dims: &[Dim], records: u64) -> Result<(), WriteFailed>
    ensures { Wrote W.view sink.old sink.new (dim_lines records dims.now) result }
{
    for dim in dims {
        put_dim_line(sink, dim, records)?;
    }
    Ok(())
}

/// Writes the line of a dimension: a tab, its name with its escapes, ` = `, and what [`put_dim_length`] writes. `records` is the number of
/// records, which the line of the record dimension shows. Errs if the sink fails.
#[tactic(auto, using(devices::proofs::Writes::writes), unfolding(nc_base::specs::HeadText::dim_line))]
fn put_dim_line<W: Sink>(sink: &mut W, dim: &Dim, records: u64) -> Result<(), WriteFailed>
    ensures { Wrote W.view sink.old sink.new (dim_line records dim.now) result }
{
    put(sink, b"\t")?;
    put_name(sink, dim.name.as_slice())?;
    put(sink, b" = ")?;
    put_dim_length(sink, dim.len, records)
}

/// Writes the length of a dimension and the end of its line, such as `4 ;`. A `len` of 0 is that of the record dimension, for which it
/// writes `UNLIMITED ; // (3 currently)`, with the number of `records`. Errs if the sink fails.
#[tactic(auto, unfolding(nc_base::specs::HeadText::dim_len_text))]
fn put_dim_length<W: Sink>(sink: &mut W, len: u64, records: u64) -> Result<(), WriteFailed>
    ensures { Wrote W.view sink.old sink.new (dim_len_text records len) result }
{
    if len == 0 {
        put_unlimited(sink, records)
    } else {
        put_fixed_length(sink, len)
    }
}

/// Writes the end of the record dimension's line: `UNLIMITED ; // (3 currently)`, if there are 3 `records`. Errs if the sink fails.
#[tactic(auto, using(devices::proofs::Writes::writes), unfolding(nc_base::specs::HeadText::dim_len_text))]
fn put_unlimited<W: Sink>(sink: &mut W, records: u64) -> Result<(), WriteFailed>
    ensures { Wrote W.view sink.old sink.new (dim_len_text records 0) result }
{
    put(sink, FixedText::Unlimited.bytes())?;
    put_decimal(sink, records as u128)?;
    put(sink, FixedText::Currently.bytes())
}

/// Writes `len`, the length of a dimension other than the record dimension, and then ` ;` and a line feed. Errs if the sink fails.
#[tactic(auto, using(devices::proofs::Writes::writes))]
fn put_fixed_length<W: Sink>(sink: &mut W, len: u64) -> Result<(), WriteFailed>
    ensures { Wrote W.view sink.old sink.new (concat_parts (decimal len ∷ codes " ;\n" ∷ [])) result }
{
    put_decimal(sink, len as u128)?;
    put(sink, b" ;\n")
}

/// Writes the heading `// global attributes:` and a line for each global attribute, or nothing if there are none. Errs if the sink fails.
#[tactic(auto, using(devices::proofs::Writes::writes), unfolding(nc_base::specs::HeadText::gatts_text))]
fn put_gatts<W: Sink>(sink: &mut W, gatts: &[Att]) -> Result<(), WriteFailed>
    ensures { Wrote W.view sink.old sink.new (gatts_text gatts.now) result }
{
    if gatts.is_empty() {
        return Ok(());
    }
    put_gatts_section(sink, gatts)
}

/// Writes the heading of the global attributes and their lines. It is called only if there are some. Errs if the sink fails.
#[tactic(auto, using(devices::proofs::Writes::writes, crate::proofs::Runs::nameless))]
fn put_gatts_section<W: Sink>(sink: &mut W, gatts: &[Att]) -> Result<(), WriteFailed>
    ensures { Wrote W.view sink.old sink.new (gatts_part gatts.now) result }
{
    put(sink, FixedText::GlobalAttributes.bytes())?;
    put_att_lines(sink, b"", gatts)
}
