//! Variables as CDL declares them.

ghost use Rattle.std.specs.Prelude.{map};
ghost use Rattle.nc_base.specs.HeadText.{dim_name, joined, shape_text, var_lines, vars_text};
ghost use Rattle.devices.specs.code.SinkWrites.{Wrote};
ghost use Rattle.cdl_print.specs.code.Pieces.{dim_list, dim_text, type_and_name, var_rows, vars_part};

use crate::attribute::put_att_lines;
use crate::fixed_text::FixedText;
use crate::name::put_name;
use devices::{Sink, WriteFailed, put};
use nc_base::{Dim, NcType, Var};

/// Writes the heading `variables:`, and the declaration and the attributes of each variable, or nothing if there are no variables. `dims`
/// has the header's dimensions, whose names the declarations show. Errs if the sink fails.
#[tactic(auto, using(devices::proofs::Writes::writes), unfolding(nc_base::specs::HeadText::vars_text, crate::specs::code::Pieces::var_rows))]
pub fn put_vars<W: Sink>(sink: &mut W, dims: &[Dim], vars: &[Var]) -> Result<(), WriteFailed>
    ensures { Wrote W.view sink.old sink.new (vars_text dims.now vars.now) result }
{
    if vars.is_empty() {
        return Ok(());
    }
    put_vars_section(sink, dims, vars)
}

/// Writes the heading `variables:` and the lines of all variables. It is called only if there are some. `dims` has the header's dimensions,
/// whose names the declarations show. Errs if the sink fails.
#[tactic(auto, using(devices::proofs::Writes::writes))]
fn put_vars_section<W: Sink>(sink: &mut W, dims: &[Dim], vars: &[Var]) -> Result<(), WriteFailed>
    ensures { Wrote W.view sink.old sink.new (vars_part dims.now vars.now) result }
{
    put(sink, FixedText::Variables.bytes())?;
    put_each_var(sink, dims, vars)
}

/// Writes the lines of each variable, one variable after the other, without a heading. `dims` has the header's dimensions, whose names the
/// declarations show. Errs if the sink fails.
#[tactic(auto, using(devices::proofs::Writes::writes), unfolding(crate::specs::code::Pieces::var_rows))]
fn put_each_var<W: Sink>(sink: &mut W, dims: &[Dim], vars: &[Var]) -> Result<(), WriteFailed>
    ensures { Wrote W.view sink.old sink.new (var_rows dims.now vars.now) result }
{
    for var in vars {
        put_var_lines(sink, dims, var)?;
    }
    Ok(())
}

/// Writes the lines of a variable: its declaration and its attributes. `dims` has the header's dimensions, whose names the declaration
/// shows. Errs if the sink fails.
#[tactic(auto, using(devices::proofs::Writes::writes), unfolding(nc_base::specs::HeadText::var_lines))]
fn put_var_lines<W: Sink>(sink: &mut W, dims: &[Dim], var: &Var) -> Result<(), WriteFailed>
    ensures { Wrote W.view sink.old sink.new (var_lines dims.now var.now) result }
{
    put_type_and_name(sink, var.ty, var.name.as_slice())?;
    put_shape(sink, dims, var.dimids.as_slice())?;
    put(sink, b" ;\n")?;
    put_att_lines(sink, var.name.as_slice(), var.atts.as_slice())
}

/// Writes the beginning of a variable's declaration: a tab, the word of its type, a space and its name with escapes. Errs if the sink
/// fails.
#[tactic(auto, using(devices::proofs::Writes::writes))]
fn put_type_and_name<W: Sink>(sink: &mut W, ty: NcType, name: &[u8]) -> Result<(), WriteFailed>
    ensures { Wrote W.view sink.old sink.new (type_and_name ty name.now) result }
{
    put(sink, b"\t")?;
    put(sink, ty.word())?;
    put(sink, b" ")?;
    put_name(sink, name)
}

/// Writes the names of a variable's dimensions with their escapes, in parentheses and joined by `, `, or nothing if it has no dimension.
/// `dimids` has the ids of these dimensions, which are indexes into `dims`, the header's dimensions. Errs if the sink fails.
#[tactic(auto, using(devices::proofs::Writes::writes), unfolding(nc_base::specs::HeadText::shape_text))]
fn put_shape<W: Sink>(sink: &mut W, dims: &[Dim], dimids: &[u64]) -> Result<(), WriteFailed>
    ensures { Wrote W.view sink.old sink.new (shape_text dims.now dimids.now) result }
{
    if dimids.is_empty() {
        return Ok(());
    }
    put_dim_list(sink, dims, dimids)
}

/// Writes the names of the dimensions with the ids `dimids`, their indexes in `dims`, in parentheses and joined by `, `, with their
/// escapes. It is called only if there are some. Errs if the sink fails.
#[tactic(auto, using(devices::proofs::Writes::writes))]
fn put_dim_list<W: Sink>(sink: &mut W, dims: &[Dim], dimids: &[u64]) -> Result<(), WriteFailed>
    ensures { Wrote W.view sink.old sink.new (dim_list dims.now dimids.now) result }
{
    put(sink, b"(")?;
    put_dim_names(sink, dims, dimids)?;
    put(sink, b")")
}

/// Writes the names of the dimensions with the ids `dimids`, their indexes in `dims`, with their escapes, joined by `, ` and without
/// parentheses. Errs if the sink fails.
fn put_dim_names<W: Sink>(sink: &mut W, dims: &[Dim], dimids: &[u64]) -> Result<(), WriteFailed>
    ensures { Wrote W.view sink.old sink.new (joined (map (dim_name dims.now) dimids.now)) result }
{
    let mut rest = dimids;
    while let Some((&first, others)) = rest.split_first() {
        put_dim_name(sink, dims, first, others.is_empty())?;
        rest = others;
    }
    Ok(())
}

/// Writes the name of the dimension with the id `dimid`, its index in `dims`, with its escapes ([`put_bare_dim_name`]), and then a comma
/// and a space, unless it is the last of its shape (`is_last`). Errs if the sink fails.
#[tactic(auto, using(devices::proofs::Writes::writes), unfolding(crate::specs::code::Pieces::dim_text))]
fn put_dim_name<W: Sink>(
    sink: &mut W,
    dims: &[Dim],
    dimid: u64,
    is_last: bool,
) -> Result<(), WriteFailed>
    ensures { Wrote W.view sink.old sink.new (dim_text dims.now dimid is_last) result }
{
    put_bare_dim_name(sink, dims, dimid)?;
    if is_last {
        return Ok(());
    }
    put(sink, b", ")
}

/// Writes the name of the dimension with the id `dimid`, its index in `dims`, with its escapes, and no comma after it. Writes nothing if
/// `dims` has no such dimension. Errs if the sink fails.
#[tactic(auto, using(devices::proofs::Writes::writes))]
fn put_bare_dim_name<W: Sink>(sink: &mut W, dims: &[Dim], dimid: u64) -> Result<(), WriteFailed>
    ensures { Wrote W.view sink.old sink.new (dim_name dims.now dimid) result }
{
    match dims.get(dimid as usize) {
        Some(dim) => put_name(sink, dim.name.as_slice()),
        None => Ok(()),
    }
}
