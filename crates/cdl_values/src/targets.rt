//! What the variables take from the data section.

ghost use Rattle.std.specs.Prelude.{◌≡◌, ◌<◌, ◌-◌, [], min, map, take, length, IfOk};
ghost use Rattle.nc_base.specs.Headers.{AreDimids};
ghost use Rattle.nc_base.specs.Sizes.{dim_len, product};
ghost use Rattle.nc_types.specs.declared.nc_type.NcType.TheVariants.{Char};
ghost use Rattle.cdl_statements.specs.State.{takes_of};
ghost use Rattle.cdl_values.specs.code.Capacities.{Fills, HasCapacityAsFilled, most};
ghost use Rattle.cdl_values.specs.code.Listed.{unlisted_draft};
ghost use Rattle.cdl_values.specs.code.Meant.{SuitVariables, Suits};

use crate::capacity::Capacity;
use crate::data::Target;
use crate::fill::Fill;
use crate::form::ValueForm;
use nc_base::{Dim, NcType, Var, dim_len, fill_of, is_record_var};
use std::alloc::{AllocError, Global};

/// Returns a [`Target`] for each variable, in order: how much the data section may give it. No values are given yet. The contract says
/// nothing unless the shape of each variable has ids of `dims`, and the record dimension nowhere but first.
///
/// A record variable takes any number of values (the CDL chapter of the NetCDF User's Guide, "CDL Syntax"). Any other variable takes as
/// many as the product of its dimension lengths, or `u64::MAX` if the product is greater. Characters of rank 2 and up are taken by rows,
/// each as long as the last dimension; the product is then without that dimension.
///
/// # Errors
///
/// An allocation failed.
pub fn targets_of(alloc: Global, dims: &[Dim], vars: &[Var]) -> Result<Vec<Target>, AllocError>
    ensures { IfOk result (λ targets. SuitVariables dims.now vars.now targets.items) }
{
    let mut targets = Vec::new(alloc);
    for var in vars {
        targets.push(target(dims, var))?;
    }
    Ok(targets)
}

/// Returns what a variable takes from the data section, as long as no statement has given its values. The contract says nothing unless the
/// shape of the variable has ids of `dims`, and the record dimension nowhere but first.
fn target(dims: &[Dim], var: &Var) -> Target
    ensures { AreDimids dims.now [] var.now.dimids → Suits dims.now result (unlisted_draft var.now) }
{
    let form = form(dims, var);
    Target {
        form,
        capacity: capacity(dims, var, form),
        given: false,
    }
}

/// Returns the form in which a variable takes the values that the data section lists of it: strings if its type is char, otherwise numbers
/// of its type. The contract says nothing unless the shape of the variable has ids of `dims`, and the record dimension nowhere but first.
#[tactic(auto, using(crate::proofs::Places::no_char, crate::proofs::Places::takes_numbers))]
fn form(dims: &[Dim], var: &Var) -> ValueForm
    ensures { AreDimids dims.now [] var.now.dimids → Fills result (takes_of dims.now var.now) }
{
    match var.ty {
        NcType::Char => characters(dims, var),
        ty => ValueForm::Numbers(Fill::new(ty, fill_of(var))),
    }
}

/// Returns the form in which a variable takes strings: joined at rank 0 and 1, otherwise a string for each row. Needs a variable of the
/// type char. The contract says nothing unless the shape of the variable has ids of `dims`, and the record dimension nowhere but first.
#[tactic(auto, using(crate::proofs::Places::char_byte, crate::proofs::Places::some_row, crate::proofs::Places::takes_rows), unfolding(cdl_statements::specs::State::takes_of))]
fn characters(dims: &[Dim], var: &Var) -> ValueForm
    requires { var.now.ty ≡ Char }
    ensures { AreDimids dims.now [] var.now.dimids → Fills result (takes_of dims.now var.now) }
{
    let dimids = var.dimids.as_slice();
    if dimids.len() < 2 {
        return ValueForm::Joined;
    }
    ValueForm::Rows {
        len: dim_len(dims, dimids[dimids.len() - 1]),
        fill: fill_of(var) as u8,
    }
}

/// Returns how many values a variable takes from the data section: numbers, bytes or rows, as `form` counts them, or `u64::MAX` if there
/// are more. A record variable takes any number. The contract says nothing unless `form` is the form of this variable.
#[tactic(auto, unfolding(cdl_statements::specs::State::takes_of))]
fn capacity(dims: &[Dim], var: &Var, form: ValueForm) -> Capacity
    ensures { HasCapacityAsFilled dims.now var.now form result }
{
    let dimids = var.dimids.as_slice();
    if is_record_var(dims, var) {
        return Capacity::Unlimited;
    }
    match form {
        ValueForm::Numbers(_) | ValueForm::Joined => Capacity::AtMost(place_count(dims, dimids)),
        ValueForm::Rows { .. } => Capacity::AtMost(place_count(dims, all_but_last(dimids))),
    }
}

/// Returns how many values a variable with these dimensions has: the product of their lengths, or `u64::MAX` if the product is greater (it
/// is not with fewer than two dimensions).
fn place_count(dims: &[Dim], dimids: &[u64]) -> u64
    ensures capped { result ≡ min (product (map (dim_len dims.now) dimids.now)) most }
    ensures short { length dimids.now < 2 → result ≡ product (map (dim_len dims.now) dimids.now) }
{
    let mut count: u64 = 1;
    for id in dimids {
        count = count.saturating_mul(dim_len(dims, *id));
    }
    count
}

/// Returns the dimensions without the last one, or none if there is none.
fn all_but_last(dimids: &[u64]) -> &[u64]
    ensures { result.now ≡ take (length dimids.now - 1) dimids.now }
{
    let (others, _) = dimids.split_at(dimids.len().saturating_sub(1));
    others
}
