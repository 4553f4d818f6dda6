//! Which variables a dump shows.

ghost use Rattle.std.specs.Prelude.{◌≡◌, ℕ, List, not, map, position, IfOk};
ghost use Rattle.ncdump.specs.Dumps.{options_of};
ghost use Rattle.ncdump.specs.code.Names.{holds, holds_if};
ghost use Rattle.ncdump.specs.code.Selections.{Selects, Chooses, HoldsDims, Knows, is_in_both};

use crate::fault::DumpFault;
use crate::names::NameSet;
use crate::options::DumpOptions;
use nc_base::{Header, Sequence, Var};
use std::alloc::{AllocError, Global};

/// Returns a `bool` for each variable, in the order of the header: true if the options `-v` and `-c` of ncdump(1) select it.
///
/// If names are chosen (`-v`), only variables with one of these names are selected. If the values of coordinate variables alone are
/// shown (`-c`), only variables with the name of a dimension are selected. The option `-h` makes no difference.
///
/// The time grows with the number of names times its logarithm.
///
/// # Errors
///
/// [`DumpFault::OutOfMemory`] if an allocation failed, and [`DumpFault::NoSuchVariable`] with the index, counted from 0, of
/// the first chosen name that no variable has.
pub fn select(alloc: Global, header: &Header, options: &DumpOptions) -> Result<Vec<bool>, DumpFault>
    ensures { Selects header.now (options_of options.now) result }
{
    let chosen = chosen_names(alloc, header, options)?;
    let dims = dim_names(alloc, header, options)?;
    Ok(selection_in_both(alloc, header.vars.as_slice(), &chosen, &dims)?)
}

/// Returns the set of the names that `-v` chooses, which [`checked_names`] makes, or `None` if `-v` isn't given. Errs with `NoSuchVariable`
/// and the index, counted from 0, of the first chosen name that no variable has, and with `OutOfMemory` if an allocation failed.
fn chosen_names<'a>(
    alloc: Global,
    header: &Header,
    options: &'a DumpOptions,
) -> Result<Option<NameSet<'a>>, DumpFault>
    ensures { Chooses header.now.vars options.now.chosen result }
{
    match &options.chosen {
        Some(names) => {
            let vars = header.vars.as_slice();
            Ok(Some(checked_names(alloc, vars, names.as_slice())?))
        }
        None => Ok(None),
    }
}

/// Returns the set of the names of the dimensions if `-c` is given: then only the values of coordinate variables are shown, and these are
/// the variables with the name of a dimension. Otherwise returns `None`. Errs only if an allocation failed.
fn dim_names<'a>(
    alloc: Global,
    header: &'a Header,
    options: &DumpOptions,
) -> Result<Option<NameSet<'a>>, AllocError>
    ensures { IfOk result (HoldsDims header.now (options_of options.now)) }
{
    if !options.coords {
        return Ok(None);
    }
    Ok(Some(NameSet::of(alloc, header.dims.as_slice())?))
}

/// Returns `names` as a set, if each of them is the name of one of `vars`. Errs with `NoSuchVariable` and the index, counted from 0, of the
/// first name that no variable has, and with `OutOfMemory` if an allocation failed.
fn checked_names<'a>(
    alloc: Global,
    vars: &[Var],
    names: &'a [Sequence<u8>],
) -> Result<NameSet<'a>, DumpFault>
    ensures { Knows vars.now names.now result }
{
    let known = NameSet::of(alloc, vars)?;
    if let Some(index) = first_unknown(&known, names) {
        return Err(DumpFault::NoSuchVariable(index));
    }
    Ok(NameSet::of(alloc, names)?)
}

/// Returns the index, counted from 0, of the first of `names` that isn't in the set `known`, or `None` if all of them are in it.
fn first_unknown(known: &NameSet<'_>, names: &[Sequence<u8>]) -> Option<usize>
    ensures { result ≡ position (λ (name : List ℕ). not (holds known.now name)) names.now }
{
    names
        .iter()
        .position(|name| !known.contains(name.as_slice()))
}

/// Returns a `bool` for each variable: true if its name is in `chosen`, the names of `-v`, and in `dims`, the names of the dimensions, for
/// `-c`. `None` counts as a set that has every name. Errs only if an allocation failed.
fn selection_in_both(
    alloc: Global,
    vars: &[Var],
    chosen: &Option<NameSet<'_>>,
    dims: &Option<NameSet<'_>>,
) -> Result<Vec<bool>, AllocError>
    ensures { IfOk result (λ s. s.items ≡ map (is_in_both chosen.now dims.now) vars.now) }
{
    // The capacity is reserved first: `collect` would try a failed allocation again with less.
    let mut selection = Vec::with_capacity(alloc, vars.len())?;
    selection.extend(
        vars.iter()
            .map(|var| has_name_of(chosen, var) && has_name_of(dims, var)),
    )?;
    Ok(selection)
}

/// Returns true if the set has the variable's name, and also if there is no set (`None`).
fn has_name_of(set: &Option<NameSet<'_>>, var: &Var) -> bool
    ensures { result ≡ holds_if set.now var.now.name }
{
    set.as_ref()
        .is_none_or(|names| names.contains(var.name.as_slice()))
}
