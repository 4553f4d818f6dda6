//! What a text declares.

ghost use Rattle.std.specs.Prelude.{◌≡◌, ◌++◌, IfOk, OnOk, SomeIff, replicate};
ghost use Rattle.std.specs.List.{concat};
ghost use Rattle.nc_base.specs.Fill.{fill_value};
ghost use Rattle.nc_base.specs.Sizes.{value_count};
ghost use Rattle.nc_base.specs.Numbers.{bytes_of_number};
ghost use Rattle.nc_base.specs.code.OwedValues.{fills, whole_array, whole_arrays};
ghost use Rattle.cdl_parse.specs.code.OwedCounts.{CountsOwed, HasSmallSlab};

use cdl_values::pack_number;
use nc_base::{Dataset, Dim, Header, ListedArray, Sequence, Var, fill_of, is_record_var, slab_len};
use std::alloc::{AllocError, Global};

/// What a text declares: the header, and the values that the data section lists of each variable. If it lists fewer values than the
/// variable has, the others aren't stored: they are the variable's fill value, and come after the listed ones.
#[derive(Drop)]
pub struct Declared {
    /// The header, with the number of records. The begin of each variable is 0.
    pub header: Header,
    /// For each variable its listed values, big-endian and one after the other.
    pub listed: Sequence<ListedArray>,
}

impl Declared {
    ghost use Rattle.cdl_parse.specs.code.DeclaredDatasets.{dataset_of_declared};

    /// Returns the dataset. It has the header, and for each variable the listed values, followed by the fill value once for
    /// each value that the variable lacks (ncgen(1), and `_FillValue` in the attribute conventions of the NetCDF User's Guide).
    ///
    /// # Errors
    ///
    /// An allocation failed. Or a slab has more than 2^48 bytes, or a variable lacks 2^64 values or more: in what
    /// [`declared`](crate::declared) returns this is never so.
    pub fn into_dataset(self, alloc: Global) -> Result<Dataset, AllocError>
        ensures { IfOk result (λ dataset. dataset ≡ dataset_of_declared self) }
    {
        let Declared { header, listed } = self;
        let records = header.numrecs.known();
        let arrays = whole_arrays(
            alloc,
            header.dims.as_slice(),
            records,
            header.vars.as_slice(),
            listed.into_vec(),
        )?;
        Ok(Dataset { header, arrays })
    }
}

/// Returns for each variable an array of all its values over `records` records, made by [`whole_array`]. `listed` has the listed values of
/// each variable, in the order of `vars`. Errs if a slab has more than 2^48 bytes, if a variable lacks 2^64 values or more, or if an
/// allocation failed. A variable beyond the end of `listed` isn't looked at, and gets no array.
fn whole_arrays(
    alloc: Global,
    dims: &[Dim],
    records: u64,
    vars: &[Var],
    listed: Vec<ListedArray>,
) -> Result<Sequence<Sequence<u8>>, AllocError>
    ensures { IfOk result (λ arrays. arrays ≡ whole_arrays dims.now records vars.now listed.items) }
{
    let mut arrays = Sequence::new(alloc);
    let mut left = listed.into_iter();
    for var in vars {
        match left.next() {
            Some(listed) => arrays.push(whole_array(alloc, dims, records, var, listed)?)?,
            None => return Ok(arrays),
        }
    }
    Ok(arrays)
}

/// Returns all values of a variable over `records` records: the listed ones, followed by its fill value once for each value that it lacks.
/// Errs if its slab has more than 2^48 bytes, if it lacks 2^64 values or more, or if an allocation failed.
fn whole_array(
    alloc: Global,
    dims: &[Dim],
    records: u64,
    var: &Var,
    listed: ListedArray,
) -> Result<Sequence<u8>, AllocError>
    ensures { IfOk result (λ array. array ≡ whole_array dims.now records var.now listed) }
{
    match owed_count(dims, var, records, listed.len()) {
        Some(owed) => filled_array(alloc, var, listed, owed),
        None => Err(AllocError),
    }
}

/// Returns the bytes of `listed`, followed by the variable's fill value `owed` times. Errs only if an allocation failed.
fn filled_array(
    alloc: Global,
    var: &Var,
    listed: ListedArray,
    owed: u64,
) -> Result<Sequence<u8>, AllocError>
    ensures { IfOk result (λ array. array ≡ listed ++ fills var.now owed) }
{
    let fill = fill_bytes(alloc, var)?;
    let mut bytes = listed.into_bytes(alloc, fill.len().saturating_mul(owed as usize))?;
    add_copies(&mut bytes, fill.as_slice(), owed)?;
    Ok(Sequence::from_vec(bytes))
}

/// Returns how many values a variable lacks over `records` records, if `len` bytes of its values are listed: the number of its values less
/// the number of those, or 0 if more are listed. Returns `None` if its slab has more than 2^48 bytes, or if it lacks 2^64 values or more.
fn owed_count(dims: &[Dim], var: &Var, records: u64, len: u128) -> Option<u64>
    ensures { CountsOwed dims.now var.now records len result }
{
    let count = value_count(dims, var, records)?;
    let owed = count.saturating_sub(len / var.ty.size() as u128);
    u64::try_from(owed).ok()
}

/// Returns how many values a variable has: those of a slab, and for a record variable `records` times as many. Returns `None` if a slab has
/// more than 2^48 bytes.
fn value_count(dims: &[Dim], var: &Var, records: u64) -> Option<u128>
    ensures { SomeIff result (HasSmallSlab dims.now var.now) (value_count dims.now var.now records) }
{
    let slab = slab_len(dims, var.dimids.as_slice(), var.ty)?;
    let count = (slab / var.ty.size()) as u128;
    if is_record_var(dims, var) {
        Some(count * records as u128)
    } else {
        Some(count)
    }
}

/// Returns the bytes of a variable's fill value, big-endian. Errs only if an allocation failed.
fn fill_bytes(alloc: Global, var: &Var) -> Result<Vec<u8>, AllocError>
    ensures { IfOk result (λ bytes. bytes.items ≡ bytes_of_number var.now.ty (fill_value var.now)) }
{
    let mut fill = ListedArray::new(alloc);
    pack_number(&mut fill, var.ty, fill_of(var))?;
    fill.into_bytes(alloc, 0)
}

/// Appends `count` copies of `copy` to `bytes`. Errs only if an allocation failed; then some of the copies may have been appended.
#[tactic(auto, using(crate::proofs::Copies::copy_added))]
fn add_copies(bytes: &mut Vec<u8>, copy: &[u8], count: u64) -> Result<(), AllocError>
    ensures { OnOk result (bytes.new.items ≡ bytes.old.items ++ concat (replicate count copy.now)) }
{
    for _ in 0..count {
        bytes.extend_from_slice(copy)?;
    }
    Ok(())
}
