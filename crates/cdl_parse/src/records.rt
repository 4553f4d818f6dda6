//! The number of records that a text declares.

ghost use Rattle.std.specs.Prelude.{◌≡◌, ◌<◌};
ghost use Rattle.nc_base.specs.Sizes.{slab_count};
ghost use Rattle.cdl_parse.specs.code.Extents.{CountsRecords, HaveValues, needs_of, records_for};

use nc_base::{Dim, ListedArray, Var, is_record_var, slab_len};

/// The most bytes that the array of a variable may have, and the most records.
const ARRAY_LIMIT: u128 = 1 << 48;

/// Returns the number of records: as many as it takes to hold the listed values of each record variable. A record counts even if only a
/// part of it is listed. `listed` has the listed values of each variable, in the order of `vars`. Returns `None` if a slab, or the array of
/// a record variable over that many records, has more than 2^48 bytes. The contract says nothing unless `listed` has whole values of each
/// variable, and each shape has ids of `dims`, with the record dimension nowhere but first.
pub fn records_within_limits(dims: &[Dim], vars: &[Var], listed: &[ListedArray]) -> Option<u64>
    ensures { CountsRecords dims.now vars.now listed.now result }
{
    needs_of(dims, vars, listed)?.records()
}

/// What the record variables counted in so far need: how many records hold their listed values, and how many bytes their longest slab has.
#[derive(Clone, Copy)]
struct RecordNeeds {
    /// How many records it takes to hold the listed values of each record variable.
    records: u128,
    /// The bytes of the longest slab of a record variable, or 0 if there is none.
    widest: u64,
}

impl RecordNeeds {
    ghost use Rattle.cdl_parse.specs.code.Extents.{records_within, with_listed};

    /// Returns these needs with the variable `var` counted in, whose listed values are `listed`. A variable that isn't a record variable
    /// changes nothing. Returns `None` if the variable's slab has more than 2^48 bytes. The contract leaves out a variable whose slab has
    /// no values.
    fn with(self, dims: &[Dim], var: &Var, listed: &ListedArray) -> Option<RecordNeeds>
        ensures { 0 < slab_count dims.now var.now → result ≡ with_listed dims.now self var.now listed.now }
    {
        let slab = slab_len(dims, var.dimids.as_slice(), var.ty)?;
        if !is_record_var(dims, var) {
            return Some(self);
        }
        let size = var.ty.size();
        let records = records_for(slab / size, listed.len() / size as u128);
        Some(RecordNeeds {
            records: self.records.max(records),
            widest: self.widest.max(slab),
        })
    }

    /// Returns the field `records` if it keeps the limits. Returns `None` if it is more than 2^48, or if that many slabs as long as the
    /// longest one have more than 2^48 bytes together.
    fn records(self) -> Option<u64>
        ensures { result ≡ records_within self }
    {
        if self.records > ARRAY_LIMIT || self.records * self.widest as u128 > ARRAY_LIMIT {
            return None;
        }
        Some(self.records as u64)
    }
}

/// Returns how many records of `count` values it takes to hold `n` values. Returns 0 if `count` is 0, but no clause says so.
fn records_for(count: u64, n: u128) -> u128
    ensures { 0 < count → result ≡ records_for count n }
{
    if count == 0 {
        return 0;
    }
    n.div_ceil(count as u128)
}

/// Returns what all of these variables need together; `listed` has the listed values of each, in the order of `vars`. Variables beyond the
/// end of `listed` aren't counted in. Returns `None` if a slab has more than 2^48 bytes. The contract says nothing unless each variable has
/// a value in a slab.
fn needs_of(dims: &[Dim], vars: &[Var], listed: &[ListedArray]) -> Option<RecordNeeds>
    ensures { HaveValues dims.now vars.now → result ≡ needs_of dims.now vars.now listed.now }
{
    let mut extent = RecordNeeds {
        records: 0,
        widest: 0,
    };
    let n = vars.len().min(listed.len());
    for at in 0..n {
        extent = extent.with(dims, &vars[at], &listed[at])?;
    }
    Some(extent)
}
