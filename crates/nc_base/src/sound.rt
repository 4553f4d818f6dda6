//! The limits that the counts and sizes of a header keep.

ghost use Rattle.std.specs.Prelude.{◌≡◌, ◌<◌, ◌≤◌, ◌==◌, ◌↔◌, [], length, filter, IsTrue};
ghost use Rattle.nc_types.specs.Versions.{count_limit};
ghost use Rattle.std.specs.List.{list_all, count_by};
ghost use Rattle.nc_base.specs.Sizes.{slab_len, slab_limit, record_size, record_limit};
ghost use Rattle.nc_base.specs.code.SizeParts.{is_fixed_dim};
ghost use Rattle.nc_base.specs.code.SoundParts.{AreSoundAtts, AreSoundDims, AreSoundVars, HasSoundVars, IsSoundShape};
ghost use Rattle.nc_base.specs.Headers.{IsSoundNumRecs, IsSoundDim, IsSoundAtt, IsSoundVar, AreDimids, HasWholeValues};

use crate::header::{Att, Dim, Header, NumRecs, Var};
use crate::sizes::{is_record_dim, rec_size, slab_len};
use nc_types::{NcType, Version};

impl Header {
    ghost use Rattle.nc_base.specs.Headers.{IsSound};

    /// Returns true if the header is sound.
    ///
    /// In a sound header each count and length is below the version's limit (2^31, or 2^63 in CDF-5), each type is one of the version's,
    /// and each attribute has whole values. Each dimension id names a dimension. At most one dimension has length 0, and a shape has it
    /// only in its first place. No slab passes 2^48 bytes, and the record size doesn't pass 2^62 bytes. All but the last two are limits of
    /// the NetCDF Classic Format Specification. Names and begins may be any.
    pub fn sound(&self) -> bool
        ensures { IsTrue result ↔ IsSound self.now }
    {
        let version = self.version;
        let dims = self.dims.as_slice();
        is_sound_numrecs(version, self.numrecs)
            && are_sound_dims(version, dims)
            && has_at_most_one_record_dim(dims)
            && are_sound_atts(version, self.gatts.as_slice())
            && has_sound_vars(self)
    }
}

/// Returns true if the variables are sound ([`are_sound_vars`]), and the record size doesn't pass 2^62 bytes.
fn has_sound_vars(header: &Header) -> bool
    ensures { IsTrue result ↔ HasSoundVars header.now }
{
    are_sound_vars(
        header.version,
        header.dims.as_slice(),
        header.vars.as_slice(),
    ) && rec_size(header).is_some()
}

/// Returns true if the number of records is below the version's limit of counts, or unknown.
fn is_sound_numrecs(version: Version, numrecs: NumRecs) -> bool
    ensures { IsTrue result ↔ IsSoundNumRecs version numrecs }
{
    match numrecs {
        NumRecs::Known(n) => n < version.count_limit(),
        NumRecs::Streaming => true,
    }
}

/// Returns true if the version can count this number of elements: if it is below the version's limit of counts, 2^31, or 2^63 in CDF-5.
fn is_countable(version: Version, count: usize) -> bool
    ensures { IsTrue result ↔ (count < count_limit version) }
{
    (count as u64) < version.count_limit()
}

/// Returns true if there are no more dimensions than the version can count, and each is sound ([`is_sound_dim`]).
fn are_sound_dims(version: Version, dims: &[Dim]) -> bool
    ensures { IsTrue result ↔ AreSoundDims version dims.now }
{
    is_countable(version, dims.len()) && dims.iter().all(|dim| is_sound_dim(version, dim))
}

/// Returns true if the number of the name's bytes and the dimension's length are below the version's limit of counts.
fn is_sound_dim(version: Version, dim: &Dim) -> bool
    ensures { IsTrue result ↔ IsSoundDim version dim.now }
{
    is_countable(version, dim.name.len()) && dim.len < version.count_limit()
}

/// Returns true if at most one dimension has length 0, as the record dimension has.
#[tactic(auto, using(crate::proofs::SoundLaws::one_record_dim))]
fn has_at_most_one_record_dim(dims: &[Dim]) -> bool
    ensures { IsTrue result ↔ (length (filter (λ dim. dim.len == 0) dims.now) ≤ 1) }
{
    record_dim_count(dims) <= 1
}

/// Returns the number of dimensions of length 0.
fn record_dim_count(dims: &[Dim]) -> usize
    ensures { result ≡ count_by (λ dim. dim.len == 0) dims.now }
{
    dims.iter().filter(|dim| dim.len == 0).count()
}

/// Returns true if there are no more attributes than the version can count, and each is sound ([`is_sound_att`]).
fn are_sound_atts(version: Version, atts: &[Att]) -> bool
    ensures { IsTrue result ↔ AreSoundAtts version atts.now }
{
    is_countable(version, atts.len()) && atts.iter().all(|att| is_sound_att(version, att))
}

/// Returns true if the version can count the name's bytes, the attribute's type is one of the version's, and the attribute has
/// whole values that the version can count.
fn is_sound_att(version: Version, att: &Att) -> bool
    ensures { IsTrue result ↔ IsSoundAtt version att.now }
{
    is_countable(version, att.name.len())
        && version.has_type(att.ty)
        && has_whole_values(version, att)
}

/// Returns true if the attribute's bytes are a whole number of values of its type, and the version can count these values.
fn has_whole_values(version: Version, att: &Att) -> bool
    ensures { IsTrue result ↔ HasWholeValues version att.now }
{
    let size = att.ty.size();
    let bytes = att.vals.len() as u64;
    bytes % size == 0 && bytes / size < version.count_limit()
}

/// Returns true if there are no more variables than the version can count, and each is sound ([`is_sound_var`]).
fn are_sound_vars(version: Version, dims: &[Dim], vars: &[Var]) -> bool
    ensures { IsTrue result ↔ AreSoundVars version dims.now vars.now }
{
    is_countable(version, vars.len()) && vars.iter().all(|var| is_sound_var(version, dims, var))
}

/// Returns true if the version can count the name's bytes and the dimension ids, the type is one of the version's, the attributes are sound
/// ([`are_sound_atts`]), and the dimension ids are a sound shape with a slab of at most 2^48 bytes ([`has_sound_slab`]).
fn is_sound_var(version: Version, dims: &[Dim], var: &Var) -> bool
    ensures { IsTrue result ↔ IsSoundVar version dims.now var.now }
{
    let dimids = var.dimids.as_slice();
    is_countable(version, var.name.len())
        && is_countable(version, dimids.len())
        && version.has_type(var.ty)
        && are_sound_atts(version, var.atts.as_slice())
        && has_sound_slab(dims, dimids, var.ty)
}

/// Returns true if the dimension ids are a sound shape ([`are_sound_dimids`]), and a slab of this shape and type has at most 2^48 bytes.
fn has_sound_slab(dims: &[Dim], dimids: &[u64], ty: NcType) -> bool
    ensures { IsTrue result ↔ IsSoundShape dims.now dimids.now ty }
{
    are_sound_dimids(dims, dimids) && slab_len(dims, dimids, ty).is_some()
}

/// Returns true if each id of a shape names a dimension, and none after the first names the record dimension.
fn are_sound_dimids(dims: &[Dim], dimids: &[u64]) -> bool
    ensures { IsTrue result ↔ AreDimids dims.now [] dimids.now }
{
    match dimids {
        [] => true,
        [first, others @ ..] => *first < dims.len() as u64 && are_fixed_dims(dims, others),
    }
}

/// Returns true if each id names a dimension other than the record dimension.
fn are_fixed_dims(dims: &[Dim], dimids: &[u64]) -> bool
    ensures { result ≡ list_all (is_fixed_dim dims.now) dimids.now }
{
    dimids.iter().all(|id| is_fixed_dim(dims, *id))
}

/// Returns true if the id names a dimension other than the record dimension.
fn is_fixed_dim(dims: &[Dim], id: u64) -> bool
    ensures { result ≡ is_fixed_dim dims.now id }
{
    id < dims.len() as u64 && !is_record_dim(dims, id)
}
