//! The sizes of slabs and of records, the number of records, and where a variable ends.

ghost use Rattle.std.specs.Prelude.{◌≡◌, ◌+◌, ◌*◌, ◌/◌, ◌<◌, ◌≤◌, ◌^◌, IfSome, length, map, min, slice_get, sum_by, SomeIff};
ghost use Rattle.nc_types.specs.Types.{size_of};
ghost use Rattle.nc_types.specs.Bytes.{padding_len};
ghost use Rattle.nc_base.specs.Sizes.{slab_len, dim_len, is_record_dim, is_record_shape, is_record_var, is_narrow, product, slab_size, padded_size, slab_limit, record_size, record_limit, record_vars, records_begin, record_count, value_count};
ghost use Rattle.nc_base.specs.code.SizeParts.{slab_at, slab_if, checked_record_size, extent_sum, CountsValues, IsCappedSlab};
ghost use Rattle.nc_base.specs.GeneratedFile.{is_sole_narrow, known_records};
ghost use Rattle.nc_base.specs.code.Extents.{extent_end};
ghost use Rattle.nc_base.specs.Headers.{IsSound};

use crate::header::{Dim, Header, NumRecs, Var};
use nc_types::NcType;

/// The greatest slab in bytes: 2^48.
pub const SLAB_LIMIT: u64 = 1 << 48;

/// The greatest record in bytes: 2^62.
pub const RECORD_LIMIT: u128 = 1 << 62;

/// Returns the number of bytes of the slab of the variable at index `v`, without padding. A slab has the values of one record for a record
/// variable, and all values for any other one. (Rounded up to a multiple of four, this is `vsize` of the NetCDF Classic Format
/// Specification.) Returns `None` above 2^48 bytes. Needs a variable at this index.
pub fn slab_bytes(header: &Header, v: usize) -> Option<u64>
    requires { v < length header.now.vars }
    ensures { SomeIff result (slab_at header.now v ≤ slab_limit) (slab_at header.now v) }
{
    let var = &header.vars.as_slice()[v];
    slab_len(header.dims.as_slice(), var.dimids.as_slice(), var.ty)
}

/// Returns the record size: the number of bytes from a record variable's values in one record to those in the next. It is the sum of the
/// slabs of all record variables, each padded to a multiple of four bytes; but a sole record variable of one-byte or two-byte values isn't
/// padded (`recsize` of the NetCDF Classic Format Specification, with its special case). It is 0 if there are no record variables. Returns
/// `None` if a record variable's slab passes 2^48 bytes, or if the record size passes 2^62 bytes.
pub fn rec_size(header: &Header) -> Option<u64>
    ensures { result ≡ checked_record_size header.now }
{
    let dims = header.dims.as_slice();
    let vars = header.vars.as_slice();
    let size = capped_record_bytes(dims, vars, is_sole_narrow(dims, vars));
    if size <= RECORD_LIMIT {
        Some(size as u64)
    } else {
        None
    }
}

impl NumRecs {
    /// Returns the number of records if the header has it, otherwise 0. To count the records of a file instead, call [`records`].
    pub fn known(self) -> u64
        ensures { result ≡ known_records self }
    {
        match self {
            NumRecs::Known(n) => n,
            NumRecs::Streaming => 0,
        }
    }
}

/// Returns the number of records of a file of `len` bytes with this header. If the header has the number, it is that number. If it is
/// unknown (`STREAMING`), it is the number of whole records between the least begin of the record variables and the file's end, or 0 if
/// there are no record variables or the file ends before that begin (`numrecs` of the NetCDF Classic Format Specification).
///
/// If the header isn't sound ([`Header::sound`]), no clause says which number is returned.
pub fn records(header: &Header, len: u64) -> u64
    ensures { IsSound header.now → result ≡ record_count header.now len }
{
    match header.numrecs {
        NumRecs::Known(n) => n,
        NumRecs::Streaming => match records_begin(header.dims.as_slice(), header.vars.as_slice()) {
            Some(begin) => whole_records(len.saturating_sub(begin), rec_size(header)),
            None => 0,
        },
    }
}

/// How the records of a file lie: how many there are, and how far apart.
#[derive(Clone, Copy, Debug, PartialEq, Eq)]
pub struct RecordLayout {
    /// The number of records.
    pub records: u64,
    /// The record size, in bytes.
    pub record_size: u64,
}

/// Returns the number of records of a file of `len` bytes with this header ([`records`]), and the record size ([`sound_record_size`]).
/// Needs a sound header ([`Header::sound`]). It takes time in proportion to the number of variables and their dimensions, so a caller that
/// goes over the variables asks for it once.
pub fn record_layout(header: &Header, len: u64) -> RecordLayout
    requires { IsSound header.now }
    ensures records { result.records ≡ record_count header.now len }
    ensures record_size { result.record_size ≡ record_size header.now }
{
    RecordLayout {
        records: records(header, len),
        record_size: sound_record_size(header),
    }
}

/// Returns how many whole records of `size` bytes fit into `bytes` bytes, or 0 if `size` is 0. With `None`, which [`rec_size`] returns if
/// a limit is passed, it returns 0, but no clause says so.
fn whole_records(bytes: u64, size: Option<u64>) -> u64
    ensures { IfSome size (λ size. result ≡ bytes / size) }
{
    match size {
        Some(size) if size > 0 => bytes / size,
        _ => 0,
    }
}

/// Returns the first offset after the last value that the variable at index `v` has over `records` records, in bytes from the file's start.
/// Returns the variable's begin if it has no value, such as a record variable over 0 records. Needs a sound header ([`Header::sound`]), and
/// a variable at this index.
///
/// For callers of the library: the programs themselves never ask for it.
pub fn extent_end(header: &Header, v: usize, records: u64) -> u128
    requires sound { IsSound header.now }
    requires there { v < length header.now.vars }
    ensures { IfSome (slice_get header.now.vars v) (λ var. result ≡ extent_end header.now var records) }
{
    extent_sum(header, v, records)
}

/// Returns the offset that [`extent_end`] returns for `records` records: the begin for a record variable over 0 records, otherwise the sum
/// of the begin, the bytes of the slab, and for a record variable one record size for each record after the first. It is there for its
/// contract, which states this sum: that of [`extent_end`] states where the last value ends. Needs a sound header ([`Header::sound`]), and
/// a variable at the index `v`.
fn extent_sum(header: &Header, v: usize, records: u64) -> u128
    requires sound { IsSound header.now }
    requires there { v < length header.now.vars }
    ensures { IfSome (slice_get header.now.vars v) (λ var. result ≡ extent_sum header.now records var) }
{
    let var = &header.vars.as_slice()[v];
    let begin = var.begin_at as u128;
    let slab = sound_slab_size(header, v) as u128;
    if !is_record_var(header.dims.as_slice(), var) {
        begin + slab
    } else if records == 0 {
        begin
    } else {
        begin + (records - 1) as u128 * sound_record_size(header) as u128 + slab
    }
}

/// Returns how many values the variable at index `v` has over `records` records. A record variable has one slab for each record, and any
/// other variable has one slab. Needs a sound header ([`Header::sound`]), and a variable at this index.
pub fn value_count(header: &Header, v: usize, records: u64) -> u128
    requires sound { IsSound header.now }
    requires there { v < length header.now.vars }
    ensures { CountsValues header.now v records result }
{
    let var = &header.vars.as_slice()[v];
    let count = (sound_slab_size(header, v) / var.ty.size()) as u128;
    if is_record_var(header.dims.as_slice(), var) {
        count * records as u128
    } else {
        count
    }
}

/// Returns the record size of [`rec_size`], at most 2^62 bytes, but not as an `Option`. Needs a sound header ([`Header::sound`]).
pub fn sound_record_size(header: &Header) -> u64
    requires { IsSound header.now }
    ensures size { result ≡ record_size header.now }
    ensures small { result ≤ record_limit }
{
    rec_size(header).unwrap()
}

/// Returns the number of bytes of the slab of the variable at index `v`, at most 2^48, as [`slab_bytes`] does, but not as an `Option`.
/// Needs a sound header ([`Header::sound`]), and a variable at this index.
fn sound_slab_size(header: &Header, v: usize) -> u64
    requires sound { IsSound header.now }
    requires there { v < length header.now.vars }
    ensures size { result ≡ slab_at header.now v }
    ensures small { result ≤ slab_limit }
{
    slab_bytes(header, v).unwrap()
}

/// Returns the offset at which the records begin: the least begin of the record variables, or `None` if there are none.
fn records_begin(dims: &[Dim], vars: &[Var]) -> Option<u64>
    ensures { result ≡ records_begin (record_vars dims.now vars.now) }
{
    vars.iter()
        .filter(|var| is_record_var(dims, var))
        .map(|var| var.begin_at)
        .min()
}

/// Returns true if there is exactly one record variable, and it is narrow ([`is_narrow`]).
#[tactic(auto, using(crate::proofs::SizeLaws::sole_is, crate::proofs::SizeLaws::rest_taken, crate::proofs::SizeLaws::rest_skipped))]
fn is_sole_narrow(dims: &[Dim], vars: &[Var]) -> bool
    ensures { result ≡ is_sole_narrow (record_vars dims.now vars.now) }
{
    let mut sole = None;
    for var in vars {
        if is_record_var(dims, var) {
            if sole.is_some() {
                return false;
            }
            sole = Some(is_narrow(var));
        }
    }
    sole.unwrap_or(false)
}

/// Returns the bytes that the slabs of all record variables take in a record ([`slab_in_record`]), or 2^62 + 1 if these are more than 2^62.
#[tactic(auto, using(crate::proofs::SizeLaws::rest_taken, crate::proofs::SizeLaws::rest_skipped))]
fn capped_record_bytes(dims: &[Dim], vars: &[Var], sole_narrow: bool) -> u128
    ensures { result
        ≡ min (sum_by (slab_if dims.now sole_narrow) (record_vars dims.now vars.now)) (record_limit + 1) }
{
    let mut bytes: u128 = 0;
    for var in vars {
        if is_record_var(dims, var) {
            bytes = (bytes + slab_in_record(dims, var, sole_narrow)).min(RECORD_LIMIT + 1);
        }
    }
    bytes
}

/// Returns the bytes that the slab of the variable takes in a record: padded, or without padding if `sole_narrow` says that no other
/// variable has records and its values are narrow. Returns 2^62 + 1, which no record has, if the slab passes 2^48 bytes.
fn slab_in_record(dims: &[Dim], var: &Var, sole_narrow: bool) -> u128
    ensures bytes { result ≡ slab_if dims.now sole_narrow var.now }
    ensures small { result ≤ record_limit + 1 }
{
    match slab_len(dims, var.dimids.as_slice(), var.ty) {
        Some(slab) if sole_narrow => slab as u128,
        Some(slab) => padded_len(slab),
        None => RECORD_LIMIT + 1,
    }
}

/// Returns `slab`, the number of bytes of a slab, rounded up to a multiple of four.
fn padded_len(slab: u64) -> u128
    ensures { result ≡ slab + padding_len slab }
{
    slab as u128 + padding_len(slab as u128) as u128
}

/// Returns how many bytes fill `n` bytes up to the next multiple of four, from 0 to 3 (`padding` of the NetCDF Classic Format
/// Specification).
pub fn padding_len(n: u128) -> u64
    ensures { result ≡ padding_len n }
{
    ((4 - n % 4) % 4) as u64
}

/// Returns true if the variable is narrow: each of its values takes less than four bytes.
pub fn is_narrow(var: &Var) -> bool
    ensures { result ≡ is_narrow var.now }
{
    var.ty.size() < 4
}

/// Returns true if the variable is a record variable: its first dimension is the record dimension, the one of length 0 in `dims`.
pub fn is_record_var(dims: &[Dim], var: &Var) -> bool
    ensures { result ≡ is_record_var dims.now var.now }
{
    is_record_shape(dims, var.dimids.as_slice())
}

/// Returns the number of bytes of a slab of the shape `dimids` and the type `ty`, without padding. It is the size of a value times the
/// lengths of the dimensions, without the first one if that is the record dimension. An id that no dimension of `dims` has counts as length
/// 0. Returns `None` above 2^48 bytes.
pub fn slab_len(dims: &[Dim], dimids: &[u64], ty: NcType) -> Option<u64>
    ensures { IsCappedSlab dims.now dimids.now ty result }
{
    let bytes = if is_record_shape(dims, dimids) {
        capped_slab_size(dims, &dimids[1..], ty)
    } else {
        capped_slab_size(dims, dimids, ty)
    };
    if bytes <= SLAB_LIMIT {
        Some(bytes)
    } else {
        None
    }
}

/// Returns the size of a value of the type `ty` in bytes times the lengths of the dimensions with the ids `dimids`, where an id without a
/// dimension counts as 0. If the product passes 2^48, the limit of a slab, it returns 2^48 + 1 instead.
fn capped_slab_size(dims: &[Dim], dimids: &[u64], ty: NcType) -> u64
    ensures { result ≡ min (product (map (dim_len dims.now) dimids.now) * size_of ty) (slab_limit + 1) }
{
    let mut bytes = ty.size();
    for id in dimids {
        bytes = slab_limited_product(bytes, dim_len(dims, *id));
    }
    bytes
}

/// Returns a number of bytes times the length of a dimension, or 2^48 + 1 if the product passes 2^48, the limit of a slab.
fn slab_limited_product(bytes: u64, len: u64) -> u64
    ensures { result ≡ min (bytes * len) (slab_limit + 1) }
{
    match bytes.checked_mul(len) {
        Some(product) => product.min(SLAB_LIMIT + 1),
        None => SLAB_LIMIT + 1,
    }
}

/// Returns true if the first of `dimids`, the ids of a shape, is that of the record dimension, the one of length 0 in `dims`. Returns false
/// for a shape without dimensions, and if no dimension has the first id.
pub fn is_record_shape(dims: &[Dim], dimids: &[u64]) -> bool
    ensures { result ≡ is_record_shape dims.now dimids.now }
{
    match dimids {
        [] => false,
        [first, ..] => is_record_dim(dims, *first),
    }
}

/// Returns true if the dimension with this id is the record dimension, the one of length 0. Returns false if no dimension has the id.
pub fn is_record_dim(dims: &[Dim], id: u64) -> bool
    ensures { result ≡ is_record_dim dims.now id }
{
    id < dims.len() as u64 && dim_len(dims, id) == 0
}

/// Returns the length of the dimension with this id, or 0 if no dimension has the id. The record dimension has length 0 too.
pub fn dim_len(dims: &[Dim], id: u64) -> u64
    ensures { result ≡ dim_len dims.now id }
{
    match dims.get(id as usize) {
        Some(dim) => dim.len,
        None => 0,
    }
}
