//! The begin of each variable.

ghost use Rattle.std.specs.Prelude.{◌≡◌, ◌+◌, ◌*◌, ◌<◌, ◌≤◌, ◌^◌, All, Ok, Err, Some, codes, if◌then◌else◌, length, true};
ghost use Rattle.std.specs.List.{list_all};
ghost use Rattle.nc_base.specs.GeneratedFile.{fits, fixed_vars, with_begins};
ghost use Rattle.nc_base.specs.Headers.{IsSound};
ghost use Rattle.nc_base.specs.Sizes.{padded_total, slab_limit, slab_size};
ghost use Rattle.nc_file.specs.code.Begins.{after, is_below, offset_of, offset_too_large, placed};

use super::length::header_len;
use super::slab::padded_slab_len;
use nc_base::{Dim, Header, Sequence, Var, is_record_var};
use std::error::Error;
use std::fmt;

/// The begin of a variable is too large for its field in files of the version.
#[derive(Clone, Copy, Debug, PartialEq, Eq)]
pub struct OffsetTooLarge;

impl fmt::Display for OffsetTooLarge {
    ghost output = { λ _. Some (codes "offset too large") };

    /// Writes `offset too large`.
    fn fmt<W: fmt::Write>(&self, f: &mut fmt::Formatter<W>) -> fmt::Result {
        f.write_str("offset too large")
    }
}

impl Error for OffsetTooLarge {}

/// The begins of the next variables, in bytes from the file's start.
#[derive(Clone, Copy)]
pub(crate) struct NextBegins {
    /// The begin of the next variable that isn't a record variable.
    pub(crate) fixed_begin: u128,
    /// The begin of the next record variable, which is the offset of its slab in the first record.
    pub(crate) record_begin: u128,
}

/// Gives each variable of a sound header (`nc_base::Header::sound`) its begin, and returns the header. The slabs of the variables that
/// aren't record variables come after the header, in header order. After them come the slabs of the record variables in the first record.
/// Each slab before another is padded to a multiple of four bytes (`begin` of the NetCDF Classic Format Specification). The begins that the
/// given header has don't matter.
///
/// It does not allocate, and takes time in proportion to the number of dimensions, dimension ids, variables and attributes.
///
/// # Errors
///
/// A begin is too large for its field. The header is dropped then.
pub fn with_begins(header: Header) -> Result<Header, OffsetTooLarge>
    requires { IsSound header }
    ensures { result ≡ (if fits header then Ok (with_begins header) else Err offset_too_large) }
{
    let start = header_len(&header) as u128;
    let Header {
        version,
        numrecs,
        dims,
        gatts,
        vars,
    } = header;
    let mut vars = vars.into_vec();
    let first = NextBegins {
        fixed_begin: start,
        record_begin: start + fixed_slabs_len(dims.as_slice(), vars.as_slice()),
    };
    if !assign_begins(
        dims.as_slice(),
        vars.as_mut_slice(),
        first,
        version.offset_limit(),
    ) {
        return Err(OffsetTooLarge);
    }
    Ok(Header {
        version,
        numrecs,
        dims,
        gatts,
        vars: Sequence::from_vec(vars),
    })
}

/// Returns how many bytes the padded slabs of all variables that aren't record variables take together. Needs slabs of at most 2^48 bytes.
fn fixed_slabs_len(dims: &[Dim], vars: &[Var]) -> u128
    requires { All (λ var. slab_size dims.now var ≤ slab_limit) vars.now }
    ensures size { result ≡ padded_total dims.now (fixed_vars dims.now vars.now) }
    ensures small { result ≤ length vars.now * 2 ^ 49 }
{
    let mut total: u128 = 0;
    for var in vars {
        if !is_record_var(dims, var) {
            total += padded_slab_len(dims, var) as u128;
        }
    }
    total
}

/// Gives each variable its begin, in order. `first` has the begins of the first record variable and of the first other variable. Returns
/// true if all begins are below `limit`. Otherwise returns false at the first begin that isn't: the variables before it have their begins,
/// and the others are as they were, but no clause says so. Needs slabs of at most 2^48 bytes, and begins below 2^120 in `first`.
fn assign_begins(dims: &[Dim], vars: &mut [Var], first: NextBegins, limit: u64) -> bool
    requires small { All (λ var. slab_size dims.now var ≤ slab_limit) vars.old }
    requires fixed_begin { first.fixed_begin < 2 ^ 120 }
    requires record_begin { first.record_begin < 2 ^ 120 }
    ensures placed { result ≡ true → vars.new ≡ placed dims.now first vars.old }
    ensures fits { result ≡ list_all (is_below limit) (placed dims.now first vars.old) }
{
    let mut next = first;
    for v in 0..vars.len() {
        let begin = next.begin_of(dims, &vars[v]);
        if begin >= limit as u128 {
            return false;
        }
        next = next.after(dims, &vars[v]);
        vars[v].begin_at = begin as u64;
    }
    true
}

impl NextBegins {
    /// Returns the begin of `var`, the next variable in header order: `record_begin` if it is a record variable, otherwise `fixed_begin`.
    fn begin_of(self, dims: &[Dim], var: &Var) -> u128
        ensures { result ≡ offset_of dims.now self var.now }
    {
        if is_record_var(dims, var) {
            self.record_begin
        } else {
            self.fixed_begin
        }
    }

    /// Returns the begins of the variables that come next after `var`. The begin that [`begin_of`](NextBegins::begin_of) returns for `var`
    /// is increased by the bytes of its padded slab, which are fewer than 2^49. The other begin is kept. Needs a slab of at most 2^48
    /// bytes, and begins below 2^127, so that no sum overflows.
    fn after(self, dims: &[Dim], var: &Var) -> NextBegins
        requires small { slab_size dims.now var.now ≤ slab_limit }
        requires fixed_begin { self.fixed_begin < 2 ^ 127 }
        requires record_begin { self.record_begin < 2 ^ 127 }
        ensures next { result ≡ after dims.now self var.now }
        ensures fixed_begin { result.fixed_begin < self.fixed_begin + 2 ^ 49 }
        ensures record_begin { result.record_begin < self.record_begin + 2 ^ 49 }
    {
        let bytes = padded_slab_len(dims, var) as u128;
        if is_record_var(dims, var) {
            NextBegins {
                fixed_begin: self.fixed_begin,
                record_begin: self.record_begin + bytes,
            }
        } else {
            NextBegins {
                fixed_begin: self.fixed_begin + bytes,
                record_begin: self.record_begin,
            }
        }
    }
}
