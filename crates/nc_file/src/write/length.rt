//! The number of bytes that a header takes in a file. Each sum stops at `u64::MAX`.

ghost use Rattle.std.specs.Prelude.{◌≡◌, ◌+◌, ◌-◌, ◌^◌, [], false, length, min};
ghost use Rattle.std.specs.Int.{byte_len};
ghost use Rattle.nc_types.specs.Bytes.{padding_len};
ghost use Rattle.nc_base.specs.Grammar.{att_list, att_part, dim_list, dim_part, header_spelling, name_part, var_list, var_part, strict};
ghost use Rattle.nc_types.specs.Versions.{count_width, offset_width};
ghost use Rattle.nc_base.specs.code.PartRuns.{printed_len};

use nc_base::{Att, Dim, Header, Var, Version, padding_len};

/// The number of bytes of a 32-bit number: a tag, or the code of a type. `CDF` and the version byte take as many together.
const U32_LEN: u64 = 4;

/// Returns the number of bytes that a header takes in a file, as [`write_header`](crate::write_header) writes it, or `u64::MAX` if there
/// are more.
#[tactic(auto, using(crate::proofs::HeaderLen::header_len))]
pub fn header_len(header: &Header) -> u64
    ensures { result ≡ min (length (header_spelling header.now)) (2 ^ 64 - 1) }
{
    let version = header.version;
    let start = U32_LEN + count_len(version);
    start
        .saturating_add(dims_len(version, header.dims.as_slice()))
        .saturating_add(atts_len(version, header.gatts.as_slice()))
        .saturating_add(vars_len(version, header.vars.as_slice()))
}

/// Returns the number of bytes that the list of dimensions, with its tag and count, takes in a file, or `u64::MAX` if there are more.
fn dims_len(version: Version, dims: &[Dim]) -> u64
    ensures { result ≡ min (printed_len (dim_list strict version) dims.now) (2 ^ 64 - 1) }
{
    let mut total = list_head_len(version);
    for dim in dims {
        total = total.saturating_add(dim_entry_len(version, dim));
    }
    total
}

/// Returns the number of bytes that a list of attributes, with its tag and count, takes in a file, or `u64::MAX` if there are more.
fn atts_len(version: Version, atts: &[Att]) -> u64
    ensures { result ≡ min (printed_len (att_list strict version) atts.now) (2 ^ 64 - 1) }
{
    let mut total = list_head_len(version);
    for att in atts {
        total = total.saturating_add(att_len(version, att));
    }
    total
}

/// Returns the number of bytes that the list of variables, with its tag and count, takes in a file, or `u64::MAX` if there are more.
fn vars_len(version: Version, vars: &[Var]) -> u64
    ensures { result ≡ min (printed_len (var_list strict version []) vars.now) (2 ^ 64 - 1) }
{
    let mut total = list_head_len(version);
    for var in vars {
        total = total.saturating_add(var_len(version, var));
    }
    total
}

/// Returns the number of bytes that the name and the length of a dimension take in a header, or `u64::MAX` if there are more.
#[tactic(auto, using(crate::proofs::HeaderLen::fields_len))]
fn dim_entry_len(version: Version, dim: &Dim) -> u64
    ensures { result ≡ min (printed_len (dim_part strict version false) dim.now) (2 ^ 64 - 1) }
{
    name_len(version, dim.name.as_slice()).saturating_add(count_len(version))
}

/// Returns the number of bytes that an attribute takes in a header, or `u64::MAX` if there are more.
#[tactic(auto, using(crate::proofs::HeaderLen::fields_len))]
fn att_len(version: Version, att: &Att) -> u64
    ensures { result ≡ min (printed_len (att_part strict version) att.now) (2 ^ 64 - 1) }
{
    let head = U32_LEN + count_len(version);
    name_len(version, att.name.as_slice())
        .saturating_add(head)
        .saturating_add(padded_entry_len(att.vals.len() as u64))
}

/// Returns the number of bytes that a variable takes in a header, or `u64::MAX` if there are more.
#[tactic(auto, using(crate::proofs::HeaderLen::fields_len))]
fn var_len(version: Version, var: &Var) -> u64
    ensures { result ≡ min (printed_len (var_part strict version [] 0) var.now) (2 ^ 64 - 1) }
{
    let ids = (var.dimids.len() as u64).saturating_mul(count_len(version));
    let fields = count_len(version) + U32_LEN + count_len(version) + offset_len(version);
    name_len(version, var.name.as_slice())
        .saturating_add(ids)
        .saturating_add(atts_len(version, var.atts.as_slice()))
        .saturating_add(fields)
}

/// Returns the number of bytes that a name takes in a header, with its length and its padding, or `u64::MAX` if there are more.
#[tactic(auto, using(crate::proofs::HeaderLen::fields_len))]
fn name_len(version: Version, name: &[u8]) -> u64
    ensures { result ≡ min (printed_len (name_part strict version) name.now) (2 ^ 64 - 1) }
{
    count_len(version).saturating_add(padded_entry_len(name.len() as u64))
}

/// Returns `n` rounded up to a multiple of four, or `u64::MAX` if that is greater.
fn padded_entry_len(n: u64) -> u64
    ensures { result ≡ min (n + padding_len n) (2 ^ 64 - 1) }
{
    n.saturating_add(padding_len(n as u128))
}

/// Returns the number of bytes before the elements of a list: four of its tag, and those of the number of elements.
fn list_head_len(version: Version) -> u64
    ensures { result ≡ 4 + byte_len (count_width version) }
{
    U32_LEN + count_len(version)
}

/// Returns the number of bytes that a count takes in the version: 8 in CDF-5, otherwise 4.
fn count_len(version: Version) -> u64
    ensures { result ≡ byte_len (count_width version) }
{
    match version {
        Version::Cdf1 | Version::Cdf2 => 4,
        Version::Cdf5 => 8,
    }
}

/// Returns the number of bytes that an offset takes in the version: 4 in CDF-1, otherwise 8.
fn offset_len(version: Version) -> u64
    ensures { result ≡ byte_len (offset_width version) }
{
    match version {
        Version::Cdf1 => 4,
        Version::Cdf2 | Version::Cdf5 => 8,
    }
}
