//! Headers out of rows.

use nc_base::{Att, Dim, Header, NcType, NumRecs, Sequence, Var, Version};
use std::alloc::{AllocError, Global};
use test_files::char_bytes;

/// The name and the length of a dimension.
pub type NamedLength<'a> = (&'a str, u64);

/// The name, the type and the values of an attribute. Each character of the values stands for a byte.
pub type NamedValues<'a> = (&'a str, NcType, &'a str);

/// The name of a variable, the ids of its dimensions, its type and where it begins.
pub type NamedShape<'a> = (&'a str, &'a [u64], NcType, u64);

/// A header, whose variables have no attributes.
#[derive(Clone, Copy)]
pub struct HeaderRow<'a> {
    pub version: Version,
    pub numrecs: NumRecs,
    pub dims: &'a [NamedLength<'a>],
    pub gatts: &'a [NamedValues<'a>],
    pub vars: &'a [NamedShape<'a>],
}

/// A header of CDF-5 without records, dimensions, attributes and variables.
pub const EMPTY: HeaderRow<'static> = HeaderRow {
    version: Version::Cdf5,
    numrecs: NumRecs::Known(0),
    dims: &[],
    gatts: &[],
    vars: &[],
};

/// The bytes that the characters stand for, as a sequence.
pub fn sequence(alloc: Global, chars: &str) -> Result<Sequence<u8>, AllocError> {
    Ok(Sequence::from_vec(char_bytes(alloc, chars)?))
}

/// Dimensions of these names and lengths.
pub fn dims_of(alloc: Global, rows: &[NamedLength<'_>]) -> Result<Sequence<Dim>, AllocError> {
    let mut dims = Sequence::new(alloc);
    for (name, len) in rows {
        let name = sequence(alloc, *name)?;
        dims.push(Dim { name, len: *len })?;
    }
    Ok(dims)
}

/// An attribute of this name, with values of this type.
pub fn att_of(alloc: Global, name: &str, ty: NcType, vals: &str) -> Result<Att, AllocError> {
    Ok(Att {
        name: sequence(alloc, name)?,
        ty,
        vals: sequence(alloc, vals)?,
    })
}

/// The attributes of a row.
fn atts_of(alloc: Global, rows: &[NamedValues<'_>]) -> Result<Sequence<Att>, AllocError> {
    let mut atts = Sequence::new(alloc);
    for (name, ty, vals) in rows {
        atts.push(att_of(alloc, *name, *ty, *vals)?)?;
    }
    Ok(atts)
}

/// A variable of this name and shape, with these attributes.
pub fn var_of(
    alloc: Global,
    (name, dimids, ty, begin_at): NamedShape<'_>,
    atts: &[NamedValues<'_>],
) -> Result<Var, AllocError> {
    Ok(Var {
        name: sequence(alloc, name)?,
        dimids: Sequence::from_vec(Vec::from_slice(alloc, dimids)?),
        atts: atts_of(alloc, atts)?,
        ty,
        begin_at,
    })
}

/// The variables of a row.
fn vars_of(alloc: Global, rows: &[NamedShape<'_>]) -> Result<Sequence<Var>, AllocError> {
    let mut vars = Sequence::new(alloc);
    for shape in rows {
        vars.push(var_of(alloc, *shape, &[])?)?;
    }
    Ok(vars)
}

/// The header of a row.
pub fn header_of(alloc: Global, row: &HeaderRow<'_>) -> Result<Header, AllocError> {
    Ok(Header {
        version: row.version,
        numrecs: row.numrecs,
        dims: dims_of(alloc, row.dims)?,
        gatts: atts_of(alloc, row.gatts)?,
        vars: vars_of(alloc, row.vars)?,
    })
}
