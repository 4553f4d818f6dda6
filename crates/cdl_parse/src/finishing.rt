//! The end of a text: the number of records, and the limits on counts and sizes.

ghost use Rattle.std.specs.Prelude.{◌≡◌, IfSome, SomeIff};
ghost use Rattle.nc_base.specs.Headers.{IsSound};
ghost use Rattle.cdl_parse.specs.code.DeclaredDatasets.{Finishes};

use crate::declared_values::Declared;
use crate::records::records_within_limits;
use nc_base::{Att, Dim, Header, ListedArray, NumRecs, Sequence, Var, Version};

/// Makes a header of what a text declares, and returns it with `listed`, the listed values of each variable in the order of `vars`. `gatts`
/// are the attributes of the dataset. The header has as many records as it takes to hold the listed values of each record variable.
///
/// Returns `None` if the dataset is too large: an array of more than 2^48 bytes (of a record variable, over all records), or a header that
/// isn't sound ([`Header::sound`]), as when a count passes the version's limit, a slab has more than 2^48 bytes, or a record more than
/// 2^62. Does not allocate. The clause `declares` says nothing unless `listed` has whole values of each variable, and each shape has ids of
/// `dims`, with the record dimension nowhere but first.
pub fn finish(
    version: Version,
    dims: Sequence<Dim>,
    gatts: Sequence<Att>,
    vars: Sequence<Var>,
    listed: Vec<ListedArray>,
) -> Option<Declared>
    ensures declares { Finishes version dims gatts vars listed.items result }
    ensures keeps { IfSome result (λ d. (d.listed ≡ listed.items) × (d.header.vars ≡ vars)) }
{
    let records = records_within_limits(dims.as_slice(), vars.as_slice(), listed.as_slice())?;
    let header = Header {
        version,
        numrecs: NumRecs::Known(records),
        dims,
        gatts,
        vars,
    };
    declared_if_sound(header, listed)
}

/// Returns the header with these listed values, or `None` if the header isn't sound ([`Header::sound`]). Does not allocate.
fn declared_if_sound(header: Header, listed: Vec<ListedArray>) -> Option<Declared>
    ensures { SomeIff result (IsSound header) (record { header = header; listed = listed.items }) }
{
    if !header.sound() {
        return None;
    }
    Some(Declared {
        header,
        listed: Sequence::from_vec(listed),
    })
}
