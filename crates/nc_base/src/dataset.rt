//! A dataset: a header and the values of its variables.

use crate::header::Header;
use nc_types::Sequence;

/// A dataset, apart from where a file keeps its values.
#[derive(Debug, Drop)]
pub struct Dataset {
    /// The header; each `begin_at` is 0 and the number of records is known.
    pub header: Header,
    /// For each variable its values over all records, in row-major order, big-endian and without padding.
    pub arrays: Sequence<Sequence<u8>>,
}
