//! The report of a file.

use crate::finding::Finding;
use crate::listing::Listing;
use nc_base::Sequence;

/// All that is wrong or odd in a file.
#[derive(Debug, Drop)]
pub struct Report {
    /// The fields of the header, up to the first wrong one, with the header itself.
    pub listing: Listing,
    /// What is found, by offset, and at one offset in the order of the kinds ([`Kind`](crate::Kind)).
    pub findings: Sequence<Finding>,
}
