//! The list of the fields of a header.

use crate::entry::Entry;
use nc_base::{FormatFault, Header, Sequence};

/// The fields of a header, and the header itself.
#[derive(Debug, Drop)]
pub struct Listing {
    /// The fields in the order of the file; if the header is wrong, up to its first wrong field.
    pub entries: Sequence<Entry>,
    /// The header, without the values of attributes, or what is wrong with its first wrong field. In place of a floating type it has the
    /// integer type of the same size, which its version may lack.
    pub header: Result<Header, FormatFault>,
    /// The first bytes of a file that doesn't begin with `CDF`: 52 of them, or all if there are fewer. In them the superblock of an HDF5
    /// file says where its data end. Of any other file there are none here.
    pub start: Sequence<u8>,
    /// The offset at which the header ends or, if it is wrong, at which its first wrong field ends.
    pub end: u64,
    /// The length of the file in bytes.
    pub file_len: u64,
}
