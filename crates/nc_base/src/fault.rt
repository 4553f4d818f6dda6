//! What can be wrong with the bytes of a header.

ghost use Rattle.std.specs.Prelude.{◌≡◌, Some};
ghost use Rattle.nc_base.specs.FaultWords.{fault_words, format_text};

use std::error::Error;
use std::fmt;

/// What is wrong with the first wrong field of a header, from the left.
#[derive(Clone, Copy, Debug, PartialEq, Eq, PartialOrd, Ord)]
pub enum FormatFault {
    /// The file doesn't begin with `CDF`.
    NotNetcdf,
    /// The version byte, which is none of 1, 2 and 5.
    UnknownVersion(u8),
    /// The file ends inside a field after the letters `CDF`.
    HeaderTruncated,
    /// The tag of a list is neither that of its kind nor 0.
    BadTag,
    /// A count, a length or the number of records (unless that is `STREAMING`) has its top bit set, or a list with the tag 0 has a count
    /// other than 0.
    BadCount,
    /// The bytes of a name are no valid name.
    BadName,
    /// A type is `float` or `double`.
    FloatingType,
    /// A type code isn't that of a type of the file's version.
    BadType,
    /// A dimension id in a shape is that of no dimension, or it is that of the record dimension and isn't the first of the shape.
    BadShape,
    /// A second dimension has length 0.
    TwoRecordDims,
    /// A variable's begin has its top bit set.
    BadOffset,
    /// A variable's slab passes 2^48 bytes, or the padded slabs of the record variables up to it pass 2^62 bytes together.
    TooLarge,
}

impl FormatFault {
    /// Returns the words for the fault, such as `bad tag`. For an unknown version they end with a space, and its byte isn't among them:
    /// `unknown version `.
    #[tactic(auto, unfolding(crate::specs::FaultWords::fault_words))]
    pub fn words(self) -> &'static str
        ensures { result.now ≡ fault_words self }
    {
        match self {
            FormatFault::NotNetcdf => "not a netCDF classic file",
            FormatFault::UnknownVersion(_) => "unknown version ",
            FormatFault::HeaderTruncated => "header truncated",
            FormatFault::BadTag => "bad tag",
            FormatFault::BadCount => "bad count",
            FormatFault::BadName => "bad name",
            FormatFault::FloatingType => "floating type",
            FormatFault::BadType => "bad type",
            FormatFault::BadShape => "bad shape",
            FormatFault::TwoRecordDims => "two record dimensions",
            FormatFault::BadOffset => "bad offset",
            FormatFault::TooLarge => "too large",
        }
    }
}

impl fmt::Display for FormatFault {
    ghost output = { λ fault. Some (format_text fault) };

    /// Writes the words for the fault, such as `bad tag`, or `unknown version 7` with the version byte in decimal. The fault lines of
    /// `ncdump` have the same words.
    #[tactic(auto, unfolding(crate::specs::FaultWords::format_text, nc_types::specs::Bytes::concat_parts))]
    fn fmt<W: fmt::Write>(&self, f: &mut fmt::Formatter<W>) -> fmt::Result {
        match self {
            FormatFault::UnknownVersion(byte) => write!(f, "{}{byte}", self.words()),
            _ => f.write_str(self.words()),
        }
    }
}

impl Error for FormatFault {}
