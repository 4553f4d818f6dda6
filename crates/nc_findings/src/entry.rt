//! The fields of a header, as the rules look at them.

ghost use Rattle.std.specs.Prelude.{◌≡◌};
ghost use Rattle.nc_findings.specs.Contents.{number_of};

use crate::field_bytes::FieldBytes;
use crate::place::Place;
use nc_base::FormatFault;

/// What is kept of the content of a field.
#[derive(Debug, Drop)]
pub enum Content {
    /// The field is a number.
    Number(u64),
    /// The field is these bytes: a name, the padding of a name or of values, or what stands in the place of the letters `CDF`, of which
    /// fewer than three may be there.
    Bytes(FieldBytes),
    /// The field is the values of an attribute.
    Values {
        /// The last byte is a NUL.
        ends_with_nul: bool,
    },
    /// The file ends inside the field, and nothing is kept of it.
    Cut,
}

impl Content {
    /// Returns the number that the field is, or 0 if it isn't one.
    pub fn number(&self) -> u64
        ensures { result ≡ number_of self.now }
    {
        match self {
            Content::Number(n) => *n,
            Content::Bytes(_) | Content::Values { .. } | Content::Cut => 0,
        }
    }
}

/// A field of a header that was read, or the first wrong one, at which reading stopped.
#[derive(Debug, Drop)]
pub struct Entry {
    /// Its place in the header: what it belongs to, and which field of that it is.
    pub place: Place,
    /// The offset of its first byte from the file's start.
    pub offset: u64,
    /// How many bytes it has to have.
    pub size: u128,
    /// What is kept of its content.
    pub content: Content,
    /// What is wrong with it, if reading stopped at it, or `None`.
    pub fault: Option<FormatFault>,
}
