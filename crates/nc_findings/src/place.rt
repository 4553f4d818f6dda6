//! Where a field of a header stands.

ghost use Rattle.std.specs.Prelude.{◌≡◌};

/// What a field belongs to. Numbers count from 0.
#[derive(Clone, Copy, Debug, PartialEq, Eq)]
pub enum Owner {
    /// The header itself.
    Header,
    /// The dimension of this number.
    Dim(u64),
    /// The global attribute of this number.
    GlobalAtt(u64),
    /// The variable of this number.
    Var(u64),
    /// An attribute of a variable.
    VarAtt {
        /// The number of the variable.
        var: u64,
        /// The number of the attribute among those of the variable.
        att: u64,
    },
}

impl Owner {
    /// Returns the place of this field of the owner.
    pub fn field(self, field: FieldKind) -> Place
        ensures { result ≡ record { owner = self; field = field } }
    {
        Place { owner: self, field }
    }
}

/// A field of the header, or of a dimension, an attribute or a variable. In brackets stands what the NetCDF Classic Format Specification
/// calls it.
#[derive(Clone, Copy, Debug, PartialEq, Eq)]
pub enum FieldKind {
    /// The letters `CDF` (`magic`).
    Magic,
    /// The version byte (`VERSION`).
    Version,
    /// The number of records (`numrecs`).
    NumRecs,
    /// The tag of the list of dimensions (`NC_DIMENSION`).
    DimsTag,
    /// The number of dimensions (`nelems`).
    DimsCount,
    /// The tag of the list of global attributes (`NC_ATTRIBUTE`).
    GlobalAttsTag,
    /// The number of global attributes (`nelems`).
    GlobalAttsCount,
    /// The tag of the list of variables (`NC_VARIABLE`).
    VarsTag,
    /// The number of variables (`nelems`).
    VarsCount,
    /// The length of a name, in bytes (`nelems`).
    NameLength,
    /// The bytes of a name (`namestring`).
    Name,
    /// What fills a name up to a multiple of four bytes (`padding`).
    NamePadding,
    /// The length of a dimension (`dim_length`).
    Length,
    /// The type code of an attribute or a variable (`nc_type`).
    Type,
    /// The number of an attribute's values (`nelems`).
    Count,
    /// The values of an attribute (`values`).
    Values,
    /// What fills the values of an attribute up to a multiple of four bytes (`padding`).
    Padding,
    /// The number of a variable's dimensions (`nelems`).
    Rank,
    /// The dimension id at this index in a variable's shape (`dimid`).
    DimId(u64),
    /// The tag of a variable's list of attributes (`NC_ATTRIBUTE`).
    AttsTag,
    /// The number of a variable's attributes (`nelems`).
    AttsCount,
    /// The size of a variable, as the file gives it (`vsize`).
    Vsize,
    /// The offset of a variable's first value (`begin`).
    Begin,
}

/// The place of a field: what it belongs to, and which of its fields it is.
#[derive(Clone, Copy, Debug, PartialEq, Eq)]
pub struct Place {
    /// What the field belongs to.
    pub owner: Owner,
    /// Which field it is.
    pub field: FieldKind,
}
