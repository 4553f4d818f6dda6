//! The kinds of findings: their words, and how grave each is.

ghost use Rattle.std.specs.Prelude.{◌≡◌};
ghost use Rattle.nc_findings.specs.Kinds.{kind_of, kind_of_fault, kind_of_layout, kind_word, severity_of, severity_word};

use crate::finding::Fact;
use crate::layout_fact::LayoutFact;
use nc_base::FormatFault;

/// How grave a finding is.
#[derive(Clone, Copy, Debug, PartialEq, Eq)]
pub enum Severity {
    /// It is legal, or has no effect, but is odd.
    Note,
    /// It breaks the NetCDF Classic Format Specification or a limit of netCDF-C, or netCDF-C may read it as something else, but each value
    /// can be had.
    Violation,
    /// Values can't be had, or can't be trusted: the header can't be read on, values aren't in the file, or netCDF-C refuses to open it.
    Error,
}

impl Severity {
    /// Returns the word of the severity, such as `note`.
    #[tactic(auto, unfolding(crate::specs::Kinds::severity_word))]
    pub fn word(self) -> &'static str
        ensures { result.now ≡ severity_word self }
    {
        match self {
            Severity::Error => "error",
            Severity::Violation => "violation",
            Severity::Note => "note",
        }
    }
}

/// The kinds of findings. Of those at one offset, a report has them in this order.
#[derive(Clone, Copy, Debug, PartialEq, Eq, PartialOrd, Ord)]
pub enum Kind {
    /// The file doesn't begin with `CDF`, and is none of `Hdf5`, `Gzip` and `EmptyFile`.
    NotNetcdf,
    /// The file begins with the signature of HDF5, as netCDF-4 files do.
    Hdf5,
    /// An HDF5 file ends before its data do.
    Hdf5Truncated,
    /// The file begins with the two bytes of gzip.
    Gzip,
    /// The file has no byte.
    EmptyFile,
    /// The version byte is none of 1, 2 and 5.
    UnknownVersion,
    /// The file ends inside a field of the header.
    HeaderTruncated,
    /// The tag of a list is neither its own nor 0.
    BadTag,
    /// A count has its top bit set, or isn't 0 after a tag of 0; or a dimension's length, or the number of records, is 2^63 or more.
    BadCount,
    /// A name isn't valid, and the fields may be out of step.
    BadName,
    /// A name isn't valid, but the fields are in step.
    NameCharacters,
    /// A type is `float` or `double`, which the programs that read values refuse. Only the first such type is reported.
    FloatingType,
    /// A type code isn't that of a type of the version.
    BadType,
    /// A dimension id is that of no dimension, or that of the record dimension in another place than the first.
    BadShape,
    /// A second dimension has length 0.
    TwoRecordDims,
    /// A variable passes a limit of the programs that read values.
    TooLarge,
    /// A begin has its top bit set.
    BadOffset,
    /// A dimension's length, or the number of records, is 2^31 or more in CDF-1 or CDF-2.
    LargeCount,
    /// The number of records is the streaming mark.
    Streaming,
    /// There are records, but no record variable.
    UnusedRecords,
    /// A list without elements has its own tag.
    EmptyList,
    /// A name is longer than netCDF-C takes.
    LongName,
    /// An earlier element of the list has this name.
    DuplicateName,
    /// A name isn't in normal form NFC.
    NotNfc,
    /// A byte that fills up a name or an attribute isn't 0.
    Padding,
    /// An attribute of another type than `char` has no values.
    EmptyAttribute,
    /// An attribute of type `char` ends with a NUL.
    TrailingNul,
    /// A `_FillValue` hasn't the type of its variable, or not one value.
    FillValue,
    /// A variable has more dimensions than netCDF-C takes.
    HighRank,
    /// The size of a variable contradicts its type and shape.
    Vsize,
    /// The size of a variable isn't the one that is written, but other programs write it so.
    OddVsize,
    /// A slab is greater than the version allows for a variable that isn't the last.
    LargeVariable,
    /// A variable begins inside of the header.
    BeginInHeader,
    /// A block begins before the values of an earlier one end.
    Overlap,
    /// A block begins before the padding of an earlier one ends.
    Unpadded,
    /// A variable begins before one that comes earlier in the header.
    Order,
    /// A variable that isn't a record variable begins after the records do.
    AfterRecords,
    /// A slab isn't in its place in the record.
    RecordPlace,
    /// There are unused bytes before a block.
    Gap,
    /// The file ends before its values do.
    Missing,
    /// The file ends before the padding of its values does, or the last record has padding where none belongs.
    EndPadding,
    /// The file goes on after the padding of its values.
    Trailing,
}

impl Kind {
    /// Returns how grave findings of this kind are.
    pub fn severity(self) -> Severity
        ensures { result ≡ severity_of self }
    {
        match self {
            Kind::FloatingType
            | Kind::UnusedRecords
            | Kind::EmptyList
            | Kind::EmptyAttribute
            | Kind::TrailingNul
            | Kind::OddVsize
            | Kind::Gap
            | Kind::EndPadding => Severity::Note,
            Kind::NameCharacters
            | Kind::LargeCount
            | Kind::Streaming
            | Kind::LongName
            | Kind::DuplicateName
            | Kind::NotNfc
            | Kind::Padding
            | Kind::FillValue
            | Kind::HighRank
            | Kind::Vsize
            | Kind::Trailing => Severity::Violation,
            _ => Severity::Error,
        }
    }

    /// Returns the word of the kind, such as `bad-tag`. It never changes from one release to the next.
    #[tactic(auto, unfolding(crate::specs::Kinds::kind_word))]
    pub fn word(self) -> &'static str
        ensures { result.now ≡ kind_word self }
    {
        match self {
            Kind::NotNetcdf => "not-netcdf",
            Kind::Hdf5 => "hdf5",
            Kind::Hdf5Truncated => "hdf5-truncated",
            Kind::Gzip => "gzip",
            Kind::EmptyFile => "empty-file",
            Kind::UnknownVersion => "unknown-version",
            Kind::HeaderTruncated => "header-truncated",
            Kind::BadTag => "bad-tag",
            Kind::BadCount => "bad-count",
            Kind::BadName => "bad-name",
            Kind::NameCharacters => "name-characters",
            Kind::FloatingType => "floating-type",
            Kind::BadType => "bad-type",
            Kind::BadShape => "bad-shape",
            Kind::TwoRecordDims => "two-record-dims",
            Kind::TooLarge => "too-large",
            Kind::BadOffset => "bad-offset",
            Kind::LargeCount => "large-count",
            Kind::Streaming => "streaming",
            Kind::UnusedRecords => "unused-records",
            Kind::EmptyList => "empty-list",
            Kind::LongName => "long-name",
            Kind::DuplicateName => "duplicate-name",
            Kind::NotNfc => "not-nfc",
            Kind::Padding => "padding",
            Kind::EmptyAttribute => "empty-attribute",
            Kind::TrailingNul => "trailing-nul",
            Kind::FillValue => "fill-value",
            Kind::HighRank => "high-rank",
            Kind::Vsize => "vsize",
            Kind::OddVsize => "odd-vsize",
            Kind::LargeVariable => "large-variable",
            Kind::BeginInHeader => "begin-in-header",
            Kind::Overlap => "overlap",
            Kind::Unpadded => "unpadded",
            Kind::Order => "order",
            Kind::AfterRecords => "after-records",
            Kind::RecordPlace => "record-place",
            Kind::Gap => "gap",
            Kind::Missing => "missing",
            Kind::EndPadding => "end-padding",
            Kind::Trailing => "trailing",
        }
    }
}

impl Fact {
    /// Returns the kind of this fact.
    pub fn kind(self) -> Kind
        ensures { result ≡ kind_of self }
    {
        match self {
            Fact::Fault(fault) => kind_of_fault(fault),
            Fact::Hdf5 => Kind::Hdf5,
            Fact::Hdf5Truncated { .. } => Kind::Hdf5Truncated,
            Fact::Gzip => Kind::Gzip,
            Fact::EmptyFile => Kind::EmptyFile,
            Fact::NameCharacters => Kind::NameCharacters,
            Fact::LargeCount => Kind::LargeCount,
            Fact::EmptyList => Kind::EmptyList,
            Fact::LongName => Kind::LongName,
            Fact::DuplicateName { .. } => Kind::DuplicateName,
            Fact::NotNfc => Kind::NotNfc,
            Fact::Padding => Kind::Padding,
            Fact::EmptyAttribute => Kind::EmptyAttribute,
            Fact::TrailingNul => Kind::TrailingNul,
            Fact::FillType { .. } => Kind::FillValue,
            Fact::FillCount => Kind::FillValue,
            Fact::HighRank => Kind::HighRank,
            Fact::Vsize { .. } => Kind::Vsize,
            Fact::OddVsize { .. } => Kind::OddVsize,
            Fact::Layout(fact) => kind_of_layout(fact),
        }
    }
}

/// Returns the kind of this fault, which has the same name.
fn kind_of_fault(fault: FormatFault) -> Kind
    ensures { result ≡ kind_of_fault fault }
{
    match fault {
        FormatFault::NotNetcdf => Kind::NotNetcdf,
        FormatFault::UnknownVersion(_) => Kind::UnknownVersion,
        FormatFault::HeaderTruncated => Kind::HeaderTruncated,
        FormatFault::BadTag => Kind::BadTag,
        FormatFault::BadCount => Kind::BadCount,
        FormatFault::BadName => Kind::BadName,
        FormatFault::FloatingType => Kind::FloatingType,
        FormatFault::BadType => Kind::BadType,
        FormatFault::BadShape => Kind::BadShape,
        FormatFault::TwoRecordDims => Kind::TwoRecordDims,
        FormatFault::BadOffset => Kind::BadOffset,
        FormatFault::TooLarge => Kind::TooLarge,
    }
}

/// Returns the kind of this fact about the layout, which has the same name.
fn kind_of_layout(fact: LayoutFact) -> Kind
    ensures { result ≡ kind_of_layout fact }
{
    match fact {
        LayoutFact::Streaming { .. } => Kind::Streaming,
        LayoutFact::UnusedRecords { .. } => Kind::UnusedRecords,
        LayoutFact::LargeVariable { .. } => Kind::LargeVariable,
        LayoutFact::BeginInHeader { .. } => Kind::BeginInHeader,
        LayoutFact::Overlap { .. } => Kind::Overlap,
        LayoutFact::Unpadded { .. } => Kind::Unpadded,
        LayoutFact::Order { .. } => Kind::Order,
        LayoutFact::AfterRecords { .. } => Kind::AfterRecords,
        LayoutFact::RecordPlace { .. } => Kind::RecordPlace,
        LayoutFact::Gap { .. } => Kind::Gap,
        LayoutFact::Missing { .. } => Kind::Missing,
        LayoutFact::EndPadding { .. } => Kind::EndPadding,
        LayoutFact::Trailing { .. } => Kind::Trailing,
    }
}
