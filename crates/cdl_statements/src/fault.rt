//! The faults of a CDL text.

ghost use Rattle.std.specs.Prelude.{◌≡◌, Some};
ghost use Rattle.cdl_statements.specs.FaultWords.{cdl_fault_text, kind_words};

use std::error::Error;
use std::fmt;

/// What is wrong with a CDL text, or with the call that reads it.
#[derive(Clone, Copy, Debug, PartialEq, Eq)]
pub enum CdlKind {
    /// An allocation failed; nothing is said of the text.
    OutOfMemory,
    /// Bytes that are no token: an opening without `{`, a string without an end or with a bad escape, or any other byte.
    BadToken,
    /// A number token that is no number, or whose suffix the version doesn't have.
    BadNumber,
    /// Tokens that are no statement of the section that they stand in.
    Syntax,
    /// A name that the format doesn't allow.
    BadName,
    /// A name that another dimension, variable or attribute of the same list has.
    DuplicateName,
    /// A name that no dimension has.
    UnknownDimension,
    /// A name that no variable has.
    UnknownVariable,
    /// The type `float`, `real` or `double`.
    FloatingType,
    /// A word in the place of a type that is none of the version's types, such as `int64` in CDF-1.
    UnknownType,
    /// A dimension of length 0.
    ZeroDimension,
    /// A second record dimension.
    TwoRecordDims,
    /// The record dimension in another place than the first among the dimensions of a variable.
    BadShape,
    /// Constants of different types in one attribute.
    MixedConstants,
    /// A number that is out of the range of its type, or the length of a dimension that the version doesn't allow.
    NumberRange,
    /// A string for a variable of numbers, or a number or `_` for one of characters.
    WrongKind,
    /// More values, or more rows of characters, than the variable has.
    TooManyValues,
    /// A string that is longer than its row, or strings that are longer than their variable.
    StringTooLong,
    /// A second list of values of one variable.
    DuplicateData,
    /// A slab, a record, an array or a count (of records, for example) that is larger than its limit.
    TooLarge,
}

/// A fault, and where it is.
#[derive(Clone, Copy, Debug, PartialEq, Eq)]
pub struct CdlFault {
    /// The line of the first token of the faulty statement, from 1 on. For `TooLarge` it is the line of the closing brace, and for
    /// `OutOfMemory` it is 0.
    pub line: u64,
    pub kind: CdlKind,
}

impl CdlKind {
    /// Returns the words for the kind of fault, such as `bad token`.
    #[tactic(auto, unfolding(crate::specs::FaultWords::kind_words))]
    pub fn words(self) -> &'static str
        ensures { result.now ≡ kind_words self }
    {
        match self {
            CdlKind::OutOfMemory => "out of memory",
            CdlKind::BadToken => "bad token",
            CdlKind::BadNumber => "bad number",
            CdlKind::Syntax => "syntax",
            CdlKind::BadName => "bad name",
            CdlKind::DuplicateName => "duplicate name",
            CdlKind::UnknownDimension => "unknown dimension",
            CdlKind::UnknownVariable => "unknown variable",
            CdlKind::FloatingType => "floating type",
            CdlKind::UnknownType => "unknown type",
            CdlKind::ZeroDimension => "zero dimension",
            CdlKind::TwoRecordDims => "two record dimensions",
            CdlKind::BadShape => "bad shape",
            CdlKind::MixedConstants => "mixed constants",
            CdlKind::NumberRange => "number out of range",
            CdlKind::WrongKind => "wrong kind of value",
            CdlKind::TooManyValues => "too many values",
            CdlKind::StringTooLong => "string too long",
            CdlKind::DuplicateData => "duplicate data",
            CdlKind::TooLarge => "too large",
        }
    }
}

impl fmt::Display for CdlKind {
    ghost output = { λ kind. Some (kind_words kind) };

    /// Writes the [`words`](CdlKind::words) for the kind of fault.
    fn fmt<W: fmt::Write>(&self, f: &mut fmt::Formatter<W>) -> fmt::Result {
        f.write_str(self.words())
    }
}

impl Error for CdlKind {}

impl fmt::Display for CdlFault {
    ghost output = { λ fault. Some (cdl_fault_text fault) };

    /// Writes `line N: ` and the words for the kind of fault. Of `OutOfMemory`, which belongs to no line, it writes the words alone.
    #[tactic(auto, unfolding(nc_types::specs::Bytes::concat_parts, crate::specs::FaultWords::cdl_fault_text, crate::specs::FaultWords::line_prefix))]
    fn fmt<W: fmt::Write>(&self, f: &mut fmt::Formatter<W>) -> fmt::Result {
        match self.kind {
            CdlKind::OutOfMemory => self.kind.fmt(f),
            kind => write!(f, "line {}: {kind}", self.line),
        }
    }
}

impl Error for CdlFault {}
