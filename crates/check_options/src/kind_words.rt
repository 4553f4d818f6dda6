//! The words that name kinds.

ghost use Rattle.std.specs.Prelude.{◌≡◌};
ghost use Rattle.check_options.specs.KindWords.{EachWordNamesItsKind, kind_named};

use nc_findings::Kind;

/// All kinds of findings, in their order.
pub(crate) const KINDS: &[Kind] = &[
    Kind::NotNetcdf,
    Kind::Hdf5,
    Kind::Hdf5Truncated,
    Kind::Gzip,
    Kind::EmptyFile,
    Kind::UnknownVersion,
    Kind::HeaderTruncated,
    Kind::BadTag,
    Kind::BadCount,
    Kind::BadName,
    Kind::NameCharacters,
    Kind::FloatingType,
    Kind::BadType,
    Kind::BadShape,
    Kind::TwoRecordDims,
    Kind::TooLarge,
    Kind::BadOffset,
    Kind::LargeCount,
    Kind::Streaming,
    Kind::UnusedRecords,
    Kind::EmptyList,
    Kind::LongName,
    Kind::DuplicateName,
    Kind::NotNfc,
    Kind::Padding,
    Kind::EmptyAttribute,
    Kind::TrailingNul,
    Kind::FillValue,
    Kind::HighRank,
    Kind::Vsize,
    Kind::OddVsize,
    Kind::LargeVariable,
    Kind::BeginInHeader,
    Kind::Overlap,
    Kind::Unpadded,
    Kind::Order,
    Kind::AfterRecords,
    Kind::RecordPlace,
    Kind::Gap,
    Kind::Missing,
    Kind::EndPadding,
    Kind::Trailing,
];

/// Returns the kind of findings that has this word, such as `gap`, or `None` if none has. The clause `all` says that the word of each kind
/// names that kind.
#[tactic(auto, unfolding(crate::specs::KindWords::kind_named))]
pub(crate) fn kind_named(word: &str) -> Option<Kind>
    ensures kind { result ≡ kind_named word.now }
    ensures all { EachWordNamesItsKind }
{
    KINDS.iter().copied().find(|kind| word == kind.word())
}
