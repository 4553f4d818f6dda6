//! Laws of files and texts, each the contract of a function that does nothing.
//!
//! The first six say again what the laws of the same names in `nc_file` and `cdl_laws` say, so that one page has all that joins a file and
//! a text. Below are the two laws of the file that is generated from a text.
//!
//! "A text can declare a dataset" stands for `IsSayable`, and "a full dump" for a dump of all values under a valid name. The NULs at the
//! end of attributes are those of attributes of characters.

ghost use Rattle.std.specs.Prelude.{ℕ, List};
ghost use Rattle.nc_base.specs.FileLaws.{FilesAreDumpedAsTheirText, FilesHoldOneDataset, FilesHoldTheirDatasets, GeneratedFilesAreDumped};
ghost use Rattle.nc_types.specs.declared.version.Version.{Version};
ghost use Rattle.nc_file.specs.OneOutcome.{HasOneOutcome};
ghost use Rattle.cdl_laws.specs.PieceLaws.{AttributesReadBack, DataReadsBack, DeclarationsReadBack, DimensionsReadBack, GlobalAttributesReadBack, MarksReadBack, PiecesAreStatements};
ghost use Rattle.cdl_laws.specs.RoundTrip.{TextReadsBack};
ghost use Rattle.cdl_laws.specs.RowLaws.{EmptyRowsReadBack, RowsReadBack};
ghost use Rattle.cdl_laws.specs.TokenLaws.{BlanksAndMarksStop, ConstantsReadBack, NamesReadBack, StringsReadBack, ValuesReadBack};
ghost use Rattle.ncgen_laws.specs.Laws.{DumpsGenerateBack, FilesOfTextsAreDumped};

/// States a law, and does nothing: each list of bytes begins with one header, or has one first wrong field with one fault, but never both
/// ([`nc_file::laws::one_header`]).
pub fn one_header()
    ensures { (bytes : List ℕ) → HasOneOutcome bytes }
{
    nc_file::laws::one_header()
}

/// States four laws, and does nothing: the file of a good dataset holds that dataset and no other, and its dump is the text of the dataset
/// ([`nc_file::laws::file_reads_back`]).
pub fn file_reads_back()
    ensures holds { FilesHoldTheirDatasets }
    ensures one { FilesHoldOneDataset }
    ensures dumped { FilesAreDumpedAsTheirText }
    ensures generated { GeneratedFilesAreDumped }
{
    nc_file::laws::file_reads_back()
}

/// States a law, and does nothing: if a text can declare a dataset, then its full dump, at any width, means this dataset without the NULs
/// at the end of its attributes ([`cdl_laws::laws::text_reads_back`]).
pub fn text_reads_back()
    ensures { TextReadsBack }
{
    cdl_laws::laws::text_reads_back()
}

/// States laws of tokens, and does nothing: what a dump prints of a name, a string or a number is read as one token, which says what was
/// printed ([`cdl_laws::laws::token_reads_back`]).
pub fn token_reads_back()
    ensures names { NamesReadBack }
    ensures strings { StringsReadBack }
    ensures constants { ConstantsReadBack }
    ensures values { ValuesReadBack }
    ensures stops { BlanksAndMarksStop }
{
    cdl_laws::laws::token_reads_back()
}

/// States two laws, and does nothing: the rows that a dump lists of a variable are read as the variable's array
/// ([`cdl_laws::laws::row_reads_back`]).
pub fn row_reads_back()
    ensures rows { RowsReadBack }
    ensures empty { EmptyRowsReadBack }
{
    cdl_laws::laws::row_reads_back()
}

/// States laws of pieces, and does nothing: each statement of a dump is one piece, which declares or gives what was printed
/// ([`cdl_laws::laws::piece_reads_back`]).
pub fn piece_reads_back()
    ensures pieces { PiecesAreStatements }
    ensures marks { (v : Version) → MarksReadBack v }
    ensures dimensions { DimensionsReadBack }
    ensures declarations { DeclarationsReadBack }
    ensures attributes { AttributesReadBack }
    ensures global_attributes { GlobalAttributesReadBack }
    ensures values { DataReadsBack }
{
    cdl_laws::laws::piece_reads_back()
}

/// States a law, and does nothing: if a file is generated from a CDL text, then it is the file of the dataset that the text declares. Under
/// all options, the dump of this file is the text of that dataset.
#[tactic(auto, using(crate::proofs::TextFiles::files_dumped))]
pub fn file_of_text_is_dumped()
    ensures { FilesOfTextsAreDumped }
{}

/// States a law, and does nothing. Let a text be the full dump (of all values, under a valid name, at any width) of a dataset that a CDL
/// text can declare. Then the file generated from this text is that of the dataset without the NULs at the end of its attributes of
/// characters. If that file would have an offset that is too large for the version, then the result is
/// [`OffsetTooLarge`](ncgen::GenFault::OffsetTooLarge) instead.
#[tactic(auto, using(crate::proofs::TextFiles::dumps_generate))]
pub fn dump_generates_back()
    ensures { DumpsGenerateBack }
{}
