//! Laws of the grammar of a header, each the contract of a function that does nothing.

ghost use Rattle.std.specs.Prelude.{ℕ, ◌≤◌, List, length};
ghost use Rattle.nc_base.specs.FileLaws.{FilesHoldTheirDatasets, FilesHoldOneDataset, FilesAreDumpedAsTheirText, GeneratedFilesAreDumped};
ghost use Rattle.nc_file.specs.OneOutcome.{HasOneOutcome};
ghost use Rattle.nc_base.specs.Grammar.{header_spelling};
ghost use Rattle.nc_base.specs.HeaderLaws.{WrittenHeadersReadBack};
ghost use Rattle.nc_base.specs.code.Weight.{weight_of};
ghost use Rattle.nc_base.specs.declared.header.Header.{Header};

/// States a law, and does nothing. Each list of bytes begins with a header by the grammar, or has a first wrong field, but never both. If
/// it begins with a header, then there is only one such header, and only one rest after it. If it has a first wrong field, then there is
/// only one fault of that field, only one way to it through the header's fields, and only one offset at which it begins and one at which it
/// ends.
///
/// What bytes spell and where the first wrong field lies are relations, which don't say how to read. This law says that they leave no
/// choice.
pub fn one_header()
    ensures { (bytes : List ℕ) → HasOneOutcome bytes }
{}

/// States a law, and does nothing. If a header is sound (`nc_base::Header::sound`), its names are valid, and each begin is below the
/// version's limit of offsets, then the bytes that [`write_header`](crate::write_header) writes for it are a spelling of this header by the
/// grammar, whatever bytes follow. So they read back as this header.
pub fn written_header_reads_back()
    ensures { WrittenHeadersReadBack }
{}

/// States four laws, and does nothing. A good dataset has a sound header, valid names, and for each variable all its values, in at most
/// 2^48 bytes. A file holds a dataset if reading the file by offsets gives the dataset back. The file that is generated from a good dataset
/// holds that dataset, if each begin fits its field. No bytes hold two datasets. The dump of a file that holds a dataset is the text of
/// that dataset, under any options, and so is the dump of the generated file.
///
/// The definitions say twice where values lie: by offsets for a reader, and as one concatenation for a writer. These laws say that the two
/// agree.
pub fn file_reads_back()
    ensures holds { FilesHoldTheirDatasets }
    ensures one { FilesHoldOneDataset }
    ensures dumped { FilesAreDumpedAsTheirText }
    ensures generated { GeneratedFilesAreDumped }
{}

/// States a law, and does nothing. The weight of a header (`nc_base::weight`) is at most the number of bytes that its spelling has
/// ([`header_len`](crate::header_len)). So what is kept of a header that was read is at most what was read of it.
#[tactic(auto, using(crate::proofs::Weights::weighs_no_more))]
pub fn weight_is_within_spelling()
    ensures { (h : Header) → weight_of h ≤ length (header_spelling h) }
{}
