//! Laws of the definitions in `specs/`, each the contract of a function that does nothing.

ghost use Rattle.nccheck_laws.specs.LayoutLaws.{QuietBeginsAreCanonical, QuietLengthIsCanonical, QuietSlabsAreApart, MissingValuesHaveSlab, CanonicalBeginsAreQuiet, CanonicalLengthIsQuiet};
ghost use Rattle.nccheck_laws.specs.HeaderLaws.{SpelledHeadersHaveSoundLayouts, CanonicalBeginsAreGenerated, QuietFilesAreGenerated, GeneratedFilesAreQuiet, ShortFilesLackValues, MissingValuesAreFound};
ghost use Rattle.nccheck_laws.specs.Agreement.{StrictHeadersAreLenient, LenientHeadersAreStrict, UnrefusedHeadersAreSpelled, StrictFaultsAreFirstRefusals};
ghost use Rattle.nccheck_laws.specs.Written.{WrittenFieldsAreCanonical, CanonicalFieldsAreWritten};
ghost use Rattle.nccheck_laws.specs.FaultLaws.{FaultlessHeadersAreReadable, FirstFaultIsReaders, ReportsTellMissingValues};
ghost use Rattle.nccheck_laws.specs.ReportLaws.{QuietSpellingsAreCanonical, CanonicalSpellingsAreQuiet, QuietHeadersAreCanonical, QuietFilesAreCanonical, WholeReportsAreDumped, MissingValuesStopDumps, WholeFilesHoldDatasets, GeneratedFilesAreFoundWhole, GeneratedFilesHaveQuietLayouts, GeneratedFilesHaveQuietSpellings};
ghost use Rattle.nccheck_laws.specs.ErrorLaws.{ListedHeadersTellMissingValues, ListedHeadersHaveSlabsApart, ApartSlabsHaveValuesApart, ReportsWithoutErrorsHaveValues};
ghost use Rattle.nccheck_laws.specs.OneReport.{EachFileHasReport, ReportsAreOne};

/// States two laws of the findings of `nc_layout`, and does nothing. The values of a variable that isn't a record variable are a block, and
/// so are all records together. `begins`: if nothing is found at the begins of variables and blocks, then each variable begins right after
/// the header and the padded slabs that come before its own: first those of the variables that aren't record variables, in header order,
/// and then those of the first record.
///
/// `length`: if nothing is found at the end of the file either, and the layout is sound
/// ([`FileLayout::is_sound`](nc_layout::FileLayout::is_sound)), then the file ends after the last of its padded slabs. (Those of a sole
/// record variable whose values have less than four bytes each have no padding.) So no other rule on begins or on the length is needed.
pub fn quiet_layouts_are_canonical()
    ensures begins { QuietBeginsAreCanonical }
    ensures length { QuietLengthIsCanonical }
{}

/// States two laws of sound layouts ([`FileLayout::is_sound`](nc_layout::FileLayout::is_sound)), and does nothing: the converses of
/// [`quiet_layouts_are_canonical`]. `begins`: if each variable begins right after the header and the padded slabs that come before its own,
/// then nothing is found at the begins of variables and blocks.
///
/// `length`: if the file also ends after the last of its padded slabs, then nothing is found at its end.
pub fn canonical_layouts_are_quiet()
    ensures begins { CanonicalBeginsAreQuiet }
    ensures length { CanonicalLengthIsQuiet }
{}

/// States a law, and does nothing: if no finding is of three kinds (a variable begins inside of the header; a block, which is the values of
/// a variable that isn't a record variable, or all records, begins before the values of an earlier one end; a record variable is out of its
/// place in the record), then no byte lies in two slabs, nor in a slab and the header.
pub fn quiet_slabs_are_apart()
    ensures { QuietSlabsAreApart }
{}

/// States a law of sound layouts ([`FileLayout::is_sound`](nc_layout::FileLayout::is_sound)), and does nothing: if the file ends before the
/// values do, then some slab isn't whole. So the finding that values are missing is there exactly if the file ends before the values do.
pub fn missing_values_have_slab()
    ensures { MissingValuesHaveSlab }
{}

/// States a law, and does nothing: a header that the bytes of a file spell, by whatever rules on names, types and values, has a sound
/// layout ([`FileLayout::is_sound`](nc_layout::FileLayout::is_sound)).
pub fn spelled_headers_have_sound_layouts()
    ensures { SpelledHeadersHaveSoundLayouts }
{}

/// States two laws of files whose header ends where it does as it is written, and does nothing. `begins`: if each variable begins right
/// after the header and the padded slabs that come before its own, then these are the begins of a generated file.
///
/// `files`: if the layout is sound ([`FileLayout::is_sound`](nc_layout::FileLayout::is_sound)), the number of records is known, and nothing
/// is found at begins and at the end of the file, then the file has the header and the length of the file that is generated from its header
/// without begins.
pub fn quiet_files_are_as_generated()
    ensures begins { CanonicalBeginsAreGenerated }
    ensures files { QuietFilesAreGenerated }
{}

/// States a law, and does nothing: the converse of `files` in [`quiet_files_are_as_generated`]. If a file's header has the begins of a
/// generated one, and ends where it does as it is written, and the file has the length of the generated one, then nothing is found at
/// begins and at the end of the file. The layout has to be sound, and the number of records known.
pub fn generated_layouts_are_quiet()
    ensures { GeneratedFilesAreQuiet }
{}

/// States two laws of files, and does nothing. `ends`: if a header has a sound layout in a file, the file ends before its values
/// do exactly if some variable has a first missing value.
///
/// `found`: in such a file, values are found to be missing exactly if some variable has a first missing value.
pub fn missing_values_are_found()
    ensures ends { ShortFilesLackValues }
    ensures found { MissingValuesAreFound }
{}

/// States four laws, and does nothing. They compare the rules by which `nc_file` reads a header, the strict ones, with those by which
/// [`list_fields`](nc_fields::list_fields) lists its fields, which take floating types, odd names and large lengths, and keep no values.
/// `lenient`: if bytes spell a header by the strict rules, they spell it by the others, too, but for the values, and no field is refused.
///
/// `strict`: if bytes spell a header by the other rules, and no field is refused, they spell it by the strict ones, with some values.
///
/// `spelled`: if no field is refused, the bytes spell a header by the strict rules.
///
/// `faults`: strict reading stops with a fault exactly if the first field that is refused is refused with it, and it stops right after this
/// field. A field is refused if it is wrong, if it is a name that isn't valid or the code of a floating type, or if it is, in CDF-1 or
/// CDF-2, a dimension's length or a number of records of 2^31 or more (but not `STREAMING`).
pub fn strict_rules_refuse_fields()
    ensures lenient { StrictHeadersAreLenient }
    ensures strict { LenientHeadersAreStrict }
    ensures spelled { UnrefusedHeadersAreSpelled }
    ensures faults { StrictFaultsAreFirstRefusals }
{}

/// States two laws, and does nothing. `canonical`: if the fields of a header show what is written, then its bytes are the one spelling in
/// which the header is written. Each field shows it but for three kinds: padding that isn't zeros, a tag other than 0 of a list without
/// elements, and a vsize that isn't the one that is written for its variable.
///
/// `written`: if the bytes of a header are the one spelling in which it is written, then its fields show what is written.
pub fn written_fields_are_canonical()
    ensures canonical { WrittenFieldsAreCanonical }
    ensures written { CanonicalFieldsAreWritten }
{}

/// States two laws of the report of a file, and does nothing. `exists`: each list of bytes has a report, also one that isn't a file of the
/// format.
///
/// `one`: two reports of the same bytes are the same, so [`check`](nc_report::check) can answer with no other one.
pub fn one_report()
    ensures exists { EachFileHasReport }
    ensures one { ReportsAreOne }
{}

/// States two laws, and does nothing. `faultless`: no finding of a report is a fault ([`Fact::Fault`](nc_report::Fact::Fault), or a
/// [`Fact`](nc_report::Fact) at which `nc_file` stops all the same, as it does at `NameCharacters`) exactly if `nc_file::read_header` can
/// read the header.
///
/// `first`: if reading the header stops with a fault, then a finding of the report is this fault, no finding at a lesser offset is a fault,
/// and the field that it lies at ends where reading stops.
pub fn first_fault_is_the_readers()
    ensures faultless { FaultlessHeadersAreReadable }
    ensures first { FirstFaultIsReaders }
{}

/// States a law, and does nothing: if `nc_file::read_header` can read the header of a file, then a finding of its report is that values are
/// missing ([`LayoutFact::Missing`](nc_layout::LayoutFact::Missing)) exactly if some variable has a first missing value, at which `ncdump`
/// stops. So, by [`first_fault_is_the_readers`], no finding is a fault or of missing values exactly if every value of the file can be read.
pub fn reports_tell_missing_values()
    ensures { ReportsTellMissingValues }
{}

/// States four laws of the report of a file, and does nothing. `spelling`: if the file begins with a header that `nc_file::read_header` can
/// read, and the report finds no padding that isn't zeros, no list that has its own tag without elements, and no wrong `vsize` of a
/// variable, then the file begins with the one spelling in which this header is written.
///
/// `quiet`: if the file begins with the one spelling of the header that is read, then the report has no finding of these kinds.
///
/// `canonical`: so a file begins with the one spelling of its header if its report has no finding of these kinds and no fault.
///
/// `files`: if its report has no finding at begins and at the end of the file either, then the begins in its header are those of a
/// generated file. If the number of records is known too, then the file has, byte for byte, the header that `ncgen` writes for the same
/// dimensions, attributes and variables, and the same length.
pub fn quiet_headers_are_canonical()
    ensures spelling { QuietSpellingsAreCanonical }
    ensures quiet { CanonicalSpellingsAreQuiet }
    ensures canonical { QuietHeadersAreCanonical }
    ensures files { QuietFilesAreCanonical }
{}

/// States four laws of the report of a file, and does nothing. They hold whatever the types of the variables are, floating types included.
/// `missing`: if the header is listed to its end, then a finding is that values are missing exactly if some value that the header declares
/// isn't in the file.
///
/// `apart`: if the header is listed to its end, and no finding is of the three kinds that [`quiet_slabs_are_apart`] names, such as that a
/// variable begins inside of the header, then no slab (the values of a variable, or those that it has in one record) shares a byte with
/// another one or with the header.
///
/// `own_bytes`: where no slab does, no value shares a byte with another one or with the header.
///
/// `values`: so if no finding is an error ([`Severity::Error`](nc_report::Severity::Error)), the header is listed to its end, each value
/// that it declares is in the file, and none shares a byte with another one or with the header.
pub fn reports_without_errors_have_values()
    ensures missing { ListedHeadersTellMissingValues }
    ensures apart { ListedHeadersHaveSlabsApart }
    ensures own_bytes { ApartSlabsHaveValuesApart }
    ensures values { ReportsWithoutErrorsHaveValues }
{}

/// States four laws of the report of a file, and does nothing. They name the kinds of findings that stop a dump (`stops_dump`): those of
/// faults, [`Kind::Hdf5Truncated`](nc_report::Kind::Hdf5Truncated), and [`Kind::Missing`](nc_report::Kind::Missing). `dumped`: no finding
/// has such a kind exactly if `ncdump` prints the whole file: the dump of all values ends with the whole text.
///
/// `missing`: in a file whose header can be read, values are found to be missing exactly if the dump of all values ends at a missing value.
///
/// `holds`: no finding has a kind that stops a dump exactly if the file holds a dataset, the one whose text is printed.
///
/// `generated`: and it is so in the report of a file that `ncgen` writes.
pub fn whole_files_hold_datasets()
    ensures dumped { WholeReportsAreDumped }
    ensures missing { MissingValuesStopDumps }
    ensures holds { WholeFilesHoldDatasets }
    ensures generated { GeneratedFilesAreFoundWhole }
{}

/// States two laws of the report of a file that `ncgen` writes, and does nothing. `layouts`: it has no finding at the begins of variables
/// and blocks (the values of a variable that isn't a record variable, or all records), and none at the end of the file.
///
/// `spellings`: it finds no padding that isn't zeros, no list that has its own tag without elements, and no wrong `vsize` of a variable.
pub fn generated_files_are_quiet()
    ensures layouts { GeneratedFilesHaveQuietLayouts }
    ensures spellings { GeneratedFilesHaveQuietSpellings }
{}
