//! Laws of the definitions, each the contract of a function that does nothing.
//!
//! "A text can declare a dataset" stands for `IsSayable`, "a text means a dataset" for `meaning`, and "a full dump" for a dump of all
//! values under a valid name. A "good" dataset (`IsGood`) has begins of 0, and a file can hold it unless a variable would begin at too
//! great an offset. The NULs at the end of attributes are those of attributes of characters.

ghost use Rattle.nc_types.specs.declared.version.Version.{Version};
ghost use Rattle.cdl_laws.specs.Goods.{MeaningsAreGood, MeaningsAreNearlySayable, NearlyIsSayable};
ghost use Rattle.cdl_laws.specs.Limits.{LimitsMakeMeant, LimitsMakeSound};
ghost use Rattle.cdl_laws.specs.PieceLaws.{PiecesAreStatements, MarksReadBack, DimensionsReadBack, DeclarationsReadBack, AttributesReadBack, GlobalAttributesReadBack, DataReadsBack};
ghost use Rattle.cdl_laws.specs.RoundTrip.{DumpsTellDatasetsApart, TextReadsBack};
ghost use Rattle.cdl_laws.specs.RowLaws.{RowsReadBack, EmptyRowsReadBack};
ghost use Rattle.cdl_laws.specs.TokenLaws.{BlanksAndMarksStop, NamesReadBack, StringsReadBack, ConstantsReadBack, ValuesReadBack, StringsStandForBytes};
ghost use Rattle.cdl_laws.specs.Trims.{FillValueSurvivesTrim, MeaningsAreSayable, MeaningsComeBack, SecondTripIsSame, TrimmedIsSayable, TrimsOnce};

/// States laws of tokens, and does nothing. What a dump prints of a name, a string or a number is read as one token, of exactly the printed
/// bytes, and that token says what was printed.
///
/// - `names`: a valid name, escaped, is one word, which is neither reserved nor a section mark, and stands for the name. Nothing that
///   continues a word may follow.
/// - `strings`: bytes, escaped and put between quotes, are one string, which stands for the bytes. Anything may follow.
/// - `constants`: a number in the range of its type, with the suffix of the type, as an attribute has it, is one number token, of this
///   number and this type. The version has to have the type, and nothing that continues a number may follow.
/// - `values`: such a number without a suffix, as a variable has it, is one number token of this number and of type `int`, under the same
///   two conditions.
/// - `stops`: white space and marks continue neither a word nor a number. In a dump one of them follows each word and each number.
pub fn token_reads_back()
    ensures names { NamesReadBack }
    ensures strings { StringsReadBack }
    ensures constants { ConstantsReadBack }
    ensures values { ValuesReadBack }
    ensures stops { BlanksAndMarksStop }
{}

/// States a law, and does nothing: if a token of a text is a string, each character between its quotes (a byte that stands for itself, or
/// an escape) stands for a byte. So no caller of the scanner has to check that: a string with an escape that stands for no byte, such as
/// `\400`, is a bad token instead.
#[tactic(auto, using(crate::proofs::TextTokens::strings_stand_for_bytes))]
pub fn strings_stand_for_bytes()
    ensures { StringsStandForBytes }
{}

/// States laws of pieces, and does nothing. A piece is a part that a text is cut into, such as a statement. If a text can declare a dataset
/// (`IsSayable`), then each of these parts of its dump is one piece, whatever follows: the line of a dimension, the declaration of a
/// variable, the line of an attribute, and the text of a variable's values. This piece is the statement that declares the dimension or the
/// variable, gives the attribute without NULs at the end of its characters, or lists the values of [`row_reads_back`].
///
/// `marks`: the first line, the section marks and the last line of a dump are pieces, too, but not the comment before the global
/// attributes.
///
/// `pieces`: the lexemes of any text (its tokens without their places) are cut into the same pieces as its tokens.
pub fn piece_reads_back()
    ensures pieces { PiecesAreStatements }
    ensures marks { (v : Version) → MarksReadBack v }
    ensures dimensions { DimensionsReadBack }
    ensures declarations { DeclarationsReadBack }
    ensures attributes { AttributesReadBack }
    ensures global_attributes { GlobalAttributesReadBack }
    ensures values { DataReadsBack }
{}

/// States two laws, and does nothing. `rows`: if a text can declare a dataset (`IsSayable`), then in the dump of the dataset, at any width,
/// the text of the values of a variable that has some is a statement that lists values. These values, given to the variable one after the
/// other and filled up with the fill value, are the variable's array. The array of a record variable needs no filling up.
///
/// `empty`: the array of a variable without values, which has no such text, is empty.
#[tactic(auto, using(crate::proofs::RowsRead::rows_read_back, crate::proofs::RowsRead::empty_rows_read_back))]
pub fn row_reads_back()
    ensures rows { RowsReadBack }
    ensures empty { EmptyRowsReadBack }
{}

/// States a law, and does nothing: if a text can declare a dataset (`IsSayable`), then its full dump (of all values, under a valid name),
/// at any width, means in the dataset's version this dataset without the NULs at the end of its attributes of characters.
#[tactic(auto, using(crate::proofs::TextReadsBack::text_reads_back))]
pub fn text_reads_back()
    ensures { TextReadsBack }
{}

/// States a law, and does nothing: if a text can declare each of two datasets of one version, and their full dumps (of all values, under a
/// valid name) are the same text, then the two are the same without the NULs at the end of their attributes of characters. The two dumps
/// may have different widths.
#[tactic(auto, using(crate::proofs::TextReadsBack::text_reads_back))]
pub fn dumps_tell_datasets_apart()
    ensures { DumpsTellDatasetsApart }
{}

/// States a law, and does nothing: if a text means a dataset, then this dataset is good (it keeps the format's rules and this project's
/// limits, and each begin is 0), and of the version that was asked for.
pub fn meanings_are_good()
    ensures { MeaningsAreGood }
{}

/// States two laws, and does nothing. Where no statement of a text has a fault, only a limit keeps the text from meaning the dataset that it
/// declares.
///
/// `sound`: if the version can count the records of this dataset and what each of its lists has (dimensions, attributes and variables, the
/// dimensions and attributes of a variable, the bytes of a name, the values of an attribute), and each slab and the record keep this
/// project's limits, then its header is sound. So lengths of dimensions, shapes, types and the values of attributes are never the reason
/// why a header isn't.
///
/// `meant`: if the array of each variable keeps its limit, too, then the text means this dataset.
#[tactic(auto, using(crate::proofs::WithinLimits::limits_make_sound, crate::proofs::WithinLimits::limits_make_meant))]
pub fn only_limits_refuse()
    ensures sound { LimitsMakeSound }
    ensures meant { LimitsMakeMeant }
{}

/// States a law, and does nothing: if a text means a dataset, then this dataset is good. No two of its dimensions, of its variables, of its
/// own attributes, or of the attributes of one variable have the same name. Each attribute of numbers has a value. If there is no record
/// variable, the number of records is 0.
///
/// Such a dataset is nearly sayable. A sayable dataset (`IsSayable`), which a text can declare, is all this, and the fill value of each
/// variable of characters stays the same without the NULs at the end of its attributes.
pub fn meanings_are_nearly_sayable()
    ensures { MeaningsAreNearlySayable }
{}

/// States a law, and does nothing: if a dataset is nearly sayable, as [`meanings_are_nearly_sayable`] explains, and the fill value of each
/// variable of characters stays the same without the NULs at the end of its attributes, then the dataset is sayable: a text can declare it.
pub fn nearly_is_sayable()
    ensures { NearlyIsSayable }
{}

/// States a law, and does nothing: the fill value of a variable of characters stays the same without the NULs at the end of its attributes,
/// except in one case: its first attribute named `_FillValue` is one character other than NUL, and then one or more NULs. Only without
/// these NULs is it a single value, and so the fill value.
#[tactic(auto, using(crate::proofs::Trimmed::fill_value_survives_trim))]
pub fn fill_value_survives_trim()
    ensures { FillValueSurvivesTrim }
{}

/// States a law, and does nothing: if a text means a dataset, then a text can declare this dataset (in the sense of `IsSayable`) if and
/// only if none of its variables of characters is in the one case that [`fill_value_survives_trim`] excepts.
pub fn meanings_are_sayable()
    ensures { MeaningsAreSayable }
{}

/// States a law, and does nothing: if a dataset has lost the NULs at the end of its attributes of characters, losing them again changes
/// nothing.
#[tactic(auto, using(crate::proofs::Trimmed::trims_once))]
pub fn trims_once()
    ensures { TrimsOnce }
{}

/// States a law, and does nothing: if a text can declare a dataset (`IsSayable`), then a text can also declare it without the NULs at the
/// end of its attributes of characters.
pub fn trimmed_is_sayable()
    ensures { TrimmedIsSayable }
{}

/// States a law, and does nothing. If a text can declare a dataset (`IsSayable`), then its full dump (of all values, under a valid name)
/// means a second dataset, which is the first without the NULs at the end of its attributes of characters. The full dump of the second
/// dataset means the second dataset again: a second trip, from dataset to text and back, changes nothing. The two dumps may have different
/// names and widths.
#[tactic(auto, using(crate::proofs::TextReadsBack::text_reads_back, crate::proofs::Trimmed::trimmed_is_sayable, crate::proofs::Trimmed::trims_once))]
pub fn second_trip_is_same()
    ensures { SecondTripIsSame }
{}

/// States a law, and does nothing. If a text means a dataset that a text can declare (`IsSayable`), then the full dump of this dataset (of
/// all values, under a valid name) means a second dataset. The full dump of the second dataset means the second dataset again. This is
/// [`second_trip_is_same`] for a dataset that a text means.
pub fn meanings_come_back()
    ensures { MeaningsComeBack }
{}
