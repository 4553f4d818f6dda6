//! The statement of dimensions.

ghost use Rattle.std.specs.Prelude.{◌≡◌, ◌<◌, false, true};
ghost use Rattle.cdl_statements.specs.code.Contents.{is_unlimited, length_said};
ghost use Rattle.cdl_statements.specs.code.Cutters.{SameText, is_done, offset_of, words};
ghost use Rattle.cdl_statements.specs.code.DueTokens.{completes};
ghost use Rattle.cdl_statements.specs.code.Views.{lexeme_of};
ghost use Rattle.cdl_statements.specs.declared.due.Due.TheVariants.{DimensionName};
ghost use Rattle.cdl_values.specs.code.Answers.{Leaves};
ghost use Rattle.cdl_parse.specs.code.DimensionLengths.{IsLength};
ghost use Rattle.cdl_parse.specs.code.DimensionNames.{with_new_dim};
ghost use Rattle.cdl_parse.specs.code.DimensionStatements.{BeginsWith, dim_read, dims_read};

use crate::dimension::dim_len;
use crate::dimensions::Dimensions;
use crate::taken_name::duplicate_name_or;
use cdl_statements::{CdlKind, Cutter, Lexeme};
use cdl_values::{ReadError, number_or_zero, read_name};
use nc_base::{Dim, Sequence, Version};
use std::alloc::Global;

/// The next dimension of a statement: the tokens of its name and its length, and what comes after them.
#[derive(Clone, Copy)]
struct NextDimension<'a> {
    name: Lexeme<'a>,
    length: Lexeme<'a>,
    rest: Cutter<'a>,
    /// True if the dimension is the last of its statement.
    ends: bool,
}

/// Reads the dimensions of a statement, which are joined by commas, and adds them to `dims`. `start` is at the name of the first one. Needs
/// tokens in the order of such a statement, which isn't checked here.
///
/// A dimension is a name, `=` and a length, which is `unlimited` for the record dimension (the CDL chapter of the NetCDF User's Guide, "CDL
/// Syntax", and ncgen(1)).
///
/// # Errors
///
/// The first of these faults: a name that the format doesn't allow (`BadName`); the name of another dimension (`DuplicateName`); a length
/// of 0 (`ZeroDimension`), or one that is negative or too great for the version (`NumberRange`); a second record dimension
/// (`TwoRecordDims`). Or an allocation failed. In each case some of the dimensions may have been added.
pub fn read_dimensions(
    alloc: Global,
    dims: &mut Dimensions,
    start: Cutter<'_>,
) -> Result<(), ReadError>
    requires more { is_done start ≡ false }
    requires shaped { completes DimensionName (words start) ≡ true }
    ensures { Leaves dims.new result (dims_read start.entry dims.old) }
{
    let version = start.version();
    let mut cutter = start;
    'dimensions: loop {
        let next = next_dimension(cutter);
        add_dimension(alloc, dims, version, next.name, next.length)?;
        if next.ends {
            return Ok(());
        }
        cutter = next.rest;
    }
}

/// Returns the tokens of the next dimension of a statement, those of its name and its length; a cutter (a cursor in the text) after the
/// comma or semicolon that follows; and whether the statement ends there. `start` is at the dimension's name. Needs tokens in the order of
/// such a statement, which isn't checked here.
fn next_dimension(start: Cutter<'_>) -> NextDimension<'_>
    requires more { is_done start ≡ false }
    requires shaped { completes DimensionName (words start) ≡ true }
    ensures same { SameText start.entry result.rest }
    ensures said { BeginsWith start.entry result }
    ensures moves { result.ends ≡ false → offset_of start.entry < offset_of result.rest }
    ensures goes { result.ends ≡ false → is_done result.rest ≡ false }
    ensures shaped { result.ends ≡ false → completes DimensionName (words result.rest) ≡ true }
{
    let (equals, _) = start.advanced();
    let (length, _) = equals.advanced();
    let (separator, _) = length.advanced();
    let (rest, ends) = separator.advanced();
    NextDimension {
        name: start.lexeme(),
        length: length.lexeme(),
        rest,
        ends,
    }
}

/// Adds a dimension at the end of `dims`. `name` and `length` are the tokens of its name and its length; `version` limits the length. Errs
/// with a fault of the name (`BadName`, `DuplicateName`), otherwise with a fault of the length (`ZeroDimension`, `NumberRange`,
/// `TwoRecordDims`), or if an allocation failed. After any error `dims` is what it was, but no clause says so.
#[tactic(auto, using(crate::proofs::DimensionReads::dimension_reads))]
fn add_dimension(
    alloc: Global,
    dims: &mut Dimensions,
    version: Version,
    name: Lexeme<'_>,
    length: Lexeme<'_>,
) -> Result<(), ReadError>
    ensures { Leaves dims.new result (dim_read version name.entry length.entry dims.old) }
{
    let name = read_name(alloc, name.bytes)?;
    match len_said(version, dims.has_record(), length) {
        Ok(len) => add_named_dimension(alloc, dims, name, len),
        Err(kind) => {
            let is_taken = dims.has_name(name.as_slice());
            Err(duplicate_name_or(is_taken, ReadError::Fault(kind)))
        }
    }
}

/// Returns the length that the token `length` says, or 0 for `unlimited` or `UNLIMITED`. A number that `version` doesn't have counts as 0.
/// `has_record` is true if there is a record dimension already. Errs with `ZeroDimension` if the number is 0, with `NumberRange` if it is
/// negative or too great for the version, and with `TwoRecordDims` for the record dimension if `has_record`.
fn len_said(version: Version, has_record: bool, length: Lexeme<'_>) -> Result<u64, CdlKind>
    ensures { IsLength version has_record (length_said version (lexeme_of length.entry)) result }
{
    if is_unlimited(length) {
        return dim_len(version, has_record, None);
    }
    dim_len(
        version,
        has_record,
        Some(number_or_zero(version, length.bytes)),
    )
}

/// Returns true if the token is the length of the record dimension: `unlimited` or `UNLIMITED`.
fn is_unlimited(length: Lexeme<'_>) -> bool
    ensures { result ≡ is_unlimited (lexeme_of length.entry) }
{
    length.is_word(b"unlimited") || length.is_word(b"UNLIMITED")
}

/// Adds the dimension of this name and length at the end of `dims`. [`add_dimension`] calls it after it has read both from their tokens.
///
/// # Errors
///
/// Another dimension has the name (`DuplicateName`), or an allocation failed. In both cases `dims` is what it was, but no clause says so.
fn add_named_dimension(
    alloc: Global,
    dims: &mut Dimensions,
    name: Vec<u8>,
    len: u64,
) -> Result<(), ReadError>
    ensures { Leaves dims.new result (with_new_dim dims.old name.items len) }
{
    let dim = Dim {
        name: Sequence::from_vec(name),
        len,
    };
    if !dims.add(alloc, dim)? {
        return Err(ReadError::Fault(CdlKind::DuplicateName));
    }
    Ok(())
}
