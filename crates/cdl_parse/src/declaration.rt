//! The statement that declares variables.

ghost use Rattle.std.specs.Prelude.{◌≡◌, drop, false, true, IfOk};
ghost use Rattle.cdl_statements.specs.code.Cutters.{is_done, words};
ghost use Rattle.cdl_statements.specs.code.DueTokens.{completes};
ghost use Rattle.cdl_tokens.specs.Escapes.{word_value};
ghost use Rattle.cdl_statements.specs.Lexemes.{is_mark_kind};
ghost use Rattle.cdl_statements.specs.code.Views.{lexeme_of};
ghost use Rattle.cdl_statements.specs.declared.due.Due.TheVariants.{VariableName};
ghost use Rattle.cdl_statements.specs.State.{type_of};
ghost use Rattle.cdl_values.specs.code.Answers.{GivesRead, Leaves};
ghost use Rattle.cdl_parse.specs.code.Declarations.{added, declared_by, first_with_word, is_open_after, next_dimid, with_begun, BeginsVariable, PassesMark, ReadsDimension, ReadsToken};

use crate::dimensions::Dimensions;
use crate::taken_name::duplicate_name_or;
use crate::variables::Variables;
use cdl_statements::{CdlKind, Cutter, Lexeme};
use cdl_tokens::TokenKind;
use cdl_values::{ReadError, name_of_word, read_name};
use nc_base::{NcType, Version, check_name, is_record_dim};
use std::alloc::{AllocError, Global};

/// A variable as far as its declaration is read.
#[derive(Drop)]
struct PartialVariable {
    ty: NcType,
    name: Vec<u8>,
    /// The dimensions that were read so far: their positions in the list of the dataset's dimensions.
    dimids: Vec<u64>,
    /// True if the parenthesis before its dimensions was read, and the one after them wasn't yet.
    is_open: bool,
}

/// Reads a declaration, such as `int a, b(x, y);`, and adds its variables to `variables`. `start` is at its type word, and `dims` are the
/// dimensions of the dataset. Needs tokens in the order of a declaration, which isn't checked here.
///
/// A declaration is a type word and variables joined by commas. A variable is a name alone, or a name and then, in parentheses, the names
/// of the variable's dimensions, joined by commas (the CDL chapter of the NetCDF User's Guide, and ncgen(1)).
///
/// # Errors
///
/// The first fault in the order of the text. A type word has the faults that [`type_of_word`] names. A variable's name has a fault if the
/// format doesn't allow it (`BadName`) or another variable has it (`DuplicateName`). A dimension has a fault if the format doesn't allow
/// its name (`BadName`), if no dimension has that name (`UnknownDimension`), or if it is the record dimension and not the variable's first
/// (`BadShape`).
///
/// Or an allocation failed. In each case some of the variables may have been added.
#[tactic(auto, using(crate::proofs::DeclarationReads::goes_on, crate::proofs::DeclarationReads::typed))]
pub fn read_declaration(
    alloc: Global,
    dims: &Dimensions,
    variables: &mut Variables,
    start: Cutter<'_>,
) -> Result<(), ReadError>
    requires more { is_done start ≡ false }
    requires shaped { completes VariableName (drop 1 (words start)) ≡ true }
    ensures { Leaves variables.new result (declared_by start.entry dims.now variables.old) }
{
    let ty = type_of_word(start.version(), start.lexeme())?;
    let (names, _) = start.advanced();
    read_variables(alloc, dims, variables, ty, names)
}

/// Returns the type that a type word stands for; `long` is another word for int (the CDL chapter of the NetCDF User's Guide, "CDL
/// Data Types").
///
/// # Errors
///
/// The word of a floating type, `float`, `real` or `double` (`FloatingType`); a word that stands for no type of the version
/// (`UnknownType`).
#[tactic(auto, unfolding(cdl_statements::specs::State::type_of))]
pub fn type_of_word(version: Version, word: Lexeme<'_>) -> Result<NcType, CdlKind>
    ensures { result ≡ type_of version (lexeme_of word.entry) }
{
    if word.is_word(b"float") || word.is_word(b"real") || word.is_word(b"double") {
        return Err(CdlKind::FloatingType);
    }
    if word.is_word(b"long") {
        return Ok(NcType::Int);
    }
    first_with_word(&NcType::ALL, version, word).ok_or(CdlKind::UnknownType)
}

/// Returns the first of `types` that the version has and whose word in a text, such as `short`, is `word`; or `None` if there is none.
fn first_with_word(types: &[NcType], version: Version, word: Lexeme<'_>) -> Option<NcType>
    ensures { result ≡ first_with_word types.now version (lexeme_of word.entry) }
{
    types
        .iter()
        .copied()
        .find(|ty| version.has_type(*ty) && word.is_word(ty.word()))
}

/// Reads the variables of a declaration, all of type `ty`, and adds them to `variables`. `start` is at the name of the first one, and
/// `dims` are the dimensions of the dataset. Needs tokens in the order of a declaration, which isn't checked here. Errs with the first
/// fault of a variable's name (`BadName`, `DuplicateName`) or of a dimension (`BadName`, `UnknownDimension`, `BadShape`), or if an
/// allocation failed; then some of the variables may have been added.
fn read_variables(
    alloc: Global,
    dims: &Dimensions,
    variables: &mut Variables,
    ty: NcType,
    start: Cutter<'_>,
) -> Result<(), ReadError>
    requires more { is_done start ≡ false }
    requires shaped { completes VariableName (words start) ≡ true }
    ensures { Leaves variables.new result (added dims.now ty variables.old (words start.entry)) }
{
    let mut begun = new_variable(alloc, ty, start.lexeme())?;
    let (mut cutter, _) = start.advanced();
    'tokens: loop {
        let token = cutter.lexeme();
        let ends = cutter.advance();
        begun = read_on(alloc, dims, variables, begun, token)?;
        if ends {
            return add_variable(alloc, variables, begun);
        }
    }
}

/// Returns a variable of type `ty` without dimensions, with the name that `token` stands for. Needs a token that isn't a mark (one of
/// `: ; = , ( ) }`). Errs if the format doesn't allow the name (`BadName`), or if an allocation failed. A name that another variable has is
/// refused later.
#[tactic(auto, using(cdl_values::proofs::AllowedNames::stopped, crate::proofs::DeclarationReads::begin_fails, crate::proofs::DeclarationReads::begins))]
fn new_variable(alloc: Global, ty: NcType, token: Lexeme<'_>) -> Result<PartialVariable, ReadError>
    requires { is_mark_kind token.kind ≡ false }
    ensures { BeginsVariable ty (lexeme_of token.entry) result }
{
    let name = read_name(alloc, token.bytes)?;
    Ok(PartialVariable {
        ty,
        name,
        dimids: Vec::new(alloc),
        is_open: false,
    })
}

/// Reads one more token of a declaration, and returns the variable that is being read after it; `begun` is the one before it. A mark, such
/// as `(`, only changes `is_open` ([`after_mark`]). A name inside of parentheses is that of one of `dims`, which is added to `begun` at its
/// end. Any other name is that of the next variable: adds `begun` to `variables`, and returns the next variable. Errs with `BadName`,
/// `UnknownDimension`, `BadShape` or `DuplicateName`, or if an allocation failed; then `begun` may have been added.
fn read_on(
    alloc: Global,
    dims: &Dimensions,
    variables: &mut Variables,
    begun: PartialVariable,
    token: Lexeme<'_>,
) -> Result<PartialVariable, ReadError>
    ensures { ReadsToken dims.now variables.old variables.new begun (lexeme_of token.entry) result }
{
    match token.kind {
        TokenKind::Mark => Ok(after_mark(begun, token)),
        _ if begun.is_open => with_dimension(alloc, dims, variables, begun, token.bytes),
        _ => {
            let ty = begun.ty;
            add_variable(alloc, variables, begun)?;
            new_variable(alloc, ty, token)
        }
    }
}

/// Returns the variable `begun` as it is after the token `mark`: `is_open` becomes true at `(` and false at `)`. Nothing else changes.
/// Needs a token that is a mark (one of `: ; = , ( ) }`).
#[tactic(auto, using(crate::proofs::DeclarationReads::after_mark))]
fn after_mark(begun: PartialVariable, mark: Lexeme<'_>) -> PartialVariable
    requires { is_mark_kind mark.kind ≡ true }
    ensures { PassesMark begun (lexeme_of mark.entry) result }
{
    let PartialVariable {
        ty,
        name,
        dimids,
        is_open,
    } = begun;
    PartialVariable {
        ty,
        name,
        dimids,
        is_open: is_open_after(is_open, mark),
    }
}

/// Returns true if a parenthesis is open after `mark`. `is_open` is true if one is open before the mark.
fn is_open_after(is_open: bool, mark: Lexeme<'_>) -> bool
    ensures { result ≡ is_open_after is_open (lexeme_of mark.entry) }
{
    mark.is_mark(b'(') || is_open && !mark.is_mark(b')')
}

/// Returns `begun` with one dimension more at its end, the one of `dims` that `word` names. Needs a `begun` whose parenthesis is open.
///
/// # Errors
///
/// The fault that [`dimid_of_word`] finds (`BadName`, `UnknownDimension`, `BadShape`), or `DuplicateName` instead if one of `variables` has
/// the name of `begun`, since that name comes first in the text. Or an allocation failed. If the dimension has no fault, the name of
/// `begun` isn't looked up here.
#[tactic(auto, using(crate::proofs::DeclarationReads::dimension_fails, crate::proofs::DeclarationReads::dimension_ok))]
fn with_dimension(
    alloc: Global,
    dims: &Dimensions,
    variables: &Variables,
    mut begun: PartialVariable,
    word: &[u8],
) -> Result<PartialVariable, ReadError>
    requires { begun.is_open ≡ true }
    ensures reads { ReadsDimension dims.now variables.now begun word.now result }
    ensures is_open { IfOk result (λ b. b.is_open ≡ true) }
{
    match dimid_of_word(alloc, dims, begun.dimids.as_slice(), word) {
        Ok(dimid) => {
            if let Err(refused) = begun.dimids.push(dimid) {
                return Err(AllocError::from(refused).into());
            }
            Ok(begun)
        }
        Err(e) => Err(duplicate_name_or(variables.has_name(begun.name.as_slice()), e)),
    }
}

/// Returns the position in `dims` of the dimension that `word`, which may have escapes, names. `before` has the positions of the variable's
/// dimensions before this one. Errs with `BadName` if the format doesn't allow the name, with `UnknownDimension` if no dimension has it,
/// with `BadShape` if it is that of the record dimension and `before` isn't empty, or if an allocation failed.
fn dimid_of_word(
    alloc: Global,
    dims: &Dimensions,
    before: &[u64],
    word: &[u8],
) -> Result<u64, ReadError>
    ensures { GivesRead (λ dimid. dimid) result (next_dimid dims.now before.now (word_value word.now)) }
{
    let name = name_of_word(alloc, word)?;
    Ok(next_dimid(dims, before, name.as_slice())?)
}

/// Returns the position in `dims` of the dimension that has this name: its id in the shape of a variable. `before` has the ids of the
/// dimensions that the variable has before this one.
///
/// # Errors
///
/// The format doesn't allow the name (`BadName`); no dimension has the name (`UnknownDimension`); or the dimension is the record dimension,
/// and `before` isn't empty (`BadShape`).
fn next_dimid(dims: &Dimensions, before: &[u64], name: &[u8]) -> Result<u64, CdlKind>
    ensures { result ≡ next_dimid dims.now before.now name.now }
{
    if !check_name(name) {
        return Err(CdlKind::BadName);
    }
    match dims.position(name) {
        Some(dimid) if !before.is_empty() && is_record_dim(dims.as_slice(), dimid) => {
            Err(CdlKind::BadShape)
        }
        Some(dimid) => Ok(dimid),
        None => Err(CdlKind::UnknownDimension),
    }
}

/// Adds the variable `begun`, which has to have all of its dimensions by now (but no clause says so), at the end of `variables`.
///
/// # Errors
///
/// Another variable has the name (`DuplicateName`), or an allocation failed. In both cases `variables` is what it was, but no clause says
/// so.
fn add_variable(
    alloc: Global,
    variables: &mut Variables,
    begun: PartialVariable,
) -> Result<(), ReadError>
    ensures { Leaves variables.new result (with_begun variables.old begun) }
{
    let PartialVariable {
        ty,
        name,
        dimids,
        is_open: _,
    } = begun;
    if !variables.add(alloc, name, dimids, ty)? {
        return Err(ReadError::Fault(CdlKind::DuplicateName));
    }
    Ok(())
}
