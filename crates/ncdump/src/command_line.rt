//! The words of the command line.

ghost use Rattle.std.specs.Prelude.{◌≡◌, IfOk, option_map, unwrap_or};
ghost use Rattle.std.specs.Char.{is_ascii_digit};
ghost use Rattle.std.specs.Int.{is_in_range};
ghost use Rattle.std.specs.List.{list_all};
ghost use Rattle.clap.specs.Words.{app_of, found_of, rows_of};
ghost use Rattle.nc_base.specs.Paths.{stem_of};
ghost use Rattle.cli_base.specs.code.Answers.{AnswersBy, text_of};
ghost use Rattle.cli_base.specs.Arguments.{texts_of};
ghost use Rattle.ncdump.specs.CommandLine.{ncdump, asked_by, asked_in, names_in, width_in, width_said};
ghost use Rattle.ncdump.specs.code.Options.{asked_for};

use crate::options::DumpOptions;
use clap::{Arg, ArgMatches, Command};
use cli_base::{OptFault, copy_bytes, flag, is_given, option, value_of};
use nc_base::{Sequence, stem};
use std::alloc::{AllocError, Global};

/// Returns the command `ncdump [-h] [-c] [-v names] [-n name] [-l width] file` of ncdump(1).
///
/// The command takes each option at most once, before the file or after it. [`options_of`] reads the matches of the command.
///
/// # Errors
///
/// An allocation failed.
pub fn command<'a>(alloc: Global) -> Result<Command<'a>, AllocError>
    ensures { IfOk result (λ command. app_of command ≡ ncdump) }
{
    Command::new(alloc, "ncdump")
        .disable_help_flag(true)
        .disable_version_flag(true)
        .arg(flag(alloc, "head", 'h'))?
        .arg(flag(alloc, "coords", 'c'))?
        .arg(option(alloc, "names", 'v'))?
        .arg(option(alloc, "name", 'n'))?
        .arg(option(alloc, "width", 'l'))?
        .arg(Arg::new(alloc, "file"))
}

/// Returns the options that the words of a command line ask for. The first word is the program's name.
///
/// # Errors
///
/// Those of [`options_of`], also if an allocation fails here, and [`OptFault::Usage`] for words that the command doesn't take.
pub(crate) fn options_of_words(alloc: Global, words: &[&str]) -> Result<DumpOptions, OptFault>
    ensures { AnswersBy asked_for (asked_by (texts_of words.now)) result }
{
    let matches = command(alloc)?.try_get_matches_from(words)?;
    options_of(alloc, &matches)
}

/// Returns the options that the matches of [`command`] ask for. [`DumpOptions`] says which field each option gives.
///
/// Without `-n` the name is the [`stem`] of the path. The chosen names are the parts of the value of `-v` between its commas, also
/// empty ones. Without `-l` the width is 80 bytes.
///
/// # Errors
///
/// [`OptFault::Usage`] if no file is named, if both `-c` and `-h` are given, or if the value of `-l` isn't of decimal digits alone or
/// isn't from 20 to 1000. [`OptFault::OutOfMemory`] only if an allocation failed.
#[tactic(auto, unfolding(crate::specs::CommandLine::asked_in))]
pub fn options_of(alloc: Global, matches: &ArgMatches) -> Result<DumpOptions, OptFault>
    ensures { AnswersBy asked_for (asked_in (rows_of (found_of matches.now))) result }
{
    let head_only = is_given(matches, "head");
    let coords = is_given(matches, "coords");
    if head_only && coords {
        return Err(OptFault::Usage);
    }
    let path = value_of(matches, "file").ok_or(OptFault::Usage)?;
    let width = width_in(value_of(matches, "width")).ok_or(OptFault::Usage)?;
    Ok(DumpOptions {
        file: String::from_str(alloc, path)?,
        name: dataset_name(alloc, value_of(matches, "name"), path)?,
        head_only,
        coords,
        chosen: names_if_given(alloc, value_of(matches, "names"))?,
        width,
    })
}

/// The width of a line without `-l`, in bytes.
const DEFAULT_WIDTH: usize = 80;

/// The least width that `-l` takes, in bytes.
const MIN_WIDTH: usize = 20;

/// The greatest width that `-l` takes, in bytes.
const MAX_WIDTH: usize = 1000;

/// Returns the width that `word`, the value of `-l`, asks for, or 80 bytes if there is no word. Returns `None` if the word is no width
/// that `-l` takes.
fn width_in(word: Option<&str>) -> Option<usize>
    ensures { result ≡ width_in (text_of word.entry) }
{
    match word {
        Some(word) => width_of(word),
        None => Some(DEFAULT_WIDTH),
    }
}

/// Returns the width that `word`, the value of `-l`, says, or `None` if it isn't of decimal digits alone or isn't from 20 to 1000.
fn width_of(word: &str) -> Option<usize>
    ensures { result ≡ width_said word.now }
{
    if !has_only_digits(word) {
        return None;
    }
    let width = word.parse().ok()?;
    is_width(width).then_some(width)
}

/// Returns true if `-l` takes `width`, that is, if it is from 20 to 1000.
fn is_width(width: usize) -> bool
    ensures { result ≡ is_in_range 20 1000 width }
{
    MIN_WIDTH <= width && width <= MAX_WIDTH
}

/// Returns true if the word is of decimal digits alone, or empty.
fn has_only_digits(word: &str) -> bool
    ensures { result ≡ list_all is_ascii_digit word.now }
{
    word.as_bytes().iter().all(|byte| byte.is_ascii_digit())
}

/// Returns the name that the dump gives the dataset: a copy of `word`, the value of `-n`, or of the [`stem`] of the file's path if there is
/// no word. Errs only if an allocation failed.
fn dataset_name(alloc: Global, word: Option<&str>, path: &str) -> Result<Sequence<u8>, AllocError>
    ensures { IfOk result (λ name. name ≡ unwrap_or (text_of word.entry) (stem_of path.now)) }
{
    copy_bytes(alloc, word.unwrap_or(stem(path)))
}

/// Returns the names in `word`, the value of `-v`. If there is no `-v`, returns `None`, which allows all names. Errs only if an allocation
/// failed.
fn names_if_given(
    alloc: Global,
    word: Option<&str>,
) -> Result<Option<Sequence<Sequence<u8>>>, AllocError>
    ensures { IfOk result (λ chosen. chosen ≡ option_map names_in (text_of word.entry)) }
{
    word.map(|word| names_in(alloc, word)).transpose()
}

/// Returns the names in `word`, the value of `-v`: its parts between the commas, also empty ones. Errs only if an allocation failed.
fn names_in(alloc: Global, word: &str) -> Result<Sequence<Sequence<u8>>, AllocError>
    ensures { IfOk result (λ names. names ≡ names_in word.now) }
{
    let mut names = Sequence::new(alloc);
    for name in word.split(',') {
        names.push(copy_bytes(alloc, name)?)?;
    }
    Ok(names)
}
