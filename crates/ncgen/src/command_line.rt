//! The words of the command line.

ghost use Rattle.std.specs.Prelude.{◌≡◌, ◌++◌, IfOk, codes, option_map, string_bytes};
ghost use Rattle.cli_base.specs.code.Answers.{AnswersBy, text_of};
ghost use Rattle.cli_base.specs.Arguments.{texts_of};
ghost use Rattle.clap.specs.Words.{app_of, found_of, rows_of};
ghost use Rattle.nc_base.specs.Paths.{stem_of};
ghost use Rattle.ncgen.specs.CommandLine.{asked_by, asked_in, ncgen, version_in, version_of};
ghost use Rattle.ncgen.specs.code.Options.{asked_for, is_unnamed, IsOutputIn};

use crate::options::GenOptions;
use clap::{Arg, ArgMatches, Command};
use cli_base::{OptFault, flag, is_given, option, value_of};
use nc_base::{Version, stem};
use std::alloc::{AllocError, Global};

/// Returns the command `ncgen [-b] [-o file] [-k kind] [file]` of ncgen(1).
///
/// The command takes each option at most once, before the file or after it. [`options_of`] reads the matches of the command.
///
/// # Errors
///
/// An allocation failed.
pub fn command<'a>(alloc: Global) -> Result<Command<'a>, AllocError>
    ensures { IfOk result (λ command. app_of command ≡ ncgen) }
{
    Command::new(alloc, "ncgen")
        .disable_help_flag(true)
        .disable_version_flag(true)
        .arg(flag(alloc, "binary", 'b'))?
        .arg(option(alloc, "output", 'o'))?
        .arg(option(alloc, "kind", 'k'))?
        .arg(Arg::new(alloc, "file"))
}

/// Returns the options that the words of a command line ask for. The first word is the program's name.
///
/// # Errors
///
/// Those of [`options_of`], also if an allocation fails here, and [`OptFault::Usage`] for words that the command doesn't take.
pub(crate) fn options_of_words(alloc: Global, words: &[&str]) -> Result<GenOptions, OptFault>
    ensures { AnswersBy asked_for (asked_by (texts_of words.now)) result }
{
    let matches = command(alloc)?.try_get_matches_from(words)?;
    options_of(alloc, &matches)
}

/// Returns the options that the matches of [`command`] ask for.
///
/// The output's path is the value of `-o`. With `-b` but not `-o`, the output is in the current folder, and its name is the [`stem`] of the
/// text's path and `.nc`. Without both options no file is written. Without `-k` the version is CDF-1.
///
/// # Errors
///
/// [`OptFault::Usage`] if the value of `-k` names no version, or if `-b` is given without `-o` and without a path of the text.
/// [`OptFault::OutOfMemory`] only if an allocation failed.
#[tactic(auto, unfolding(crate::specs::CommandLine::asked_in))]
pub fn options_of(alloc: Global, matches: &ArgMatches) -> Result<GenOptions, OptFault>
    ensures { AnswersBy asked_for (asked_in (rows_of (found_of matches.now))) result }
{
    let is_binary = is_given(matches, "binary");
    let output = value_of(matches, "output");
    let file = value_of(matches, "file");
    if is_unnamed(is_binary, output, file) {
        return Err(OptFault::Usage);
    }
    let kind = version_in(value_of(matches, "kind")).ok_or(OptFault::Usage)?;
    Ok(GenOptions {
        kind,
        out: output_in(alloc, is_binary, output, file)?,
        file: copy_path(alloc, file)?,
    })
}

/// Returns true if `-b` asks for an output (`is_binary`) but nothing names it: neither `output`, the value of `-o`, nor `file`, the path of
/// the text, is given.
fn is_unnamed(is_binary: bool, output: Option<&str>, file: Option<&str>) -> bool
    ensures { result ≡ is_unnamed is_binary (text_of output.entry) (text_of file.entry) }
{
    is_binary && output.is_none() && file.is_none()
}

/// Returns the path of the output: `output`, the value of `-o`, if that is given; otherwise, if `-b` is given (`is_binary`), the name that
/// [`output_name`] makes of `file`, the text's path. Returns `None` if neither gives a path. Errs only if an allocation failed.
fn output_in(
    alloc: Global,
    is_binary: bool,
    output: Option<&str>,
    file: Option<&str>,
) -> Result<Option<String>, AllocError>
    ensures { IfOk result (IsOutputIn is_binary (text_of output.entry) (text_of file.entry)) }
{
    match (output, file) {
        (Some(path), _) => Ok(Some(String::from_str(alloc, path)?)),
        (None, Some(path)) if is_binary => Ok(Some(output_name(alloc, path)?)),
        _ => Ok(None),
    }
}

/// Returns the name of the output for the text at this path: the stem of the path and `.nc`. Errs only if an allocation failed.
fn output_name(alloc: Global, path: &str) -> Result<String, AllocError>
    ensures { IfOk result (λ name. string_bytes name ≡ stem_of path.now ++ codes ".nc") }
{
    let mut name = String::from_str(alloc, stem(path))?;
    name.push_str(".nc")?;
    Ok(name)
}

/// Returns a copy of `path`, that of the CDL text, or `None` if no path is given: the text is then read from standard input.
/// Errs only if an allocation failed.
fn copy_path(alloc: Global, path: Option<&str>) -> Result<Option<String>, AllocError>
    ensures { IfOk result (λ copy. option_map string_bytes copy ≡ text_of path.entry) }
{
    match path {
        Some(path) => Ok(Some(String::from_str(alloc, path)?)),
        None => Ok(None),
    }
}

/// Returns the version that `word`, the value of `-k`, names, or CDF-1 if there is no word. Returns `None` if the word names no version.
fn version_in(word: Option<&str>) -> Option<Version>
    ensures { result ≡ version_in (text_of word.entry) }
{
    match word {
        Some(word) => version_of(word),
        None => Some(Version::Cdf1),
    }
}

/// Returns the version that `word`, a value of `-k`, names: CDF-1 for `classic` or `nc3`, CDF-2 for `64-bit offset` or `nc6`, and CDF-5 for
/// `64-bit data` or `nc5`. Returns `None` for any other word.
fn version_of(word: &str) -> Option<Version>
    ensures { result ≡ version_of word.now }
{
    if word == "classic" || word == "nc3" {
        Some(Version::Cdf1)
    } else if word == "64-bit offset" || word == "nc6" {
        Some(Version::Cdf2)
    } else if word == "64-bit data" || word == "nc5" {
        Some(Version::Cdf5)
    } else {
        None
    }
}
