//! The words of the command line.

ghost use Rattle.std.specs.Prelude.{◌≡◌, ℕ, ◌==◌, false, IfOk};
ghost use Rattle.std.specs.List.{slice_split};
ghost use Rattle.std.specs.Str.{byte};
ghost use Rattle.clap.specs.Words.{all_of, app_of, found_of, rows_of, rule_of};
ghost use Rattle.cli_base.specs.Arguments.{texts_of};
ghost use Rattle.cli_base.specs.code.Answers.{text_of};
ghost use Rattle.check_options.specs.CommandLine.{asked_by, asked_in, asks_of_findings, changes_output, files_in, files_rule, form_in, ignored_in, kind_said, kinds_said, level_in, level_said, nccheck};
ghost use Rattle.check_options.specs.Misuse.{misuse_in};
ghost use Rattle.check_options.specs.code.Misuses.{RefusesBy, Says};
ghost use Rattle.check_options.specs.code.Options.{asked_for, lent_texts, texts_in};

use crate::kind_words::kind_named;
use crate::misuse::{CommandFault, Misuse, misuse_in};
use crate::options::{CheckOptions, Form};
use clap::error::ErrorKind;
use clap::{Arg, ArgAction, ArgMatches, Command};
use cli_base::{flag, is_given, option, value_of};
use nc_base::Sequence;
use nc_findings::{Filter, Kind, Severity};
use std::alloc::{AllocError, Global};

/// Returns the command `nccheck [-q] [-s] [-j] [-p] [-k] [-0] [-l level] [-i kinds] [file ...]` of nccheck(1).
///
/// The command takes each option at most once, before, between or after the files. [`options_of`] reads the matches of the command.
///
/// # Errors
///
/// An allocation failed.
pub fn command<'a>(alloc: Global) -> Result<Command<'a>, AllocError>
    ensures { IfOk result (λ command. app_of command ≡ nccheck) }
{
    Command::new(alloc, "nccheck")
        .disable_help_flag(true)
        .disable_version_flag(true)
        .arg(flag(alloc, "quiet", 'q'))?
        .arg(flag(alloc, "summary", 's'))?
        .arg(flag(alloc, "objects", 'j'))?
        .arg(flag(alloc, "paths", 'p'))?
        .arg(flag(alloc, "formats", 'k'))?
        .arg(flag(alloc, "list", '0'))?
        .arg(option(alloc, "level", 'l'))?
        .arg(option(alloc, "ignored", 'i'))?
        .arg(files(alloc))
}

/// Returns the argument `file ...` of the command: it takes any number of words, each the path of a file, and isn't given to subcommands.
fn files<'a>(alloc: Global) -> Arg<'a>
    ensures rule { rule_of result ≡ files_rule }
    ensures local { result.global ≡ false }
{
    Arg::new(alloc, "file").action(ArgAction::Append)
}

/// Returns the options that the words of a command line ask for. The first word is the program's name.
///
/// # Errors
///
/// Those of [`options_of`], also if an allocation fails here, and the misuse of words that the command doesn't take.
pub fn options_of_words<'a>(
    alloc: Global,
    words: &'a [&'a str],
) -> Result<CheckOptions<'a>, CommandFault<'a>>
    ensures { Says asked_for (asked_by (texts_of words.entry.now)) result }
{
    match command(alloc)?.try_get_matches_from(words) {
        Ok(matches) => options_of(alloc, &matches),
        Err(error) => Err(refusal(error.kind(), words)),
    }
}

/// Returns the fault of words that the command doesn't take, by the kind of the parse's error: out of memory, or how they are misused.
fn refusal<'a>(kind: ErrorKind, words: &[&'a str]) -> CommandFault<'a>
    ensures { RefusesBy kind (misuse_in (texts_of words.now)) result }
{
    match kind {
        ErrorKind::OutOfMemory => CommandFault::OutOfMemory,
        _ => CommandFault::Misused(misuse_in(words)),
    }
}

/// Returns the options that the matches of [`command`] ask for. [`CheckOptions`] says which field each option gives. Without `-l`,
/// violations and errors are reported, and without `-i`, findings of all kinds.
///
/// # Errors
///
/// A misuse if `-q`, `-s` or `-j` stands beside `-p`, or any option but `-0` beside `-k`, if the value of `-l` isn't `error`, `violation`
/// or `note`, if a part of the value of `-i` between its commas isn't the word of a kind, or if no file is named and `-0` isn't given.
/// [`CommandFault::OutOfMemory`] only if an allocation failed.
#[tactic(auto, unfolding(crate::specs::CommandLine::asked_in))]
pub fn options_of<'a>(
    alloc: Global,
    matches: &ArgMatches<'a>,
) -> Result<CheckOptions<'a>, CommandFault<'a>>
    ensures { Says asked_for (asked_in (rows_of (found_of matches.now))) result }
{
    if is_given(matches, "formats") && asks_of_findings(matches) {
        return Err(Misuse::NotWithFormats.into());
    }
    if is_given(matches, "paths") && changes_output(matches) {
        return Err(Misuse::NotWithPaths.into());
    }
    let level = level_in(value_of(matches, "level"))?;
    let ignored = ignored_in(alloc, value_of(matches, "ignored"))?;
    let reads_paths_from_input = is_given(matches, "list");
    let files = files_in(reads_paths_from_input, values_of(matches, "file"))?;
    Ok(CheckOptions {
        files: Sequence::from_vec(Vec::from_slice(alloc, files)?),
        reads_paths_from_input,
        tells_formats: is_given(matches, "formats"),
        filter: Filter { level, ignored },
        form: form_in(matches),
        is_quiet: is_given(matches, "quiet"),
        has_summary: is_given(matches, "summary"),
    })
}

/// Returns how findings are to be written.
fn form_in(matches: &ArgMatches) -> Form
    ensures { result ≡ form_in (rows_of (found_of matches.now)) }
{
    if is_given(matches, "paths") {
        Form::Paths
    } else if is_given(matches, "objects") {
        Form::Objects
    } else {
        Form::Lines
    }
}

/// Returns true if an option is given that can't stand beside `-p`, since it asks for another output.
fn changes_output(matches: &ArgMatches) -> bool
    ensures { result ≡ changes_output (rows_of (found_of matches.now)) }
{
    is_given(matches, "quiet") || is_given(matches, "summary") || is_given(matches, "objects")
}

/// Returns true if an option is given that can't stand beside `-k`, since it asks for something about findings.
fn asks_of_findings(matches: &ArgMatches) -> bool
    ensures { result ≡ asks_of_findings (rows_of (found_of matches.now)) }
{
    changes_output(matches)
        || is_given(matches, "paths")
        || value_of(matches, "level").is_some()
        || value_of(matches, "ignored").is_some()
}

/// Returns the values of the argument with this id, or `None` if it isn't given.
fn values_of<'a, 'b>(matches: &'b ArgMatches<'a>, id: &str) -> Option<&'b [&'a str]>
    ensures { texts_in result ≡ all_of id.now (rows_of (found_of matches.entry.now)) }
{
    matches.get_strs(id)
}

/// Returns `files`, the paths among the words. If there are none (`None`), returns no paths if `reads_paths_from_input` is true, since the
/// paths are on standard input then, and otherwise errs with `NoFile`.
fn files_in<'a, 'b>(
    reads_paths_from_input: bool,
    files: Option<&'b [&'a str]>,
) -> Result<&'b [&'a str], CommandFault<'a>>
    ensures { Says lent_texts (files_in reads_paths_from_input (texts_in files.entry)) result }
{
    match files {
        Some(files) => Ok(files),
        None if reads_paths_from_input => Ok(&[]),
        None => Err(Misuse::NoFile.into()),
    }
}

/// Returns the level that `word`, the value of `-l`, asks for, or `Violation` if there is no `-l`. Errs with `NoLevel` if the word is no
/// level.
fn level_in<'a>(word: Option<&'a str>) -> Result<Severity, CommandFault<'a>>
    ensures { Says (λ level. level) (level_in (text_of word.entry)) result }
{
    match word {
        Some(word) => level_of(word),
        None => Ok(Severity::Violation),
    }
}

/// Returns the severity that `word` names, `error`, `violation` or `note`. Errs with `NoLevel` for any other word.
fn level_of<'a>(word: &'a str) -> Result<Severity, CommandFault<'a>>
    ensures { Says (λ level. level) (level_said word.entry.now) result }
{
    if word == "error" {
        Ok(Severity::Error)
    } else if word == "violation" {
        Ok(Severity::Violation)
    } else if word == "note" {
        Ok(Severity::Note)
    } else {
        Err(Misuse::NoLevel(word).into())
    }
}

/// Returns the kinds that the parts of `word`, the value of `-i`, name, or no kinds if there is no value. Errs with `NoKind` for the first
/// part that names none, and if an allocation failed.
fn ignored_in<'a>(alloc: Global, word: Option<&'a str>) -> Result<Sequence<Kind>, CommandFault<'a>>
    ensures { Says (λ kinds. kinds) (ignored_in (text_of word.entry)) result }
{
    match word {
        Some(word) => kinds_in(alloc, parts_of(alloc, word)?.as_slice()),
        None => Ok(Sequence::new(alloc)),
    }
}

/// Returns the parts of `word` between its commas, also empty ones. Errs only if an allocation failed.
fn parts_of<'a>(alloc: Global, word: &'a str) -> Result<Sequence<&'a str>, AllocError>
    ensures { IfOk result (λ words. texts_of words
        ≡ slice_split (λ (b : ℕ). b == byte ",") word.entry.now) }
{
    Ok(Sequence::from_vec(word.split(',').collect(alloc)?))
}

/// Returns the kinds that these words name. Errs with `NoKind` for the first that names none, and if an allocation failed.
#[tactic(auto, using(crate::proofs::KindLists::kind_lists))]
fn kinds_in<'a>(alloc: Global, words: &[&'a str]) -> Result<Sequence<Kind>, CommandFault<'a>>
    ensures { Says (λ kinds. kinds) (kinds_said (texts_of words.now)) result }
{
    let mut kinds = Sequence::new(alloc);
    for word in words {
        kinds.push(kind_of(word)?)?;
    }
    Ok(kinds)
}

/// Returns the kind that `word` names. Errs with `NoKind` if it names none.
fn kind_of<'a>(word: &'a str) -> Result<Kind, CommandFault<'a>>
    ensures { Says (λ kind. kind) (kind_said word.entry.now) result }
{
    match kind_named(word) {
        Some(kind) => Ok(kind),
        None => Err(Misuse::NoKind(word).into()),
    }
}
