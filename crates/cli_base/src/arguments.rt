//! The options of a command, and the values that its matches have for them.

ghost use Rattle.std.specs.Prelude.{◌≡◌, [], ◌∷◌, false, IfOk};
ghost use Rattle.clap.specs.Words.{found_of, first_of, rows_of, rule_of};
ghost use Rattle.cli_base.specs.Arguments.{flag, is_given, option};
ghost use Rattle.cli_base.specs.code.Answers.{text_of};

use clap::{Arg, ArgAction, ArgMatches};
use nc_types::Sequence;
use std::alloc::{AllocError, Global};

/// Returns an option that takes no value, such as `-h` for the letter `h`, for one command and not for subcommands (clause `local`).
/// [`is_given`] finds it by `id`, the name that the program has for it.
pub fn flag<'a>(alloc: Global, id: &'a str, letter: char) -> Arg<'a>
    ensures rule { rule_of result ≡ flag id.entry.now (letter ∷ []) }
    ensures local { result.global ≡ false }
{
    Arg::new(alloc, id).short(letter).action(ArgAction::SetTrue)
}

/// Returns an option with a value after it, such as `-l 80` for the letter `l`, for one command and not for subcommands (clause `local`).
/// [`value_of`] finds the value by `id`, the name that the program has for it.
pub fn option<'a>(alloc: Global, id: &'a str, letter: char) -> Arg<'a>
    ensures rule { rule_of result ≡ option id.entry.now (letter ∷ []) }
    ensures local { result.global ≡ false }
{
    Arg::new(alloc, id).short(letter).action(ArgAction::Set)
}

/// Returns true if the command line has the flag with this id ([`flag`]). `matches` is what clap has read of the command line.
pub fn is_given(matches: &ArgMatches, id: &str) -> bool
    ensures { result ≡ is_given (rows_of (found_of matches.now)) id.now }
{
    matches.get_one(id).unwrap_or(false)
}

/// Returns the value of the option or the file argument with this id, or `None` if the command line doesn't have it. `matches` is what clap
/// has read of the command line.
pub fn value_of<'a>(matches: &ArgMatches<'a>, id: &str) -> Option<&'a str>
    ensures { text_of result ≡ first_of id.now (rows_of (found_of matches.now)) }
{
    matches.get_str(id)
}

/// Returns a copy of the bytes of a text, in memory of `alloc`. Errs only if an allocation failed.
pub fn copy_bytes(alloc: Global, text: &str) -> Result<Sequence<u8>, AllocError>
    ensures { IfOk result (λ bytes. bytes ≡ text.now) }
{
    let bytes = Vec::from_slice(alloc, text.as_bytes())?;
    Ok(Sequence::from_vec(bytes))
}
