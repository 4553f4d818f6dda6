//! Why words are no command line.

ghost use Rattle.std.specs.Prelude.{◌≡◌};
ghost use Rattle.cli_base.specs.Arguments.{texts_of};
ghost use Rattle.cli_base.specs.code.Answers.{text_of};
ghost use Rattle.check_options.specs.CommandLine.{OptionsHaveLetters};
ghost use Rattle.check_options.specs.Misuse.{first_no_option, first_twice, has_other, has_value, is_option, letters_of, misuse_in, misuse_of, uses, uses_in};
ghost use Rattle.check_options.specs.code.Misuses.{told};
ghost use Rattle.check_options.specs.declared.misuse.CommandFault.TheVariants.{Misused, OutOfMemory as out_of_memory};

use std::alloc::AllocError;

/// Why words are no command line.
#[derive(Clone, Copy, Debug)]
pub enum Misuse<'a> {
    /// This word begins with a minus, and is no option.
    NoOption(&'a str),
    /// The option of this letter is given twice.
    GivenTwice(u8),
    /// An option lacks its value.
    NoValue,
    /// `-q`, `-s` or `-j` stands beside `-p`.
    NotWithPaths,
    /// Another option than `-0` stands beside `-k`.
    NotWithFormats,
    /// This value of `-l` is no level.
    NoLevel(&'a str),
    /// This part of the value of `-i` is no kind of findings.
    NoKind(&'a str),
    /// No file is named.
    NoFile,
}

/// Why a command line could not be read.
#[derive(Clone, Copy, Debug)]
pub enum CommandFault<'a> {
    /// An allocation failed.
    OutOfMemory,
    /// The words are no command line.
    Misused(Misuse<'a>),
}

impl<'a> From<AllocError> for CommandFault<'a> {
    ghost from_gives = { λ _ e. e ≡ out_of_memory };

    /// Turns a failed allocation into [`CommandFault::OutOfMemory`], for the `?` after a call that allocates.
    fn from(_refusal: AllocError) -> CommandFault<'a> {
        CommandFault::OutOfMemory
    }
}

impl<'a> From<Misuse<'a>> for CommandFault<'a> {
    ghost from_gives = { λ why e. e ≡ Misused why };

    /// Turns a misuse into [`CommandFault::Misused`], for the `?` after what reads a part of the words.
    fn from(why: Misuse<'a>) -> CommandFault<'a> {
        CommandFault::Misused(why)
    }
}

/// The letters of the options. The last two have a value.
const OPTION_LETTERS: &[u8] = b"qsjpk0li";

/// Returns why a parse refuses these words ([`misuse_of`]). Doesn't look at the first word, which is the program's name.
pub(crate) fn misuse_in<'a>(words: &[&'a str]) -> Misuse<'a>
    ensures { told result ≡ misuse_in (texts_of words.now) }
{
    match words {
        [_name, words @ ..] => misuse_of(words),
        [] => Misuse::NoValue,
    }
}

/// Returns why a parse refuses these words: the first word that is no option, or else an option that is given twice ([`first_twice`]), or
/// else an option without its value.
fn misuse_of<'a>(words: &[&'a str]) -> Misuse<'a>
    ensures { told result ≡ misuse_of (texts_of words.now) }
{
    match (first_no_option(words), first_twice(words)) {
        (Some(word), _) => Misuse::NoOption(word),
        (None, Some(letter)) => Misuse::GivenTwice(letter),
        (None, None) => Misuse::NoValue,
    }
}

/// Returns the first of the words before `--` that begins with a minus and has a letter that is no option's.
fn first_no_option<'a>(words: &[&'a str]) -> Option<&'a str>
    ensures { text_of result ≡ first_no_option (texts_of words.now) }
{
    for word in words {
        if *word == "--" {
            return None;
        }
        if has_other(letters_of(word)) {
            return Some(*word);
        }
    }
    None
}

/// Returns the letter of an option that the words before `--` give more than once: of several, the first in [`OPTION_LETTERS`]. Returns
/// `None` if there is none.
fn first_twice(words: &[&str]) -> Option<u8>
    ensures { result ≡ first_twice (texts_of words.now) }
{
    OPTION_LETTERS
        .iter()
        .copied()
        .find(|letter| uses(*letter, words) > 1)
}

/// Returns how often the words before `--` give the option of this letter.
fn uses(letter: u8, words: &[&str]) -> u128
    ensures { result ≡ uses letter (texts_of words.now) }
{
    let mut total = 0;
    for word in words {
        if *word == "--" {
            return total;
        }
        total += uses_in(letter, letters_of(word)) as u128;
    }
    total
}

/// Returns how often these letters give the option of the letter `x`. After a letter that has a value, the value follows.
fn uses_in(x: u8, letters: &[u8]) -> usize
    ensures { result ≡ uses_in x letters.now }
{
    let mut total = 0;
    for letter in letters {
        if *letter == x {
            total += 1;
        }
        if has_value(*letter) {
            return total;
        }
    }
    total
}

/// Returns true if one of these letters is no option's. After a letter that has a value, the value follows.
fn has_other(letters: &[u8]) -> bool
    ensures { result ≡ has_other letters.now }
{
    for letter in letters {
        if !is_option(*letter) {
            return true;
        }
        if has_value(*letter) {
            return false;
        }
    }
    false
}

/// Returns true if an option has this letter. The clause `letters` says that these letters are those of the command's options.
fn is_option(letter: u8) -> bool
    ensures option { result ≡ is_option letter }
    ensures letters { OptionsHaveLetters }
{
    OPTION_LETTERS.iter().any(|b| *b == letter)
}

/// Returns the letters after the minus of a word, or none if it doesn't begin with one.
fn letters_of(word: &str) -> &[u8]
    ensures { result.now ≡ letters_of word.now }
{
    match word.as_bytes() {
        [b'-', letters @ ..] => letters,
        _ => &[],
    }
}

/// Returns true if an option of this letter has a value.
fn has_value(letter: u8) -> bool
    ensures { result ≡ has_value letter }
{
    letter == b'l' || letter == b'i'
}
