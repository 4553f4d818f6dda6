//! A run of the program.

ghost use Rattle.std.specs.Prelude.{option_map, string_bytes};
ghost use Rattle.cli_base.specs.Arguments.{texts_of};
ghost use Rattle.ncgen.specs.CommandLine.{asked_by};
ghost use Rattle.devices.specs.Openers.{opener_use};
ghost use Rattle.devices.specs.Readers.{view_of};
ghost use Rattle.devices.specs.Uses.{use_of};
ghost use Rattle.ncgen.specs.Runs.{Ends, EndsOverSystem};
ghost use Rattle.ncgen.specs.code.Prepared.{file_of_prepared, IsReady};
ghost use Rattle.ncgen.specs.code.RunSteps.{GeneratesAsked, PreparesInput, WritesAsked};

use crate::command_line::options_of_words;
use crate::failure::{Failure, InputFault};
use crate::fault_text::put_failure;
use crate::generating::prepare;
use crate::input::read_input;
use crate::options::GenOptions;
use crate::output::write_output;
use crate::prepared::Prepared;
use devices::{CountedRead, Creator, Sink, SystemFiles, SystemOutputs, TextOpener};
use std::alloc::Global;
use std::fs::File;
use std::io::Read;
use std::rt::Files;

/// Runs the program on the files of the system that `rt` stands for, and returns its exit status, as [`run_with`] does.
pub fn run<F: Files<File = File>, R: Read, E: Sink>(
    rt: &F,
    alloc: Global,
    words: &[&str],
    input: &mut CountedRead<R>,
    err: &mut E,
) -> u8
    ensures { EndsOverSystem (asked_by (texts_of words.now))
        (use_of (view_of R.remaining) input.old input.new) (use_of E.view err.old err.new) result }
{
    let mut opener = SystemFiles::new(rt);
    let mut creator = SystemOutputs::new(rt, alloc);
    run_with(&mut opener, &mut creator, alloc, words, input, err)
}

/// Runs the program, and returns its exit status. `words` is the command line, with the program's name first; `opener` opens the text;
/// `creator` creates the output; `input` is standard input, and `err` is standard error.
///
/// The status is 0 if the file that the words ask for was written, or, if they ask for no output, if the text gives a file. Otherwise
/// the status is 1, and a line on standard error names the first failure: of the command line, of opening or reading the text, of the
/// text itself, or of creating or writing the output. The output is created only if the text gives a file. If standard error fails, the
/// status stays 1. Standard error is not flushed.
pub fn run_with<T: TextOpener, C: Creator, R: Read, E: Sink>(
    opener: &mut T,
    creator: &mut C,
    alloc: Global,
    words: &[&str],
    input: &mut CountedRead<R>,
    err: &mut E,
) -> u8
    ensures { Ends
        (record {
          asked = asked_by (texts_of words.now);
          inputs = record {
            texts = opener_use T.is_transparent T.named T.view opener.old opener.new;
            input = use_of (view_of R.remaining) input.old input.new;
          };
          outputs = record { is_transparent = C.is_transparent; before = C.view creator.old; after = C.view creator.new };
          err = use_of E.view err.old err.new;
        })
        result }
{
    match generate_for_words(opener, creator, alloc, words, input) {
        Ok(()) => 0,
        Err(failure) => {
            let _ = put_failure(err, &failure);
            1
        }
    }
}

/// Reads the text that the words ask for, and writes its file if the words ask for an output. Errs with the first failure: `CommandLine` if
/// the words are wrong or an allocation failed while they were read, `Input` if no file is made of the text, or `Output` if the output
/// can't be created, written or closed.
fn generate_for_words<T: TextOpener, C: Creator, R: Read>(
    opener: &mut T,
    creator: &mut C,
    alloc: Global,
    words: &[&str],
    input: &mut CountedRead<R>,
) -> Result<(), Failure>
    ensures { GeneratesAsked
        (record {
          texts = opener_use T.is_transparent T.named T.view opener.old opener.new;
          input = use_of (view_of R.remaining) input.old input.new;
        })
        (record { is_transparent = C.is_transparent; before = C.view creator.old; after = C.view creator.new })
        (asked_by (texts_of words.now))
        result }
{
    let options = options_of_words(alloc, words)?;
    match read_and_prepare(opener, alloc, &options, input) {
        Ok(prepared) => write_if_asked(creator, options.out, &prepared),
        Err(fault) => Err(Failure::Input(options.file, fault)),
    }
}

/// Reads the text that the options name, or standard input if they name none, and returns its file, ready to be written. Errs with
/// `CannotOpen` or `Text` if the text can't be read, and with `Generate` if it gives no file or an allocation fails after it was read.
fn read_and_prepare<T: TextOpener, R: Read>(
    opener: &mut T,
    alloc: Global,
    options: &GenOptions,
    input: &mut CountedRead<R>,
) -> Result<Prepared, InputFault>
    ensures { PreparesInput
        (record {
          texts = opener_use T.is_transparent T.named T.view opener.old opener.new;
          input = use_of (view_of R.remaining) input.old input.new;
        })
        (option_map string_bytes options.now.file)
        options.now.kind
        result }
{
    let text = read_input(opener, alloc, &options.file, input)?;
    Ok(prepare(alloc, text.as_slice(), options.kind)?)
}

/// Writes the file `prepared` to the path `out`, or nothing if there is no path. Needs a `prepared` such as [`prepare`] returns. Errs with
/// `Output` if the output can't be created, written or closed.
fn write_if_asked<C: Creator>(
    creator: &mut C,
    out: Option<String>,
    prepared: &Prepared,
) -> Result<(), Failure>
    requires { IsReady prepared.now }
    ensures { WritesAsked
        (record { is_transparent = C.is_transparent; before = C.view creator.old; after = C.view creator.new })
        (option_map string_bytes out)
        (file_of_prepared prepared.now)
        result }
{
    match out {
        Some(path) => match write_output(creator, path.as_str(), prepared) {
            Ok(()) => Ok(()),
            Err(fault) => Err(Failure::Output(path, fault)),
        },
        None => Ok(()),
    }
}
