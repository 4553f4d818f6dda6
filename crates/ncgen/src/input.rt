//! The text that is asked for.

ghost use Rattle.std.specs.Prelude.{◌≡◌, option_map, string_bytes};
ghost use Rattle.devices.specs.Failures.{one_more};
ghost use Rattle.devices.specs.Openers.{opener_use};
ghost use Rattle.devices.specs.Readers.{view_of};
ghost use Rattle.devices.specs.Uses.{use_of};
ghost use Rattle.ncgen.specs.Inputs.{ReadFailsOnly, ReadsAt, ReadsInput, RefusesOnly};

use crate::failure::InputFault;
use crate::reading::read_text;
use devices::{CountedRead, TextOpener};
use std::alloc::Global;
use std::io::Read;

/// How many bytes a text may have: 256 MiB.
const TEXT_LIMIT: usize = 1 << 28;

/// Returns the bytes of the text at the path `file`, which `opener` opens, or, if there is no path, what `input` (standard input) has left.
/// Errs with `CannotOpen` if the path can't be opened, and with `Text` if the text is longer than 256 MiB or a read or an allocation fails.
pub fn read_input<T: TextOpener, R: Read>(
    opener: &mut T,
    alloc: Global,
    file: &Option<String>,
    input: &mut CountedRead<R>,
) -> Result<Vec<u8>, InputFault>
    ensures { ReadsInput
        (record {
          texts = opener_use T.is_transparent T.named T.view opener.old opener.new;
          input = use_of (view_of R.remaining) input.old input.new;
        })
        (option_map string_bytes file.now)
        result }
{
    match file {
        Some(path) => read_path(opener, alloc, path.as_str()),
        None => Ok(read_text(alloc, input, TEXT_LIMIT)?),
    }
}

/// Reads the text at the path, and returns its bytes. Gives the reader back to `opener`, also if a read failed. Errs with
/// `CannotOpen` if the path can't be opened, and with `Text` if the text is longer than 256 MiB or a read or an allocation fails.
fn read_path<T: TextOpener>(
    opener: &mut T,
    alloc: Global,
    path: &str,
) -> Result<Vec<u8>, InputFault>
    ensures text { ReadsAt T.is_transparent (T.named opener.old path.now) result }
    ensures opens { (T.view opener.new).opens ≡ one_more (T.view opener.old).opens }
    ensures refusals { RefusesOnly (T.view opener.old) (T.view opener.new) result }
    ensures reads { ReadFailsOnly (T.view opener.old) (T.view opener.new) result }
{
    let mut reader = opener.open_text(path)?;
    let text = read_text(alloc, &mut reader, TEXT_LIMIT);
    opener.close_text(reader);
    Ok(text?)
}
