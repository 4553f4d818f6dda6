//! All the bytes of a text.

ghost use Rattle.std.specs.Prelude.{◌+◌, ◌<◌, ◌≤◌, ◌^◌, length, vec_len};
ghost use Rattle.devices.specs.Readers.{view_of};
ghost use Rattle.ncgen.specs.code.TextReads.{ReadsAtMost, ReadsPart, ReadsTextOf};

use crate::fault::TextFault;
use devices::CountedRead;
use std::alloc::Global;
use std::io::Read;

/// How many bytes are asked for at a time.
const PART: usize = 65536;

/// Reads all bytes that the reader has left, and returns them if there are at most `max`.
///
/// Reads at most `max + 1` bytes, in at most as many reads: a byte above `max` shows that the text is too long. Memory grows with the text.
/// Needs a `max` below 2^64 - 1.
///
/// # Errors
///
/// [`TextFault::CdlTooLong`] if more than `max` bytes came, [`TextFault::ReadFailed`] if the reader failed, and
/// [`TextFault::OutOfMemory`] if an allocation failed.
pub fn read_text<R: Read>(
    alloc: Global,
    input: &mut CountedRead<R>,
    max: usize,
) -> Result<Vec<u8>, TextFault>
    requires { max + 1 < 2 ^ 64 }
    ensures text { ReadsTextOf R.remaining max input.old input.new result }
    ensures effort { ReadsAtMost max (view_of R.remaining input.old) (view_of R.remaining input.new) }
{
    let mut buf = [0u8; PART];
    let mut text = Vec::new(alloc);
    while text.len() <= max {
        if !read_part(input, &mut buf, max, &mut text)? {
            return Ok(text);
        }
    }
    Err(TextFault::CdlTooLong)
}

/// Reads the next bytes of the input through `buf`, and appends them to `text`, which then has at most `max + 1` bytes. More than `max`
/// bytes show that the text is too long. Needs a `buf` that isn't empty, a `text` of at most `max` bytes, and a `max` below 2^64 - 1.
/// Returns false at the end of the input, otherwise true. Errs with `ReadFailed` if the reader failed, and with `OutOfMemory` if an
/// allocation failed. After an error `text` is as it was, but no clause says so.
fn read_part<R: Read>(
    input: &mut CountedRead<R>,
    buf: &mut [u8],
    max: usize,
    text: &mut Vec<u8>,
) -> Result<bool, TextFault>
    requires room { 0 < length buf.old }
    requires within { vec_len text.old ≤ max }
    requires max { max + 1 < 2 ^ 64 }
    ensures { ReadsPart
        max
        (view_of R.remaining input.old)
        (view_of R.remaining input.new)
        text.old.items
        text.new.items
        result }
{
    let most = buf.len().min(max + 1 - text.len());
    let n = input.read_some(&mut buf[..most])?;
    text.extend_from_slice(&buf[..n])?;
    Ok(n > 0)
}
