//! The content of a field, as it is told. The functions write it in a style: as it stands in a line, or in a string of JSON.

ghost use Rattle.std.specs.Prelude.{◌≡◌, ◌<◌};
ghost use Rattle.devices.specs.code.SinkWrites.{Wrote};
ghost use Rattle.check_lines.specs.Messages.{content_text, digits, hex_digit, hex_text, type_text, type_word, zeros_text};
ghost use Rattle.check_lines.specs.code.Styles.{byte_in, each_in, in_style};

use crate::style::{Style, put_text};
use devices::{Sink, WriteFailed, put_decimal};
use nc_findings::Content;

/// Writes the content of a field `nc_type`, and the name of the type in brackets: `5 (float)`. A code that no type has stands alone.
/// Content that isn't a number is written as [`put_content`] writes it. Errs if the sink fails.
#[tactic(auto, using(crate::proofs::Styled::styled), unfolding(crate::specs::Messages::type_text))]
pub(crate) fn put_type<W: Sink>(
    sink: &mut W,
    style: Style,
    content: &Content,
) -> Result<(), WriteFailed>
    ensures { Wrote W.view sink.old sink.new (in_style style (type_text content.now)) result }
{
    put_content(sink, style, content)?;
    put_text(sink, style, type_word(content.number()).as_bytes())
}

/// Returns the name of the type with this code, in brackets after a space, such as ` (float)`. Any other number gives the empty text.
#[tactic(auto, unfolding(crate::specs::Messages::type_word))]
fn type_word(code: u64) -> &'static str
    ensures { result.now ≡ type_word code }
{
    match code {
        1 => " (byte)",
        2 => " (char)",
        3 => " (short)",
        4 => " (int)",
        5 => " (float)",
        6 => " (double)",
        7 => " (ubyte)",
        8 => " (ushort)",
        9 => " (uint)",
        10 => " (int64)",
        11 => " (uint64)",
        _ => "",
    }
}

/// Writes the content of a field of the header: a number in decimal, bytes in hexadecimal (`0x434446`), and nothing for the values of an
/// attribute, or for a field that the end of the file cuts off. Errs if the sink fails.
#[tactic(auto, using(crate::proofs::Styled::styled), unfolding(crate::specs::Messages::content_text))]
pub(crate) fn put_content<W: Sink>(
    sink: &mut W,
    style: Style,
    content: &Content,
) -> Result<(), WriteFailed>
    ensures { Wrote W.view sink.old sink.new (in_style style (content_text content.now)) result }
{
    match content {
        Content::Number(n) => put_decimal(sink, *n as u128),
        Content::Bytes(bytes) => put_hex(sink, style, bytes.as_slice(), false),
        Content::Values { .. } | Content::Cut => Ok(()),
    }
}

/// Writes `0x`, then `00` for each byte of the content, such as `0x0000`; nothing if the content isn't bytes. Errs if the sink fails.
#[tactic(auto, using(crate::proofs::Styled::styled), unfolding(crate::specs::Messages::zeros_text))]
pub(crate) fn put_zeros<W: Sink>(
    sink: &mut W,
    style: Style,
    content: &Content,
) -> Result<(), WriteFailed>
    ensures { Wrote W.view sink.old sink.new (in_style style (zeros_text content.now)) result }
{
    match content {
        Content::Bytes(bytes) => put_hex(sink, style, bytes.as_slice(), true),
        Content::Number(_) | Content::Values { .. } | Content::Cut => Ok(()),
    }
}

/// Writes `0x` and then two hexadecimal digits for each byte, or `00` for each if `is_zero` is true. Errs if the sink fails.
#[tactic(auto, using(crate::proofs::Styled::styled), unfolding(crate::specs::Messages::hex_text))]
fn put_hex<W: Sink>(
    sink: &mut W,
    style: Style,
    bytes: &[u8],
    is_zero: bool,
) -> Result<(), WriteFailed>
    ensures { Wrote W.view sink.old sink.new (in_style style (hex_text is_zero bytes.now)) result }
{
    put_text(sink, style, b"0x")?;
    put_digits(sink, style, bytes, is_zero)
}

/// Writes two hexadecimal digits for each byte, or `00` for each if `is_zero` is true. Errs if the sink fails.
#[tactic(auto, using(devices::proofs::Writes::writes))]
fn put_digits<W: Sink>(
    sink: &mut W,
    style: Style,
    bytes: &[u8],
    is_zero: bool,
) -> Result<(), WriteFailed>
    ensures { Wrote W.view sink.old sink.new (each_in style (digits is_zero) bytes.now) result }
{
    for b in bytes {
        put_hex_byte(sink, style, *b, is_zero)?;
    }
    Ok(())
}

/// Writes a byte as two hexadecimal digits, or `00` if `is_zero` is true. Errs if the sink fails.
#[tactic(auto, unfolding(crate::specs::code::Styles::byte_in))]
fn put_hex_byte<W: Sink>(
    sink: &mut W,
    style: Style,
    b: u8,
    is_zero: bool,
) -> Result<(), WriteFailed>
    ensures { Wrote W.view sink.old sink.new (byte_in style (digits is_zero) b) result }
{
    let b = if is_zero { 0 } else { b };
    put_text(sink, style, &[hex_digit(b / 16), hex_digit(b % 16)])
}

/// Returns the hexadecimal digit of `n` in lower case, as an ASCII byte. Needs a number below 16.
pub(crate) fn hex_digit(n: u8) -> u8
    requires { n < 16 }
    ensures { result ≡ hex_digit n }
{
    if n < 10 { b'0' + n } else { b'a' + (n - 10) }
}
