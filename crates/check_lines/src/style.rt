//! How texts stand: in a line, or in a string of JSON.

ghost use Rattle.std.specs.Prelude.{◌≡◌};
ghost use Rattle.std.specs.List.{list_all};
ghost use Rattle.devices.specs.code.SinkWrites.{Wrote};
ghost use Rattle.check_lines.specs.Json.{is_plain, json_byte, json_text};
ghost use Rattle.check_lines.specs.Shown.{each_of};
ghost use Rattle.check_lines.specs.code.Styles.{in_style};

use crate::content::hex_digit;
use devices::{Sink, WriteFailed, put};

/// How a text stands in what is written.
#[derive(Clone, Copy)]
pub(crate) enum Style {
    /// In a line, as it is.
    Line,
    /// In a string of JSON, each byte with the escape that it needs there.
    Json,
}

/// Writes a text as it stands in this style, by one write if no byte of it needs an escape. Errs if the sink fails.
#[tactic(auto, unfolding(crate::specs::code::Styles::in_style))]
pub(crate) fn put_text<W: Sink>(sink: &mut W, style: Style, text: &[u8]) -> Result<(), WriteFailed>
    ensures { Wrote W.view sink.old sink.new (in_style style text.now) result }
{
    match style {
        Style::Line => put(sink, text),
        Style::Json => put_json_text(sink, text),
    }
}

/// Writes a text as it stands in a string of JSON, by one write if no byte of it needs an escape. Errs if the sink fails.
fn put_json_text<W: Sink>(sink: &mut W, text: &[u8]) -> Result<(), WriteFailed>
    ensures { Wrote W.view sink.old sink.new (json_text text.now) result }
{
    if are_plain(text) {
        put(sink, text)
    } else {
        put_json_bytes(sink, text)
    }
}

/// Returns true if none of the bytes needs an escape in a string of JSON ([`is_plain`]).
fn are_plain(text: &[u8]) -> bool
    ensures { result ≡ list_all is_plain text.now }
{
    text.iter().all(|b| is_plain(*b))
}

/// Returns true if the byte stands for itself in a string of JSON: if it is neither a quote, nor a backslash, nor a control character.
fn is_plain(b: u8) -> bool
    ensures { result ≡ is_plain b }
{
    !(b == b'"' || b == b'\\' || b < 0x20)
}

/// Writes the bytes of a text one after the other, each as it stands in a string of JSON. Errs if the sink fails.
#[tactic(auto, using(devices::proofs::Writes::writes))]
fn put_json_bytes<W: Sink>(sink: &mut W, text: &[u8]) -> Result<(), WriteFailed>
    ensures { Wrote W.view sink.old sink.new (each_of json_byte text.now) result }
{
    for b in text {
        put_json_byte(sink, *b)?;
    }
    Ok(())
}

/// Writes a byte as it stands in a string of JSON: a quote and a backslash after a backslash, a control character as a backslash and a
/// letter (`\n`) or its code (`\u0001`), and any other byte as it is. Errs if the sink fails.
fn put_json_byte<W: Sink>(sink: &mut W, b: u8) -> Result<(), WriteFailed>
    ensures { Wrote W.view sink.old sink.new (json_byte b) result }
{
    match b {
        0x08 => put(sink, b"\\b"),
        b'\t' => put(sink, b"\\t"),
        b'\n' => put(sink, b"\\n"),
        0x0c => put(sink, b"\\f"),
        b'\r' => put(sink, b"\\r"),
        b'"' | b'\\' => put(sink, &[b'\\', b]),
        _ if b < 0x20 => {
            let (high, low) = (hex_digit(b / 16), hex_digit(b % 16));
            put(sink, &[b'\\', b'u', b'0', b'0', high, low])
        }
        _ => put(sink, &[b]),
    }
}
