//! How the bytes of names and paths are shown. The functions with a style write them as they stand in a line, or in a string of JSON.

ghost use Rattle.std.specs.Prelude.{◌≡◌, ◌≤◌};
ghost use Rattle.std.specs.List.{list_all};
ghost use Rattle.std.specs.Str.{is_utf8};
ghost use Rattle.nc_types.specs.code.Quoted.{written};
ghost use Rattle.devices.specs.code.SinkWrites.{Wrote};
ghost use Rattle.check_lines.specs.Shown.{dots, each_of, shown, shown_byte, shown_name, shown_path, stays};
ghost use Rattle.check_lines.specs.code.Styles.{byte_in, each_in, in_style};

use crate::style::{Style, put_text};
use devices::{Sink, WriteFailed, put};
use nc_base::{Escape, Quoting};
use std::str;

/// How bytes stand in a line.
#[derive(Clone, Copy)]
enum Form {
    /// Between quotes, so that quotes in them need an escape.
    Quoted,
    /// Without quotes.
    Bare,
}

/// The greatest length of a path that is opened, in bytes. Longer paths aren't shown whole.
pub const LONGEST_PATH: usize = 65_535;

/// The length of the longest name that is shown whole, in bytes.
const LONGEST_SHOWN_NAME: usize = 256;

/// How many bytes are shown of what is too long to be shown whole.
const SHOWN_OF_LONG: usize = 64;

/// Writes a name in quotes, with the escapes of a string in a dump. Bytes from 0x80 on are escaped in octal, unless the whole name is
/// UTF-8. Of a name of more than 256 bytes, it writes only the first 64, those from 0x80 on in octal, and `...` after the quotes. Errs if
/// the sink fails.
#[tactic(auto, using(crate::proofs::Styled::styled), unfolding(crate::specs::Shown::shown_name))]
pub(crate) fn put_name<W: Sink>(sink: &mut W, style: Style, name: &[u8]) -> Result<(), WriteFailed>
    ensures { Wrote W.view sink.old sink.new (in_style style (shown_name name.now)) result }
{
    put_text(sink, style, b"\"")?;
    put_shown(sink, style, Form::Quoted, LONGEST_SHOWN_NAME, name)?;
    put_text(sink, style, b"\"")?;
    put_text(sink, style, dots(LONGEST_SHOWN_NAME, name))
}

/// Writes a path as the lines of findings show it: without quotes, and with the escapes of a string in a dump for control characters and
/// backslashes. Bytes from 0x80 on are escaped in octal, unless the whole path is UTF-8. Of a path of more than [`LONGEST_PATH`] bytes, it
/// writes only the first 64, those from 0x80 on in octal, and `...`.
///
/// # Errors
///
/// The sink failed. It took some prefix of the text.
#[tactic(auto, using(devices::proofs::Writes::writes), unfolding(crate::specs::Shown::shown_path, crate::specs::code::Styles::in_style))]
pub fn put_file_path<W: Sink>(sink: &mut W, file: &[u8]) -> Result<(), WriteFailed>
    ensures { Wrote W.view sink.old sink.new (shown_path file.now) result }
{
    put_shown(sink, Style::Line, Form::Bare, LONGEST_PATH, file)?;
    put(sink, dots(LONGEST_PATH, file))
}

/// Returns `...` if there are more than `longest` bytes, so that only their beginning is shown; otherwise nothing.
fn dots(longest: usize, bytes: &[u8]) -> &'static [u8]
    ensures { result.now ≡ dots longest bytes.now }
{
    if bytes.len() <= longest { b"" } else { b"..." }
}

/// Writes bytes, each with the escape that it needs in a line of this form, in quotes or bare ([`put_byte`]), or only the first 64 if there
/// are more than `longest`. Bytes from 0x80 on are escaped in octal, unless all bytes are shown and are UTF-8. Needs a `longest` of 64 or
/// more. Errs if the sink fails.
#[tactic(auto, unfolding(crate::specs::Shown::shown))]
fn put_shown<W: Sink>(
    sink: &mut W,
    style: Style,
    form: Form,
    longest: usize,
    bytes: &[u8],
) -> Result<(), WriteFailed>
    requires { 64 ≤ longest }
    ensures { Wrote W.view sink.old sink.new
        (in_style style (shown form longest bytes.now)) result }
{
    if bytes.len() <= longest {
        put_bytes(sink, style, form, !is_utf8(bytes), bytes)
    } else {
        put_bytes(sink, style, form, true, &bytes[..SHOWN_OF_LONG])
    }
}

/// Writes bytes, each with the escape that it needs in a line of this form, in quotes or bare ([`put_byte`]), and by one write if none
/// needs one. If `in_octal` is true, bytes from 0x80 on are escaped in octal. Errs if the sink fails.
fn put_bytes<W: Sink>(
    sink: &mut W,
    style: Style,
    form: Form,
    in_octal: bool,
    bytes: &[u8],
) -> Result<(), WriteFailed>
    ensures { Wrote W.view sink.old sink.new
        (in_style style (each_of (shown_byte form in_octal) bytes.now)) result }
{
    if all_stay(form, in_octal, bytes) {
        put_text(sink, style, bytes)
    } else {
        put_each(sink, style, form, in_octal, bytes)
    }
}

/// Returns true if none of the bytes needs an escape in a line of this form, in quotes or bare ([`stays`]). If `in_octal` is true, each
/// byte from 0x80 on needs one; if it is false, none of these does.
fn all_stay(form: Form, in_octal: bool, bytes: &[u8]) -> bool
    ensures { result ≡ list_all (stays form in_octal) bytes.now }
{
    bytes.iter().all(|b| stays(form, in_octal, *b))
}

/// Writes bytes one after the other, each with the escape that it needs in a line of this form, in quotes or bare ([`put_byte`]). If
/// `in_octal` is true, bytes from 0x80 on are escaped in octal. Errs if the sink fails.
#[tactic(auto, using(devices::proofs::Writes::writes))]
fn put_each<W: Sink>(
    sink: &mut W,
    style: Style,
    form: Form,
    in_octal: bool,
    bytes: &[u8],
) -> Result<(), WriteFailed>
    ensures { Wrote W.view sink.old sink.new
        (each_in style (shown_byte form in_octal) bytes.now) result }
{
    for b in bytes {
        put_byte(sink, style, form, in_octal, *b)?;
    }
    Ok(())
}

/// Writes a byte with the escape that it needs in this form, in quotes or bare, if it needs one ([`escape_of`]). Errs if the sink fails.
#[tactic(auto, unfolding(crate::specs::code::Styles::byte_in))]
fn put_byte<W: Sink>(
    sink: &mut W,
    style: Style,
    form: Form,
    in_octal: bool,
    b: u8,
) -> Result<(), WriteFailed>
    ensures { Wrote W.view sink.old sink.new (byte_in style (shown_byte form in_octal) b) result }
{
    match escape_of(form, in_octal, b) {
        Escape::Plain => put_text(sink, style, &[b]),
        Escape::Backslash(c) => put_text(sink, style, &[b'\\', c]),
        Escape::Octal => put_text(
            sink,
            style,
            &[b'\\', b'0' + b / 64, b'0' + b / 8 % 8, b'0' + b % 8],
        ),
    }
}

/// Returns how a byte is shown in this form, in quotes or bare: as it is if it needs no escape ([`stays`]), otherwise in octal from 0x80 on
/// (`\303`), and below that with the escape of a string in a dump (`\n`).
fn escape_of(form: Form, in_octal: bool, b: u8) -> Escape
    ensures { written result b ≡ shown_byte form in_octal b }
{
    if stays(form, in_octal, b) {
        Escape::Plain
    } else if b >= 0x80 {
        Escape::Octal
    } else {
        Quoting::InString.escape(b)
    }
}

/// Returns true if a byte needs no escape in a line. A control character and a backslash need one. Both kinds of quotes need one in the
/// form `Quoted`, and bytes from 0x80 on if `in_octal` is true.
fn stays(form: Form, in_octal: bool, b: u8) -> bool
    ensures { result ≡ stays form in_octal b }
{
    if b >= 0x80 {
        !in_octal
    } else if b == b'"' || b == b'\'' {
        matches!(form, Form::Bare)
    } else {
        !(b.is_ascii_control() || b == b'\\')
    }
}

/// Returns true if the bytes are UTF-8.
fn is_utf8(bytes: &[u8]) -> bool
    ensures { result ≡ is_utf8 bytes.now }
{
    str::from_utf8(bytes).is_ok()
}
