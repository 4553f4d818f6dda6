//! Messages: what is found, and what is expected in its place, each as a text with blanks and the parts that stand in their place. The
//! functions write them in a style: as they stand in a line, or in strings of JSON.

ghost use Rattle.std.specs.Prelude.{◌≡◌, Some};
ghost use Rattle.std.specs.List.{after_first, before_first};
ghost use Rattle.devices.specs.code.SinkWrites.{Wrote};
ghost use Rattle.check_lines.specs.Messages.{expected_text, found_text, is_blank, part_text, said_text, with_part};
ghost use Rattle.check_lines.specs.code.Styles.{end_in, in_style, said_in};
ghost use Rattle.check_lines.specs.code.Written.{message_of, said_of};

use crate::content::{put_content, put_type, put_zeros};
use crate::field_path::put_block_path;
use crate::style::{Style, put_text};
use devices::{Sink, WriteFailed, put, put_decimal};
use nc_base::{FormatFault, Header};
use nc_findings::{Block, Content};

/// What a finding says more than its kind and its path.
#[derive(Clone, Copy)]
pub(crate) enum Message {
    /// Nothing more.
    Nothing,
    /// What is found.
    Found(Said),
    /// What is found, and what is expected in its place.
    Instead(Said, Said),
}

/// What is said of what is found or expected.
#[derive(Clone, Copy)]
pub(crate) enum Said {
    /// These words.
    Words(&'static str),
    /// A text with a blank `_`, and the part that stands in its place.
    With(&'static str, Part),
    /// A text with two blanks `_`, and the parts that stand in their place.
    WithBoth(&'static str, Part, Part),
}

/// What stands in place of a blank.
#[derive(Clone, Copy)]
pub(crate) enum Part {
    /// A number in decimal.
    Number(u64),
    /// A number of up to 128 bits in decimal.
    Long(u128),
    /// A type code in decimal, with the type's word.
    TypeCode(u64),
    /// The content of the field.
    FieldContent,
    /// The content of the field, which is a type code, with the type's word.
    FieldType,
    /// As many zeros as the field has bytes.
    FieldZeros,
    /// The path of a block: a variable, or `the records`.
    OfBlock(Block),
}

/// The content of the field alone.
pub(crate) const CONTENT: Said = Said::With("_", Part::FieldContent);

/// Writes a message: at the end of a line (`: found 3, expected 0`), or as members of an object (`,"found":"3","expected":"0"`). `content`
/// is that of the field that the message is about, and `header` has the names of variables. Errs if the sink fails.
#[tactic(auto, using(crate::proofs::Styled::styled), unfolding(crate::specs::Messages::found_text, crate::specs::Messages::expected_text, crate::specs::code::Styles::end_in))]
pub(crate) fn put_message<W: Sink>(
    sink: &mut W,
    style: Style,
    header: &Result<Header, FormatFault>,
    content: &Content,
    message: Message,
) -> Result<(), WriteFailed>
    ensures { Wrote W.view sink.old sink.new (end_in style
        (found_text header.now content.now (message_of message))
        (expected_text header.now content.now (message_of message))) result }
{
    let (word, name) = (b": found ".as_slice(), b",\"found\":\"".as_slice());
    match message {
        Message::Nothing => Ok(()),
        Message::Found(found) => put_said_after(sink, style, word, name, header, content, found),
        Message::Instead(found, expected) => {
            put_said_after(sink, style, word, name, header, content, found)?;
            let (word, name) = (b", expected ".as_slice(), b",\"expected\":\"".as_slice());
            put_said_after(sink, style, word, name, header, content, expected)
        }
    }
}

/// Writes what is said after a word of a line, or as a member of an object: after `name`, its name with what stands around it, and before a
/// quote. `content` is that of the field that it is about, and `header` has the names of variables. Errs if the sink fails.
#[tactic(auto, using(devices::proofs::Writes::writes), unfolding(crate::specs::Json::member, crate::specs::code::Styles::in_style, crate::specs::code::Styles::said_in))]
fn put_said_after<W: Sink>(
    sink: &mut W,
    style: Style,
    word: &[u8],
    name: &[u8],
    header: &Result<Header, FormatFault>,
    content: &Content,
    said: Said,
) -> Result<(), WriteFailed>
    ensures { Wrote W.view sink.old sink.new (said_in style word.now name.now
        (Some (said_text header.now content.now (said_of said)))) result }
{
    match style {
        Style::Line => {
            put(sink, word)?;
            put_said(sink, Style::Line, header, content, said)
        }
        Style::Json => {
            put(sink, name)?;
            put_said(sink, Style::Json, header, content, said)?;
            put(sink, b"\"")
        }
    }
}

/// Writes what is said, with its parts in place of its blanks. `content` is that of the field that it is about, and `header` has the names
/// of variables. Errs if the sink fails.
#[tactic(auto, using(crate::proofs::Styled::styled), unfolding(crate::specs::Messages::said_text))]
fn put_said<W: Sink>(
    sink: &mut W,
    style: Style,
    header: &Result<Header, FormatFault>,
    content: &Content,
    said: Said,
) -> Result<(), WriteFailed>
    ensures { Wrote W.view sink.old sink.new
        (in_style style (said_text header.now content.now (said_of said))) result }
{
    match said {
        Said::Words(text) => put_text(sink, style, text.as_bytes()),
        Said::With(text, part) => put_with_part(sink, style, header, content, text, part),
        Said::WithBoth(text, first, second) => {
            let (words, rest) = cut_at_blank(text);
            put_text(sink, style, words.as_bytes())?;
            put_part(sink, style, header, content, first)?;
            put_with_part(sink, style, header, content, rest, second)
        }
    }
}

/// Writes `text` with the part in place of its first blank `_`. `content` is that of the field that it is about, and `header` has the names
/// of variables. Errs if the sink fails.
#[tactic(auto, using(crate::proofs::Styled::styled), unfolding(crate::specs::Messages::with_part))]
fn put_with_part<W: Sink>(
    sink: &mut W,
    style: Style,
    header: &Result<Header, FormatFault>,
    content: &Content,
    text: &str,
    part: Part,
) -> Result<(), WriteFailed>
    ensures { Wrote W.view sink.old sink.new
        (in_style style (with_part header.now content.now text.now part)) result }
{
    let (words, rest) = cut_at_blank(text);
    put_text(sink, style, words.as_bytes())?;
    put_part(sink, style, header, content, part)?;
    put_text(sink, style, rest.as_bytes())
}

/// Returns the text before its first blank `_`, and the text after it. Without a blank, returns the whole text and an empty one.
fn cut_at_blank(text: &str) -> (&str, &str)
    ensures before { result.0.now ≡ before_first is_blank text.entry.now }
    ensures after { result.1.now ≡ after_first is_blank text.entry.now }
{
    text.split_once('_').unwrap_or((text, ""))
}

/// Writes one part. `content` is that of the field that it is about, and `header` has the names of variables. Errs if the sink fails.
#[tactic(auto, using(crate::proofs::Styled::styled))]
fn put_part<W: Sink>(
    sink: &mut W,
    style: Style,
    header: &Result<Header, FormatFault>,
    content: &Content,
    part: Part,
) -> Result<(), WriteFailed>
    ensures { Wrote W.view sink.old sink.new
        (in_style style (part_text header.now content.now part)) result }
{
    match part {
        Part::Number(n) => put_decimal(sink, n as u128),
        Part::Long(n) => put_decimal(sink, n),
        Part::TypeCode(code) => put_type(sink, style, &Content::Number(code)),
        Part::FieldContent => put_content(sink, style, content),
        Part::FieldType => put_type(sink, style, content),
        Part::FieldZeros => put_zeros(sink, style, content),
        Part::OfBlock(block) => put_block_path(sink, style, header, block),
    }
}
