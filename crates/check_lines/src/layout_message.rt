//! What is said of the layout of a file.

ghost use Rattle.std.specs.Prelude.{◌≡◌};
ghost use Rattle.check_lines.specs.Details.{layout_message};
ghost use Rattle.check_lines.specs.code.Written.{message_of};

use crate::message::Message;
use crate::message::Message::{Found, Instead};
use crate::message::Part::{Long, Number, OfBlock};
use crate::message::Said::{With, WithBoth, Words};
use nc_findings::{Block, LayoutFact};

/// Returns the message for a fact about the layout of the file.
pub(crate) fn layout_message(fact: LayoutFact) -> Message
    ensures { message_of result ≡ layout_message fact }
{
    match fact {
        LayoutFact::Streaming { records } => {
            Found(With("the streaming mark, for _", Number(records)))
        }
        LayoutFact::UnusedRecords { records } => Instead(With("_", Number(records)), Words("0")),
        LayoutFact::LargeVariable { bytes, limit, .. } => Instead(
            With("a slab of _ bytes", Number(bytes)),
            With("at most _", Number(limit)),
        ),
        LayoutFact::BeginInHeader { begin, header_end } => Instead(
            With("_", Number(begin)),
            With("at least _, the end of the header", Number(header_end)),
        ),
        LayoutFact::Overlap { begin, end, of } => Instead(
            With("_", Number(begin)),
            WithBoth("at least _, the end of _", Long(end), OfBlock(of)),
        ),
        LayoutFact::Unpadded { begin, end, of } => Instead(
            With("_", Number(begin)),
            WithBoth("at least _, the padded end of _", Long(end), OfBlock(of)),
        ),
        LayoutFact::Order { begin, least, of } => Instead(
            With("_", Number(begin)),
            WithBoth(
                "at least _, the begin of _",
                Number(least),
                OfBlock(Block::Var(of)),
            ),
        ),
        LayoutFact::AfterRecords { begin, most } => Instead(
            With("_", Number(begin)),
            With("at most _, the begin of the records", Number(most)),
        ),
        LayoutFact::RecordPlace { begin, expected } => {
            Instead(With("_", Number(begin)), With("_", Number(expected)))
        }
        LayoutFact::Gap { bytes, before } => Found(WithBoth(
            "_ unused bytes before _",
            Number(bytes),
            OfBlock(before),
        )),
        LayoutFact::Missing { file_len, end, .. } => Instead(
            With("_ bytes", Number(file_len)),
            With("at least _", Long(end)),
        ),
        LayoutFact::EndPadding { file_len, end } => {
            Instead(With("_ bytes", Number(file_len)), With("_", Long(end)))
        }
        LayoutFact::Trailing {
            file_len,
            end,
            records: None,
        } => Instead(With("_ bytes", Number(file_len)), With("_", Number(end))),
        LayoutFact::Trailing {
            file_len,
            end,
            records: Some(records),
        } => Instead(
            With("_ bytes", Number(file_len)),
            WithBoth("_, or numrecs _", Number(end), Number(records)),
        ),
    }
}
