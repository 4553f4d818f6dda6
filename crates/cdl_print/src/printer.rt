//! The printer of a variable's values.

ghost use Rattle.std.specs.Prelude.{◌≡◌, ◌↔◌, ◌+◌, ◌<◌, ◌≤◌, [], true, false, length, IsErr, IsTrue, OnOk, OnErr};
ghost use Rattle.nc_base.specs.Headers.{IsSound};
ghost use Rattle.nc_base.specs.ValueText.{variable_opening, variable_closing};
ghost use Rattle.cdl_print.specs.code.Leads.{IfVariable};
ghost use Rattle.cdl_print.specs.code.Printing.{next, AreLeft, IsAfterNext, WroteNext};
ghost use Rattle.cdl_print.specs.code.Printer.{look_in, position_of, has_failed, HasPrinted, Takes, Prints, WrotePart};

use crate::char_row::put_char_values;
use crate::layout::{TextLayout, layout_of};
use crate::number_row::{TextBuffer, put_number_values};
use crate::opening::{columns_left_after_opening, put_opening};
use crate::progress::Progress;
use devices::{Sink, WriteFailed, put};
use nc_base::Header;

/// Prints the values of one variable.
///
/// [`start`](ValuePrinter::start) writes what stands before the values, [`values`](ValuePrinter::values) writes them, in
/// as many calls as they come in, and [`finish`](ValuePrinter::finish) what stands after them. The text is that of
/// ncdump(1), however the values are cut into calls. The printer keeps none of it, and does not allocate.
///
/// After a failed write each later call fails too, and writes nothing.
#[derive(Drop)]
pub struct ValuePrinter<'a> {
    layout: TextLayout<'a>,
    progress: Progress,
    has_failed: bool,
}

impl<'a> ValuePrinter<'a> {
    /// Returns a printer of the values of the variable at the index `v`, if there are `records` records. It breaks a line of numbers at
    /// `width` bytes. Needs a sound header (`nc_base::Header::sound`) that has such a variable.
    pub fn new(header: &'a Header, v: usize, records: u64, width: usize) -> ValuePrinter<'a>
        requires sound { IsSound header.now }
        requires there { v < length header.now.vars }
        ensures { IfVariable header.now v records width (λ look. HasPrinted look [] result) }
    {
        let layout = layout_of(header, v, records, width);
        let columns_left = columns_left_after_opening(layout.width, layout.name);
        ValuePrinter {
            layout,
            progress: Progress {
                position: 0,
                row_index: 0,
                columns_left,
                held_nuls: 0,
            },
            has_failed: false,
        }
    }

    /// Writes what stands before the variable's values: a line feed, a space, the variable's name with its escapes, and ` =`.
    ///
    /// # Errors
    ///
    /// The sink failed, and took some prefix of the text; or an earlier call failed, and nothing is written.
    #[tactic(auto, unfolding(nc_base::specs::ValueText::variable_opening))]
    pub fn start<W: Sink>(&mut self, sink: &mut W) -> Result<(), WriteFailed>
        ensures wrote { WrotePart self.old W.view sink.old sink.new variable_opening result }
        ensures ok { OnOk result (self.new ≡ self.old) }
        ensures failed { OnErr result (has_failed self.new ≡ true) }
        ensures repeats { has_failed self.old ≡ true → IsErr result × (W.view sink.new ≡ W.view sink.old) }
    {
        if self.has_failed {
            return Err(WriteFailed);
        }
        let written = put_opening(sink, self.layout.name);
        self.remember_failure(written)
    }

    /// Returns true if the bytes are whole values, and the variable has at least as many left to print.
    ///
    /// For callers of the library, to test what [`values`](ValuePrinter::values) asks for: `ncdump` itself knows this of its chunks.
    pub fn takes(&self, bytes: &[u8]) -> bool
        ensures { IsTrue result ↔ Takes self.now bytes.now }
    {
        let size = self.layout.ty.size() as usize;
        bytes.len() % size == 0 && self.has_values_left((bytes.len() / size) as u128)
    }

    /// Returns true if the variable has at least `count` values left to print.
    fn has_values_left(&self, count: u128) -> bool
        ensures { IsTrue result ↔ (position_of self.now + count ≤ (look_in self.now).total) }
    {
        let total = self.layout.total;
        let position = self.progress.position;
        position <= total && count <= total - position
    }

    /// Writes the next values of the variable. `bytes` must have whole values, big-endian and one after the other, and no more of them than
    /// the variable has left, as [`takes`](ValuePrinter::takes) tests. Their text is gathered in `text`, which may hold anything: one
    /// buffer serves all variables. NULs that may end a row of characters can be held back until another character follows in the row.
    ///
    /// # Errors
    ///
    /// The sink failed, and took some prefix of the text; or an earlier call failed, and nothing is written.
    pub fn values<W: Sink>(
        &mut self,
        sink: &mut W,
        text: &mut TextBuffer,
        bytes: &[u8],
    ) -> Result<(), WriteFailed>
        requires { Takes self.old bytes.now }
        ensures prints { Prints bytes.now self.old self.new (W.view sink.old) (W.view sink.new) result }
        ensures repeats { has_failed self.old ≡ true → IsErr result × (W.view sink.new ≡ W.view sink.old) }
    {
        if self.has_failed {
            return Err(WriteFailed);
        }
        let written = put_next_values(sink, &self.layout, &mut self.progress, text, bytes);
        self.remember_failure(written)
    }

    /// Writes what stands after the values: ` ;` and a line feed, and before them a `"` if the values are characters.
    ///
    /// # Errors
    ///
    /// The sink failed, and took some prefix of the text; or an earlier call failed, and nothing is written.
    pub fn finish<W: Sink>(&mut self, sink: &mut W) -> Result<(), WriteFailed>
        ensures wrote { WrotePart self.old W.view sink.old sink.new variable_closing result }
        ensures ok { OnOk result (self.new ≡ self.old) }
        ensures failed { OnErr result (has_failed self.new ≡ true) }
        ensures repeats { has_failed self.old ≡ true → IsErr result × (W.view sink.new ≡ W.view sink.old) }
    {
        if self.has_failed {
            return Err(WriteFailed);
        }
        let written = put(sink, self.layout.closing());
        self.remember_failure(written)
    }

    /// Returns `written`, and sets `has_failed` if that is an error, so that each later call fails too.
    fn remember_failure(&mut self, written: Result<(), WriteFailed>) -> Result<(), WriteFailed>
        ensures same { result ≡ written }
        ensures ok { OnOk written (self.new ≡ self.old) }
        ensures failed { OnErr written (has_failed self.new ≡ true) }
    {
        if written.is_err() {
            self.has_failed = true;
        }
        written
    }
}

/// Writes the next values of a variable, by [`put_char_values`] or [`put_number_values`], and moves `progress` past them. Needs in `bytes`,
/// big-endian, no more of them than the variable has left. `text` is a buffer for their text, and may hold anything. Errs if the sink
/// fails; then `progress` may be anything.
fn put_next_values<W: Sink>(
    sink: &mut W,
    layout: &TextLayout<'_>,
    progress: &mut Progress,
    text: &mut TextBuffer,
    bytes: &[u8],
) -> Result<(), WriteFailed>
    requires { AreLeft (next layout.now progress.old bytes.now) }
    ensures after { OnOk result (IsAfterNext (next layout.now progress.old bytes.now) progress.new) }
    ensures wrote { WroteNext W.view sink.old sink.new (next layout.now progress.old bytes.now) result }
{
    if layout.is_char() {
        put_char_values(sink, layout, progress, text, bytes)
    } else {
        put_number_values(sink, layout, progress, text, bytes)
    }
}
