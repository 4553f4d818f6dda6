//! CDL, the text form of netCDF, as it is printed: names, attributes, the head of a dump and values.
//!
//! Each function writes its text to a [`Sink`](devices::Sink) from beginning to end, and does not allocate. It errs only if the
//! sink fails, and writes nothing after that.
//!
//! ```
//! put_head(sink, b"a", header, records)?;
//! let mut printer = ValuePrinter::new(header, var_index, records, 80);
//! let mut text = [0; 4096];
//! printer.start(sink)?;
//! if printer.takes(values) {
//!     printer.values(sink, &mut text, values)?;
//! }
//! printer.finish(sink)?;
//! ```
//!
//! Here `values` are values of that variable, big-endian, such as a chunk of a `Walk` of `nc_walk`. There may be many such calls. `text` is
//! a [`TextBuffer`], and one serves all variables.
#![tactic(auto)]

mod attribute;
mod byte_number;
mod char_row;
mod decimal;
mod escaped;
mod fixed_text;
mod head;
mod layout;
mod lead;
mod literal;
mod name;
mod number;
mod number_line;
mod number_row;
mod opening;
mod printed_fill;
mod printer;
mod progress;
mod put;
mod string;
mod trailing_nuls;
mod variable;

pub use escaped::put_escaped;
pub use head::put_head;
pub use name::put_name;
pub use number_row::TextBuffer;
pub use printer::ValuePrinter;
