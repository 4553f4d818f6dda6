//! The options of the program `nccheck`: what the words of its command line ask for, or how they are misused.
//!
//! [`options_of_words`] reads the words by [`command`], and [`options_of`] reads the matches of the command.
#![tactic(auto)]

mod command_line;
mod kind_words;
mod misuse;
mod options;

pub use command_line::{command, options_of, options_of_words};
pub use misuse::{CommandFault, Misuse};
pub use options::{CheckOptions, Form};
