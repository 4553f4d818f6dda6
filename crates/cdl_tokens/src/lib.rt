//! The tokens of a CDL text (the CDL chapter of the NetCDF User's Guide, "CDL Syntax" and "CDL Notation for Data Constants").
//!
//! `specs/` has the definitions: classes of bytes, escapes, what bytes begin with, the tokens of a text, and what number
//! tokens say. How tokens make statements is defined and read in `cdl_statements`.
//!
//! ```
//! let mut scanner = Scanner::new(text);
//! let mut token = scanner.token();
//! while !token.kind.is_end() {
//!     println!(rt;
//!         "line {}: {:?}, {} bytes",
//!         token.line,
//!         token.kind,
//!         token.bytes(text).len()
//!     )?;
//!     token = scanner.token();
//! }
//! ```
#![tactic(auto)]

mod bytes;
mod digits;
mod escape;
mod numeral;
mod plain_number;
mod plain_string;
mod scan;
mod scanner;
mod search;
mod string;
mod token;
mod underscore;
mod unescaped;

pub use bytes::{byte_at, first_bytes, is_escape};
pub use escape::{character, len_before_escape};
pub use numeral::{Numeral, number_of_token};
pub use scan::{Character, Scanned};
pub use scanner::{ListedNumber, ListedToken, Scanner};
pub use token::{Token, TokenKind};
pub use unescaped::{Unescaped, gather_unescaped};
