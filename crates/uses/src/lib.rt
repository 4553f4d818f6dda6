//! The examples on the pages of the libraries: each page shows the body of a function of this crate, which is compiled and proved with the
//! rest. `tests/documents.py` compares the two.
#![tactic(auto)]

pub mod checks;
pub mod files;
pub mod programs;
pub mod surface;
pub mod texts;
