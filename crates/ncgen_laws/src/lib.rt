//! The laws that join the file of a text to the text: what a dump of it is, and what is generated from a dump. They are about definitions,
//! and nothing here runs.
#![tactic(auto)]

pub mod laws;
