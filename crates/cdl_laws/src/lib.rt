//! The laws that join the text that a dump prints to what a text means. They are about definitions, and nothing here runs.
#![tactic(auto)]

pub mod laws;
