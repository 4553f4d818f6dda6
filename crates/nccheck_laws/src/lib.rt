//! The laws of what is found in files: what nothing found says of the layout of a file, and what the report of a file says of reading the
//! file, and of the file that is generated from the same dataset. They are about definitions, and nothing here runs.
#![tactic(auto, using(crate::proofs::ProvedLaws::laws))]

pub mod laws;
