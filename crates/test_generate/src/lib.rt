//! Tests of `ncgen` that go across the crates: texts and their files, byte for byte, the way back to the text, the reading of texts, and
//! whole runs.
#![tactic(auto)]

#[cfg(test)]
mod failing_runs;
#[cfg(test)]
mod fault_words;
#[cfg(test)]
mod full_disks;
#[cfg(test)]
mod generated_files;
#[cfg(test)]
mod generating;
mod readers;
#[cfg(test)]
mod reading_text;
#[cfg(test)]
mod refusals;
#[cfg(test)]
mod round_trips;
#[cfg(test)]
mod rows;
#[cfg(test)]
mod runs;
#[cfg(test)]
mod written_files;
