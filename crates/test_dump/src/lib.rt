//! Tests of dumps that go across the crates: whole files, dumped through buffers of every length, command lines and whole runs.
#![tactic(auto)]

#[cfg(test)]
mod call_counts;
#[cfg(test)]
mod command_lines;
#[cfg(test)]
mod dump_rows;
#[cfg(test)]
mod dumps;
#[cfg(test)]
mod failures;
#[cfg(test)]
mod fault_words;
#[cfg(test)]
mod selections;
