//! Tests of the crates under the programs, each by itself: devices, call by call; types and sizes; headers, walks and data parts, read and
//! written through buffers of every length; and the text of heads and values.
#![tactic(auto)]

#[cfg(test)]
mod data_parts;
#[cfg(test)]
mod files;
#[cfg(test)]
mod header_reads;
#[cfg(test)]
mod header_rows;
#[cfg(test)]
mod headers;
#[cfg(test)]
mod heads;
#[cfg(test)]
mod listed_rows;
#[cfg(test)]
mod sizes;
#[cfg(test)]
mod sources;
#[cfg(test)]
mod streams;
#[cfg(test)]
mod types_and_names;
#[cfg(test)]
mod values;
#[cfg(test)]
mod walks;
#[cfg(test)]
mod written_headers;
