//! Tests of `nccheck` and of the crates under it: the lines of runs over files that are changed or cut, the fields that are listed of
//! headers, what is found in listings, and the statuses of runs.
#![tactic(auto)]

#[cfg(test)]
mod faults;
#[cfg(test)]
mod headers;
#[cfg(test)]
mod json_lines;
#[cfg(test)]
mod layouts;
#[cfg(test)]
mod lines;
#[cfg(test)]
mod listings;
#[cfg(test)]
mod runs;
#[cfg(test)]
mod statuses;
