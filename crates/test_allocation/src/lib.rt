//! Tests of what allocates. `tests/allocation_failures.sh` runs each of them with each of its allocations failing in turn: a test ends with
//! the error of memory then, and asserts that nothing was written.
#![tactic(auto)]

#[cfg(test)]
mod checks;
#[cfg(test)]
mod dumps;
#[cfg(test)]
mod texts;
