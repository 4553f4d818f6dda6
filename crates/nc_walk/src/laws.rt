//! Laws of the definitions, each the contract of a function that does nothing.

ghost use Rattle.nc_walk.specs.code.Walked.{StoredNumbers};

/// States a law, and does nothing. If a file has all bytes of a variable's first values, then these bytes, put one after the other and read
/// as numbers of the variable's type, give the same numbers as each value read by itself at its own offset. So a caller that was handed
/// chunks up to the first missing value has all values before it.
#[tactic(auto, using(crate::proofs::Stored::stored_numbers))]
pub fn values_are_read()
    ensures { StoredNumbers }
{}
