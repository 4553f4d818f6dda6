//! A variable or a type that was read, with the bytes of the padded slabs of the record variables up to and including that variable.

use nc_base::{NcType, Var};

/// A variable that was read, with the sum that limits the size of a record.
#[derive(Drop)]
pub struct SizedVar {
    /// The variable.
    pub var: Var,
    /// The bytes of the padded slabs of all record variables up to and including `var`.
    pub total: u64,
}

/// The type of a variable that was read, with the sum that limits the size of a record.
#[derive(Drop)]
pub struct SizedType {
    /// The type.
    pub ty: NcType,
    /// The bytes of the padded slabs of all record variables up to and including the one that has this type.
    pub total: u64,
}
