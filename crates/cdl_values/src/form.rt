//! In which form a variable takes the values that a statement lists.

ghost use Rattle.std.specs.Prelude.{◌≡◌, ℕ, List, length};

use crate::capacity::Capacity;
use crate::fill::Fill;

/// The form in which a variable takes the values that a statement of the data section lists: numbers, joined strings, or rows of
/// characters.
#[derive(Clone, Copy)]
pub enum ValueForm {
    /// Numbers of the type of this fill value. `_` stands for the fill value.
    Numbers(Fill),
    /// Strings, joined one after the other, for characters of rank 0 or 1.
    Joined,
    /// One string for each row of `len` bytes, which is filled up with the byte `fill`, for characters of rank 2 and up.
    Rows { len: u64, fill: u8 },
}

impl ValueForm {
    ghost use Rattle.cdl_values.specs.code.PackedValues.{capacity_after};

    /// Returns the capacity that is left of `capacity` after a value of `n` bytes. A number or a row takes 1 of it, and a joined string
    /// takes `n`.
    pub fn capacity_after(self, n: u128, capacity: Capacity) -> Capacity
        ensures { (bytes : List ℕ) → length bytes ≡ n → result ≡ capacity_after self bytes capacity }
    {
        match self {
            ValueForm::Numbers(_) | ValueForm::Rows { .. } => capacity.minus(1),
            ValueForm::Joined => capacity.minus(n),
        }
    }
}
