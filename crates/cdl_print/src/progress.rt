//! How far the values of a variable are printed.

ghost use Rattle.std.specs.Prelude.{◌≡◌, ◌+◌, ◌<◌, ◌≤◌, ◌==◌, ◌^◌, if◌then◌else◌};

/// How far the values of a variable are printed.
#[derive(Clone, Copy)]
pub struct Progress {
    /// How many values are printed.
    pub position: u128,
    /// The next value's index in its row.
    pub row_index: u128,
    /// How many bytes more the last line may have, if the values are numbers.
    pub columns_left: usize,
    /// How many NULs directly before the next value, in the same row, aren't printed yet.
    pub held_nuls: u128,
    ghost in_row: { row_index ≤ position },
    ghost waiting: { held_nuls ≤ position },
}

/// Returns the index in its row of the value that comes after `count` values of one row, the first of them at `row_index`. This is
/// `row_index + count`, or 0 if that is `row`, the number of values of a row: then the next row begins. Needs a sum below 2^128.
pub fn row_index_after(row: u128, row_index: u128, count: u128) -> u128
    requires { row_index + count < 2 ^ 128 }
    ensures row_index { result ≡ (if row_index + count == row then 0 else row_index + count) }
    ensures within { result ≤ row_index + count }
{
    if row_index + count == row {
        0
    } else {
        row_index + count
    }
}
