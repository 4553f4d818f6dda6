//! The cursor of a value among a variable's values.

ghost use Rattle.std.specs.Prelude.{◌≡◌, ◌+◌, ◌*◌, ◌≤◌, ◌↔◌, IsTrue};
ghost use Rattle.nc_walk.specs.code.Slabs.{total, number_at, IsCursor};

use crate::slabs::Slabs;

/// The place of a value among a variable's values: its slab, and its position in there. A walk keeps it instead of the value's number, so
/// it needs no division to find the value.
#[derive(Clone, Copy)]
pub(crate) struct Cursor {
    /// The number of the slab that has the value, counted from 0.
    pub(crate) slab: u64,
    /// The position of the value in its slab, counted from 0.
    pub(crate) within: u64,
}

impl Cursor {
    /// Returns the number of the value at this cursor among all values of the variable, counted from 0.
    pub(crate) fn number(self, slabs: Slabs) -> u128
        ensures { result ≡ number_at slabs self }
    {
        self.slab as u128 * slabs.values_per_slab as u128 + self.within as u128
    }

    /// Returns true if this is the cursor after the last value. Needs the cursor of a value of these slabs, or that one.
    pub(crate) fn is_end(self, slabs: Slabs) -> bool
        requires { IsCursor slabs self }
        ensures { IsTrue result ↔ (number_at slabs self ≡ total slabs) }
    {
        self.slab == slabs.total_slabs
    }

    /// Returns the cursor `n` values further on. If the slab ends after these, that is the start of the next slab, or the cursor after the
    /// last value if there is no next slab. Needs the cursor of a value, or the one after the last value, and at least `n` values from it
    /// to the end of its slab: after the last value there are none.
    pub(crate) fn cursor_after(self, slabs: Slabs, n: u64) -> Cursor
        requires cursor { IsCursor slabs self }
        requires in_slab { self.within + n ≤ slabs.values_per_slab }
        requires left { number_at slabs self + n ≤ total slabs }
        ensures cursor { IsCursor slabs result }
        ensures number { number_at slabs result ≡ number_at slabs self + n }
    {
        let within = self.within + n;
        if within == slabs.values_per_slab {
            Cursor {
                slab: self.slab + 1,
                within: 0,
            }
        } else {
            Cursor {
                slab: self.slab,
                within,
            }
        }
    }
}
