//! An open variable: the header of its file, and its index there.

use nc_base::{Header, Var, record_layout};
use nc_walk::Walk;

/// A variable of a file whose header was read. Its functions need what holds of each one that [`open_variable`](crate::open::open_variable)
/// returns (`IsReady`): a sound header (`nc_base::Header::sound`), and the index of one of its variables.
#[derive(Debug, Drop)]
pub struct OpenVariable {
    /// The header of its file.
    pub header: Header,
    /// Its index in the header's list of variables.
    pub index: usize,
}

impl OpenVariable {
    ghost use Rattle.std.specs.Prelude.{◌≡◌, ◌≤◌, Some, length, slice_get};
    ghost use Rattle.nc_base.specs.Sizes.{record_count};
    ghost use Rattle.nc_walk.specs.code.Walks.{Starts};
    ghost use Rattle.example.specs.Opened.{IsReady};

    /// Returns the variable itself, with its type, shape and attributes. Needs an open variable as [`open_variable`](crate::open::open_variable)
    /// returns it.
    pub fn var(&self) -> &Var
        requires { IsReady self.now }
        ensures { slice_get self.now.header.vars self.now.index ≡ Some result.now }
    {
        &self.header.vars.as_slice()[self.index]
    }

    /// Returns a walk at the variable's first value, over all records of a file of `file_len` bytes. The walk lends its chunks out of
    /// `buf`. Needs an open variable as [`open_variable`](crate::open::open_variable) returns it, and a buffer of at least 16 bytes.
    pub fn walk<'a>(&self, file_len: u64, buf: &'a mut [u8]) -> Walk<'a>
        requires opened { IsReady self.now }
        requires capacity { 16 ≤ length buf.old }
        ensures { Starts self.now.header self.now.index (record_count self.now.header file_len)
            (length buf.old) result }
    {
        let layout = record_layout(&self.header, file_len);
        Walk::with_layout(&self.header, self.index, layout, buf)
    }
}
