//! What to show of a file.

use nc_base::Sequence;

/// What to show of a file, and under which name (the options of ncdump(1)).
#[derive(Debug, Drop)]
pub struct DumpOptions {
    /// The path of the file, which fault lines name.
    pub file: String,
    /// The name that the text gives the dataset: `-n`, or the stem of the path.
    pub name: Sequence<u8>,
    /// True if the header alone is shown: `-h`.
    pub head_only: bool,
    /// True if the values of coordinate variables alone are shown: `-c`.
    pub coords: bool,
    /// The names of the variables whose values may be shown: `-v`. `None` allows every name.
    pub chosen: Option<Sequence<Sequence<u8>>>,
    /// The width, in bytes, at which lines of values that aren't characters are broken: `-l`, which takes 20 to 1000. [`dump`](crate::dump)
    /// takes any width.
    pub width: usize,
}
