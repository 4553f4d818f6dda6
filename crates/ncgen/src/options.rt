//! What to make of a text.

use nc_base::Version;

/// Which text to read, and which file to write (the options of ncgen(1)).
#[derive(Debug, Drop)]
pub struct GenOptions {
    /// The version of the format: `-k`.
    pub kind: Version,
    /// The path of the file to write, or `None` if none is written: `-o`, or the name that `-b` makes of the text's path.
    pub out: Option<String>,
    /// The path of the text, or `None` if the text is read from standard input.
    pub file: Option<String>,
}
