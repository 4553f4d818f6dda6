//! Which files to check, and what to report.

use nc_base::Sequence;
use nc_findings::Filter;

/// How the findings of a file are written to standard output.
#[derive(Clone, Copy, Debug)]
pub enum Form {
    /// A line for each finding.
    Lines,
    /// A JSON object for each finding, in a line of its own: `-j`.
    Objects,
    /// The path of the file, ended by a NUL, if something is reported of it: `-p`.
    Paths,
}

/// Which files to check, and what to report of them (the options of nccheck(1)).
#[derive(Debug, Drop)]
pub struct CheckOptions<'a> {
    /// The paths of the files, in the order of the words.
    pub files: Sequence<&'a str>,
    /// True if more paths are read from standard input, each ended by a NUL: `-0`.
    pub reads_paths_from_input: bool,
    /// True if files aren't checked: a line tells the format of each ([`Version`](nc_base::Version)): `-k`.
    pub tells_formats: bool,
    /// Which findings to report.
    pub filter: Filter,
    /// How they are written to standard output.
    pub form: Form,
    /// True if no finding is written to standard output: `-q`.
    pub is_quiet: bool,
    /// True if a last line says how many files were checked, and what was reported of them: `-s`.
    pub has_summary: bool,
}
