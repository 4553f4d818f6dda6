//! The name that a dump gives a file.

ghost use Rattle.std.specs.Prelude.{◌≡◌};
ghost use Rattle.nc_base.specs.Paths.{file_name_of, without_extension, stem_of};

/// Returns the name that a dump gives the dataset of the file at this path, unless `-n` of ncdump(1) gives another: the part after the last
/// `/`, without its extension. The extension begins at the last `.` of that part, unless that `.` is the part's first byte. So `in/a.b.nc`
/// gives `a.b`, and `in/.nc` gives `.nc`.
pub fn stem(path: &str) -> &str
    ensures { result.now ≡ stem_of path.now }
{
    without_extension(file_name(path))
}

/// Returns the part of a path after its last `/`, or the whole path if it has none.
fn file_name(path: &str) -> &str
    ensures { result.now ≡ file_name_of path.now }
{
    match path.rfind('/') {
        Some(slash) => &path[slash + 1..],
        None => path,
    }
}

/// Returns the part of a name before its last `.`, or the whole name if no `.` comes after its first byte.
fn without_extension(name: &str) -> &str
    ensures { result.now ≡ without_extension name.now }
{
    match name.rfind('.') {
        Some(dot) if dot > 0 => &name[..dot],
        _ => name,
    }
}
