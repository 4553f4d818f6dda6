//! The paths of a list.

ghost use Rattle.std.specs.Prelude.{◌≡◌, None, Some, IfErr, IfOk};
ghost use Rattle.nccheck.specs.PathLists.{path_fault, with_byte};

use crate::fault::PathFault;
use arrayvec::ArrayVec;
use check_lines::LONGEST_PATH;
use std::str;

/// A path as a list gives it, byte by byte: of one that is too long, one byte more than the longest path has.
pub(crate) type ListedPath = ArrayVec<u8, 65_536>;

/// Appends a byte to a path, unless the path has more than [`LONGEST_PATH`] bytes already, and so can't be opened.
#[tactic(auto, unfolding(crate::specs::PathLists::with_byte))]
pub(crate) fn push_byte(path: &mut ListedPath, b: u8)
    ensures { path.new.items ≡ with_byte path.old.items b }
{
    if path.len() <= LONGEST_PATH {
        path.push(b);
    }
}

/// Returns the path as text. Errs if it can't be opened since it is empty, has more than [`LONGEST_PATH`] bytes, or isn't UTF-8.
#[tactic(auto, unfolding(crate::specs::PathLists::path_fault))]
pub(crate) fn path_of(file: &[u8]) -> Result<&str, PathFault>
    ensures text { IfOk result (λ path. (path.now ≡ file.now) × (path_fault file.now ≡ None)) }
    ensures fault { IfErr result (λ why. path_fault file.now ≡ Some why) }
{
    if file.is_empty() {
        return Err(PathFault::Empty);
    }
    if file.len() > LONGEST_PATH {
        return Err(PathFault::TooLong);
    }
    match str::from_utf8(file) {
        Ok(path) => Ok(path),
        Err(_) => Err(PathFault::NotUtf8),
    }
}
