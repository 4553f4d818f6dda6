//! Names that are taken, and the order of faults.

ghost use Rattle.std.specs.Prelude.{◌≡◌};
ghost use Rattle.cdl_parse.specs.code.TakenNames.{duplicate_name_or};

use cdl_statements::CdlKind;
use cdl_values::ReadError;

/// Returns the error to report for a new dimension, variable or attribute, after whose name `error` was found. If `error` is a fault, and
/// another one has the name already (`is_taken`), this is `DuplicateName`, since the name comes first in the text. Otherwise it is `error`.
pub fn duplicate_name_or(is_taken: bool, error: ReadError) -> ReadError
    ensures { result ≡ duplicate_name_or is_taken error }
{
    match error {
        ReadError::Fault(_) if is_taken => ReadError::Fault(CdlKind::DuplicateName),
        _ => error,
    }
}
