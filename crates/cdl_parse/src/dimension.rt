//! The length of a dimension.

ghost use Rattle.std.specs.Prelude.{◌≡◌, Some, None};
ghost use Rattle.cdl_tokens.specs.code.Magnitudes.{held};
ghost use Rattle.cdl_tokens.specs.Numerals.{Parts};
ghost use Rattle.cdl_parse.specs.code.DimensionLengths.{IsLength, len_by, number_len};

use cdl_statements::CdlKind;
use cdl_tokens::Numeral;
use nc_base::Version;

/// Returns the length that a new dimension gets (`dim_len` of `nc_base` returns that of an old one). `n` is the length in the text, or
/// `None` for the record dimension, which gets length 0. `has_record` is true if there is a record dimension already.
///
/// # Errors
///
/// A length of 0 (`ZeroDimension`), one below 0 or too great for the version (`NumberRange`); a second record dimension (`TwoRecordDims`).
#[tactic(auto, using(crate::proofs::Lengths::lens))]
pub fn dim_len(version: Version, has_record: bool, n: Option<Numeral>) -> Result<u64, CdlKind>
    ensures unlimited { n ≡ None → IsLength version has_record None result }
    ensures number { (p : Parts) → n ≡ Some (held p) → IsLength version has_record (len_by p) result }
{
    match n {
        Some(n) => number_len(version, n),
        None if has_record => Err(CdlKind::TwoRecordDims),
        None => Ok(0),
    }
}

/// Returns the length that the number `n` stands for. Errs with `ZeroDimension` if it is 0, and with `NumberRange` if it is negative or too
/// great for the version, that is, not below [`Version::count_limit`].
fn number_len(version: Version, n: Numeral) -> Result<u64, CdlKind>
    ensures { result ≡ number_len version n }
{
    match n.magnitude {
        Some(0) => Err(CdlKind::ZeroDimension),
        Some(len) if !n.minus && len < version.count_limit() => Ok(len),
        _ => Err(CdlKind::NumberRange),
    }
}
