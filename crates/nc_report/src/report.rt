//! The report of a file.

ghost use Rattle.std.specs.Prelude.{◌≡◌, ◌≤◌, length, IfOk};
ghost use Rattle.std.specs.Bool.{OnTrue};
ghost use Rattle.nc_window.specs.code.Window.{ReadUpTo};
ghost use Rattle.nc_fields.specs.Listings.{Blames, read_end};
ghost use Rattle.nc_report.specs.Reports.{IsReport};

use devices::Source;
use nc_fields::list_fields;
use nc_findings::{ListFault, Report};
use nc_rules::findings_of;
use std::alloc::Global;

/// Checks the file that a source holds, through a caller's buffer of at least 16 bytes, which may hold anything before and after. Files of
/// all types of the format are taken.
///
/// It reads the header once, forward, and at most one buffer more of a transparent source than the header, or than the bytes up to the end
/// of the first wrong field, or than the first 52 bytes of a file that isn't netCDF. No finding depends on the data: begins and sizes are
/// compared with the length of the source. It takes memory in proportion to what was read of the header, without the values of attributes,
/// and time in proportion to n log n for n fields.
///
/// # Errors
///
/// [`ListFault::ReadFailed`] at once if the source fails, and [`ListFault::OutOfMemory`] at once if an allocation fails. What is wrong with
/// the file is no error, but a part of the report.
pub fn check<S: Source>(alloc: Global, source: &mut S, buf: &mut [u8]) -> Result<Report, ListFault>
    requires { 16 ≤ length buf.old }
    ensures bytes { (S.view source.new).bytes ≡ (S.view source.old).bytes }
    ensures cause { Blames (S.view source.old).failures (S.view source.new) result }
    ensures report { OnTrue S.is_transparent (IfOk result (IsReport (S.view source.old).bytes)) }
    ensures forward { IfOk result (λ r.
        ReadUpTo (S.view source.old).handed (S.view source.new).handed (read_end r.listing) (length buf.old)) }
{
    let listing = list_fields(alloc, source, buf)?;
    let findings = findings_of(alloc, &listing)?;
    Ok(Report { listing, findings })
}
