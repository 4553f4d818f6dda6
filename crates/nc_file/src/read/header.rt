//! The whole header.

ghost use Rattle.std.specs.Prelude.{◌≡◌, ◌≤◌, length, IfOk};
ghost use Rattle.nc_base.specs.Grammar.{header_part, header_spelling, magic_part, numrecs_part, version_part, strict};
ghost use Rattle.nc_base.specs.Headers.{IsSound};
ghost use Rattle.nc_base.specs.code.Weight.{weight_of};
ghost use Rattle.nc_file.specs.code.Answers.{AnswersIn, ReadAtLeast};
ghost use Rattle.nc_base.specs.Parts.{bytes};
ghost use Rattle.nc_base.specs.declared.fault.FormatFault.TheVariants.{NotNetcdf};
ghost use Rattle.nc_window.specs.code.Window.{Caused, Read};

use super::attribute::read_att_list;
use super::dimension::read_dim_list;
use super::variable::read_var_list;
use devices::Source;
use nc_base::{FormatFault, Header, NumRecs, Version};
use nc_window::{HeadFault, Window};
use std::alloc::Global;

/// Reads the header at the start of a source, through a caller's buffer of at least 16 bytes, which may hold anything before and after.
/// Whatever the source, the returned header is sound (`nc_base::Header::sound`), and the source has handed over at least as many bytes as
/// the header takes in a file ([`header_len`](crate::header_len)), and as many as its weight (`nc_base::weight`). The header takes memory
/// in proportion to its weight.
///
/// It reads from the source only when the next field lacks a byte in the buffer, and from that byte on. So it reads at most one buffer more
/// of a transparent source ([`Source`]) than the header, or than the bytes up to the end of the first wrong field. No count of the header
/// reserves memory: a list grows as its elements are read. The padding of names and attributes may be any bytes (NetCDF Classic Format
/// Specification).
///
/// # Errors
///
/// [`HeadFault::ReadFailed`] at once if the source fails, [`HeadFault::OutOfMemory`] at once if an allocation fails, and otherwise what is
/// wrong with the first wrong field from the left. If the source gives no bytes before its length is reached, the file counts as ended
/// there.
#[tactic(auto, using(crate::proofs::Weights::weighs_no_more))]
pub fn read_header<S: Source>(
    alloc: Global,
    source: &mut S,
    buf: &mut [u8],
) -> Result<Header, HeadFault>
    requires { 16 ≤ length buf.old }
    ensures bytes { (S.view source.new).bytes ≡ (S.view source.old).bytes }
    ensures cause { Caused (S.view source.old).failures (S.view source.new) result }
    ensures answer { AnswersIn S.is_transparent (S.view source.old) (S.view source.new) buf.old result }
    ensures sound { IfOk result IsSound }
    ensures spelled { IfOk result (λ h. ReadAtLeast (S.view source.old) (S.view source.new)
        (length (header_spelling h))) }
    ensures weight { IfOk result (λ h. ReadAtLeast (S.view source.old) (S.view source.new)
        (weight_of h)) }
{
    match read_unchecked_header(alloc, source, buf) {
        Ok(header) if !header.sound() => Err(HeadFault::Format(FormatFault::TooLarge)),
        answer => answer,
    }
}

/// Reads the header as [`read_header`] does, but doesn't check at the end that it is sound. Of a transparent source ([`Source`]) the
/// contract promises that it is sound all the same; for any other, [`read_header`] has to check it.
fn read_unchecked_header<S: Source>(
    alloc: Global,
    source: &mut S,
    buf: &mut [u8],
) -> Result<Header, HeadFault>
    requires { 16 ≤ length buf.old }
    ensures bytes { (S.view source.new).bytes ≡ (S.view source.old).bytes }
    ensures cause { Caused (S.view source.old).failures (S.view source.new) result }
    ensures answer { AnswersIn S.is_transparent (S.view source.old) (S.view source.new) buf.old result }
    ensures spelled { IfOk result (λ h. ReadAtLeast (S.view source.old) (S.view source.new)
        (length (header_spelling h))) }
{
    read_whole_header(&mut Window::new(source, buf), alloc)
}

/// Reads the three bytes that should be `CDF`, and returns them without checking them. Errs with `NotNetcdf` if fewer are left, and
/// with `ReadFailed` if the source fails.
#[tactic(auto, using(crate::proofs::Elements::cuts), unfolding(nc_base::specs::code::PartRuns::printed_len))]
fn read_magic_letters<S: Source>(window: &mut Window<'_, S>) -> Result<[u8; 3], HeadFault>
    ensures { Read window.old window.new (bytes 3 NotNetcdf) result }
{
    match window.array() {
        Err(HeadFault::Format(_)) => Err(HeadFault::Format(FormatFault::NotNetcdf)),
        answer => answer,
    }
}

/// Reads the version byte, and returns its version. Errs with `UnknownVersion` if the byte is none of 1, 2 and 5, with
/// `HeaderTruncated` if there is none, and with `ReadFailed` if the source fails.
#[tactic(auto, using(nc_window::proofs::PartRuns::part_runs), unfolding(nc_base::specs::Grammar::version_part, nc_base::specs::code::PartRuns::printed_len))]
fn read_version<S: Source>(window: &mut Window<'_, S>) -> Result<Version, HeadFault>
    ensures { Read window.old window.new version_part result }
{
    let bytes: [u8; 1] = window.array()?;
    Ok(Version::of_byte(bytes[0]).ok_or(FormatFault::UnknownVersion(bytes[0]))?)
}

/// Reads `CDF` and the version byte, and returns the version. Errs with `NotNetcdf` if other bytes than `CDF` come, or too few, with
/// `UnknownVersion` if the version byte is none of 1, 2 and 5, with `HeaderTruncated` if it is missing, and with `ReadFailed` if the
/// source fails.
#[tactic(auto, using(nc_window::proofs::PartRuns::part_runs), unfolding(nc_base::specs::Grammar::magic_part, nc_base::specs::code::PartRuns::printed_len))]
fn read_magic<S: Source>(window: &mut Window<'_, S>) -> Result<Version, HeadFault>
    ensures { Read window.old window.new magic_part result }
{
    let letters = read_magic_letters(window)?;
    if letters[..] != b"CDF"[..] {
        return Err(HeadFault::Format(FormatFault::NotNetcdf));
    }
    read_version(window)
}

/// Reads the number of records (eight bytes in CDF-5, otherwise four), and returns it, or `Streaming` if all of its bits are 1. Errs
/// with `BadCount` if its top bit is 1, but not all of its bits are, with `HeaderTruncated` if bytes are missing, and with `ReadFailed`
/// if the source fails.
#[tactic(auto, using(nc_window::proofs::PartRuns::part_runs), unfolding(nc_base::specs::Grammar::numrecs_part, nc_base::specs::code::PartRuns::printed_len))]
fn read_numrecs<S: Source>(
    window: &mut Window<'_, S>,
    version: Version,
) -> Result<NumRecs, HeadFault>
    ensures { Read window.old window.new (numrecs_part strict version) result }
{
    let n = window.number(version)?;
    if n == version.streaming_mark() {
        return Ok(NumRecs::Streaming);
    }
    if version.count_limit() <= n {
        return Err(HeadFault::Format(FormatFault::BadCount));
    }
    Ok(NumRecs::Known(n))
}

/// Reads the whole header, and returns it. Errs with the fault of the first wrong field, with `ReadFailed` if the source fails, and
/// with `OutOfMemory` if an allocation fails.
#[tactic(auto, using(nc_window::proofs::PartRuns::part_runs), unfolding(nc_base::specs::Grammar::header_by, nc_base::specs::code::PartRuns::printed_len))]
fn read_whole_header<S: Source>(
    window: &mut Window<'_, S>,
    alloc: Global,
) -> Result<Header, HeadFault>
    ensures { Read window.old window.new header_part result }
{
    let version = read_magic(window)?;
    let numrecs = read_numrecs(window, version)?;
    let dims = read_dim_list(window, alloc, version)?;
    let gatts = read_att_list(window, alloc, version)?;
    let vars = read_var_list(window, alloc, version, dims.as_slice())?;
    Ok(Header {
        version,
        numrecs,
        dims,
        gatts,
        vars,
    })
}
