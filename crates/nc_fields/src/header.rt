//! The whole header.

ghost use Rattle.std.specs.Prelude.{◌≡◌, ◌≤◌, ◌∷◌, [], codes, if◌then◌else◌, length, map, min, IfOk, Ok, Err};
ghost use Rattle.std.specs.Bool.{OnTrue};
ghost use Rattle.std.specs.Str.{bytes_eq};
ghost use Rattle.nc_base.specs.Grammar.{checked, header_by, magic_part, version_part};
ghost use Rattle.nc_base.specs.Parts.{Magic, VersionByte, bytes};
ghost use Rattle.nc_base.specs.declared.fault.FormatFault.TheVariants.{HeaderTruncated, NotNetcdf};
ghost use Rattle.nc_fields.specs.Lenient.{lenient};
ghost use Rattle.nc_window.specs.declared.head_fault.HeadFault.TheVariants.{Format};
ghost use Rattle.nc_window.specs.code.Window.{left, ReadUpTo};
ghost use Rattle.nc_fields.specs.Entries.{seen_by};
ghost use Rattle.nc_fields.specs.Listings.{Blames, IsListing, read_end};
ghost use Rattle.nc_fields.specs.code.Answers.{Answers};
ghost use Rattle.nc_fields.specs.code.Checks.{with_fault};

use crate::fields::{FieldReader, pending_field};
use crate::list_name::HeaderList;
use crate::name::filling_bytes;
use crate::start::start_of;
use devices::Source;
use nc_base::{FormatFault, Header, Sequence, Version};
use nc_findings::{Content, Entry, FieldKind, ListFault, Listing, Owner};
use nc_window::{HeadFault, Window};
use std::alloc::{AllocError, Global};

/// The fields for which there is room in the first allocation of a listing: those of a header of a few variables.
const FEW_FIELDS: usize = 128;

/// Lists the fields of the header at the start of a source, through a caller's buffer of at least 16 bytes, which may hold anything before
/// and after. All types of the format are taken, in CDF-1 and CDF-2 any dimension's length and number of records, and names that aren't
/// valid, if they aren't empty and have no control character but NULs at the end.
///
/// It reads forward, and at most one buffer more of a transparent source than the header, or than the bytes up to the end of the first
/// wrong field, or than the first 52 bytes of a file that isn't netCDF. No count of the header reserves memory: the list grows as fields
/// are read. The values of attributes are passed over.
///
/// # Errors
///
/// [`ListFault::ReadFailed`] at once if the source fails, and [`ListFault::OutOfMemory`] at once if an allocation fails. What is wrong with
/// the header is no error, but a part of the listing.
pub fn list_fields<S: Source>(
    alloc: Global,
    source: &mut S,
    buf: &mut [u8],
) -> Result<Listing, ListFault>
    requires { 16 ≤ length buf.old }
    ensures bytes { (S.view source.new).bytes ≡ (S.view source.old).bytes }
    ensures cause { Blames (S.view source.old).failures (S.view source.new) result }
    ensures listing { OnTrue S.is_transparent (IfOk result (IsListing (S.view source.old).bytes)) }
    ensures forward { IfOk result (λ l.
        ReadUpTo (S.view source.old).handed (S.view source.new).handed (read_end l) (length buf.old)) }
{
    let len = source.len();
    let mut window = Window::new(source, buf);
    let mut fields = FieldReader {
        alloc,
        entries: Sequence::from_vec(Vec::with_capacity(alloc, FEW_FIELDS)?),
    };
    let answer = fields.header(&mut window);
    let mut listing = answered(fields, window.offset_of_next(), len, answer)?;
    let start = start_of(alloc, &mut window, listing.entries.as_slice())?;
    listing.start = start;
    Ok(listing)
}

/// Returns the listing of `fields`, in a file of `file_len` bytes, if reading the header gave `answer` and ended at the offset `end`. A
/// fault of the bytes becomes that of the last field and of the listing. Its `start` is for the caller to put there. Errs if `answer` is
/// any other error, and if an allocation fails.
fn answered(
    fields: FieldReader,
    end: u64,
    file_len: u64,
    answer: Result<Header, HeadFault>,
) -> Result<Listing, ListFault>
    ensures { Answers fields.entries end file_len answer result }
{
    let FieldReader { alloc, entries } = fields;
    let start = Sequence::new(alloc);
    match answer {
        Ok(header) => Ok(Listing {
            entries,
            header: Ok(header),
            start,
            end,
            file_len,
        }),
        Err(HeadFault::Format(fault)) => Ok(Listing {
            entries: with_fault(entries, fault)?,
            header: Err(fault),
            start,
            end,
            file_len,
        }),
        Err(HeadFault::OutOfMemory) => Err(ListFault::OutOfMemory),
        Err(HeadFault::ReadFailed) => Err(ListFault::ReadFailed),
    }
}

/// Returns the fields with this fault at the last one, where reading has stopped, or none if there are none. Errs if an allocation fails.
#[tactic(auto, using(crate::proofs::Checks::faulted))]
fn with_fault(entries: Sequence<Entry>, fault: FormatFault) -> Result<Sequence<Entry>, AllocError>
    ensures { IfOk result (λ listed. map seen_by listed ≡ with_fault fault (map seen_by entries)) }
{
    let mut entries = entries.into_vec();
    let Some(mut last) = entries.pop() else {
        return Ok(Sequence::from_vec(entries));
    };
    last.fault = Some(fault);
    entries.push(last)?;
    Ok(Sequence::from_vec(entries))
}

impl FieldReader {
    ghost use Rattle.nc_fields.specs.code.Checks.{at, Checked};

    /// Reads the three bytes that should be `CDF`, adds them to the field list, and returns them. Errs with `NotNetcdf` if they are others,
    /// or fewer (these are listed, too), and if the source or an allocation fails.
    fn letters<S: Source>(&mut self, window: &mut Window<'_, S>) -> Result<[u8; 3], HeadFault>
        ensures { Checked (at window.old self.old) (at window.new self.new) (Magic ∷ [])
            (checked (λ letters. bytes_eq letters (codes "CDF")) NotNetcdf (bytes 3 NotNetcdf))
            result }
    {
        let place = Owner::Header.field(FieldKind::Magic);
        let start = pending_field(window, place, 3);
        let there = letters_there(window);
        let letters = start.list_if_cut(
            &mut self.entries,
            filling_bytes(window, self.alloc, there),
        )?;
        let answer = letters_in(letters.as_slice());
        start.list(&mut self.entries, Content::Bytes(letters))?;
        answer
    }

    /// Reads the version byte, adds it to the field list, and returns it, whatever it is. Errs with `HeaderTruncated` if there is none, and
    /// if the source or an allocation fails.
    fn version_byte<S: Source>(&mut self, window: &mut Window<'_, S>) -> Result<[u8; 1], HeadFault>
        ensures { Checked (at window.old self.old) (at window.new self.new)
            (VersionByte ∷ []) (bytes 1 HeaderTruncated) result }
    {
        let place = Owner::Header.field(FieldKind::Version);
        let start = pending_field(window, place, 1);
        let byte: [u8; 1] = start.list_if_cut(&mut self.entries, window.array())?;
        start.list(&mut self.entries, Content::Number(byte[0] as u64))?;
        Ok(byte)
    }

    /// Reads the version byte, adds it to the field list, and returns the version. Errs with `UnknownVersion` if it is none of 1, 2 and 5,
    /// with `HeaderTruncated` if there is none, and if the source or an allocation fails.
    #[tactic(auto, using(crate::proofs::Checks::part_lists), unfolding(nc_base::specs::Grammar::version_part))]
    fn version<S: Source>(&mut self, window: &mut Window<'_, S>) -> Result<Version, HeadFault>
        ensures { Checked (at window.old self.old) (at window.new self.new)
            (VersionByte ∷ []) version_part result }
    {
        let [byte] = self.version_byte(window)?;
        Ok(Version::of_byte(byte).ok_or(FormatFault::UnknownVersion(byte))?)
    }

    /// Reads `CDF` and the version byte, adds both to the field list, and returns the version. Errs with the fault of the first wrong
    /// field, and if the source or an allocation fails.
    #[tactic(auto, using(crate::proofs::Checks::chain_lists), unfolding(nc_base::specs::Grammar::magic_part))]
    fn magic<S: Source>(&mut self, window: &mut Window<'_, S>) -> Result<Version, HeadFault>
        ensures { Checked (at window.old self.old) (at window.new self.new) [] magic_part result }
    {
        self.letters(window)?;
        self.version(window)
    }

    /// Reads the whole header, adds its fields to the field list, and returns it without the values of attributes. Errs with the fault of
    /// the first wrong field, and if the source or an allocation fails.
    fn header<S: Source>(&mut self, window: &mut Window<'_, S>) -> Result<Header, HeadFault>
        ensures { Checked (at window.old self.old) (at window.new self.new)
            [] (header_by lenient) result }
    {
        let version = self.magic(window)?;
        let numrecs = self.numrecs(window, version)?;
        let dims = self.dim_list(window, version)?;
        let gatts = self.att_list(window, version, HeaderList::GlobalAtts)?;
        let vars = self.var_list(window, version, dims.as_slice())?;
        Ok(Header {
            version,
            numrecs,
            dims,
            gatts,
            vars,
        })
    }
}

/// Returns how many of the three bytes that should be `CDF` the source still has, from 0 to 3.
fn letters_there<S: Source>(window: &Window<'_, S>) -> u64
    ensures { result ≡ min 3 (length (left window.now)) }
{
    window.left_len().min(3)
}

/// Returns the letters if they are `CDF`, and otherwise errs with `NotNetcdf`.
fn letters_in(letters: &[u8]) -> Result<[u8; 3], HeadFault>
    ensures { result ≡ (if bytes_eq letters.now (codes "CDF") then Ok letters.now
        else Err (Format NotNetcdf)) }
{
    if letters == b"CDF".as_slice() {
        Ok(*b"CDF")
    } else {
        Err(HeadFault::Format(FormatFault::NotNetcdf))
    }
}
