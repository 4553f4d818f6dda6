//! The fields that are one number.

ghost use Rattle.std.specs.Prelude.{◌≡◌, [], ◌∷◌, ◌==◌, ◌&&◌, ◌||◌, not};
ghost use Rattle.std.specs.Int.{byte_len, w32};
ghost use Rattle.nc_base.specs.Grammar.{checked, count_part, dimid_part, number, limited_part, numrecs_part, offset_part, type_part};
ghost use Rattle.nc_base.specs.Parts.{Begin, Item, Length, Records, Shape, TypeCode};
ghost use Rattle.nc_types.specs.Versions.{count_width, offset_width};
ghost use Rattle.nc_base.specs.declared.fault.FormatFault.TheVariants.{BadCount, BadTag, TwoRecordDims};
ghost use Rattle.nc_window.specs.code.Window.{Read};
ghost use Rattle.nc_fields.specs.Lenient.{any_length_limit, lenient, sized_type_in};
ghost use Rattle.nc_fields.specs.code.Numbers.{width_of};

use crate::fields::{FieldReader, pending_field};
use devices::Source;
use nc_base::{Dim, FormatFault, NcType, NumRecs, Version};
use nc_findings::{Content, FieldKind, Owner, Place};
use nc_window::{HeadFault, Window, is_dimid, type_in};

/// How many bytes a number has.
#[derive(Clone, Copy)]
pub(crate) enum NumberWidth {
    /// Four bytes.
    Four,
    /// Eight bytes.
    Eight,
}

impl NumberWidth {
    /// Returns the width of a count or a length in the version: eight bytes in CDF-5, and otherwise four.
    pub(crate) fn of_counts(version: Version) -> NumberWidth
        ensures { width_of result ≡ count_width version }
    {
        match version {
            Version::Cdf1 | Version::Cdf2 => NumberWidth::Four,
            Version::Cdf5 => NumberWidth::Eight,
        }
    }

    /// Returns the width of an offset in the version: four bytes in CDF-1, and otherwise eight.
    fn of_offsets(version: Version) -> NumberWidth
        ensures { width_of result ≡ offset_width version }
    {
        match version {
            Version::Cdf1 => NumberWidth::Four,
            Version::Cdf2 | Version::Cdf5 => NumberWidth::Eight,
        }
    }

    /// Returns the width in bytes, 4 or 8.
    fn len(self) -> u128
        ensures { result ≡ byte_len (width_of self) }
    {
        match self {
            NumberWidth::Four => 4,
            NumberWidth::Eight => 8,
        }
    }
}

impl FieldReader {
    ghost use Rattle.nc_fields.specs.Entries.{owner_steps, steps_of};
    ghost use Rattle.nc_fields.specs.code.Checks.{at, Checked, IsNumeric};

    /// Reads a big-endian number of this width, adds it to the field list, and returns it, whatever it is. Needs a `place` that is that of
    /// a number. Errs with `HeaderTruncated` if bytes are missing, and if the source or an allocation fails.
    pub(crate) fn number<S: Source>(
        &mut self,
        window: &mut Window<'_, S>,
        place: Place,
        width: NumberWidth,
    ) -> Result<u64, HeadFault>
        requires { IsNumeric place }
        ensures { Checked (at window.old self.old) (at window.new self.new)
            (steps_of place) (number (width_of width)) result }
    {
        let start = pending_field(window, place, width.len());
        let n = start.list_if_cut(&mut self.entries, read_number(window, width))?;
        start.list(&mut self.entries, Content::Number(n))?;
        Ok(n)
    }

    /// Reads a number as wide as counts (eight bytes in CDF-5, otherwise four), adds it to the field list, and returns it. Needs a `place`
    /// that is that of a number. Errs with `BadCount` if it isn't below `limit`, with `HeaderTruncated` if bytes are missing, and if the
    /// source or an allocation fails.
    #[tactic(auto, using(crate::proofs::Checks::part_lists), unfolding(nc_base::specs::Grammar::number, nc_base::specs::Grammar::limited_part))]
    fn limited<S: Source>(
        &mut self,
        window: &mut Window<'_, S>,
        version: Version,
        place: Place,
        limit: u64,
    ) -> Result<u64, HeadFault>
        requires { IsNumeric place }
        ensures { Checked (at window.old self.old) (at window.new self.new)
            (steps_of place) (limited_part limit version) result }
    {
        let n = self.number(window, place, NumberWidth::of_counts(version))?;
        if limit <= n {
            return Err(HeadFault::Format(FormatFault::BadCount));
        }
        Ok(n)
    }

    /// Reads a count or a length (`NON_NEG`), adds it to the field list, and returns it. Needs a `place` that is that of a number. Errs
    /// with `BadCount` if its top bit is 1, with `HeaderTruncated` if bytes are missing, and if the source or an allocation fails.
    pub(crate) fn count<S: Source>(
        &mut self,
        window: &mut Window<'_, S>,
        version: Version,
        place: Place,
    ) -> Result<u64, HeadFault>
        requires { IsNumeric place }
        ensures { Checked (at window.old self.old) (at window.new self.new)
            (steps_of place) (count_part version) result }
    {
        self.limited(window, version, place, version.count_limit())
    }

    /// Reads the length of a dimension (`owner`), adds it to the field list, and returns it. Errs with `BadCount` if it is 2^63 or more,
    /// with `TwoRecordDims` if it is 0, like that of a dimension before it (`has_record`), with `HeaderTruncated` if bytes are missing, and
    /// if the source or an allocation fails.
    #[tactic(auto, using(crate::proofs::Checks::part_lists), unfolding(nc_base::specs::Grammar::number, nc_base::specs::Grammar::limited_part))]
    pub(crate) fn read_dim_len<S: Source>(
        &mut self,
        window: &mut Window<'_, S>,
        version: Version,
        owner: Owner,
        has_record: bool,
    ) -> Result<u64, HeadFault>
        ensures { Checked (at window.old self.old) (at window.new self.new)
            (Length ∷ owner_steps owner)
            (checked (λ len. not (has_record && (len == 0))) TwoRecordDims
            (limited_part (any_length_limit version) version)) result }
    {
        let place = owner.field(FieldKind::Length);
        let len = self.limited(window, version, place, any_length_limit(version))?;
        if has_record && len == 0 {
            return Err(HeadFault::Format(FormatFault::TwoRecordDims));
        }
        Ok(len)
    }

    /// Reads the tag of a list, adds it to the field list, and returns it. Needs a `place` that is that of a number. Errs with `BadTag` if
    /// it is neither 0 nor `tag`, with `HeaderTruncated` if bytes are missing, and if the source or an allocation fails.
    #[tactic(auto, using(crate::proofs::Checks::part_lists), unfolding(nc_base::specs::Grammar::number))]
    pub(crate) fn tag<S: Source>(
        &mut self,
        window: &mut Window<'_, S>,
        place: Place,
        tag: u64,
    ) -> Result<u64, HeadFault>
        requires { IsNumeric place }
        ensures { Checked (at window.old self.old) (at window.new self.new) (steps_of place)
            (checked (λ t. (t == 0) || (t == tag)) BadTag (number w32)) result }
    {
        let found = self.number(window, place, NumberWidth::Four)?;
        if found != 0 && found != tag {
            return Err(HeadFault::Format(FormatFault::BadTag));
        }
        Ok(found)
    }

    /// Reads the number of a list's elements, adds it to the field list, and returns it. `tag` is the tag that was read before it. Needs a
    /// `place` that is that of a number. Errs with `BadCount` if the number's top bit is 1, or if the tag is 0 and the number isn't, with
    /// `HeaderTruncated` if bytes are missing, and if the source or an allocation fails.
    #[tactic(auto, using(crate::proofs::Checks::part_lists), unfolding(nc_base::specs::Grammar::number, nc_base::specs::Grammar::limited_part))]
    pub(crate) fn list_count<S: Source>(
        &mut self,
        window: &mut Window<'_, S>,
        version: Version,
        place: Place,
        tag: u64,
    ) -> Result<u64, HeadFault>
        requires { IsNumeric place }
        ensures { Checked (at window.old self.old) (at window.new self.new) (steps_of place)
            (checked (λ n. not (tag == 0) || (n == 0)) BadCount (count_part version)) result }
    {
        let n = self.count(window, version, place)?;
        if tag == 0 && n != 0 {
            return Err(HeadFault::Format(FormatFault::BadCount));
        }
        Ok(n)
    }

    /// Reads the type code of `owner`, adds it to the field list, and returns the type (for a floating one the integer type of its size).
    /// Errs with `BadType` if the version lacks it, with `HeaderTruncated` if bytes are missing, and if the source or an allocation fails.
    #[tactic(auto, using(crate::proofs::Checks::part_lists), unfolding(nc_base::specs::Grammar::number, nc_base::specs::Grammar::type_part))]
    pub(crate) fn nc_type<S: Source>(
        &mut self,
        window: &mut Window<'_, S>,
        version: Version,
        owner: Owner,
    ) -> Result<NcType, HeadFault>
        ensures { Checked (at window.old self.old) (at window.new self.new)
            (TypeCode ∷ owner_steps owner) (type_part lenient version) result }
    {
        let place = owner.field(FieldKind::Type);
        let code = self.number(window, place, NumberWidth::Four)?;
        Ok(sized_type_in(version, code)?)
    }

    /// Reads the dimension id at the index `k` of the shape of `owner`, adds it to the field list, and returns it. Errs with `BadShape` if
    /// no dimension of `dims` has this id, or if it is that of the record dimension and `k` isn't 0, with `HeaderTruncated` if bytes are
    /// missing, and if the source or an allocation fails.
    #[tactic(auto, using(crate::proofs::Checks::part_lists), unfolding(nc_base::specs::Grammar::number, nc_base::specs::Grammar::dimid_part))]
    pub(crate) fn dimid<S: Source>(
        &mut self,
        window: &mut Window<'_, S>,
        version: Version,
        owner: Owner,
        k: u64,
        dims: &[Dim],
    ) -> Result<u64, HeadFault>
        ensures { Checked (at window.old self.old) (at window.new self.new)
            (Item k ∷ Shape ∷ owner_steps owner)
            (dimid_part version dims.now (k == 0)) result }
    {
        let place = owner.field(FieldKind::DimId(k));
        let id = self.number(window, place, NumberWidth::of_counts(version))?;
        if !is_dimid(dims, k == 0, id) {
            return Err(HeadFault::Format(FormatFault::BadShape));
        }
        Ok(id)
    }

    /// Reads the begin of a variable (`owner`), an offset, adds it to the field list, and returns it. Errs with `BadOffset` if its top bit
    /// is 1, with `HeaderTruncated` if bytes are missing, and if the source or an allocation fails.
    #[tactic(auto, using(crate::proofs::Checks::part_lists), unfolding(nc_base::specs::Grammar::number, nc_base::specs::Grammar::offset_part))]
    pub(crate) fn begin<S: Source>(
        &mut self,
        window: &mut Window<'_, S>,
        version: Version,
        owner: Owner,
    ) -> Result<u64, HeadFault>
        ensures { Checked (at window.old self.old) (at window.new self.new)
            (Begin ∷ owner_steps owner) (offset_part version) result }
    {
        let place = owner.field(FieldKind::Begin);
        let n = self.number(window, place, NumberWidth::of_offsets(version))?;
        if version.offset_limit() <= n {
            return Err(HeadFault::Format(FormatFault::BadOffset));
        }
        Ok(n)
    }

    /// Reads the number of records, adds it to the field list, and returns it, or `Streaming` if all its bits are 1. Errs with `BadCount`
    /// if it is any other from 2^63 on, with `HeaderTruncated` if bytes are missing, and if the source or an allocation fails.
    #[tactic(auto, using(crate::proofs::Checks::part_lists), unfolding(nc_base::specs::Grammar::number, nc_base::specs::Grammar::numrecs_part))]
    pub(crate) fn numrecs<S: Source>(
        &mut self,
        window: &mut Window<'_, S>,
        version: Version,
    ) -> Result<NumRecs, HeadFault>
        ensures { Checked (at window.old self.old) (at window.new self.new)
            (Records ∷ []) (numrecs_part lenient version) result }
    {
        let place = Owner::Header.field(FieldKind::NumRecs);
        let n = self.number(window, place, NumberWidth::of_counts(version))?;
        if n == version.streaming_mark() {
            return Ok(NumRecs::Streaming);
        }
        if any_length_limit(version) <= n {
            return Err(HeadFault::Format(FormatFault::BadCount));
        }
        Ok(NumRecs::Known(n))
    }
}

/// Reads a big-endian number of this width through the window, and returns it. Errs with `HeaderTruncated` if bytes are missing, and with
/// `ReadFailed` if the source fails.
fn read_number<S: Source>(window: &mut Window<'_, S>, width: NumberWidth) -> Result<u64, HeadFault>
    ensures { Read window.old window.new (number (width_of width)) result }
{
    match width {
        NumberWidth::Four => window.read_u32_as_u64(),
        NumberWidth::Eight => window.read_u64(),
    }
}

/// Returns what a dimension's length and the number of records have to be below: 2^63 in CDF-5, and 2^32 otherwise.
fn any_length_limit(version: Version) -> u64
    ensures { result ≡ any_length_limit version }
{
    match version {
        Version::Cdf1 | Version::Cdf2 => 1 << 32,
        Version::Cdf5 => 1 << 63,
    }
}

/// Returns the type with this code; for a floating type, the integer type of the same size. Errs with `BadType` if the version has no type
/// with this code.
fn sized_type_in(version: Version, code: u64) -> Result<NcType, FormatFault>
    ensures { result ≡ sized_type_in version code }
{
    match code {
        5 => Ok(NcType::Int),
        6 => Ok(NcType::Int64),
        0..=0xffff_ffff => type_in(version, code as u32),
        _ => Err(FormatFault::BadType),
    }
}
