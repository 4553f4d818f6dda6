//! Variables.

ghost use Rattle.std.specs.Prelude.{◌∷◌, [], IfOk};
ghost use Rattle.nc_base.specs.Grammar.{checked, dimid_after, each, is_within_limits, shape_part, type_part, var_after, var_list, var_part};
ghost use Rattle.nc_base.specs.Parts.{Shape, TypeCode, Vars};
ghost use Rattle.nc_base.specs.declared.fault.FormatFault.TheVariants.{TooLarge};
ghost use Rattle.nc_fields.specs.Lenient.{lenient};
ghost use Rattle.nc_window.specs.code.SizedVars.{IsCounted, IsCountedType, type_of, var_of};

use crate::fields::FieldReader;
use crate::list_name::HeaderList;
use crate::number::NumberWidth;
use devices::Source;
use nc_base::{Dim, FormatFault, Sequence, Var, Version};
use nc_findings::{FieldKind, Owner};
use nc_window::{HeadFault, SizedType, SizedVar, Window, total_with};

/// The tag of a list of variables (`NC_VARIABLE`).
const NC_VARIABLE: u64 = 11;

impl FieldReader {
    ghost use Rattle.nc_fields.specs.Entries.{owner_steps};
    ghost use Rattle.nc_fields.specs.code.Checks.{at, Checked};

    /// Reads the `n` dimension ids of a variable (`owner`), adds them to the field list, and returns them. Errs with `BadShape` if one is
    /// the id of no dimension of `dims`, or one after the first is that of the record dimension, with `HeaderTruncated` if bytes are
    /// missing, and if the source or an allocation fails.
    fn dimids<S: Source>(
        &mut self,
        window: &mut Window<'_, S>,
        version: Version,
        owner: Owner,
        dims: &[Dim],
        n: u64,
    ) -> Result<Sequence<u64>, HeadFault>
        ensures { Checked (at window.old self.old) (at window.new self.new)
            (Shape ∷ owner_steps owner) (each (dimid_after version dims.now) n []) result }
    {
        let mut dimids = Sequence::new(self.alloc);
        for i in 0..n {
            let id = self.dimid(window, version, owner, i, dims)?;
            dimids.push(id)?;
        }
        Ok(dimids)
    }

    /// Reads the shape of a variable (`owner`), a count and dimension ids, adds these fields to the field list, and returns the ids. Errs
    /// with the fault of the first wrong field, and if the source or an allocation fails.
    #[tactic(auto, using(crate::proofs::Checks::chain_lists), unfolding(nc_base::specs::Grammar::shape_part, nc_base::specs::Grammar::counted))]
    fn shape<S: Source>(
        &mut self,
        window: &mut Window<'_, S>,
        version: Version,
        owner: Owner,
        dims: &[Dim],
    ) -> Result<Sequence<u64>, HeadFault>
        ensures { Checked (at window.old self.old) (at window.new self.new)
            (Shape ∷ owner_steps owner) (shape_part version dims.now) result }
    {
        let rank = owner.field(FieldKind::Rank);
        let n = self.count(window, version, rank)?;
        self.dimids(window, version, owner, dims, n)
    }

    /// Reads the type code of a variable (`owner`) with the shape `dimids`, and adds it to the field list. Returns the type, or for a
    /// floating type the integer type of its size, with the bytes of the padded slabs of all record variables up to this one: `total`, those
    /// before it, plus its own if it is a record variable. Errs with `BadType` if the version has no such type, with `TooLarge` if the slab
    /// passes 2^48 bytes or the sum 2^62, with `HeaderTruncated` if bytes are missing, and if the source or an allocation fails.
    #[tactic(auto, using(crate::proofs::Checks::part_lists), unfolding(nc_base::specs::Grammar::number, nc_base::specs::Grammar::type_part, nc_window::specs::code::SizedVars::total_with))]
    fn var_type<S: Source>(
        &mut self,
        window: &mut Window<'_, S>,
        version: Version,
        owner: Owner,
        dims: &[Dim],
        dimids: &[u64],
        total: u64,
    ) -> Result<SizedType, HeadFault>
        ensures var_type { Checked (at window.old self.old) (at window.new self.new)
            (TypeCode ∷ owner_steps owner)
            (checked (is_within_limits dims.now total dimids.now) TooLarge (type_part lenient version))
            (type_of result) }
        ensures total { IfOk result (IsCountedType dims.now dimids.now total) }
    {
        let ty = self.nc_type(window, version, owner)?;
        let total = total_with(dims, dimids, ty, total).ok_or(FormatFault::TooLarge)?;
        Ok(SizedType { ty, total })
    }

    /// Reads the variable of this number, from 0, adds its fields to the field list, and returns it, without the values of its attributes,
    /// and with the bytes of the padded slabs of all record variables up to and including it. `total` is the bytes of those before it. Errs
    /// with the fault of the first wrong field, and if the source or an allocation fails.
    fn var<S: Source>(
        &mut self,
        window: &mut Window<'_, S>,
        version: Version,
        number: u64,
        dims: &[Dim],
        total: u64,
    ) -> Result<SizedVar, HeadFault>
        ensures var { Checked (at window.old self.old) (at window.new self.new)
            (owner_steps (Owner.Var number))
            (var_part lenient version dims.now total) (var_of result) }
        ensures total { IfOk result (IsCounted dims.now total) }
    {
        let owner = Owner::Var(number);
        let vsize = owner.field(FieldKind::Vsize);
        let name = self.name(window, version, owner)?;
        let dimids = self.shape(window, version, owner, dims)?;
        let atts = self.att_list(window, version, HeaderList::Atts(number))?;
        let ids = dimids.as_slice();
        let sized = self.var_type(window, version, owner, dims, ids, total)?;
        self.number(window, vsize, NumberWidth::of_counts(version))?;
        let begin_at = self.begin(window, version, owner)?;
        let var = Var {
            name,
            dimids,
            atts,
            ty: sized.ty,
            begin_at,
        };
        Ok(SizedVar {
            var,
            total: sized.total,
        })
    }

    /// Reads the `n` variables of the list, adds their fields to the field list, and returns them. Errs with the fault of the first wrong
    /// field, and if the source or an allocation fails.
    fn vars<S: Source>(
        &mut self,
        window: &mut Window<'_, S>,
        version: Version,
        dims: &[Dim],
        n: u64,
    ) -> Result<Sequence<Var>, HeadFault>
        ensures { Checked (at window.old self.old) (at window.new self.new)
            (Vars ∷ []) (each (var_after lenient version dims.now) n []) result }
    {
        let mut vars = Sequence::new(self.alloc);
        let mut total = 0;
        for i in 0..n {
            let sized = self.var(window, version, i, dims, total)?;
            total = sized.total;
            vars.push(sized.var)?;
        }
        Ok(vars)
    }

    /// Reads the list of variables (tag, number and variables), adds its fields to the field list, and returns the variables. Errs with the
    /// fault of the first wrong field, and if the source or an allocation fails.
    #[tactic(auto, using(crate::proofs::Checks::chain_lists), unfolding(nc_base::specs::Grammar::var_list, nc_base::specs::Grammar::list_part))]
    pub(crate) fn var_list<S: Source>(
        &mut self,
        window: &mut Window<'_, S>,
        version: Version,
        dims: &[Dim],
    ) -> Result<Sequence<Var>, HeadFault>
        ensures { Checked (at window.old self.old) (at window.new self.new)
            (Vars ∷ []) (var_list lenient version dims.now) result }
    {
        let n = self.list_len(window, version, HeaderList::Vars, NC_VARIABLE)?;
        self.vars(window, version, dims, n)
    }
}
