//! Dimensions.

ghost use Rattle.std.specs.Prelude.{◌∷◌, []};
ghost use Rattle.nc_base.specs.Grammar.{dim_after, dim_list, dim_part, each};
ghost use Rattle.nc_base.specs.Parts.{Dims};
ghost use Rattle.nc_fields.specs.Lenient.{lenient};

use crate::fields::FieldReader;
use crate::list_name::HeaderList;
use devices::Source;
use nc_base::{Dim, Sequence, Version};
use nc_findings::Owner;
use nc_window::{HeadFault, Window};

/// The tag of a list of dimensions (`NC_DIMENSION`).
const NC_DIMENSION: u64 = 10;

impl FieldReader {
    ghost use Rattle.nc_fields.specs.Entries.{owner_steps};
    ghost use Rattle.nc_fields.specs.code.Checks.{at, Checked};

    /// Reads a dimension (`owner`), adds its fields to the field list, and returns it. Errs with the fault of the first wrong field, such
    /// as `TwoRecordDims` if it has length 0 and a dimension before it has, too (`has_record`), and if the source or an allocation fails.
    #[tactic(auto, using(crate::proofs::Checks::chain_lists), unfolding(nc_base::specs::Grammar::dim_part))]
    fn dim<S: Source>(
        &mut self,
        window: &mut Window<'_, S>,
        version: Version,
        owner: Owner,
        has_record: bool,
    ) -> Result<Dim, HeadFault>
        ensures { Checked (at window.old self.old) (at window.new self.new)
            (owner_steps owner) (dim_part lenient version has_record) result }
    {
        let name = self.name(window, version, owner)?;
        let len = self.read_dim_len(window, version, owner, has_record)?;
        Ok(Dim { name, len })
    }

    /// Reads the `n` dimensions of the list, adds their fields to the field list, and returns them. Errs with the fault of the first wrong
    /// field, and if the source or an allocation fails.
    fn dims<S: Source>(
        &mut self,
        window: &mut Window<'_, S>,
        version: Version,
        n: u64,
    ) -> Result<Sequence<Dim>, HeadFault>
        ensures { Checked (at window.old self.old) (at window.new self.new)
            (Dims ∷ []) (each (dim_after lenient version) n []) result }
    {
        let mut dims = Sequence::new(self.alloc);
        let mut has_record = false;
        for i in 0..n {
            let dim = self.dim(window, version, Owner::Dim(i), has_record)?;
            has_record = has_record || dim.len == 0;
            dims.push(dim)?;
        }
        Ok(dims)
    }

    /// Reads the list of dimensions (tag, number and dimensions), adds its fields to the field list, and returns the dimensions. Errs with
    /// the fault of the first wrong field, and if the source or an allocation fails.
    #[tactic(auto, using(crate::proofs::Checks::chain_lists), unfolding(nc_base::specs::Grammar::dim_list, nc_base::specs::Grammar::list_part))]
    pub(crate) fn dim_list<S: Source>(
        &mut self,
        window: &mut Window<'_, S>,
        version: Version,
    ) -> Result<Sequence<Dim>, HeadFault>
        ensures { Checked (at window.old self.old) (at window.new self.new)
            (Dims ∷ []) (dim_list lenient version) result }
    {
        let n = self.list_len(window, version, HeaderList::Dims, NC_DIMENSION)?;
        self.dims(window, version, n)
    }
}
