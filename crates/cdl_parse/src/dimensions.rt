//! The dimensions of a dataset.

ghost use Rattle.std.specs.Prelude.{◌≡◌, [], IfOk, OnErr, not};
ghost use Rattle.std.specs.List.{position};
ghost use Rattle.std.specs.Str.{bytes_eq};
ghost use Rattle.nc_base.specs.Sizes.{has_record_dim};
ghost use Rattle.nc_base.specs.declared.header.Dim as header;
ghost use Rattle.cdl_parse.specs.code.DimensionNames.{is_dimension_name, with_dim};

use cdl_values::NameIndex;
use nc_base::{Dim, Sequence};
use std::alloc::{AllocError, Global};
use std::marker::Model;

/// The dimensions of a dataset, in the order of the text.
///
/// A dimension is found by its name in a time that grows with the logarithm of their number.
#[derive(Drop)]
pub struct Dimensions {
    list: Vec<Dim>,
    /// Finds the position of a dimension in `list` by its name.
    names: NameIndex,
    /// True if one of the dimensions is the record dimension.
    has_record: bool,
}

impl Model for Dimensions {
    ghost use Rattle.std.specs.Prelude.{List, ◌≡◌};
    ghost use Rattle.nc_base.specs.Sizes.{has_record_dim};
    ghost use Rattle.nc_base.specs.declared.header.Dim.{Dim};
    ghost use Rattle.cdl_values.specs.code.NameIndices.{IsIndex};
    ghost use Rattle.cdl_parse.specs.code.DimensionNames.{dim_names};

    ghost Value = { List Dim };

    ghost view = { λ dims. dims.list.items };

    ghost invariant = { λ dims. IsIndex dims.names (dim_names dims.list.items) × (dims.has_record ≡ has_record_dim dims.list.items) };
}

impl Dimensions {
    /// Returns a list without dimensions. Does not allocate.
    pub fn new(alloc: Global) -> Dimensions
        ensures { result ≡ [] }
    {
        Dimensions {
            list: Vec::new(alloc),
            names: NameIndex::new(alloc),
            has_record: false,
        }
    }

    /// Returns the dimensions as a slice.
    pub fn as_slice(&self) -> &[Dim]
        ensures { result.now ≡ self.now }
    {
        self.list.as_slice()
    }

    /// Returns true if one of the dimensions is the record dimension, which has length 0.
    pub fn has_record(&self) -> bool
        ensures { result ≡ has_record_dim self.now }
    {
        self.has_record
    }

    /// Returns the position, from 0 on, of the first dimension that has the name: its id in the shape of a variable. Returns `None` if none
    /// has it.
    pub fn position(&self, name: &[u8]) -> Option<u64>
        ensures { result ≡ position (λ (d : header.Dim). bytes_eq d.name name.now) self.now }
    {
        self.names.find(self.list.as_slice(), name)
    }

    /// Returns true if one of the dimensions has the name.
    pub fn has_name(&self, name: &[u8]) -> bool
        ensures { result ≡ is_dimension_name name.now self.now }
    {
        self.position(name).is_some()
    }

    /// Adds the dimension at the end and returns true, if no other one has its name. Otherwise changes nothing and returns false.
    ///
    /// # Errors
    ///
    /// An allocation failed. Then the dimensions are what they were.
    #[tactic(auto, using(cdl_values::proofs::NamePositions::new_is))]
    pub fn add(&mut self, alloc: Global, dim: Dim) -> Result<bool, AllocError>
        ensures new { IfOk result (λ added. added ≡ not (is_dimension_name dim.name self.old)) }
        ensures dims { IfOk result (λ added. self.new ≡ with_dim added self.old dim) }
        ensures err { OnErr result (self.new ≡ self.old) }
    {
        self.list.reserve(1)?;
        let added = self
            .names
            .add(alloc, self.list.as_slice(), dim.name.as_slice())?;
        if added {
            self.has_record = self.has_record || dim.len == 0;
            self.list.push(dim)?;
        }
        Ok(added)
    }

    /// Returns the dimensions as a list, without a copy.
    pub fn into_sequence(self) -> Sequence<Dim>
        ensures { result ≡ self }
    {
        let Dimensions {
            list,
            names: _,
            has_record: _,
        } = self;
        Sequence::from_vec(list)
    }
}
