//! The attributes of a variable or of the dataset.

ghost use Rattle.std.specs.Prelude.{◌≡◌, [], IfOk, OnErr, not};
ghost use Rattle.cdl_parse.specs.code.AttributeNames.{has_attribute, with_added_att};

use cdl_values::NameIndex;
use nc_base::{Att, Sequence};
use std::alloc::{AllocError, Global};
use std::marker::Model;

/// The attributes of a variable or of the dataset, in the order of the text.
///
/// A name is looked up in a time that grows with the logarithm of the number of attributes.
#[derive(Drop)]
pub struct Attributes {
    list: Vec<Att>,
    /// Finds the position of an attribute in `list` by its name.
    names: NameIndex,
}

impl Model for Attributes {
    ghost use Rattle.std.specs.Prelude.{List};
    ghost use Rattle.nc_base.specs.declared.header.Att.{Att};
    ghost use Rattle.cdl_values.specs.code.NameIndices.{IsIndex};
    ghost use Rattle.cdl_parse.specs.code.AttributeNames.{att_names};

    ghost Value = { List Att };

    ghost view = { λ attributes. attributes.list.items };

    ghost invariant = { λ attributes. IsIndex attributes.names (att_names attributes.list.items) };
}

impl Attributes {
    /// Returns a list without attributes. Does not allocate.
    pub fn new(alloc: Global) -> Attributes
        ensures { result ≡ [] }
    {
        Attributes {
            list: Vec::new(alloc),
            names: NameIndex::new(alloc),
        }
    }

    /// Returns true if one of the attributes has the name.
    pub fn has_name(&self, name: &[u8]) -> bool
        ensures { result ≡ has_attribute name.now self.now }
    {
        self.names.find(self.list.as_slice(), name).is_some()
    }

    /// Adds the attribute at the end and returns true, if no other one has its name. Otherwise changes nothing and returns false.
    ///
    /// # Errors
    ///
    /// An allocation failed. Then the attributes are what they were.
    #[tactic(auto, using(cdl_values::proofs::NamePositions::new_is))]
    pub fn add(&mut self, alloc: Global, att: Att) -> Result<bool, AllocError>
        ensures new { IfOk result (λ added. added ≡ not (has_attribute att.name self.old)) }
        ensures atts { IfOk result (λ added. self.new ≡ with_added_att added self.old att) }
        ensures err { OnErr result (self.new ≡ self.old) }
    {
        self.list.reserve(1)?;
        let added = self
            .names
            .add(alloc, self.list.as_slice(), att.name.as_slice())?;
        if added {
            self.list.push(att)?;
        }
        Ok(added)
    }

    /// Returns the attributes as a list, without a copy.
    pub fn into_sequence(self) -> Sequence<Att>
        ensures { result ≡ self }
    {
        let Attributes { list, names: _ } = self;
        Sequence::from_vec(list)
    }
}
