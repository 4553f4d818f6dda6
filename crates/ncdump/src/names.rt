//! Sets of names.

ghost use Rattle.std.specs.Prelude.{◌≡◌, ℕ, List, IfOk, OnOk, false};
ghost use Rattle.ncdump.specs.code.Names.{holds, HasGained, HoldsNames};

use nc_base::Named;
use std::alloc::{AllocError, Global};
use std::collections::BTreeSet;

/// A set of names. The time to find a name grows with the logarithm of the number of names.
#[derive(Drop)]
pub struct NameSet<'a> {
    names: BTreeSet<&'a [u8]>,
}

impl<'a> NameSet<'a> {
    /// Returns the set of the names of these items. Errs only if an allocation failed.
    pub fn of<T: Named>(alloc: Global, items: &'a [T]) -> Result<NameSet<'a>, AllocError>
        ensures { IfOk result (HoldsNames T.name_of items.now) }
    {
        let mut set = NameSet::new(alloc);
        for item in items {
            set.insert(item.name())?;
        }
        Ok(set)
    }

    /// Returns true if the name is in the set.
    pub fn contains(&self, name: &[u8]) -> bool
        ensures { result ≡ holds self.now name.now }
    {
        self.names.contains(name)
    }

    /// Returns an empty set. Does not allocate.
    fn new(alloc: Global) -> NameSet<'a>
        ensures { (name : List ℕ) → holds result name ≡ false }
    {
        NameSet {
            names: BTreeSet::new(alloc),
        }
    }

    /// Adds a name to the set. Errs only if an allocation failed.
    fn insert(&mut self, name: &'a [u8]) -> Result<(), AllocError>
        ensures { OnOk result (HasGained self.old self.new name.now) }
    {
        self.names.insert(name)?;
        Ok(())
    }
}
