//! The positions of names in their list.

ghost use Rattle.std.specs.Prelude.{◌≡◌, [], IfOk, OnErr, map};
ghost use Rattle.cdl_values.specs.code.NameIndices.{IsIndex, IsIndexWith, hash_of, is_new, position_of};

use nc_base::Named;
use std::alloc::{AllocError, Global};
use std::collections::BTreeMap;

/// Finds the position of an item by its name, in a list of items that have different names. The list isn't a part of the index: each call
/// is lent it.
///
/// A name's position in the list is found in a time that grows with the logarithm of the number of names: by the hash of the name, and if
/// an earlier name has the same hash, by the name.
#[derive(Drop)]
pub struct NameIndex {
    /// For each hash the position of the first item whose name has it.
    first_of_hash: BTreeMap<u64, u64>,
    /// The positions of the other items, whose hash an earlier item has, by their names.
    others: BTreeMap<Vec<u8>, u64>,
}

impl NameIndex {
    /// Returns the index of a list without items. Does not allocate.
    pub fn new(alloc: Global) -> NameIndex
        ensures { IsIndex result [] }
    {
        NameIndex {
            first_of_hash: BTreeMap::new(alloc),
            others: BTreeMap::new(alloc),
        }
    }

    /// Returns the position, from 0 on, of the item of this name, or `None` if `list` doesn't have it. Needs the `list` that this is the
    /// index of.
    #[tactic(auto, using(crate::proofs::NamePositions::absent, crate::proofs::NamePositions::item_within, crate::proofs::NamePositions::item_here, crate::proofs::NamePositions::item_elsewhere))]
    pub fn find<T: Named>(&self, list: &[T], name: &[u8]) -> Option<u64>
        requires { IsIndex self.now (map T.name_of list.now) }
        ensures { result ≡ position_of (map T.name_of list.now) name.now }
    {
        let first = *self.first_of_hash.get(&hash_of(name))?;
        if list[first as usize].name() == name {
            return Some(first);
        }
        self.others.get(name).copied()
    }

    /// If no item of `list` has the name, adds the name to the index with the position just after the end of `list`, and returns true: the
    /// caller has to append an item of this name to the list. Otherwise returns false, and stays the index of `list`. Needs the `list` that
    /// this is the index of.
    ///
    /// # Errors
    ///
    /// An allocation failed. Then this is still the index of `list`.
    pub fn add<T: Named>(
        &mut self,
        alloc: Global,
        list: &[T],
        name: &[u8],
    ) -> Result<bool, AllocError>
        requires { IsIndex self.old (map T.name_of list.now) }
        ensures new { IfOk result (λ added. added ≡ is_new (map T.name_of list.now) name.now) }
        ensures names { IfOk result (IsIndexWith self.new (map T.name_of list.now) name.now) }
        ensures err { OnErr result (IsIndex self.new (map T.name_of list.now)) }
    {
        if self.find(list, name).is_some() {
            return Ok(false);
        }
        let position = list.len() as u64;
        let hash = hash_of(name);
        if self.first_of_hash.contains_key(&hash) {
            self.others.insert(Vec::from_slice(alloc, name)?, position)?;
        } else {
            self.first_of_hash.insert(hash, position)?;
        }
        Ok(true)
    }
}

/// The base of hashes, a prime number.
const BASE: u64 = 0x100_0000_01b3;

/// Returns the hash of a name: the number whose digits in the base [`BASE`] are its bytes, modulo 2^64.
#[tactic(auto, unfolding(crate::specs::code::NameIndices::hash_on))]
fn hash_of(name: &[u8]) -> u64
    ensures { result ≡ hash_of name.now }
{
    let mut hash: u64 = 0;
    for byte in name {
        hash = hash.wrapping_mul(BASE).wrapping_add(u64::from(*byte));
    }
    hash
}
