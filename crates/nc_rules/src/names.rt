//! The names of the lists of a header, with where each came first.

ghost use Rattle.std.specs.Prelude.{◌≡◌, None, IfOk, OnOk};
ghost use Rattle.std.specs.Option.{option_or};
ghost use Rattle.nc_rules.specs.NameRules.{NameKey, is_index, is_same_key, list_of};
ghost use Rattle.nc_rules.specs.code.FirstNames.{hash, index_if, index_of, list_number};

use nc_findings::Owner;
use std::alloc::{AllocError, Global};
use std::collections::BTreeMap;

/// A list of the header whose elements have names. Two names in different lists may be the same.
#[derive(Clone, Copy, PartialEq, Eq, PartialOrd, Ord)]
pub(crate) enum NameScope {
    /// The dimensions.
    Dims,
    /// The global attributes.
    GlobalAtts,
    /// The variables.
    Vars,
    /// The attributes of the variable with this index.
    VarAtts(u64),
}

/// Returns the list that the owner of a field is an element of, or `None` if the owner is the header itself.
pub(crate) fn list_of(owner: Owner) -> Option<NameScope>
    ensures { result ≡ list_of owner }
{
    match owner {
        Owner::Header => None,
        Owner::Dim(_) => Some(NameScope::Dims),
        Owner::GlobalAtt(_) => Some(NameScope::GlobalAtts),
        Owner::Var(_) => Some(NameScope::Vars),
        Owner::VarAtt { var, .. } => Some(NameScope::VarAtts(var)),
    }
}

/// Returns a number for the list, with which the hash of its names begins. Two lists may share it: variables, and attributes of variable 2.
fn list_number(list: NameScope) -> u64
    ensures { result ≡ list_number list }
{
    match list {
        NameScope::Dims => 0,
        NameScope::GlobalAtts => 1,
        NameScope::Vars => 2,
        NameScope::VarAtts(var) => var,
    }
}

/// Returns the hash of a name of the list, a number below 2^32.
#[tactic(auto, using(std::proofs::lemmas::List::Sums::fold_more))]
fn hash(list: NameScope, name: &[u8]) -> u64
    ensures { result ≡ hash (list, name.now) }
{
    let mut sum = list_number(list) % (1 << 32);
    for b in name {
        sum = (sum * 31 + *b as u64) % (1 << 32);
    }
    sum
}

/// The names in the lists of a header. With each goes the index of the first of the header's fields that is this name in this list. The
/// time to find a name grows with the logarithm of the number of names.
// The hash comes first in a key: most names of a list begin alike, and two numbers are compared sooner than two names. Names that share a
// hash cost what they would without it.
#[derive(Drop)]
pub(crate) struct FirstNames<'a> {
    first: BTreeMap<(u64, (NameScope, &'a [u8])), u64>,
}

impl<'a> FirstNames<'a> {
    /// Returns a `FirstNames` without a name. Does not allocate.
    pub(crate) fn new(alloc: Global) -> FirstNames<'a>
        ensures { (key : NameKey) → index_of result key ≡ None }
    {
        FirstNames {
            first: BTreeMap::new(alloc),
        }
    }

    /// Adds this name of the list with this index, and returns `None`. If the name is there already, it keeps its index, and that is
    /// returned. Errs only if an allocation fails; then nothing is promised of the names.
    pub(crate) fn add(
        &mut self,
        list: NameScope,
        name: &'a [u8],
        index: u64,
    ) -> Result<Option<u64>, AllocError>
        ensures first { IfOk result (λ first. first ≡ index_of self.old (list, name.now)) }
        ensures names { OnOk result ((key : NameKey) → index_of self.new key
            ≡ option_or (index_of self.old key) (index_if (is_same_key (list, name.now) key) index)) }
    {
        // the name is searched for once, unless it was there
        let key = (hash(list, name), (list, name));
        let earlier = self.first.insert(key, index)?;
        if let Some(first) = earlier {
            self.first.insert(key, first)?;
        }
        Ok(earlier)
    }

    /// Returns true if this name of the list is there with this index.
    pub(crate) fn is_first(&self, list: NameScope, name: &'a [u8], index: u64) -> bool
        ensures { result ≡ is_index index (index_of self.now (list, name.now)) }
    {
        let key = (hash(list, name), (list, name));
        let Some(first) = self.first.get(&key) else {
            return false;
        };
        *first == index
    }
}
