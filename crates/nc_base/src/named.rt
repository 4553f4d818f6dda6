//! What has a name.

ghost use Rattle.std.specs.Prelude.{◌≡◌, List, ℕ};

use crate::header::{Att, Dim, Var};
use nc_types::Sequence;

/// An item that has a name: a dimension, an attribute, a variable, or a name itself. Code that looks up names takes a list of any of these.
pub trait Named {
    // The name as contracts see it.
    ghost name_of: { Self → List ℕ };

    /// Returns the bytes of the item's name.
    fn name(&self) -> &[u8]
        ensures { result.now ≡ name_of self.now };
}

impl Named for Dim {
    ghost name_of = { λ d. d.name };

    /// Returns the bytes of the dimension's name.
    fn name(&self) -> &[u8] {
        self.name.as_slice()
    }
}

impl Named for Att {
    ghost name_of = { λ a. a.name };

    /// Returns the bytes of the attribute's name.
    fn name(&self) -> &[u8] {
        self.name.as_slice()
    }
}

impl Named for Var {
    ghost name_of = { λ v. v.name };

    /// Returns the bytes of the variable's name.
    fn name(&self) -> &[u8] {
        self.name.as_slice()
    }
}

impl Named for Sequence<u8> {
    ghost name_of = { λ name. name };

    /// Returns the bytes of the sequence, which is a name itself.
    fn name(&self) -> &[u8] {
        self.as_slice()
    }
}
