//! The variables of a header, found by their names.

ghost use Rattle.std.specs.Prelude.{◌≡◌};
ghost use Rattle.cdl_values.specs.code.NameIndices.{IsIndex, position_of, var_names};

use crate::name_index::NameIndex;
use nc_base::Var;
use std::marker::Model;

/// The names of the variables of a header, and an index that finds a variable's position by its name.
#[derive(Drop)]
pub struct VariableNames<'a> {
    vars: &'a [Var],
    index: &'a NameIndex,
}

impl<'a> Model for VariableNames<'a> {
    ghost use Rattle.std.specs.Prelude.{List, ℕ};
    ghost use Rattle.cdl_values.specs.code.NameIndices.{IsIndex, var_names};

    ghost Value = { List (List ℕ) };

    ghost view = { λ names. var_names names.vars.now };

    ghost invariant = { λ names. IsIndex names.index.now (var_names names.vars.now) };
}

impl<'a> VariableNames<'a> {
    /// Returns the names of the variables `vars`, with their index. Needs the `index` of just these variables, in this order.
    pub fn new(vars: &'a [Var], index: &'a NameIndex) -> VariableNames<'a>
        requires { IsIndex index.now (var_names vars.now) }
        ensures { result ≡ var_names vars.now }
    {
        VariableNames { vars, index }
    }

    /// Returns the position, from 0 on, of the variable of this name, or `None` if there is none.
    pub fn find(&self, name: &[u8]) -> Option<u64>
        ensures { result ≡ position_of self.now name.now }
    {
        self.index.find(self.vars, name)
    }
}
