//! The variables of a text.

ghost use Rattle.std.specs.Prelude.{◌≡◌, [], drop, false, true, not, IfOk, OnErr, map};
ghost use Rattle.cdl_statements.specs.code.Cutters.{is_done, words};
ghost use Rattle.cdl_statements.specs.code.DueTokens.{completes};
ghost use Rattle.cdl_statements.specs.declared.due.Due.TheVariants.{AttributeName};
ghost use Rattle.cdl_values.specs.code.Answers.{Leaves};
ghost use Rattle.cdl_values.specs.code.Listed.{unlisted_drafts};
ghost use Rattle.cdl_values.specs.code.NameIndices.{IsIndex, var_names};
ghost use Rattle.cdl_parse.specs.code.AttributeRead.{variable_att_read};
ghost use Rattle.cdl_parse.specs.code.Drafts.{is_variable_name, var_of, with_draft};

use crate::attribute::read_attribute;
use crate::attributes::Attributes;
use crate::variable_lookup::variable_position;
use cdl_statements::Cutter;
use cdl_values::{NameIndex, ReadError};
use nc_base::{Named, NcType, Sequence, Var};
use std::alloc::{AllocError, Global};
use std::marker::Model;

/// A variable of a text: what its declaration and the statements of its attributes say.
#[derive(Drop)]
struct Variable {
    name: Sequence<u8>,
    /// The ids of its dimensions: their positions in the list of the dataset's dimensions. The one that varies slowest comes first.
    dimids: Sequence<u64>,
    ty: NcType,
    atts: Attributes,
}

impl Named for Variable {
    ghost name_of = { λ v. v.name };

    /// Returns the bytes of the variable's name, by which a [`NameIndex`] finds it.
    fn name(&self) -> &[u8] {
        self.name.as_slice()
    }
}

/// The variables of a text, in the order of the text.
///
/// A variable is found by its name in a time that grows with the logarithm of their number.
#[derive(Drop)]
pub struct Variables {
    list: Vec<Variable>,
    /// Finds the position of a variable in `list` by its name.
    names: NameIndex,
}

impl Model for Variables {
    ghost use Rattle.std.specs.Prelude.{List, ◌≡◌};
    ghost use Rattle.cdl_statements.specs.State.{Draft};

    ghost Value = { List Draft };

    ghost use Rattle.cdl_values.specs.code.NameIndices.{IsIndex};
    ghost use Rattle.cdl_parse.specs.code.Drafts.{drafts_of, variable_names};

    ghost view = { λ variables. drafts_of variables.list.items };

    ghost invariant = { λ variables. IsIndex variables.names (variable_names variables.list.items) };
}

impl Variables {
    /// Returns a list without variables. Does not allocate.
    pub fn new(alloc: Global) -> Variables
        ensures { result ≡ [] }
    {
        Variables {
            list: Vec::new(alloc),
            names: NameIndex::new(alloc),
        }
    }

    /// Returns true if one of the variables has the name.
    pub fn has_name(&self, name: &[u8]) -> bool
        ensures { result ≡ is_variable_name name.now self.now }
    {
        self.names.find(self.list.as_slice(), name).is_some()
    }

    /// Adds a variable without attributes at the end and returns true, if no other one has its name. Otherwise changes nothing and returns
    /// false. `dimids` are the ids of its dimensions, the positions in the dataset's list.
    ///
    /// # Errors
    ///
    /// An allocation failed. Then the variables are what they were.
    pub fn add(
        &mut self,
        alloc: Global,
        name: Vec<u8>,
        dimids: Vec<u64>,
        ty: NcType,
    ) -> Result<bool, AllocError>
        ensures new { IfOk result (λ added. added ≡ not (is_variable_name name.items self.old)) }
        ensures drafts { IfOk result (λ a. self.new ≡ with_draft a self.old name.items dimids.items ty) }
        ensures err { OnErr result (self.new ≡ self.old) }
    {
        self.list.reserve(1)?;
        let added = self
            .names
            .add(alloc, self.list.as_slice(), name.as_slice())?;
        if added {
            self.list.push(Variable {
                name: Sequence::from_vec(name),
                dimids: Sequence::from_vec(dimids),
                ty,
                atts: Attributes::new(alloc),
            })?;
        }
        Ok(added)
    }

    /// Reads an attribute of a variable, and adds it to the attributes of that variable. `start` is at the variable's name. Needs tokens in
    /// the order of such a statement, which isn't checked here.
    ///
    /// After the name come `:`, the attribute's name, `=` and the constants, joined by commas (the CDL chapter of the NetCDF User's Guide,
    /// and ncgen(1)).
    ///
    /// # Errors
    ///
    /// The first of these faults: a variable's name that the format doesn't allow (`BadName`) or no variable has (`UnknownVariable`); a
    /// fault of [`read_attribute`](crate::attribute::read_attribute). Or an allocation failed. In each case nothing changes.
    pub fn read_attribute(&mut self, alloc: Global, start: Cutter<'_>) -> Result<(), ReadError>
        requires more { is_done start ≡ false }
        requires shaped { completes AttributeName (drop 2 (words start)) ≡ true }
        ensures reads { Leaves self.new result (variable_att_read start.entry self.old) }
        ensures unchanged { OnErr result (self.new ≡ self.old) }
    {
        let position = variable_position(
            alloc,
            self.list.as_slice(),
            &self.names,
            start.lexeme().bytes,
        )?;
        let (colon, _) = start.advanced();
        let (name, _) = colon.advanced();
        let variable = &mut self.list[position as usize];
        read_attribute(alloc, &mut variable.atts, name)
    }

    /// Returns the variables as a header has them, each with begin 0 (no offset is known yet), and the index that finds a variable's
    /// position by its name. No name, shape or attribute is copied.
    ///
    /// # Errors
    ///
    /// An allocation failed.
    pub fn into_parts(self, alloc: Global) -> Result<(Sequence<Var>, NameIndex), AllocError>
        ensures vars { IfOk result (λ parts. unlisted_drafts parts.0 ≡ self) }
        ensures names { IfOk result (λ parts. IsIndex parts.1 (var_names parts.0)) }
    {
        let Variables { list, names } = self;
        let vars = vars_of(alloc, list)?;
        Ok((Sequence::from_vec(vars), names))
    }
}

/// Turns each variable of `list` into one of a header, by [`var_of`], and returns them in this order. Errs only if an allocation failed.
///
/// The capacity is reserved first: `collect` would try a failed allocation again with less.
fn vars_of(alloc: Global, list: Vec<Variable>) -> Result<Vec<Var>, AllocError>
    ensures { IfOk result (λ vars. vars.items ≡ map var_of list.items) }
{
    let mut vars = Vec::new(alloc);
    vars.reserve_exact(list.len())?;
    for variable in list {
        vars.push(var_of(variable))?;
    }
    Ok(vars)
}

/// Turns the variable into one of a header, with begin 0.
fn var_of(variable: Variable) -> Var
    ensures { result ≡ var_of variable }
{
    let Variable {
        name,
        dimids,
        ty,
        atts,
    } = variable;
    Var {
        name,
        dimids,
        atts: atts.into_sequence(),
        ty,
        begin_at: 0,
    }
}
