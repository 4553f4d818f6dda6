//! What a text declares before its data section.

ghost use Rattle.std.specs.Prelude.{◌≡◌, IfOk, false, true};
ghost use Rattle.cdl_statements.specs.code.Cutters.{Follows, is_done, next_token, text_of, words};
ghost use Rattle.cdl_statements.specs.code.DueTokens.{completes};
ghost use Rattle.cdl_statements.specs.Lexemes.{is_mark, lexeme};
ghost use Rattle.cdl_statements.specs.Pieces.{section_of};
ghost use Rattle.cdl_statements.specs.code.Views.{lexeme_of};
ghost use Rattle.cdl_statements.specs.declared.due.Due.TheVariants.{First};

use crate::attribute::read_attribute;
use crate::attributes::Attributes;
use crate::declaration::read_declaration;
use crate::dimension_list::read_dimensions;
use crate::dimensions::Dimensions;
use crate::variables::Variables;
use cdl_statements::{Cutter, Lexeme, Section, check_statement};
use cdl_values::ReadError;
use std::alloc::Global;

/// What the statements of a text up to its data section declare.
#[derive(Drop)]
pub struct Definitions {
    /// The section that the next statement stands in.
    pub section: Section,
    pub dims: Dimensions,
    /// The attributes of the dataset.
    pub gatts: Attributes,
    pub variables: Variables,
}

impl Definitions {
    ghost use Rattle.cdl_statements.specs.Meaning.{empty};
    ghost use Rattle.cdl_parse.specs.code.Defined.{Makes, after_mark, after_statement, is_defining, is_before_data, said_by, state_of};

    /// Returns definitions without dimensions, attributes and variables, in the section before the first statement. Does not
    /// allocate.
    pub fn new(alloc: Global) -> Definitions
        ensures { state_of result ≡ empty }
    {
        Definitions {
            section: Section::Unopened,
            dims: Dimensions::new(alloc),
            gatts: Attributes::new(alloc),
            variables: Variables::new(alloc),
        }
    }

    /// Reads the next statement: adds what it declares, or sets `section` to the section that it begins. Returns a cutter (a cursor in the
    /// text) at the statement after it. Needs a statement that is left, and a `section` before the data section.
    ///
    /// # Errors
    ///
    /// The statement's first fault; or an allocation failed. In each case a part of what the statement declares may have been added.
    pub fn read_statement<'a>(
        &mut self,
        alloc: Global,
        start: Cutter<'a>,
    ) -> Result<Cutter<'a>, ReadError>
        requires more { is_done start ≡ false }
        requires early { is_before_data self.old.section ≡ true }
        ensures makes { Makes (state_of self.new) result (after_statement start.entry (state_of self.old)) }
        ensures rest { IfOk result (λ c. Follows start.entry c) }
    {
        let rest = check_statement(start, self.section)?;
        self.apply_statement(alloc, start)?;
        Ok(rest)
    }

    /// Does what the next statement says: adds what it declares, or sets `section` to another section. Needs a `section` before the data
    /// section, and a statement whose tokens are in an order that this section allows ([`check_statement`]). Errs with the first fault of
    /// what the statement says, such as a bad name, or if an allocation failed. Then a part of what it declares may have been added.
    fn apply_statement(&mut self, alloc: Global, start: Cutter<'_>) -> Result<(), ReadError>
        requires more { is_done start ≡ false }
        requires early { is_before_data self.old.section ≡ true }
        requires whole { completes (First self.old.section) (words start) ≡ true }
        ensures { Makes (state_of self.new) result (said_by start.entry self.old.section self.old) }
    {
        match self.section {
            Section::Unopened => {
                self.section = Section::Globals;
                Ok(())
            }
            _ => self.apply_after_opening(alloc, start),
        }
    }

    /// Does what the next statement says, if it isn't the opening (`netcdf NAME {`): `}` sets `section` to `Closed`, and a statement that
    /// begins with `:` adds an attribute of the dataset. What any other statement does depends on the section, which has to be `Globals`,
    /// `Dimensions` or `Variables`. Needs a statement whose tokens are in an order that this section allows. Errs with the first fault of
    /// what the statement says, or if an allocation failed; a part of that may have been added then.
    fn apply_after_opening(&mut self, alloc: Global, start: Cutter<'_>) -> Result<(), ReadError>
        requires more { is_done start ≡ false }
        requires defining { is_defining self.old.section ≡ true }
        requires whole { completes (First self.old.section) (words start) ≡ true }
        ensures { Makes (state_of self.new) result (said_by start.entry self.old.section self.old) }
    {
        let first = start.lexeme();
        if first.is_mark(b'}') {
            self.section = Section::Closed;
            return Ok(());
        }
        if first.is_mark(b':') {
            let (name, _) = start.advanced();
            return read_attribute(alloc, &mut self.gatts, name);
        }
        match self.section {
            Section::Dimensions => self.apply_in_dimensions(alloc, start),
            Section::Variables => self.apply_in_variables(alloc, start),
            _ => {
                self.enter_section(first);
                Ok(())
            }
        }
    }

    /// Sets `section` to the section that `word` begins, for example to `Dimensions` if the word is `dimensions`. Changes nothing else. If
    /// `word` begins no section, sets `section` to `Ended`; but no caller passes such a word.
    fn enter_section(&mut self, word: Lexeme<'_>)
        ensures section { self.new.section ≡ after_mark (section_of (lexeme_of word.entry)) }
        ensures dims { self.new.dims ≡ self.old.dims }
        ensures gatts { self.new.gatts ≡ self.old.gatts }
        ensures variables { self.new.variables ≡ self.old.variables }
    {
        self.section = word.section().unwrap_or(Section::Ended);
    }

    /// Does what the next statement of the section `dimensions:` says: sets `section` to a later section, or adds dimensions. Needs a
    /// statement whose tokens are in an order that this section allows, and that begins with neither `}` nor `:`. Errs with the first fault
    /// of a dimension's name or length, or if an allocation failed; then some of the dimensions may have been added.
    fn apply_in_dimensions(&mut self, alloc: Global, start: Cutter<'_>) -> Result<(), ReadError>
        requires more { is_done start ≡ false }
        requires section { self.old.section ≡ Section.Dimensions }
        requires brace { is_mark 0x7d (lexeme (text_of start) (next_token start)) ≡ false }
        requires colon { is_mark 0x3a (lexeme (text_of start) (next_token start)) ≡ false }
        requires whole { completes (First Section.Dimensions) (words start) ≡ true }
        ensures { Makes (state_of self.new) result (said_by start.entry Section.Dimensions self.old) }
    {
        let word = start.lexeme();
        if word.opens_section_after(Section::Dimensions) {
            self.enter_section(word);
            return Ok(());
        }
        read_dimensions(alloc, &mut self.dims, start)
    }

    /// Does what the next statement of the section `variables:` says: adds an attribute of a variable, sets `section` to a later section,
    /// or adds variables. Needs a statement whose tokens are in an order that this section allows, and that begins with neither `}` nor
    /// `:`. Errs with the first fault of what the statement says, or if an allocation failed. Then some of the variables may have been
    /// added.
    fn apply_in_variables(&mut self, alloc: Global, start: Cutter<'_>) -> Result<(), ReadError>
        requires more { is_done start ≡ false }
        requires section { self.old.section ≡ Section.Variables }
        requires brace { is_mark 0x7d (lexeme (text_of start) (next_token start)) ≡ false }
        requires colon { is_mark 0x3a (lexeme (text_of start) (next_token start)) ≡ false }
        requires whole { completes (First Section.Variables) (words start) ≡ true }
        ensures { Makes (state_of self.new) result (said_by start.entry Section.Variables self.old) }
    {
        let word = start.lexeme();
        let (second, _) = start.advanced();
        if !second.lexeme().is_mark(b':') {
            return read_declaration(alloc, &self.dims, &mut self.variables, start);
        }
        if word.is_name() {
            return self.variables.read_attribute(alloc, start);
        }
        self.enter_section(word);
        Ok(())
    }
}
