//! Names, as words of a text spell them.

ghost use Rattle.std.specs.Prelude.{◌≡◌, IfErr, IfOk, OnOk, true};
ghost use Rattle.nc_types.specs.Names.{is_name};
ghost use Rattle.cdl_tokens.specs.Escapes.{word_value};
ghost use Rattle.cdl_statements.specs.declared.fault.CdlKind.TheVariants.{BadName};
ghost use Rattle.cdl_statements.specs.State.{unless};
ghost use Rattle.cdl_values.specs.code.Answers.{FailsRead};

use crate::read_error::ReadError;
use cdl_statements::CdlKind;
use cdl_tokens::{byte_at, is_escape};
use nc_base::check_name;
use std::alloc::{AllocError, Global};

/// Returns the name that a word stands for, if the format allows it: the bytes of the word without the backslashes of its escapes, `a b`
/// for the word `a\ b`.
///
/// # Errors
///
/// `BadName` if the format doesn't allow the name, or `OutOfMemory` if an allocation failed.
pub fn read_name(alloc: Global, word: &[u8]) -> Result<Vec<u8>, ReadError>
    ensures name { IfOk result (λ name. name.items ≡ word_value word.now) }
    ensures allowed { OnOk result (is_name (word_value word.now) ≡ true) }
    ensures fault { IfErr result (λ e. FailsRead e (unless (is_name (word_value word.now)) BadName)) }
{
    let name = name_of_word(alloc, word)?;
    if !check_name(name.as_slice()) {
        return Err(ReadError::Fault(CdlKind::BadName));
    }
    Ok(name)
}

/// Returns the name that a word stands for: its bytes, with each escape replaced by the byte that it escapes. Unlike [`read_name`], it
/// doesn't check if the format allows the name.
///
/// # Errors
///
/// An allocation failed.
#[tactic(auto, using(cdl_tokens::proofs::Words::word_values, std::proofs::lemmas::Grind::common_steps))]
pub fn name_of_word(alloc: Global, word: &[u8]) -> Result<Vec<u8>, AllocError>
    ensures { IfOk result (λ name. name.items ≡ word_value word.now) }
{
    let mut name = Vec::new(alloc);
    let mut at = 0;
    while at < word.len() {
        let next = byte_at(word, at + 1);
        if is_escape(word[at], next) {
            name.push(next)?;
            at += 2;
        } else {
            name.push(word[at])?;
            at += 1;
        }
    }
    Ok(name)
}
