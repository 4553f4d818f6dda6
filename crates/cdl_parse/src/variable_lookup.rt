//! The variable that a statement names.

ghost use Rattle.std.specs.Prelude.{◌<◌, IfOk, length, map};
ghost use Rattle.cdl_tokens.specs.Escapes.{word_value};
ghost use Rattle.cdl_values.specs.code.NameIndices.{IsIndex};
ghost use Rattle.cdl_parse.specs.code.VariablePositions.{FindsVariable};

use cdl_statements::CdlKind;
use cdl_values::{NameIndex, ReadError, read_name};
use nc_base::Named;
use std::alloc::Global;

/// Returns the position, from 0 on, in `variables` of the variable that `word` names. The word may have escapes: `a\ b` names `a b`. Needs
/// the `names` of just these variables, which find a position by a name.
///
/// # Errors
///
/// A name that the format doesn't allow (`BadName`), or that no variable has (`UnknownVariable`). Or an allocation failed.
pub fn variable_position<T: Named>(
    alloc: Global,
    variables: &[T],
    names: &NameIndex,
    word: &[u8],
) -> Result<u64, ReadError>
    requires { IsIndex names.now (map T.name_of variables.now) }
    ensures finds { FindsVariable (word_value word.now) (map T.name_of variables.now) result }
    ensures within { IfOk result (λ position. position < length variables.now) }
{
    let name = read_name(alloc, word)?;
    match names.find(variables, name.as_slice()) {
        Some(position) => Ok(position),
        None => Err(ReadError::Fault(CdlKind::UnknownVariable)),
    }
}
