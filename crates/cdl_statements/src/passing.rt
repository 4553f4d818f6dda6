//! Values of a list that are passed without being read, where only the shape of the statement is asked for.

ghost use Rattle.std.specs.Prelude.{◌≡◌, ◌<◌, false, true};
ghost use Rattle.cdl_statements.specs.code.Cutters.{is_done, offset_of};
ghost use Rattle.cdl_statements.specs.code.ListedTokens.{EndsAtScanner, IsAtComma};
ghost use Rattle.cdl_statements.specs.code.ValueLists.{reached};
ghost use Rattle.cdl_statements.specs.code.PassedValues.{PassesGood, PassesValues};

use crate::cutter::Cutter;
use crate::due::Due;
use crate::shape_check::token_fault;
use crate::value_list::ValueList;

/// Moves `cutter` past some of the values of a list that come next, to the comma after the last of them: values without a fault, each with
/// a comma before and after it. `due` says which token has to come next. If that isn't a separator, or no comma comes next, the cutter
/// stays where it is. No clause says how many values it passes: a caller checks the others token by token. Needs a statement that is left.
/// Does not allocate.
#[inline(always)]
pub fn pass_values(cutter: &mut Cutter<'_>, due: Due)
    requires { is_done cutter.old ≡ false }
    ensures { PassesGood due cutter.old cutter.new }
{
    if let Due::Separator { takes_fill } = due {
        if cutter.is_at_comma() {
            *cutter = pass_list(*cutter, takes_fill);
        }
    }
}

/// Passes the value that comes next if it has no fault and a comma after it, and then plain numbers if they are likely after it
/// ([`pass_numbers`]). Returns the cutter at the last comma, or `start` if no value was passed. `_` counts as a value if `takes_fill` is
/// true. Needs a cutter at a comma inside of a statement.
fn pass_list(start: Cutter<'_>, takes_fill: bool) -> Cutter<'_>
    requires { IsAtComma start }
    ensures { PassesValues takes_fill start.entry result }
{
    let mut cutter = start;
    let Some(token) = cutter.token_and_comma() else {
        return start;
    };
    if !token.is_value(takes_fill) || token_fault(start.version(), token).is_some() {
        return start;
    }
    if !token.may_precede_plain() {
        return cutter;
    }
    pass_numbers(cutter, takes_fill)
}

/// Passes the plain numbers (decimal, at most 19 digits, no suffix but `b`, `s` or `l`) that come next, and each `_` among them if
/// `takes_fill` is true, and returns the cutter at the last comma. Needs a cutter at a comma inside of a statement, with its scanner just
/// after this comma.
#[inline(never)]
fn pass_numbers(start: Cutter<'_>, takes_fill: bool) -> Cutter<'_>
    requires at { IsAtComma start }
    requires ends { EndsAtScanner start }
    ensures { PassesValues takes_fill start.entry result }
{
    let mut list = ValueList::new(start);
    'numbers: while pass_number(&mut list, takes_fill) {}
    list.cutter()
}

/// Passes the next value of `list` if it is a plain number with a comma after it, or a `_` with a comma after it and `takes_fill` is true,
/// and returns true. Otherwise returns false, and the list stays where it is. Needs a list that began at a comma inside of a statement.
#[inline(always)]
fn pass_number(list: &mut ValueList<'_>, takes_fill: bool) -> bool
    requires { IsAtComma (reached list.old) }
    ensures passes { result ≡ true → PassesValues takes_fill (reached list.old) (reached list.new) }
    ensures moves { result ≡ true → offset_of (reached list.old) < offset_of (reached list.new) }
    ensures stays { result ≡ false → list.new ≡ list.old }
{
    match list.number_and_comma() {
        Some(_) => true,
        None => takes_fill && list.underscore_and_comma(),
    }
}
