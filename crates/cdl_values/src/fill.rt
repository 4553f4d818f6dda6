//! The number that `_` stands for.

ghost use Rattle.std.specs.Prelude.{◌≡◌, true};
ghost use Rattle.cdl_statements.specs.State.{has_number};

use nc_base::NcType;

/// The fill value of a variable of numbers: the number that `_` stands for in a list of its values.
#[derive(Clone, Copy)]
pub struct Fill {
    /// The type of the variable.
    pub ty: NcType,
    /// The fill value, which is in the range of the type.
    pub value: i128,
    pub ghost in_range: { has_number ty value ≡ true },
}

impl Fill {
    ghost use Rattle.nc_base.specs.NumberLaws.{IsInRange};

    /// Returns the fill value `value` of a variable of the type `ty`. Needs a `value` in the range of `ty`.
    #[tactic(auto, using(cdl_statements::proofs::InRange::is_had))]
    pub fn new(ty: NcType, value: i128) -> Fill
        requires { IsInRange ty value }
        ensures ty { result.ty ≡ ty }
        ensures value { result.value ≡ value }
    {
        Fill { ty, value }
    }
}
