//! How many more values a variable takes.

ghost use Rattle.std.specs.Prelude.{◌≡◌, ◌<◌, ℕ, false};

/// How many more values a variable takes: numbers in the form [`Numbers`](crate::ValueForm::Numbers), bytes in `Joined`, rows in `Rows`.
#[derive(Clone, Copy)]
pub enum Capacity {
    /// Any number of values.
    Unlimited,
    /// As many values as this, and no more.
    AtMost(u64),
}

impl Capacity {
    ghost use Rattle.cdl_values.specs.code.PackedValues.{capacity_limit, capacity_minus, is_full, is_exceeded_by};

    /// Returns true if the variable takes no more values.
    pub fn is_full(self) -> bool
        ensures { result ≡ is_full self }
    {
        match self {
            Capacity::Unlimited => false,
            Capacity::AtMost(left) => left == 0,
        }
    }

    /// Returns true if `n` more values are too many, since the variable takes fewer than `n`.
    pub fn is_exceeded_by(self, n: u128) -> bool
        ensures { result ≡ is_exceeded_by n self }
    {
        match self {
            Capacity::Unlimited => false,
            Capacity::AtMost(left) => (left as u128) < n,
        }
    }

    /// Returns the capacity that is left after `n` more values. It is 0 if these are too many; `Unlimited` stays `Unlimited`.
    pub fn minus(self, n: u128) -> Capacity
        ensures { result ≡ capacity_minus n self }
    {
        match self {
            Capacity::Unlimited => Capacity::Unlimited,
            Capacity::AtMost(left) => Capacity::AtMost((left as u128).saturating_sub(n) as u64),
        }
    }

    /// Returns how many more values the variable takes, or `u64::MAX` if it takes any number. After fewer values than this it isn't full.
    pub fn limit(self) -> u64
        ensures limit { result ≡ capacity_limit self }
        ensures room { (n : ℕ) → n < result → is_full (capacity_minus n self) ≡ false }
    {
        match self {
            Capacity::Unlimited => u64::MAX,
            Capacity::AtMost(left) => left,
        }
    }
}
