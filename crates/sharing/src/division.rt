//! An amount and the weights that it is shared by.

ghost use Rattle.std.specs.Prelude.{◌≡◌, ◌≤◌, ◌<◌, length, pos, ◌*ℤ◌, unsigned_abs};
ghost use Rattle.integers.specs.Floor.{floor_div, floor_mod};
ghost use Rattle.sharing.specs.Inside.{Weighed};
ghost use Rattle.sharing.specs.Shared.{limit};
ghost use Rattle.sharing.specs.Rules.{rounded_down, remainder};

mod admission;

/// An amount, weights that it can be shared by, and their sum.
#[derive(Clone, Copy)]
pub(crate) struct Division<'w> {
    amount: i64,
    weights: &'w [u64],
    pub total: u64,
    ghost weighed: { Weighed amount weights.now total },
}

/// An exact share, as its whole kuruş and the remainder of the division.
#[derive(Clone, Copy)]
pub(crate) struct Exact {
    pub whole: i64,
    pub rest: i64,
}

impl Division<'_> {
    /// amount × weight / total rounded down, and what that leaves; nil where the total is 0.
    pub(crate) fn exact(&self, weight: u64) -> Exact
        requires within { weight ≤ self.now.total }
        ensures whole { result.whole ≡ floor_div (self.now.amount *ℤ pos weight) self.now.total }
        ensures rest { result.rest ≡ pos (floor_mod (self.now.amount *ℤ pos weight) self.now.total) }
        ensures bound { unsigned_abs result.whole ≤ limit }
    {
        if self.total == 0 {
            return Exact { whole: 0, rest: 0 };
        }
        // `as` is proved to lose nothing here; `cast_signed` would take a number that wraps too
        let product = self.amount * weight as i64;
        let total = self.total as i64;
        Exact {
            whole: product.div_euclid(total),
            rest: product.rem_euclid(total),
        }
    }

    /// The exact share of a member.
    pub(crate) fn member(&self, place: usize) -> Exact
        requires within { place < length self.now.weights.now }
        ensures whole { result.whole ≡ rounded_down self.now.amount self.now.weights.now place }
        ensures rest { result.rest ≡ pos (remainder self.now.amount self.now.weights.now place) }
        ensures bound { unsigned_abs result.whole ≤ limit }
    {
        self.exact(self.weights[place])
    }
}
