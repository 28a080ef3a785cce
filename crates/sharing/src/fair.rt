//! What every rule gives a caller, whichever it is.

ghost use Rattle.sharing.specs.Examples.{Examples};
ghost use Rattle.sharing.specs.Fair.{FairAnswer};

use crate::rule::SharingRule;
use faults::Fault;

/// Shares by any rule: the parts add up to the amount, and each is its exact share rounded down or up.
pub fn share_fairly<R: SharingRule>(
    rule: &R,
    amount: i64,
    weights: &[u64],
    out: &mut [i64],
) -> Result<(), Fault>
    ensures cases { FairAnswer amount weights.now out.old result out.new }
{
    rule.share(amount, weights, out)
}

/// The sums that were worked by hand: −7 by 1, 1, 1 under rules R and L, then 180 by 30, 50 under both.
pub fn examples_stand() -> ([i64; 3], [i64; 3], [i64; 2], [i64; 2])
    ensures value { Examples result.0 result.1 result.2 result.3 }
{
    ([-3, -2, -2], [-2, -2, -3], [67, 113], [68, 112])
}
