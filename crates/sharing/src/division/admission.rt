//! What every rule asks before it writes. This stands apart from the struct, since its contract cites definitions that name it.

ghost use Rattle.std.specs.Prelude.{◌≡◌, ◌<◌, ◌≤◌, sum, MatchOption};
ghost use Rattle.sharing.specs.Shared.{limit};
ghost use Rattle.sharing.specs.Admission.{Admitted};

use super::Division;
use faults::Fault;

/// The largest sum of weights, and the largest size of an amount times it.
const LIMIT: u64 = 9_000_000_000_000_000_000;

/// The sum of the weights, where it is within the limit.
fn sum_within(weights: &[u64]) -> Option<u64>
    ensures cases { MatchOption result (limit < sum weights.now) (λ t. (t ≡ sum weights.now) × (t ≤ limit)) }
{
    weights
        .iter()
        .copied()
        .try_fold(0, u64::checked_add)
        .filter(|sum| *sum <= LIMIT)
}

impl<'w> Division<'w> {
    /// The division of an amount by weights, where there is a place for each and the numbers are within the limit.
    pub(crate) fn admitted(
        amount: i64,
        weights: &'w [u64],
        places: usize,
    ) -> Result<Division<'w>, Fault>
        ensures cases { Admitted amount weights.now places result }
    {
        if weights.len() != places {
            return Err(Fault::PartCount);
        }
        let total = sum_within(weights).ok_or(Fault::LargeShare)?;
        let size = amount.unsigned_abs().checked_mul(total);
        if size.is_none_or(|size| size > LIMIT) {
            return Err(Fault::LargeShare);
        }
        Ok(Division {
            amount,
            weights,
            total,
        })
    }
}
