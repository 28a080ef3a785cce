//! A sharing rule: how an amount is split over members by their weights.

ghost use Rattle.std.specs.Prelude.{◌≡◌, ℕ, List, ℤ};
ghost use Rattle.sharing.specs.Law.{SharingLaw};
ghost use Rattle.sharing.specs.Shared.{Shared};

use faults::Fault;

/// A way to split an amount. The parts add up to it, and each is its exact share rounded down or up.
pub trait SharingRule {
    /// The letter that the sheet prints for the rule.
    const LETTER: u8;

    // the letter, for clauses
    ghost LETTER: { ℕ };

    // the parts, by the amount and the weights alone
    ghost parts: { ℤ → List ℕ → List ℤ };

    /// The letter, as the constant has it.
    fn mark(&self) -> u8
        ensures value { result ≡ LETTER }
    {
        Self::LETTER
    }

    /// Writes the parts of `amount` by `weights` to `out`, or refuses and leaves `out` as it was.
    fn share(&self, amount: i64, weights: &[u64], out: &mut [i64]) -> Result<(), Fault>
        ensures cases { Shared parts amount weights.now out.old result out.new };

    // they add up to the amount, and each is near its exact share
    ghost fair: { SharingLaw parts };
}
