//! The best prices of label 0 in each hour.

ghost use Rattle.std.specs.Prelude.{◌≡◌, ◌&&◌, ◌==◌};
ghost use Rattle.formulas.specs.Postings.{is_kind};
ghost use Rattle.gathering.specs.Offers.{way, better as better_of, Bettered};

use super::sides::Way;
use postings::Posting;

impl Way {
    /// The better of two prices.
    fn better(self, a: u32, b: u32) -> u32
        ensures value { result ≡ better_of self a b }
    {
        match self {
            Way::Up => a.max(b),
            Way::Down => a.min(b),
        }
    }

    /// Whether a posting is an instruction of this way and of label 0.
    fn has_offer(self, posting: &Posting) -> bool
        ensures value { result ≡ (is_kind (way self) posting.now.row && posting.now.row.label == 0) }
    {
        posting.kind() == self.kind() && posting.row().label == 0
    }
}

/// Takes the price of a posting in, where it sets the price of its hour.
pub(crate) fn take_offer(prices: &mut [u32; 24], posting: &Posting, way: Way)
    ensures after { Bettered way posting.now.row prices.old prices.new }
{
    if way.has_offer(posting) {
        let row = posting.row();
        let hour = usize::from(row.first);
        prices[hour] = way.better(row.price.unsigned_abs(), prices[hour]);
    }
}
