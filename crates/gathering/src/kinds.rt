//! The kinds of postings of a side, and of a way.

ghost use Rattle.std.specs.Prelude.{◌≡◌};
ghost use Rattle.gathering.specs.Rules.{on_side, in_gap};
ghost use Rattle.gathering.specs.Offers.{way};

use super::sides::{Side, Way};
use postings::{Kind, Posting};

impl Side {
    /// Whether a posting is an order of this side.
    pub(crate) fn has(self, posting: &Posting) -> bool
        ensures value { result ≡ on_side self posting.now.row }
    {
        match self {
            Side::Purchase => matches!(posting.kind(), Kind::HourlyPurchase | Kind::BlockPurchase),
            Side::Sale => matches!(
                posting.kind(),
                Kind::HourlySale | Kind::BlockSale | Kind::FlexibleSale
            ),
        }
    }

    /// Whether a posting is an order of this side with a unit price.
    pub(crate) fn has_priced(self, posting: &Posting) -> bool
        ensures value { result ≡ in_gap self posting.now.row }
    {
        match self {
            Side::Purchase => matches!(posting.kind(), Kind::BlockPurchase),
            Side::Sale => matches!(posting.kind(), Kind::BlockSale | Kind::FlexibleSale),
        }
    }
}

impl Way {
    /// The kind of the instructions that go this way.
    pub(crate) fn kind(self) -> Kind
        ensures value { result ≡ way self }
    {
        match self {
            Way::Up => Kind::Up,
            Way::Down => Kind::Down,
        }
    }
}
