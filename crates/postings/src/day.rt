//! What a day may hold.

ghost use Rattle.std.specs.Prelude.{◌≡◌};
ghost use Rattle.faults.specs.Asks.{Answered};
ghost use Rattle.faults.specs.Members.{ask_count};
ghost use Rattle.postings.specs.Prices.{ask_prices};

use faults::Fault;

/// The most members of a day.
pub const MOST_MEMBERS: usize = 64;

/// The most postings of a day.
pub const MOST_POSTINGS: usize = 2048;

/// The highest market price, in kuruş per MWh.
pub const HIGHEST_PRICE: u32 = 500_000;

/// Whether a day has so many members.
pub fn check_count(members: usize) -> Result<(), Fault>
    ensures cases { Answered (ask_count members) result }
{
    if members == 0 || members > MOST_MEMBERS {
        return Err(Fault::MemberCount);
    }
    Ok(())
}

/// Whether each market price is lawful.
pub fn check_prices(prices: &[u32]) -> Result<(), Fault>
    ensures cases { Answered (ask_prices prices.now) result }
{
    for (place, price) in prices.iter().enumerate() {
        if *price > HIGHEST_PRICE {
            return Err(Fault::PriceAt(place));
        }
    }
    Ok(())
}
