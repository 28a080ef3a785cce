//! The check of an image, and its prices.

ghost use Rattle.std.specs.Prelude.{◌≡◌, ◌≤◌};
ghost use Rattle.faults.specs.Asks.{Answered};
ghost use Rattle.images.specs.Reading.{count_in, price_at, prices_in};
ghost use Rattle.images.specs.Checking.{ask_frame, ask_prices, ask_postings, Checked};

use super::bytes::{row_at, u16_at, u32_at};
use faults::Fault;
use postings::{HIGHEST_PRICE, MOST_POSTINGS, Posting};
use std::array;

/// Whether the bytes are a day image: a fault of the frame, or else at the lowest price, or else at the lowest posting.
pub fn check(bytes: &[u8]) -> Result<(), Fault>
    ensures cases { Checked bytes.now result }
{
    check_frame(bytes)?;
    check_prices(bytes)?;
    check_postings(bytes)
}

/// The count of postings that the image states.
#[tactic(auto, unfolding(crate::specs::Reading::count_in))]
pub(crate) fn stated_count(bytes: &[u8]) -> usize
    ensures value { result ≡ count_in bytes.now }
{
    usize::from(u16_at(bytes, 98))
}

fn check_frame(bytes: &[u8]) -> Result<(), Fault>
    ensures cases { Answered (ask_frame bytes.now) result }
{
    let count = stated_count(bytes);
    if u16_at(bytes, 0) == 24 && count <= MOST_POSTINGS && bytes.len() == 100 + 13 * count {
        Ok(())
    } else {
        Err(Fault::ImageFrame)
    }
}

/// The price of an hour.
#[tactic(auto, unfolding(crate::specs::Reading::price_at))]
fn price_at(bytes: &[u8], hour: usize) -> u32
    requires { hour ≤ 24 }
    ensures value { result ≡ price_at bytes.now hour }
{
    u32_at(bytes, 2 + 4 * hour)
}

// not the check of `postings`: the fault is the image's
fn check_prices(bytes: &[u8]) -> Result<(), Fault>
    ensures cases { Answered (ask_prices bytes.now) result }
{
    // by hour: over the array of all prices, the refusal of the first took six times as long
    for hour in 0..24 {
        if price_at(bytes, hour) > HIGHEST_PRICE {
            return Err(Fault::ImagePriceAt(hour));
        }
    }
    Ok(())
}

fn check_postings(bytes: &[u8]) -> Result<(), Fault>
    requires { count_in bytes.now ≤ 2048 }
    ensures cases { Answered (ask_postings bytes.now) result }
{
    // by place: what is asked here is the stated count, so the bytes may be shorter than its rows
    for place in 0..stated_count(bytes) {
        // not `map_err(..)?`: over its closure, which holds `place`, the loop's proof did not close
        if let Err(fault) = Posting::make(row_at(bytes, place)) {
            return Err(Fault::ImagePostingAt(place, fault));
        }
    }
    Ok(())
}

/// The 24 prices that stand in the bytes.
#[tactic(auto, unfolding(crate::specs::Reading::prices_in))]
pub fn prices(bytes: &[u8]) -> [u32; 24]
    ensures value { result ≡ prices_in bytes.now }
{
    array::from_fn(|hour| price_at(bytes, hour))
}
