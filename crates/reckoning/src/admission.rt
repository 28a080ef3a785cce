//! The limits of a day, each looked at by a function of its own.

ghost use Rattle.std.specs.Prelude.{◌≡◌, ◌*◌, ◌≤◌, true, length};
ghost use Rattle.faults.specs.Asks.{Answered};
ghost use Rattle.postings.specs.Table.{all_lawful};
ghost use Rattle.formulas.specs.Postings.{is_order, kwh, span};
ghost use Rattle.reckoning.specs.Admission.{ask_postings, ask_volume, ask_members};

use books::{Book, Postings};
use faults::Fault;
use postings::{Kind, MOST_POSTINGS, Posting};

/// The most kWh of volume × hours.
const MOST_KWH: u64 = 120_000_000;

/// Whether there are few enough postings.
pub fn check_postings<B: Book>(book: &B) -> Result<(), Fault>
    ensures cases { Answered (ask_postings (B.Book.list book.now)) result }
    ensures lawful { all_lawful (B.Book.list book.now) ≡ true }
{
    if book.count() > MOST_POSTINGS {
        return Err(Fault::ManyPostings);
    }
    Ok(())
}

/// Whether a posting is an order, which counts lots of 100 kWh.
fn is_order(posting: &Posting) -> bool
    ensures value { result ≡ is_order posting.now.row }
{
    !matches!(
        posting.kind(),
        Kind::Injection | Kind::Withdrawal | Kind::Up | Kind::Down
    )
}

/// The kWh of a posting in each hour that it covers.
fn kwh_in_hour(posting: &Posting) -> u64
    ensures value { result ≡ kwh posting.now.row }
    ensures bound { result ≤ 1000000 }
{
    let volume = u64::from(posting.row().volume);
    if is_order(posting) {
        100 * volume
    } else {
        volume
    }
}

/// Volume × hours of a posting, in kWh.
fn kwh_of(posting: &Posting) -> u64
    ensures value { result ≡ kwh posting.now.row * span posting.now.row }
    ensures bound { result ≤ 24000000 }
{
    kwh_in_hour(posting) * u64::from(posting.hours())
}

/// Whether there is little enough volume.
pub fn check_volume<B: Book>(book: &B) -> Result<(), Fault>
    ensures cases { Answered (ask_volume (B.Book.list book.now)) result }
{
    let mut sum = 0;
    for posting in Postings::of(book) {
        sum += kwh_of(&posting);
        if sum > MOST_KWH {
            return Err(Fault::MuchVolume);
        }
    }
    Ok(())
}

/// Whether each posting is of a member of the day.
pub fn check_members<B: Book>(book: &B, members: usize) -> Result<(), Fault>
    ensures cases { Answered (ask_members (B.Book.list book.now) members) result }
{
    for (place, posting) in Postings::of(book).enumerate() {
        if usize::from(posting.row().member) >= members {
            return Err(Fault::StrangerAt(place));
        }
    }
    Ok(())
}
