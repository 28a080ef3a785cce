//! What a host can rely on when it posts through an open day.

ghost use Rattle.std.specs.Prelude.{◌≡◌, ◌≤◌, if◌then◌else◌, Err, nat_le};
ghost use Rattle.faults.specs.declared.fault.Fault.TheVariants.{NotMember};

use books::{OpenBook, OpenDay};
use faults::Fault;
use postings::Posting;

/// The members of a day that is opened for so many, or 0 where there is no such day.
pub fn members_of_day(members: usize) -> usize
    ensures value { result ≡ (if nat_le members 64 then members else 0) }
{
    OpenDay::open(members).map_or(0, |day| day.members())
}

/// A posting of no member of the day is refused by every book, and its list stays.
pub fn stranger_refused<B: OpenBook>(
    day: &OpenDay,
    book: &mut B,
    posting: Posting,
) -> Result<usize, Fault>
    ensures refused { day.now.members ≤ posting.row.member → result ≡ Err NotMember }
    ensures same { day.now.members ≤ posting.row.member → B.Book.list book.new ≡ B.Book.list book.old }
{
    day.post(book, posting)
}
