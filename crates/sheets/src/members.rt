//! How many members a day has.

ghost use Rattle.std.specs.Prelude.{◌≡◌};
ghost use Rattle.sheets.specs.Members.{named};

use books::{Book, Postings};

/// One more than the highest member that a posting names; 1 if none does.
// as a call of its own it costs a caller that asks of many books up to a third more for each posting
#[inline]
pub fn members_named<B: Book>(book: &B) -> usize
    ensures value { result ≡ named (B.Book.list book.now) }
{
    let mut members: usize = 1;
    for posting in Postings::of(book) {
        members = members.max(usize::from(posting.row().member) + 1);
    }
    members
}
