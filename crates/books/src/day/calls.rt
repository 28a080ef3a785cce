//! Opening a day and posting through it. These stand apart from the struct, since their contracts cite definitions that name it.

ghost use Rattle.std.specs.Prelude.{◌≡◌, ◌≤◌};
ghost use Rattle.books.specs.Days.{Opened, PostedInDay};

use super::OpenDay;
use crate::book::OpenBook;
use faults::Fault;
use postings::{Posting, check_count};

impl OpenDay {
    /// An open day of so many members.
    pub fn open(members: usize) -> Result<OpenDay, Fault>
        ensures cases { Opened members result }
    {
        check_count(members)?;
        Ok(OpenDay { members })
    }

    /// How many members the day has.
    pub fn members(&self) -> usize
        ensures value { result ≡ self.now.members }
        ensures low_bound { 1 ≤ result }
        ensures high_bound { result ≤ 64 }
    {
        self.members
    }

    /// Puts the posting of a member of the day last in the day's book, and answers its place.
    pub fn post<B: OpenBook>(&self, book: &mut B, posting: Posting) -> Result<usize, Fault>
        ensures cases { PostedInDay self.now.members (B.Book.list book.old) (B.Book.largest book.old) posting.row result (B.Book.list book.new) }
        ensures same { B.Book.largest book.new ≡ B.Book.largest book.old }
    {
        if usize::from(posting.row().member) >= self.members {
            return Err(Fault::NotMember);
        }
        book.post(posting)
    }
}
