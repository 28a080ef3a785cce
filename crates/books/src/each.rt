//! Going over a book.

ghost use Rattle.std.specs.Prelude.{◌≡◌, length, drop};
ghost use Rattle.std.specs.Iterator.{YieldsFirstBy, item_count};

use super::book::Book;
use postings::Posting;

/// The postings of a book from a place on, in the order of their places.
#[derive(Drop)]
pub struct Postings<'b, B: Book> {
    book: &'b B,
    place: usize,
    count: usize,
    ghost whole: { count ≡ length (B.Book.list book.now) },
}

impl<'b, B: Book> Postings<'b, B> {
    /// All postings of a book.
    pub fn of(book: &'b B) -> Postings<'b, B>
        ensures value { drop result.place (B.Book.list result.book.now) ≡ B.Book.list book.now }
        ensures count { result.count ≡ length (B.Book.list book.now) }
    {
        Postings {
            book,
            place: 0,
            count: book.count(),
        }
    }
}

impl<'b, B: Book> Iterator for Postings<'b, B> {
    type Item = Posting;

    ghost next_gives = { YieldsFirstBy (λ p. p.row) (λ s. drop s.place (B.Book.list s.book.now)) };

    ghost remaining = { item_count (λ s. drop s.place (B.Book.list s.book.now)) };

    // as a call of its own it costs a loop over an image's book up to a third more for each posting
    #[inline]
    fn next(&mut self) -> Option<Posting> {
        if self.place >= self.count {
            return None;
        }
        let posting = self.book.at(self.place)?;
        self.place += 1;
        Some(posting)
    }
}
