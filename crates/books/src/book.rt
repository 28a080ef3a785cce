//! What every book shows.

ghost use Rattle.std.specs.Prelude.{◌≡◌, ℕ, ◌≤◌, true, List, length};
ghost use Rattle.std.specs.List.{slice_get};
ghost use Rattle.postings.specs.Table.{all_lawful};
ghost use Rattle.postings.specs.declared.row.PostingRow.{PostingRow};
ghost use Rattle.books.specs.Books.{row_of, Posted};

use faults::Fault;
use postings::Posting;

/// A list of lawful postings, whose length is the count, and a largest count. A question leaves the book as it is.
pub trait Book {
    /// The rows of the postings, in the order of their places.
    ghost list: { Self → List PostingRow };

    /// The largest count.
    ghost largest: { Self → ℕ };

    /// How many postings there are. Each is lawful, and there are no more than the largest count.
    fn count(&self) -> usize
        ensures value { result ≡ length (list self.now) }
        ensures lawful { all_lawful (list self.now) ≡ true }
        ensures bound { length (list self.now) ≤ largest self.now };

    /// The posting at a place, or none at or past the count.
    fn at(&self, place: usize) -> Option<Posting>
        ensures value { row_of result ≡ slice_get (list self.now) place };

    /// Each posting of a book is lawful.
    ghost lawful: { (b : Self) → all_lawful (list b) ≡ true };
}

/// A book that takes postings.
pub trait OpenBook: Book {
    /// Puts a posting last and answers its place, or refuses where the count is the largest count.
    fn post(&mut self, posting: Posting) -> Result<usize, Fault>
        ensures cases { Posted (Self.Book.list self.old) (Self.Book.largest self.old) posting.row result (Self.Book.list self.new) }
        ensures same { Self.Book.largest self.new ≡ Self.Book.largest self.old };
}

/// A book that is lent is the book.
impl<'b, B: Book> Book for &'b mut B {
    ghost list = { λ b. B.Book.list b.now };

    ghost largest = { λ b. B.Book.largest b.now };

    fn count(&self) -> usize {
        (**self).count()
    }

    fn at(&self, place: usize) -> Option<Posting> {
        (**self).at(place)
    }

    ghost lawful = { λ b. B.Book.lawful b.now };
}

impl<'b, B: OpenBook> OpenBook for &'b mut B {
    fn post(&mut self, posting: Posting) -> Result<usize, Fault> {
        (**self).post(posting)
    }
}
