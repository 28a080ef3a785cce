//! What follows of every book from its meaning alone.

ghost use Rattle.std.specs.Prelude.{◌≡◌, ◌≤◌};
ghost use Rattle.postings.specs.Volumes.{at_volume};
ghost use Rattle.books.specs.Books.{row_of};
ghost use Rattle.clients.specs.Lists.{count_of, where_room};

use books::{Book, Corrected, OpenBook, Postings};
use postings::Posting;

/// A place asked for twice, with the same answer.
pub fn asked_twice<B: Book>(book: &B, place: usize) -> (Option<Posting>, Option<Posting>)
    ensures same { row_of result.0 ≡ row_of result.1 }
{
    (book.at(place), book.at(place))
}

/// How many postings have the kind's code.
pub fn count_of<B: Book>(book: &B, code: u8) -> usize
    ensures value { result ≡ count_of code (B.Book.list book.now) }
{
    let mut count = 0;
    for posting in Postings::of(book) {
        if posting.row().kind == code {
            count += 1;
        }
    }
    count
}

/// Posts into any open book and reads the posting back, or answers none where the book is full.
pub fn read_back<B: OpenBook>(book: &mut B, posting: Posting) -> Option<Posting>
    ensures value { row_of result ≡ where_room (B.Book.list book.old) (B.Book.largest book.old) posting.row }
{
    let place = book.post(posting).ok()?;
    book.at(place)
}

/// The same through a layer, which corrects the posting before it is read.
pub fn read_back_corrected<B: OpenBook>(
    book: &mut B,
    posting: Posting,
    volume: u32,
) -> Option<Posting>
    ensures value { row_of result ≡ where_room (B.Book.list book.old) (B.Book.largest book.old) (at_volume posting.row volume) }
{
    let mut layer = Corrected::new(book);
    let place = layer.post(posting).ok()?;
    let _ = layer.correct(place, volume);
    layer.at(place)
}

/// The same through a layer over a layer.
pub fn read_back_above<B: OpenBook>(book: &mut B, posting: Posting, volume: u32) -> Option<Posting>
    ensures value { row_of result ≡ where_room (B.Book.list book.old) (B.Book.largest book.old) (at_volume posting.row volume) }
{
    let mut lower = Corrected::new(book);
    read_back_corrected(&mut lower, posting, volume)
}
