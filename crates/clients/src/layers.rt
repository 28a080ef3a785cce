//! What a host sees through correction layers, and what they leave below.

ghost use Rattle.std.specs.Prelude.{◌≡◌, [], ◌∷◌, Some};
ghost use Rattle.postings.specs.Volumes.{at_volume};
ghost use Rattle.books.specs.Books.{row_of};

use books::{Book, Corrected, OpenBook, RowsBook};
use postings::{Posting, PostingRow};

/// A correction over a lent book: the layer shows the new volume, and the host's rows keep the posting as it was taken.
pub fn corrected_above(
    blank: PostingRow,
    posting: Posting,
    volume: u32,
) -> (Option<Posting>, [PostingRow; 2])
    ensures seen { row_of result.0 ≡ Some (at_volume posting.row volume) }
    ensures rows { result.1 ≡ posting.row ∷ blank ∷ [] }
{
    let mut rows = [blank; 2];
    let mut book = RowsBook::new(&mut rows);
    let _ = book.post(posting);
    let mut layer = Corrected::new(&mut book);
    let _ = layer.correct(0, volume);
    let seen = layer.at(0);
    let book = layer.end();
    let rows = book.rows();
    (seen, [rows[0], rows[1]])
}

/// A posting taken and corrected through a layer: the lower book has it as it was taken.
pub fn posted_above(blank: PostingRow, posting: Posting, volume: u32) -> Option<Posting>
    ensures value { row_of result ≡ Some posting.row }
{
    let mut rows = [blank; 2];
    let mut book = RowsBook::new(&mut rows);
    let mut layer = Corrected::new(&mut book);
    let _ = layer.post(posting);
    let _ = layer.correct(0, volume);
    layer.end().at(0)
}

/// Two corrections of one place: the latest that the posting's kind allows is seen.
pub fn corrected_again(
    blank: PostingRow,
    posting: Posting,
    first: u32,
    second: u32,
) -> Option<Posting>
    ensures value { row_of result ≡ Some (at_volume (at_volume posting.row first) second) }
{
    let mut rows = [blank; 2];
    let mut book = RowsBook::new(&mut rows);
    let mut layer = Corrected::new(&mut book);
    let _ = layer.post(posting);
    let _ = layer.correct(0, first);
    let _ = layer.correct(0, second);
    layer.at(0)
}
