//! What the host's own memory holds once a roll or a book on it has ended.

ghost use Rattle.std.specs.Prelude.{◌≡◌, [], ◌∷◌, Err};
ghost use Rattle.faults.specs.declared.fault.Fault.TheVariants.{BookFull};

use books::{OpenBook, Roll, RowsBook};
use faults::Fault;
use postings::{Posting, PostingRow};

/// Two numbers in a roll of four slots, which goes out of scope.
pub fn numbers_in_scope(a: u64, b: u64) -> [u64; 4]
    ensures value { result ≡ a ∷ b ∷ 0 ∷ 0 ∷ [] }
{
    let mut slots = [0; 4];
    {
        let mut roll = Roll::new(&mut slots);
        let _ = roll.push(a);
        let _ = roll.push(b);
    }
    slots
}

/// Two numbers in a roll of three slots, which hands its slots back.
pub fn numbers_handed_back(a: u64, b: u64) -> [u64; 3]
    ensures value { result ≡ a ∷ b ∷ 0 ∷ [] }
{
    let mut slots = [0; 3];
    let mut roll = Roll::new(&mut slots);
    let _ = roll.push(a);
    let _ = roll.push(b);
    let slots = roll.end();
    [slots[0], slots[1], slots[2]]
}

/// A plain row in a roll of rows, which goes out of scope.
pub fn row_in_scope(blank: PostingRow, row: PostingRow) -> [PostingRow; 3]
    ensures value { result ≡ row ∷ blank ∷ blank ∷ [] }
{
    let mut rows = [blank; 3];
    {
        let mut roll = Roll::new(&mut rows);
        let _ = roll.push(row);
    }
    rows
}

/// Two postings in a book on three rows, which hands its rows back.
pub fn two_posted(blank: PostingRow, first: Posting, second: Posting) -> [PostingRow; 3]
    ensures value { result ≡ first.row ∷ second.row ∷ blank ∷ [] }
{
    let mut rows = [blank; 3];
    let mut book = RowsBook::new(&mut rows);
    let _ = book.post(first);
    let _ = book.post(second);
    let rows = book.end();
    [rows[0], rows[1], rows[2]]
}

/// A second posting in a book on one row: it is refused, and the row keeps the first.
pub fn second_refused(
    blank: PostingRow,
    first: Posting,
    second: Posting,
) -> (Result<usize, Fault>, [PostingRow; 1])
    ensures refused { result.0 ≡ Err BookFull }
    ensures rows { result.1 ≡ first.row ∷ [] }
{
    let mut rows = [blank; 1];
    let mut book = RowsBook::new(&mut rows);
    let _ = book.post(first);
    let answer = book.post(second);
    let rows = book.end();
    (answer, [rows[0]])
}
