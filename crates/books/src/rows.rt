//! The book on the host's rows.

ghost use Rattle.std.specs.Prelude.{◌≡◌, true, [], length};
ghost use Rattle.postings.specs.Table.{all_lawful};
ghost use Rattle.books.specs.Books.{Posted, written};
ghost use Rattle.books.specs.Rolls.{entries, slots};

use super::book::{Book, OpenBook};
use super::roll::Roll;
use faults::Fault;
use postings::{Posting, PostingRow};

/// A roll of lawful rows. It makes a posting anew from its row, with its checks, when it is asked.
#[derive(Drop)]
pub struct RowsBook<'a> {
    roll: Roll<'a, PostingRow>,
    ghost keeps: { all_lawful (entries roll) ≡ true },
}

impl<'a> RowsBook<'a> {
    /// An empty book, with the number of the host's rows as its largest count.
    pub fn new(rows: &'a mut [PostingRow]) -> RowsBook<'a>
        ensures items { entries result.roll ≡ [] }
        ensures after { slots result.roll ≡ rows.old }
        ensures same { result.roll.slots.ghost_name ≡ rows.entry.ghost_name }
    {
        RowsBook {
            roll: Roll::new(rows),
        }
    }

    /// The host's rows as they stand, those past the count with them.
    pub fn rows(&self) -> &[PostingRow]
        ensures value { result.now ≡ slots self.now.roll }
    {
        self.roll.slots()
    }

    /// Ends the book and hands the host's rows back.
    pub fn end(self) -> &'a mut [PostingRow]
        ensures value { result.now ≡ self.entry.roll.slots.now }
        ensures same { result.ghost_name ≡ self.entry.roll.slots.ghost_name }
    {
        self.roll.end()
    }
}

impl<'a> Book for RowsBook<'a> {
    ghost list = { λ b. entries b.roll };

    ghost largest = { λ b. length (slots b.roll) };

    fn count(&self) -> usize {
        self.roll.len()
    }

    fn at(&self, place: usize) -> Option<Posting> {
        // never refused: every row of the roll is lawful
        Posting::make(self.roll.at(place)?).ok()
    }

    ghost lawful = { λ b. b.keeps };
}

impl<'a> OpenBook for RowsBook<'a> {
    fn post(&mut self, posting: Posting) -> Result<usize, Fault>
        ensures cases { Posted (entries self.old.roll) (length (slots self.old.roll)) posting.row result (entries self.new.roll) }
        ensures same { length (slots self.new.roll) ≡ length (slots self.old.roll) }
        ensures slots { slots self.new.roll ≡ written (slots self.old.roll) posting.row result }
        ensures memory { self.new.roll.slots.ghost_name ≡ self.old.roll.slots.ghost_name }
    {
        self.roll.push(posting.row()).ok_or(Fault::BookFull)
    }
}
