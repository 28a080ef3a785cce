//! The correction layer over any book.

ghost use Rattle.std.specs.Prelude.{◌≡◌, ◌<◌, [], length};
ghost use Rattle.std.specs.List.{All};
ghost use Rattle.books.specs.Books.{Posted};
ghost use Rattle.books.specs.Layers.{corrected_places, volume_at, layered, Corrects};
ghost use Rattle.books.specs.Amended.{lawful_amended};

use super::book::{Book, OpenBook};
use super::corrections::Corrections;
use faults::{Fault, MakingFault};
use postings::Posting;

/// A book with up to 32 corrections, which are seen through the layer alone.
#[derive(Drop)]
pub struct Corrected<B: Book> {
    lower: B,
    corrections: Corrections,
    ghost below: { All (λ place. place < length (B.Book.list lower)) (corrected_places corrections) },
}

impl<B: Book> Corrected<B> {
    /// The layer with no correction.
    pub fn new(lower: B) -> Corrected<B>
        ensures lower { result.lower ≡ lower }
        ensures list { layered result.corrections (B.Book.list lower) ≡ B.Book.list lower }
        ensures places { corrected_places result.corrections ≡ [] }
    {
        let corrections = Corrections::new();
        Corrected { lower, corrections }
    }

    /// Sets the volume of the posting at a place.
    pub fn correct(&mut self, place: usize, volume: u32) -> Result<(), Fault>
        ensures cases { Corrects (layered self.old.corrections (B.Book.list self.old.lower)) (corrected_places self.old.corrections) place volume result (layered self.new.corrections (B.Book.list self.new.lower)) (corrected_places self.new.corrections) }
        ensures lower { self.new.lower ≡ self.old.lower }
    {
        let Some(posting) = self.lower.at(place) else {
            return Err(Fault::NoPosting);
        };
        if !posting.allows_volume(volume) {
            return Err(Fault::Making(MakingFault::Volume));
        }
        self.corrections.note(place, volume)?;
        Ok(())
    }

    /// Ends the layer and hands the lower book back, as the layer holds it.
    pub fn end(self) -> B
        ensures value { result ≡ self.lower }
    {
        let Corrected {
            lower,
            corrections: _,
        } = self;
        lower
    }
}

impl<B: Book> Book for Corrected<B> {
    ghost list = { λ c. layered c.corrections (B.Book.list c.lower) };

    ghost largest = { λ c. B.Book.largest c.lower };

    fn count(&self) -> usize {
        self.lower.count()
    }

    fn at(&self, place: usize) -> Option<Posting> {
        let posting = self.lower.at(place)?;
        match self.corrections.volume_at(place) {
            Some(volume) => Some(posting.at_volume(volume)),
            None => Some(posting),
        }
    }

    ghost lawful = { λ c. lawful_amended (volume_at c.corrections) 0 (B.Book.list c.lower) (B.Book.lawful c.lower) };
}

impl<B: OpenBook> OpenBook for Corrected<B> {
    fn post(&mut self, posting: Posting) -> Result<usize, Fault>
        ensures cases { Posted (layered self.old.corrections (B.Book.list self.old.lower)) (B.Book.largest self.old.lower) posting.row result (layered self.new.corrections (B.Book.list self.new.lower)) }
        ensures same { B.Book.largest self.new.lower ≡ B.Book.largest self.old.lower }
        ensures lower { Posted (B.Book.list self.old.lower) (B.Book.largest self.old.lower) posting.row result (B.Book.list self.new.lower) }
        ensures places { corrected_places self.new.corrections ≡ corrected_places self.old.corrections }
    {
        // answered anew and not handed on, as in `correct`, so that a must-fail edit turns the answer alone
        let place = self.lower.post(posting)?;
        Ok(place)
    }
}
