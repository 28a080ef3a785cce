//! What corrections answer. These stand apart from the structs, since their contracts cite definitions that name them.

ghost use Rattle.std.specs.Prelude.{◌≡◌, [], ◌==◌};
ghost use Rattle.std.specs.List.{position};
ghost use Rattle.books.specs.Layers.{corrected_places, volume_at, Noted};

use super::{Correction, Corrections};
use arrayvec::ArrayVec;
use faults::Fault;

impl Corrections {
    /// No correction.
    pub fn new() -> Corrections
        ensures places { corrected_places result ≡ [] }
    {
        let entries = ArrayVec::new();
        Corrections { entries }
    }

    /// Where the correction of a place stands, if it has one.
    fn index(&self, place: usize) -> Option<usize>
        ensures value { result ≡ position (λ e. e.place == place) self.now.entries.items }
    {
        self.entries.iter().position(|entry| entry.place == place)
    }

    /// The latest volume at a place, if it is corrected.
    pub fn volume_at(&self, place: usize) -> Option<u32>
        ensures value { result ≡ volume_at self.now place }
    {
        let entry = self.entries.iter().find(|entry| entry.place == place)?;
        Some(entry.volume)
    }

    /// Notes the volume at a place, or refuses where 32 other places are corrected.
    pub fn note(&mut self, place: usize, volume: u32) -> Result<(), Fault>
        ensures cases { Noted self.old place volume result self.new }
    {
        if let Some(i) = self.index(place) {
            self.entries[i].volume = volume;
            return Ok(());
        }
        if self.entries.is_full() {
            return Err(Fault::CorrectionsFull);
        }
        self.entries.push(Correction { place, volume });
        Ok(())
    }
}
