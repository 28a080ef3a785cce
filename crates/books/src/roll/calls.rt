//! What a roll answers and takes. These stand apart from the struct, since their contracts cite definitions that name it.

ghost use Rattle.std.specs.Prelude.{◌≡◌, [], length};
ghost use Rattle.std.specs.List.{slice_get};
ghost use Rattle.books.specs.Rolls.{entries, slots as slots_of, Pushed};

use super::Roll;

impl<'a, T: Copy> Roll<'a, T> {
    /// An empty roll on the host's slots, which stay as they are.
    pub fn new(slots: &'a mut [T]) -> Roll<'a, T>
        ensures items { entries result ≡ [] }
        ensures after { slots_of result ≡ slots.old }
        ensures same { result.slots.ghost_name ≡ slots.entry.ghost_name }
    {
        Roll { slots, len: 0 }
    }

    /// The entries, in their order.
    fn entries(&self) -> &[T]
        ensures value { result.now ≡ entries self.now }
    {
        &self.slots[..self.len]
    }

    /// How many entries there are.
    pub fn len(&self) -> usize
        ensures value { result ≡ length (entries self.now) }
    {
        self.entries().len()
    }

    /// The entry at a place, or none at or past the length.
    pub fn at(&self, place: usize) -> Option<T>
        ensures value { result ≡ slice_get (entries self.now) place }
    {
        self.entries().get(place).copied()
    }

    /// Puts an entry last and answers its place, or none where no slot is left.
    pub fn push(&mut self, entry: T) -> Option<usize>
        ensures cases { Pushed self.old entry result self.new }
        ensures same { self.new.slots.ghost_name ≡ self.old.slots.ghost_name }
    {
        let place = self.len;
        if place >= self.slots.len() {
            return None;
        }
        self.slots[place] = entry;
        self.len = place + 1;
        Some(place)
    }

    /// The host's slots as they stand, those past the length with them.
    pub fn slots(&self) -> &[T]
        ensures value { result.now ≡ slots_of self.now }
    {
        &*self.slots
    }

    /// Ends the roll and hands the host's slots back.
    pub fn end(self) -> &'a mut [T]
        ensures value { result.now ≡ self.entry.slots.now }
        ensures same { result.ghost_name ≡ self.entry.slots.ghost_name }
    {
        let slots = self.slots;
        slots
    }
}
