//! A roll: entries in order, in the host's memory, for every kind of entry.

ghost use Rattle.std.specs.Prelude.{◌≤◌, length};

pub mod calls;

/// The entries are the first `len` of the host's slots.
// the host lends the slots and has them back, so their length stands beside them
#[derive(Drop)]
pub struct Roll<'a, T> {
    slots: &'a mut [T],
    len: usize,
    ghost fits: { len ≤ length slots.now },
}
