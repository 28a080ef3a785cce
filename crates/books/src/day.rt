//! A delivery day that is open.

ghost use Rattle.std.specs.Prelude.{◌≤◌};

pub mod calls;

/// An open day of 1 to 64 members, which takes postings into a book.
#[derive(Drop)]
pub struct OpenDay {
    members: usize,
    ghost some: { 1 ≤ members },
    ghost most: { members ≤ 64 },
}
