//! The posting, whose type carries the limits of its row of the table.

ghost use Rattle.std.specs.Prelude.{◌≡◌, true};
ghost use Rattle.postings.specs.Table.{lawful};

use super::row::PostingRow;

pub mod calls;

/// A posting that keeps its row of the table, with a member below 64. `Posting::make` alone makes one.
#[derive(Clone, Copy, PartialEq, Eq, Debug)]
pub struct Posting {
    row: PostingRow,
    ghost keeps: { lawful row ≡ true },
}
