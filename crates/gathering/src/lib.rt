//! What the postings of a day come to: each figure that is a sum over the book's list.
#![tactic(auto)]

mod amounts;
mod figure;
mod figures;
mod gathered;
mod imbalances;
mod instructions;
mod kinds;
mod lines;
mod offers;
mod orders;
mod sides;
mod tallies;
mod tally;

pub use figures::gather;
pub use gathered::Gathered;
