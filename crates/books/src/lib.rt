//! Rolls of entries in the host's memory, and the books that hold postings.
#![tactic(auto)]

pub mod book;
pub mod corrected;
mod corrections;
pub mod day;
mod each;
pub mod roll;
pub mod rows;

pub use book::{Book, OpenBook};
pub use corrected::Corrected;
pub use day::OpenDay;
pub use each::Postings;
pub use roll::Roll;
pub use rows::RowsBook;
