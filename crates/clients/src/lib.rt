//! What a host can prove of rolls, books, layers and days from their contracts alone.
#![tactic(auto)]

pub mod any_book;
pub mod days;
pub mod layers;
pub mod memory;
#[cfg(test)]
mod tests;
