//! From a day image to its sheet, and the sheet's text.
#![tactic(auto)]

mod members;
mod text;

pub use members::members_named;
pub use text::Sheet;
