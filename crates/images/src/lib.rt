//! Day images: a day's prices and postings as bytes.
#![tactic(auto)]

mod bytes;
mod checks;
mod copying;
mod holding;
pub mod image;
mod laws;
mod writing;

pub use checks::{check, prices};
pub use copying::{copy_image, write_and_check};
pub use holding::{MOST_BYTES, image_array};
pub use image::ImageBook;
pub use laws::{day_opens, image_is_its_day};
pub use writing::write_image;
