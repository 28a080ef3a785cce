//! A day's image in an array of the caller's own.

ghost use Rattle.images.specs.Writing.{Held};

use super::writing::write_image;
use books::Book;
use faults::Fault;

/// The length of the largest image: 100 bytes, and 13 for each of 2,048 postings.
pub const MOST_BYTES: usize = 26_724;

/// An array that holds the image of a day, with noughts past it, and the image's length.
// a fixed array with its length beside it: there is no heap, and the noughts past the length are promised too
pub fn image_array<B: Book>(prices: &[u32], book: &B) -> Result<([u8; MOST_BYTES], usize), Fault>
    ensures cases { Held prices.now (B.Book.list book.now) 26724 result }
{
    let mut bytes = [0; MOST_BYTES];
    let length = write_image(prices, book, &mut bytes)?;
    Ok((bytes, length))
}
