//! Writing what was read, and reading what was written.

ghost use Rattle.images.specs.Writing.{Written, Copied};

use super::checks::{check, prices as prices_of};
use super::image::ImageBook;
use super::writing::write_image;
use books::Book;
use faults::Fault;

/// Writes the prices and the book of an image again: they are the image's own bytes.
pub fn copy_image(image: &[u8], out: &mut [u8]) -> Result<usize, Fault>
    ensures cases { Copied image.now out.old result out.new }
{
    check(image)?;
    let book = ImageBook::open(image);
    write_image(&prices_of(image), &book, out)
}

/// Writes the image of a day and checks what was written. The check never refuses it.
pub fn write_and_check<B: Book>(prices: &[u32], book: &B, out: &mut [u8]) -> Result<usize, Fault>
    ensures cases { Written prices.now (B.Book.list book.now) out.old result out.new }
{
    let length = write_image(prices, book, out)?;
    check(&out[0..length])?;
    Ok(length)
}
