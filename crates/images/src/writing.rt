//! Writing a day's image into the host's memory.

ghost use Rattle.std.specs.Prelude.{◌≡◌, ◌+◌, ◌*◌, ◌≤◌, length};
ghost use Rattle.std.specs.List.{flat_map};
ghost use Rattle.images.specs.Bytes.{u32_of, row_bytes, bytes_of};
ghost use Rattle.images.specs.Laying.{laid};
ghost use Rattle.images.specs.Writing.{Written};
ghost use Rattle.images.specs.Laws.{Opens};

use books::{Book, Postings};
use faults::Fault;
use postings::{MOST_POSTINGS, PostingRow, check_prices};

/// Puts bytes over those of the host from a place on.
fn put(out: &mut [u8], at: usize, bytes: &[u8])
    requires { at + length bytes.now ≤ length out.old }
    ensures after { out.new ≡ laid out.old at bytes.now }
{
    out[at..at + bytes.len()].copy_from_slice(bytes);
}

/// The 13 bytes of a posting.
fn row_bytes(row: PostingRow) -> [u8; 13]
    ensures value { result ≡ row_bytes row }
{
    let [v0, v1, v2, v3] = row.volume.to_be_bytes();
    let [p0, p1, p2, p3] = row.price.to_be_bytes();
    [
        row.kind, row.member, row.first, row.last, v0, v1, v2, v3, p0, p1, p2, p3, row.label,
    ]
}

/// Puts the 24 prices behind their count.
fn put_prices(out: &mut [u8], prices: &[u32; 24])
    requires { 98 ≤ length out.old }
    ensures after { out.new ≡ laid out.old 2 (flat_map u32_of prices.now) }
{
    for (hour, price) in prices.iter().enumerate() {
        put(out, 2 + 4 * hour, &price.to_be_bytes());
    }
}

/// Puts the postings behind their count.
fn put_postings<B: Book>(out: &mut [u8], book: &B)
    requires { 100 + 13 * length (B.Book.list book.now) ≤ length out.old }
    ensures after { out.new ≡ laid out.old 100 (flat_map row_bytes (B.Book.list book.now)) }
{
    for (place, posting) in Postings::of(book).enumerate() {
        put(out, 100 + 13 * place, &row_bytes(posting.row()));
    }
}

/// Puts the whole image: each section behind its count.
fn put_day<B: Book>(out: &mut [u8], prices: &[u32; 24], book: &B)
    requires few { length (B.Book.list book.now) ≤ 2048 }
    requires room { 100 + 13 * length (B.Book.list book.now) ≤ length out.old }
    ensures after { out.new ≡ laid out.old 0 (bytes_of prices.now (B.Book.list book.now)) }
{
    // `as` is proved to lose nothing here; `try_from` would answer a `Result`
    put(out, 0, &(prices.len() as u16).to_be_bytes());
    put_prices(out, prices);
    put(out, 98, &(book.count() as u16).to_be_bytes());
    put_postings(out, book);
}

// the prices and the book apart, here and in every call, as a host has them
/// Writes the image of a day and answers its length. Bytes past it stay as they are, and at a refusal all do.
pub fn write_image<B: Book>(prices: &[u32], book: &B, out: &mut [u8]) -> Result<usize, Fault>
    ensures cases { Written prices.now (B.Book.list book.now) out.old result out.new }
    ensures opens { Opens prices.now (B.Book.list book.now) result out.new }
{
    let Ok(prices) = <&[u32; 24]>::try_from(prices) else {
        return Err(Fault::PriceCount);
    };
    check_prices(prices)?;
    let count = book.count();
    if count > MOST_POSTINGS {
        return Err(Fault::ManyPostings);
    }
    let length = 100 + 13 * count;
    if out.len() < length {
        return Err(Fault::NoRoom);
    }
    put_day(out, prices, book);
    Ok(length)
}
