//! A day as it is typed.

ghost use Rattle.image.specs.Typed.{Pushed, Imaged};

use super::words::{price_of, row_of};
use arrayvec::ArrayVec;
use books::{OpenBook, RowsBook};
use faults::Fault;
use images::write_image;
use postings::{HIGHEST_PRICE, MOST_POSTINGS, Posting, PostingRow};
use std::str::from_utf8;
use thiserror::Error;

/// The longest text that is read.
pub const MOST_TEXT: usize = 1_048_576;

const HOURS: usize = 24;

/// The first line that is refused, counted from 1, and why.
#[derive(Clone, Copy, PartialEq, Eq, Debug, Error)]
#[error("line {line}: {fault}")]
pub struct Refusal {
    pub line: usize,
    pub fault: Fault,
}

/// The market prices typed so far.
#[derive(Drop)]
struct Prices {
    hours: ArrayVec<u32, HOURS>,
}

impl Prices {
    fn is_complete(&self) -> bool {
        self.hours.is_full()
    }

    /// Takes the price of the next hour.
    fn push(&mut self, price: u32) -> Result<(), Fault>
        ensures cases { Pushed self.old.hours.items price result self.new.hours.items }
    {
        if self.hours.is_full() {
            return Err(Fault::PriceCount);
        }
        if price > HIGHEST_PRICE {
            return Err(Fault::PriceAt(self.hours.len()));
        }
        self.hours.push(price);
        Ok(())
    }

    /// Takes one price for every hour that is left.
    fn fill(&mut self, price: u32) -> Result<(), Fault> {
        for _ in self.hours.len()..HOURS {
            self.push(price)?;
        }
        Ok(())
    }

    /// Takes a line of prices: those of the next hours, or the word PRICE and one for every hour that is left.
    fn take_line(&mut self, line: &str) -> Result<(), Fault> {
        if let Some(price) = line.strip_prefix("PRICE ") {
            return self.fill(price_of(price.trim_ascii()));
        }
        for word in line.split_ascii_whitespace() {
            self.push(price_of(word))?;
        }
        Ok(())
    }
}

/// Writes the image of a day that was typed and answers its length.
pub fn image_of(text: &[u8], image: &mut [u8]) -> Result<usize, Refusal>
    ensures cases { Imaged image.old result image.new }
{
    if text.len() > MOST_TEXT {
        return Err(Refusal {
            line: line_past(text),
            fault: Fault::NoRoom,
        });
    }
    let mut prices = Prices {
        hours: ArrayVec::new(),
    };
    let mut rows = [PostingRow::default(); MOST_POSTINGS];
    let mut book = RowsBook::new(&mut rows);
    let line = take_lines(text, &mut prices, &mut book)?;
    write_image(prices.hours.as_slice(), &book, image).map_err(|fault| Refusal { line, fault })
}

/// Takes the lines of a text and answers the number of the line past the last.
fn take_lines<B: OpenBook>(
    text: &[u8],
    prices: &mut Prices,
    book: &mut B,
) -> Result<usize, Refusal> {
    let mut line: usize = 1;
    for typed in text.split_inclusive(|byte| *byte == b'\n') {
        take_line(typed, prices, book).map_err(|fault| Refusal { line, fault })?;
        // counted, since the number past the last is an answer; never at the top, since each line has a byte
        line = line.saturating_add(1);
    }
    if prices.is_complete() {
        Ok(line)
    } else {
        Err(Refusal {
            line,
            fault: Fault::PriceCount,
        })
    }
}

/// The number of the line that a text ends in.
fn line_past(text: &[u8]) -> usize {
    text.iter().filter(|byte| **byte == b'\n').count() + 1
}

/// Takes a line: prices until there are 24, and then a posting. A blank line and one that starts with # are skipped.
fn take_line<B: OpenBook>(line: &[u8], prices: &mut Prices, book: &mut B) -> Result<(), Fault> {
    let line = line.trim_ascii();
    if line.is_empty() || line.starts_with(b"#") {
        return Ok(());
    }
    // what is no text holds no number
    let words = from_utf8(line).unwrap_or("?");
    if prices.is_complete() {
        take_posting(words, book)
    } else {
        prices.take_line(words)
    }
}

/// Makes the posting of a line and puts it last in the book.
fn take_posting<B: OpenBook>(line: &str, book: &mut B) -> Result<(), Fault> {
    let posting = Posting::make(row_of(line))?;
    book.post(posting)?;
    Ok(())
}

#[cfg(test)]
mod tests {
    use super::*;

    // a text, the line that is refused, and the number of its fault
    const REFUSED: [(&str, usize, u8); 14] = [
        ("", 1, 11),
        ("# nothing\n", 2, 11),
        ("PRICE 500001", 1, 11),
        ("1 2 3\n4 five\n", 2, 11),
        (
            "1 2 3\n\n1 2 3 4 5 6 7 8 9 10 11 12 13 14 15 16 17 18 19 20 21 22\n",
            3,
            11,
        ),
        ("PRICE 0\n\n10 0 0 0 1 0 0\n", 3, 1),
        ("PRICE 0\nlift 0 0 0 1 0 0\n", 2, 1),
        ("PRICE 0\ninjection 0 1 0 1 0 0\n", 2, 2),
        ("PRICE 0\ninjection\n", 2, 2),
        ("PRICE 0\ninjection 0 0 0 0 0 0\n", 2, 3),
        ("PRICE 0\nup 0 0 0 1 -1 0\n", 2, 4),
        ("PRICE 0\nup 0 0 0 1 0 2\n", 2, 5),
        ("PRICE 0\nup 0 0 0 1 0 1 1\n", 2, 5),
        ("PRICE 0\nup 64 0 0 1 0 1\n", 2, 6),
    ];

    // the line that is refused and the number of its fault
    fn answer(text: &[u8]) -> Option<(usize, u8)> {
        let mut image = [0; 200];
        let refusal = image_of(text, &mut image).err()?;
        Some((refusal.line, refusal.fault.number()))
    }

    #[test]
    fn refuses_the_first_bad_line(rt: HostRuntime) {
        for (text, line, number) in REFUSED {
            assert_eq!(rt; answer(text.as_bytes()), Some((line, number)));
        }
        assert_eq!(rt; answer(b"# \xff\nPRICE 0\n\xff\n"), Some((3, 1)));
    }
}
