//! Turns a day that a person typed into its image: text on standard input, the image on standard output.
//!
//! A blank line, and one that starts with `#`, is skipped. Words stand apart by spaces.
//!
//! - First come the 24 market prices. A line holds those of the next hours, as many as one likes, or the word `PRICE`
//!   and one price for every hour that is left.
//! - Then each line is a posting: `kind member first last volume price label`. The kind is its number, or its name:
//!   `injection`, `withdrawal`, `hourly-purchase`, `hourly-sale`, `block-purchase`, `block-sale`, `flexible-sale`, `up`
//!   or `down`.
//!
//! Where a line is refused, `LINE k REFUSED n` comes in place of the image, with k counted from 1, and the reason in
//! words on standard error. A text that ends before it has 24 prices is refused at the line past its last, and one of
//! more than 1,048,576 bytes at the line in which it is cut.
#![tactic(auto)]

mod day;
mod words;

use images::MOST_BYTES;
use std::io;
use std::io::{Read, Write};

fn main(rt: HostRuntime) -> io::Result<()> {
    let mut text = Vec::new(rt.alloc());
    rt.stdin()
        .take(day::MOST_TEXT as u64 + 1) // `as`: of a constant
        .read_to_end(&mut text)?;
    let mut image = [0; MOST_BYTES];
    match day::image_of(text.as_slice(), &mut image) {
        Ok(length) => rt.stdout().write_all(&image[..length]),
        Err(refusal) => {
            let line = refusal.line;
            let number = refusal.fault.number();
            eprintln!(rt; "{refusal}")?;
            println!(rt; "LINE {line} REFUSED {number}")
        }
    }
}
