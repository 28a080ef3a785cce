//! Reads a day image from standard input and prints the sheet of that day under rule R, or the number of its refusal.
#![tactic(auto)]

use images::MOST_BYTES;
use sharing::RuleR;
use sheets::Sheet;
use std::io;
use std::io::Read;

fn main(rt: HostRuntime) -> io::Result<()> {
    let mut image = Vec::new(rt.alloc());
    // one byte past the largest image tells a longer one; `as`: of a constant
    rt.stdin()
        .take(MOST_BYTES as u64 + 1)
        .read_to_end(&mut image)?;
    match Sheet::of_image(&RuleR, image.as_slice()) {
        Ok(sheet) => print!(rt; "{sheet}"),
        Err(fault) => {
            let number = fault.number();
            eprintln!(rt; "{fault}")?;
            println!(rt; "REFUSED {number}")
        }
    }
}
