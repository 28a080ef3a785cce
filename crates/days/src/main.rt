//! Prints the sheets of the days that its arguments name, each from NAME.img, under rule R and under rule L.
#![tactic(auto)]

use sharing::{RuleL, RuleR, SharingRule};
use sheets::Sheet;
use std::{env, fs, io};

/// Prints one sheet, or the number of its refusal.
// the program `sheet` does so too, but prints the words of a refusal beside it
fn show<R: SharingRule>(rt: &HostRuntime, rule: &R, image: &[u8]) -> io::Result<()> {
    match Sheet::of_image(rule, image) {
        Ok(sheet) => print!(rt; "{sheet}"),
        Err(fault) => {
            let number = fault.number();
            println!(rt; "REFUSED {number}")
        }
    }
}

/// Prints both sheets of one day.
fn show_day(rt: &HostRuntime, name: &str) -> io::Result<()> {
    let path = format!(in rt.alloc(); "{name}.img")?;
    let image = fs::read(rt, path.as_str())?;
    println!(rt; "{name}")?;
    show(rt, &RuleR, image.as_slice())?;
    show(rt, &RuleL, image.as_slice())
}

fn main(rt: HostRuntime) -> io::Result<()> {
    for name in env::args(&rt)?.skip(1) {
        show_day(&rt, name.as_str())?;
    }
    Ok(())
}
