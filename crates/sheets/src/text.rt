//! The sheet of an image under a rule, and how it prints.

ghost use Rattle.sheets.specs.Sheets.{OfImage};

use super::members::members_named;
use faults::Fault;
use formulas::SheetRow;
use images::{ImageBook, check, prices};
use reckoning::reckon;
use sharing::SharingRule;
use std::fmt;

/// A day's sheet: the rule's letter, the members, their rows and the pool's bill.
#[derive(Clone, Copy, PartialEq, Eq, Debug)]
pub struct Sheet {
    letter: u8,
    members: usize,
    // those of the members are the first: with an `ArrayVec` a sheet would not be `Copy`
    rows: [SheetRow; 64],
    bill: i64,
}

impl Sheet {
    /// The sheet of a day image, or the fault for which there is none.
    pub fn of_image<R: SharingRule>(rule: &R, image: &[u8]) -> Result<Sheet, Fault>
        ensures cases { OfImage R.SharingRule.parts R.SharingRule.LETTER image.now result }
    {
        check(image)?;
        let book = ImageBook::open(image);
        let members = members_named(&book);
        let prices = prices(image);
        let mut rows = [SheetRow::default(); 64];
        let bill = reckon(&book, rule, &prices, members, &mut rows)?;
        Ok(Sheet {
            letter: R::LETTER,
            members,
            rows,
            bill,
        })
    }
}

impl fmt::Display for Sheet {
    fn fmt<W: fmt::Write>(&self, f: &mut fmt::Formatter<W>) -> fmt::Result {
        let letter = char::from(self.letter);
        let members = self.members;
        let bill = self.bill;
        writeln!(f, "RULE {letter} MEMBERS {members} BILL {bill}")?;
        for (member, row) in self.rows.iter().take(members).enumerate() {
            writeln!(f, "{member} {row}")?;
        }
        Ok(())
    }
}
