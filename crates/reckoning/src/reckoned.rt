//! Reckoning a day.

ghost use Rattle.faults.specs.Asks.{Answered};
ghost use Rattle.reckoning.specs.Reckoning.{ask_rows, Admitted, Reckoned};

use crate::admission::{check_members, check_postings, check_volume};
use crate::day::Day;
use books::Book;
use faults::Fault;
use formulas::SheetRow;
use postings::{check_count, check_prices};
use sharing::SharingRule;

/// Whether there is a row for each member.
fn check_rows(members: usize, rows: usize) -> Result<(), Fault>
    ensures cases { Answered (ask_rows members rows) result }
{
    if rows < members {
        return Err(Fault::FewRows);
    }
    Ok(())
}

/// Whether a day is within the limits, in their order.
fn admit<B: Book>(book: &B, prices: &[u32], members: usize, rows: usize) -> Result<(), Fault>
    ensures cases { Admitted prices.now (B.Book.list book.now) members rows result }
{
    check_count(members)?;
    check_prices(prices)?;
    check_rows(members, rows)?;
    check_postings(book)?;
    check_volume(book)?;
    check_members(book, members)
}

/// Reckons the sheet of a day of so many members into the first rows, and answers its bill. A day outside the limits
/// is refused, and then nothing is written.
pub fn reckon<B: Book, R: SharingRule>(
    book: &B,
    rule: &R,
    prices: &[u32; 24],
    members: usize,
    rows: &mut [SheetRow],
) -> Result<i64, Fault>
    ensures cases { Reckoned R.SharingRule.parts prices.now (B.Book.list book.now) members rows.old result rows.new }
{
    admit(book, prices, members, rows.len())?;
    Ok(Day::of(book, prices, members).write_sheet(rule, rows))
}
