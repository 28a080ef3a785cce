//! The grid of imbalances.

ghost use Rattle.std.specs.Prelude.{◌≡◌, ◌≤◌, pos, ◌+ℤ◌, unsigned_abs, slice_index_or, EachIndex};
ghost use Rattle.gathering.specs.Figures.{Roomy};
ghost use Rattle.gathering.specs.Rules.{effect, Shifted};

use postings::{Kind, Posting};

/// What a posting adds to its member's imbalance in each hour that it covers.
fn effect_of(posting: &Posting) -> i64
    ensures value { result ≡ effect posting.now.row }
    ensures bound { unsigned_abs result ≤ 1000000 }
{
    let volume = i64::from(posting.row().volume);
    match posting.kind() {
        Kind::Injection | Kind::Down => volume,
        Kind::Withdrawal | Kind::Up => -volume,
        Kind::HourlyPurchase | Kind::BlockPurchase => 100 * volume,
        Kind::HourlySale | Kind::BlockSale | Kind::FlexibleSale => -100 * volume,
    }
}

/// Adds kWh in each of some cells.
fn add_each(cells: &mut [i64], kwh: i64)
    requires { (unsigned_abs kwh ≤ 1000000) × Roomy cells.old }
    ensures after { EachIndex cells.old (λ k. slice_index_or cells.new k (pos 0) ≡ slice_index_or cells.old k (pos 0) +ℤ kwh) }
{
    for cell in cells.iter_mut() {
        *cell += kwh;
    }
}

/// Adds what a posting adds, in each hour that it covers; the member m's imbalance in the hour h stands at 24 × m + h.
pub(crate) fn shift(grid: &mut [i64; 1536], posting: &Posting)
    requires { Roomy grid.old }
    ensures after { Shifted posting.now.row (effect posting.now.row) grid.old grid.new }
{
    let row = posting.row();
    let day = 24 * usize::from(row.member);
    add_each(
        &mut grid[day + usize::from(row.first)..=day + usize::from(row.last)],
        effect_of(posting),
    );
}
