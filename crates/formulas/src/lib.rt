//! What a settlement sheet is, step by step, and the laws of the pool: `specs/` has the definitions and the statements,
//! and each function below has a statement as its contract.
#![tactic(auto)]

mod row;

ghost use Rattle.formulas.specs.Laws.{PoolBill, TotalsAddUp, SavingNotBelowNil, NobodyWorseOff, LinesShared, GapsByFormula, PricesByRule, NoSharingRefused, FiguresFit};
ghost use Rattle.formulas.specs.Worked.{Worked};

pub use row::SheetRow;

/// The definitions give the worked days.
pub fn worked_days()
    ensures { Worked }
{}

/// Pooling never costs: the pool's bill against the members' bills alone.
pub fn pool_bill_law()
    ensures { PoolBill }
{}

/// The sheet adds up: trade lines and balance to nil, the totals to the sheet's bill.
pub fn totals_law()
    ensures { TotalsAddUp }
{}

/// The saving is never below nil, and nobody is worse off than alone.
pub fn saving_law()
    ensures saving { SavingNotBelowNil }
    ensures members { NobodyWorseOff }
{}

/// The zero balance and the parts of the saving are shared by their weights.
pub fn lines_law()
    ensures { LinesShared }
{}

/// The gap lines keep the formulas of the gap amount procedure.
pub fn gap_law()
    ensures { GapsByFormula }
{}

/// The imbalance prices and the system price keep their rule.
pub fn price_law()
    ensures { PricesByRule }
{}

/// Within the limits of a closing no sharing is refused.
pub fn sharing_law()
    ensures { NoSharingRefused }
{}

/// Within the limits of a closing every figure fits 64 bits.
pub fn figures_law()
    ensures { FiguresFit }
{}
