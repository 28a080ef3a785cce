//! The sheet of a day, reckoned from any book under any sharing rule.
#![tactic(auto)]

mod admission;
mod day;
mod firsts;
mod grid;
mod imbalances;
mod lines;
mod prices;
mod reckoned;
mod shares;
mod sheet;

pub use admission::{check_members, check_postings, check_volume};
pub use postings::check_prices;
pub use reckoned::reckon;
