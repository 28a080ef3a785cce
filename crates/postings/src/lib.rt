//! Postings, and the books that hold them.
#![tactic(auto)]

pub mod day;
pub mod kind;
pub mod limits;
pub mod posting;
pub mod row;

pub use day::{HIGHEST_PRICE, MOST_MEMBERS, MOST_POSTINGS, check_count, check_prices};
pub use kind::Kind;
pub use limits::Limits;
pub use posting::Posting;
pub use row::PostingRow;

#[cfg(test)]
mod tests {
    use super::*;

    // kind, member, first hour, last hour, volume, price, label, and the number of the fault, if any
    const CASES: [(u8, u8, u8, u8, u32, i32, u8, Option<u8>); 16] = [
        (1, 0, 0, 0, 10_000, 0, 0, None),
        (1, 0, 0, 0, 10_001, 0, 0, Some(3)),
        (5, 0, 5, 6, 1, 0, 0, None),
        (5, 0, 5, 5, 1, 0, 0, Some(2)),
        (5, 0, 6, 5, 1, 0, 0, Some(2)),
        (6, 63, 0, 23, 100, -200_000, 0, None),
        (6, 63, 0, 24, 100, -200_000, 0, Some(2)),
        (6, 63, 0, 23, 101, -200_000, 0, Some(3)),
        (6, 63, 0, 23, 100, -200_001, 0, Some(4)),
        (3, 0, 1, 1, 1, 1, 0, Some(4)),
        (7, 0, 1, 2, 1, 0, 0, Some(2)),
        (8, 0, 1, 1, 1, 500_000, 1, None),
        (9, 0, 1, 1, 1, -1, 2, Some(4)),
        (9, 0, 1, 1, 1, 0, 2, Some(5)),
        (2, 64, 0, 0, 1, 0, 0, Some(6)),
        (10, 64, 9, 8, 0, 1, 9, Some(1)),
    ];

    #[test]
    fn makes_what_the_table_allows(rt: HostRuntime) {
        for (kind, member, first, last, volume, price, label, number) in CASES {
            let row = PostingRow {
                kind,
                member,
                first,
                last,
                volume,
                price,
                label,
            };
            let answer = Posting::make(row).err().map(|fault| fault.number());
            assert_eq!(rt; answer, number);
        }
    }
}
