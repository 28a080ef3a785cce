//! A posting's row as the host keeps it: plain numbers, lawful or not.

/// The seven numbers of a posting.
// plain numbers, the kind among them: a host's row may be unlawful, and making a posting of it says so
#[derive(Clone, Copy, PartialEq, Eq, Debug, Default)]
pub struct PostingRow {
    /// The kind's code.
    pub kind: u8,
    /// The member, counted from 0.
    pub member: u8,
    /// The first hour covered.
    pub first: u8,
    /// The last hour covered.
    pub last: u8,
    /// The volume in each hour: kWh, and lots of 100 kWh in an order.
    pub volume: u32,
    /// The price, in kuruş per MWh.
    pub price: i32,
    /// The label of an instruction.
    pub label: u8,
}
