//! What an order does, and which way an instruction goes.

/// The side of an order.
#[derive(Clone, Copy, PartialEq, Eq, Debug)]
pub(crate) enum Side {
    /// Lots bought.
    Purchase,
    /// Lots sold.
    Sale,
}

/// The way of an instruction.
#[derive(Clone, Copy, PartialEq, Eq, Debug)]
pub(crate) enum Way {
    /// More kWh fed in.
    Up,
    /// Less kWh fed in.
    Down,
}
