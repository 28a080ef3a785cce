//! Why a row of numbers makes no posting.

ghost use Rattle.std.specs.Prelude.{◌≡◌};
ghost use Rattle.faults.specs.Faults.{making_number};

use thiserror::Error;

/// The first column of the posting table that a row breaks.
#[derive(Clone, Copy, PartialEq, Eq, Debug, Error)]
pub enum MakingFault {
    /// The kind is none of the table's.
    #[error("the kind is not one of 1 to 9")]
    Kind,
    /// The last hour is before the first or past 23, or the hours break the row.
    #[error("the hours are not those of its kind")]
    Hours,
    /// The volume breaks the row.
    #[error("the volume is outside the limits of its kind")]
    Volume,
    /// The price breaks the row.
    #[error("the price is outside the limits of its kind")]
    Price,
    /// The label breaks the row.
    #[error("the label is not one of its kind")]
    Label,
    /// The member is not below 64.
    #[error("the member is not below 64")]
    Member,
}

impl MakingFault {
    /// The number that callers know the fault by.
    pub fn number(self) -> u8
        ensures value { result ≡ making_number self }
    {
        match self {
            MakingFault::Kind => 1,
            MakingFault::Hours => 2,
            MakingFault::Volume => 3,
            MakingFault::Price => 4,
            MakingFault::Label => 5,
            MakingFault::Member => 6,
        }
    }
}
