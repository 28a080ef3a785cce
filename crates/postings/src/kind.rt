//! The nine kinds of postings.

ghost use Rattle.std.specs.Prelude.{◌≡◌};
ghost use Rattle.postings.specs.Table.{code, kind_of};
ghost use Rattle.postings.specs.Decoding.{Decoded};

use faults::MakingFault;

/// What a posting records.
#[derive(Clone, Copy, PartialEq, Eq, Debug)]
pub enum Kind {
    /// kWh that the member fed in, by its meter.
    Injection,
    /// kWh that the member took out, by its meter.
    Withdrawal,
    /// Lots bought in one hour.
    HourlyPurchase,
    /// Lots sold in one hour.
    HourlySale,
    /// Lots bought in each of several hours.
    BlockPurchase,
    /// Lots sold in each of several hours.
    BlockSale,
    /// Lots sold in an hour that the market chose.
    FlexibleSale,
    /// kWh that the member was told to feed in more.
    Up,
    /// kWh that the member was told to feed in less.
    Down,
}

impl TryFrom<u8> for Kind {
    type Error = MakingFault;

    ghost try_from_gives = { Decoded };

    /// The kind that a code stands for.
    #[tactic(auto, unfolding(crate::specs::Table::kind_of))]
    fn try_from(code: u8) -> Result<Self, MakingFault> {
        match code {
            1 => Ok(Kind::Injection),
            2 => Ok(Kind::Withdrawal),
            3 => Ok(Kind::HourlyPurchase),
            4 => Ok(Kind::HourlySale),
            5 => Ok(Kind::BlockPurchase),
            6 => Ok(Kind::BlockSale),
            7 => Ok(Kind::FlexibleSale),
            8 => Ok(Kind::Up),
            9 => Ok(Kind::Down),
            _ => Err(MakingFault::Kind),
        }
    }
}

impl Kind {
    /// The kind that a code stands for, if it is one of the nine.
    pub fn of(code: u8) -> Option<Kind>
        ensures value { result ≡ kind_of code }
    {
        Kind::try_from(code).ok()
    }
}

impl From<Kind> for u8 {
    ghost from_gives = { λ kind number. number ≡ code kind };

    /// The code of a kind.
    fn from(kind: Kind) -> u8 {
        match kind {
            Kind::Injection => 1,
            Kind::Withdrawal => 2,
            Kind::HourlyPurchase => 3,
            Kind::HourlySale => 4,
            Kind::BlockPurchase => 5,
            Kind::BlockSale => 6,
            Kind::FlexibleSale => 7,
            Kind::Up => 8,
            Kind::Down => 9,
        }
    }
}
