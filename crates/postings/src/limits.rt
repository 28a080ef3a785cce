//! What the posting table allows each kind.

ghost use Rattle.std.specs.Prelude.{◌≡◌};
ghost use Rattle.postings.specs.Table.{table, hours_within, volume_within, price_within, label_within};

use super::kind::Kind;

/// A row of the table.
#[derive(Clone, Copy, PartialEq, Eq, Debug)]
pub struct Limits {
    /// The fewest hours.
    pub shortest: u8,
    /// The most hours.
    pub longest: u8,
    /// The largest volume; the smallest is 1.
    pub volume: u32,
    /// The lowest price.
    pub lowest: i32,
    /// The highest price.
    pub highest: i32,
    /// The highest label; the lowest is 0.
    pub label: u8,
}

const READING: Limits = Limits {
    shortest: 1,
    longest: 1,
    volume: 10_000,
    lowest: 0,
    highest: 0,
    label: 0,
};

const HOURLY: Limits = Limits {
    shortest: 1,
    longest: 1,
    volume: 100,
    lowest: 0,
    highest: 0,
    label: 0,
};

const BLOCK: Limits = Limits {
    shortest: 2,
    longest: 24,
    volume: 100,
    lowest: -200_000,
    highest: 200_000,
    label: 0,
};

const FLEXIBLE: Limits = Limits {
    shortest: 1,
    longest: 1,
    volume: 100,
    lowest: -200_000,
    highest: 200_000,
    label: 0,
};

const INSTRUCTION: Limits = Limits {
    shortest: 1,
    longest: 1,
    volume: 10_000,
    lowest: 0,
    highest: 500_000,
    label: 1,
};

impl Kind {
    /// What the table allows the kind.
    pub fn limits(self) -> Limits
        ensures value { result ≡ table self }
    {
        match self {
            Kind::Injection | Kind::Withdrawal => READING,
            Kind::HourlyPurchase | Kind::HourlySale => HOURLY,
            Kind::BlockPurchase | Kind::BlockSale => BLOCK,
            Kind::FlexibleSale => FLEXIBLE,
            Kind::Up | Kind::Down => INSTRUCTION,
        }
    }
}

impl Limits {
    /// Whether these are hours of one day, and as many as allowed.
    pub fn allow_hours(self, first: u8, last: u8) -> bool
        ensures value { result ≡ hours_within self first last }
    {
        if last < first || last > 23 {
            return false;
        }
        let hours = last - first + 1;
        self.shortest <= hours && hours <= self.longest
    }

    /// Whether the volume is allowed.
    pub fn allow_volume(self, volume: u32) -> bool
        ensures value { result ≡ volume_within self volume }
    {
        1 <= volume && volume <= self.volume
    }

    /// Whether the price is allowed.
    pub fn allow_price(self, price: i32) -> bool
        ensures value { result ≡ price_within self price }
    {
        self.lowest <= price && price <= self.highest
    }

    /// Whether the label is allowed.
    pub fn allow_label(self, label: u8) -> bool
        ensures value { result ≡ label_within self label }
    {
        label <= self.label
    }
}
