//! The refusals of every call.

ghost use Rattle.std.specs.Prelude.{◌≡◌};
ghost use Rattle.faults.specs.declared.fault.Fault.TheVariants.{Making};
ghost use Rattle.faults.specs.Faults.{report};

use super::making::MakingFault;
use thiserror::Error;

/// Why a call was refused. A place counts from 0 and is the lowest at fault.
#[derive(Clone, Copy, PartialEq, Eq, Debug, Error)]
pub enum Fault {
    /// A row makes no posting, or a correction's volume breaks the row.
    #[error(transparent)]
    Making(MakingFault),
    /// The member is not in the day or the set.
    #[error("the member is not in the day or the set")]
    NotMember,
    /// The posting at this place is of a member that is not in the day.
    #[error("the member of posting {0} is not in the day")]
    StrangerAt(usize),
    /// The book is at its largest count.
    #[error("the book is full")]
    BookFull,
    /// The corrected place is not below the count.
    #[error("there is no posting at that place")]
    NoPosting,
    /// 32 places are corrected, and this one is not among them.
    #[error("32 other places are corrected")]
    CorrectionsFull,
    /// 0 members, or over 64.
    #[error("a day or a set has 1 to 64 members")]
    MemberCount,
    /// Not 24 market prices.
    #[error("a day has 24 market prices")]
    PriceCount,
    /// The market price at this place is above 500,000.
    #[error("price {0} is above 500000")]
    PriceAt(usize),
    /// Fewer sheet rows than members.
    #[error("there are fewer sheet rows than members")]
    FewRows,
    /// Fewer accounts than members.
    #[error("there are fewer accounts than members")]
    FewAccounts,
    /// Weights and parts differ in number.
    #[error("weights and parts differ in number")]
    PartCount,
    /// Over 2,048 postings.
    #[error("there are more than 2048 postings")]
    ManyPostings,
    /// Over 120,000,000 kWh of volume × hours.
    #[error("there is more than 120000000 kWh of volume")]
    MuchVolume,
    /// The weights' sum, or the amount's size times it, is past 9 × 10^18.
    #[error("the amount or the weights are too large to share")]
    LargeShare,
    /// The saving is below nil.
    #[error("the saving is below nil")]
    SavingBelowNil,
    /// A count in the image, or its length, is wrong.
    #[error("a count of the image or its length is wrong")]
    ImageFrame,
    /// The image's price at this place is unlawful.
    #[error("price {0} of the image is above 500000")]
    ImagePriceAt(usize),
    /// The image's posting at this place is unlawful.
    #[error("posting {0} of the image: {1}")]
    ImagePostingAt(usize, MakingFault),
    /// No place for a receipt, an image or a text.
    #[error("there is no room left")]
    NoRoom,
    /// Nothing is due.
    #[error("nothing is due")]
    NothingDue,
    /// A claim of another set, of no member of this one, or above what that member has claimed.
    #[error("the claim is not one of this set")]
    ClaimNotOfSet,
    /// Held is below the claim.
    #[error("less is held than the claim")]
    HeldBelowClaim,
    /// A deposit of 0 or above 10^12, or one with which held would pass 10^15.
    #[error("the deposit is nil or too large")]
    DepositSize,
    /// The set has had 1,000 closings.
    #[error("the set has had its 1000 closings")]
    ClosingsUsed,
}

impl Fault {
    /// The number that callers know the fault by.
    pub fn number(self) -> u8
        ensures value { result ≡ (report self).number }
    {
        match self {
            Fault::Making(fault) => fault.number(),
            Fault::NotMember => 6,
            Fault::StrangerAt(_) => 6,
            Fault::BookFull => 7,
            Fault::NoPosting => 8,
            Fault::CorrectionsFull => 9,
            Fault::MemberCount => 10,
            Fault::PriceCount => 11,
            Fault::PriceAt(_) => 11,
            Fault::FewRows => 12,
            Fault::FewAccounts => 12,
            Fault::PartCount => 12,
            Fault::ManyPostings => 13,
            Fault::MuchVolume => 13,
            Fault::LargeShare => 13,
            Fault::SavingBelowNil => 14,
            Fault::ImageFrame => 15,
            Fault::ImagePriceAt(_) => 16,
            Fault::ImagePostingAt(_, _) => 16,
            Fault::NoRoom => 17,
            Fault::NothingDue => 18,
            Fault::ClaimNotOfSet => 19,
            Fault::HeldBelowClaim => 20,
            Fault::DepositSize => 21,
            Fault::ClosingsUsed => 22,
        }
    }

    /// The lowest place at fault, where the fault bears one.
    pub fn place(self) -> Option<usize>
        ensures value { result ≡ (report self).place }
    {
        match self {
            Fault::StrangerAt(place) => Some(place),
            Fault::PriceAt(place) => Some(place),
            Fault::ImagePriceAt(place) => Some(place),
            Fault::ImagePostingAt(place, _) => Some(place),
            _ => None,
        }
    }

    /// The fault of the making, where the fault carries one.
    pub fn making(self) -> Option<MakingFault>
        ensures value { result ≡ (report self).making }
    {
        match self {
            Fault::Making(fault) => Some(fault),
            Fault::ImagePostingAt(_, fault) => Some(fault),
            _ => None,
        }
    }
}

impl From<MakingFault> for Fault {
    ghost from_gives = { λ making fault. fault ≡ Making making };

    fn from(making: MakingFault) -> Fault {
        Fault::Making(making)
    }
}
