//! What the words of a line stand for.
//!
//! A word that is no number of its column is read as one that no posting has, so that making refuses it with the
//! number of that column. A `Result` for each word would have to ask for the columns in their order once more.

use postings::{Kind, PostingRow};
use std::str::FromStr;

const NO_KIND: u8 = 0;

const NO_HOUR: u8 = 255;

const NO_VOLUME: u32 = 0;

const NO_PRICE: i32 = i32::MAX;

const NO_LABEL: u8 = 255;

const NO_MEMBER: u8 = 255;

const NO_MARKET_PRICE: u32 = u32::MAX;

/// The row of a line: kind, member, first hour, last hour, volume, price, label.
pub(crate) fn row_of(line: &str) -> PostingRow {
    let mut words = line.split_ascii_whitespace();
    let kind = kind_of(words.next());
    let member = number(words.next(), NO_MEMBER);
    let first = number(words.next(), NO_HOUR);
    let last = number(words.next(), NO_HOUR);
    let volume = number(words.next(), NO_VOLUME);
    let price = number(words.next(), NO_PRICE);
    let label = number(words.next(), NO_LABEL);
    PostingRow {
        kind,
        member,
        first,
        last,
        volume,
        price,
        // an eighth word breaks the last column
        label: words.next().map_or(label, |_| NO_LABEL),
    }
}

/// A market price.
pub(crate) fn price_of(word: &str) -> u32 {
    number(Some(word), NO_MARKET_PRICE)
}

/// The code of a kind by its name or its code.
fn kind_of(word: Option<&str>) -> u8 {
    word.and_then(kind_named)
        .map_or_else(|| number(word, NO_KIND), u8::from)
}

/// A kind by its name.
// no `FromStr`: the trait and the type are of other crates
fn kind_named(name: &str) -> Option<Kind> {
    match name {
        "injection" => Some(Kind::Injection),
        "withdrawal" => Some(Kind::Withdrawal),
        "hourly-purchase" => Some(Kind::HourlyPurchase),
        "hourly-sale" => Some(Kind::HourlySale),
        "block-purchase" => Some(Kind::BlockPurchase),
        "block-sale" => Some(Kind::BlockSale),
        "flexible-sale" => Some(Kind::FlexibleSale),
        "up" => Some(Kind::Up),
        "down" => Some(Kind::Down),
        _ => None,
    }
}

/// The number of a word, or another where there is no word or it is no number of that type.
fn number<T: FromStr + Copy>(word: Option<&str>, otherwise: T) -> T
where
    T::Err: Drop,
{
    word.and_then(|word| word.parse::<T>().ok())
        .unwrap_or(otherwise)
}
