//! The two laws of images, for every day and all bytes.

ghost use Rattle.images.specs.Laws.{DayOpens, ImageIsItsDay};

/// The bytes of a day pass the check and open as its prices and its list.
pub fn day_opens()
    ensures law { DayOpens }
{}

/// Bytes that pass the check are, byte for byte, those of their prices and their list.
pub fn image_is_its_day()
    ensures law { ImageIsItsDay }
{}
