//! The book on a day image, read only. It decodes a posting when it is asked.

ghost use Rattle.std.specs.Prelude.{◌≡◌, ◌≤◌, true};
ghost use Rattle.postings.specs.Table.{all_lawful};
ghost use Rattle.images.specs.Reading.{rows_up_to};
ghost use Rattle.images.specs.Checking.{Opened};

use super::bytes::row_at;
use super::checks::{check, stated_count};
use books::Book;
use postings::Posting;

/// The postings of an image that passes the check, or none where it fails.
#[derive(Drop)]
pub struct ImageBook<'a> {
    bytes: &'a [u8],
    // nil where the check fails, and then not the count that the bytes state
    count: usize,
    ghost few: { count ≤ 2048 },
    ghost keeps: { all_lawful (rows_up_to bytes.now count) ≡ true },
}

impl<'a> ImageBook<'a> {
    /// The book on the bytes; empty where they are no day image.
    pub fn open(bytes: &'a [u8]) -> ImageBook<'a>
        ensures cases { Opened bytes.now (rows_up_to result.bytes.now result.count) }
    {
        let Ok(()) = check(bytes) else {
            return ImageBook { bytes, count: 0 };
        };
        let count = stated_count(bytes);
        ImageBook { bytes, count }
    }
}

impl<'a> Book for ImageBook<'a> {
    ghost list = { λ b. rows_up_to b.bytes.now b.count };

    ghost largest = { λ b. b.count };

    fn count(&self) -> usize {
        self.count
    }

    fn at(&self, place: usize) -> Option<Posting> {
        if place >= self.count {
            return None;
        }
        // never refused: every row is lawful
        Posting::make(row_at(self.bytes, place)).ok()
    }

    ghost lawful = { λ b. b.keeps };
}
