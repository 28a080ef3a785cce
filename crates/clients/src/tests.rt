//! Examples, proved safe and run.

use books::{Book, Corrected, OpenBook, OpenDay, RowsBook};
use faults::Fault;
use postings::{Posting, PostingRow};
use std::test::Fail;

/// An injection of the member.
fn injection(member: u8, volume: u32) -> PostingRow {
    PostingRow {
        kind: 1,
        member,
        first: 3,
        last: 3,
        volume,
        price: 0,
        label: 0,
    }
}

/// The number of a refusal.
// the tests of `sharing` have it too: a helper of both would be a public function for tests alone
fn number<T: Drop>(answer: Result<T, Fault>) -> Option<u8> {
    answer.err().map(|fault| fault.number())
}

/// The volume at a place.
fn volume_at<B: Book>(book: &B, place: usize) -> Option<u32> {
    Some(book.at(place)?.row().volume)
}

#[test]
fn corrects_32_places(rt: HostRuntime) -> Result<(), Fail> {
    let mut rows = [injection(0, 0); 33];
    let mut book = RowsBook::new(&mut rows);
    let mut layer = Corrected::new(&mut book);
    for _ in 0..33 {
        let _ = layer.post(Posting::make(injection(0, 7))?);
    }
    for place in 0..32 {
        assert_eq!(rt; number(layer.correct(place, 9)), None);
    }
    assert_eq!(rt; number(layer.correct(32, 9)), Some(9));
    assert_eq!(rt; number(layer.correct(5, 10)), None);
    assert_eq!(rt; volume_at(&layer, 5), Some(10));
    assert_eq!(rt; volume_at(&layer, 6), Some(9));
    assert_eq!(rt; volume_at(&layer, 32), Some(7));
    assert_eq!(rt; number(layer.correct(33, 0)), Some(8));
    assert_eq!(rt; number(layer.correct(32, 10_001)), Some(3));
    Ok(())
}

#[test]
fn posts_members_only(rt: HostRuntime) -> Result<(), Fail> {
    let mut rows = [injection(0, 0); 1];
    let mut book = RowsBook::new(&mut rows);
    let day = OpenDay::open(2)?;
    let stranger = Posting::make(injection(2, 7))?;
    assert_eq!(rt; number(day.post(&mut book, stranger)), Some(6));
    let posting = Posting::make(injection(1, 7))?;
    assert_eq!(rt; number(day.post(&mut book, posting)), None);
    assert_eq!(rt; number(day.post(&mut book, posting)), Some(7));
    assert_eq!(rt; book.count(), 1);
    assert_eq!(rt; number(OpenDay::open(65)), Some(10));
    Ok(())
}
