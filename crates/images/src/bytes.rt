//! Numbers in an image, high byte first. A byte past the end reads as 0.

ghost use Rattle.std.specs.Prelude.{◌≡◌, ◌+◌, ◌^◌, ◌<◌, ◌≤◌, [], ◌∷◌};
ghost use Rattle.images.specs.Reading.{byte as byte_at, u16_at, u32_at, i32_at, row_at};

use postings::PostingRow;

/// The byte at a place.
fn byte(bytes: &[u8], at: usize) -> u8
    ensures value { result ≡ byte_at bytes.now at }
{
    bytes.get(at).copied().unwrap_or(0)
}

/// The number of two bytes.
// each number by its own `from_be_bytes`, which no trait has in common; the places bounded, so that no sum wraps
pub(crate) fn u16_at(bytes: &[u8], at: usize) -> u16
    requires { at < 2 ^ 33 }
    ensures value { result ≡ u16_at bytes.now at }
{
    u16::from_be_bytes([byte(bytes, at), byte(bytes, at + 1)])
}

/// The four bytes from a place on.
fn four_at(bytes: &[u8], at: usize) -> [u8; 4]
    requires { at < 2 ^ 32 }
    ensures value { result ≡ byte_at bytes.now at ∷ byte_at bytes.now (at + 1) ∷ byte_at bytes.now (at + 2) ∷ byte_at bytes.now (at + 3) ∷ [] }
{
    [
        byte(bytes, at),
        byte(bytes, at + 1),
        byte(bytes, at + 2),
        byte(bytes, at + 3),
    ]
}

/// The number of four bytes.
pub(crate) fn u32_at(bytes: &[u8], at: usize) -> u32
    requires { at < 2 ^ 32 }
    ensures value { result ≡ u32_at bytes.now at }
{
    u32::from_be_bytes(four_at(bytes, at))
}

/// The signed number of four bytes, in two's complement.
fn i32_at(bytes: &[u8], at: usize) -> i32
    requires { at < 2 ^ 32 }
    ensures value { result ≡ i32_at bytes.now at }
{
    u32_at(bytes, at).cast_signed()
}

/// The row of the posting at a place.
pub(crate) fn row_at(bytes: &[u8], place: usize) -> PostingRow
    requires { place ≤ 2048 }
    ensures value { result ≡ row_at bytes.now place }
{
    let at = 100 + 13 * place;
    PostingRow {
        kind: byte(bytes, at),
        member: byte(bytes, at + 1),
        first: byte(bytes, at + 2),
        last: byte(bytes, at + 3),
        volume: u32_at(bytes, at + 4),
        price: i32_at(bytes, at + 8),
        label: byte(bytes, at + 12),
    }
}
