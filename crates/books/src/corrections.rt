//! The corrections of a layer: up to 32 places, each with its latest volume.

use arrayvec::ArrayVec;

mod calls;

/// A corrected place and its latest volume.
#[derive(Clone, Copy, PartialEq, Eq, Debug, Default)]
pub struct Correction {
    pub place: usize,
    pub volume: u32,
}

/// One correction for each corrected place, in the order in which the places first were.
#[derive(Drop)]
pub struct Corrections {
    entries: ArrayVec<Correction, 32>,
}
