//! Making a posting, and what one tells. These stand apart from the struct, since their contracts cite definitions that name it.

ghost use Rattle.std.specs.Prelude.{◌≡◌, ◌+◌, ◌-◌, ◌≤◌};
ghost use Rattle.postings.specs.Table.{code};
ghost use Rattle.postings.specs.Bounds.{Bounds};
ghost use Rattle.postings.specs.Making.{Made};
ghost use Rattle.postings.specs.Volumes.{volume_allowed, at_volume};

use super::Posting;
use crate::day::MOST_MEMBERS;
use crate::kind::Kind;
use crate::row::PostingRow;
use faults::MakingFault;

impl Posting {
    /// The posting of a row, or the first column of the table that the row breaks.
    // not `TryFrom`: making is the pool's word, and the clause stands on the call
    #[tactic(auto, unfolding(crate::specs::Table::lawful))]
    pub fn make(row: PostingRow) -> Result<Posting, MakingFault>
        ensures cases { Made row result }
    {
        let limits = Kind::try_from(row.kind)?.limits();
        if !limits.allow_hours(row.first, row.last) {
            return Err(MakingFault::Hours);
        }
        if !limits.allow_volume(row.volume) {
            return Err(MakingFault::Volume);
        }
        if !limits.allow_price(row.price) {
            return Err(MakingFault::Price);
        }
        if !limits.allow_label(row.label) {
            return Err(MakingFault::Label);
        }
        if usize::from(row.member) >= MOST_MEMBERS {
            return Err(MakingFault::Member);
        }
        Ok(Posting { row })
    }

    /// The posting's row, with the bounds that every posting keeps.
    pub fn row(&self) -> PostingRow
        ensures value { result ≡ self.now.row }
        ensures bound { Bounds result }
    {
        self.row
    }

    /// The posting's kind.
    pub fn kind(&self) -> Kind
        ensures value { self.now.row.kind ≡ code result }
    {
        match Kind::try_from(self.row.kind) {
            Ok(kind) => kind,
            // a posting's kind is one of the table's
            Err(_) => unreachable(),
        }
    }

    /// How many hours the posting covers.
    pub fn hours(&self) -> u8
        ensures value { result ≡ self.now.row.last + 1 - self.now.row.first }
        ensures bound { result ≤ 24 }
    {
        let PostingRow { first, last, .. } = self.row;
        last - first + 1
    }

    /// Whether the posting's kind allows the volume.
    #[tactic(auto, using(crate::proofs::Volumes::allowed_of))]
    pub fn allows_volume(&self, volume: u32) -> bool
        ensures value { result ≡ volume_allowed self.now.row volume }
    {
        self.kind().limits().allow_volume(volume)
    }

    /// The posting at another volume where its kind allows it, or else as it is.
    pub fn at_volume(self, volume: u32) -> Posting
        ensures value { result.row ≡ at_volume self.row volume }
    {
        if !self.allows_volume(volume) {
            return self;
        }
        let mut row = self.row;
        row.volume = volume;
        Posting { row }
    }
}
