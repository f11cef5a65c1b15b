ghost use Rattle.std.specs.Prelude.{◌≡◌, ◌↔◌, IsTrue};
ghost use Rattle.als_compare.specs.Ranks.{rank_of, IsAbove};

use als_epochs::History;

/// The rule of choice among nodes: the last seal at or below the end of what is acknowledged, 0 where there
/// is none, and then that end. Of several nodes the one whose rank is greatest holds all that was answered.
#[derive(Clone, Copy, Debug, PartialEq, Eq)]
pub struct Rank {
    /// The last seal of the node's history at or below `end`, an LSN. 0: there is none.
    pub seal: u64,
    /// The end of what is acknowledged of the node's log, in bytes from its begin.
    pub end: u64,
}

impl Rank {
    /// The rank of a node with this history, of whose log all below `end` is acknowledged.
    #[tactic(auto, unfolding(crate::specs::Ranks::rank_of))]
    pub fn new(history: &History, end: u64) -> Rank
        ensures { result ≡ rank_of history.now end }
    {
        let mut last = 0;
        for seal in history.seals() {
            if *seal <= end {
                last = *seal;
            }
        }
        Rank { seal: last, end }
    }

    /// Whether a node of this rank is to be chosen over one of the other rank.
    pub fn is_above(self, other: Rank) -> bool
        ensures { IsTrue result ↔ IsAbove self other }
    {
        if self.seal == other.seal {
            other.end < self.end
        } else {
            other.seal < self.seal
        }
    }
}
