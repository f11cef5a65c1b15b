ghost use Rattle.std.specs.Prelude.{ℕ, List};
ghost use Rattle.als_callers.specs.declared.block.Block.{Block};
ghost use Rattle.als_quorum.specs.Tallies.{HadEnough, HadFew};
ghost use Rattle.als_primary.specs.Others.{IsConfirmed, IsMissed};

use als_quorum::Tally;
use std::snapshot::Snapshot;

/// The quorum's answers so far, for clauses only: it takes no bytes.
#[derive(Drop)]
pub(crate) enum Answers {
    Nothing,
    Told(Snapshot<Answers>, Snapshot<Tally>),
}

impl Answers {
    /// Adds an answer of the quorum.
    pub fn note(&mut self, tally: &Tally)
        ensures enough { (blocks : List Block) (k n : ℕ) → HadEnough blocks tally.now k n
            → IsConfirmed blocks k self.new n }
        ensures few { (blocks : List Block) (k n : ℕ) → HadFew blocks tally.now k n
            → IsMissed blocks k self.new n }
        ensures keeps { (blocks : List Block) (k n : ℕ) → IsConfirmed blocks k self.old n
            → IsConfirmed blocks k self.new n }
        ensures misses { (blocks : List Block) (k n : ℕ) → IsMissed blocks k self.old n
            → IsMissed blocks k self.new n }
    {
        let before = Snapshot::of(self);
        *self = Answers::Told(before, Snapshot::of(tally));
    }
}
