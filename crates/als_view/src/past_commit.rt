use crate::past_value::PastValue;
use als_commits::Commit;
use std::marker::Model;

/// A commit of the published list. Contracts see all of it; in memory it has no bytes, since no call
/// asks for a published commit again: its writes are in the images.
pub struct PastCommit {
    commit: PastValue<Commit>,
}

// Written out: a derived drop is proved wherever a list is dropped, this one only here.
impl Drop for PastCommit {
    fn drop(self) {
        let PastCommit { commit: _ } = self;
    }
}

impl Model for PastCommit {
    ghost use Rattle.als_record.specs.Commits.{Commit as AnyCommit};

    ghost Value = { AnyCommit };

    ghost view = { λ p. p.commit.value };
}

impl PastCommit {
    ghost use Rattle.std.specs.Prelude.{◌≡◌};

    /// This commit, for a list.
    #[inline(always)]
    pub fn of(commit: &Commit) -> PastCommit
        ensures { result ≡ commit.now }
    {
        PastCommit {
            commit: PastValue::of(commit),
        }
    }
}
