ghost use Rattle.std.specs.Prelude.{◌≡◌, [], IfOk, IsOk};
ghost use Rattle.als_commits.specs.Committing.{commit_with};

use crate::commit::Commit;
use crate::writes::Writes;
use als_record::{KeptUpdate, Lsn, TransId};
use std::alloc::{AllocError, Global};

impl Commit {
    /// The commit of a transaction by a record at this LSN, where these updates of it survive: each
    /// key and what it gets, in order. It takes no memory where nothing
    /// survives.
    pub fn of(
        alloc: Global,
        trans: TransId,
        lsn: Lsn,
        survivors: &[KeptUpdate],
    ) -> Result<Commit, AllocError>
        ensures ok { IfOk result (λ c. c ≡ commit_with trans lsn survivors.now) }
        ensures reserved { survivors.now ≡ [] → IsOk result }
    {
        Ok(Commit {
            trans,
            lsn,
            writes: Writes::of(alloc, survivors)?,
        })
    }

    /// The same commit once more. It takes no memory: both share what the commit writes.
    pub fn copy(&self) -> Result<Commit, AllocError>
        ensures { IfOk result (λ c. c ≡ self.now) }
    {
        Ok(Commit {
            trans: self.trans,
            lsn: self.lsn,
            writes: self.writes.again()?,
        })
    }
}
