ghost use Rattle.std.specs.Prelude.{◌≡◌, ◌<◌, ◌^◌, [], ◌∷◌, ◌++◌, List};
ghost use Rattle.als_record.specs.declared.record.Record.{Record as AnyRecord};
ghost use Rattle.als_record.specs.Shown.{shown};
ghost use Rattle.als_tables.specs.Counting.{IsCountOf};

use als_record::{BodyView, Lsn, RecordView};

/// How many records a log has, how many of them are commits, and the LSN of the last commit, 0 for
/// none.
#[derive(Clone, Copy, Debug, PartialEq, Eq)]
pub struct CommitCount {
    pub records: usize,
    pub commits: u64,
    pub last_commit: Lsn,
}

impl CommitCount {
    /// That of the empty log.
    pub fn new() -> CommitCount
        ensures { IsCountOf result [] }
    {
        CommitCount {
            records: 0,
            commits: 0,
            last_commit: Lsn(0),
        }
    }

    /// Counts one more record. It takes no memory.
    #[inline(always)]
    pub fn note(&mut self, logged: &RecordView<'_>)
        requires records { self.old.records < 2 ^ 62 }
        requires commits { self.old.commits < 2 ^ 62 }
        ensures { (log : List AnyRecord) → IsCountOf self.old log
            → IsCountOf self.new (log ++ shown logged.now ∷ []) }
    {
        self.records += 1;
        if let BodyView::Commit = logged.body {
            self.commits += 1;
            self.last_commit = logged.lsn;
        }
    }
}
