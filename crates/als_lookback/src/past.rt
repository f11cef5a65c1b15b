ghost use Rattle.std.specs.Prelude.{◌≡◌, ℕ, List, [], ◌∷◌, ◌++◌, Option, OnOk, IfErr};
ghost use Rattle.als_record.specs.Commits.{commits_of};
ghost use Rattle.als_record.specs.Validity.{IsValidLog};
ghost use Rattle.als_lookback.specs.declared.until.Until.TheVariants.{End as ToItsEnd};
ghost use Rattle.als_lookback.specs.Past.{past_of, with_past, place_of, CountsPast};
ghost use Rattle.als_lookback.specs.Readings.{Reads, HasStopped};
ghost use Rattle.als_lookback.specs.Refusals.{RefusesLook, IsOfTaker};

use crate::fault::Fault;
use crate::reading::Reading;
use crate::taking::TakeRecord;
use crate::until::Until;
use als_commits::Commit;
use als_record::{Lsn, RecordView, TransId};
use als_validator::Validator;
use std::alloc::Global;
use std::io::Read;
use std::marker::Model;

/// How many commits are named.
pub const NAMED_LIMIT: usize = 10;

/// A commit of a log.
#[derive(Clone, Copy, Debug, PartialEq, Eq)]
pub struct CommitAt {
    /// The transaction that committed.
    pub trans: TransId,
    /// Where its commit record begins.
    pub lsn: Lsn,
}

/// The commits of a log from an LSN on.
pub struct PastCommits {
    /// A commit whose record begins there or above counts.
    pub from: Lsn,
    /// How many these are.
    pub count: u64,
    /// The first ten of them, in the log's order; all, where there are fewer.
    pub named: Vec<CommitAt>,
}

impl Model for PastCommits {
    ghost use Rattle.als_lookback.specs.Past.{Past};

    ghost Value = { Past };

    ghost view = { λ p. record {
      from = p.from.0;
      count = p.count;
      named = p.named.items;
    } };
}

// Written out: a derived drop is proved wherever it is dropped, this one only here.
impl Drop for PastCommits {
    fn drop(self) {
        let PastCommits {
            from: _,
            count: _,
            named,
        } = self;
        drop(named);
    }
}

impl PastCommits {
    /// None yet.
    #[tactic(auto, unfolding(crate::specs::Past::past_of))]
    pub fn new(alloc: Global, from: Lsn) -> PastCommits
        ensures { result ≡ past_of from.0 [] }
    {
        PastCommits {
            from,
            count: 0,
            named: Vec::new(alloc),
        }
    }

    /// One more commit. Stream: there are more than any log has.
    fn add(&mut self, commit: &Commit) -> Result<(), Fault>
        ensures ok { OnOk result (self.new ≡ with_past self.old commit.now) }
        ensures err { IfErr result IsOfTaker }
    {
        if commit.lsn.0 < self.from.0 {
            return Ok(());
        }
        let Some(count) = self.count.checked_add(1) else {
            return Err(Fault::Stream);
        };
        if self.named.len() < NAMED_LIMIT {
            name(&mut self.named, commit)?;
        }
        self.count = count;
        Ok(())
    }
}

/// Names one more commit.
fn name(named: &mut Vec<CommitAt>, commit: &Commit) -> Result<(), Fault>
    ensures ok { OnOk result (named.new.items ≡ named.old.items ++ place_of commit.now ∷ []) }
    ensures err { IfErr result IsOfTaker }
{
    let at = CommitAt {
        trans: commit.trans,
        lsn: commit.lsn,
    };
    match named.push(at) {
        Ok(()) => Ok(()),
        Err(_) => Err(Fault::Memory),
    }
}

impl TakeRecord for PastCommits {
    ghost use Rattle.std.specs.Prelude.{◌≡◌, ℕ, [], ◌∷◌, ◌++◌};
    ghost use Rattle.als_record.specs.Commits.{commits_of};
    ghost use Rattle.als_lookback.specs.Past.{past_of};

    ghost took = { λ s log r t. (from : ℕ) → s ≡ past_of from (commits_of log)
        → t ≡ past_of from (commits_of (log ++ r ∷ [])) };

    fn take(
        &mut self,
        alloc: Global,
        validator: &Validator,
        logged: &RecordView<'_>,
        _bytes: &[u8],
    ) -> Result<(), Fault> {
        if let Some(commit) = validator.commit_of(alloc, logged)? {
            self.add(&commit)?;
        }
        Ok(())
    }
}

/// The commits of a log from an LSN on: how many they are, and the first ten.
///
/// BadHeader, Shape, Invalid, Cut: the text is none of a log; then what was counted in front of that is
/// in `past` all the same. Stream: the reader failed. Memory: an allocation failed.
pub fn past_commits<R: Read + Drop>(
    alloc: Global,
    reader: R,
    past: &mut PastCommits,
) -> Result<(), Fault>
    ensures counts { OnOk result ((from : ℕ) → past.old ≡ past_of from []
        → CountsPast (R.remaining reader) from past.new) }
    ensures fails { IfErr result (RefusesLook (R.remaining reader) ToItsEnd) }
{
    let mut reading = Reading::new(alloc, reader)?;
    count_on(&mut reading, past)?;
    Ok(())
}

/// Takes the commits of all records.
fn count_on<R: Read>(reading: &mut Reading<R>, past: &mut PastCommits) -> Result<(), Fault>
    ensures ok { OnOk result (HasStopped ToItsEnd reading.new
        × ((from : ℕ) → past.old ≡ past_of from (commits_of reading.old.log)
        → past.new ≡ past_of from (commits_of reading.new.log))) }
    ensures valid { OnOk result (IsValidLog reading.new.pages reading.new.log) }
    ensures text { OnOk result ((text : Option (List ℕ)) → Reads text reading.old
        → Reads text reading.new) }
    ensures err { IfErr result (λ fault. (text : Option (List ℕ)) → Reads text reading.old
        → RefusesLook text ToItsEnd fault) }
{
    let _ = reading.end();
    for _ in 0..u64::MAX {
        let more = reading.take_next(Until::End, past)?;
        if !more {
            return Ok(());
        }
    }
    Err(Fault::Stream)
}
