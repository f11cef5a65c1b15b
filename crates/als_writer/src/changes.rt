ghost use Rattle.std.specs.Prelude.{◌≡◌, ℕ, ◌<◌, List, ◌++◌, length, slice_set, slice_index_or, IfOk, IsTrue};
ghost use Rattle.std.specs.Prelude.{if◌then◌else◌};
ghost use Rattle.std.specs.List.{list_any, AllByRecursion};
ghost use Rattle.als_record.specs.declared.record.Record.{Record as AnyRecord};
ghost use Rattle.als_record.specs.declared.key.Key.{Key as AnyKey};
ghost use Rattle.als_record.specs.declared.trans_id.TransId.{TransId as AnyTrans};
ghost use Rattle.als_record.specs.LogText.{end_of};
ghost use Rattle.als_record.specs.Commits.{commits_of};
ghost use Rattle.als_record.specs.Spelling.{IsKey};
ghost use Rattle.als_record.specs.Images.{same_key};
ghost use Rattle.als_record.specs.Validity.{is_valid};
ghost use Rattle.als_writing.specs.Writing.{last_write};
ghost use Rattle.als_tables.specs.Counting.{last_commit};
ghost use Rattle.als_writer.specs.Changes.{AreBounds, place_of, is_below};
ghost use Rattle.als_writer.specs.Deciding.{commits_by};

use crate::set::Set;
use als_engine::Decision;
use als_record::{Key, Lsn, SLOT_COUNT};
use std::alloc::{AllocError, Global};
use std::marker::Model;

/// An upper bound of the LSN of the last commit of each key: 8 bytes a key. A read of this process
/// is never too old for it, one of before may be.
#[derive(Drop)]
pub struct Changes {
    bounds: Vec<u64>,
}

impl Model for Changes {
    ghost use Rattle.std.specs.Prelude.{List, ℕ};

    ghost Value = { List ℕ };

    ghost view = { λ c. c.bounds.items };
}

/// Where a key's bound is.
fn place(key: Key) -> usize
    ensures { result ≡ place_of key }
{
    key.page as usize * SLOT_COUNT + key.slot as usize
}

/// Keeps a bound, where there is a place for it.
fn keep(bounds: &mut Vec<u64>, at: usize, bound: u64)
    ensures len { length bounds.new.items ≡ length bounds.old.items }
    ensures kept { at < length bounds.old.items
        → bounds.new.items ≡ slice_set bounds.old.items at bound }
{
    if at < bounds.len() {
        bounds[at] = bound;
    }
}

impl Changes {
    /// Of a database with this many pages, whose last commit has this LSN, 0 for none. `Err`: no
    /// memory.
    pub fn new(alloc: Global, pages: u32, last: Lsn) -> Result<Changes, AllocError>
        ensures { (log : List AnyRecord) → IsTrue (is_valid log) → last.0 ≡ last_commit log
            → IfOk result (λ c. AreBounds c pages log) }
    {
        let bounds = vec![in alloc; last.0; pages as usize * SLOT_COUNT]?;
        Ok(Changes { bounds })
    }

    /// Whether no commit above this LSN wrote the key. `false` where that is not known.
    pub(crate) fn is_unchanged(&self, key: Key, since: Lsn) -> bool
        ensures { result ≡ is_below self.now key since }
    {
        match self.bounds.get(place(key)) {
            Some(bound) => *bound <= since.0,
            None => false,
        }
    }

    /// A transaction in doubt was decided by the record at this LSN. Which keys a commit of it wrote is
    /// not known here, so that each bound becomes its LSN.
    pub(crate) fn note_decision(&mut self, verdict: Decision, lsn: Lsn)
        ensures { (pages : ℕ) → (log more : List AnyRecord) → (t : AnyTrans)
            → AreBounds self.old pages log → IsTrue (is_valid log) → lsn.0 ≡ end_of log
            → commits_of more ≡ commits_of log ++ commits_by log t verdict
            → AreBounds self.new pages more }
    {
        match verdict {
            Decision::Commit => self.raise_all(lsn),
            Decision::Rollback => {}
        }
    }

    /// Makes this LSN the bound of each key.
    fn raise_all(&mut self, lsn: Lsn)
        ensures count { length self.new ≡ length self.old }
        ensures each { (i d : ℕ) → i < length self.old → slice_index_or self.new i d ≡ lsn.0 }
    {
        for i in 0..self.bounds.len() {
            self.bounds[i] = lsn.0;
        }
    }

    /// A commit wrote these keys.
    pub(crate) fn note(&mut self, sets: &[Set], lsn: Lsn)
        ensures { (pages : ℕ) → (log more : List AnyRecord) → AreBounds self.old pages log
            → AllByRecursion (λ w. IsKey pages w.key) sets.now
            → ((k : AnyKey) → last_write more k ≡ (if list_any (λ w. same_key w.key k) sets.now
            then lsn.0 else last_write log k)) → AreBounds self.new pages more }
    {
        for set in sets {
            keep(&mut self.bounds, place(set.key), lsn.0);
        }
    }
}
