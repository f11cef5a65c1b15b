//! The queue of commits that are not published yet.
//!
//! ```text
//! commits of the held log:   published | queued, in the order of the log | room for more
//! ```
//!
//! Rules:
//! 1. A commit joins the queue when its record is held. Room for it is taken before, so joining
//!    never fails.
//! 2. Commits leave in the order in which they joined. A commit may leave only once its record
//!    ends at or below the acknowledged LSN: no crash takes back what a reader saw.
//! 3. A commit that leaves gives its place back, so a queue that is emptied allocates nothing new.

ghost use Rattle.std.specs.Prelude.{◌≡◌, ℕ, ◌+◌, ◌-◌, ◌<◌, ◌≤◌, true, List, [], ◌∷◌, ◌++◌, ◌↔◌};
ghost use Rattle.std.specs.Prelude.{length, take, None, IsSome, option_to_list, IsOk, OnOk, IfErr};
ghost use Rattle.std.specs.Prelude.{if◌then◌else◌, nat_lt};
ghost use Rattle.std.specs.List.{AllByRecursion};
ghost use Rattle.als_record.specs.declared.record.Record.{Record as AnyRecord};
ghost use Rattle.als_record.specs.Validity.{is_valid};
ghost use Rattle.als_record.specs.Commits.{Commit as AnyCommit, commits_of};
ghost use Rattle.als_commits.specs.Counting.{IsEnded, ended_count, count_below};

use crate::commit::Commit;
use als_record::Lsn;
use std::alloc::{AllocError, Global};
use std::collections::VecDeque;
use std::marker::Model;

/// A commit record has so many bytes but one.
const ALL_BUT_ONE: u64 = 27;

/// Commits that wait to be published.
pub struct Waiting {
    queued: VecDeque<Commit, Global>,
    // Commits that can be queued without allocating.
    room: usize,
}

// Written out: a derived drop is proved wherever a queue is dropped, this one only here.
impl Drop for Waiting {
    fn drop(self) {
        let Waiting { queued, room: _ } = self;
        drop(queued);
    }
}

impl Model for Waiting {
    ghost use Rattle.std.specs.Prelude.{◌+◌, ◌≤◌};
    ghost use Rattle.std.specs.VecDeque.{deque_len, deque_capacity};
    ghost use Rattle.als_commits.specs.Waiting.{Waiting};

    ghost Value = { Waiting };

    ghost view = { λ w. record { queued = w.queued.items; room = w.room } };

    ghost invariant = { λ w. deque_len w.queued + w.room ≤ deque_capacity w.queued };
}

/// How many of the first commits have a commit record that begins below an LSN, up to the first
/// that does not.
fn count_first(queued: &VecDeque<Commit, Global>, lsn: Lsn) -> usize
    ensures { result ≡ count_below lsn queued.now.items }
{
    for i in 0..queued.len() {
        match queued.get(i) {
            Some(commit) if commit.lsn.0 < lsn.0 => {}
            _ => return i,
        }
    }
    queued.len()
}

/// The commit records that end at or below an offset begin below this LSN.
fn begins_below(offset: Lsn) -> Lsn
    ensures { result.0 ≡ offset.0 - 27 }
{
    Lsn(offset.0.saturating_sub(ALL_BUT_ONE))
}

impl Waiting {
    /// An empty queue. It takes no memory.
    pub fn new(alloc: Global) -> Waiting
        ensures { result ≡ record { queued = []; room = 0 } }
    {
        Waiting {
            queued: VecDeque::new(alloc),
            room: 0,
        }
    }

    /// Makes room for so many more commits: the next so many `queue` take no memory. An `Err`
    /// changes nothing.
    pub fn reserve(&mut self, count: usize) -> Result<(), AllocError>
        ensures ok { OnOk result (self.new
            ≡ record self.old {
              room = if nat_lt self.old.room count then count else
                  self.old.room;
            }) }
        ensures err { IfErr result (λ _. self.new ≡ self.old) }
        ensures reserved { count ≤ self.old.room → IsOk result }
    {
        if self.room < count {
            if self.queued.reserve(count).is_err() {
                return Err(AllocError);
            }
            self.room = count;
        }
        Ok(())
    }

    /// Queues a commit behind the others. It takes no memory where there is room. Where memory for
    /// it is refused, it is handed back and nothing changes.
    pub fn queue(&mut self, commit: Commit) -> Result<(), Commit>
        ensures ok { OnOk result (self.new
            ≡ record self.old {
              queued = self.old.queued ++ commit ∷ [];
              room = self.old.room - 1;
            }) }
        ensures err { IfErr result (λ back. (back ≡ commit) × (self.new ≡ self.old)) }
        ensures reserved { 0 < self.old.room → IsOk result }
    {
        if self.room == 0 {
            if self.queued.reserve(1).is_err() {
                return Err(commit);
            }
            self.room = 1;
        }
        self.queued.push_back_reserved(commit);
        self.room -= 1;
        Ok(())
    }

    /// Takes the first commit out, if there is one. Its place in the queue is room again.
    pub fn pop(&mut self) -> Option<Commit>
        ensures queued { self.old.queued ≡ option_to_list result ++ self.new.queued }
        ensures some { IsSome result ↔ (0 < length self.old.queued) }
        ensures room { self.new.room ≡ self.old.room + length (option_to_list result) }
    {
        let first = self.queued.pop_front();
        if first.is_some() {
            self.room += 1;
        }
        first
    }

    /// Puts a commit that left back in front of the others. It takes no memory.
    pub fn put_back(&mut self, commit: Commit)
        requires { 0 < self.old.room }
        ensures { self.new
            ≡ record {
              queued = commit ∷ self.old.queued;
              room = self.old.room - 1;
            } }
    {
        self.queued.push_front_reserved(commit);
        self.room -= 1;
    }

    /// How many commits wait.
    pub fn len(&self) -> usize
        ensures { result ≡ length self.now.queued }
    {
        self.queued.len()
    }

    /// How many of the first commits have a commit record that begins below an LSN, up to the first
    /// that does not.
    pub fn count_below(&self, lsn: Lsn) -> usize
        ensures { result ≡ count_below lsn self.now.queued }
    {
        count_first(&self.queued, lsn)
    }

    /// How many of the first commits have a record that ends at or below an offset. Where the
    /// commits in front of the queue have all ended there, these are all others of the log.
    pub fn count_ended(&self, offset: Lsn) -> usize
        ensures limit { result ≤ length self.now.queued }
        ensures ended { AllByRecursion (IsEnded offset.0) (take result self.now.queued) }
        ensures all { (log : List AnyRecord) (front : List AnyCommit) → is_valid log ≡ true
            → commits_of log ≡ front ++ self.now.queued → AllByRecursion (IsEnded offset.0) front
            → length front + result ≡ ended_count offset.0 (commits_of log) }
    {
        self.count_below(begins_below(offset))
    }

    /// Makes room for a commit, if there is one: it can then be taken with no memory. An `Err`
    /// changes nothing.
    pub fn make_room(&mut self, found: &Option<Commit>) -> Result<(), AllocError>
        ensures same { self.new ≡ record self.old { room = self.new.room } }
        ensures ok { OnOk result (IsSome found.now → 0 < self.new.room) }
        ensures reserved { found.now ≡ None → IsOk result }
    {
        match found {
            None => Ok(()),
            Some(_) => self.reserve(1),
        }
    }

    /// Queues the commit of a record that was added to the log, if it makes one. It takes no
    /// memory.
    pub fn take(&mut self, found: Option<Commit>)
        requires { IsSome found → 0 < self.old.room }
        ensures { self.new.queued ≡ self.old.queued ++ option_to_list found }
    {
        if let Some(commit) = found {
            match self.queue(commit) {
                Ok(()) => {}
                // There is room.
                Err(_) => unreachable!(),
            }
        }
    }
}
