ghost use Rattle.std.specs.Prelude.{◌≡◌, ◌&&◌, ℕ, nat_lt, List, [], ◌∷◌, ◌++◌, None, IfOk, IfErr, OnOk, if◌then◌else◌};
ghost use Rattle.als_record.specs.declared.record.Record.{Record as AnyRecord};
ghost use Rattle.als_record.specs.Commits.{Commit as AnyCommit, commits_of, seen_after};
ghost use Rattle.als_lookback.specs.Refusals.{IsOfTaker};
ghost use Rattle.als_lookback.specs.Seen.{IsSeenOf, HasImages, commit_of, with_commit};

use crate::fault::Fault;
use crate::images::{place, unwritten, write_commit, write_one};
use crate::taking::TakeRecord;
use als_commits::{Commit, Write};
use als_record::{Image, KeptImage, Key, Lsn, RecordView, SLOT_COUNT};
use als_validator::Validator;
use std::alloc::{AllocError, Global};
use std::marker::Model;

/// What the commits of a log left: the image of each key, how many commits these are, and the LSN of
/// the last one, 0 without one.
pub struct Seen {
    pages: u32,
    images: Vec<KeptImage>,
    commits: u64,
    last: Lsn,
}

impl Model for Seen {
    ghost use Rattle.std.specs.Prelude.{◌≡◌, ◌*◌, length};
    ghost use Rattle.als_lookback.specs.Seen.{Seen};

    ghost Value = { Seen };

    ghost view = { λ s. record {
      pages = s.pages;
      images = s.images.items;
      commits = s.commits;
      last = s.last.0;
    } };

    ghost invariant = { λ s. length s.images.items ≡ s.pages * 15 };
}

// Written out: a derived drop is proved wherever it is dropped, this one only here.
impl Drop for Seen {
    fn drop(self) {
        let Seen {
            pages: _,
            images,
            commits: _,
            last: _,
        } = self;
        drop(images);
    }
}

impl Seen {
    /// What no commit left.
    pub(crate) fn new(alloc: Global, pages: u32) -> Result<Seen, AllocError>
        ensures { IfOk result (λ s. IsSeenOf s pages []) }
    {
        Ok(Seen {
            pages,
            images: unwritten(alloc, pages)?,
            commits: 0,
            last: Lsn(0),
        })
    }

    /// How many pages the database has.
    pub fn pages(&self) -> u32
        ensures { result ≡ self.now.pages }
    {
        self.pages
    }

    /// How many commits left it.
    pub fn commits(&self) -> u64
        ensures { result ≡ self.now.commits }
    {
        self.commits
    }

    /// The LSN of the last of them, 0 without one.
    pub fn last(&self) -> Lsn
        ensures { result.0 ≡ self.now.last }
    {
        self.last
    }

    /// What a key has after them. A key outside the database has nothing.
    pub fn value(&self, key: Key) -> Image
        ensures seen { (pages : ℕ) (log : List AnyRecord) → IsSeenOf self.now pages log
            → result ≡ (if nat_lt key.page pages && nat_lt key.slot 15 then seen_after
            (commits_of log) key else None) }
        ensures put { (pages : ℕ) (commits : List AnyCommit) → HasImages self.now pages commits
            → result ≡ (if nat_lt key.page pages && nat_lt key.slot 15 then seen_after commits key
            else None) }
    {
        if key.page >= self.pages || key.slot as usize >= SLOT_COUNT {
            return None;
        }
        self.images[place(key)].image()
    }

    /// Gives a key an image, as a commit of this write would, which is not counted. A key outside the
    /// database gets none.
    pub fn put(&mut self, write: &Write)
        ensures { (pages : ℕ) (commits : List AnyCommit) → HasImages self.old pages commits
            → HasImages self.new pages (commits ++ commit_of write.now ∷ []) }
    {
        write_one(&mut self.images, write);
    }

    /// One more commit. Stream: there are more than any log has.
    fn add(&mut self, commit: &Commit) -> Result<(), Fault>
        ensures ok { OnOk result (self.new ≡ with_commit self.old commit.now) }
        ensures err { IfErr result IsOfTaker }
    {
        let Some(commits) = self.commits.checked_add(1) else {
            return Err(Fault::Stream);
        };
        write_commit(&mut self.images, commit);
        self.commits = commits;
        self.last = commit.lsn;
        Ok(())
    }
}

impl TakeRecord for Seen {
    ghost use Rattle.std.specs.Prelude.{ℕ, [], ◌∷◌, ◌++◌};
    ghost use Rattle.als_lookback.specs.Seen.{IsSeenOf};

    ghost took = { λ s log r t. (pages : ℕ) → IsSeenOf s pages log
        → IsSeenOf t pages (log ++ r ∷ []) };

    fn take(
        &mut self,
        alloc: Global,
        validator: &Validator,
        logged: &RecordView<'_>,
        _bytes: &[u8],
    ) -> Result<(), Fault> {
        if let Some(commit) = validator.commit_of(alloc, logged)? {
            self.add(&commit)?;
        }
        Ok(())
    }
}
