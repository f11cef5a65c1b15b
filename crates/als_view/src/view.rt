//! The view of a log: the publisher, and the queue of the commits that wait in front of it.
//!
//! ```text
//! commits of the log:   published | handed to the publisher | waiting
//!                       <------ ended at the acknowledged LSN ------>   <-- the others
//! ```
//!
//! Rules:
//! 1. A commit waits from when its record is held. Its place is reserved before.
//! 2. Only commits that have ended at the acknowledged LSN go to the publisher, since a publish
//!    shows all that it has. Where allocation fails on the way some may stay there unpublished;
//!    the next publish shows them.
//! 3. Readers learn what is published from `tell`, or see it when they next enter a copy.

ghost use Rattle.std.specs.Prelude.{◌≡◌, ℕ, ◌<◌, ◌≤◌, ◌^◌, true, false, List, [], ◌∷◌, ◌++◌, length};
ghost use Rattle.std.specs.Prelude.{Some, None, All, IsSome, option_to_list, IsOk, IfOk, IfErr, OnOk, OnErr};
ghost use Rattle.std.specs.Prelude.{if◌then◌else◌};
ghost use Rattle.als_record.specs.declared.record.Record.{Record as AnyRecord};
ghost use Rattle.als_record.specs.Validity.{is_valid};
ghost use Rattle.als_record.specs.Commits.{commits_of};
ghost use Rattle.als_commits.specs.Counting.{ended_count};
ghost use Rattle.als_view.specs.Answers.{IsRefusal};
ghost use Rattle.als_view.specs.Entries.{AreCommits};
ghost use Rattle.als_view.specs.Fronts.{front_of};
ghost use Rattle.als_view.specs.Reading.{ReadsFront};
ghost use Rattle.als_view.specs.Showing.{IsShowing, IsWarming, published_of};
ghost use Rattle.als_view.specs.Views.{book_of, pages_of, known_to, listed_in, IsSameReader};

use crate::answer::Answer;
use crate::fault::Fault;
use crate::front::Front;
use crate::opening::new;
use crate::publisher::Publisher;
use crate::reader::Reader;
use crate::reading_now::read_now;
use als_commits::{Commit, Waiting};
use als_record::{Key, Lsn};
use std::alloc::{AllocError, Global};
use std::marker::Model;
use std::sync::Wait;

/// What readers see of a log, and what waits to be seen.
pub struct View {
    publisher: Publisher,
    // The commits that were not handed to the publisher yet.
    waiting: Waiting,
}

// Written out: a derived drop is proved wherever a view is dropped, this one only here.
impl Drop for View {
    fn drop(self) {
        let View { publisher, waiting } = self;
        drop(publisher);
        drop(waiting);
    }
}

impl Model for View {
    ghost use Rattle.als_view.specs.Showing.{View};
    ghost use Rattle.als_view.specs.Views.{book_by, pages_by, all_by, published_by};

    ghost Value = { View };

    ghost view = { λ v. record {
      pages = pages_by v.publisher;
      book = book_by v.publisher;
      published = published_by v.publisher;
      all = all_by v.publisher;
      queued = v.waiting.queued;
      room = v.waiting.room;
    } };
}

impl View {
    /// The view of a database with so many pages, with an empty list or with none, and so many
    /// readers of it. Where allocation fails nothing is left behind.
    pub fn new<R: Wait>(
        alloc: Global,
        rt: &R,
        pages: u32,
        readers: usize,
        listed: bool,
    ) -> Result<(View, Vec<Reader>), AllocError>
        requires { (0 < readers) × (readers < 2 ^ 32) }
        ensures view { IfOk result (λ t. (t.0.all ≡ []) × (t.0.queued ≡ []) × (t.0.pages ≡ pages)
            × (t.0.published ≡ (if listed then Some [] else None))) }
        ensures readers { IfOk result (λ t. All (λ r. (book_of r ≡ t.0.book) × (pages_of r ≡ pages)
            × (known_to r ≡ t.0.published)) t.1.items) }
        ensures count { IfOk result (λ t. length t.1.items ≡ readers) }
    {
        let (publisher, all) = new(alloc, rt, pages, readers, listed)?;
        let waiting = Waiting::new(alloc);
        Ok((View { publisher, waiting }, all))
    }

    /// The view of a log of which all commits wait here, made of that of the empty log. It takes no
    /// memory.
    pub fn with_waiting(self, waiting: Waiting) -> View
        ensures queued { result ≡ record self {
          queued = waiting.queued;
          room = waiting.room;
        } }
        ensures warming { (pages : ℕ) (log : List AnyRecord) → IsWarming pages [] self
            → waiting.queued ≡ commits_of log → IsWarming pages log result }
    {
        let View {
            publisher,
            waiting: none,
        } = self;
        drop(none);
        View { publisher, waiting }
    }

    /// Makes room for a commit, if there is one: it can then be taken with no memory. An `Err`
    /// changes nothing.
    pub fn make_room(&mut self, found: &Option<Commit>) -> Result<(), AllocError>
        ensures same { self.new ≡ record self.old { room = self.new.room } }
        ensures ok { OnOk result (IsSome found.now → 0 < self.new.room) }
        ensures reserved { found.now ≡ None → IsOk result }
    {
        self.waiting.make_room(found)?;
        Ok(())
    }

    /// Queues the commit of a record that was added to the log, if it makes one. It takes no
    /// memory.
    pub fn take(&mut self, found: Option<Commit>)
        requires { IsSome found → 0 < self.old.room }
        ensures shows { (log : List AnyRecord) (r : AnyRecord) (acknowledged : ℕ)
            → commits_of (log ++ r ∷ []) ≡ commits_of log ++ option_to_list found
            → IsShowing log acknowledged self.old
            → IsShowing (log ++ r ∷ []) acknowledged self.new }
        ensures published { self.new.published ≡ self.old.published }
        ensures same { (self.new.pages ≡ self.old.pages) × (self.new.book ≡ self.old.book) }
    {
        self.waiting.take(found);
    }

    /// Whether a commit whose record ends at or below an offset is not published yet.
    pub fn has_more(&self, acknowledged: Lsn) -> bool
        ensures more { result ≡ true → (log : List AnyRecord) (below : ℕ) → is_valid log ≡ true
            → below ≤ acknowledged.0 → IsShowing log below self.now
            → length (listed_in self.now.published)
            < ended_count acknowledged.0 (commits_of log) }
        ensures none { result ≡ false → (log : List AnyRecord) (below : ℕ) → is_valid log ≡ true
            → below ≤ acknowledged.0 → IsShowing log below self.now
            → length (listed_in self.now.published)
            ≡ ended_count acknowledged.0 (commits_of log) }
    {
        let handed = self.publisher.unpublished();
        let ended = self.waiting.count_ended(acknowledged);
        handed > 0 || ended > 0
    }

    /// Publishes each commit whose record ends at or below an offset, in order and at once, and
    /// opens the list if need be. It waits for readers that are still in the copy of before the
    /// last call. At an `Err` readers see what they saw.
    pub fn publish_ended<R: Wait>(&mut self, rt: &R, acknowledged: Lsn) -> Result<(), AllocError>
        requires { AreCommits (self.old.all ++ self.old.queued) }
        ensures shows { (log : List AnyRecord) (below : ℕ) → below ≤ acknowledged.0
            → IsShowing log below self.old → IsShowing log acknowledged.0 self.new }
        ensures commits { self.new.all ++ self.new.queued ≡ self.old.all ++ self.old.queued }
        ensures done { OnOk result ((log : List AnyRecord) (below : ℕ) → is_valid log ≡ true
            → below ≤ acknowledged.0 → IsShowing log below self.old
            → published_of self.new ≡ Some (ended_count acknowledged.0 (commits_of log))) }
        ensures err { OnErr result (self.new.published ≡ self.old.published) }
        ensures same { (self.new.pages ≡ self.old.pages) × (self.new.book ≡ self.old.book) }
    {
        let count = self.waiting.count_ended(acknowledged);
        self.publisher.publish_first(rt, &mut self.waiting, count)?;
        Ok(())
    }

    /// The whole published list, for any reader of this view.
    pub fn tell(&self) -> Front
        ensures { (result.seen.book ≡ self.now.book) × (front_of result ≡ self.now.published) }
    {
        self.publisher.tell()
    }

    /// What a key has after the commits that are published now, by a reader of this view.
    ///
    /// Warming: there is no list yet. Stopped: the view has ended.
    pub fn read(&self, reader: &mut Reader, key: Key) -> Result<Answer, Fault>
        requires book { book_of reader.old ≡ self.now.book }
        requires pages { pages_of reader.old ≡ self.now.pages }
        ensures same { IsSameReader reader.old reader.new }
        ensures ok { IfOk result (λ a. (log : List AnyRecord) (below : ℕ) → is_valid log ≡ true
            → IsShowing log below self.now → ReadsFront log below self.now.pages key a
            × (published_of self.now ≡ Some a.commits)) }
        ensures err { IfErr result (λ e. IsRefusal self.now.published e) }
    {
        let answer = read_now(&self.publisher, reader, key)?;
        Ok(answer)
    }

    /// Waits for the readers that are in a copy, and ends the view: reads are then refused with
    /// Stopped.
    pub fn close<R: Wait>(self, rt: &R) {
        let View { publisher, waiting } = self;
        drop(waiting);
        publisher.close(rt);
    }
}
