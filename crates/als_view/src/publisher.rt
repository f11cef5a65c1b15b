//! The publisher of a view: it gives the readers one front of the commits after another.
//!
//! ```text
//! commits of the log:   published            | queued here | waiting (als_commits)
//!                       in both copies, or   |             |
//!                       in one and its log   |             |
//! readers:              enter the copy that was published last, and never wait
//! ```
//!
//! Rules:
//! 1. A commit is queued only once its record ends at or below the acknowledged LSN, since a
//!    publish shows all that is queued.
//! 2. A publish changes the copy that no reader enters, lets the readers into it, and waits for
//!    those that are still in the other one. The next publish changes that one: each copy gets each
//!    commit.
//! 3. Each copy names the front of the history that it is (its token). What a reader saw is such a
//!    front too, and the history only grows: so each answer is of a front that begins with all that
//!    this reader saw before and was told.
//! 4. `close` ends a publisher: it waits for the readers and frees the copies. Where nobody may
//!    wait it is dropped: the copies are then never freed, and readers go on.

ghost use Rattle.std.specs.Prelude.{◌≡◌, ◌+◌, ◌++◌, ◌∷◌, [], true, length, drop, fold, Some};
ghost use Rattle.std.specs.Prelude.{IfSome, IfOk, IfErr, OnOk, OnErr, MatchResult};
ghost use mathlib.Core.List.{IsPrefix};
ghost use Rattle.left_right.specs.Sides.{view};
ghost use Rattle.als_view.specs.Entries.{AreCommits};
ghost use Rattle.als_view.specs.Books.{head_of};
ghost use Rattle.als_view.specs.Fronts.{front_of};
ghost use Rattle.als_view.specs.Changes.{changed, added, marked_by};
ghost use Rattle.als_view.specs.declared.state.State.{State};
ghost use Rattle.als_view.specs.Rules.{IsSound, book_in, pages_in};

use crate::change::Change;
use crate::front::Front;
use crate::history::{Law, Token};
use crate::reader::Reader;
use crate::rule::{CopyWriter, Notes, Sees};
use als_commits::Commit;
use core::mem::{ManuallyDrop, replace_with};
use logbook::Word;
use std::alloc::AllocError;
use std::collections::VecDeque;
use std::sync::Wait;

/// The one publisher of a view.
pub struct Publisher {
    pub(crate) writer: CopyWriter,
    pub(crate) queue: VecDeque<Commit>,
    pub(crate) head: Word<Commit, u64, Law>,
    // All commits that were published or are queued.
    pub(crate) front: Front,
    ghost head_is: { head ≡ head_of front.seen.book },
    ghost linked: { book_in (view writer.desk.place) ≡ Some front.seen.book },
    ghost sized: { pages_in (view writer.desk.place) ≡ Some writer.desk.shown.value.pages },
    ghost same_book: { writer.desk.shown.value.seen.book ≡ front.seen.book },
    ghost names: { writer.desk.shown.value.seen.log ≡ writer.desk.shown.value.list.items },
    ghost pends: { front.seen.log ≡ (writer.desk.shown.value.list.items
        ++ added (drop writer.behind writer.log.items)) ++ queue.items },
}

/// Gives the queued commits to the writer, the first ones first.
fn hand_over(writer: &mut CopyWriter, queue: &mut VecDeque<Commit>) -> Result<(), AllocError>
    ensures desk { writer.new.desk ≡ writer.old.desk }
    ensures all { added (drop writer.new.behind writer.new.log.items) ++ queue.new.items
        ≡ added (drop writer.old.behind writer.old.log.items) ++ queue.old.items }
    ensures ok { OnOk result (queue.new.items ≡ []) }
{
    while let Some(commit) = queue.pop_front() {
        match writer.append(Change::Add(commit)) {
            Ok(()) => {}
            Err(Change::Add(commit)) => {
                queue.push_front_reserved(commit);
                return Err(AllocError);
            }
            Err(Change::Mark(_)) => unreachable!(),
        }
    }
    Ok(())
}

/// The same, and then a mark behind them.
fn load(
    writer: &mut CopyWriter,
    queue: &mut VecDeque<Commit>,
    seen: &Token,
) -> Result<(), AllocError>
    ensures desk { writer.new.desk ≡ writer.old.desk }
    ensures all { added (drop writer.new.behind writer.new.log.items) ++ queue.new.items
        ≡ added (drop writer.old.behind writer.old.log.items) ++ queue.old.items }
    ensures ok { OnOk result ((queue.new.items ≡ []) × ((s : State)
        → fold changed s (drop writer.new.behind writer.new.log.items)
        ≡ marked_by s (added (drop writer.old.behind writer.old.log.items) ++ queue.old.items)
        (record { seen = seen.now }))) }
{
    hand_over(writer, queue)?;
    let Ok(()) = writer.append(Change::Mark(seen.again())) else {
        return Err(AllocError);
    };
    Ok(())
}

impl Publisher {
    ghost use Rattle.als_view.specs.Views.{book_by, all_by, published_by, listed_in, IsSameView};
    ghost use Rattle.als_view.specs.Views.{IsNewReader};

    /// Queues a commit for the next publish. Where allocation fails it is handed back, and nothing
    /// changes.
    pub fn queue(&mut self, commit: Commit) -> Result<(), Commit>
        ensures same { IsSameView self.old self.new }
        ensures published { published_by self.new ≡ published_by self.old }
        ensures queued { MatchResult result (λ _. all_by self.new ≡ all_by self.old ++ commit ∷ [])
            (λ c. (c ≡ commit) × (all_by self.new ≡ all_by self.old)) }
    {
        let Publisher {
            queue,
            head,
            front,
            ..
        } = self;
        if front.count == u64::MAX || queue.reserve(1).is_err() {
            return Err(commit);
        }
        if !front.extend(head, &commit) {
            return Err(commit);
        }
        queue.push_back_reserved(commit);
        Ok(())
    }

    /// Publishes all queued commits at once, and opens the list if need be. It waits for readers
    /// that are still in the copy of before the last call. At an `Err` readers see what they saw,
    /// and the commits stay queued.
    pub fn publish<R: Wait>(&mut self, rt: &R) -> Result<(), AllocError>
        requires { AreCommits (all_by self.old) }
        ensures same { IsSameView self.old self.new }
        ensures all { all_by self.new ≡ all_by self.old }
        ensures done { MatchResult result (λ _. published_by self.new ≡ Some (all_by self.old))
            (λ _. published_by self.new ≡ published_by self.old) }
    {
        replace_with(self, rt, |publisher, rt| publisher.publish_all(rt))
    }

    /// The publish itself, of a publisher by value.
    fn publish_all<R: Wait>(self, rt: &R) -> (Publisher, Result<(), AllocError>)
        requires { AreCommits (all_by self) }
        ensures same { IsSameView self result.0 }
        ensures all { all_by result.0 ≡ all_by self }
        ensures done { MatchResult result.1 (λ _. published_by result.0 ≡ Some (all_by self))
            (λ _. published_by result.0 ≡ published_by self) }
    {
        let Publisher {
            mut writer,
            mut queue,
            head,
            front,
        } = self;
        if let Err(e) = load(&mut writer, &mut queue, &front.seen) {
            let publisher = Publisher {
                writer,
                queue,
                head,
                front,
            };
            return (publisher, Err(e));
        }
        let (writer, done) = writer.publish_as::<Sees, R>(rt);
        match done {
            Ok(()) => {
                let publisher = Publisher {
                    writer,
                    queue,
                    head,
                    front,
                };
                (publisher, Ok(()))
            }
            Err(e) => {
                let publisher = Publisher {
                    writer,
                    queue,
                    head,
                    front,
                };
                (publisher, Err(e))
            }
        }
    }

    /// The whole published list, for any reader of this view.
    pub fn tell(&self) -> Front
        ensures { (result.seen.book ≡ book_by self.now)
            × (front_of result ≡ published_by self.now) }
    {
        let copy = self.writer.published();
        Front {
            listed: u64::from(copy.is_listed()),
            count: copy.count(),
            seen: copy.seen().again(),
        }
    }

    /// How many commits are published.
    pub fn count(&self) -> u64
        ensures { IfSome (published_by self.now) (λ p. result ≡ length p) }
    {
        self.writer.published().count()
    }

    /// How many commits are queued for the next publish.
    pub fn unpublished(&self) -> u64
        ensures front { IfSome (published_by self.now) (λ p. IsPrefix p (all_by self.now)) }
        ensures count { length (listed_in (published_by self.now)) + result
            ≡ length (all_by self.now) }
    {
        self.front.count - self.writer.published().count()
    }

    /// One more reader, which knows the published list.
    pub(crate) fn reader(&mut self) -> Result<Reader, AllocError>
        ensures same { IsSameView self.old self.new }
        ensures all { all_by self.new ≡ all_by self.old }
        ensures published { published_by self.new ≡ published_by self.old }
        ensures reader { IfOk result (λ r. IsNewReader self.old r) }
    {
        let mut inner = self.writer.factory().reader()?;
        inner.learn::<Notes>(self.writer.tell::<Notes>());
        Ok(Reader::of(inner, self.tell(), self.writer.published().pages()))
    }

    /// Waits for the readers that are in a copy, and ends the view: reads are then refused with
    /// Stopped.
    pub fn close<R: Wait>(self, rt: &R) {
        let Publisher {
            writer,
            queue: _queue,
            head: _head,
            front: _front,
        } = self;
        writer.take(rt);
    }
}

// Where nobody may wait the two copies are never freed, and readers go on. `close` frees them.
impl Drop for Publisher {
    fn drop(self) {
        let Self {
            writer,
            queue: _queue,
            head: _head,
            front: _front,
        } = self;
        let _leaked = unsafe { ManuallyDrop::new_unchecked(writer) };
    }
}
