ghost use Rattle.std.specs.Prelude.{◌≡◌, ◌<◌, ◌≤◌, ◌+◌, ◌↔◌, true, length, take, IsTrue, MatchBool};
ghost use Rattle.std.specs.Prelude.{[]};
ghost use Rattle.als_page.specs.Page.{id_of, state_of};
ghost use Rattle.als_page.specs.Changes.{AreNext};
ghost use Rattle.als_record.specs.Pages.{empty_page};
ghost use Rattle.als_lease.specs.Lease.{working_of, is_finished, with_done, lease_for};

use crate::compare::same_changes;
use als_page::Page;
use als_record::{Change, KeptImage, Key, Lsn};
use std::marker::Model;

/// The most changes that a lease has.
pub const BATCH_LIMIT: usize = 64;

/// How many changes a worker redoes before it gives others a turn.
pub const TURN_LEN: usize = 16;

/// What a lease holds: a page, changes of it, and the page with those that are redone. Before the
/// first lease it has no changes.
#[derive(Drop)]
pub(crate) struct Work {
    number: u64,
    base: Page,
    // The first `count` ones are the batch.
    changes: [Change; BATCH_LIMIT],
    count: usize,
    done: usize,
    working: Page,
}

impl Model for Work {
    ghost use Rattle.std.specs.Prelude.{take};
    ghost use Rattle.als_page.specs.Page.{id_of, state_of};
    ghost use Rattle.als_lease.specs.Lease.{Leased};
    ghost use Rattle.als_lease.specs.Work.{IsKept};

    ghost Value = { Leased };

    ghost view = { λ w. record {
      number = w.number;
      page = id_of w.base;
      base = state_of w.base;
      batch = take w.count w.changes;
      done = w.done;
    } };

    ghost invariant = { λ w. IsKept (id_of w.base) (state_of w.base) w.changes w.count w.done
        (id_of w.working) (state_of w.working) };
}

impl Work {
    /// No lease yet.
    pub(crate) fn empty() -> Work
        ensures { result ≡ lease_for 0 0 empty_page [] }
    {
        Work {
            number: 0,
            base: Page::empty(0),
            changes: no_changes(),
            count: 0,
            done: 0,
            working: Page::empty(0),
        }
    }

    /// Becomes a new lease of this number: of a page as it is, with the first changes that wait for
    /// it, the lesser of 64 and all.
    pub(crate) fn fill(&mut self, number: u64, base: &Page, waiting: &[Change])
        requires { AreNext (id_of base.now) (state_of base.now).lsn (take 64 waiting.now) }
        ensures { self.new ≡ lease_for number (id_of base.now) (state_of base.now) waiting.now }
    {
        let count = BATCH_LIMIT.min(waiting.len());
        copy_first(&mut self.changes, waiting, count);
        self.number = number;
        self.base = *base;
        self.count = count;
        self.done = 0;
        self.working = *base;
    }

    pub(crate) fn number(&self) -> u64
        ensures { result ≡ self.now.number }
    {
        self.number
    }

    pub(crate) fn page_id(&self) -> u32
        ensures { result ≡ self.now.page }
    {
        self.base.id()
    }

    pub(crate) fn base(&self) -> &Page
        ensures number { id_of result.now ≡ self.now.page }
        ensures state { state_of result.now ≡ self.now.base }
    {
        &self.base
    }

    pub(crate) fn batch(&self) -> &[Change]
        ensures value { result.now ≡ self.now.batch }
        ensures next { AreNext self.now.page self.now.base.lsn self.now.batch }
    {
        &self.changes[..self.count]
    }

    pub(crate) fn done(&self) -> usize
        ensures value { result ≡ self.now.done }
        ensures within { result ≤ length self.now.batch }
        ensures most { length self.now.batch ≤ 64 }
        ensures next { AreNext self.now.page self.now.base.lsn self.now.batch }
    {
        self.done
    }

    pub(crate) fn working(&self) -> &Page
        ensures number { id_of result.now ≡ self.now.page }
        ensures state { state_of result.now ≡ working_of self.now }
    {
        &self.working
    }

    pub(crate) fn finished(&self) -> bool
        ensures { result ≡ is_finished self.now }
    {
        self.done == self.count
    }

    /// Redoes the next change, and says whether there was one.
    pub(crate) fn redo_next(&mut self) -> bool
        ensures { MatchBool result
            ((self.old.done < length self.old.batch)
            × (self.new ≡ with_done self.old (self.old.done + 1)))
            ((is_finished self.old ≡ true) × (self.new ≡ self.old)) }
    {
        if self.done == self.count {
            return false;
        }
        let change = self.changes[self.done];
        self.working.redo(&change);
        self.done += 1;
        true
    }

    /// Whether this is the lease of this number, of this page with these changes.
    pub(crate) fn is_of(&self, number: u64, base: &Page, batch: &[Change]) -> bool
        ensures { IsTrue result ↔ ((self.now.number ≡ number) × (self.now.page ≡ id_of base.now)
            × (self.now.base ≡ state_of base.now) × (self.now.batch ≡ batch.now)) }
    {
        self.number == number
            && same_changes(&self.changes[..self.count], batch)
            && self.base.is_same(base)
    }
}

// Room for the changes of a lease.
fn no_changes() -> [Change; BATCH_LIMIT]
    ensures { length result ≡ 64 }
{
    let change = Change {
        lsn: Lsn(0),
        key: Key { page: 0, slot: 0 },
        after: KeptImage::absent(),
    };
    [change; BATCH_LIMIT]
}

// Copies the first of these changes.
fn copy_first(into: &mut [Change; BATCH_LIMIT], waiting: &[Change], count: usize)
    requires here { count ≤ length waiting.now }
    requires most { count ≤ 64 }
    requires places { length into.old ≡ 64 }
    ensures first { take count into.new ≡ take count waiting.now }
    ensures places { length into.new ≡ 64 }
{
    for i in 0..count {
        into[i] = waiting[i];
    }
}
