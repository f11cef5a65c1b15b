ghost use Rattle.std.specs.Prelude.{◌≡◌, ◌<◌, ◌≤◌, ◌++◌, ◌∷◌, [], true, false, length, drop, IsOk};
ghost use Rattle.std.specs.Prelude.{OnOk, OnErr};
ghost use Rattle.std.specs.Vec.{vec_len, vec_capacity};
ghost use Rattle.als_dirty.specs.Images.{first_lsn};
ghost use Rattle.als_lease.specs.Queue.{empty_queue, count_up_to, flag_of};

use als_record::{Change, Lsn};
use std::alloc::{AllocError, Global};
use std::marker::Model;

// A queue that had room for more changes than this gives memory back once nothing waits.
const LARGE: usize = 1024;

// And keeps room for so many.
const SMALL: usize = 64;

/// The changes of a page that are not redone yet.
pub struct PageQueue {
    changes: Vec<Change>,
    // So many of the first ones are redone already.
    taken: usize,
    // The queue has a place for one more change.
    has_room: bool,
}

// Written out: a derived drop is proved wherever a queue is dropped, this one only here.
impl Drop for PageQueue {
    fn drop(self) {
        let PageQueue {
            changes,
            taken: _,
            has_room: _,
        } = self;
        drop(changes);
    }
}

impl Model for PageQueue {
    ghost use Rattle.std.specs.Prelude.{◌≡◌, ◌<◌, ◌≤◌, true, drop};
    ghost use Rattle.std.specs.Vec.{vec_len, vec_capacity};
    ghost use Rattle.als_lease.specs.Queue.{Queue};

    ghost Value = { Queue };

    ghost view = { λ q. record { pending = drop q.taken q.changes.items; has_room = q.has_room } };

    ghost invariant = { λ q. (q.taken ≤ vec_len q.changes)
        × (q.has_room ≡ true → vec_len q.changes < vec_capacity q.changes) };
}

impl PageQueue {
    /// A queue in which nothing waits.
    pub fn empty(alloc: Global) -> PageQueue
        ensures { result ≡ empty_queue }
    {
        PageQueue {
            changes: Vec::new(alloc),
            taken: 0,
            has_room: false,
        }
    }

    /// The changes that wait.
    pub fn waiting(&self) -> &[Change]
        ensures { result.now ≡ self.now.pending }
    {
        &self.changes[self.taken..]
    }

    /// How many changes wait.
    pub fn len(&self) -> usize
        ensures { result ≡ length self.now.pending }
    {
        self.changes.len() - self.taken
    }

    /// The LSN of the first change that waits.
    pub fn first(&self) -> Option<Lsn>
        ensures { result ≡ first_lsn self.now.pending }
    {
        match self.waiting().first() {
            Some(change) => Some(change.lsn),
            None => None,
        }
    }

    /// How many of the first changes that wait stand at or below an LSN.
    pub fn count_up_to(&self, lsn: Lsn) -> usize
        ensures { result ≡ count_up_to lsn self.now.pending }
    {
        let waiting = self.waiting();
        for i in 0..waiting.len() {
            if lsn.0 < waiting[i].lsn.0 {
                return i;
            }
        }
        waiting.len()
    }

    /// Makes room for one more change: the next `push` takes no memory. An `Err` changes nothing.
    // Nearly always there is room: that much is inlined where a record is fed, and no more.
    #[inline(always)]
    pub fn reserve(&mut self) -> Result<(), AllocError>
        ensures ok { OnOk result (self.new ≡ record self.old { has_room = true }) }
        ensures err { OnErr result (self.new ≡ self.old) }
        ensures reserved { self.old.has_room ≡ true → IsOk result }
    {
        if self.has_room {
            return Ok(());
        }
        if self.changes.len() < self.changes.capacity() {
            self.has_room = true;
            return Ok(());
        }
        self.grow()
    }

    // The same where no place is left.
    #[inline(never)]
    fn grow(&mut self) -> Result<(), AllocError>
        requires { self.old.has_room ≡ false }
        ensures ok { OnOk result (self.new ≡ record self.old { has_room = true }) }
        ensures err { OnErr result (self.new ≡ self.old) }
    {
        let taken = self.taken;
        self.taken = close_up(&mut self.changes, taken);
        self.changes.reserve(1)?;
        self.has_room = true;
        Ok(())
    }

    /// Adds a change behind those that wait. It takes no memory.
    pub fn push(&mut self, change: Change)
        requires room { self.old.has_room ≡ true }
        ensures { self.new ≡ record {
          pending = self.old.pending ++ change ∷ [];
          has_room = false;
        } }
    {
        self.changes.push_reserved(change);
        self.has_room = false;
    }

    /// Takes out so many of the first changes. It takes no memory.
    pub fn drop_front(&mut self, count: usize)
        requires { count ≤ length self.old.pending }
        ensures { self.new ≡ record self.old { pending = drop count self.old.pending } }
    {
        let taken = self.taken + count;
        self.taken = settle(&mut self.changes, taken);
    }

    /// The same, and answers the flag of what is left: 1 where changes wait, else 0.
    pub fn drop_and_flag(&mut self, count: usize) -> u8
        requires { count ≤ length self.old.pending }
        ensures value { self.new ≡ record self.old { pending = drop count self.old.pending } }
        ensures flag { result ≡ flag_of self.new.pending }
    {
        self.drop_front(count);
        match self.first() {
            Some(_) => 1,
            None => 0,
        }
    }
}

// Lets go of all changes once all are redone, and answers how many of those left are redone.
fn settle(changes: &mut Vec<Change>, taken: usize) -> usize
    requires { taken ≤ vec_len changes.old }
    ensures left { drop result changes.new.items ≡ drop taken changes.old.items }
    ensures taken { result ≤ vec_len changes.new }
    ensures room { vec_len changes.old < vec_capacity changes.old
        → vec_len changes.new < vec_capacity changes.new }
{
    if taken != changes.len() {
        return taken;
    }
    empty(changes);
    0
}

// Where no place is left and more than half of the changes are redone, moves the others to the
// front, so that none is moved while changes are redone. Answers how many of those left are redone.
fn close_up(changes: &mut Vec<Change>, taken: usize) -> usize
    requires { taken ≤ vec_len changes.old }
    ensures left { drop result changes.new.items ≡ drop taken changes.old.items }
    ensures taken { result ≤ vec_len changes.new }
{
    let len = changes.len();
    if len < changes.capacity() || taken <= len / 2 {
        return taken;
    }
    changes.rotate_left(taken);
    changes.truncate(len - taken);
    0
}

// Lets go of all changes, and of the memory of many.
fn empty(changes: &mut Vec<Change>)
    ensures items { changes.new.items ≡ [] }
    ensures len { vec_len changes.new ≡ 0 }
    ensures room { vec_len changes.old < vec_capacity changes.old → 0 < vec_capacity changes.new }
{
    changes.clear();
    if LARGE < changes.capacity() {
        changes.shrink_to(SMALL);
    }
}
