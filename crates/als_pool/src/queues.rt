ghost use Rattle.std.specs.Prelude.{◌≡◌, ℕ, ◌<◌, ◌≤◌, ◌+◌, ◌^◌, ◌++◌, ◌∷◌, [], true, false};
ghost use Rattle.std.specs.Prelude.{length, replicate, drop, slice_set, IsOk, IfOk, OnOk};
ghost use Rattle.std.specs.Prelude.{OnErr, IsTrue, ◌↔◌};
ghost use Rattle.std.specs.Vec.{vec_len};
ghost use Rattle.als_dirty.specs.Images.{first_lsn};
ghost use Rattle.als_lease.specs.Queue.{empty_queue, count_up_to};
ghost use Rattle.als_pool.specs.Queues.{pending_of, has_place, total_waiting};
ghost use Rattle.als_pool.specs.Queues.{WaitsFirst, IsNextFlag};

use als_lease::PageQueue;
use als_record::{Change, Lsn};
use memchr::memchr;
use std::alloc::{AllocError, Global};
use std::marker::Model;

/// The changes that wait for each page.
pub struct Queues {
    queues: Vec<PageQueue>,
    // 1 for a page for which changes wait, else 0: the next one is found without a look at the
    // queues.
    flags: Vec<u8>,
    // How many wait, over all pages.
    total: usize,
}

// Written out: a derived drop is proved wherever the queues are dropped, this one only here.
impl Drop for Queues {
    fn drop(self) {
        let Queues {
            queues,
            flags,
            total: _,
        } = self;
        drop(queues);
        drop(flags);
    }
}

impl Model for Queues {
    ghost use Rattle.std.specs.Prelude.{◌≡◌, ◌≤◌, length, map};
    ghost use Rattle.als_pool.specs.Queues.{Waiting, total_waiting, flags_of};

    ghost Value = { Waiting };

    ghost view = { λ q. record {
      waits = map (λ p. p.pending) q.queues.items;
      places = map (λ p. p.has_room) q.queues.items;
    } };

    ghost invariant = { λ q. (length q.queues.items ≤ 4096)
        × (q.total ≡ total_waiting (map (λ p. p.pending) q.queues.items))
        × (q.flags.items ≡ flags_of (map (λ p. p.pending) q.queues.items)) };
}

impl Queues {
    /// A queue for each page, in which nothing waits.
    pub fn new(alloc: Global, pages: u32) -> Result<Queues, AllocError>
        requires { pages ≤ 4096 }
        ensures { IfOk result (λ q. q ≡ record {
          waits = replicate pages [];
          places = replicate pages false;
        }) }
    {
        let mut queues = Vec::with_capacity(alloc, pages as usize)?;
        let mut flags = Vec::with_capacity(alloc, pages as usize)?;
        for _page in 0..pages {
            queues.push(PageQueue::empty(alloc))?;
            flags.push(0)?;
        }
        Ok(Queues {
            queues,
            flags,
            total: 0,
        })
    }

    /// How many changes wait, over all pages.
    pub fn total(&self) -> usize
        ensures { result ≡ total_waiting self.now.waits }
    {
        self.total
    }

    /// The LSN of the first change that waits for a page; none for no page.
    pub fn first(&self, page: u32) -> Option<Lsn>
        ensures { result ≡ first_lsn (pending_of self.now.waits page) }
    {
        let queue = self.queues.get(page as usize)?;
        queue.first()
    }

    /// The changes that wait for a page.
    pub fn waiting(&self, page: u32) -> &[Change]
        requires { page < length self.now.waits }
        ensures { result.now ≡ pending_of self.now.waits page }
    {
        self.queues[page as usize].waiting()
    }

    /// The first page from there on for which changes wait.
    pub fn next_pending(&self, from: u32) -> Option<u32>
        ensures { WaitsFirst self.now.waits from result }
    {
        let from = (from as usize).min(self.flags.len());
        match next_flag(&self.flags, from) {
            Some(page) => Some(page as u32),
            None => None,
        }
    }

    /// Makes room for one more change of a page. An `Err` changes nothing.
    #[inline(always)]
    pub fn reserve(&mut self, page: u32) -> Result<(), AllocError>
        requires { page < length self.old.waits }
        ensures ok { OnOk result (self.new
            ≡ record self.old { places = slice_set self.old.places page true }) }
        ensures place { OnOk result (has_place self.new.places page ≡ true) }
        ensures err { OnErr result (self.new ≡ self.old) }
        ensures reserved { has_place self.old.places page ≡ true → IsOk result }
    {
        let queue = &mut self.queues[page as usize];
        queue.reserve()?;
        Ok(())
    }

    /// Adds a change behind those that its page waits for. It takes no memory.
    pub fn push(&mut self, change: Change)
        requires in_range { change.key.page < length self.old.waits }
        requires room { has_place self.old.places change.key.page ≡ true }
        requires count { total_waiting self.old.waits + 1 < 2 ^ 64 }
        ensures waits { self.new.waits ≡ slice_set self.old.waits change.key.page
            (pending_of self.old.waits change.key.page ++ change ∷ []) }
        ensures places { self.new.places ≡ slice_set self.old.places change.key.page false }
    {
        let page = change.key.page as usize;
        self.total += 1;
        self.queues[page].push(change);
        self.flags[page] = 1;
    }

    /// Takes out so many of the first changes that wait for a page. It takes no memory.
    pub fn drop_front(&mut self, page: u32, count: usize)
        requires in_range { page < length self.old.waits }
        requires some { count ≤ length (pending_of self.old.waits page) }
        ensures waits { self.new.waits ≡ slice_set self.old.waits page
            (drop count (pending_of self.old.waits page)) }
        ensures places { self.new.places ≡ self.old.places }
    {
        let page = page as usize;
        self.total -= count;
        self.flags[page] = self.queues[page].drop_and_flag(count);
    }

    /// How many of the first changes that wait for a page stand at or below an LSN.
    pub fn count_up_to(&self, page: u32, lsn: Lsn) -> usize
        requires { page < length self.now.waits }
        ensures { result ≡ count_up_to lsn (pending_of self.now.waits page) }
    {
        self.queues[page as usize].count_up_to(lsn)
    }
}

// The first page from a number on whose flag is set.
fn next_flag(flags: &Vec<u8>, from: usize) -> Option<usize>
    requires { from ≤ vec_len flags.now }
    ensures { IsNextFlag flags.now.items from result }
{
    match memchr(1, tail(flags, from)) {
        Some(found) => Some(from + found),
        None => None,
    }
}

// The flags from a page on.
fn tail(flags: &Vec<u8>, from: usize) -> &[u8]
    requires { from ≤ vec_len flags.now }
    ensures { result.now ≡ drop from flags.now.items }
{
    &flags[from..]
}
