ghost use Rattle.std.specs.Prelude.{◌≡◌, ◌≤◌, replicate, None, IfOk};

use crate::queues::Queues;
use als_dirty::DirtyTable;
use als_record::Lsn;
use std::alloc::{AllocError, Global};
use std::marker::Model;

/// What a new pool has in memory. It is made before a device is touched.
#[derive(Drop)]
pub struct NewPool {
    pub(crate) alloc: Global,
    pub(crate) pages: u32,
    pub(crate) dirty: DirtyTable,
    pub(crate) queues: Queues,
    pub(crate) unread: Vec<Option<Lsn>>,
    pub(crate) first: u64,
}

impl Model for NewPool {
    ghost use Rattle.std.specs.Prelude.{ℕ, ◌≡◌, ◌≤◌, replicate, None, false, []};
    ghost use Rattle.als_dirty.specs.Entries.{untouched_page};
    ghost use Rattle.als_pool.specs.Pooled.{Prepared};

    ghost Value = { Prepared };

    ghost view = { λ new. record { pages = new.pages; first = new.first } };

    ghost invariant = { λ new. (new.pages ≤ 4096) × (new.dirty ≡ replicate new.pages untouched_page)
        × (new.queues ≡ record {
          waits = replicate new.pages [];
          places = replicate new.pages false;
        }) × (new.unread.items ≡ replicate new.pages None) };
}

impl NewPool {
    /// The memory of a pool of so many empty pages, whose first lease gets number 1.
    pub fn new(alloc: Global, pages: u32) -> Result<NewPool, AllocError>
        requires { pages ≤ 4096 }
        ensures { IfOk result (λ new. new ≡ record { pages = pages; first = 1 }) }
    {
        NewPool::numbered(alloc, pages, 1)
    }

    /// The same, where the first lease gets this number.
    pub fn numbered(alloc: Global, pages: u32, first: u64) -> Result<NewPool, AllocError>
        requires { pages ≤ 4096 }
        ensures { IfOk result (λ new. new ≡ record { pages = pages; first = first }) }
    {
        let dirty = DirtyTable::new(alloc, pages)?;
        let queues = Queues::new(alloc, pages)?;
        let unread = all_read(alloc, pages)?;
        Ok(NewPool {
            alloc,
            pages,
            dirty,
            queues,
            unread,
            first,
        })
    }
}

// No page that waits to be read.
fn all_read(alloc: Global, pages: u32) -> Result<Vec<Option<Lsn>>, AllocError>
    ensures { IfOk result (λ unread. unread.items ≡ replicate pages None) }
{
    let mut unread = Vec::with_capacity(alloc, pages as usize)?;
    for _page in 0..pages {
        unread.push(None)?;
    }
    Ok(unread)
}
