ghost use Rattle.std.specs.Prelude.{◌≡◌, ◌≤◌, length, replicate, Some, IfOk};
ghost use Rattle.std.specs.List.{fold};
ghost use Rattle.als_pool.specs.Restart.{at_first, started_at, with_row};

use als_dirty::DirtyTable;
use als_record::{FIRST_LSN, LoggedPage, Lsn};
use std::alloc::{AllocError, Global};
use std::marker::Model;

/// The dirty page table at a restart, and the LSNs from which on the changes of each page wait.
#[derive(Drop)]
pub struct Starts {
    pub(crate) dirty: DirtyTable,
    pub(crate) unread: Vec<Option<Lsn>>,
}

impl Model for Starts {
    ghost use Rattle.std.specs.Prelude.{◌≡◌, length};
    ghost use Rattle.als_pool.specs.Restart.{Started};

    ghost Value = { Started };

    ghost view = { λ s. record { dirty = s.dirty; unread = s.unread.items } };

    ghost invariant = { λ s. length s.dirty ≡ length s.unread.items };
}

impl Starts {
    /// With no row: the changes of each page wait from a position on.
    pub fn new(alloc: Global, pages: u32, position: Lsn) -> Result<Starts, AllocError>
        requires { pages ≤ 4096 }
        ensures { IfOk result (λ s. s ≡ started_at pages position) }
    {
        let dirty = DirtyTable::new(alloc, pages)?;
        let unread = all_from(alloc, pages, at_first(position))?;
        Ok(Starts { dirty, unread })
    }

    /// Takes over the rows of a checkpoint. A row of no page is passed over.
    pub fn take_rows(&mut self, rows: &[LoggedPage])
        ensures { self.new ≡ fold with_row self.old rows.now }
    {
        for row in rows {
            self.take_row(*row);
        }
    }

    fn take_row(&mut self, row: LoggedPage)
        ensures { self.new ≡ with_row self.old row }
    {
        if row.page as usize >= self.unread.len() {
            return;
        }
        let from = Some(at_first(row.rec_lsn));
        self.dirty.loaded(row.page, from);
        self.unread[row.page as usize] = from;
    }
}

// No record stands below the first one.
fn at_first(lsn: Lsn) -> Lsn
    ensures { result ≡ at_first lsn }
{
    Lsn(lsn.0.max(FIRST_LSN.0))
}

// The changes of each page wait from an LSN on.
fn all_from(alloc: Global, pages: u32, from: Lsn) -> Result<Vec<Option<Lsn>>, AllocError>
    ensures { IfOk result (λ unread. unread.items ≡ replicate pages (Some from)) }
{
    let mut unread = Vec::with_capacity(alloc, pages as usize)?;
    for _page in 0..pages {
        unread.push(Some(from))?;
    }
    Ok(unread)
}
